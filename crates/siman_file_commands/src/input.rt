//! Reading and counting the lines of an input.

ghost use Rattle.std.specs.Prelude.{◌<◌, ◌≡◌, ◌+◌, length, IfOk, OnErr};
ghost use Rattle.byte_files.specs.Lines.{ReadsNext};

use std::io::Read;

/// Evidence of a failed read. Only the functions of this module make one.
#[derive(Clone, Copy)]
pub(crate) struct UnreadLine(());

/// Reads the next line, up to a line feed, which the last line may lack, and returns how many bytes
/// of it are in `buffer`: all, or as many as fit. `None` is the end of the input.
pub(crate) fn read_line<R: Read>(
    reader: &mut R,
    buffer: &mut [u8],
) -> Result<Option<usize>, UnreadLine>
    requires { 0 < length buffer.old }
    ensures { IfOk result (ReadsNext (R.remaining reader.old) (R.remaining reader.new) buffer.new) }
{
    match byte_files::read_line(reader, buffer) {
        Ok(held) => Ok(held),
        Err(_) => Err(UnreadLine(())),
    }
}

/// Number of the lines read so far.
#[derive(Drop)]
pub(crate) struct Count {
    so_far: usize,
}

impl Count {
    /// No lines yet.
    pub(crate) fn new() -> Count
        ensures { result.so_far ≡ 0 }
    {
        Count { so_far: 0 }
    }

    /// Counts one more line and returns the new number. After 2^64 − 1 lines, more than any input
    /// has, the next one is a failed read.
    pub(crate) fn one_more(&mut self) -> Result<usize, UnreadLine>
        ensures counted { IfOk result (λ n. n ≡ self.old.so_far + 1) }
        ensures kept { IfOk result (λ n. self.new.so_far ≡ n) }
        ensures failed { OnErr result (self.old.so_far ≡ usize.MAX) }
    {
        if self.so_far == usize::MAX {
            return Err(UnreadLine(()));
        }
        self.so_far += 1;
        Ok(self.so_far)
    }
}
