//! Reading a whole input, up to a limit.

ghost use Rattle.std.specs.Prelude.{◌≤◌, ◌≡◌, ◌+◌, vec_len, IfSome, IfOk};
ghost use Rattle.std.specs.Io.KnownBytes.{Consumes};
ghost use Rattle.byte_files.specs.Fetching.{fetched};

use byte_files::{FetchFault, fetch};
use std::alloc::Global;
use std::io::Read;

/// Evidence of a failed read. Only the functions of this module make one.
#[derive(Clone, Copy, Debug, PartialEq, Eq)]
pub struct Unread(());

/// Why an input was not read to its end.
#[derive(Clone, Copy)]
pub enum InputFault {
    /// A read failed.
    Unread(Unread),
    /// Memory for the bytes ran out.
    Memory,
}

/// Reads an input to its end, or to one byte more than `most`; a result of `most + 1` bytes is too
/// long. The buffer grows as bytes arrive.
pub fn read_text<R: Read>(alloc: Global, reader: &mut R, most: usize) -> Result<Vec<u8>, InputFault>
    ensures text { IfOk result (λ text. IfSome (R.remaining reader.old) (λ bytes. text.items ≡ fetched most bytes)) }
    ensures bound { IfOk result (λ text. Consumes (R.remaining reader.old) (R.remaining reader.new) text.items) }
    ensures limit { IfOk result (λ text. vec_len text ≤ most + 1) }
{
    match fetch(alloc, reader, most as u64) {
        Ok(text) => Ok(text),
        Err(FetchFault::Read) => Err(InputFault::Unread(Unread(()))),
        Err(FetchFault::Memory) => Err(InputFault::Memory),
    }
}
