//! Lines of a text, read one after the other into a buffer of fixed size.

ghost use Rattle.std.specs.Prelude.{◌<◌, length, IfOk};
ghost use Rattle.byte_files.specs.Lines.{ReadsNext};

use crate::filling::{ReadFailed, fill};
use std::io::Read;

/// Reads the next line of a reader, up to its line feed, which the last line may lack. Returns how
/// many bytes of the line the buffer has: all of it, or as many as fit. Returns `None` at the end.
pub fn read_line<R: Read>(reader: &mut R, buffer: &mut [u8]) -> Result<Option<usize>, ReadFailed>
    requires { 0 < length buffer.old }
    ensures { IfOk result (ReadsNext (R.remaining reader.old) (R.remaining reader.new) buffer.new) }
{
    let mut held = 0;
    for _ in 0..u64::MAX {
        let mut byte = [0; 1];
        if fill(reader, &mut byte)? == 0 {
            return Ok(if held == 0 { None } else { Some(held) });
        }
        if byte[0] == b'\n' {
            return Ok(Some(held));
        }
        if held < buffer.len() {
            buffer[held] = byte[0];
            held += 1;
        }
    }
    Err(ReadFailed)
}
