//! Writing long texts in parts of some 64 KiB.

ghost use Rattle.std.specs.Prelude.{◌≡◌, ◌≤◌, length, OnOk, string_bytes};
ghost use Rattle.siman_outside.specs.Passing.{PassesOn, shown_status};

use crate::fault::Fault;
use byte_files::put;
use std::io::Write;

/// Number of bytes of text that are buffered before they are written.
pub const HELD: usize = 65_536;

/// Writes the buffered text and clears the buffer, if it has more than `most` bytes.
pub fn pass_on<W: Write>(lines: &mut String, most: usize, out: &mut W) -> Result<(), Fault<'static>>
    ensures passed { PassesOn result (W.contents out.old) (W.contents out.new) (string_bytes lines.new) (string_bytes lines.old) }
    ensures held { OnOk result (length (string_bytes lines.new) ≤ most) }
{
    if lines.len() <= most {
        return Ok(());
    }
    let written = put(out, lines.as_bytes());
    lines.clear();
    match written {
        Ok(()) => Ok(()),
        Err(_) => Err(Fault::Output),
    }
}

/// Exit status after the text of a recording: 0, or the fault.
pub fn status_of(shown: Result<(), Fault<'static>>) -> Result<u8, Fault<'static>>
    ensures { result ≡ shown_status shown.entry }
{
    match shown {
        Ok(()) => Ok(0),
        Err(fault) => Err(fault),
    }
}
