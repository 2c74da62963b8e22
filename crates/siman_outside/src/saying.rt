//! Commands that say something of files: which files they open, in which order.

ghost use Rattle.siman_outside.specs.Outside.{Did, stream};
ghost use Rattle.siman_outside.specs.Recorded.{SaysOfBytes, SaysOfBoth};
ghost use Rattle.siman_outside.specs.Saying.{SaysOfFile, SaysOfFiles};

use crate::commands::Reading;
use crate::fault::Fault;
use crate::notes::Notes;
use crate::opening::open_fault;
use crate::outside::Outside;
use crate::recording_command::{OfCertificate, OfRecording, say_of_certificate, say_of_recording};
use std::alloc::Global;
use std::io::Write;

/// Opens the file of a recording, and runs a command on it, read as `reading` says.
pub fn say_of_file<'a, C: OfRecording<'a> + Drop, O: Outside, W: Write>(
    alloc: Global,
    command: C,
    reading: Reading,
    name: &'a str,
    outside: &mut O,
    out: &mut W,
    notes: &mut Notes,
) -> Result<C::Answer, Fault<'a>>
    ensures { Did O.deeds O.holds outside.old outside.new (λ deeds. SaysOfFile (SaysOfBytes reading (C.says command)) name.now deeds result (stream (W.contents out.old) (W.contents out.new))) }
{
    match outside.open(name) {
        Ok(opened) => {
            let file = outside.read(opened);
            say_of_recording(alloc, command, reading, file, out, notes)
        }
        Err(error) => Err(open_fault(name, &error)),
    }
}

/// Opens the files of a recording and of a certificate, in the order of their names, before either
/// is read, and runs a command on them; the recording is read as `reading` says.
pub fn say_of_files<'a, C: OfCertificate<'a> + Drop, O: Outside, W: Write>(
    alloc: Global,
    command: C,
    reading: Reading,
    names: (&'a str, &'a str),
    outside: &mut O,
    out: &mut W,
    notes: &mut Notes,
) -> Result<C::Answer, Fault<'a>>
    ensures { Did O.deeds O.holds outside.old outside.new (λ deeds. SaysOfFiles (SaysOfBoth reading (C.says command)) names.entry.0.now names.entry.1.now deeds result (stream (W.contents out.old) (W.contents out.new))) }
{
    let (name, other) = names;
    let first = match outside.open(name) {
        Ok(opened) => opened,
        Err(error) => return Err(open_fault(name, &error)),
    };
    match outside.open(other) {
        Ok(second) => {
            let first = outside.read(first);
            let second = outside.read(second);
            say_of_certificate(alloc, command, reading, first, second, out, notes)
        }
        Err(error) => Err(open_fault(other, &error)),
    }
}
