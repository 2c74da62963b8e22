//! The command `export`: a recording as a file of pcapng, which Wireshark and tshark show.

ghost use Rattle.std.specs.Prelude.{◌≡◌, IfOk, string_bytes};
ghost use Rattle.exercise_recording.specs.Reading.{recording_at};
ghost use Rattle.siman_outside.specs.declared.limits.TheConstants.{LARGEST_RECORDING};
ghost use Rattle.siman_file_commands.specs.Export.{exported_line, GivesLine};
ghost use Rattle.siman_print.specs.Spelled.{line_text};

use exercise_model::ExerciseLog;
use exercise_recording::{RecordingView, export, told_count};
use siman_outside::{
    Fault, LARGEST_RECORDING, Making, Notes, OfFile, Product, Reading, Settling, put_settled,
    read_bytes,
};
use siman_print::{Field, Value, named_line};
use std::alloc::{AllocError, Global};
use std::io::{Read, Write};

/// The bytes of a recording whose capture is to be written, and the line of the answer.
#[derive(Drop)]
pub struct ExportedFile {
    pub bytes: Vec<u8>,
    pub line: String,
}

/// The line of the answer: how many entries have a packet, and how many are states told, which have
/// none.
fn exported_line<L: ExerciseLog>(alloc: Global, log: &L) -> Result<String, AllocError>
    ensures { IfOk result (λ line. string_bytes line ≡ line_text (exported_line (L.recording log.now))) }
{
    let told = told_count(log);
    let packets = log.entry_count() - told;
    let fields = [
        Field::Keyed("packets", Value::Number(packets as u64)),
        Field::Keyed("told", Value::Number(told as u64)),
    ];
    named_line(alloc, "exported", &fields)
}

/// Judges the bytes of a recording whole, and makes the line of the answer.
fn judged_line(alloc: Global, bytes: &[u8]) -> Result<String, Fault<'static>>
    ensures { GivesLine (recording_at LARGEST_RECORDING bytes.now) result }
{
    let log = RecordingView::over_limited(alloc, bytes, LARGEST_RECORDING)?;
    let line = exported_line(alloc, &log)?;
    Ok(line)
}

/// The file of the capture of a recording.
impl Making for ExportedFile {
    ghost use Rattle.siman_file_commands.specs.Export.{PutsExported};

    ghost puts = { PutsExported };

    fn put<S: Settling<F>, F: Write, W: Write>(
        &self,
        alloc: Global,
        settling: &S,
        file: &mut F,
        out: &mut W,
    ) -> Result<u8, Fault<'static>> {
        let log = RecordingView::over_limited(alloc, &self.bytes, LARGEST_RECORDING)?;
        match export(&log, file) {
            Ok(()) => put_settled(settling, file, &self.line, out),
            Err(_) => Err(Fault::Output),
        }
    }
}

/// The command `export`, which makes a capture of a recording.
#[derive(Drop)]
pub struct ExportCommand {
    /// How the recording is read.
    pub reading: Reading,
}

impl OfFile for ExportCommand {
    ghost use Rattle.siman_file_commands.specs.Export.{ExportsFile};

    type Made = ExportedFile;

    ghost reads = { λ command. ExportsFile command.reading };

    fn read<R: Read + Drop>(
        self,
        alloc: Global,
        file: R,
        notes: &mut Notes,
    ) -> Result<Product<ExportedFile>, Fault<'static>> {
        let bytes = read_bytes(alloc, self.reading, file, notes)?;
        let line = judged_line(alloc, &bytes)?;
        Ok(Product::File(ExportedFile { bytes, line }))
    }
}
