//! The command `check`: judges a recording by a certificate.

ghost use Rattle.std.specs.Prelude.{◌≡◌, ◌≤◌, ℕ, List, Ok};
ghost use Rattle.std.specs.Io.KnownBytes.{Keeps};
ghost use Rattle.siman_outside.specs.declared.limits.TheConstants.{LARGEST_CERTIFICATE, LARGEST_RECORDING};
ghost use Rattle.exercise_recording.specs.Reading.{recording_at};
ghost use Rattle.exercise_check.specs.Certificate.{certificate_at};
ghost use Rattle.siman_outside.specs.Outside.{Has};
ghost use Rattle.siman_file_commands.specs.Check.{Judges, judged_status, files_fault, EndsCheck};

use byte_files::put;
use exercise_check::{Certificate, CheckFault, check, no_line, report_text};
use exercise_model::ExerciseLog;
use siman_outside::{Fault, FilesFault, Notes, OfCertificate, Reading, end, say_of_certificate};
use std::alloc::Global;
use std::io::{Read, Write};

/// Judges a recording by a certificate and writes the answer: true is a yes, with the report of the
/// recording, false a no, with the line of its first bad step. The recording is read first, whole,
/// then the certificate, whole; the whole answer is made before any of it is written.
///
/// `Recording`: the first file is no recording, has more than 268,435,456 bytes or cannot be read.
/// `Certificate`: the second is no certificate, has more than 1,048,576 steps or cannot be read.
/// `Memory`: memory ran out. All three write nothing. After `Write` a prefix of the answer is
/// written.
pub fn check_files<R: Read + Drop, C: Read + Drop, W: Write>(
    alloc: Global,
    recording: R,
    certificate: C,
    out: &mut W,
) -> Result<bool, FilesFault>
    ensures { (bytes : List ℕ) × Has (R.remaining recording) bytes
        × ((text : List ℕ) × Has (C.remaining certificate) text
        × Judges (recording_at LARGEST_RECORDING bytes) (certificate_at LARGEST_CERTIFICATE text) result (W.contents out.old) (W.contents out.new)) }
{
    let notes = &mut Notes::nothing();
    let reading = Reading::Whole;
    match say_of_certificate(
        alloc,
        CheckCommand,
        reading,
        recording,
        certificate,
        out,
        notes,
    ) {
        Ok(status) => Ok(status == 0),
        Err(fault) => Err(files_fault(fault)),
    }
}

/// As [`check_files`], with an exit status and a fault's line on `errors`: 0 is a yes, 1 a no, 2 a
/// fault (`recording: NAME at N`, `recording: read`, `certificate: NAME at N`, `certificate: read`
/// with nothing on `out`; `output: write` with a prefix of the answer there), 3 lack of memory
/// (`memory`) with nothing on `out`.
pub fn check_command<R: Read + Drop, C: Read + Drop, W: Write, E: Write>(
    alloc: Global,
    recording: R,
    certificate: C,
    out: &mut W,
    errors: &mut E,
) -> u8
    ensures ends { (bytes : List ℕ) × Has (R.remaining recording) bytes
        × ((text : List ℕ) × Has (C.remaining certificate) text
        × EndsCheck (recording_at LARGEST_RECORDING bytes) (certificate_at LARGEST_CERTIFICATE text) result (W.contents out.old) (W.contents out.new) (E.contents errors.old) (E.contents errors.new)) }
    ensures silent { result ≤ 1 → Keeps (E.contents errors.old) (E.contents errors.new) }
{
    let notes = &mut Notes::nothing();
    let reading = Reading::Whole;
    let judged = say_of_certificate(
        alloc,
        CheckCommand,
        reading,
        recording,
        certificate,
        out,
        notes,
    );
    end(judged, errors).status
}

/// The command `check`, which judges a recording by a certificate.
#[derive(Drop)]
pub struct CheckCommand;

impl<'a> OfCertificate<'a> for CheckCommand {
    ghost use Rattle.siman_file_commands.specs.Check.{ChecksCertificate};

    type Answer = u8;

    ghost says = { λ _. ChecksCertificate };

    fn say<L: ExerciseLog, W: Write>(
        self,
        alloc: Global,
        log: &L,
        certificate: Certificate,
        out: &mut W,
    ) -> Result<u8, Fault<'a>> {
        status_of(judge(alloc, log, certificate, out))
    }
}

/// Judges a log by a certificate and writes the answer. The memory of the certificate is freed
/// before the text is made.
#[tactic(auto, using(siman_outside::proofs::Offered::not_good))]
fn judge<L: ExerciseLog, W: Write>(
    alloc: Global,
    log: &L,
    certificate: Certificate,
    out: &mut W,
) -> Result<bool, FilesFault>
    ensures { Judges (Ok (L.recording log.now)) (Ok certificate.steps.items) result (W.contents out.old) (W.contents out.new) }
{
    let judged = check(alloc, log, &certificate);
    drop(certificate);
    match judged {
        Ok(checked) => {
            let text = report_text(alloc, log, &checked)?;
            match put(out, text.as_bytes()) {
                Ok(()) => Ok(true),
                Err(_) => Err(FilesFault::Write),
            }
        }
        Err(CheckFault::Bad { step, cause }) => {
            let text = no_line(alloc, step, cause)?;
            match put(out, text.as_bytes()) {
                Ok(()) => Ok(false),
                Err(_) => Err(FilesFault::Write),
            }
        }
        Err(CheckFault::Memory) => Err(FilesFault::Memory),
    }
}

/// The exit status of a judgement: 0 for a yes, 1 for a no.
fn status_of(judged: Result<bool, FilesFault>) -> Result<u8, Fault<'static>>
    ensures { result ≡ judged_status judged }
{
    match judged {
        Ok(true) => Ok(0),
        Ok(false) => Ok(1),
        Err(fault) => Err(Fault::from(fault)),
    }
}

/// The fault of a certificate that was not judged, as [`check_files`] returns it.
fn files_fault(fault: Fault<'static>) -> FilesFault
    ensures { result ≡ files_fault fault.entry }
{
    match fault {
        Fault::Recording(fault) => FilesFault::Recording(fault),
        Fault::Certificate(fault) => FilesFault::Certificate(fault),
        Fault::Output => FilesFault::Write,
        _ => FilesFault::Memory,
    }
}
