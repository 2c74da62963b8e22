//! Commands about a recording, or about a recording and a certificate of it: how both are read.

ghost use Rattle.std.specs.Prelude.{◌≡◌, IfOk, IfSome};
ghost use Rattle.siman_outside.specs.Outside.{stream};
ghost use Rattle.siman_outside.specs.Notes.{warning_by};
ghost use Rattle.siman_outside.specs.Recorded.{SaysOfRecording, SaysOfBytes, SaysOfBoth};
ghost use Rattle.siman_outside.specs.declared.limits.TheConstants.{LARGEST_RECORDING};
ghost use Rattle.exercise_recording.specs.Reading.{recording_at};

use crate::commands::Reading;
use crate::fault::Fault;
use crate::limits::{LARGEST_CERTIFICATE, LARGEST_RECORDING};
use crate::notes::Notes;
use crate::recording_bytes::read_bytes;
use exercise_check::{Certificate, fetch_certificate};
use exercise_model::ExerciseLog;
use exercise_recording::RecordingView;
use std::alloc::Global;
use std::io::{Read, Write};

/// A command about a recording.
pub trait OfRecording<'a>: Sized {
    ghost use Rattle.std.specs.Prelude.{Result};
    ghost use Rattle.exercise_model.specs.Recording.{PlainRecording};
    ghost use Rattle.siman_outside.specs.declared.fault.Fault.{Fault};
    ghost use Rattle.siman_outside.specs.Outside.{Stream, stream};

    /// The status of the command, or what it makes a file of.
    type Answer: Drop;

    /// The relation of the command and a recording to the answer or fault and the output.
    ghost says: { Self → PlainRecording → Result Self.Answer Fault → (out : Stream) → Type 0 };

    /// Writes what is to be printed about a recording, and returns the answer.
    fn say<L: ExerciseLog, W: Write>(
        self,
        alloc: Global,
        log: &L,
        out: &mut W,
    ) -> Result<Self::Answer, Fault<'a>>
        ensures { says self (L.recording log.now) result (stream (W.contents out.old) (W.contents out.new)) };
}

/// A command about a recording and a certificate of it.
pub trait OfCertificate<'a>: Sized {
    ghost use Rattle.std.specs.Prelude.{List, Result};
    ghost use Rattle.exercise_model.specs.Recording.{PlainRecording};
    ghost use Rattle.exercise_check.specs.declared.certificate.Step.{Step};
    ghost use Rattle.siman_outside.specs.declared.fault.Fault.{Fault};
    ghost use Rattle.siman_outside.specs.Outside.{Stream, stream};

    /// The status of the command, or what it makes a file of.
    type Answer: Drop;

    /// The relation of the command, a recording and the steps of a certificate to the answer or
    /// fault and the output.
    ghost says: { Self → PlainRecording → List Step → Result Self.Answer Fault → (out : Stream) → Type 0 };

    /// Writes what is to be printed about a certificate, and returns the answer.
    fn say<L: ExerciseLog, W: Write>(
        self,
        alloc: Global,
        log: &L,
        certificate: Certificate,
        out: &mut W,
    ) -> Result<Self::Answer, Fault<'a>>
        ensures { says self (L.recording log.now) certificate.steps.items result (stream (W.contents out.old) (W.contents out.new)) };
}

/// Reads a recording, whole or what stands whole of it, and runs a command on it. Notes what is
/// torn.
pub fn say_of_recording<'a, C: OfRecording<'a> + Drop, R: Read + Drop, W: Write>(
    alloc: Global,
    command: C,
    reading: Reading,
    recording: R,
    out: &mut W,
    notes: &mut Notes,
) -> Result<C::Answer, Fault<'a>>
    ensures says { SaysOfBytes reading (C.says command) (R.remaining recording) result (stream (W.contents out.old) (W.contents out.new)) }
    ensures warned { IfOk result (λ _. IfSome (R.remaining recording) (λ bytes. notes.new.further ≡ warning_by reading bytes)) }
{
    let bytes = read_bytes(alloc, reading, recording, notes)?;
    say_of_bytes(alloc, command, &bytes, out, notes)
}

/// Runs a command on the recording of a file's bytes.
fn say_of_bytes<'a, C: OfRecording<'a> + Drop, W: Write>(
    alloc: Global,
    command: C,
    bytes: &[u8],
    out: &mut W,
    notes: &mut Notes,
) -> Result<C::Answer, Fault<'a>>
    ensures says { SaysOfRecording (C.says command) (recording_at LARGEST_RECORDING bytes.now) result (stream (W.contents out.old) (W.contents out.new)) }
    ensures further { notes.new.further ≡ notes.old.further }
{
    let log = RecordingView::over_limited(alloc, bytes, LARGEST_RECORDING)?;
    notes.note_recording(&log);
    command.say(alloc, &log, out)
}

/// A command about a certificate that is still to be read.
#[derive(Drop)]
struct WithCertificate<C, S> {
    command: C,
    certificate: S,
}

/// Reads the certificate, whole, once there is a recording.
impl<'a, C: OfCertificate<'a> + Drop, S: Read + Drop> OfRecording<'a> for WithCertificate<C, S> {
    ghost use Rattle.siman_outside.specs.Recorded.{SaysOfText};

    type Answer = C::Answer;

    ghost says = { λ asked r. SaysOfText (C.says asked.command r) (S.remaining asked.certificate) };

    fn say<L: ExerciseLog, W: Write>(
        self,
        alloc: Global,
        log: &L,
        out: &mut W,
    ) -> Result<C::Answer, Fault<'a>> {
        let WithCertificate {
            command,
            certificate,
        } = self;
        let certificate = fetch_certificate(alloc, certificate, LARGEST_CERTIFICATE)?;
        command.say(alloc, log, certificate, out)
    }
}

/// Reads a recording, whole or what stands whole of it, then a certificate, whole, and runs a
/// command on them. Notes what is torn.
pub fn say_of_certificate<
    'a,
    C: OfCertificate<'a> + Drop,
    R: Read + Drop,
    S: Read + Drop,
    W: Write,
>(
    alloc: Global,
    command: C,
    reading: Reading,
    recording: R,
    certificate: S,
    out: &mut W,
    notes: &mut Notes,
) -> Result<C::Answer, Fault<'a>>
    ensures says { SaysOfBoth reading (C.says command) (R.remaining recording) (S.remaining certificate) result (stream (W.contents out.old) (W.contents out.new)) }
    ensures warned { IfOk result (λ _. IfSome (R.remaining recording) (λ bytes. notes.new.further ≡ warning_by reading bytes)) }
{
    let command = WithCertificate {
        command,
        certificate,
    };
    say_of_recording(alloc, command, reading, recording, out, notes)
}
