//! The command `audit`: searches a recording for a sequence that explains it.

ghost use Rattle.std.specs.Prelude.{◌≡◌, ◌≤◌, ℕ, List, length, Ok, IfOk};
ghost use Rattle.std.specs.Io.KnownBytes.{Keeps};
ghost use Rattle.exercise_recording.specs.Reading.{recording_at};
ghost use Rattle.exercise_check.specs.Certificate.{certificate_text};
ghost use Rattle.exercise_check.specs.Goodness.{IsGood};
ghost use Rattle.exercise_audit.specs.Audit.{IsBlocked};
ghost use Rattle.exercise_audit.specs.Time.{IsTimely};
ghost use Rattle.siman_outside.specs.declared.limits.TheConstants.{LARGEST_RECORDING};
ghost use Rattle.siman_outside.specs.Outside.{Has, Stream};
ghost use Rattle.siman_file_commands.specs.Audit.{Finds, EndsAudit};

use byte_files::put;
use exercise_audit::{Audit, Block, audit};
use exercise_check::{Certificate, good_steps_have_no_cause, write_certificate};
use exercise_conflict::put_blocked;
use exercise_model::{ExerciseLog, entries_have_one_place, what_explains_holds};
use siman_outside::{
    Fault, Making, Notes, OfFile, OfRecording, Product, Reading, Settling, end, put_of_file,
    put_settled, say_of_recording,
};
use siman_print::{Spelling, counted};
use std::alloc::{AllocError, Global};
use std::io::{Read, Write};

/// The texts about a sequence that explains a recording: its certificate, and the line of the
/// answer.
#[derive(Drop)]
pub struct SequenceTexts {
    pub certificate: Vec<u8>,
    pub line: String,
}

/// The command `audit`: the certificate of a sequence that explains a recording, or its blocked
/// list if there is no such sequence.
#[derive(Drop)]
pub struct AuditCommand {
    /// How the recording is read.
    pub reading: Reading,
}

/// Reads a recording and searches for a sequence that explains it. If there is such a sequence,
/// writes its whole certificate to the file, then `explained steps=N` to `out`, and returns status
/// 0. If not, writes `blocked stations=N` and a line `blocked ADDRESS record=N cause=N NAME` for
/// each station that cannot go on to `out`, returns status 1, and leaves the file untouched.
///
/// Status 2 with a line on `errors` reports the first bad field of the recording (`recording: NAME
/// at OFFSET`) or a failed read (`recording: read`), both with nothing written, or a failed write
/// (`output: write`), after which a prefix of the certificate is written and no line, or the
/// certificate and a prefix of the line. Status 3 is lack of memory (`memory`), with nothing
/// written.
pub fn audit_command<R: Read + Drop, F: Write, W: Write, E: Write>(
    alloc: Global,
    recording: R,
    certificate: &mut F,
    out: &mut W,
    errors: &mut E,
) -> u8
    ensures ends { let file : Stream = record { old = F.contents certificate.old; new = F.contents certificate.new } in
        let out : Stream = record { old = W.contents out.old; new = W.contents out.new } in
        let errors : Stream = record { old = E.contents errors.old; new = E.contents errors.new } in
        (bytes : List ℕ) × Has (R.remaining recording) bytes × EndsAudit (recording_at LARGEST_RECORDING bytes) result file out errors }
    ensures silent { result ≤ 1 → Keeps (E.contents errors.old) (E.contents errors.new) }
{
    let command = AuditCommand {
        reading: Reading::Whole,
    };
    let found = put_of_file(alloc, command, recording, certificate, out);
    end(found, errors).status
}

impl<'a> OfRecording<'a> for AuditCommand {
    ghost use Rattle.std.specs.Prelude.{Ok};
    ghost use Rattle.siman_file_commands.specs.Audit.{Searches};

    type Answer = Product<SequenceTexts>;

    ghost says = { λ _ r found _. Searches (Ok r) found };

    fn say<L: ExerciseLog, W: Write>(
        self,
        alloc: Global,
        log: &L,
        _out: &mut W,
    ) -> Result<Product<SequenceTexts>, Fault<'a>> {
        Ok(search(alloc, log)?)
    }
}

impl OfFile for AuditCommand {
    ghost use Rattle.siman_file_commands.specs.Audit.{SearchesFile};

    type Made = SequenceTexts;

    ghost reads = { λ command. SearchesFile command.reading };

    fn read<R: Read + Drop>(
        self,
        alloc: Global,
        file: R,
        notes: &mut Notes,
    ) -> Result<Product<SequenceTexts>, Fault<'static>> {
        let mut nothing: Vec<u8> = Vec::new(alloc);
        let reading = self.reading;
        say_of_recording(alloc, self, reading, file, &mut nothing, notes)
    }
}

/// Searches for a sequence that explains a recording.
fn search<L: ExerciseLog>(alloc: Global, log: &L) -> Result<Product<SequenceTexts>, AllocError>
    ensures { IfOk result (Finds (Ok (L.recording log.now))) }
{
    match audit(alloc, log)? {
        Audit::Explained(certificate) => order(alloc, log, &certificate),
        Audit::Blocked(blocks) => stuck(alloc, log, &blocks),
    }
}

/// The texts about a sequence that explains a recording, given its certificate.
fn order<L: ExerciseLog>(
    alloc: Global,
    log: &L,
    certificate: &Certificate,
) -> Result<Product<SequenceTexts>, AllocError>
    requires good { IsGood (L.recording log.now) certificate.now.steps.items }
    requires timely { IsTimely (L.recording log.now) certificate.now.steps.items }
    ensures { IfOk result (Finds (Ok (L.recording log.now))) }
{
    good_steps_have_no_cause();
    what_explains_holds();
    entries_have_one_place();
    // There is a step for each entry.
    let steps = log.entry_count();
    Ok(Product::File(SequenceTexts {
        certificate: certificate_bytes(alloc, certificate)?,
        line: counted(alloc, "explained", "steps", steps)?,
    }))
}

fn certificate_bytes(alloc: Global, certificate: &Certificate) -> Result<Vec<u8>, AllocError>
    requires { length certificate.now.steps.items ≤ 4294967295 }
    ensures { IfOk result (λ bytes. bytes.items ≡ certificate_text certificate.now.steps.items) }
{
    let mut bytes = Vec::new(alloc);
    match write_certificate(certificate, &mut bytes) {
        Ok(()) => Ok(bytes),
        Err(_) => Err(AllocError),
    }
}

/// The blocked list of a recording that no sequence explains.
#[tactic(auto, using(exercise_conflict::proofs::Offered::blocks_within))]
fn stuck<L: ExerciseLog>(
    alloc: Global,
    log: &L,
    blocks: &[Block],
) -> Result<Product<SequenceTexts>, AllocError>
    requires { IsBlocked (L.recording log.now) blocks.now }
    ensures { IfOk result (Finds (Ok (L.recording log.now))) }
{
    let mut text = String::new(alloc);
    put_blocked(alloc, &mut text, Spelling::Text, log, blocks)?;
    Ok(Product::Nothing(text))
}

/// The file of a certificate.
impl Making for SequenceTexts {
    ghost use Rattle.siman_file_commands.specs.Audit.{PutsSequence};

    ghost puts = { PutsSequence };

    fn put<S: Settling<F>, F: Write, W: Write>(
        &self,
        _alloc: Global,
        settling: &S,
        file: &mut F,
        out: &mut W,
    ) -> Result<u8, Fault<'static>> {
        match put(file, &self.certificate) {
            Ok(()) => put_settled(settling, file, &self.line, out),
            Err(_) => Err(Fault::Output),
        }
    }
}
