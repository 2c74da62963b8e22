//! The command `why`: says what contradicts what, in a recording or in a certificate of it.

ghost use Rattle.std.specs.Prelude.{IfOk, option_map, string_bytes};
ghost use Rattle.exercise_model.specs.Recording.{IsRecording};
ghost use Rattle.exercise_check.specs.Goodness.{IsGood};
ghost use Rattle.exercise_conflict.specs.Whole.{IsConflictOf, IsRefusalOf};
ghost use Rattle.exercise_findings.specs.Account.{IsAccount};
ghost use Rattle.siman_outside.specs.Outside.{Did, stream};
ghost use Rattle.siman_file_commands.specs.Why.{SaysWhy, SaysWhyNot, WhyNamed};

use exercise_check::Certificate;
use exercise_conflict::{
    Conflict, ConflictFindings, ConflictSearch, Judged, Refusal, conflict_entries, conflict_found,
    put_conflict, put_explained, put_refusal, put_yes, refusal_entries, refusal_found,
};
use exercise_findings::{Account, Findings};
use exercise_log::Entries;
use exercise_model::ExerciseLog;
use siman_outside::{
    AnswerText, Fault, Notes, OfCertificate, OfRecording, Outside, Reading, say_of_file,
    say_of_files,
};
use siman_print::Spelling;
use std::alloc::{AllocError, Global};
use std::io::Write;

/// The command `why`, with the spelling of its rows.
///
/// Of a recording that some sequence explains it prints `explained steps=N`, with status 0. Of
/// another, with status 1: the blocked list; the rules that its causes break; for each station what
/// it waits for, or what its next entry contradicts; the stations that wait on one another in a
/// ring; what else the logs have against entries; the sends that logs lack, and whether these would
/// do; and the line of each entry that these lines name.
///
/// Of a good certificate it prints the first line of its report, `yes records=N others=N`, with
/// status 0. Of another, with status 1: its first bad step as `check` prints it; the rule that this
/// breaks; what the step contradicts; whether the recording or the certificate is at fault; and the
/// line of each entry that these lines name.
///
/// The whole text is made before any of it is written.
#[derive(Drop)]
pub struct WhyCommand {
    pub spelling: Spelling,
}

/// Opens the file of a recording, then that of a certificate, if one is named, before either is
/// read; writes the answer of `why` and returns the status. The recording is read as `reading` says.
pub fn why_named<'a, O: Outside, W: Write>(
    alloc: Global,
    names: (&'a str, Option<&'a str>),
    spelling: Spelling,
    reading: Reading,
    outside: &mut O,
    out: &mut W,
    notes: &mut Notes,
) -> Result<u8, Fault<'a>>
    ensures { Did O.deeds O.holds outside.old outside.new (λ deeds. WhyNamed spelling reading names.entry.0.now (option_map (λ other. other.now) names.entry.1) deeds result (stream (W.contents out.old) (W.contents out.new))) }
{
    let (recording, certificate) = names;
    let command = WhyCommand { spelling };
    match certificate {
        None => say_of_file(alloc, command, reading, recording, outside, out, notes),
        Some(certificate) => {
            let names = (recording, certificate);
            say_of_files(alloc, command, reading, names, outside, out, notes)
        }
    }
}

impl<'a> OfRecording<'a> for WhyCommand {
    ghost use Rattle.siman_outside.specs.AnswerText.{Answers};
    ghost use Rattle.siman_file_commands.specs.Why.{SaysWhy};

    type Answer = u8;

    ghost says = { λ command r. Answers (SaysWhy command.spelling r) };

    fn say<L: ExerciseLog, W: Write>(
        self,
        alloc: Global,
        log: &L,
        out: &mut W,
    ) -> Result<u8, Fault<'a>> {
        let answer = why(alloc, log, self.spelling)?;
        answer.put(out)
    }
}

impl<'a> OfCertificate<'a> for WhyCommand {
    ghost use Rattle.siman_outside.specs.AnswerText.{Answers};
    ghost use Rattle.siman_file_commands.specs.Why.{SaysWhyNot};

    type Answer = u8;

    ghost says = { λ command r steps. Answers (SaysWhyNot command.spelling r steps) };

    fn say<L: ExerciseLog, W: Write>(
        self,
        alloc: Global,
        log: &L,
        certificate: Certificate,
        out: &mut W,
    ) -> Result<u8, Fault<'a>> {
        let answer = why_not(alloc, log, &certificate, self.spelling)?;
        answer.put(out)
    }
}

/// The answer of `why` for a recording.
fn why<L: ExerciseLog>(alloc: Global, log: &L, spelling: Spelling) -> Result<AnswerText, AllocError>
    ensures { IfOk result (λ told. SaysWhy spelling (L.recording log.now) (string_bytes told.text) told.status) }
{
    let found = Findings::of(alloc, log)?;
    let ConflictFindings {
        explanation,
        findings,
    } = conflict_found(alloc, found)?;
    match explanation {
        ConflictSearch::Explained(certificate) => explained(alloc, log, spelling, &certificate),
        ConflictSearch::Contradicted(conflict) => contradicted(
            alloc, findings, spelling, &conflict,
        ),
    }
}

/// The answer for a recording that some sequence explains.
fn explained<L: ExerciseLog>(
    alloc: Global,
    log: &L,
    spelling: Spelling,
    certificate: &Certificate,
) -> Result<AnswerText, AllocError>
    requires { IsGood (L.recording log.now) certificate.now.steps.items }
    ensures { IfOk result (λ told. SaysWhy spelling (L.recording log.now) (string_bytes told.text) told.status) }
{
    let mut text = String::new(alloc);
    put_explained(&mut text, spelling, log.entry_count())?;
    Ok(AnswerText { text, status: 0 })
}

/// The answer for a recording that no sequence explains.
#[tactic(auto, using(exercise_conflict::proofs::Offered::conflict_stands))]
fn contradicted<L: ExerciseLog>(
    alloc: Global,
    findings: Findings<'_, L>,
    spelling: Spelling,
    conflict: &Conflict,
) -> Result<AnswerText, AllocError>
    requires limits { IsRecording findings }
    requires contradicts { IsConflictOf findings conflict.now }
    ensures { IfOk result (λ told. SaysWhy spelling findings.entry (string_bytes told.text) told.status) }
{
    let mut text = String::new(alloc);
    put_conflict(alloc, &mut text, spelling, findings.log(), conflict)?;
    let named = conflict_entries(alloc, conflict)?;
    let entries = Entries::of(alloc, findings)?;
    entries.put_named(alloc, &mut text, spelling, &named)?;
    Ok(AnswerText { text, status: 1 })
}

/// The answer of `why` for a recording and a certificate.
fn why_not<L: ExerciseLog>(
    alloc: Global,
    log: &L,
    certificate: &Certificate,
    spelling: Spelling,
) -> Result<AnswerText, AllocError>
    ensures { IfOk result (λ told. SaysWhyNot spelling (L.recording log.now) certificate.now.steps.items (string_bytes told.text) told.status) }
{
    let found = Findings::of(alloc, log)?;
    let Judged { refusal, findings } = refusal_found(alloc, found, certificate)?;
    match refusal {
        Some(refusal) => refused(alloc, findings, certificate, spelling, refusal),
        None => {
            let account = findings.into_account(alloc)?;
            good(alloc, log, certificate, spelling, &account)
        }
    }
}

/// The answer for a good certificate.
fn good<L: ExerciseLog>(
    alloc: Global,
    log: &L,
    certificate: &Certificate,
    spelling: Spelling,
    account: &Account,
) -> Result<AnswerText, AllocError>
    requires good { IsGood (L.recording log.now) certificate.now.steps.items }
    requires tells { IsAccount (L.recording log.now) account.now }
    ensures { IfOk result (λ told. SaysWhyNot spelling (L.recording log.now) certificate.now.steps.items (string_bytes told.text) told.status) }
{
    let mut text = String::new(alloc);
    put_yes(&mut text, spelling, log.entry_count(), account.others())?;
    Ok(AnswerText { text, status: 0 })
}

/// The answer for a certificate that is not good.
#[tactic(auto, using(exercise_conflict::proofs::Offered::refusal_stands, crate::proofs::Said::said_behind))]
fn refused<L: ExerciseLog>(
    alloc: Global,
    findings: Findings<'_, L>,
    certificate: &Certificate,
    spelling: Spelling,
    refusal: Refusal,
) -> Result<AnswerText, AllocError>
    requires limits { IsRecording findings }
    requires refused { IsRefusalOf findings certificate.now.steps.items refusal }
    ensures { IfOk result (λ told. SaysWhyNot spelling findings.entry certificate.now.steps.items (string_bytes told.text) told.status) }
{
    let named = refusal_entries(alloc, refusal)?;
    let mut text = String::new(alloc);
    put_refusal(alloc, &mut text, spelling, findings.log(), refusal)?;
    let entries = Entries::of(alloc, findings)?;
    entries.put_named(alloc, &mut text, spelling, &named)?;
    Ok(AnswerText { text, status: 1 })
}
