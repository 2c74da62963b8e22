//! Trial of a script, which no words of the command line name: its world is run, searched for a
//! sequence, and judged.

ghost use Rattle.std.specs.Prelude.{◌≡◌, ℕ, List, Ok, IfOk, OnOk, string_bytes};
ghost use Rattle.exercise_model.specs.History.{past};
ghost use Rattle.exercise_model.specs.Run.{IsRun};
ghost use Rattle.exercise_findings.specs.Account.{IsAccount};
ghost use Rattle.exercise_check.specs.declared.certificate.Step.{Step};
ghost use Rattle.exercise_check.specs.Goodness.{IsGood};
ghost use Rattle.siman_scripts.specs.Script.{script_at};
ghost use Rattle.siman_outside.specs.Outside.{Has, stream};
ghost use Rattle.siman_exercise_commands.specs.Explained.{text_read};
ghost use Rattle.siman_exercise_commands.specs.ScriptTrial.{trial_text, Performs, Tries, TriesInput, IsNoTrialFault, GivesTrial};

use crate::explained::{refused, stopped};
use crate::trial_fault::TrialFault;
use crate::world::world_line;
use byte_files::put;
use exercise_audit::{Audit, audit};
use exercise_check::{Certificate, CheckFault, Checked, check, report_text};
use exercise_model::{ExerciseLog, Recording};
use siman_outside::{Fault, read_text};
use siman_print::counted;
use siman_scripts::{LARGEST_SCRIPT, Script, read_script};
use siman_stations::run_world;
use std::alloc::{AllocError, Global};
use std::io::{Read, Write};

/// Runs the world of a script, searches its recording for a sequence that explains it, judges the
/// recording by that sequence, and writes the row of the world, the row of the sequence and the
/// report: a text that the script alone determines. The text is complete before any of it is
/// written.
///
/// Returns true if it succeeds, since what the stations of a world do is always explained. Fails
/// with World if the world does not run, and with Memory if memory runs out, both with nothing
/// written; with Write after a prefix of the text.
pub fn perform<W: Write>(alloc: Global, script: Script, out: &mut W) -> Result<bool, TrialFault>
    ensures { Performs script result (W.contents out.old) (W.contents out.new) }
{
    let Script {
        exercise,
        stations,
        moves,
    } = script;
    let log = run_world(alloc, exercise, stations, moves)?;
    let text = trial_text(alloc, &log)?;
    match put(out, text.as_bytes()) {
        Ok(()) => Ok(true),
        Err(_) => Err(TrialFault::Write),
    }
}

/// As [`perform`], of the script of a reader, which is read whole first. Fails with Read after a
/// failed read, and with Script for a refused line, both with nothing written. At most 1,048,577
/// bytes are read; a script of more than 1,048,576 is a bad line 0.
pub fn trial<R: Read + Drop, W: Write>(
    alloc: Global,
    input: R,
    out: &mut W,
) -> Result<bool, TrialFault>
    ensures { (text : List ℕ) × Has (R.remaining input) text × Tries (script_at text) result (W.contents out.old) (W.contents out.new) }
{
    let mut input = input;
    let text = read_text(alloc, &mut input, LARGEST_SCRIPT)?;
    try_text(alloc, &text, out)
}

/// The command without words: tries the script of standard input, with status 0.
pub fn try_input<R: Read + Drop, W: Write>(
    alloc: Global,
    input: R,
    out: &mut W,
) -> Result<u8, Fault<'static>>
    ensures { TriesInput (R.remaining input) result (stream (W.contents out.old) (W.contents out.new)) }
{
    let mut input = input;
    match read_text(alloc, &mut input, LARGEST_SCRIPT) {
        Ok(text) => answer(alloc, &text, out),
        Err(fault) => Err(Fault::from(fault)),
    }
}

/// As [`perform`], of the script that a text spells.
fn try_text<W: Write>(alloc: Global, text: &[u8], out: &mut W) -> Result<bool, TrialFault>
    ensures { Tries (script_at text.now) result (W.contents out.old) (W.contents out.new) }
{
    let script = read_script(alloc, text)?;
    try_read(alloc, script, out)
}

fn try_read<W: Write>(alloc: Global, script: Script, out: &mut W) -> Result<bool, TrialFault>
    ensures { Tries (Ok script) result (W.contents out.old) (W.contents out.new) }
{
    perform(alloc, script, out)
}

/// The text of a trial.
fn trial_text(alloc: Global, log: &Recording) -> Result<String, AllocError>
    requires { IsRun log.now.setting (past log.now.entries) }
    ensures text { IfOk result (λ text. string_bytes text ≡ trial_text log.now) }
    ensures found { OnOk result ((steps : List Step) × IsGood log.now steps) }
{
    let certificate = explain(alloc, log)?;
    let checked = accept(alloc, log, &certificate)?;
    let mut text = world_line(alloc, log)?;
    text.push_str(&counted(alloc, "explained", "steps", log.entry_count())?)?;
    text.push_str(&report_text(alloc, log, &checked)?)?;
    Ok(text)
}

/// Certificate of a sequence that explains a recording whose entries are a run.
#[tactic(auto, using(crate::proofs::Trials::file_order_explains))]
fn explain(alloc: Global, log: &Recording) -> Result<Certificate, AllocError>
    requires { IsRun log.now.setting (past log.now.entries) }
    ensures { IfOk result (λ certificate. IsGood log.now certificate.steps.items) }
{
    match audit(alloc, log)? {
        Audit::Explained(certificate) => Ok(certificate),
        // The order of the file explains it, so no search is blocked.
        Audit::Blocked(_) => unreachable!(),
    }
}

/// What `check` returns for a recording and a good certificate of it, which is never a no.
#[tactic(auto, using(siman_outside::proofs::Offered::not_good))]
fn accept(alloc: Global, log: &Recording, certificate: &Certificate) -> Result<Checked, AllocError>
    requires { IsGood log.now certificate.now.steps.items }
    ensures { IfOk result (IsAccount log.now) }
{
    match check(alloc, log, certificate) {
        Ok(checked) => Ok(checked),
        Err(CheckFault::Memory) => Err(AllocError),
        Err(CheckFault::Bad { .. }) => unreachable!(),
    }
}

/// Fault of a trial that was not made: why the text is no script, or the place of the move that
/// cannot be made.
fn no_trial_fault(alloc: Global, text: &[u8], fault: TrialFault) -> Fault<'static>
    ensures { IsNoTrialFault (text_read text.now) fault result }
{
    match fault {
        TrialFault::Script(fault) => refused(alloc, text, fault),
        TrialFault::World(fault) => stopped(alloc, text, fault),
        other => Fault::from(other),
    }
}

/// Tries the script of a text, and returns the status.
fn answer<W: Write>(alloc: Global, text: &[u8], out: &mut W) -> Result<u8, Fault<'static>>
    ensures { GivesTrial (text_read text.now) result (W.contents out.old) (W.contents out.new) }
{
    match try_text(alloc, text, out) {
        Ok(true) => Ok(0),
        Ok(false) => Ok(1),
        Err(fault) => Err(no_trial_fault(alloc, text, fault)),
    }
}
