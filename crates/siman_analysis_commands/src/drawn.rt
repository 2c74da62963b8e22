//! Which steps are drawn: those of a good certificate, those before the first bad one, or those of
//! the longest run.

ghost use Rattle.std.specs.Prelude.{◌≡◌, ◌≢◌, [], length, map, take, IfOk};
ghost use Rattle.exercise_model.specs.Headline.{Holds};
ghost use Rattle.exercise_check.specs.declared.checker.CheckFault.TheVariants.{Bad};
ghost use Rattle.exercise_check.specs.Goodness.{IsGood, Refuses};
ghost use Rattle.exercise_check.specs.Sequence.{sequence_of};
ghost use Rattle.exercise_audit.specs.Longest.{IsLongest};
ghost use Rattle.exercise_audit.specs.Time.{IsTimely};
ghost use Rattle.siman_print.specs.Spelled.{lines_text};
ghost use Rattle.exercise_conflict.specs.Blocked.{blocked_lines};
ghost use Rattle.siman_analysis_commands.specs.Chart.{ChartsRun, Charts, ChartsAlone, bad_entries, entry_of};

use crate::chart::ChartCommand;
use crate::picture::{Drawn, PictureTexts, picture_of};
use exercise_audit::{Block, LongestRun, longest_run};
use exercise_chart::{BlockedEntry, pictures_are_runs};
use exercise_check::{Certificate, CheckFault, Step, check, good_steps_have_no_cause, no_line};
use exercise_conflict::put_blocked;
use exercise_model::{Cause, ExerciseLog, what_explains_holds};
use siman_outside::Fault;
use siman_print::Spelling;
use std::alloc::{AllocError, Global};

/// The picture of a good certificate.
fn picture_of_run<'a, L: ExerciseLog>(
    alloc: Global,
    log: &L,
    steps: &[Step],
    command: &ChartCommand<'a>,
) -> Result<PictureTexts, Fault<'a>>
    requires good { IsGood (L.recording log.now) steps.now }
    requires holds { let r = L.recording log.now in Holds r (sequence_of r steps.now) }
    ensures { ChartsRun (map (λ word. word.now) command.now.words.now) command.now.window (L.recording log.now) steps.now result }
{
    pictures_are_runs();
    let drawn = Drawn {
        steps,
        blocked: &[],
        before: None,
    };
    picture_of(alloc, log, &drawn, command)
}

/// The entry of the first bad step, with its cause, if it has one that may be drawn.
fn bad_entries(
    alloc: Global,
    steps: &[Step],
    step: usize,
    cause: Cause,
) -> Result<Vec<BlockedEntry>, AllocError>
    ensures { IfOk result (λ blocked. blocked.items ≡ bad_entries steps.now step cause) }
{
    let mut blocked = Vec::new(alloc);
    let entry = match steps.get(step) {
        Some(bad) => bad.place as usize,
        None => 0,
    };
    match cause {
        Cause::CountDiffers | Cause::NoSuchRecord => (),
        _ => blocked.push(BlockedEntry { entry, cause })?,
    }
    Ok(blocked)
}

/// The picture of the steps before the first bad one, which is told before.
#[tactic(auto, using(siman_outside::proofs::Offered::not_good))]
fn picture_of_refused<'a, L: ExerciseLog>(
    alloc: Global,
    log: &L,
    steps: &[Step],
    bad: (usize, Cause),
    command: &ChartCommand<'a>,
) -> Result<PictureTexts, Fault<'a>>
    requires { Refuses (L.recording log.now) steps.now (Bad bad.0 bad.1) }
    ensures { Charts (map (λ word. word.now) command.now.words.now) command.now.window (L.recording log.now) steps.now result }
{
    let (step, cause) = bad;
    let row = no_line(alloc, step, cause)?;
    let blocked = bad_entries(alloc, steps, step, cause)?;
    let before = Some(row.as_str());
    let drawn = Drawn {
        steps: &steps[..step],
        blocked: &blocked,
        before,
    };
    picture_of(alloc, log, &drawn, command)
}

/// The picture of a certificate: of all its steps, or of those before the first bad one.
pub(crate) fn picture_of_certificate<'a, L: ExerciseLog>(
    alloc: Global,
    log: &L,
    certificate: &Certificate,
    command: &ChartCommand<'a>,
) -> Result<PictureTexts, Fault<'a>>
    ensures { Charts (map (λ word. word.now) command.now.words.now) command.now.window (L.recording log.now) certificate.now.steps.items result }
{
    let steps = certificate.steps.as_slice();
    match check(alloc, log, certificate) {
        Ok(_) => picture_of_run(alloc, log, steps, command),
        Err(CheckFault::Bad { step, cause }) => {
            picture_of_refused(alloc, log, steps, (step, cause), command)
        }
        Err(CheckFault::Memory) => Err(Fault::Memory),
    }
}

/// The entry of a block, with its cause.
fn entry_of(block: Block) -> BlockedEntry
    ensures { result ≡ entry_of block }
{
    BlockedEntry {
        entry: block.entry,
        cause: block.cause,
    }
}

/// The entries of blocks, with their causes.
fn blocked_entries(alloc: Global, blocks: &[Block]) -> Result<Vec<BlockedEntry>, AllocError>
    ensures { IfOk result (λ blocked. blocked.items ≡ map entry_of blocks.now) }
{
    let mut blocked = Vec::new(alloc);
    for block in blocks {
        blocked.push(entry_of(*block))?;
    }
    Ok(blocked)
}

/// The picture of the sequence of time, which explains the recording.
fn picture_of_sequence<'a, L: ExerciseLog>(
    alloc: Global,
    log: &L,
    steps: &[Step],
    command: &ChartCommand<'a>,
) -> Result<PictureTexts, Fault<'a>>
    requires longest { IsLongest (L.recording log.now) steps.now [] }
    ensures { ChartsAlone (map (λ word. word.now) command.now.words.now) command.now.window (L.recording log.now) result }
{
    good_steps_have_no_cause();
    what_explains_holds();
    let _limits = log.entry_count();
    picture_of_run(alloc, log, steps, command)
}

/// The picture of the longest run, and of the next entries of the stations that cannot go on, which
/// are told before.
#[tactic(auto, using(exercise_conflict::proofs::Offered::blocks_within))]
fn picture_of_longest<'a, L: ExerciseLog>(
    alloc: Global,
    log: &L,
    steps: &[Step],
    blocks: &[Block],
    command: &ChartCommand<'a>,
) -> Result<PictureTexts, Fault<'a>>
    requires longest { IsLongest (L.recording log.now) steps.now blocks.now }
    requires some { blocks.now ≢ [] }
    ensures { ChartsAlone (map (λ word. word.now) command.now.words.now) command.now.window (L.recording log.now) result }
{
    let mut rows = String::new(alloc);
    put_blocked(alloc, &mut rows, Spelling::Text, log, blocks)?;
    let blocked = blocked_entries(alloc, blocks)?;
    let before = Some(rows.as_str());
    let drawn = Drawn {
        steps,
        blocked: &blocked,
        before,
    };
    picture_of(alloc, log, &drawn, command)
}

/// The picture of a recording alone: of the sequence of time, or of the longest run.
pub(crate) fn picture_alone<'a, L: ExerciseLog>(
    alloc: Global,
    log: &L,
    command: &ChartCommand<'a>,
) -> Result<PictureTexts, Fault<'a>>
    ensures { ChartsAlone (map (λ word. word.now) command.now.words.now) command.now.window (L.recording log.now) result }
{
    let LongestRun {
        certificate,
        blocks,
    } = longest_run(alloc, log)?;
    let steps = certificate.steps.as_slice();
    if blocks.is_empty() {
        picture_of_sequence(alloc, log, steps, command)
    } else {
        picture_of_longest(alloc, log, steps, &blocks, command)
    }
}
