//! The longest run in the sequence of time, and the blocks of the stations that cannot go on after
//! it.

ghost use Rattle.std.specs.Prelude.{◌≡◌, ◌<◌, IfSome, IfNone, IfOk, ℕ};
ghost use Rattle.exercise_check.specs.Course.{begun, so_far};
ghost use Rattle.exercise_audit.specs.Audit.{IsHeld, IsBlock, IsDone, AreBlocks};
ghost use Rattle.exercise_audit.specs.Longest.{IsLongest};

use crate::blocks::Block;
use crate::search::take_entries;
use exercise_check::{Certificate, Course, Progress};
use exercise_findings::Findings;
use exercise_model::ExerciseLog;
use std::alloc::{AllocError, Global};

/// The longest run in which each station does a first part of its log, in the sequence of time: no
/// station can go on after it. Without blocks it explains the recording; with blocks no run does.
#[derive(Drop)]
pub struct LongestRun {
    /// Steps of the run: all entries that can be taken, each with its link.
    pub certificate: Certificate,
    /// One block, by rising indices, for each station that has entries left after the run.
    pub blocks: Vec<Block>,
}

/// Block of a station that cannot go on; `None` if all its entries are taken.
fn block_at<L: ExerciseLog>(
    alloc: Global,
    course: &mut Course<'_, L>,
    station: usize,
) -> Result<Option<Block>, AllocError>
    requires { IsHeld course.old.recording (so_far course.old) station }
    ensures block { IfOk result (λ found. IfSome found (IsBlock course.old.recording (so_far course.old) station)) }
    ensures done { IfOk result (λ found. IfNone found (IsDone course.old.recording (so_far course.old) station)) }
    ensures same { course.new ≡ course.old }
{
    let Some(entry) = course.next_entry(station) else {
        return Ok(None);
    };
    match course.go_on(alloc, entry)? {
        Progress::Barred(cause) => Ok(Some(Block {
            station,
            entry,
            cause,
        })),
        // A held station takes no step.
        Progress::Taken(_) => Ok(None),
    }
}

/// Blocks of all stations that have entries left.
fn blocks<L: ExerciseLog>(
    alloc: Global,
    course: &mut Course<'_, L>,
    stations: usize,
) -> Result<Vec<Block>, AllocError>
    requires { (s : ℕ) → s < stations → IsHeld course.old.recording (so_far course.old) s }
    ensures blocks { IfOk result (λ blocks. AreBlocks course.old.recording (so_far course.old) stations blocks.items) }
    ensures same { course.new ≡ course.old }
{
    let mut blocks = Vec::new(alloc);
    for station in 0..stations {
        let found = block_at(alloc, course, station)?;
        if let Some(block) = found {
            blocks.push(block)?;
        }
    }
    Ok(blocks)
}

/// Takes entries in the sequence of time until no station can go on; returns the blocks, none if
/// every entry was taken.
fn blocks_at_end<L: ExerciseLog>(
    alloc: Global,
    log: &L,
    course: &mut Course<'_, L>,
) -> Result<Vec<Block>, AllocError>
    requires { course.old ≡ begun (L.recording log.now) }
    ensures recording { course.new.recording ≡ L.recording log.now }
    ensures longest { IfOk result (λ blocks. IsLongest (L.recording log.now) course.new.steps blocks.items) }
{
    let stations = log.station_count();
    take_entries(alloc, log, course)?;
    let blocks = blocks(alloc, course, stations)?;
    Ok(blocks)
}

/// The longest run, with the findings in the log.
#[derive(Drop)]
pub(crate) struct FoundRun<'a, L: ExerciseLog> {
    /// The longest run.
    pub run: LongestRun,
    /// Findings of each station's log about its own entries.
    pub findings: Findings<'a, L>,
}

/// Like [`longest_run`], with findings that were made before; returns them.
pub(crate) fn run_found<'a, L: ExerciseLog>(
    alloc: Global,
    findings: Findings<'a, L>,
) -> Result<FoundRun<'a, L>, AllocError>
    ensures run { IfOk result (λ found. IsLongest findings.entry found.run.certificate.steps.items found.run.blocks.items) }
    ensures findings { IfOk result (λ found. found.findings ≡ findings.entry) }
{
    let log = findings.log();
    let mut course = Course::over(alloc, findings)?;
    let blocks = blocks_at_end(alloc, log, &mut course)?;
    let (findings, certificate) = course.apart();
    let run = LongestRun {
        certificate,
        blocks,
    };
    Ok(FoundRun { run, findings })
}

/// The longest run in which each station does a first part of its log: its steps, in the sequence
/// of time, and for each station that has entries left its next entry and the first cause that
/// holds there. Without blocks the run explains the recording, and is the certificate that
/// [`audit`] finds; otherwise no run explains it, and `audit` returns the same blocks.
///
/// [`audit`]: crate::audit
pub fn longest_run<L: ExerciseLog>(alloc: Global, log: &L) -> Result<LongestRun, AllocError>
    ensures { IfOk result (λ run. IsLongest (L.recording log.now) run.certificate.steps.items run.blocks.items) }
{
    let FoundRun { run, .. } = run_found(alloc, Findings::of(alloc, log)?)?;
    Ok(run)
}
