//! Causes within one station's log, independent of other stations.

ghost use Rattle.std.specs.Prelude.{◌≡◌};
ghost use Rattle.exercise_conflict.specs.Also.{standing_cause, is_next_of, further_cause_at};

use exercise_audit::Block;
use exercise_findings::Findings;
use exercise_model::{Cause, ExerciseLog};

/// The first cause that its station's log shows against an entry, unless it is `NeverSent`. No
/// certificate and no further send resolves it. `None` otherwise and past the last entry. It takes
/// no memory.
#[tactic(auto, unfolding(crate::specs::Also::standing_cause))]
pub fn standing_cause<L: ExerciseLog>(findings: &Findings<'_, L>, entry: usize) -> Option<Cause>
    ensures { result ≡ standing_cause findings.now entry }
{
    match findings.cause(entry) {
        Some(Cause::NeverSent) | None => None,
        Some(cause) => Some(cause),
    }
}

/// Whether an entry is the next one of a blocked station.
fn is_next_of(blocks: &[Block], entry: usize) -> bool
    ensures { result ≡ is_next_of blocks.now entry }
{
    blocks.iter().any(|block| block.entry == entry)
}

/// The further cause against an entry beside a blocked list: its standing cause, unless the entry
/// is the next one of a blocked station. `None` otherwise and past the last entry. It takes no
/// memory.
#[tactic(auto, unfolding(crate::specs::Also::further_cause_at))]
pub fn further_cause_at<L: ExerciseLog>(
    findings: &Findings<'_, L>,
    blocks: &[Block],
    entry: usize,
) -> Option<Cause>
    ensures { result ≡ further_cause_at findings.now blocks.now entry }
{
    let cause = standing_cause(findings, entry)?;
    if is_next_of(blocks, entry) {
        return None;
    }
    Some(cause)
}
