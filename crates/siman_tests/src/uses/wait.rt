//! Stations that wait for one another.

ghost use Rattle.std.specs.Prelude.{IfOk, is_some, length, slice_get, Some, true, ℕ, ◌<◌, ◌≡◌, ◌⊎◌};
ghost use Rattle.exercise_audit.specs.Audit.{IsBlocked};
ghost use Rattle.exercise_conflict.specs.Cycles.{AreWaits, EndsAt, IsTold};
ghost use Rattle.exercise_model.specs.History.{History};
ghost use Rattle.exercise_model.specs.Recording.{IsRecording};
ghost use Rattle.exercise_model.specs.Run.{Explains};

use exercise_audit::Block;
use exercise_conflict::{
    Wait, Way, cycle_at, cycles_block, each_block_has_its_way, waits_of, way_of, ways_are_blocked,
    ways_end,
};
use exercise_findings::Findings;
use exercise_model::{ExerciseLog, Recording};
use std::alloc::{AllocError, Global};

/// The waits of the stations with blocked entries. Followed from any station they end at a station
/// that waits for none, whose blocked entry says what is wrong, or in a cycle that is reported.
pub fn lead_to_an_end<L: ExerciseLog>(
    alloc: Global,
    findings: &Findings<'_, L>,
    blocks: &[Block],
) -> Result<Vec<Wait>, AllocError>
    ensures { IsRecording findings.now → IsBlocked findings.now blocks.now
        → IfOk result (λ waits. (s : ℕ) → s < length findings.now.setting.stations → EndsAt waits.items s ⊎ IsTold waits.items s) }
{
    ways_are_blocked();
    ways_end();
    waits_of(alloc, findings, blocks)
}

/// The cycle of stations that wait for one another, at a station. If there is one, no run explains
/// the recording, as the entries of the cycle show without a search.
pub fn block_in_a_ring(
    alloc: Global,
    recording: &Recording,
    waits: &[Wait],
    station: usize,
) -> Result<Option<Vec<usize>>, AllocError>
    ensures { IsRecording recording.now → AreWaits recording.now waits.now
        → IfOk result (λ ring. is_some ring ≡ true → (h : History) → Explains recording.now h → ⊥) }
{
    cycles_block();
    cycle_at(alloc, waits, station)
}

/// Why a station with a blocked entry can't go on: it waits for another such station, or it
/// contradicts something. There always is a reason, so the result is never `None`.
pub fn comes_to_something<L: ExerciseLog>(
    findings: &Findings<'_, L>,
    blocks: &[Block],
    block: Block,
) -> Option<Way>
    ensures { (n : ℕ) → IsBlocked findings.now blocks.now → slice_get blocks.now n ≡ Some block → is_some result ≡ true }
{
    each_block_has_its_way();
    way_of(findings, blocks, block)
}
