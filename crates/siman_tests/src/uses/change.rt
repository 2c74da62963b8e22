//! The change that made a state.

ghost use Rattle.std.specs.Prelude.{IfSome, None, length, ◌<◌, ◌≡◌, ◌≤◌};
ghost use Rattle.exercise_conflict.specs.Since.{HasOneState};
ghost use Rattle.exercise_conflict.specs.Since.{Made};

use exercise_conflict::{last_change_entry, states_are_made};
use exercise_findings::Findings;
use exercise_model::ExerciseLog;

/// The entry that made the state of an entity before an entry: it is a change, and nothing after it
/// changed that state (`made`). `None`: the entity has its state from the start (`start`).
pub fn made_the_state<L: ExerciseLog>(
    findings: &Findings<'_, L>,
    station: u16,
    entity: u16,
    before: usize,
) -> Option<usize>
    requires at { station < length findings.now.setting.stations }
    requires within { before ≤ length findings.now.entries }
    ensures made { IfSome result (Made findings.now station entity before) }
    ensures start { result ≡ None → HasOneState findings.now station entity 0 before }
{
    states_are_made();
    last_change_entry(findings, station, entity, before)
}
