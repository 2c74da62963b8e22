//! The law of pictures. The function is a theorem: its contract is the law, and its body calls the laws
//! that it follows from.

ghost use Rattle.std.specs.Prelude.{◌≡◌, ◌≤◌, ◌-◌, ◌||◌, ℕ, List, length, map, true, Some, All, Contains};
ghost use Rattle.dis_records.specs.declared.entity.EntityId.{EntityId};
ghost use Rattle.exercise_model.specs.Recording.{PlainRecording, IsRecording};
ghost use Rattle.exercise_model.specs.Account.{values_below};
ghost use Rattle.exercise_findings.specs.Source.{source_of};
ghost use Rattle.exercise_check.specs.declared.certificate.Step.{Step};
ghost use Rattle.exercise_check.specs.Goodness.{IsGood};
ghost use Rattle.exercise_chart.specs.declared.point.Rows.{Rows};
ghost use Rattle.exercise_chart.specs.declared.selection.BlockedEntry.{BlockedEntry};
ghost use Rattle.exercise_chart.specs.Window.{is_row};
ghost use Rattle.exercise_chart.specs.Point.{step_of};
ghost use Rattle.exercise_chart.specs.Arrow.{arrow_between};
ghost use Rattle.exercise_chart.specs.Marks.{scene_of, marks_of};
ghost use Rattle.exercise_chart.specs.Picture.{row_fact, step_fact, LeadsDown, HasState};

use exercise_check::links_are_of_the_logs;
use exercise_review::lives_are_states;

/// The law of pictures: properties of the marks of a good certificate, whichever entities are chosen
/// and whichever entries are said to be blocked.
///
/// - `rows`: the rows are the shown steps, in their order, each with the entry that it takes.
/// - `arrows`: an arrow leads from the source of a receipt down to the receipt, and at least one of
///   them is in a row.
/// - `drawn`: every receipt with a source has an arrow, if one of the two is in a row.
/// - `bars`: after each step that a bar covers, its entity has the state of the bar.
pub fn pictures_are_runs()
    ensures rows { (r : PlainRecording) (steps : List Step) (w : Rows) (chosen : List EntityId) (blocked : List BlockedEntry) → IsGood r steps → w.end ≤ length steps
        → map row_fact (marks_of r steps w chosen blocked).rows ≡ values_below (step_fact steps w) (w.end - w.first) }
    ensures arrows { (r : PlainRecording) (steps : List Step) (w : Rows) (chosen : List EntityId) (blocked : List BlockedEntry) → IsRecording r → IsGood r steps
        → All (LeadsDown r steps w) (marks_of r steps w chosen blocked).arrows }
    ensures drawn { (r : PlainRecording) (steps : List Step) (w : Rows) (chosen : List EntityId) (blocked : List BlockedEntry) (j i : ℕ) → source_of r i ≡ Some j
        → (is_row w (step_of r steps j) || is_row w (step_of r steps i)) ≡ true
        → Contains (marks_of r steps w chosen blocked).arrows (arrow_between (scene_of r steps w chosen blocked) j i) }
    ensures bars { (r : PlainRecording) (steps : List Step) (w : Rows) (chosen : List EntityId) (blocked : List BlockedEntry) → IsRecording r → IsGood r steps
        → All (HasState r steps) (marks_of r steps w chosen blocked).bars }
{
    links_are_of_the_logs();
    lives_are_states();
}
