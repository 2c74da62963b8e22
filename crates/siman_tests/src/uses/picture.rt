//! Content of the picture of an exercise.

ghost use Rattle.std.specs.Prelude.{◌≡◌, ◌<◌, ◌≤◌, ◌-◌, ℕ, List, All, length, map, true};
ghost use Rattle.exercise_chart.specs.Marks.{marks_of};
ghost use Rattle.exercise_chart.specs.Picture.{row_fact, step_fact, bar_covers, state_at_step};
ghost use Rattle.exercise_chart.specs.declared.arrow.Arrow.{Arrow};
ghost use Rattle.exercise_chart.specs.declared.bar.Bar.{Bar};
ghost use Rattle.exercise_chart.specs.declared.point.Rows.{Rows};
ghost use Rattle.exercise_chart.specs.declared.selection.BlockedEntry.{BlockedEntry};
ghost use Rattle.dis_records.specs.declared.entity.EntityId.{EntityId};
ghost use Rattle.exercise_check.specs.Goodness.{IsGood};
ghost use Rattle.exercise_check.specs.declared.certificate.Step.{Step};
ghost use Rattle.exercise_model.specs.Account.{values_below};
ghost use Rattle.exercise_model.specs.Recording.{IsRecording, PlainRecording};

use exercise_chart::pictures_are_runs;

/// The picture of a good certificate has one row for each step in its range, in order, and no other
/// row.
pub fn has_a_row_for_each_step()
    ensures { (r : PlainRecording) (steps : List Step) (w : Rows) (chosen : List EntityId) (blocked : List BlockedEntry) → IsGood r steps → w.end ≤ length steps
        → map row_fact (marks_of r steps w chosen blocked).rows ≡ values_below (step_fact steps w) (w.end - w.first) }
{
    pictures_are_runs();
}

/// Each receipt is drawn below its send: no arrow points upwards.
pub fn points_no_arrow_upwards()
    ensures { (r : PlainRecording) (steps : List Step) (w : Rows) (chosen : List EntityId) (blocked : List BlockedEntry) → IsRecording r → IsGood r steps
        → All (λ (a : Arrow). a.from.step < a.to.step) (marks_of r steps w chosen blocked).arrows }
{
    pictures_are_runs();
}

/// The colour of a bar is the state of its entity after each step that the bar covers.
pub fn shows_each_state()
    ensures { (r : PlainRecording) (steps : List Step) (w : Rows) (chosen : List EntityId) (blocked : List BlockedEntry) → IsRecording r → IsGood r steps
        → All (λ (b : Bar). (k : ℕ) → k < length steps → bar_covers b k ≡ true → state_at_step r steps b.station b.entity.entity k ≡ b.state) (marks_of r steps w chosen blocked).bars }
{
    pictures_are_runs();
}
