//! Recordings of only some stations of an exercise.

ghost use Rattle.std.specs.Prelude.{ℕ};
ghost use Rattle.exercise_model.specs.History.{History};
ghost use Rattle.exercise_model.specs.Part.{IsPartOf, read_open};
ghost use Rattle.exercise_model.specs.Recording.{IsRecording, PlainRecording};
ghost use Rattle.exercise_model.specs.Run.{Explains};

use exercise_model::{Recording, parts_are_explained};

/// A part of a recording can be judged without the rest: if no run explains the part, read as open,
/// then none explains the whole, whatever the other stations recorded.
pub fn may_be_blamed_alone(part: &Recording)
    ensures { (whole : PlainRecording) (index : ℕ → ℕ) → IsRecording part.now → IsPartOf part.now whole index
        → ((g : History) → Explains (read_open part.now) g → ⊥) → (h : History) → Explains whole h → ⊥ }
{
    parts_are_explained();
}
