//! A search for a run that explains a recording.

ghost use Rattle.std.specs.Prelude.{false, ℕ, ◌==◌, ◌∷◌, ◌≡◌};
ghost use Rattle.exercise_model.specs.Cause.{IsAllowed, cause_of};
ghost use Rattle.exercise_model.specs.History.{Event, History, log_at, station_of};
ghost use Rattle.exercise_model.specs.Run.{Explains, IsStuck};

use exercise_model::{Recording, allowed_stays_allowed, ends_are_one};

/// A search may choose any station that can go on: what one station may do next it may still do
/// after another did something (`later`). So if some run explains the recording, every run that
/// can't be extended does too (`found`); and if none does, the entries that are left (`left`) and
/// the causes against them (`causes`) do not depend on the choices.
pub fn no_luck_is_needed(recording: &Recording)
    ensures later { (h : History) (v u : Event) → (station_of u == station_of v) ≡ false → IsAllowed recording.now.setting h v
        → IsAllowed recording.now.setting (u ∷ h) v }
    ensures found { (h k : History) → IsStuck recording.now h → Explains recording.now k → Explains recording.now h }
    ensures left { (h k : History) → IsStuck recording.now h → IsStuck recording.now k → (s : ℕ) → log_at s h ≡ log_at s k }
    ensures causes { (h k : History) → IsStuck recording.now h → IsStuck recording.now k → (v : Event)
        → cause_of recording.now.setting h v ≡ cause_of recording.now.setting k v }
{
    allowed_stays_allowed();
    ends_are_one();
}
