//! Strangers: stations that nobody recorded.

ghost use Rattle.std.specs.Prelude.{List, Some, false, true, ℕ, ◌≡◌};
ghost use Rattle.exercise_model.specs.Cause.{IsAllowed, cause_of};
ghost use Rattle.exercise_model.specs.History.{Get, History};
ghost use Rattle.exercise_model.specs.Meaning.{meaning};
ghost use Rattle.exercise_model.specs.Setting.{is_recorded};
ghost use Rattle.exercise_model.specs.declared.cause.Cause.TheVariants.{Stranger};
ghost use Rattle.siman_pdus.specs.declared.pdu.Pdu.{Pdu};

use exercise_model::{ExerciseLog, Form, Recording, forms_decide_who_is_heard};

/// Whether stations may hear strangers. If so, a datagram from a stranger is allowed after any
/// history (`heard`); if not, the stranger is the cause against it (`stranger`).
pub fn may_be_heard(recording: &Recording) -> bool
    ensures heard { result ≡ true → (h : History) (s : ℕ) (b : List ℕ) (p : Pdu) → meaning recording.now.setting.exercise b ≡ Some p
        → is_recorded recording.now.setting p ≡ false → IsAllowed recording.now.setting h (Get s b) }
    ensures stranger { result ≡ false → (h : History) (s : ℕ) (b : List ℕ) (p : Pdu) → meaning recording.now.setting.exercise b ≡ Some p
        → is_recorded recording.now.setting p ≡ false → cause_of recording.now.setting h (Get s b) ≡ Some Stranger }
{
    forms_decide_who_is_heard();
    match recording.form() {
        Form::Open => true,
        Form::First | Form::Closed => false,
    }
}
