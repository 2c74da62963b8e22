//! An Able Acknowledge that was received.

ghost use Rattle.std.specs.Prelude.{List, Some, true, ℕ, ◌≡◌};
ghost use Rattle.exercise_model.specs.Account.{change_behind};
ghost use Rattle.exercise_model.specs.Change.{able, responds};
ghost use Rattle.exercise_model.specs.History.{Get, History};
ghost use Rattle.exercise_model.specs.Knowledge.{IsKnown, SendsChange};
ghost use Rattle.exercise_model.specs.Meaning.{meaning};
ghost use Rattle.exercise_model.specs.Recording.{IsRecording};
ghost use Rattle.exercise_model.specs.Run.{Contains, Explains, Represents};
ghost use Rattle.exercise_model.specs.Setting.{is_recorded};
ghost use Rattle.siman_pdus.specs.declared.pdu.Pdu.{Pdu};

use exercise_model::{Recording, changes_are_known};

/// An Able that was received from a recorded station is reliable: in every run that explains the
/// recording some entry of the sender is the change behind it, that change could be made, and no
/// other entry of the sender is a change with this key.
pub fn may_be_relied_on(recording: &Recording)
    ensures { (h before : History) (s : ℕ) (b : List ℕ) (p : Pdu) (i : ℕ) → IsRecording recording.now → Explains recording.now h
        → Contains h before (Get s b) → Represents recording.now i before (Get s b) → meaning recording.now.setting.exercise b ≡ Some p
        → responds able p ≡ true → is_recorded recording.now.setting p ≡ true
        → (j : ℕ) × (change_behind recording.now i ≡ Some j) × (known : IsKnown recording.now h before p j)
        × ((n : ℕ) → SendsChange recording.now known.station known.key n → n ≡ j) }
{
    changes_are_known();
}
