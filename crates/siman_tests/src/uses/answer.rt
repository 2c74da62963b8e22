//! The request of an answer.

ghost use Rattle.std.specs.Prelude.{List, Some, true, ℕ, ◌≡◌};
ghost use Rattle.exercise_model.specs.Account.{pair_of};
ghost use Rattle.exercise_model.specs.Exchange.{is_answer_body};
ghost use Rattle.exercise_model.specs.History.{History, Send};
ghost use Rattle.exercise_model.specs.Meaning.{meaning};
ghost use Rattle.exercise_model.specs.Pairing.{IsTakenUp};
ghost use Rattle.exercise_model.specs.Run.{Contains, Explains, Represents};
ghost use Rattle.siman_pdus.specs.declared.pdu.Pdu.{Pdu};

use exercise_model::{Recording, accounts_are_whole, logs_suffice};

/// An answer has one request: in all runs that explain the recording, however they differ in order,
/// it answers one entry.
pub fn has_one_request(recording: &Recording)
    ensures { (h k before other : History) (s : ℕ) (b : List ℕ) (p : Pdu) (i : ℕ) → Explains recording.now h → Explains recording.now k
        → Contains h before (Send s b) → Represents recording.now i before (Send s b)
        → Contains k other (Send s b) → Represents recording.now i other (Send s b)
        → meaning recording.now.setting.exercise b ≡ Some p → is_answer_body p.body ≡ true
        → (j : ℕ) × (pair_of recording.now i ≡ Some j) × IsTakenUp recording.now before s p j × IsTakenUp recording.now other s p j }
{
    accounts_are_whole();
    logs_suffice();
}
