//! The law of changes: each reported change was carried out. A function is a theorem: it has no
//! body, and its contract is the law.

ghost use Rattle.std.specs.Prelude.{◌≡◌, ℕ, Some};
ghost use Rattle.exercise_model.specs.declared.state.Change.{Change};
ghost use Rattle.exercise_model.specs.Recording.{PlainRecording};
ghost use Rattle.exercise_model.specs.History.{History};
ghost use Rattle.exercise_model.specs.Run.{Explains};
ghost use Rattle.exercise_model.specs.Account.{change_at};
ghost use Rattle.exercise_review.specs.Order.{OrderData};
ghost use Rattle.exercise_review.specs.Reply.{change_of_order};
ghost use Rattle.exercise_review.specs.Carried.{IsMade, IsDone};

/// The law of changes: if a recording says that an entry makes a change, the change is carried out
/// in every run that explains the recording. It is possible there, and right after the entry each
/// entity in its scope has the state that the request makes, and each other entity has its earlier
/// state. A change reported for an order is the change that the order asks for. So an order that is
/// unheard and has a change was carried out without its maker's knowledge.
pub fn changes_are_made()
    ensures log { (r : PlainRecording) (h : History) (i : ℕ) (c : Change) → Explains r h → change_at r i ≡ Some c → IsMade r h i c }
    ensures order { (r : PlainRecording) (h : History) (o : OrderData) (t i : ℕ) → Explains r h → change_of_order r o t ≡ Some i → IsDone r h o t i }
{}
