//! Orders and their fates.

ghost use Rattle.std.specs.List.{list_any};
ghost use Rattle.std.specs.Prelude.{IfSome, None, Some, false, ℕ, ◌≡◌};
ghost use Rattle.exercise_review.specs.Carried.{IsDone};
ghost use Rattle.exercise_model.specs.History.{History};
ghost use Rattle.exercise_model.specs.Recording.{IsRecording};
ghost use Rattle.exercise_model.specs.Run.{Explains};
ghost use Rattle.exercise_review.specs.Fate.{needs_both_logs};
ghost use Rattle.exercise_review.specs.Knowing.{IsHeardSettled, pdus_after, settles_order};
ghost use Rattle.exercise_review.specs.Order.{OrderData, order_at, order_of};

use exercise_model::{ExerciseLog, Recording};
use exercise_review::{
    Fate, Party, RecordedOrder, Register, change_of_order, changes_are_made, fate_of,
    managers_know, one_side_is_not_enough,
};

/// The fate of an order at a party. If its sender was not recorded, it is no fate that needs both
/// logs: nobody can say that the order was done, refused, answered or unheard.
pub fn fate_at_party<L: ExerciseLog>(
    findings: &Register<'_, L>,
    order: &RecordedOrder<'_>,
    party: Party,
) -> Fate
    ensures one_side { (order_of order.now).maker ≡ None → needs_both_logs result ≡ false }
{
    one_side_is_not_enough();
    fate_of(findings, order, party)
}

/// The entry in which a station changed something by an order. If there is such an entry, the order
/// was carried out there in every run that explains the recording, whether its sender heard of it
/// or not.
pub fn change_carried_out<L: ExerciseLog>(
    findings: &Register<'_, L>,
    order: &RecordedOrder<'_>,
    station: u16,
) -> Option<usize>
    ensures { IfSome result (λ i. (h : History) → Explains findings.now h → IsDone findings.now h (order_of order.now) station i) }
{
    changes_are_made();
    change_of_order(findings, order, station)
}

/// A review claims no more than the sender of an order could know: if the sender received no answer
/// behind its order that settles it, the review shows for no party that such an answer was heard.
pub fn is_known_to_its_maker(recording: &Recording)
    ensures { (h : History) (i s j : ℕ) (o : OrderData) → IsRecording recording.now → Explains recording.now h → order_at recording.now i ≡ Some o → o.maker ≡ Some s
        → list_any (settles_order o.request) (pdus_after recording.now s o.head) ≡ false → IsHeardSettled recording.now o j → ⊥ }
{
    managers_know();
}
