//! The law of managers: which answers the maker of an order can know. A function is a theorem: it
//! has no body, and its contract is the law.

ghost use Rattle.std.specs.Prelude.{◌≡◌, ◌↔◌, ℕ, true, Some};
ghost use Rattle.std.specs.List.{list_any};
ghost use Rattle.exercise_model.specs.Recording.{PlainRecording, IsRecording};
ghost use Rattle.exercise_model.specs.History.{History};
ghost use Rattle.exercise_model.specs.Run.{Explains};
ghost use Rattle.exercise_review.specs.Order.{OrderData, order_at};
ghost use Rattle.exercise_review.specs.Knowing.{IsHeardSettled, IsReceivedSettled, settles_order, pdus_after};

/// The law of managers, for an order of a recorded station s in a recording that some run explains:
/// the entries at which a party's answer that settles the order counts as heard are exactly those
/// at which s received, after the order, a PDU that answers and settles it (`heard`, `received`).
/// So some PDU that s received after the order passes these two tests exactly if some party has
/// such an answer heard (`known`): a manager that made the order and then took its input knows it
/// as answered exactly in that case.
pub fn managers_know()
    ensures heard { (r : PlainRecording) (h : History) (i s j : ℕ) (o : OrderData) → IsRecording r → Explains r h → order_at r i ≡ Some o → o.maker ≡ Some s
        → IsHeardSettled r o j → IsReceivedSettled r o s j }
    ensures received { (r : PlainRecording) (h : History) (i s j : ℕ) (o : OrderData) → IsRecording r → Explains r h → order_at r i ≡ Some o → o.maker ≡ Some s
        → IsReceivedSettled r o s j → IsHeardSettled r o j }
    ensures known { (r : PlainRecording) (h : History) (i s : ℕ) (o : OrderData) → IsRecording r → Explains r h → order_at r i ≡ Some o → o.maker ≡ Some s
        → (list_any (settles_order o.request) (pdus_after r s o.head) ≡ true) ↔ ((j : ℕ) × IsHeardSettled r o j) }
{}
