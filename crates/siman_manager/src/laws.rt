//! Laws of a manager over every list of calls.

ghost use Rattle.std.specs.Prelude.{◌≡◌, ◌≤◌, ◌+◌, ◌≢◌, ℕ, List, length, filter, slice_get, count_by, option_map, Some, true};
ghost use Rattle.std.specs.List.{AllByRecursion, list_any};
ghost use Rattle.siman_pdus.specs.declared.pdu.Pdu.{Pdu};
ghost use Rattle.siman_pdus.specs.Answers.{is_answer_to};
ghost use Rattle.siman_manager.specs.declared.kept.MadeOrder.{MadeOrder};
ghost use Rattle.siman_manager.specs.declared.order.Taken.TheVariants.{Foreign, Answered};
ghost use Rattle.siman_manager.specs.declared.settings.Settings.{Settings};
ghost use Rattle.siman_manager.specs.Book.{order_of, taken_as, taken_after, after_take, is_given_up, settles};
ghost use Rattle.siman_manager.specs.Calls.{Call, AreRequests, kept, given_out, count_made, Life, life, made_order, sent_as, has_id, received_since, passes, settles_order, is_answered, is_given_up_life, count_below, AnswersNone, IsOrder, IsOfOrder, IsSendOf};

/// Over every list of calls the steps that the contracts of a [`Manager`](crate::Manager) cite lead
/// to exactly the lives of the orders, which are defined without any table: an order's sends are
/// its making and each tick that chooses it.
pub fn orders_are_kept()
    ensures count { (s : Settings) (past : List Call) → length (kept s past) ≡ count_made s past }
    // The stored k-th order, found under its identifier, is that of its life.
    ensures kept { (s : Settings) (past : List Call) → AreRequests past →
        (k : ℕ) → slice_get (kept s past) k ≡ option_map made_order (life s past k) }
    ensures found { (s : Settings) (past : List Call) → AreRequests past →
        (k : ℕ) → order_of s (kept s past) (s.first_id + k) ≡ option_map made_order (life s past k) }
    // The k-th order has the k-th identifier, and names the manager as its originator.
    ensures order { (s : Settings) (past : List Call) → AreRequests past →
        (k : ℕ) (l : Life) → life s past k ≡ Some l → IsOrder s k l.order }
    // The PDUs returned under its identifier are its sends, in their order,
    ensures sends { (s : Settings) (past : List Call) → AreRequests past →
        (k : ℕ) → filter (has_id (s.first_id + k)) (given_out s past) ≡ sent_as (life s past k) }
    // each of them the same order as the first, from the manager's address,
    ensures same { (s : Settings) (past : List Call) → AreRequests past →
        (k : ℕ) (l : Life) → life s past k ≡ Some l → AllByRecursion (IsSendOf s l.order) (filter (has_id (s.first_id + k)) (given_out s past)) }
    // and no other PDU was returned.
    ensures nothing_else { (s : Settings) (past : List Call) → AreRequests past →
        AllByRecursion (IsOfOrder s (count_made s past)) (given_out s past) }
    // No identifier has more than `tries` sends.
    ensures tries { (s : Settings) (past : List Call) → 1 ≤ s.tries → AreRequests past →
        (id : ℕ) → length (filter (has_id id) (given_out s past)) ≤ s.tries }
    // An order is answered from the first PDU on that was received since it was made and settles
    // it.
    ensures answered { (s : Settings) (past : List Call) (k : ℕ) (l : Life) → life s past k ≡ Some l →
        is_answered l.standing ≡ list_any (settles_order s l.order) (received_since s past k) }
    // A PDU of the exercise that answers an order is taken as an answer; any other is foreign.
    ensures taken { (s : Settings) (past : List Call) → AreRequests past → (pdu : Pdu) (k : ℕ) (l : Life) →
        life s past k ≡ Some l → pdu.exercise ≡ s.exercise → is_answer_to pdu l.order ≡ true →
        taken_as s pdu (kept s past) ≡ taken_after (s.first_id + k) (settles pdu.body) l.standing }
    ensures foreign { (s : Settings) (past : List Call) → AreRequests past → (pdu : Pdu) →
        AnswersNone s past pdu → taken_as s pdu (kept s past) ≡ Foreign }
    ensures elsewhere { (s : Settings) (orders : List MadeOrder) (pdu : Pdu) →
        pdu.exercise ≢ s.exercise → taken_as s pdu orders ≡ Foreign }
    // Only a PDU that is taken as the answer changes anything.
    ensures unchanged { (s : Settings) (orders : List MadeOrder) (pdu : Pdu) →
        ((id : ℕ) → taken_as s pdu orders ≢ Answered id) → after_take s pdu orders ≡ orders }
    // The number of orders that are given up is counted over the lives.
    ensures given_up { (s : Settings) (past : List Call) → AreRequests past →
        count_by is_given_up (kept s past) ≡ count_below (λ k. passes is_given_up_life (life s past k)) (count_made s past) }
{}
