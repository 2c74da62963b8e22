//! The sends of a manager.

ghost use Rattle.std.specs.Prelude.{List, length, ℕ, ◌≤◌};
ghost use Rattle.siman_manager.specs.Calls.{AreRequests, Call, life};
ghost use Rattle.siman_manager.specs.Calls.{sent_as};

use siman_manager::{Manager, orders_are_kept};

/// After any calls no order was sent too often: the sends of the k-th order are all that was sent
/// with its identifier, and there are at most `tries` of them.
pub fn sends_nothing_too_often(manager: &Manager)
    ensures { let s = manager.now.settings in (past : List Call) (k : ℕ) → 1 ≤ s.tries → AreRequests past
        → length (sent_as (life s past k)) ≤ s.tries }
{
    orders_are_kept();
}
