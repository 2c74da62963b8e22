//! Due times for each block of 64 orders, so that a tick can skip a block without an order that is
//! due.

ghost use Rattle.std.specs.Prelude.{◌≡◌, ◌≤◌, ◌<◌, ◌++◌, ◌-◌, ℕ, List, [], ◌∷◌, length, false, nat_le, slice_get};
ghost use Rattle.std.specs.Vec.{vec_len, vec_capacity};
ghost use Rattle.indexmap.specs.IndexMap.{values, index_map_len};
ghost use Rattle.siman_manager.specs.declared.kept.MadeOrder.{MadeOrder};
ghost use Rattle.siman_manager.specs.declared.settings.Settings.{Settings};
ghost use Rattle.siman_manager.specs.Blocks.{AreBlocks, IsQuiet};

use crate::kept::{MadeOrder, OrderStanding, OrderTable};
use crate::settings::Settings;

/// Orders in a block; the last may have fewer.
pub(crate) const BLOCK: usize = 64;

/// A time before which an order is not due, given the time of its last sending.
fn next_due(last: u64, wait: u64) -> u64
    ensures { (now : ℕ) → now < result → nat_le wait (now - last) ≡ false }
{
    if wait == 0 {
        0
    } else {
        last.saturating_add(wait)
    }
}

/// A time before which an order is not due.
pub(crate) fn quiet_until(kept: &MadeOrder, settings: &Settings) -> u64
    ensures { IsQuiet settings.now result kept.now }
{
    match kept.standing {
        OrderStanding::Answered | OrderStanding::GivenUp => u64::MAX,
        OrderStanding::Waiting => next_due(kept.last, settings.wait),
    }
}

/// A time before which none of the orders at these places is due.
pub(crate) fn all_quiet_until(
    orders: &OrderTable,
    settings: &Settings,
    first: usize,
    end: usize,
) -> u64
    requires { end ≤ index_map_len orders.now }
    ensures { (p : ℕ) (k : MadeOrder) → first ≤ p → p < end → slice_get (values orders.now) p ≡ Some k → IsQuiet settings.now result k }
{
    let mut time = u64::MAX;
    for place in first..end {
        let until = quiet_until(&orders[place], settings);
        if until < time {
            time = until;
        }
    }
    time
}

/// Notes that the order at this place, the last, is not due before this time.
pub(crate) fn note(times: &mut Vec<u64>, place: usize, time: u64)
    requires { vec_len times.old < vec_capacity times.old }
    ensures { (s : Settings) (orders : List MadeOrder) (kept : MadeOrder) → length orders ≡ place → IsQuiet s time kept → AreBlocks s times.old.items orders → AreBlocks s times.new.items (orders ++ kept ∷ []) }
{
    let block = place / BLOCK;
    if block >= times.len() {
        times.push_reserved(time);
    } else if time < times[block] {
        times[block] = time;
    }
}
