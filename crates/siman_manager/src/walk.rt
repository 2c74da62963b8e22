//! A tick's walk over the orders.

ghost use Rattle.std.specs.Prelude.{◌≡◌, ◌≤◌, ◌<◌, ◌+◌, ◌⊎◌, None, IfSome, MatchOption, slice_get};
ghost use Rattle.indexmap.specs.IndexMap.{keys, values, index_map_len};
ghost use Rattle.std.specs.Option.{option_map};
ghost use Rattle.siman_manager.specs.Book.{is_ready, looked_at, after_tick, repeated};
ghost use Rattle.siman_manager.specs.Blocks.{IsRight, AreLater, ticked_from, repeated_from};

use crate::blocks::{BLOCK, all_quiet_until};
use crate::kept::{MadeOrder, OrderStanding, OrderTable};
use crate::settings::Settings;

/// Looks at one order, and sends it again, gives it up, or leaves it. Returns whether it was sent.
fn look(kept: &mut MadeOrder, settings: &Settings, now: u64, stamp: u32) -> bool
    ensures answer { result ≡ is_ready settings.now now kept.old }
    ensures after { kept.new ≡ looked_at settings.now now stamp kept.old }
{
    match kept.standing {
        OrderStanding::Answered | OrderStanding::GivenUp => return false,
        OrderStanding::Waiting => {}
    }
    if now.saturating_sub(kept.last) < settings.wait {
        return false;
    }
    if kept.sends >= settings.tries {
        kept.standing = OrderStanding::GivenUp;
        return false;
    }
    kept.pdu.stamp = stamp;
    kept.sends += 1;
    kept.last = now;
    true
}

/// Looks at the orders at these places in turn, up to one that is sent. Returns its place.
fn walk_block(
    orders: &mut OrderTable,
    settings: &Settings,
    first: usize,
    end: usize,
    now: u64,
    stamp: u32,
) -> Option<usize>
    requires order { first ≤ end }
    requires within { end ≤ index_map_len orders.old }
    ensures keys { keys orders.new ≡ keys orders.old }
    ensures len { index_map_len orders.new ≡ index_map_len orders.old }
    ensures later { AreLater settings.now (values orders.old) (values orders.new) }
    ensures after { MatchOption result
        (ticked_from settings.now now stamp end (values orders.new) ≡ ticked_from settings.now now stamp first (values orders.old))
        (λ _. values orders.new ≡ ticked_from settings.now now stamp first (values orders.old)) }
    ensures sent { MatchOption result
        (repeated_from settings.now now stamp end (values orders.new) ≡ repeated_from settings.now now stamp first (values orders.old))
        (λ place. option_map (λ k. k.pdu) (slice_get (values orders.new) place) ≡ repeated_from settings.now now stamp first (values orders.old)) }
    ensures within { IfSome result (λ place. place < index_map_len orders.new) }
{
    for place in first..end {
        if look(&mut orders[place], settings, now, stamp) {
            return Some(place);
        }
    }
    None
}

/// End of the block of orders that begins at this place.
fn end_of(first: usize, count: usize) -> usize
    requires { first ≤ count }
    ensures within { result ≤ count }
    ensures order { first ≤ result }
    ensures whole { (result ≡ first + 64) ⊎ (result ≡ count) × (count ≤ first + 64) }
{
    if count - first < BLOCK {
        count
    } else {
        first + BLOCK
    }
}

/// Looks at the orders in turn, up to one that is sent. Returns its place. Skips each block without
/// an order that is due.
pub(crate) fn walk(
    orders: &mut OrderTable,
    times: &mut Vec<u64>,
    settings: &Settings,
    now: u64,
    stamp: u32,
) -> Option<usize>
    requires { IsRight settings.now times.old.items orders.old }
    ensures right { IsRight settings.now times.new.items orders.new }
    ensures after { values orders.new ≡ after_tick settings.now now stamp (values orders.old) }
    ensures sent { MatchOption result (repeated settings.now now stamp (values orders.old) ≡ None)
        (λ place. option_map (λ k. k.pdu) (slice_get (values orders.new) place) ≡ repeated settings.now now stamp (values orders.old)) }
    ensures within { IfSome result (λ place. place < index_map_len orders.new) }
{
    for block in 0..times.len() {
        if times[block] <= now {
            let count = orders.len();
            let first = BLOCK * block;
            let end = end_of(first, count);
            let sent = walk_block(orders, settings, first, end, now, stamp);
            if sent.is_some() {
                return sent;
            }
            times[block] = all_quiet_until(orders, settings, first, end);
        }
    }
    None
}
