//! The first entries under keys: a hash table of entries, with a list of them in the order in which
//! they were added. The user of the table defines the keys.

ghost use Rattle.std.specs.Prelude.{◌≡◌, ◌≢◌, ℕ, true, Some, length, slice_get, IfSome, OnOk};
ghost use Rattle.exercise_findings.specs.Kept.{IsAppended};

use crate::slots::{Slots, Sought, keep, no_slots};
use std::alloc::{AllocError, Global};

/// The first entries under keys.
#[derive(Drop)]
pub(crate) struct Kept {
    /// The entries, under the hashes of their keys.
    pub slots: Slots,
    /// These entries in the order in which they were added.
    pub order: Vec<u32>,
}

/// An empty table, for a log of this many entries. It takes no memory.
pub(crate) fn empty_table(alloc: Global, entries: usize) -> Kept
    ensures slots { length result.slots.slots ≡ 0 }
    ensures order { length result.order.items ≡ 0 }
{
    Kept {
        slots: no_slots(alloc, entries),
        order: Vec::new(alloc),
    }
}

/// Adds an entry under a hash, at the end of the order.
pub(crate) fn append_entry(kept: &mut Kept, hash: u32, entry: u32) -> Result<(), AllocError>
    requires { entry ≢ 4294967295 }
    ensures { OnOk result (IsAppended hash entry kept.old kept.new) }
{
    keep(&mut kept.slots, hash, entry)?;
    kept.order.push(entry)?;
    Ok(())
}

/// The entry at a place of the order.
pub(crate) fn entry_at_place(kept: &Kept, place: usize) -> Option<u32>
    ensures { result ≡ slice_get kept.now.order.items place }
{
    kept.order.get(place).copied()
}

/// The entry at a place of the order, if it is the one sought.
pub(crate) fn kept_at<S: Sought>(kept: &Kept, place: usize, sought: &S) -> Option<u32>
    requires { (e : ℕ) → slice_get kept.now.order.items place ≡ Some e → S.is_known sought.now e ≡ true }
    ensures { IfSome result (λ e. (slice_get kept.now.order.items place ≡ Some e) × (S.is_sought sought.now e ≡ true)) }
{
    match entry_at_place(kept, place) {
        Some(entry) if sought.is_sought(entry) => Some(entry),
        _ => None,
    }
}

/// The place of an entry in the order.
pub(crate) fn place_of_entry(kept: &Kept, entry: u32) -> usize {
    match kept.order.binary_search(&entry) {
        Ok(place) | Err(place) => place,
    }
}
