//! Hash table of entries with linear probing: an entry is in the first slot that was free,
//! searching from the home slot of its hash. A slot holds only a hash and an entry number; keys are
//! read from the log.

ghost use Rattle.std.specs.Prelude.{◌≡◌, ◌≢◌, ◌<◌, ◌⊎◌, ℕ, Bool, false, true, length, IfSome, IfNone, IfOk, OnOk};
ghost use Rattle.exercise_findings.specs.Slots.{home, slot_behind, IsFirstFree, IsReached, IsPut, HasSlot};

use crate::number::NO_ENTRY;
use crate::tagged::{Look, TaggedSlots};
use std::alloc::{AllocError, Global};

/// A slot: an entry and its hash.
#[derive(Clone, Copy)]
pub(crate) struct Slot {
    /// The hash.
    pub hash: u32,
    /// The entry; [`NO_ENTRY`] if the slot is free.
    pub entry: u32,
}

/// A hash table of entries.
#[derive(Drop)]
pub(crate) struct Slots {
    alloc: Global,
    /// The slots: none, or a power of two.
    pub slots: TaggedSlots,
    /// Number of occupied slots. This field and the next affect speed and memory alone, never the
    /// result.
    used: usize,
    /// Number of slots at the first growth.
    least: usize,
}

/// A search for one of the entries under a hash.
pub(crate) trait Sought {
    // Which entries are sought, and which may be asked about.
    ghost is_sought: { Self → ℕ → Bool };

    ghost is_known: { Self → ℕ → Bool };

    /// Whether this entry, which must be known, is the one sought.
    fn is_sought(&self, entry: u32) -> bool
        requires { is_known self.now entry ≡ true }
        ensures { result ≡ is_sought self.now entry };
}

/// An empty table, for a log of this many entries. It takes no memory.
pub(crate) fn no_slots(alloc: Global, entries: usize) -> Slots
    ensures { length result.slots ≡ 0 }
{
    Slots {
        alloc,
        slots: TaggedSlots::none(alloc),
        used: 0,
        least: least_slots(entries),
    }
}

/// How often the least number of slots may be doubled.
const DOUBLED: usize = 15;

/// Number of slots at the first growth: a power of two, at least 16, at most half the number of
/// entries beyond that.
fn least_slots(entries: usize) -> usize {
    let mut least: usize = 16;
    for _ in 0..DOUBLED {
        if least <= entries / 4 {
            least = least.saturating_mul(2);
        }
    }
    least
}

/// The home slot of a hash: where its search begins. `count` is a power of two.
fn home(hash: u32, count: usize) -> usize
    requires { 0 < count }
    ensures value { result ≡ home count hash }
    ensures within { result < count }
{
    hash as usize & (count - 1)
}

/// The next slot after one; the first after the last.
fn slot_behind(place: usize, count: usize) -> usize
    requires { place < count }
    ensures value { result ≡ slot_behind count place }
    ensures within { result < count }
{
    if place + 1 == count { 0 } else { place + 1 }
}

/// The sought entry under a hash.
pub(crate) fn find<S: Sought>(slots: &Slots, hash: u32, sought: &S) -> Option<u32>
    requires { (e : ℕ) → HasSlot slots.now.slots e → S.is_known sought.now e ≡ true }
    ensures found { IfSome result (λ e. HasSlot slots.now.slots e × (S.is_sought sought.now e ≡ true)) }
    ensures absent { IfNone result ((e : ℕ) → IsReached slots.now.slots hash e → S.is_sought sought.now e ≡ false) }
{
    let count = slots.slots.count();
    if count == 0 {
        return None;
    }
    let mut place = home(hash, count);
    for _step in 0..count {
        match slots.slots.look(place, hash) {
            Look::Free => return None,
            Look::Other => (),
            Look::Under(entry) => {
                if sought.is_sought(entry) {
                    return Some(entry);
                }
            }
        }
        place = slot_behind(place, count);
    }
    None
}

/// The first free slot, searching from the home slot of a hash.
fn first_free(slots: &TaggedSlots, hash: u32) -> Option<usize>
    ensures { IfSome result (IsFirstFree slots.now hash) }
{
    let count = slots.count();
    if count == 0 {
        return None;
    }
    let mut place = home(hash, count);
    for _step in 0..count {
        if slots.is_free(place) {
            return Some(place);
        }
        place = slot_behind(place, count);
    }
    None
}

/// Puts an entry into the first free slot from the home slot of its hash. Fails if none is free;
/// [`make_room`] leaves a quarter of them free.
fn put(slots: &mut TaggedSlots, hash: u32, entry: u32) -> Result<(), AllocError>
    requires some { entry ≢ 4294967295 }
    ensures reached { OnOk result (IsReached slots.new hash entry) }
    ensures kept { OnOk result ((h e : ℕ) → IsReached slots.old h e → IsReached slots.new h e) }
    ensures only { OnOk result ((e : ℕ) → HasSlot slots.new e → HasSlot slots.old e ⊎ (e ≡ entry)) }
{
    match first_free(slots, hash) {
        Some(place) => {
            slots.put(place, hash, entry);
            Ok(())
        }
        None => Err(AllocError),
    }
}

/// Copies the entry of a slot, if it has one, into other slots.
fn put_slot(slots: &mut TaggedSlots, slot: Slot) -> Result<(), AllocError>
    ensures reached { OnOk result (slot.entry ≢ 4294967295 → IsReached slots.new slot.hash slot.entry) }
    ensures kept { OnOk result ((h e : ℕ) → IsReached slots.old h e → IsReached slots.new h e) }
    ensures only { OnOk result ((e : ℕ) → HasSlot slots.new e → HasSlot slots.old e ⊎ ((e ≡ slot.entry) × (e ≢ 4294967295))) }
{
    if slot.entry == NO_ENTRY {
        Ok(())
    } else {
        put(slots, slot.hash, slot.entry)
    }
}

/// A new array of `count` slots with all entries of another.
fn spread(alloc: Global, from: &TaggedSlots, count: usize) -> Result<TaggedSlots, AllocError>
    ensures kept { IfOk result (λ to. (h e : ℕ) → IsReached from.now h e → IsReached to h e) }
    ensures only { IfOk result (λ to. (e : ℕ) → HasSlot to e → HasSlot from.now e) }
{
    let mut to = TaggedSlots::free(alloc, count)?;
    for place in 0..from.count() {
        put_slot(&mut to, from.slot(place))?;
    }
    Ok(to)
}

/// Doubles the slots if at most a quarter are free.
fn make_room(slots: &mut Slots) -> Result<(), AllocError>
    ensures kept { OnOk result ((h e : ℕ) → IsReached slots.old.slots h e → IsReached slots.new.slots h e) }
    ensures only { OnOk result ((e : ℕ) → HasSlot slots.new.slots e → HasSlot slots.old.slots e) }
{
    let count = slots.slots.count();
    if slots.used < count - count / 4 {
        return Ok(());
    }
    slots.slots = spread(
        slots.alloc,
        &slots.slots,
        count.saturating_mul(2).max(slots.least),
    )?;
    Ok(())
}

/// Adds an entry under a hash.
pub(crate) fn keep(slots: &mut Slots, hash: u32, entry: u32) -> Result<(), AllocError>
    requires { entry ≢ 4294967295 }
    ensures { OnOk result (IsPut hash entry slots.old.slots slots.new.slots) }
{
    make_room(slots)?;
    put(&mut slots.slots, hash, entry)?;
    slots.used = slots.used.saturating_add(1);
    Ok(())
}
