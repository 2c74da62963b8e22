//! Slots with an array of one-byte tags: a tag shows that its slot is free, or a part of the
//! entry's hash. Tags are close together in memory, and most probes need only the tag.

ghost use Rattle.std.specs.Prelude.{◌≡◌, ◌≢◌, ◌<◌, ◌==◌, [], set, replicate, length, slice_get, Some, IfOk};
ghost use Rattle.exercise_findings.specs.declared.slots.Slot.{Slot};
ghost use Rattle.exercise_findings.specs.Slots.{free_slot, tag_of, LooksAt};

use crate::number::NO_ENTRY;
use crate::slots::Slot;
use std::alloc::{AllocError, Global};
use std::marker::Model;

/// The tag of a free slot.
const FREE_TAG: u8 = 0;

/// A free slot.
const FREE: Slot = Slot {
    hash: 0,
    entry: NO_ENTRY,
};

/// The tag of a hash: its highest seven bits plus one, 1 to 128.
fn tag_of(hash: u32) -> u8
    ensures { result ≡ tag_of hash }
{
    (hash / 0x200_0000) as u8 + 1
}

/// Result of probing a slot for a hash.
#[derive(Clone, Copy)]
pub(crate) enum Look {
    /// The slot is free.
    Free,
    /// The slot has an entry with another hash.
    Other,
    /// The slot has this entry, with the hash.
    Under(u32),
}

/// Slots, each with a tag. Contracts see only the slots.
#[derive(Drop)]
pub(crate) struct TaggedSlots {
    slots: Vec<Slot>,
    tags: Vec<u8>,
}

impl Model for TaggedSlots {
    ghost use Rattle.std.specs.Prelude.{◌≡◌, List, map};
    ghost use Rattle.exercise_findings.specs.declared.slots.Slot.{Slot};
    ghost use Rattle.exercise_findings.specs.Slots.{tag_in};

    ghost Value = { List Slot };

    ghost view = { λ t. t.slots.items };

    ghost invariant = { λ t. t.tags.items ≡ map tag_in t.slots.items };
}

impl TaggedSlots {
    /// No slots. It takes no memory.
    pub(crate) fn none(alloc: Global) -> TaggedSlots
        ensures { result ≡ [] }
    {
        TaggedSlots {
            slots: Vec::new(alloc),
            tags: Vec::new(alloc),
        }
    }

    /// `count` free slots.
    pub(crate) fn free(alloc: Global, count: usize) -> Result<TaggedSlots, AllocError>
        ensures { IfOk result (λ slots. slots ≡ replicate count free_slot) }
    {
        let slots = vec![in alloc; FREE; count]?;
        let tags = vec![in alloc; FREE_TAG; count]?;
        Ok(TaggedSlots { slots, tags })
    }

    /// The number of slots.
    pub(crate) fn count(&self) -> usize
        ensures { result ≡ length self.now }
    {
        self.slots.len()
    }

    /// The slot at a place.
    pub(crate) fn slot(&self, place: usize) -> Slot
        requires { place < length self.now }
        ensures { slice_get self.now place ≡ Some result }
    {
        self.slots[place]
    }

    /// Whether a slot is free.
    #[inline(always)]
    pub(crate) fn is_free(&self, place: usize) -> bool
        requires { place < length self.now }
        ensures { (s : Slot) → slice_get self.now place ≡ Some s → result ≡ (s.entry == 0xFFFFFFFF) }
    {
        self.tags[place] == FREE_TAG
    }

    /// Probes a slot for a hash. The slot itself is read only if the tags match.
    #[inline(always)]
    pub(crate) fn look(&self, place: usize, hash: u32) -> Look
        requires { place < length self.now }
        ensures { (s : Slot) → slice_get self.now place ≡ Some s → LooksAt s hash result }
    {
        let tag = self.tags[place];
        if tag == FREE_TAG {
            return Look::Free;
        }
        if tag != tag_of(hash) {
            return Look::Other;
        }
        let slot = self.slots[place];
        if slot.hash == hash {
            Look::Under(slot.entry)
        } else {
            Look::Other
        }
    }

    /// Puts an entry under a hash into a slot, replacing its contents.
    pub(crate) fn put(&mut self, place: usize, hash: u32, entry: u32)
        requires within { place < length self.old }
        requires some { entry ≢ 0xFFFFFFFF }
        ensures { let put : Slot = record { hash = hash; entry = entry } in self.new ≡ set self.old place put }
    {
        self.slots[place] = Slot { hash, entry };
        self.tags[place] = tag_of(hash);
    }
}
