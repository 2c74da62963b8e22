//! Fragments of a datagram.

ghost use Rattle.std.specs.Prelude.{Bool, List, None, Some, [], length, true, ℕ, ◌+◌, ◌<◌, ◌∷◌, ◌≡◌, ◌≤◌};
ghost use Rattle.packet_captures.specs.declared.carried.Addresses.{Addresses};
ghost use Rattle.packet_captures.specs.Arrival.{ArePartsOf};
ghost use Rattle.packet_captures.specs.Handing.{handed};
ghost use Rattle.packet_captures.specs.Parts.{AreHeldWell, AreInOrder, NoneIsOf, OverlapsOne};
ghost use Rattle.packet_captures.specs.Pending.{PlainPart, PlainPending, extended, is_complete, joined};

use packet_captures::{
    Assembly, Fragment, fragments_may_come_in_any_order, overlaps_are_found,
    what_is_held_is_held_well, wholes_are_their_parts,
};
use std::alloc::{AllocError, Global};

/// A fragment that overlaps one that is held is never put beside it.
pub fn is_given_up_with_an_overlap()
    ensures { (d : PlainPending) (p : PlainPart) (more : Bool) → AreInOrder d.parts → OverlapsOne p d.parts → extended d p more ≡ None }
{
    overlaps_are_found();
}

/// What fragments make has the size that the last of them told.
pub fn has_the_size_that_was_told()
    ensures { (d : PlainPending) (end : ℕ) → d.end ≡ Some end → is_complete d ≡ true → length (joined d.parts) ≡ end }
{
    wholes_are_their_parts();
}

/// Whatever fragment comes, and whether or not there is memory for it, what is held is held well.
pub fn leaves_what_is_held_well(
    alloc: Global,
    assembly: &mut Assembly,
    fragment: &Fragment<'_>,
    stamp: u64,
) -> Result<Option<Vec<u8>>, AllocError>
    ensures { AreHeldWell assembly.old → AreHeldWell assembly.new }
{
    what_is_held_is_held_well();
    assembly.take(alloc, fragment, stamp)
}

/// The second of two fragments may come before the first: the datagram is handed out when both are
/// there.
pub fn may_come_before_the_first()
    ensures { (addresses : Addresses) (identification end stamp : ℕ) (p q : PlainPart) (held : List PlainPending)
        → ArePartsOf 0 end (p ∷ q ∷ []) → end ≤ 65535 → AreHeldWell held
        → NoneIsOf (record { source = addresses.source; target = addresses.target; identification = identification }) held
        → handed addresses identification (p ∷ q ∷ []) (λ k. stamp) (1 ∷ 0 ∷ []) held ≡ None ∷ Some (joined (p ∷ q ∷ [])) ∷ [] }
{
    fragments_may_come_in_any_order();
}
