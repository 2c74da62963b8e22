//! Fragments put together.

ghost use Rattle.std.specs.Prelude.{◌≡◌, ◌≤◌, ℕ, true, false, List, [], ◌∷◌, Some, None, length, insert, remove, replicate, slice_get, IfOk, OnErr};
ghost use Rattle.std.specs.Option.{option_map};
ghost use Rattle.packet_captures.specs.Arrival.{ArePartsOf, IsArrival};
ghost use Rattle.packet_captures.specs.Assembly.{going_on, place_of, settled, taken, without};
ghost use Rattle.packet_captures.specs.Carried.{PlainFragment};
ghost use Rattle.packet_captures.specs.declared.carried.Addresses.{Addresses};
ghost use Rattle.packet_captures.specs.declared.fragment.Key.{Key};
ghost use Rattle.packet_captures.specs.Handing.{AreTimely, at_last, handed};
ghost use Rattle.packet_captures.specs.Parts.{AllStandIn, AreHeldWell, AreInOrder, NoneIsOf, OverlapsOne};
ghost use Rattle.packet_captures.specs.Pending.{PlainPart, PlainPending, cover, end_of, index_from, joined};

use crate::fragment::{Fragment, Key};
use crate::pending::Pending;
use std::alloc::{AllocError, Global};
use std::marker::Model;

/// Largest number of datagrams of which parts are held (profile).
pub const LARGEST_COUNT: usize = 64;

/// Datagrams of which some fragments came, at most 64, in the order in which they began.
#[derive(Drop)]
pub struct Assembly {
    held: Vec<Pending>,
}

impl Model for Assembly {
    ghost use Rattle.std.specs.Prelude.{List, ◌≤◌, length};
    ghost use Rattle.packet_captures.specs.Pending.{PlainPending};

    ghost Value = { List PlainPending };

    ghost view = { λ s. s.held.items };

    ghost invariant = { λ s. length s.held.items ≤ 64 };
}

impl Assembly {
    ghost use Rattle.std.specs.Prelude.{◌≡◌, ◌≤◌, [], length, IfOk, OnErr};
    ghost use Rattle.std.specs.Option.{option_map};
    ghost use Rattle.packet_captures.specs.Carried.{plain_fragment};
    ghost use Rattle.packet_captures.specs.Assembly.{key_of, taken, without};

    /// Nothing is held.
    pub fn new(alloc: Global) -> Assembly
        ensures { result ≡ [] }
    {
        Assembly {
            held: Vec::new(alloc),
        }
    }

    /// Takes a fragment that came at a stamp, in microseconds, and hands out the bytes of the
    /// datagram, header and data, if they are whole now. If memory is refused, nothing of the
    /// fragment's datagram is held any more, and all else as before.
    #[tactic(auto, unfolding(crate::specs::Assembly::taken))]
    pub fn take(
        &mut self,
        alloc: Global,
        fragment: &Fragment<'_>,
        stamp: u64,
    ) -> Result<Option<Vec<u8>>, AllocError>
        ensures ok { IfOk result (λ whole. taken self.old stamp (plain_fragment fragment.now) ≡ record { held = self.new; whole = option_map (λ v. v.items) whole }) }
        ensures err { OnErr result (self.new ≡ without (key_of (plain_fragment fragment.now)) self.old) }
        ensures limit { length self.new ≤ 64 }
    {
        let held = &mut self.held;
        if !fragment.is_whole() {
            return Ok(None);
        }
        let key = fragment.key();
        let place = place_of(held, &key);
        let (pending, place) = match take_out(held, place, stamp) {
            Some(pending) => (pending, place),
            None => (Pending::begun_at(alloc, key, stamp), held.len()),
        };
        let extended = pending.extended(alloc, fragment.offset, fragment.bytes, fragment.more)?;
        settle(alloc, held, place, extended)
    }
}

/// Index of the datagram of a key, or their number if none is held.
fn place_of(held: &[Pending], key: &Key) -> usize
    ensures place { result ≡ place_of key.now held.now }
    ensures within { result ≤ length held.now }
{
    for (i, pending) in held.iter().enumerate() {
        if pending.is_of(key) {
            return i;
        }
    }
    held.len()
}

/// Removes the datagram at a place, if there is one, and gives it if a part with this stamp goes on
/// with it.
fn take_out(held: &mut Vec<Pending>, place: usize, stamp: u64) -> Option<Pending>
    ensures going_on { result ≡ going_on stamp (slice_get held.old.items place) }
    ensures others { held.new.items ≡ remove held.old.items place }
    ensures fewer { length held.new.items ≤ length held.old.items }
{
    if place >= held.len() {
        return None;
    }
    let pending = held.remove(place);
    if pending.goes_on(stamp) {
        Some(pending)
    } else {
        None
    }
}

/// Gives up, hands out or holds a datagram that got one more part, among the others.
fn settle(
    alloc: Global,
    held: &mut Vec<Pending>,
    place: usize,
    extended: Option<Pending>,
) -> Result<Option<Vec<u8>>, AllocError>
    requires place { place ≤ length held.old.items }
    requires room { length held.old.items ≤ LARGEST_COUNT }
    ensures ok { IfOk result (λ whole. settled held.old.items place extended ≡ record { held = held.new.items; whole = option_map (λ v. v.items) whole }) }
    ensures err { OnErr result (held.new.items ≡ held.old.items) }
    ensures limit { length held.new.items ≤ LARGEST_COUNT }
{
    let Some(pending) = extended else {
        return Ok(None);
    };
    if pending.is_complete() {
        return Ok(Some(pending.joined(alloc)?));
    }
    held.insert(place, pending)?;
    if held.len() > LARGEST_COUNT {
        let _first = held.remove(0);
    }
    Ok(None)
}

/// Law: of parts in order, of which no two overlap, an index is found for one more exactly if it
/// overlaps none, and there it stands in order.
pub fn overlaps_are_found()
    ensures found { (p : PlainPart) (ps : List PlainPart) → index_from 0 p.offset (end_of p) ps ≡ None → OverlapsOne p ps }
    ensures only { (p : PlainPart) (ps : List PlainPart) → AreInOrder ps → OverlapsOne p ps → index_from 0 p.offset (end_of p) ps ≡ None }
    ensures placed { (p : PlainPart) (ps : List PlainPart) (i : ℕ) → AreInOrder ps → index_from 0 p.offset (end_of p) ps ≡ Some i → AreInOrder (insert ps i p) }
{}

/// Law: the whole of parts that cover a datagram has its size, and each part stands in it at its
/// place.
pub fn wholes_are_their_parts()
    ensures size { (end : ℕ) (ps : List PlainPart) → cover 0 end ps ≡ true → length (joined ps) ≡ end }
    ensures parts { (end : ℕ) (ps : List PlainPart) → cover 0 end ps ≡ true → AllStandIn (joined ps) 0 ps }
{}

/// Law: what is held is held well, also after memory was refused: at most 64 datagrams, each with a
/// key of its own, with parts in order of which no two overlap and none reaches behind the end.
pub fn what_is_held_is_held_well()
    ensures none { AreHeldWell [] }
    ensures taken { (held : List PlainPending) (stamp : ℕ) (f : PlainFragment) → AreHeldWell held → AreHeldWell (taken held stamp f).held }
    ensures refused { (held : List PlainPending) (key : Key) → AreHeldWell held → AreHeldWell (without key held) }
{}

/// Law: fragments of a datagram may come in any order. If each comes once, none is empty but perhaps
/// the last, each but the last is a multiple of eight bytes long, and they come within 30 seconds,
/// then the last that comes hands out the whole, whatever else is held, and none before it does.
pub fn fragments_may_come_in_any_order()
    ensures { (addresses : Addresses) (identification end : ℕ) (ps : List PlainPart) (stamp : ℕ → ℕ) (k : ℕ) (ks : List ℕ) (held : List PlainPending)
        → ArePartsOf 0 end ps → end ≤ 65535 → IsArrival (replicate (length ps) false) (k ∷ ks) → AreTimely stamp k
        → AreHeldWell held → NoneIsOf (record { source = addresses.source; target = addresses.target; identification = identification }) held
        → handed addresses identification ps stamp (k ∷ ks) held ≡ at_last ks (joined ps) }
{}
