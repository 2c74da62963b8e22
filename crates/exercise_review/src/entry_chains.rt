//! Index of entries by key: for each key, a linked list of its entries, newest first.

ghost use Rattle.std.specs.Prelude.{◌≡◌, ◌<◌, ◌≤◌, ℕ, ◌+◌, true, Option, None, Some, is_some, IfOk, OnOk, IfSome, length, slice_get, slice_index_or, unwrap_or};
ghost use Rattle.siman_pdus.specs.Answers.{same_id};
ghost use Rattle.exercise_model.specs.Place.{first_below};
ghost use Rattle.exercise_findings.specs.Number.{entry_of};
ghost use Rattle.exercise_review.specs.Register.{Keys, no_entry, holds, given_key, IsKept, AreRegistered};
ghost use Rattle.exercise_review.specs.Counted.{last_below};

use crate::entry_number::{NO_ENTRY, entry_of};
use crate::question::{Question, first_below};
use exercise_findings::{number_at, put_number, replace};
use indexmap::IndexSet;
use std::alloc::{AllocError, Global};
use std::hash::{BuildHasherDefault, FoldHasher};

/// The distinct keys, in the order of their first entries. The keys are digests by a hasher for
/// which nobody can construct many collisions, so a fast hasher is enough here although strangers
/// choose the contents of entries.
pub(crate) type Keys = IndexSet<u64, BuildHasherDefault<FoldHasher>>;

/// Index of entries by key. Entries and places (of keys in `keys`) are numbers of 32 bits;
/// `NO_ENTRY` means none.
pub(crate) struct EntryChains {
    pub keys: Keys,
    /// For each key, its last entry.
    pub last: Vec<u32>,
    /// For each entry, the place of its key in `keys`.
    pub places: Vec<u32>,
    /// For each entry, the previous entry with an equal key.
    pub before: Vec<u32>,
}

// Written by hand, so that a drop is one call and the caller does not drop each table by itself.
impl Drop for EntryChains {
    fn drop(self) {
        let EntryChains {
            keys: _keys,
            last: _last,
            places: _places,
            before: _before,
        } = self;
    }
}

/// The key of an entry, if any: as the place of a known key, or as the key itself.
#[derive(Clone, Copy)]
pub(crate) enum Keyed {
    Nothing,
    At(u32),
    Key(u64),
}

/// A function from entries to keys. Its meaning is `keys`; no call allocates memory.
pub(crate) trait EntryKeys {
    ghost use Rattle.std.specs.Prelude.{◌≡◌, ℕ, Option};

    /// Key of each entry, if it has one.
    ghost keys: { Self → ℕ → Option ℕ };

    /// Key of an entry, if it has one.
    fn key(&self, entry: usize) -> Option<u64>
        ensures { result ≡ keys self.now entry };
}

/// Empty index. Allocates no memory.
pub(crate) fn no_entry_chains(alloc: Global) -> EntryChains
    ensures none { length result.keys.keys ≡ 0 }
    ensures kept { (keys : ℕ → Option ℕ) → AreRegistered keys 0 result }
{
    EntryChains {
        keys: Keys::with_hasher(alloc, BuildHasherDefault::default()),
        last: Vec::new(alloc),
        places: Vec::new(alloc),
        before: Vec::new(alloc),
    }
}

/// Place of a key, which is added if it is new.
fn place_of_key(ways: &mut EntryChains, key: u64) -> Result<usize, AllocError>
    ensures at { IfOk result (λ place. slice_get ways.new.keys.keys place ≡ Some key) }
    ensures few { OnOk result (length ways.new.keys.keys ≤ length ways.old.keys.keys + 1) }
    ensures same { OnOk result (length ways.old.last.items ≡ length ways.old.keys.keys → length ways.new.last.items ≡ length ways.new.keys.keys) }
    ensures kept { OnOk result ((keys : ℕ → Option ℕ) (n : ℕ) → AreRegistered keys n ways.old → AreRegistered keys n ways.new) }
{
    let (place, is_new) = ways.keys.insert_full(key)?;
    if is_new {
        ways.last.push(NO_ENTRY)?;
    }
    Ok(place)
}

/// Adds the next of `count` entries under the key at a place.
fn note_at(
    ways: &mut EntryChains,
    count: usize,
    entry: usize,
    place: usize,
) -> Result<(), AllocError>
    requires within { entry < count }
    requires few { entry < 4294967295 }
    requires place { place < length ways.old.last.items }
    requires below { place < 4294967295 }
    ensures { OnOk result (IsKept entry place ways.old ways.new) }
{
    let earlier = ways.last[place];
    replace(&mut ways.last, place, entry as u32);
    put_number(&mut ways.places, NO_ENTRY, count, entry, place as u32)?;
    put_number(&mut ways.before, NO_ENTRY, count, entry, earlier)
}

/// Adds the next of `count` entries under its key, if it has one. The entry's number must be less
/// than `NO_ENTRY`.
pub(crate) fn note_index_key(
    ways: &mut EntryChains,
    count: usize,
    entry: usize,
    keyed: Keyed,
) -> Result<(), AllocError>
    requires within { entry < count }
    requires few { entry < 4294967295 }
    requires keys { length ways.old.keys.keys ≤ entry }
    requires same { length ways.old.last.items ≡ length ways.old.keys.keys }
    ensures keys { OnOk result (length ways.new.keys.keys ≤ entry + 1) }
    ensures same { OnOk result (length ways.new.last.items ≡ length ways.new.keys.keys) }
    ensures kept { OnOk result ((keys : ℕ → Option ℕ) → given_key ways.old.keys keyed ≡ keys entry → AreRegistered keys entry ways.old → AreRegistered keys (entry + 1) ways.new) }
{
    match keyed {
        Keyed::Nothing => Ok(()),
        Keyed::At(place) if (place as usize) < ways.last.len() => {
            note_at(ways, count, entry, place as usize)
        }
        Keyed::At(_) => Ok(()),
        Keyed::Key(key) => {
            let place = place_of_key(ways, key)?;
            note_at(ways, count, entry, place)
        }
    }
}

/// An optional key, given as itself.
pub(crate) fn index_key_of(key: Option<u64>) -> Keyed
    ensures { (keys : Keys) → given_key keys result ≡ key }
{
    match key {
        Some(key) => Keyed::Key(key),
        None => Keyed::Nothing,
    }
}

/// Index of the entries below `end`. Allocates memory for the tables.
pub(crate) fn entry_chains<K: EntryKeys>(
    alloc: Global,
    keying: &K,
    end: usize,
) -> Result<EntryChains, AllocError>
    requires { end ≤ 4294967295 }
    ensures { IfOk result (AreRegistered (K.keys keying.now) end) }
{
    let mut ways = no_entry_chains(alloc);
    for entry in 0..end {
        note_index_key(&mut ways, end, entry, index_key_of(keying.key(entry)))?;
    }
    Ok(ways)
}

/// Place of the key of an entry, if it has one.
fn place_at(ways: &EntryChains, entry: usize) -> Option<usize>
    ensures { result ≡ entry_of (slice_index_or ways.now.places.items entry no_entry) }
{
    entry_of(number_at(&ways.places, NO_ENTRY, entry))
}

/// The key at a place.
pub(crate) fn key_in(ways: &EntryChains, place: usize) -> Option<u64>
    ensures { result ≡ slice_get ways.now.keys.keys place }
{
    match ways.keys.get_index(place) {
        Some(key) => Some(*key),
        None => None,
    }
}

/// Key of an indexed entry, if it has one.
pub(crate) fn key_of_entry(ways: &EntryChains, entry: usize) -> Option<u64>
    ensures { (keys : ℕ → Option ℕ) (n : ℕ) → AreRegistered keys n ways.now → entry < n → result ≡ keys entry }
{
    match place_at(ways, entry) {
        Some(place) => key_in(ways, place),
        None => None,
    }
}

/// An upper bound, at most `count`: no entry from there on has a key. It is the length of the
/// column of places.
pub(crate) fn indexed_end(ways: &EntryChains, count: usize) -> usize
    ensures within { result ≤ count }
    ensures rest { (keys : ℕ → Option ℕ) → AreRegistered keys count ways.now → (i : ℕ) → result ≤ i → i < count → keys i ≡ None }
{
    ways.places.len().min(count)
}

/// Whether an entry has a key. Does not read the entry itself.
#[tactic(auto, using(crate::proofs::Registered::is_indexed))]
pub(crate) fn is_indexed(ways: &EntryChains, entry: usize) -> bool
    ensures { (keys : ℕ → Option ℕ) (n : ℕ) → AreRegistered keys n ways.now → entry < n → result ≡ is_some (keys entry) }
{
    place_at(ways, entry).is_some()
}

/// Key of an indexed entry, given as its place.
pub(crate) fn indexed_key_place(ways: &EntryChains, entry: usize) -> Keyed
    ensures { (keys : ℕ → Option ℕ) (n : ℕ) → AreRegistered keys n ways.now → entry < n → given_key ways.now.keys result ≡ keys entry }
{
    let number = number_at(&ways.places, NO_ENTRY, entry);
    if number == NO_ENTRY {
        Keyed::Nothing
    } else {
        Keyed::At(number)
    }
}

/// Last entry under the key at a place.
pub(crate) fn last_in(ways: &EntryChains, place: usize) -> Option<usize>
    ensures { result ≡ entry_of (slice_index_or ways.now.last.items place no_entry) }
{
    entry_of(number_at(&ways.last, NO_ENTRY, place))
}

/// Place of a key, looked up in the table.
pub(crate) fn place_in_table(ways: &EntryChains, key: u64) -> Option<usize>
    ensures at { IfSome result (λ place. slice_get ways.now.keys.keys place ≡ Some key) }
    ensures none { result ≡ None → (keys : ℕ → Option ℕ) (n : ℕ) → AreRegistered keys n ways.now → last_below (holds keys key) n ≡ None }
{
    match ways.keys.get_index_of(&key) {
        Some(place) => Some(place),
        None => None,
    }
}

/// Whether an entry is known to be the last under its key.
pub(crate) fn is_last(ways: &EntryChains, entry: usize) -> bool
    ensures { (keys : ℕ → Option ℕ) (n k : ℕ) → AreRegistered keys n ways.now → entry < n → result ≡ true → holds keys k entry ≡ true → last_below (holds keys k) n ≡ Some entry }
{
    let Some(place) = place_at(ways, entry) else {
        return false;
    };
    match last_in(ways, place) {
        Some(last) => last == entry,
        None => false,
    }
}

/// Previous entry under the key of an entry.
pub(crate) fn entry_before(ways: &EntryChains, entry: usize) -> Option<usize>
    ensures { (keys : ℕ → Option ℕ) (n k : ℕ) → AreRegistered keys n ways.now → entry < n → holds keys k entry ≡ true → result ≡ last_below (holds keys k) entry }
{
    entry_of(number_at(&ways.before, NO_ENTRY, entry))
}

/// Whether a passing entry is the first that passes, where it has a key and all that pass have that
/// key. Follows the list back to the nearest earlier entry that passes.
pub(crate) fn is_first_with_key<K: EntryKeys, Q: Question>(
    ways: &EntryChains,
    keying: &K,
    end: usize,
    question: &Q,
    entry: usize,
) -> bool
    requires within { entry < end }
    requires tied { AreRegistered (K.keys keying.now) end ways.now }
    requires passes { Q.test question.now entry ≡ true }
    requires under { (i : ℕ) → Q.test question.now i ≡ true → holds (K.keys keying.now) (unwrap_or (K.keys keying.now entry) 0) i ≡ true }
    ensures { result ≡ same_id (first_below (Q.test question.now) end) (Some entry) }
{
    let _keying = keying;
    let mut next = entry_before(ways, entry);
    while let Some(at) = next {
        if question.passes(at) {
            return false;
        }
        next = entry_before(ways, at);
    }
    true
}

/// Whether an entry is the first that passes, where, if it passes and has a key, all that pass have
/// that key.
#[tactic(auto, using(crate::proofs::FirstOnes::fails_itself, crate::proofs::FirstOnes::none_before))]
pub(crate) fn is_first<K: EntryKeys, Q: Question>(
    ways: &EntryChains,
    keying: &K,
    end: usize,
    question: &Q,
    entry: usize,
) -> bool
    requires within { entry < end }
    requires tied { AreRegistered (K.keys keying.now) end ways.now }
    requires under { Q.test question.now entry ≡ true → IfSome (K.keys keying.now entry) (λ k. (i : ℕ) → Q.test question.now i ≡ true → holds (K.keys keying.now) k i ≡ true) }
    ensures { result ≡ same_id (first_below (Q.test question.now) end) (Some entry) }
{
    if !question.passes(entry) {
        return false;
    }
    match keying.key(entry) {
        Some(_) => is_first_with_key(ways, keying, end, question, entry),
        None => is_first_of_all(question, end, entry),
    }
}

/// Whether an entry is the first that passes. Tests all entries before it.
#[tactic(auto, using(crate::proofs::FirstOnes::fails_itself, crate::proofs::FirstOnes::none_or_not, crate::proofs::FirstOnes::none_before))]
pub(crate) fn is_first_of_all<Q: Question>(question: &Q, end: usize, entry: usize) -> bool
    requires { entry < end }
    ensures { result ≡ same_id (first_below (Q.test question.now) end) (Some entry) }
{
    if !question.passes(entry) {
        return false;
    }
    match first_below(question, entry) {
        Some(_) => false,
        None => true,
    }
}
