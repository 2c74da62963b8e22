//! The first entry under each key. The table holds entry numbers under the hashes of their keys;
//! the keys themselves are read from the log at look-up.

ghost use Rattle.std.specs.Prelude.{◌≡◌, ◌<◌, ◌+◌, length, Some, true, IfOk, OnOk};
ghost use Rattle.siman_pdus.specs.Reading.{pdu_of};
ghost use Rattle.exercise_findings.specs.Hashed.{key_base, key_hash};
ghost use Rattle.exercise_findings.specs.Sent.{is_meant};
ghost use Rattle.exercise_findings.specs.FirstSends.{IsNewKey};
ghost use Rattle.exercise_findings.specs.Firsts.{answer_base, key_at, has_key, first_under, AreFirsts, IsBased};

use crate::hashed::word;
use crate::hint::StridePredictor;
use crate::kept::{Kept, append_entry, kept_at, place_of_entry};
use crate::key::{Key, acknowledged_key, received_key, sent_key};
use crate::slots::{Sought, find};
use exercise_model::{EntryView, ExerciseLog, key_of, meaning_again};
use siman_pdus::{ABLE, PduView};
use std::alloc::AllocError;
use std::hash::{DefaultHasher, Hasher};
use std::marker::Model;

/// The first entry under each key.
pub(crate) type Firsts = Kept;

/// The hash base of a key: the hash of all its fields except role and response. Keys that differ
/// only in those are looked up one after another, so they share one computation.
pub(crate) fn key_base(key: &Key) -> u32
    ensures { result ≡ key_base key.now }
{
    let mut hasher = DefaultHasher::new();
    hasher.write_u64(word(key.request, key.site, key.application));
    hasher.write_u64(word(u32::from(key.flag), key.entity, key.station));
    (hasher.finish() % 0x1_0000_0000) as u32
}

/// The last key with its hash base: repeated sends have equal keys, whose base is then computed
/// once.
#[derive(Drop)]
pub(crate) struct BaseCache {
    key: Key,
    base: u32,
}

// Contracts need not see it: whatever was last, the base of a key is the same.
impl Model for BaseCache {
    ghost use Rattle.std.specs.Prelude.{◌≡◌};
    ghost use Rattle.exercise_findings.specs.Hashed.{key_base};

    ghost Value = { Unit {0} };

    ghost view = { λ last. tt };

    ghost invariant = { λ last. last.base ≡ key_base last.key };
}

/// An initial cache entry: an all-zero key, with its base.
pub(crate) fn empty_base_cache() -> BaseCache
    ensures { result ≡ tt }
{
    let key = Key {
        role: 0,
        response: 0,
        station: 0,
        flag: 0,
        request: 0,
        site: 0,
        application: 0,
        entity: 0,
    };
    let base = key_base(&key);
    BaseCache { key, base }
}

/// The hash base of a key, computed only if the key differs from the last one.
pub(crate) fn cached_base(last: &mut BaseCache, key: &Key) -> u32
    ensures { result ≡ key_base key.now }
{
    if last.key == *key {
        return last.base;
    }
    let base = key_base(key);
    *last = BaseCache { key: *key, base };
    base
}

/// The hash of a key with this base. Its lowest bits, which select the slot, depend only on the
/// base, so keys that share a base are neighbours; the response is in the highest two bits.
fn key_hash(key: &Key, base: u32) -> u32
    requires { base ≡ key_base key.now }
    ensures { result ≡ key_hash key.now }
{
    base % 0x4000_0000 + 0x4000_0000 * u32::from(key.response % 4)
}

/// The hash base of the keys of an answer of a station; 0 if it has none.
pub(crate) fn answer_base(last: &mut BaseCache, station: u16, pdu: &PduView<'_>) -> u32
    ensures { result ≡ answer_base station (pdu_of pdu.now) }
{
    match key_of(pdu) {
        Some(key) => cached_base(last, &acknowledged_key(station, ABLE, &key)),
        None => 0,
    }
}

/// The key of an entry whose datagram must mean something.
#[tactic(auto, unfolding(crate::specs::Firsts::key_at, crate::specs::Sent::is_meant), using(crate::proofs::Meant::meant_within))]
fn key_at<L: ExerciseLog>(log: &L, entry: usize) -> Option<Key>
    requires { is_meant (L.recording log.now) entry ≡ true }
    ensures { result ≡ key_at (L.recording log.now) entry }
{
    match log.entry(entry) {
        EntryView::Sent { station, bytes, .. } => {
            sent_key(station, &meaning_again(log.exercise(), bytes))
        }
        EntryView::Received { station, bytes, .. } => {
            let address = log.station(usize::from(station)).address();
            received_key(station, address, &meaning_again(log.exercise(), bytes))
        }
        EntryView::Told { .. } => None,
    }
}

/// Whether an entry, whose datagram must mean something, has this key.
fn has_key<L: ExerciseLog>(log: &L, key: &Key, entry: usize) -> bool
    requires { is_meant (L.recording log.now) entry ≡ true }
    ensures { result ≡ has_key (L.recording log.now) key.now entry }
{
    match key_at(log, entry) {
        Some(other) => *key == other,
        None => false,
    }
}

/// Search for an entry with a key.
#[derive(Drop)]
struct KeySearch<'a, L: ExerciseLog> {
    log: &'a L,
    key: &'a Key,
}

impl<'a, L: ExerciseLog> Sought for KeySearch<'a, L> {
    ghost is_sought = { λ s. has_key (L.recording s.log.now) s.key.now };

    ghost is_known = { λ s. is_meant (L.recording s.log.now) };

    fn is_sought(&self, entry: u32) -> bool {
        has_key(self.log, self.key, entry as usize)
    }
}

/// The first entry before `before` under a key of this hash.
fn first_hashed<L: ExerciseLog>(
    firsts: &Firsts,
    log: &L,
    hash: u32,
    key: &Key,
    before: usize,
) -> Option<u32>
    requires hash { hash ≡ key_hash key.now }
    requires tied { AreFirsts (L.recording log.now) before firsts.now }
    ensures { result ≡ first_under (L.recording log.now) key.now before }
{
    let _before = before;
    find(&firsts.slots, hash, &KeySearch { log, key })
}

/// The first entry before `before` under a key of this base.
pub(crate) fn first_under<L: ExerciseLog>(
    firsts: &Firsts,
    log: &L,
    key: &Key,
    base: u32,
    before: usize,
) -> Option<u32>
    requires base { base ≡ key_base key.now }
    requires tied { AreFirsts (L.recording log.now) before firsts.now }
    ensures { result ≡ first_under (L.recording log.now) key.now before }
{
    first_hashed(firsts, log, key_hash(key, base), key, before)
}

/// As [`first_under`]; notes the place found in the hint.
pub(crate) fn first_noted<L: ExerciseLog>(
    firsts: &Firsts,
    log: &L,
    key: &Key,
    before: usize,
    hint: &mut StridePredictor,
) -> Option<u32>
    requires { AreFirsts (L.recording log.now) before firsts.now }
    ensures { result ≡ first_under (L.recording log.now) key.now before }
{
    let Some(entry) = first_under(firsts, log, key, key_base(key), before) else {
        return None;
    };
    hint.found(place_of_entry(firsts, entry));
    Some(entry)
}

/// As [`first_under`], trying the place that the hint predicts first: keys are mostly looked up in
/// the order in which they were recorded.
pub(crate) fn first_near<L: ExerciseLog>(
    firsts: &Firsts,
    log: &L,
    key: &Key,
    before: usize,
    hint: &mut StridePredictor,
) -> Option<u32>
    requires { AreFirsts (L.recording log.now) before firsts.now }
    ensures { result ≡ first_under (L.recording log.now) key.now before }
{
    let place = hint.next();
    if let Some(entry) = kept_at(firsts, place, &KeySearch { log, key }) {
        hint.found(place);
        return Some(entry);
    }
    first_noted(firsts, log, key, before, hint)
}

/// Adds the next entry of a log, which has this key, if it is the first; returns whether it is.
fn keep_first<L: ExerciseLog>(
    firsts: &mut Firsts,
    log: &L,
    entry: usize,
    key: &Key,
    base: u32,
) -> Result<bool, AllocError>
    requires few { entry < 4294967295 }
    requires key { Some key.now ≡ key_at (L.recording log.now) entry }
    requires base { base ≡ key_base key.now }
    requires tied { AreFirsts (L.recording log.now) entry firsts.old }
    ensures tied { OnOk result (AreFirsts (L.recording log.now) (entry + 1) firsts.new) }
    ensures new { IfOk result (λ new. new ≡ true → IsNewKey (L.recording log.now) entry) }
{
    let hash = key_hash(key, base);
    match first_hashed(firsts, log, hash, key, entry) {
        Some(_) => Ok(false),
        None => {
            append_entry(firsts, hash, entry as u32)?;
            Ok(true)
        }
    }
}

/// Adds the next entry of a log, whose key, if any, has this base; returns whether it is the first
/// under its key.
pub(crate) fn note_entry<L: ExerciseLog>(
    firsts: &mut Firsts,
    log: &L,
    entry: usize,
    key: Option<Key>,
    base: u32,
) -> Result<bool, AllocError>
    requires few { entry < 4294967295 }
    requires within { entry < length (L.recording log.now).entries }
    requires key { key ≡ key_at (L.recording log.now) entry }
    requires base { IsBased (L.recording log.now) entry base }
    requires tied { AreFirsts (L.recording log.now) entry firsts.old }
    ensures tied { OnOk result (AreFirsts (L.recording log.now) (entry + 1) firsts.new) }
    ensures new { IfOk result (λ new. new ≡ true → IsNewKey (L.recording log.now) entry) }
{
    match key {
        Some(key) => keep_first(firsts, log, entry, &key, base),
        None => Ok(false),
    }
}
