//! Index of the first send of each datagram, by the hash of its bytes.

ghost use Rattle.std.specs.Prelude.{◌≡◌, ◌<◌, ◌+◌, ℕ, Some, true, length, IfSome, OnOk};
ghost use Rattle.exercise_findings.specs.Hashed.{datagram_hash};
ghost use Rattle.exercise_findings.specs.Sent.{Sends};
ghost use Rattle.exercise_findings.specs.Source.{source_at, first_source};
ghost use Rattle.exercise_findings.specs.Senders.{sends_at, AreSenders};

use crate::hint::StridePredictor;
use crate::kept::{Kept, kept_at, place_of_entry};
use crate::slots::{Sought, find};
use exercise_model::{EntryView, ExerciseLog};
use std::alloc::{AllocError, Global};
use std::hash::{DefaultHasher, Hasher};

/// The first send of each datagram by its originating station.
pub(crate) type Senders = Kept;

/// The hash of a datagram.
pub(crate) fn datagram_hash(datagram: &[u8]) -> u32
    ensures { result ≡ datagram_hash datagram.now }
{
    let mut hasher = DefaultHasher::new();
    hasher.write(datagram);
    (hasher.finish() % 0x1_0000_0000) as u32
}

/// Whether an entry sends a datagram of these bytes; false past the last entry.
fn sends_at<L: ExerciseLog>(log: &L, datagram: &[u8], entry: usize) -> bool
    ensures { result ≡ sends_at (L.recording log.now) datagram.now entry }
{
    if entry >= log.entry_count() {
        return false;
    }
    match log.entry(entry) {
        EntryView::Sent { bytes, .. } => datagram == bytes,
        EntryView::Received { .. } | EntryView::Told { .. } => false,
    }
}

/// Search for an entry that sends a datagram of these bytes.
#[derive(Drop)]
pub(crate) struct Sending<'a, L: ExerciseLog> {
    pub log: &'a L,
    pub datagram: &'a [u8],
}

impl<'a, L: ExerciseLog> Sought for Sending<'a, L> {
    ghost is_sought = { λ s. sends_at (L.recording s.log.now) s.datagram.now };

    ghost is_known = { λ s e. true };

    fn is_sought(&self, entry: u32) -> bool {
        sends_at(self.log, self.datagram, entry as usize)
    }
}

/// The first send of a datagram of this hash by its originating station.
pub(crate) fn first_hashed<L: ExerciseLog>(
    senders: &Senders,
    log: &L,
    hash: u32,
    datagram: &[u8],
) -> Option<u32>
    requires { hash ≡ datagram_hash datagram.now }
    ensures { let r = L.recording log.now in (n : ℕ) → AreSenders r n senders.now → result ≡ first_source r datagram.now n }
{
    find(&senders.slots, hash, &Sending { log, datagram })
}

/// The first send of a datagram by its originating station.
pub(crate) fn first_source<L: ExerciseLog>(
    senders: &Senders,
    log: &L,
    datagram: &[u8],
) -> Option<u32>
    ensures { let r = L.recording log.now in (n : ℕ) → AreSenders r n senders.now → result ≡ first_source r datagram.now n }
{
    first_hashed(senders, log, datagram_hash(datagram), datagram)
}

/// The entry at a place of the order, if it sends these bytes.
fn stored_source_at<L: ExerciseLog>(
    senders: &Senders,
    log: &L,
    place: usize,
    datagram: &[u8],
) -> Option<u32>
    ensures { let r = L.recording log.now in (n : ℕ) → AreSenders r n senders.now → IfSome result (λ source. first_source r datagram.now n ≡ Some source) }
{
    kept_at(senders, place, &Sending { log, datagram })
}

/// Predictors, one for each small hash of a sender's address.
pub(crate) type SenderHints = Vec<StridePredictor>;

/// Number of predictors.
const HINTS: usize = 256;

/// Predictors without hits.
pub(crate) fn no_hints(alloc: Global) -> Result<SenderHints, AllocError> {
    vec![in alloc; StridePredictor::new(); HINTS]
}

/// The predictor for a datagram, from the sender's address in its bytes (the low bytes of site and
/// application).
fn hint_of(datagram: &[u8]) -> usize {
    match (datagram.get(13), datagram.get(15)) {
        (Some(site), Some(application)) => {
            (usize::from(*site) * 16 + usize::from(*application)) % HINTS
        }
        _ => 0,
    }
}

/// The place that a predictor predicts; 0 if there is no such predictor.
fn place_of(hints: &SenderHints, number: usize) -> usize {
    match hints.get(number) {
        Some(hint) => hint.next(),
        None => 0,
    }
}

/// Records a hit of a predictor at a place.
fn keep_hint(hints: &mut SenderHints, number: usize, place: usize) {
    if number < hints.len() {
        hints[number].found(place);
    }
}

/// As [`first_source`], trying the predictor of the sender first: stations mostly receive a
/// sender's datagrams, or a regular share of them, in the order in which they were sent.
pub(crate) fn next_source<L: ExerciseLog>(
    senders: &Senders,
    hints: &mut SenderHints,
    log: &L,
    datagram: &[u8],
) -> Option<u32>
    ensures { let r = L.recording log.now in (n : ℕ) → AreSenders r n senders.now → result ≡ first_source r datagram.now n }
{
    let hint = hint_of(datagram);
    let place = place_of(hints, hint);
    if let Some(source) = stored_source_at(senders, log, place, datagram) {
        keep_hint(hints, hint, place);
        return Some(source);
    }
    let Some(source) = first_source(senders, log, datagram) else {
        return None;
    };
    keep_hint(hints, hint, place_of_entry(senders, source));
    Some(source)
}
