//! The keys by which entries are indexed.

ghost use Rattle.std.specs.Prelude.{◌≡◌, ◌<◌, ℕ, Option, true, Some, None, is_some, length, slice_get, option_map, option_and_then, IfSome};
ghost use Rattle.siman_pdus.specs.Reading.{pdu_of};
ghost use Rattle.exercise_model.specs.Held.{shown};
ghost use Rattle.exercise_model.specs.Account.{pair_of};
ghost use Rattle.exercise_model.specs.Meaning.{meaning};
ghost use Rattle.exercise_review.specs.Entries.{bytes_sent, bytes_received, pdu_received};
ghost use Rattle.siman_pdus.specs.declared.pdu.Pdu.{Pdu};
ghost use Rattle.exercise_review.specs.Register.{request_digest, order_key, id_key, receipt_key, key_at, second_at, given_key, AreRegistered};

use crate::digest::{at_station, digest, identifier_at, moved};
use crate::entries::{bytes_received_in, bytes_sent_in};
use crate::entry_chains::{
    EntryChains, EntryKeys, Keyed, entry_before, index_key_of, indexed_key_place, key_of_entry,
};
use crate::recent::Recent;
use crate::resent::is_resent;
use exercise_findings::Findings;
use exercise_model::{EntryView, ExerciseLog, Form, meaning_view};
use siman_pdus::{PduView, is_request, request_id};

/// A number that no station has.
const NOWHERE: u16 = 65_535;

/// Digest of a PDU, if it is a request.
pub(crate) fn request_digest(pdu: &PduView<'_>) -> Option<u64>
    ensures { result ≡ request_digest (pdu_of pdu.now) }
{
    if is_request(pdu) {
        Some(digest(pdu))
    } else {
        None
    }
}

/// Key at a station of a request with this digest.
#[tactic(auto, unfolding(crate::specs::Register::order_key, crate::specs::Digest::digest_of))]
pub(crate) fn digest_key(station: u16, digest: Option<u64>) -> Option<u64>
    ensures { (p : Pdu) → digest ≡ request_digest p → result ≡ order_key station p }
{
    match digest {
        Some(digest) => Some(at_station(station, digest)),
        None => None,
    }
}

/// Key of a PDU at a station, if it is a request: its digest there.
pub(crate) fn order_key(station: u16, pdu: &PduView<'_>) -> Option<u64>
    ensures { result ≡ order_key station (pdu_of pdu.now) }
{
    digest_key(station, request_digest(pdu))
}

/// Key of the request identifier of a PDU at a station, if it has one: its digest there.
pub(crate) fn id_key(station: u16, pdu: &PduView<'_>) -> Option<u64>
    ensures { result ≡ id_key station (pdu_of pdu.now) }
{
    match request_id(pdu) {
        Some(request) => Some(identifier_at(station, request)),
        None => None,
    }
}

/// The PDU that a station receives at an entry, unless the datagram is "other".
#[tactic(auto, unfolding(crate::specs::Entries::pdu_received, crate::specs::Entries::bytes_received))]
fn got_at<'a, L: ExerciseLog>(
    findings: &Findings<'a, L>,
    station: u16,
    entry: usize,
) -> Option<PduView<'a>>
    ensures { option_map pdu_of result ≡ pdu_received findings.now station entry }
{
    let log = findings.log();
    if entry >= log.entry_count() {
        return None;
    }
    match log.entry(entry) {
        EntryView::Received {
            station: at,
            bytes,
            ..
        } if at == station => meaning_view(log.exercise(), bytes),
        _ => None,
    }
}

/// Key of the request that a station receives at an entry.
fn received_order_key<L: ExerciseLog>(
    findings: &Findings<'_, L>,
    station: u16,
    entry: usize,
) -> Option<u64>
    ensures { result ≡ option_and_then (order_key station) (pdu_received findings.now station entry) }
{
    match got_at(findings, station, entry) {
        Some(request) => order_key(station, &request),
        None => None,
    }
}

/// Index key of an answer: the key of the request it takes up, received at entry `taken`.
fn answer_index_key<L: ExerciseLog>(
    findings: &Findings<'_, L>,
    ways: &EntryChains,
    station: u16,
    entry: usize,
    taken: usize,
) -> Keyed
    requires tied { AreRegistered (key_at findings.now) entry ways.now }
    requires within { entry < length findings.now.entries }
    requires received { is_some (pdu_received findings.now station taken) ≡ true }
    ensures { given_key ways.now.keys result ≡ option_and_then (order_key station) (pdu_received findings.now station taken) }
{
    if findings.log().form() == Form::Open || taken >= entry {
        return index_key_of(received_order_key(findings, station, taken));
    }
    indexed_key_place(ways, taken)
}

/// Index key of a sent request, if it repeats a recent one of this station except for the
/// timestamp. Compares bytes and does not decode the datagram.
fn resend_index_key<L: ExerciseLog>(
    findings: &Findings<'_, L>,
    ways: &EntryChains,
    station: u16,
    entry: usize,
    bytes: &[u8],
    recent: Option<usize>,
) -> Option<Keyed>
    requires tied { AreRegistered (key_at findings.now) entry ways.now }
    requires within { entry < length findings.now.entries }
    requires sent { bytes_sent findings.now station entry ≡ Some bytes.now }
    requires pair { pair_of findings.now entry ≡ None }
    ensures { IfSome result (λ keyed. given_key ways.now.keys keyed ≡ key_at findings.now entry) }
{
    let earlier = recent?;
    if earlier >= entry || findings.pair(earlier).is_some() {
        return None;
    }
    match bytes_sent_in(findings.log(), station, earlier) {
        Some(other) if is_resent(bytes, other) => Some(indexed_key_place(ways, earlier)),
        _ => None,
    }
}

/// Index key of a received datagram, if it repeats a recent one at this station except for the
/// timestamp. Compares bytes and does not decode the datagram.
fn repeat_index_key<L: ExerciseLog>(
    findings: &Findings<'_, L>,
    ways: &EntryChains,
    station: u16,
    entry: usize,
    bytes: &[u8],
    recent: Option<usize>,
) -> Option<Keyed>
    requires tied { AreRegistered (key_at findings.now) entry ways.now }
    requires within { entry < length findings.now.entries }
    requires received { bytes_received findings.now station entry ≡ Some bytes.now }
    ensures { IfSome result (λ keyed. given_key ways.now.keys keyed ≡ key_at findings.now entry) }
{
    let earlier = recent?;
    if earlier >= entry {
        return None;
    }
    match bytes_received_in(findings.log(), station, earlier) {
        Some(other) if is_resent(bytes, other) => Some(indexed_key_place(ways, earlier)),
        _ => None,
    }
}

/// Index key of a sent datagram: for a request its key, for an answer the key of the request it
/// takes up. An answer that takes up a request is not decoded.
fn send_index_key<L: ExerciseLog>(
    findings: &Findings<'_, L>,
    ways: &EntryChains,
    station: u16,
    entry: usize,
    bytes: &[u8],
    recent: Recent,
) -> Keyed
    requires tied { AreRegistered (key_at findings.now) entry ways.now }
    requires within { entry < length findings.now.entries }
    requires sent { bytes_sent findings.now station entry ≡ Some bytes.now }
    ensures { given_key ways.now.keys result ≡ key_at findings.now entry }
{
    if let Some(taken) = findings.pair(entry) {
        return answer_index_key(findings, ways, station, entry, taken as usize);
    }
    if let Some(keyed) = resend_index_key(findings, ways, station, entry, bytes, recent.sent) {
        return keyed;
    }
    match meaning_view(findings.log().exercise(), bytes) {
        Some(pdu) => index_key_of(order_key(station, &pdu)),
        None => Keyed::Nothing,
    }
}

/// Key of a received PDU: for a request its key; for another PDU, in an open recording, the key of
/// its request identifier. In a recording that is not open nothing looks up those other PDUs.
#[tactic(auto, unfolding(crate::specs::Register::receipt_key))]
fn receipt_key(form: Form, station: u16, pdu: &PduView<'_>) -> Option<u64>
    ensures { result ≡ receipt_key form station (pdu_of pdu.now) }
{
    if is_request(pdu) {
        order_key(station, pdu)
    } else if form == Form::Open {
        id_key(station, pdu)
    } else {
        None
    }
}

/// Key of a request at one station, given its key at another.
#[tactic(auto, unfolding(crate::specs::Register::order_key, crate::specs::Digest::digest_of))]
fn key_at_station(from: u16, to: u16, key: Option<u64>) -> Option<u64>
    ensures { (p : Pdu) → key ≡ order_key from p → result ≡ order_key to p }
{
    match key {
        Some(key) => Some(moved(from, to, key)),
        None => None,
    }
}

/// Index key at station `to` of the request that station `from` sent at entry `source`.
fn moved_index_key(ways: &EntryChains, from: u16, to: u16, source: usize) -> Keyed
    ensures { (keys : ℕ → Option ℕ) (n : ℕ) (p : Pdu) → AreRegistered keys n ways.now → source < n → keys source ≡ order_key from p → given_key ways.now.keys result ≡ order_key to p }
{
    if from == to {
        return indexed_key_place(ways, source);
    }
    index_key_of(key_at_station(from, to, key_of_entry(ways, source)))
}

/// Index key of a received datagram, derived from earlier entries. The send of these bytes carries
/// the request's key at its own station; an answer that takes up a request has no key when
/// received. `None` in an open recording, where received answers have keys too and the datagram
/// must be decoded.
fn derived_index_key<L: ExerciseLog>(
    findings: &Findings<'_, L>,
    ways: &EntryChains,
    station: u16,
    entry: usize,
    bytes: &[u8],
    recent: Recent,
) -> Option<Keyed>
    requires tied { AreRegistered (key_at findings.now) entry ways.now }
    requires within { entry < length findings.now.entries }
    requires received { bytes_received findings.now station entry ≡ Some bytes.now }
    ensures { IfSome result (λ keyed. given_key ways.now.keys keyed ≡ key_at findings.now entry) }
{
    let log = findings.log();
    if log.form() == Form::Open {
        return None;
    }
    let source = findings.source_at_hand(entry)? as usize;
    if source >= entry {
        return None;
    }
    if findings.pair(source).is_some() {
        return Some(Keyed::Nothing);
    }
    if entry_before(ways, source).is_some() {
        let again = repeat_index_key(findings, ways, station, entry, bytes, recent.got);
        if again.is_some() {
            return again;
        }
    }
    Some(moved_index_key(ways, log.entry(source).station(), station, source))
}

/// Index key of a received datagram. Decodes it only if no earlier entry determines the key.
fn receipt_index_key<L: ExerciseLog>(
    findings: &Findings<'_, L>,
    ways: &EntryChains,
    station: u16,
    entry: usize,
    bytes: &[u8],
    recent: Recent,
) -> Keyed
    requires tied { AreRegistered (key_at findings.now) entry ways.now }
    requires within { entry < length findings.now.entries }
    requires received { bytes_received findings.now station entry ≡ Some bytes.now }
    ensures { given_key ways.now.keys result ≡ key_at findings.now entry }
{
    if let Some(keyed) = derived_index_key(findings, ways, station, entry, bytes, recent) {
        return keyed;
    }
    let log = findings.log();
    match meaning_view(log.exercise(), bytes) {
        Some(pdu) => index_key_of(receipt_key(log.form(), station, &pdu)),
        None => Keyed::Nothing,
    }
}

/// Index key of `entry`, whose contents are `view`, given the index of all earlier entries.
#[tactic(auto, unfolding(crate::specs::Register::key_at, crate::specs::Entries::bytes_sent, crate::specs::Entries::bytes_received))]
pub(crate) fn index_key<L: ExerciseLog>(
    findings: &Findings<'_, L>,
    ways: &EntryChains,
    view: EntryView<'_>,
    entry: usize,
    recent: Recent,
) -> Keyed
    requires tied { AreRegistered (key_at findings.now) entry ways.now }
    requires within { entry < length findings.now.entries }
    requires at { slice_get findings.now.entries entry ≡ Some (shown view) }
    ensures { given_key ways.now.keys result ≡ key_at findings.now entry }
{
    match view {
        EntryView::Sent { station, bytes, .. } => {
            send_index_key(findings, ways, station, entry, bytes, recent)
        }
        EntryView::Received { station, bytes, .. } => {
            receipt_index_key(findings, ways, station, entry, bytes, recent)
        }
        EntryView::Told { .. } => Keyed::Nothing,
    }
}

/// Second key of an entry, in an open recording: for a sent request its identifier at its station,
/// for a received request its digest at no station.
#[tactic(auto, unfolding(crate::specs::Register::second_at))]
fn second_at<L: ExerciseLog>(log: &L, entry: usize) -> Option<u64>
    ensures { result ≡ second_at (L.recording log.now) entry }
{
    if log.form() != Form::Open || entry >= log.entry_count() {
        return None;
    }
    match log.entry(entry) {
        EntryView::Sent { station, bytes, .. } => match meaning_view(log.exercise(), bytes) {
            Some(pdu) if is_request(&pdu) => id_key(station, &pdu),
            _ => None,
        },
        EntryView::Received { bytes, .. } => match meaning_view(log.exercise(), bytes) {
            Some(pdu) => order_key(NOWHERE, &pdu),
            None => None,
        },
        EntryView::Told { .. } => None,
    }
}

/// The second keys of the entries of a log.
#[derive(Drop)]
pub(crate) struct SecondKeys<'a, L: ExerciseLog> {
    pub log: &'a L,
}

impl<L: ExerciseLog> EntryKeys for SecondKeys<'_, L> {
    ghost keys = { λ q. second_at (L.recording q.log.now) };

    fn key(&self, entry: usize) -> Option<u64> {
        second_at(self.log, entry)
    }
}
