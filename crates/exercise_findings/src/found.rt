//! Findings about one entry, from one decoding of its datagram.

ghost use Rattle.std.specs.Prelude.{◌≡◌, ◌<◌, ◌+◌, ◌&&◌, ℕ, List, [], length, option_map, Some, None, true, false, OnOk, IfOk};
ghost use Rattle.siman_pdus.specs.Reading.{pdu_of};
ghost use Rattle.siman_pdus.specs.Role.{is_request_body};
ghost use Rattle.exercise_model.specs.Account.{pair_of_sent, sender_of};
ghost use Rattle.exercise_model.specs.Cause.{send_cause, get_cause, is_reused};
ghost use Rattle.exercise_model.specs.History.{station_at};
ghost use Rattle.exercise_model.specs.Place.{log_before};
ghost use Rattle.exercise_model.specs.Recording.{IsRecording};
ghost use Rattle.exercise_model.specs.Setting.{is_from};
ghost use Rattle.exercise_model.specs.State.{change_by};
ghost use Rattle.exercise_findings.specs.declared.key.Key.{Key};
ghost use Rattle.exercise_findings.specs.Firsts.{answer_base, sent_key, received_key};
ghost use Rattle.exercise_findings.specs.Hashed.{key_base};
ghost use Rattle.exercise_findings.specs.Answered.{is_unasked};
ghost use Rattle.exercise_findings.specs.Behind.{change_key};
ghost use Rattle.exercise_findings.specs.Requests.{AreRequests};
ghost use Rattle.exercise_findings.specs.HighWaterMarks.{AreHighWaterMarks};
ghost use Rattle.exercise_findings.specs.Sent.{Sends, Receives};
ghost use Rattle.exercise_findings.specs.Tables.{AreTablesBelow, IsFound};

use crate::behind::change_key;
use crate::cause::{SendFacts, judge_sent, judge_unsent};
use crate::change::is_change;
use crate::exchange::taken_up;
use crate::firsts::{BaseCache, answer_base, cached_base, empty_base_cache};
use crate::hint::StridePredictor;
use crate::key::{Key, received_key, sent_key};
use crate::requests::{Requests, note_request};
use crate::rising::{HighWaterMarks, raise_mark};
use crate::sender::{StationCache, sender_of};
use crate::state::change_by;
use crate::tables::Tables;
use exercise_model::{Cause, Change, ExerciseLog, is_answer, is_from, meaning_view};
use siman_pdus::PduView;
use std::alloc::AllocError;

/// Findings about one entry.
#[derive(Clone, Copy)]
pub(crate) struct Found {
    /// The first cause that its station's log shows against it.
    pub cause: Option<Cause>,
    /// The entry of the request that it takes up, if it is a sent answer.
    pub pair: Option<u32>,
    /// Whether it is a sent answer that takes up no request.
    pub is_unasked: bool,
    /// The change that it makes at its station.
    pub change: Option<Change>,
    /// Its own look-up key.
    pub key: Option<Key>,
    /// The hash base of that key; without meaning if it has none.
    pub base: u32,
    /// The look-up key of the change behind it, if it is a received Able Acknowledge.
    pub behind: Option<Key>,
    /// Whether it is a send whose datagram originates from its own station.
    pub is_source: bool,
    /// Whether its datagram is known to be new: the first request under its identifier, or a mark
    /// above all earlier ones of its station.
    pub is_new: bool,
    /// Whether its datagram is "other".
    pub other: bool,
}

/// Findings with only this cause, or none.
fn judged(cause: Option<Cause>) -> Found
    ensures { result ≡ record { cause = cause; pair = None; is_unasked = false; change = None; key = None; base = 0; behind = None; is_source = false; is_new = false; other = false } }
{
    Found {
        cause,
        pair: None,
        is_unasked: false,
        change: None,
        key: None,
        base: 0,
        behind: None,
        is_source: false,
        is_new: false,
        other: false,
    }
}

/// Findings about an entry with an "other" datagram.
fn other_findings() -> Found
    ensures { result ≡ record { cause = None; pair = None; is_unasked = false; change = None; key = None; base = 0; behind = None; is_source = false; is_new = false; other = true } }
{
    Found {
        other: true,
        ..judged(None)
    }
}

/// The entry of a request that was taken up.
fn pair_of(taken: &Option<(u32, PduView<'_>)>) -> Option<u32>
    ensures { result ≡ option_map (λ t. t.0) taken.now }
{
    match taken {
        Some((entry, _)) => Some(*entry),
        None => None,
    }
}

/// Caches for the next send; they affect speed alone.
#[derive(Drop)]
pub(crate) struct SendCaches {
    /// Predicted place of the request that the next answer takes up.
    answers: StridePredictor,
    /// The last key of a send, with its hash base.
    last: BaseCache,
}

/// The caches before the first send.
pub(crate) fn no_send_caches() -> SendCaches {
    SendCaches {
        answers: StridePredictor::new(),
        last: empty_base_cache(),
    }
}

/// An entry, and the station that it is of.
#[derive(Clone, Copy)]
pub(crate) struct StationEntry {
    pub station: u16,
    pub entry: usize,
}

/// Findings about a PDU that a station sends at an entry. `reused`: whether it reuses its request
/// identifier; `is_new`: whether it is known to be new.
fn pdu_send_findings<L: ExerciseLog>(
    log: &L,
    tables: &Tables,
    caches: &mut SendCaches,
    place: StationEntry,
    pdu: &PduView<'_>,
    reused: bool,
    is_new: bool,
) -> Found
    requires at { place.station < length (L.recording log.now).setting.stations }
    requires within { place.entry < length (L.recording log.now).entries }
    requires tied { AreTablesBelow (L.recording log.now) place.entry tables.now }
    requires reused { let r = L.recording log.now in reused ≡ (is_request_body (pdu_of pdu.now).body && is_reused r.setting.exercise (pdu_of pdu.now) (log_before r place.station place.entry)) }
    ensures cause { let r = L.recording log.now in result.cause ≡ send_cause r.setting.exercise (station_at r place.station) (log_before r place.station place.entry) (pdu_of pdu.now) }
    ensures pair { result.pair ≡ pair_of_sent (L.recording log.now) place.station place.entry (pdu_of pdu.now) }
    ensures unasked { result.is_unasked ≡ is_unasked (L.recording log.now) place.station place.entry (pdu_of pdu.now) }
    ensures change { let r = L.recording log.now in result.change ≡ change_by r.setting.exercise (station_at r place.station) (log_before r place.station place.entry) (pdu_of pdu.now) }
    ensures key { result.key ≡ sent_key place.station (pdu_of pdu.now) }
    ensures base { result.base ≡ answer_base place.station (pdu_of pdu.now) }
    ensures behind { result.behind ≡ None }
    ensures source { result.is_source ≡ is_from (station_at (L.recording log.now) place.station).address (pdu_of pdu.now) }
    ensures new { result.is_new ≡ is_new }
    ensures other { result.other ≡ false }
{
    let StationEntry { station, entry } = place;
    let address = log.station(usize::from(station)).address();
    let is_from = is_from(address, pdu);
    let taken = taken_up(
        log,
        &tables.firsts,
        &mut caches.answers,
        station,
        entry,
        pdu,
    );
    let base = answer_base(&mut caches.last, station, pdu);
    let is_first = is_change(log, &tables.firsts, station, entry, pdu, base);
    let facts = SendFacts {
        base,
        is_from,
        is_reused: reused,
        is_first,
    };
    Found {
        cause: judge_sent(log, tables, station, entry, pdu, facts, &taken),
        pair: pair_of(&taken),
        is_unasked: is_answer(pdu) && taken.is_none(),
        change: change_by(log, station, entry, pdu, is_first, &taken),
        key: sent_key(station, pdu),
        base,
        behind: None,
        is_source: is_from,
        is_new,
        other: false,
    }
}

/// The hash base of a key, or 0 without a key.
fn base_of(last: &mut BaseCache, key: Option<Key>) -> u32
    ensures { (k : Key) → Some k ≡ key → result ≡ key_base k }
{
    match key {
        Some(key) => cached_base(last, &key),
        None => 0,
    }
}

/// Findings about a PDU that a station receives.
fn pdu_receipt_findings<L: ExerciseLog>(
    log: &L,
    places: &StationCache,
    last: &mut BaseCache,
    station: u16,
    pdu: &PduView<'_>,
) -> Found
    requires { station < length (L.recording log.now).setting.stations }
    ensures cause { (b : List ℕ) → result.cause ≡ get_cause (L.recording log.now).setting [] b (pdu_of pdu.now) }
    ensures pair { result.pair ≡ None }
    ensures unasked { result.is_unasked ≡ false }
    ensures change { result.change ≡ None }
    ensures key { let r = L.recording log.now in result.key ≡ received_key station (station_at r station).address (pdu_of pdu.now) }
    ensures base { (k : Key) → Some k ≡ result.key → result.base ≡ key_base k }
    ensures behind { let p = pdu_of pdu.now in result.behind ≡ change_key (sender_of (L.recording log.now) p) p }
    ensures source { result.is_source ≡ false }
    ensures new { result.is_new ≡ false }
    ensures other { result.other ≡ false }
{
    let address = log.station(usize::from(station)).address();
    let sender = sender_of(log, places, pdu);
    let key = received_key(station, address, pdu);
    Found {
        key,
        base: base_of(last, key),
        behind: change_key(sender, pdu),
        ..judged(judge_unsent(log.form(), sender.is_some()))
    }
}

/// Findings about the next entry of a log, by which a station sends a datagram.
pub(crate) fn send_findings<L: ExerciseLog>(
    log: &L,
    tables: &Tables,
    requests: &mut Requests,
    rising: &mut HighWaterMarks,
    caches: &mut SendCaches,
    place: StationEntry,
    bytes: &[u8],
) -> Result<Found, AllocError>
    requires limits { IsRecording (L.recording log.now) }
    requires at { place.station < length (L.recording log.now).setting.stations }
    requires few { place.entry < 4294967295 }
    requires within { place.entry < length (L.recording log.now).entries }
    requires sends { Sends (L.recording log.now) place.entry place.station bytes.now }
    requires tied { AreTablesBelow (L.recording log.now) place.entry tables.now }
    requires requests { AreRequests (L.recording log.now) place.entry requests.old }
    requires rising { AreHighWaterMarks (L.recording log.now) place.entry rising.old }
    ensures found { IfOk result (IsFound (L.recording log.now) place.entry) }
    ensures requests { OnOk result (AreRequests (L.recording log.now) (place.entry + 1) requests.new) }
    ensures rising { OnOk result (AreHighWaterMarks (L.recording log.now) (place.entry + 1) rising.new) }
{
    match meaning_view(log.exercise(), bytes) {
        Some(pdu) => {
            let StationEntry { station, entry } = place;
            let asked = note_request(requests, log, station, entry, &pdu)?;
            let is_above = raise_mark(rising, log, station, entry, &pdu);
            let is_new = asked.first | is_above;
            Ok(pdu_send_findings(log, tables, caches, place, &pdu, asked.reused, is_new))
        }
        None => Ok(other_findings()),
    }
}

/// Findings about an entry of a log, by which a station receives a datagram.
pub(crate) fn receipt_findings<L: ExerciseLog>(
    log: &L,
    places: &StationCache,
    last: &mut BaseCache,
    entry: usize,
    station: u16,
    bytes: &[u8],
) -> Found
    requires at { station < length (L.recording log.now).setting.stations }
    requires receives { Receives (L.recording log.now) entry station bytes.now }
    ensures { IsFound (L.recording log.now) entry result }
{
    match meaning_view(log.exercise(), bytes) {
        Some(pdu) => pdu_receipt_findings(log, places, last, station, &pdu),
        None => other_findings(),
    }
}
