//! The requests that each station sends, by request identifier. For each identifier the table holds
//! only the entry of its first request, under the hash of the identifier, which is read from the
//! log at look-up.

ghost use Rattle.std.specs.Prelude.{◌≡◌, ◌<◌, ◌+◌, ◌&&◌, not, true, length, is_some, option_and_then, OnOk, IfOk, Some, false};
ghost use Rattle.std.specs.Option.{option_map_or};
ghost use Rattle.std.proofs.Common.{ap};
ghost use Rattle.siman_pdus.specs.Reading.{pdu_of};
ghost use Rattle.siman_pdus.specs.Role.{is_request_body};
ghost use Rattle.siman_pdus.specs.Same.{is_same_order};
ghost use Rattle.exercise_model.specs.Cause.{is_reused};
ghost use Rattle.exercise_model.specs.Place.{log_before, own_event};
ghost use Rattle.exercise_findings.specs.Sent.{is_meant, meant_by_send};
ghost use Rattle.exercise_findings.specs.FirstSends.{IsNewSend};
ghost use Rattle.exercise_findings.specs.Requests.{identifier_of, request_under, asks_at, first_request, AreRequests, IsSendOf};
ghost use Rattle.exercise_findings.specs.Hashed.{identifier_fed, identifier_hash};
ghost use Rattle.exercise_findings.specs.Decided.{identifier_decides};

use crate::change::pdu_sent;
use crate::hashed::word;
use crate::kept::{Kept, append_entry, empty_table};
use crate::slots::{Sought, find};
use crate::table::{Table, keep_first};
use exercise_model::{EntryView, ExerciseLog, meaning_again};
use siman_pdus::{PduView, is_request, request_id, same_order};
use std::alloc::{AllocError, Global};
use std::hash::{BuildHasherDefault, DefaultHasher, Hash, Hasher};

/// Look-up key of the requests that one station sends under one identifier.
#[derive(Clone, Copy, PartialEq, Eq)]
pub(crate) struct Identifier {
    /// The station, from 0.
    pub station: u16,
    /// The request identifier.
    pub request: u32,
}

impl Hash for Identifier {
    ghost hash_input = { identifier_fed };

    ghost respects_eq = { λ k l same. ap identifier_fed ((identifier_decides k l).0 same) };

    fn hash<H: Hasher>(&self, state: &mut H) {
        state.write_u64(word(self.request, self.station, 0));
    }
}

/// Index of the requests sent so far.
pub(crate) struct Requests {
    /// The first request under each identifier.
    pub firsts: Kept,
    /// The identifiers under which a request other than the first was sent.
    pub mixed: Table<Identifier, bool>,
}

// Not derived, so that a caller that drops it makes one call instead of dropping the table inline.
impl Drop for Requests {
    fn drop(self) {
        let Requests {
            firsts: _firsts,
            mixed: _mixed,
        } = self;
    }
}

/// An empty index. It takes no memory.
pub(crate) fn no_requests<L: ExerciseLog>(alloc: Global, log: &L) -> Requests
    ensures { AreRequests (L.recording log.now) 0 result }
{
    Requests {
        firsts: empty_table(alloc, log.entry_count()),
        mixed: Table::with_hasher(alloc, BuildHasherDefault::default()),
    }
}

/// The hash of an identifier.
fn identifier_hash(identifier: &Identifier) -> u32
    ensures { result ≡ identifier_hash identifier.now }
{
    let mut hasher = DefaultHasher::new();
    hasher.write_u64(word(identifier.request, identifier.station, 0));
    (hasher.finish() % 0x1_0000_0000) as u32
}

/// The identifier of a PDU that a station sends, if it is a request.
fn identifier_of(station: u16, pdu: &PduView<'_>) -> Option<Identifier>
    ensures { result ≡ identifier_of station (pdu_of pdu.now) }
{
    if !is_request(pdu) {
        return None;
    }
    match request_id(pdu) {
        Some(request) => Some(Identifier { station, request }),
        None => None,
    }
}

/// Whether a PDU that a station sends is a request under an identifier.
fn is_under(identifier: &Identifier, station: u16, pdu: &PduView<'_>) -> bool
    ensures { result ≡ is_some (request_under identifier.now station (pdu_of pdu.now)) }
{
    match identifier_of(station, pdu) {
        Some(other) => *identifier == other,
        None => false,
    }
}

/// Whether an entry, whose datagram must mean something, sends a request under an identifier.
#[tactic(auto, unfolding(crate::specs::Requests::request_at, crate::specs::Sent::is_meant), using(crate::proofs::Meant::meant_within))]
fn asks_at<L: ExerciseLog>(log: &L, identifier: &Identifier, entry: usize) -> bool
    requires { is_meant (L.recording log.now) entry ≡ true }
    ensures { result ≡ asks_at (L.recording log.now) identifier.now entry }
{
    match log.entry(entry) {
        EntryView::Sent { station, bytes, .. } => {
            is_under(identifier, station, &meaning_again(log.exercise(), bytes))
        }
        EntryView::Received { .. } | EntryView::Told { .. } => false,
    }
}

/// Search for an entry that sends a request under an identifier.
#[derive(Drop)]
struct RequestSearch<'a, L: ExerciseLog> {
    log: &'a L,
    identifier: &'a Identifier,
}

impl<'a, L: ExerciseLog> Sought for RequestSearch<'a, L> {
    ghost is_sought = { λ s. asks_at (L.recording s.log.now) s.identifier.now };

    ghost is_known = { λ s. is_meant (L.recording s.log.now) };

    fn is_sought(&self, entry: u32) -> bool {
        asks_at(self.log, self.identifier, entry as usize)
    }
}

/// The first request before `before` under an identifier of this hash.
fn first_request<L: ExerciseLog>(
    requests: &Requests,
    log: &L,
    hash: u32,
    identifier: &Identifier,
    before: usize,
) -> Option<u32>
    requires hash { hash ≡ identifier_hash identifier.now }
    requires tied { AreRequests (L.recording log.now) before requests.now }
    ensures { result ≡ first_request (L.recording log.now) identifier.now before }
{
    let _before = before;
    find(
        &requests.firsts.slots,
        hash,
        &RequestSearch { log, identifier },
    )
}

/// Whether a PDU is a different request from the PDU that a station sends at an entry, whose
/// datagram must mean something.
fn differs<L: ExerciseLog>(log: &L, station: u16, entry: usize, pdu: &PduView<'_>) -> bool
    requires { is_meant (L.recording log.now) entry ≡ true }
    ensures { let r = L.recording log.now in result ≡ option_map_or (λ q. not (is_same_order (pdu_of pdu.now) q)) (option_and_then (meant_by_send r.setting.exercise) (own_event r station entry)) false }
{
    match pdu_sent(log, station, entry) {
        Some(other) => !same_order(pdu, &other),
        None => false,
    }
}

/// How a station's send uses its request identifier.
#[derive(Clone, Copy)]
pub(crate) struct IdentifierUse {
    /// Whether it is a request whose identifier the station used for a different request before.
    pub reused: bool,
    /// Whether it is known to be the first request of the station under its identifier.
    pub first: bool,
}

/// Records a request that is not the first under its identifier. Returns whether the identifier was
/// used for a different request before: that is known already, or the first request differs from
/// this one.
fn note_again<L: ExerciseLog>(
    requests: &mut Requests,
    log: &L,
    identifier: Identifier,
    first: u32,
    entry: usize,
    pdu: &PduView<'_>,
) -> Result<bool, AllocError>
    requires within { entry < length (L.recording log.now).entries }
    requires sends { IsSendOf (L.recording log.now) entry identifier.station (pdu_of pdu.now) }
    requires own { identifier_of identifier.station (pdu_of pdu.now) ≡ Some identifier }
    requires first { first_request (L.recording log.now) identifier entry ≡ Some first }
    requires tied { AreRequests (L.recording log.now) entry requests.old }
    ensures tied { OnOk result (AreRequests (L.recording log.now) (entry + 1) requests.new) }
    ensures reused { let r = L.recording log.now in IfOk result (λ reused. reused ≡ is_reused r.setting.exercise (pdu_of pdu.now) (log_before r identifier.station entry)) }
{
    if requests.mixed.contains_key(&identifier) {
        return Ok(true);
    }
    let reused = differs(log, identifier.station, first as usize, pdu);
    if reused {
        keep_first(&mut requests.mixed, identifier, true)?;
    }
    Ok(reused)
}

/// Records a request under an identifier; returns how it uses the identifier.
fn note_under<L: ExerciseLog>(
    requests: &mut Requests,
    log: &L,
    identifier: Identifier,
    entry: usize,
    pdu: &PduView<'_>,
) -> Result<IdentifierUse, AllocError>
    requires few { entry < 4294967295 }
    requires within { entry < length (L.recording log.now).entries }
    requires sends { IsSendOf (L.recording log.now) entry identifier.station (pdu_of pdu.now) }
    requires own { identifier_of identifier.station (pdu_of pdu.now) ≡ Some identifier }
    requires tied { AreRequests (L.recording log.now) entry requests.old }
    ensures tied { OnOk result (AreRequests (L.recording log.now) (entry + 1) requests.new) }
    ensures reused { let r = L.recording log.now in IfOk result (λ u. u.reused ≡ is_reused r.setting.exercise (pdu_of pdu.now) (log_before r identifier.station entry)) }
    ensures first { IfOk result (λ u. u.first ≡ true → IsNewSend (L.recording log.now) entry) }
{
    let hash = identifier_hash(&identifier);
    match first_request(requests, log, hash, &identifier, entry) {
        Some(first) => {
            let reused = note_again(requests, log, identifier, first, entry, pdu)?;
            Ok(IdentifierUse {
                reused,
                first: false,
            })
        }
        None => {
            append_entry(&mut requests.firsts, hash, entry as u32)?;
            Ok(IdentifierUse {
                reused: false,
                first: true,
            })
        }
    }
}

/// Records a station's send if it is a request; returns how it uses its identifier. The first
/// request under an identifier is a new datagram.
pub(crate) fn note_request<L: ExerciseLog>(
    requests: &mut Requests,
    log: &L,
    station: u16,
    entry: usize,
    pdu: &PduView<'_>,
) -> Result<IdentifierUse, AllocError>
    requires few { entry < 4294967295 }
    requires within { entry < length (L.recording log.now).entries }
    requires sends { IsSendOf (L.recording log.now) entry station (pdu_of pdu.now) }
    requires tied { AreRequests (L.recording log.now) entry requests.old }
    ensures tied { OnOk result (AreRequests (L.recording log.now) (entry + 1) requests.new) }
    ensures reused { let r = L.recording log.now in IfOk result (λ u. u.reused ≡ (is_request_body (pdu_of pdu.now).body && is_reused r.setting.exercise (pdu_of pdu.now) (log_before r station entry))) }
    ensures first { IfOk result (λ u. u.first ≡ true → IsNewSend (L.recording log.now) entry) }
{
    match identifier_of(station, pdu) {
        Some(identifier) => note_under(requests, log, identifier, entry, pdu),
        None => Ok(IdentifierUse {
            reused: false,
            first: false,
        }),
    }
}
