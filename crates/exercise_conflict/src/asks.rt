//! Index of the first receipt of each request.

ghost use Rattle.std.specs.Prelude.{◌≡◌, ◌+◌, length, None, IfOk, OnOk};
ghost use Rattle.indexmap.specs.IndexMap.{get};
ghost use Rattle.siman_pdus.specs.Reading.{pdu_of};
ghost use Rattle.exercise_findings.specs.Missing.{place_of};
ghost use Rattle.exercise_conflict.specs.declared.asks.ReceivedKey.{ReceivedKey};
ghost use Rattle.exercise_conflict.specs.Lacks.{same_request_key, request_key_of, request_key_at, AreRequestKeys};

use crate::receipts::{ConflictTable, keep_first};
use dis_records::{Address, addressed};
use exercise_findings::Findings;
use exercise_model::{EntryView, ExerciseLog, is_answer, meaning_view};
use siman_pdus::{PduView, is_request, request_id};
use std::alloc::{AllocError, Global};
use std::hash::BuildHasherDefault;

/// Look-up key of a request that a station received.
#[derive(Clone, Copy, PartialEq, Eq, Hash)]
pub(crate) struct ReceivedKey {
    /// The station, from 0.
    pub station: u16,
    /// The request identifier.
    pub request: u32,
    /// The site of the sender.
    pub site: u16,
    /// The application of the sender.
    pub application: u16,
}

/// The entry that first received each request.
pub(crate) type Asks = ConflictTable<ReceivedKey, usize>;

/// An empty index. It takes no memory.
fn no_request_keys(alloc: Global) -> Asks
    ensures { (k : ReceivedKey) → get same_request_key result k ≡ None }
{
    Asks::with_hasher(alloc, BuildHasherDefault::default())
}

/// Look-up key of a PDU that the station at an address receives, if it is a request to it.
fn request_key_of(station: u16, address: Address, pdu: &PduView<'_>) -> Option<ReceivedKey>
    ensures { result ≡ request_key_of station address (pdu_of pdu.now) }
{
    if !is_request(pdu) || !addressed(pdu.target, address) {
        return None;
    }
    match request_id(pdu) {
        Some(request) => Some(ReceivedKey {
            station,
            request,
            site: pdu.origin.site,
            application: pdu.origin.application,
        }),
        None => None,
    }
}

/// Look-up key of an entry, if it receives a request to its station.
#[tactic(auto, unfolding(crate::specs::Lacks::request_key_at))]
fn request_key_at<L: ExerciseLog>(findings: &Findings<'_, L>, entry: usize) -> Option<ReceivedKey>
    ensures { result ≡ request_key_at findings.now entry }
{
    let log = findings.log();
    if entry >= log.entry_count() {
        return None;
    }
    match log.entry(entry) {
        EntryView::Received { station, bytes, .. } => {
            match meaning_view(log.exercise(), bytes) {
                Some(pdu) => request_key_of(
                    station,
                    log.station(usize::from(station)).address(),
                    &pdu,
                ),
                None => None,
            }
        }
        EntryView::Sent { .. } | EntryView::Told { .. } => None,
    }
}

/// Adds the next entry.
fn note_request_key<L: ExerciseLog>(
    asks: &mut Asks,
    findings: &Findings<'_, L>,
    entry: usize,
) -> Result<(), AllocError>
    requires { AreRequestKeys findings.now entry asks.old }
    ensures { OnOk result (AreRequestKeys findings.now (entry + 1) asks.new) }
{
    if let Some(ask) = request_key_at(findings, entry) {
        keep_first(asks, ask, entry)?;
    }
    Ok(())
}

/// The index of all entries of a recording.
pub(crate) fn request_keys<L: ExerciseLog>(
    alloc: Global,
    findings: &Findings<'_, L>,
) -> Result<Asks, AllocError>
    ensures { IfOk result (λ asks. AreRequestKeys findings.now (length findings.now.entries) asks) }
{
    let mut asks = no_request_keys(alloc);
    for entry in 0..findings.log().entry_count() {
        note_request_key(&mut asks, findings, entry)?;
    }
    Ok(asks)
}

/// The first entry under a key.
fn first_under(asks: &Asks, ask: ReceivedKey) -> Option<usize>
    ensures { result ≡ get same_request_key asks.now ask }
{
    match asks.get(&ask) {
        Some(entry) => Some(*entry),
        None => None,
    }
}

/// The place of a PDU's send in the log of a station: right after the request that it takes up.
/// `None` for the start of the log.
pub(crate) fn place_of<L: ExerciseLog>(
    findings: &Findings<'_, L>,
    asks: &Asks,
    station: u16,
    pdu: &PduView<'_>,
) -> Option<usize>
    requires { AreRequestKeys findings.now (length findings.now.entries) asks.now }
    ensures { result ≡ place_of findings.now station (pdu_of pdu.now) }
{
    if !is_answer(pdu) {
        return None;
    }
    match request_id(pdu) {
        Some(request) => first_under(
            asks,
            ReceivedKey {
                station,
                request,
                site: pdu.target.site,
                application: pdu.target.application,
            },
        ),
        None => None,
    }
}
