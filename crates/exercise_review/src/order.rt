//! Orders, each identified by its head: its first entry.

ghost use Rattle.std.specs.Prelude.{◌≡◌, ◌<◌, ◌&&◌, true, false, is_some, option_map, option_and_then, slice_get, Some, None, length, if◌then◌else◌};
ghost use Rattle.siman_pdus.specs.Answers.{same_id};
ghost use Rattle.siman_pdus.specs.Reading.{pdu_of};
ghost use Rattle.siman_pdus.specs.Role.{is_request_body};
ghost use Rattle.exercise_model.specs.Held.{shown};
ghost use Rattle.exercise_model.specs.Meaning.{meaning};
ghost use Rattle.exercise_review.specs.Entries.{bytes_sent, pdu_sent};
ghost use Rattle.exercise_review.specs.Register.{key_at, maker_key};
ghost use Rattle.exercise_review.specs.Order.{order_of, sends_order, gets_order, gets_anywhere, is_outside, is_for_station, sent_head, received_head, head_of, made_by, order_at, sends_of, sends_under_id, is_first_under_id};

use crate::entries::{
    bytes_sent as sent_bytes, entry_at, entry_count, meant, meant_again, pdu_received, pdu_sent,
};
use crate::keys::{id_key, order_key};
use crate::question::{Question, first_below};
use crate::register::Register;
use crate::resent::is_resent;
use crate::stations::{is_for_station, is_outside};
use crate::walk::{counted_entries, first_entry};
use exercise_model::{EntryView, ExerciseLog, Form};
use siman_pdus::{PduView, is_request, is_under_identifier, same_order};

/// An order: a request, identified by its head.
#[derive(Drop)]
pub struct RecordedOrder<'a> {
    /// The entry at which its maker first sent it or, for an order from outside, at which a station
    /// first received it.
    pub head: usize,
    /// The index of the recorded station that made it; `None` for an order from outside.
    pub maker: Option<u16>,
    /// The request itself.
    pub request: PduView<'a>,
}

/// The test whether a station sends an order at an entry.
#[derive(Drop)]
pub(crate) struct Sends<'a, L: ExerciseLog> {
    pub findings: &'a Register<'a, L>,
    pub station: u16,
    pub request: &'a PduView<'a>,
}

impl<L: ExerciseLog> Question for Sends<'_, L> {
    ghost test = { λ q. sends_order q.findings.now q.station (pdu_of q.request.now) };

    #[tactic(auto, unfolding(crate::specs::Order::sends_order))]
    fn passes(&self, entry: usize) -> bool {
        match pdu_sent(self.findings, self.station, entry) {
            Some(pdu) => same_order(self.request, &pdu),
            None => false,
        }
    }
}

/// The test whether a station receives an order at an entry.
#[derive(Drop)]
pub(crate) struct Gets<'a, L: ExerciseLog> {
    pub findings: &'a Register<'a, L>,
    pub station: u16,
    pub request: &'a PduView<'a>,
}

impl<L: ExerciseLog> Question for Gets<'_, L> {
    ghost test = { λ q. gets_order q.findings.now q.station (pdu_of q.request.now) };

    #[tactic(auto, unfolding(crate::specs::Order::gets_order))]
    fn passes(&self, entry: usize) -> bool {
        match pdu_received(self.findings, self.station, entry) {
            Some(pdu) => same_order(self.request, &pdu),
            None => false,
        }
    }
}

/// The test whether any station receives an order at an entry.
#[derive(Drop)]
struct GetsAnywhere<'a, L: ExerciseLog> {
    findings: &'a Register<'a, L>,
    request: &'a PduView<'a>,
}

impl<L: ExerciseLog> Question for GetsAnywhere<'_, L> {
    ghost test = { λ q. gets_anywhere q.findings.now (pdu_of q.request.now) };

    #[tactic(auto, unfolding(crate::specs::Order::gets_anywhere))]
    fn passes(&self, entry: usize) -> bool {
        match entry_at(self.findings, entry) {
            Some(EntryView::Received { bytes, .. }) => match meant(self.findings, bytes) {
                Some(pdu) => same_order(self.request, &pdu),
                None => false,
            },
            _ => false,
        }
    }
}

/// The test whether a station sends a request under the identifier of another request.
#[derive(Drop)]
struct SendsUnderId<'a, L: ExerciseLog> {
    findings: &'a Register<'a, L>,
    station: u16,
    request: &'a PduView<'a>,
}

impl<L: ExerciseLog> Question for SendsUnderId<'_, L> {
    ghost test = { λ q. sends_under_id q.findings.now q.station (pdu_of q.request.now) };

    #[tactic(auto, unfolding(crate::specs::Order::sends_under_id))]
    fn passes(&self, entry: usize) -> bool {
        match pdu_sent(self.findings, self.station, entry) {
            Some(pdu) => is_request(&pdu) && is_under_identifier(self.request, &pdu),
            None => false,
        }
    }
}

/// Head of a PDU that a station sends, if it is a request.
#[tactic(auto, using(crate::proofs::Under::under_steps))]
fn sent_head<L: ExerciseLog>(
    findings: &Register<'_, L>,
    station: u16,
    pdu: &PduView<'_>,
) -> Option<usize>
    ensures { result ≡ sent_head findings.now station (pdu_of pdu.now) }
{
    if !is_request(pdu) {
        return None;
    }
    let sends = Sends {
        findings,
        station,
        request: pdu,
    };
    first_entry(findings, order_key(station, pdu), &sends)
}

/// Whether a received PDU is a request from outside to a recorded station.
fn is_outside_request<L: ExerciseLog>(findings: &Register<'_, L>, pdu: &PduView<'_>) -> bool
    ensures { result ≡ (is_request_body (pdu_of pdu.now).body && (is_outside findings.now (pdu_of pdu.now) && is_for_station findings.now (pdu_of pdu.now))) }
{
    is_request(pdu) && is_outside(findings, pdu) && is_for_station(findings, pdu)
}

/// Head of a received PDU, if it is a request from outside to a recorded station.
fn received_head<L: ExerciseLog>(findings: &Register<'_, L>, pdu: &PduView<'_>) -> Option<usize>
    ensures { result ≡ received_head findings.now (pdu_of pdu.now) }
{
    if !is_outside_request(findings, pdu) {
        return None;
    }
    let gets = GetsAnywhere {
        findings,
        request: pdu,
    };
    first_below(&gets, entry_count(findings))
}

/// Head of an entry: for a sent request, the first entry at which its station sends that order; for
/// a received request from outside to a recorded station, the first entry at which any station
/// receives it. `None` for all other entries and past the last. Allocates no memory.
#[tactic(auto, unfolding(crate::specs::Order::head_of))]
pub fn head_of<L: ExerciseLog>(findings: &Register<'_, L>, entry: usize) -> Option<usize>
    ensures { result ≡ head_of findings.now entry }
{
    match entry_at(findings, entry) {
        Some(EntryView::Sent { station, bytes, .. }) => match meant(findings, bytes) {
            Some(pdu) => sent_head(findings, station, &pdu),
            None => None,
        },
        Some(EntryView::Received { bytes, .. }) => match meant(findings, bytes) {
            Some(pdu) => received_head(findings, &pdu),
            None => None,
        },
        Some(EntryView::Told { .. }) | None => None,
    }
}

/// Whether an entry at which a station sends a PDU is the head of that PDU. Tests only earlier
/// entries under its key.
#[tactic(auto, using(crate::proofs::Under::sends_itself))]
fn is_sent_head<L: ExerciseLog>(
    findings: &Register<'_, L>,
    station: u16,
    pdu: &PduView<'_>,
    entry: usize,
) -> bool
    requires within { entry < length findings.now.entries }
    requires sent { pdu_sent findings.now station entry ≡ Some (pdu_of pdu.now) }
    ensures { result ≡ same_id (sent_head findings.now station (pdu_of pdu.now)) (Some entry) }
{
    if !is_request(pdu) {
        return false;
    }
    let sends = Sends {
        findings,
        station,
        request: pdu,
    };
    findings.is_first(&sends, entry)
}

/// Whether an entry at which a station receives a PDU is the head of that PDU.
#[tactic(auto, using(crate::proofs::Under::anywhere_first))]
fn is_received_head<L: ExerciseLog>(
    findings: &Register<'_, L>,
    pdu: &PduView<'_>,
    entry: usize,
) -> bool
    requires { entry < length findings.now.entries }
    ensures { result ≡ same_id (received_head findings.now (pdu_of pdu.now)) (Some entry) }
{
    if !is_outside_request(findings, pdu) {
        return false;
    }
    let gets = GetsAnywhere {
        findings,
        request: pdu,
    };
    findings.is_first_by_second(&gets, entry)
}

/// Whether the entry before this one under its key is known to send these bytes too, except for the
/// timestamp.
#[tactic(auto, using(crate::proofs::Stamped::sent_before))]
fn is_sent_again<L: ExerciseLog>(
    findings: &Register<'_, L>,
    station: u16,
    bytes: &[u8],
    entry: usize,
) -> bool
    requires within { entry < length findings.now.entries }
    requires sent { bytes_sent findings.now station entry ≡ Some bytes.now }
    ensures { result ≡ true → same_id (option_and_then (sent_head findings.now station) (meaning findings.now.setting.exercise bytes.now)) (Some entry) ≡ false }
{
    match findings.previous_with_key(entry) {
        Some(before) if before < entry => match sent_bytes(findings, station, before) {
            Some(other) => is_resent(bytes, other),
            None => false,
        },
        _ => false,
    }
}

/// The order that a station makes at an entry that has a key, if the entry is its head. A repeat is
/// not decoded.
#[tactic(auto, unfolding(crate::specs::Entries::pdu_sent), using(crate::proofs::Keyed::sent_meaning))]
fn order_sent<'a, L: ExerciseLog>(
    findings: &Register<'a, L>,
    station: u16,
    bytes: &'a [u8],
    entry: usize,
) -> Option<RecordedOrder<'a>>
    requires within { entry < length findings.now.entries }
    requires sent { bytes_sent findings.now station entry ≡ Some bytes.now }
    requires keyed { is_some (key_at findings.now entry) ≡ true }
    ensures { let p = meaning findings.now.setting.exercise bytes.now in
        option_map order_of result ≡ (if same_id (option_and_then (sent_head findings.now station) p) (Some entry) then option_map (made_by entry (Some station)) p else None) }
{
    if is_sent_again(findings, station, bytes, entry) {
        return None;
    }
    let request = meant_again(findings, bytes);
    if !is_sent_head(findings, station, &request, entry) {
        return None;
    }
    Some(RecordedOrder {
        head: entry,
        maker: Some(station),
        request,
    })
}

/// The order from outside that a station receives at an entry, if the entry is its head.
#[tactic(auto, using(crate::proofs::Heads::nobody_outside))]
fn received_order<'a, L: ExerciseLog>(
    findings: &Register<'a, L>,
    bytes: &'a [u8],
    entry: usize,
) -> Option<RecordedOrder<'a>>
    requires { entry < length findings.now.entries }
    ensures { let p = meaning findings.now.setting.exercise bytes.now in
        option_map order_of result ≡ (if same_id (option_and_then (received_head findings.now) p) (Some entry) then option_map (made_by entry None) p else None) }
{
    if findings.log().form() != Form::Open {
        return None;
    }
    let request = meant(findings, bytes)?;
    if !is_received_head(findings, &request, entry) {
        return None;
    }
    Some(RecordedOrder {
        head: entry,
        maker: None,
        request,
    })
}

/// The order whose head is this entry; `None` if it is no head. Allocates no memory.
#[tactic(auto, unfolding(crate::specs::Order::order_at, crate::specs::Order::head_of))]
pub fn order_at<'a, L: ExerciseLog>(
    findings: &Register<'a, L>,
    entry: usize,
) -> Option<RecordedOrder<'a>>
    ensures { option_map order_of result ≡ order_at findings.now entry }
{
    if entry < entry_count(findings) {
        order_at_entry(findings, entry)
    } else {
        None
    }
}

/// The order whose head is this entry, which has a key and these contents.
#[tactic(auto, unfolding(crate::specs::Order::order_at, crate::specs::Order::head_of, crate::specs::Entries::bytes_sent))]
fn order_in<'a, L: ExerciseLog>(
    findings: &Register<'a, L>,
    view: EntryView<'a>,
    entry: usize,
) -> Option<RecordedOrder<'a>>
    requires within { entry < length findings.now.entries }
    requires entry { slice_get findings.now.entries entry ≡ Some (shown view) }
    requires keyed { is_some (key_at findings.now entry) ≡ true }
    ensures { option_map order_of result ≡ order_at findings.now entry }
{
    match view {
        EntryView::Sent { station, bytes, .. } => order_sent(findings, station, bytes, entry),
        EntryView::Received { bytes, .. } => received_order(findings, bytes, entry),
        EntryView::Told { .. } => None,
    }
}

/// As [`order_at`], for an entry within the log. An entry without a key, or one that takes up a
/// request, is not read.
#[tactic(auto, using(crate::proofs::Keyed::no_order, crate::proofs::Paired::paired_no_order))]
pub(crate) fn order_at_entry<'a, L: ExerciseLog>(
    findings: &Register<'a, L>,
    entry: usize,
) -> Option<RecordedOrder<'a>>
    requires { entry < length findings.now.entries }
    ensures { option_map order_of result ≡ order_at findings.now entry }
{
    if !findings.is_indexed(entry) || findings.pair(entry).is_some() {
        return None;
    }
    order_in(findings, findings.log().entry(entry), entry)
}

impl RecordedOrder<'_> {
    /// Key of the entries at which its maker may receive answers to it; for an order from outside,
    /// the key at station 0.
    #[tactic(auto, unfolding(crate::specs::Register::maker_key))]
    pub(crate) fn maker_key(&self) -> Option<u64>
        ensures { result ≡ maker_key (order_of self.now) }
    {
        let station = match self.maker {
            Some(station) => station,
            None => 0,
        };
        id_key(station, &self.request)
    }

    /// How often its maker sent it; 0 for an order from outside.
    #[tactic(auto, unfolding(crate::specs::Order::sends_of), using(crate::proofs::Under::under_steps))]
    pub fn sends<L: ExerciseLog>(&self, findings: &Register<'_, L>) -> usize
        ensures { result ≡ sends_of findings.now (order_of self.now) }
    {
        match self.maker {
            Some(station) => {
                let sends = Sends {
                    findings,
                    station,
                    request: &self.request,
                };
                let key = order_key(station, &self.request);
                counted_entries(findings, key, &sends).count
            }
            None => 0,
        }
    }

    /// Whether it is the first order of its maker under its identifier.
    #[tactic(auto, unfolding(crate::specs::Order::is_first_under_id), using(crate::proofs::Under::id_first, crate::proofs::FirstOnes::not_beyond))]
    pub(crate) fn is_first_under_id<L: ExerciseLog>(&self, findings: &Register<'_, L>) -> bool
        ensures { result ≡ is_first_under_id findings.now (order_of self.now) }
    {
        let Some(station) = self.maker else {
            return false;
        };
        if self.head >= entry_count(findings) {
            return false;
        }
        let sends = SendsUnderId {
            findings,
            station,
            request: &self.request,
        };
        findings.is_first_by_second(&sends, self.head)
    }
}
