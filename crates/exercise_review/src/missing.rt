//! Datagrams that were received and that the logs of their senders lack.

ghost use Rattle.std.specs.Prelude.{◌≡◌, ◌<◌, length};
ghost use Rattle.siman_pdus.specs.Reading.{pdu_of};
ghost use Rattle.exercise_model.specs.History.{station_at};
ghost use Rattle.exercise_model.specs.Place.{brings_request};
ghost use Rattle.exercise_findings.specs.Missing.{gets_bytes, place_of, missing_pdu, is_first_receipt, missing_at};

use crate::entries::{entry_at, entry_count, meant, pdu_received};
use crate::question::{Question, first_below};
use crate::register::Register;
use crate::stations::sender_of;
use dis_records::Address;
use exercise_findings::Missing;
use exercise_model::{EntryView, ExerciseLog, is_answer, is_asked};
use siman_pdus::PduView;

/// The test whether any station receives these bytes at an entry.
#[derive(Drop)]
struct GetsBytes<'a, L: ExerciseLog> {
    findings: &'a Register<'a, L>,
    bytes: &'a [u8],
}

impl<L: ExerciseLog> Question for GetsBytes<'_, L> {
    ghost test = { λ q. gets_bytes q.findings.now q.bytes.now };

    #[tactic(auto, unfolding(exercise_findings::specs::Missing::gets_bytes))]
    fn passes(&self, entry: usize) -> bool {
        match entry_at(self.findings, entry) {
            Some(EntryView::Received { bytes, .. }) => self.bytes == bytes,
            _ => false,
        }
    }
}

/// The test whether a station receives, at an entry, a request that an answer could take up.
#[derive(Drop)]
struct GetsRequest<'a, L: ExerciseLog> {
    findings: &'a Register<'a, L>,
    station: u16,
    address: Address,
    answer: &'a PduView<'a>,
    ghost own: { address ≡ (station_at findings.now station).address },
}

impl<L: ExerciseLog> Question for GetsRequest<'_, L> {
    ghost test = { λ q. brings_request q.findings.now q.station (pdu_of q.answer.now) };

    fn passes(&self, entry: usize) -> bool {
        match pdu_received(self.findings, self.station, entry) {
            Some(request) => is_asked(self.address, self.answer, &request),
            None => false,
        }
    }
}

/// The entry of a station's log after which the missing send of a PDU belongs: for an answer, the
/// first receipt of a request that it could take up; `None` for other PDUs.
#[tactic(auto, unfolding(exercise_model::specs::Place::entry_taken_up))]
fn place_of<L: ExerciseLog>(
    findings: &Register<'_, L>,
    station: u16,
    pdu: &PduView<'_>,
) -> Option<usize>
    requires { station < length findings.now.setting.stations }
    ensures { result ≡ place_of findings.now station (pdu_of pdu.now) }
{
    if !is_answer(pdu) {
        return None;
    }
    let brings = GetsRequest {
        findings,
        station,
        address: findings.log().station(usize::from(station)).address(),
        answer: pdu,
    };
    first_below(&brings, entry_count(findings))
}

/// The send of a PDU that is missing in the log of its sender, if that is a recorded station.
fn missing_pdu<L: ExerciseLog>(findings: &Register<'_, L>, pdu: &PduView<'_>) -> Option<Missing>
    ensures { result ≡ missing_pdu findings.now (pdu_of pdu.now) }
{
    match sender_of(findings, pdu) {
        Some(sender) => Some(Missing {
            sender,
            after: place_of(findings, sender, pdu),
        }),
        None => None,
    }
}

/// Whether no entry before one receives these bytes.
fn is_first_receipt<L: ExerciseLog>(findings: &Register<'_, L>, entry: usize, bytes: &[u8]) -> bool
    ensures { result ≡ is_first_receipt findings.now entry bytes.now }
{
    first_below(&GetsBytes { findings, bytes }, entry).is_none()
}

/// The missing send that an entry reveals: the entry is the first receipt of a datagram from a
/// recorded station, and no entry of that station sends these bytes. `None` for all other entries
/// and past the last. Allocates no memory.
#[tactic(auto, unfolding(exercise_findings::specs::Missing::missing_at))]
pub fn missing_at<L: ExerciseLog>(findings: &Register<'_, L>, entry: usize) -> Option<Missing>
    ensures { result ≡ missing_at findings.now entry }
{
    if findings.source(entry).is_some() {
        return None;
    }
    match entry_at(findings, entry) {
        Some(EntryView::Received { bytes, .. }) if is_first_receipt(findings, entry, bytes) => {
            match meant(findings, bytes) {
                Some(pdu) => missing_pdu(findings, &pdu),
                None => None,
            }
        }
        _ => None,
    }
}
