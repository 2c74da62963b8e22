//! A datagram that was never sent: its source, if it is sent later, and the most similar send of
//! its sender.

ghost use Rattle.std.specs.Prelude.{◌≡◌, option_map};
ghost use Rattle.siman_pdus.specs.Reading.{pdu_of};
ghost use Rattle.exercise_model.specs.Account.{sender_of};
ghost use Rattle.exercise_findings.specs.Source.{source_of};
ghost use Rattle.exercise_conflict.specs.Clash.{is_near, sends_near_at, near_of, field_or_padding, differs_at, unsent_clash};

use crate::clash::Clash;
use crate::difference::pdu_difference;
use crate::earlier::sent_pdu;
use crate::field::PduField;
use crate::logs::Logs;
use crate::question::NumberTest;
use exercise_findings::Findings;
use exercise_model::{EntryView, ExerciseLog, is_from, meaning_view};
use siman_pdus::{Message, PduView, is_under_identifier, request_id, same_order};

/// The recorded station that sent a PDU.
#[tactic(auto, unfolding(exercise_model::specs::Account::sender_of), using(crate::proofs::Steps::question_steps))]
pub(crate) fn sender_of<L: ExerciseLog>(
    findings: &Findings<'_, L>,
    pdu: &PduView<'_>,
) -> Option<u16>
    ensures { result ≡ sender_of findings.now (pdu_of pdu.now) }
{
    for station in 0..findings.log().station_count() {
        if is_from(findings.log().station(station).address(), pdu) {
            return Some(station as u16);
        }
    }
    None
}

/// Whether two PDUs are similar: of equal kind, receiver and request identifier; or, if their kind
/// has no identifier, equal orders.
fn is_near(pdu: &PduView<'_>, other: &PduView<'_>) -> bool
    ensures { result ≡ is_near (pdu_of pdu.now) (pdu_of other.now) }
{
    if request_id(pdu).is_none() {
        return same_order(pdu, other);
    }
    pdu.kind().code() == other.kind().code()
        && pdu.target == other.target
        && is_under_identifier(pdu, other)
}

/// Test for entries by which a station sends a PDU similar to another.
#[derive(Drop)]
struct SendsNear<'a, L: ExerciseLog> {
    findings: &'a Findings<'a, L>,
    station: u16,
    pdu: &'a PduView<'a>,
}

impl<L: ExerciseLog> NumberTest for SendsNear<'_, L> {
    ghost test = { λ q. sends_near_at q.findings.now q.station (pdu_of q.pdu.now) };

    #[tactic(auto, unfolding(crate::specs::Clash::sends_near_at))]
    fn passes(&self, entry: usize) -> bool {
        match sent_pdu(self.findings, self.station, entry) {
            Some(other) => is_near(self.pdu, &other),
            None => false,
        }
    }
}

/// The first entry by which a PDU's sender sends a similar one.
#[tactic(auto, using(crate::proofs::Unowned::unowned_near))]
fn near_of<L: ExerciseLog>(logs: &Logs<'_, '_, L>, pdu: &PduView<'_>) -> Option<usize>
    ensures { result ≡ near_of logs.now (pdu_of pdu.now) }
{
    let findings = logs.findings();
    let station = sender_of(findings, pdu)?;
    if let Some(found) = logs.first_near(station, pdu) {
        return found;
    }
    let near = SendsNear {
        findings,
        station,
        pdu,
    };
    logs.first_own(&near, station, findings.log().entry_count())
}

/// The differing field, or `Padding` if no field differs.
fn field_or_padding(found: Option<PduField>) -> PduField
    ensures { result ≡ field_or_padding found }
{
    match found {
        Some(field) => field,
        None => PduField::Padding,
    }
}

/// The first field in which a datagram differs from the one that an entry sends.
fn differs_at<L: ExerciseLog>(
    findings: &Findings<'_, L>,
    bytes: &[u8],
    pdu: &PduView<'_>,
    entry: usize,
) -> Option<PduField>
    ensures { result ≡ differs_at findings.now bytes.now (pdu_of pdu.now) entry }
{
    let log = findings.log();
    if entry >= log.entry_count() {
        return None;
    }
    match log.entry(entry) {
        EntryView::Sent { bytes: sent, .. } if bytes != sent => {
            match meaning_view(log.exercise(), sent) {
                Some(other) => Some(field_or_padding(pdu_difference(pdu, &other))),
                None => None,
            }
        }
        _ => None,
    }
}

/// The source of a receipt, as an entry number.
fn source_of<L: ExerciseLog>(findings: &Findings<'_, L>, entry: usize) -> Option<usize>
    ensures { result ≡ source_of findings.now entry }
{
    match findings.source(entry) {
        Some(source) => Some(source as usize),
        None => None,
    }
}

/// The contradiction of an entry that receives a datagram which was never sent.
pub(crate) fn unsent_clash<L: ExerciseLog>(
    logs: &Logs<'_, '_, L>,
    entry: usize,
    bytes: &[u8],
    pdu: &PduView<'_>,
) -> Clash
    ensures { result ≡ unsent_clash logs.now entry bytes.now (pdu_of pdu.now) }
{
    let findings = logs.findings();
    let near = near_of(logs, pdu);
    let differs = match near {
        Some(near) => differs_at(findings, bytes, pdu, near),
        None => None,
    };
    Clash::NeverSent {
        from: pdu.origin,
        sent: source_of(findings, entry),
        near,
        differs,
    }
}
