//! The earlier entry of its own station that an entry contradicts.

ghost use Rattle.std.specs.Prelude.{◌≡◌, option_map};
ghost use Rattle.siman_pdus.specs.Reading.{pdu_of};
ghost use Rattle.exercise_model.specs.Account.{pair_of};
ghost use Rattle.exercise_conflict.specs.Earlier.{sent_pdu, sends_other_at, is_opposite, is_opposite_to, sends_opposite_at, earlier_sent, IsSentAt, earlier_of};

use crate::logs::Logs;
use crate::question::NumberTest;
use exercise_findings::Findings;
use exercise_model::{
    AcknowledgeKey, Cause, EntryView, ExerciseLog, key_of, meaning_view, responds, responds_under,
};
use siman_pdus::{ABLE, PduView, UNABLE, is_request, is_under_identifier, same_order};

/// The PDU that a station sends at an entry, if it sends one that is not "other".
#[tactic(auto, unfolding(exercise_model::specs::Place::own_event, crate::specs::Earlier::sent_pdu))]
pub(crate) fn sent_pdu<'a, L: ExerciseLog>(
    findings: &Findings<'a, L>,
    station: u16,
    entry: usize,
) -> Option<PduView<'a>>
    ensures { option_map pdu_of result ≡ sent_pdu findings.now station entry }
{
    let log = findings.log();
    if entry >= log.entry_count() {
        return None;
    }
    match log.entry(entry) {
        EntryView::Sent {
            station: at,
            bytes,
            ..
        } if at == station => meaning_view(log.exercise(), bytes),
        _ => None,
    }
}

/// Test for entries by which a station sends a different request under the identifier of a PDU.
#[derive(Drop)]
struct OtherOrder<'a, L: ExerciseLog> {
    findings: &'a Findings<'a, L>,
    station: u16,
    pdu: &'a PduView<'a>,
}

impl<L: ExerciseLog> NumberTest for OtherOrder<'_, L> {
    ghost test = { λ q. sends_other_at q.findings.now q.station (pdu_of q.pdu.now) };

    #[tactic(auto, unfolding(crate::specs::Earlier::sends_other_at))]
    fn passes(&self, entry: usize) -> bool {
        match sent_pdu(self.findings, self.station, entry) {
            Some(other) => {
                is_request(&other)
                    && is_under_identifier(self.pdu, &other)
                    && !same_order(self.pdu, &other)
            }
            None => false,
        }
    }
}

/// Test for entries by which a station sends the opposite of an Able or Unable, under its key.
#[derive(Drop)]
struct Opposite<'a, L: ExerciseLog> {
    findings: &'a Findings<'a, L>,
    station: u16,
    pdu: &'a PduView<'a>,
}

impl<L: ExerciseLog> NumberTest for Opposite<'_, L> {
    ghost test = { λ q. sends_opposite_at q.findings.now q.station (pdu_of q.pdu.now) };

    #[tactic(auto, unfolding(crate::specs::Earlier::sends_opposite_at))]
    fn passes(&self, entry: usize) -> bool {
        match sent_pdu(self.findings, self.station, entry) {
            Some(other) => is_opposite_to(self.pdu, &other),
            None => false,
        }
    }
}

/// Whether one PDU is an Able and the other an Unable under the key, in either order.
fn is_opposite(pdu: &PduView<'_>, other: &PduView<'_>, key: &AcknowledgeKey) -> bool
    ensures { result ≡ is_opposite (pdu_of pdu.now) (pdu_of other.now) key.now }
{
    responds(ABLE, pdu) && responds_under(UNABLE, key, other)
        || responds(UNABLE, pdu) && responds_under(ABLE, key, other)
}

/// Whether a PDU is the opposite answer to another, under that one's key.
fn is_opposite_to(pdu: &PduView<'_>, other: &PduView<'_>) -> bool
    ensures { result ≡ is_opposite_to (pdu_of pdu.now) (pdu_of other.now) }
{
    match key_of(pdu) {
        Some(key) => is_opposite(pdu, other, &key),
        None => false,
    }
}

/// The entry of the request that an answer takes up.
pub(crate) fn pair_of<L: ExerciseLog>(findings: &Findings<'_, L>, entry: usize) -> Option<usize>
    ensures { result ≡ pair_of findings.now entry }
{
    match findings.pair(entry) {
        Some(request) => Some(request as usize),
        None => None,
    }
}

/// The earlier entry that a sent PDU contradicts, for this cause against it.
#[tactic(auto, using(crate::proofs::Unowned::unowned_other, crate::proofs::Unowned::unowned_opposite, crate::proofs::Unowned::sent_within))]
pub(crate) fn earlier_sent<L: ExerciseLog>(
    logs: &Logs<'_, '_, L>,
    station: u16,
    entry: usize,
    cause: Cause,
    pdu: &PduView<'_>,
) -> Option<usize>
    requires { IsSentAt logs.now entry station (pdu_of pdu.now) }
    ensures { result ≡ earlier_sent logs.now entry station cause (pdu_of pdu.now) }
{
    let findings = logs.findings();
    match cause {
        Cause::ReusedIdentifier => logs.first_own(
            &OtherOrder {
                findings,
                station,
                pdu,
            },
            station,
            entry,
        ),
        Cause::WrongAnswer => pair_of(findings, entry),
        Cause::ChangedAnswer => logs.first_own(
            &Opposite {
                findings,
                station,
                pdu,
            },
            station,
            entry,
        ),
        _ => None,
    }
}

/// The earlier entry of its own station that an entry contradicts: for a reused identifier the
/// first different request under it, for a wrong answer the request that it takes up, for a changed
/// answer the first opposite one under its key. `None` for any other cause and past the last entry.
/// It takes no memory.
#[tactic(auto, unfolding(crate::specs::Earlier::earlier_of))]
pub fn earlier_of<L: ExerciseLog>(findings: &Findings<'_, L>, entry: usize) -> Option<usize>
    ensures { result ≡ earlier_of findings.now entry }
{
    let cause = findings.cause(entry)?;
    let log = findings.log();
    if entry >= log.entry_count() {
        return None;
    }
    match log.entry(entry) {
        EntryView::Sent { station, bytes, .. } => {
            let pdu = meaning_view(log.exercise(), bytes)?;
            earlier_sent(&Logs::unwritten(findings), station, entry, cause, &pdu)
        }
        EntryView::Received { .. } | EntryView::Told { .. } => None,
    }
}
