//! An answer without a request: where its request is found after all.

ghost use Rattle.std.specs.Prelude.{◌≡◌, ◌<◌, ◌≤◌, length, option_map};
ghost use Rattle.siman_pdus.specs.Reading.{pdu_of};
ghost use Rattle.exercise_model.specs.History.{station_at};
ghost use Rattle.exercise_model.specs.Place.{brings_request, entry_taken_up, first_below};
ghost use Rattle.exercise_conflict.specs.Clash.{got_pdu, is_asking, is_overheard, overhears_at, asks_at, is_sent_to, asker_of, unasked_clash};

use crate::clash::Clash;
use crate::logs::Logs;
use crate::question::NumberTest;
use dis_records::{Address, addressed};
use exercise_findings::Findings;
use exercise_model::{EntryView, ExerciseLog, is_asked, is_from, meaning_view};
use siman_pdus::{PduView, is_request, is_under_identifier};

/// The PDU that a station receives at an entry, if it receives one that is not "other".
#[tactic(auto, unfolding(exercise_model::specs::Place::own_event, crate::specs::Clash::got_pdu))]
pub(crate) fn got_pdu<'a, L: ExerciseLog>(
    findings: &Findings<'a, L>,
    station: u16,
    entry: usize,
) -> Option<PduView<'a>>
    ensures { option_map pdu_of result ≡ got_pdu findings.now station entry }
{
    let log = findings.log();
    if entry >= log.entry_count() {
        return None;
    }
    match log.entry(entry) {
        EntryView::Received {
            station: at,
            bytes,
            ..
        } if at == station => meaning_view(log.exercise(), bytes),
        _ => None,
    }
}

/// Test for entries by which a station receives a request that an answer could take up.
#[derive(Drop)]
struct Brings<'a, L: ExerciseLog> {
    findings: &'a Findings<'a, L>,
    station: u16,
    address: Address,
    answer: &'a PduView<'a>,
    ghost own: { address ≡ (station_at findings.now station).address },
}

impl<L: ExerciseLog> NumberTest for Brings<'_, L> {
    ghost test = { λ q. brings_request q.findings.now q.station (pdu_of q.answer.now) };

    fn passes(&self, entry: usize) -> bool {
        match got_pdu(self.findings, self.station, entry) {
            Some(request) => is_asked(self.address, self.answer, &request),
            None => false,
        }
    }
}

/// Whether a PDU is a request under the identifier of an answer, sent by the answer's receiver.
fn is_asking(answer: &PduView<'_>, request: &PduView<'_>) -> bool
    ensures { result ≡ is_asking (pdu_of answer.now) (pdu_of request.now) }
{
    let (asker, to) = (request.origin, answer.target);
    is_request(request)
        && is_under_identifier(answer, request)
        && asker.site == to.site
        && asker.application == to.application
}

/// Whether it is such a request, but does not address the station at an address.
fn is_overheard(address: Address, answer: &PduView<'_>, request: &PduView<'_>) -> bool
    ensures { result ≡ is_overheard address (pdu_of answer.now) (pdu_of request.now) }
{
    is_asking(answer, request) && !addressed(request.target, address)
}

/// Test for entries by which a station receives such a request that does not address it.
#[derive(Drop)]
struct Overhears<'a, L: ExerciseLog> {
    findings: &'a Findings<'a, L>,
    station: u16,
    address: Address,
    answer: &'a PduView<'a>,
    ghost own: { address ≡ (station_at findings.now station).address },
}

impl<L: ExerciseLog> NumberTest for Overhears<'_, L> {
    ghost test = { λ q. overhears_at q.findings.now q.station (pdu_of q.answer.now) };

    #[tactic(auto, unfolding(crate::specs::Clash::overhears_at))]
    fn passes(&self, entry: usize) -> bool {
        match got_pdu(self.findings, self.station, entry) {
            Some(request) => is_overheard(self.address, self.answer, &request),
            None => false,
        }
    }
}

/// Test for entries by which a station sends such a request, under its own address.
#[derive(Drop)]
struct Asks<'a, L: ExerciseLog> {
    findings: &'a Findings<'a, L>,
    answer: &'a PduView<'a>,
}

impl<L: ExerciseLog> NumberTest for Asks<'_, L> {
    ghost test = { λ q. asks_at q.findings.now (pdu_of q.answer.now) };

    #[tactic(auto, unfolding(crate::specs::Clash::asks_at))]
    fn passes(&self, entry: usize) -> bool {
        let log = self.findings.log();
        if entry >= log.entry_count() {
            return false;
        }
        match log.entry(entry) {
            EntryView::Sent { station, bytes, .. } => {
                match meaning_view(log.exercise(), bytes) {
                    Some(request) => {
                        is_from(log.station(usize::from(station)).address(), &request)
                            && is_asking(self.answer, &request)
                    }
                    None => false,
                }
            }
            EntryView::Received { .. } | EntryView::Told { .. } => false,
        }
    }
}

/// Whether the receiver of an answer is the station at an address.
fn is_sent_to(address: Address, answer: &PduView<'_>) -> bool
    ensures { result ≡ is_sent_to address (pdu_of answer.now) }
{
    let to = answer.target;
    to.site == address.site() && to.application == address.application()
}

/// The recorded station that an answer is sent to.
#[tactic(auto, unfolding(exercise_model::specs::Account::sender_of), using(crate::proofs::Steps::question_steps))]
fn asker_of<L: ExerciseLog>(findings: &Findings<'_, L>, answer: &PduView<'_>) -> Option<u16>
    ensures { result ≡ asker_of findings.now (pdu_of answer.now) }
{
    for station in 0..findings.log().station_count() {
        if is_sent_to(findings.log().station(station).address(), answer) {
            return Some(station as u16);
        }
    }
    None
}

/// The first entry by which the receiver of an answer sends a request for it, under its own
/// address.
#[tactic(auto, using(crate::proofs::Asked::nobody_asks, crate::proofs::Asked::asker_asks))]
fn asked_at<L: ExerciseLog>(logs: &Logs<'_, '_, L>, answer: &PduView<'_>) -> Option<usize>
    ensures { result ≡ first_below (asks_at logs.now (pdu_of answer.now)) (length logs.now.entries) }
{
    let findings = logs.findings();
    let entries = findings.log().entry_count();
    match asker_of(findings, answer) {
        Some(asker) => logs.first_own(&Asks { findings, answer }, asker, entries),
        None => None,
    }
}

/// The contradiction of an answer without a request: where requests for it are found.
#[tactic(auto, unfolding(exercise_model::specs::Place::entry_taken_up), using(crate::proofs::Unowned::unowned_request, crate::proofs::Unowned::unowned_overheard))]
pub(crate) fn unasked_clash<L: ExerciseLog>(
    logs: &Logs<'_, '_, L>,
    station: u16,
    entry: usize,
    answer: &PduView<'_>,
) -> Clash
    requires at { station < length logs.now.setting.stations }
    requires within { entry ≤ length logs.now.entries }
    ensures { result ≡ unasked_clash logs.now station entry (pdu_of answer.now) }
{
    let findings = logs.findings();
    let log = findings.log();
    let address = log.station(usize::from(station)).address();
    let brings = Brings {
        findings,
        station,
        address,
        answer,
    };
    let overhears = Overhears {
        findings,
        station,
        address,
        answer,
    };
    Clash::NoRequest {
        later: logs.first_own(&brings, station, log.entry_count()),
        overheard: logs.first_own(&overhears, station, entry),
        sent: asked_at(logs, answer),
    }
}
