//! Computes the contradiction of an entry from the logs.

ghost use Rattle.std.specs.Prelude.{◌≡◌, ◌≤◌, ◌<◌, length, option_map, Some, None, if◌then◌else◌};
ghost use Rattle.siman_pdus.specs.Answers.{matches_kind};
ghost use Rattle.siman_pdus.specs.Reading.{pdu_of};
ghost use Rattle.exercise_model.specs.Account.{pair_of_sent};
ghost use Rattle.exercise_model.specs.Station.{is_entity};
ghost use Rattle.exercise_findings.specs.State.{state_before};
ghost use Rattle.exercise_conflict.specs.Clash.{reused_clash, answer_mismatch, wrong_answer_clash, hopeless_scope_clash, impossible_clash, send_clash, receipt_clash, told_state_clash, clash_of};
ghost use Rattle.exercise_conflict.specs.Earlier.{IsSentAt};

use crate::clash::{AnswerMismatch, Clash};
use crate::difference::order_difference;
use crate::earlier::{earlier_sent, pair_of, sent_pdu};
use crate::logs::Logs;
use crate::near::unsent_clash;
use crate::since::state_and_change;
use crate::unasked::{got_pdu, unasked_clash};
use dis_records::{EntityState, Kind, Scope};
use exercise_findings::Findings;
use exercise_model::{Cause, Change, EntryView, ExerciseLog, is_entity, meaning_view};
use siman_pdus::{BodyView, Message, PduView};

/// Entity number of all entities of a station.
const ALL_ENTITIES: u16 = 0xFFFF;

/// The contradiction of a reused identifier, given the earlier request.
fn reused_clash<L: ExerciseLog>(
    findings: &Findings<'_, L>,
    station: u16,
    pdu: &PduView<'_>,
    earlier: usize,
) -> Option<Clash>
    ensures { result ≡ reused_clash findings.now station (pdu_of pdu.now) earlier }
{
    let other = sent_pdu(findings, station, earlier)?;
    let differs = order_difference(pdu, &other)?;
    Some(Clash::ReusedIdentifier { earlier, differs })
}

/// Whether an answer fits requests of a kind.
fn fits_kind(answer: &PduView<'_>, kind: Kind) -> bool
    ensures { result ≡ matches_kind (pdu_of answer.now).body kind }
{
    match (&answer.body, kind) {
        (BodyView::Acknowledge { flag, .. }, Kind::CreateEntity) => *flag == 1,
        (BodyView::Acknowledge { flag, .. }, Kind::RemoveEntity) => *flag == 2,
        (BodyView::Acknowledge { flag, .. }, Kind::StartResume) => *flag == 3,
        (BodyView::Acknowledge { flag, .. }, Kind::StopFreeze) => *flag == 4,
        (BodyView::ActionResponse { .. }, Kind::ActionRequest) => true,
        (BodyView::DataPdu { .. }, Kind::DataQuery | Kind::SetData) => true,
        _ => false,
    }
}

/// Why an answer does not answer a request that it takes up.
fn answer_mismatch(answer: &PduView<'_>, request: &PduView<'_>) -> AnswerMismatch
    ensures { result ≡ answer_mismatch (pdu_of answer.now) (pdu_of request.now) }
{
    if fits_kind(answer, request.kind()) {
        AnswerMismatch::Entity
    } else {
        AnswerMismatch::Kind
    }
}

/// The contradiction of a wrong answer, given the request that it takes up.
fn wrong_answer_clash<L: ExerciseLog>(
    findings: &Findings<'_, L>,
    station: u16,
    answer: &PduView<'_>,
    earlier: usize,
) -> Option<Clash>
    ensures { result ≡ wrong_answer_clash findings.now station (pdu_of answer.now) earlier }
{
    let request = got_pdu(findings, station, earlier)?;
    Some(Clash::WrongAnswer {
        earlier,
        differs: answer_mismatch(answer, &request),
    })
}

/// The state under an entity number, if an entity can have the number.
fn state_found(entity: u16, state: EntityState) -> Option<EntityState>
    ensures { result ≡ (if is_entity entity then Some state else None) }
{
    if is_entity(entity) { Some(state) } else { None }
}

/// The contradiction of an impossible change of a scope.
fn hopeless_scope_clash<L: ExerciseLog>(
    logs: &Logs<'_, '_, L>,
    station: u16,
    entry: usize,
    earlier: usize,
    scope: Scope,
) -> Clash
    requires at { station < length logs.now.setting.stations }
    requires within { entry ≤ length logs.now.entries }
    ensures { result ≡ hopeless_scope_clash logs.now station entry earlier scope }
{
    match scope {
        Scope::One(entity) => {
            let (state, change) = state_and_change(logs, station, entity, entry);
            Clash::Impossible {
                earlier,
                station,
                entity,
                state: state_found(entity, state),
                change,
            }
        }
        Scope::All => Clash::Impossible {
            earlier,
            station,
            entity: ALL_ENTITIES,
            state: None,
            change: None,
        },
    }
}

/// The contradiction of an impossible change, given the request that its answer takes up.
fn impossible_clash<L: ExerciseLog>(
    logs: &Logs<'_, '_, L>,
    station: u16,
    entry: usize,
    answer: &PduView<'_>,
    earlier: usize,
) -> Option<Clash>
    requires at { station < length logs.now.setting.stations }
    requires within { entry ≤ length logs.now.entries }
    ensures { result ≡ impossible_clash logs.now station entry (pdu_of answer.now) earlier }
{
    let request = got_pdu(logs.findings(), station, earlier)?;
    let change = Change::carried_out(answer, &request)?;
    Some(hopeless_scope_clash(logs, station, entry, earlier, change.scope))
}

/// The entry of the request that a sent PDU takes up.
fn pair_of_sent<L: ExerciseLog>(
    findings: &Findings<'_, L>,
    station: u16,
    entry: usize,
    pdu: &PduView<'_>,
) -> Option<usize>
    requires { IsSentAt findings.now entry station (pdu_of pdu.now) }
    ensures { result ≡ pair_of_sent findings.now station entry (pdu_of pdu.now) }
{
    pair_of(findings, entry)
}

/// The contradiction of a PDU that a station sends at an entry, for this cause against it.
fn send_clash<L: ExerciseLog>(
    logs: &Logs<'_, '_, L>,
    station: u16,
    entry: usize,
    cause: Cause,
    pdu: &PduView<'_>,
) -> Option<Clash>
    requires at { station < length logs.now.setting.stations }
    requires within { entry ≤ length logs.now.entries }
    requires sent { IsSentAt logs.now entry station (pdu_of pdu.now) }
    ensures { result ≡ send_clash logs.now entry station cause (pdu_of pdu.now) }
{
    match cause {
        Cause::WrongSender => Some(Clash::WrongSender {
            from: pdu.origin,
            station,
        }),
        Cause::ReusedIdentifier => {
            let earlier = earlier_sent(logs, station, entry, cause, pdu)?;
            reused_clash(logs.findings(), station, pdu, earlier)
        }
        Cause::NoRequest => Some(unasked_clash(logs, station, entry, pdu)),
        Cause::WrongAnswer => {
            let earlier = earlier_sent(logs, station, entry, cause, pdu)?;
            wrong_answer_clash(logs.findings(), station, pdu, earlier)
        }
        Cause::ChangedAnswer => {
            let earlier = earlier_sent(logs, station, entry, cause, pdu)?;
            Some(Clash::ChangedAnswer { earlier })
        }
        Cause::Impossible => {
            let earlier = pair_of_sent(logs.findings(), station, entry, pdu)?;
            impossible_clash(logs, station, entry, pdu, earlier)
        }
        _ => None,
    }
}

/// The contradiction of a receipt, for this cause against it.
fn receipt_clash<L: ExerciseLog>(
    logs: &Logs<'_, '_, L>,
    entry: usize,
    bytes: &[u8],
    cause: Cause,
    pdu: &PduView<'_>,
) -> Option<Clash>
    ensures { result ≡ receipt_clash logs.now entry bytes.now cause (pdu_of pdu.now) }
{
    match cause {
        Cause::Stranger => Some(Clash::Stranger { from: pdu.origin }),
        Cause::NeverSent => Some(unsent_clash(logs, entry, bytes, pdu)),
        _ => None,
    }
}

/// The contradiction of a told state, for this cause against it.
fn told_state_clash<L: ExerciseLog>(
    logs: &Logs<'_, '_, L>,
    station: u16,
    entry: usize,
    entity: u16,
    cause: Cause,
) -> Option<Clash>
    requires at { station < length logs.now.setting.stations }
    requires within { entry ≤ length logs.now.entries }
    ensures { result ≡ told_state_clash logs.now entry station entity cause }
{
    match cause {
        Cause::WrongState => {
            let (state, change) = state_and_change(logs, station, entity, entry);
            Some(Clash::WrongState {
                station,
                entity,
                state,
                change,
            })
        }
        _ => None,
    }
}

/// As [`clash_of`], with the tables of `logs`.
#[tactic(auto, unfolding(crate::specs::Clash::clash_of))]
pub(crate) fn clash_in<L: ExerciseLog>(logs: &Logs<'_, '_, L>, entry: usize) -> Option<Clash>
    ensures { result ≡ clash_of logs.now entry }
{
    let findings = logs.findings();
    let cause = findings.cause(entry)?;
    let log = findings.log();
    if entry >= log.entry_count() {
        return None;
    }
    match log.entry(entry) {
        EntryView::Sent { station, bytes, .. } => {
            let pdu = meaning_view(log.exercise(), bytes)?;
            send_clash(logs, station, entry, cause, &pdu)
        }
        EntryView::Received { bytes, .. } => {
            let pdu = meaning_view(log.exercise(), bytes)?;
            receipt_clash(logs, entry, bytes, cause, &pdu)
        }
        EntryView::Told {
            station,
            entity,
            ..
        } => told_state_clash(logs, station, entry, entity, cause),
    }
}

/// The contradiction of an entry: the other side of the first cause that its station's log shows
/// against it, where a receipt is judged as if nothing had been sent. `None` without a cause, and
/// past the last entry. It takes no memory.
pub fn clash_of<L: ExerciseLog>(findings: &Findings<'_, L>, entry: usize) -> Option<Clash>
    ensures { result ≡ clash_of findings.now entry }
{
    clash_in(&Logs::unwritten(findings), entry)
}
