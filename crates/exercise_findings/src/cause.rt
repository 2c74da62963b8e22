//! Causes why the event of an entry cannot happen, as far as its own station's log shows.

ghost use Rattle.std.specs.Prelude.{◌≡◌, ◌<◌, ◌≤◌, ◌&&◌, ℕ, List, [], length, option_map, IsTrue};
ghost use Rattle.siman_pdus.specs.Answers.{is_answer_to};
ghost use Rattle.siman_pdus.specs.Reading.{pdu_of};
ghost use Rattle.siman_pdus.specs.Role.{is_request_body};
ghost use Rattle.siman_pdus.specs.declared.pdu.Pdu.{Pdu};
ghost use Rattle.exercise_model.specs.History.{station_at};
ghost use Rattle.exercise_model.specs.Setting.{SettingData, is_from, is_recorded};
ghost use Rattle.exercise_model.specs.State.{state_after};
ghost use Rattle.exercise_model.specs.Change.{is_change};
ghost use Rattle.exercise_model.specs.Cause.{is_reused, is_changed_answer, is_hopeless, is_hopeless_for, is_impossible, send_cause, get_cause, tell_rows, first_cause};
ghost use Rattle.exercise_model.specs.Place.{log_before};
ghost use Rattle.exercise_findings.specs.Firsts.{answer_base, AreFirsts};
ghost use Rattle.exercise_findings.specs.TakenUp.{request_of_sent};
ghost use Rattle.exercise_findings.specs.Tables.{AreTablesBelow};

use crate::change::{was_able, was_unable};
use crate::firsts::Firsts;
use crate::state::state_before;
use crate::tables::Tables;
use dis_records::{EntityState, Kind, Scope};
use exercise_model::{Cause, Change, ExerciseLog, Form, is_answer, is_entity, key_of, responds};
use siman_pdus::{ABLE, PduView, UNABLE, answers};

/// Cause 9, changed answer: whether a PDU that a station sends at an entry is an Able after an
/// Unable under its key, or an Unable after an Able. `base` is the hash base of both keys.
#[tactic(auto, unfolding(exercise_model::specs::Cause::is_changed_answer))]
fn is_changed_answer<L: ExerciseLog>(
    log: &L,
    firsts: &Firsts,
    station: u16,
    before: usize,
    pdu: &PduView<'_>,
    base: u32,
) -> bool
    requires at { station < length (L.recording log.now).setting.stations }
    requires base { base ≡ answer_base station (pdu_of pdu.now) }
    requires tied { AreFirsts (L.recording log.now) before firsts.now }
    ensures { let r = L.recording log.now in result ≡ is_changed_answer r.setting.exercise (pdu_of pdu.now) (log_before r station before) }
{
    let Some(key) = key_of(pdu) else {
        return false;
    };
    if responds(ABLE, pdu) {
        was_unable(log, firsts, station, before, &key, base)
    } else if responds(UNABLE, pdu) {
        was_able(log, firsts, station, before, &key, base)
    } else {
        false
    }
}

/// Whether the state of an entity rules out a request of this kind.
fn is_hopeless_for(kind: Kind, entity: u16, state: EntityState) -> bool
    ensures { result ≡ is_hopeless_for kind entity state }
{
    let absent = state == EntityState::Absent;
    match kind {
        Kind::CreateEntity => !(is_entity(entity) && absent),
        _ => absent,
    }
}

/// Whether a change is impossible at an entry of a station.
fn is_hopeless<L: ExerciseLog>(
    log: &L,
    tables: &Tables,
    station: u16,
    before: usize,
    change: Change,
) -> bool
    requires at { station < length (L.recording log.now).setting.stations }
    requires within { before ≤ length (L.recording log.now).entries }
    requires tied { AreTablesBelow (L.recording log.now) before tables.now }
    ensures { let r = L.recording log.now in result ≡ is_hopeless change.kind change.scope (state_after r.setting.exercise (station_at r station) (log_before r station before)) }
{
    match change.scope {
        Scope::One(entity) => {
            let state = state_before(log, tables, station, before, entity);
            is_hopeless_for(change.kind, entity, state)
        }
        Scope::All => change.kind == Kind::CreateEntity,
    }
}

/// Cause 10, impossible: whether a PDU that a station sends at an entry claims an impossible change
/// of the request that it answers. `first`: whether it is the first Able under its key.
#[tactic(auto, unfolding(exercise_model::specs::Cause::is_impossible))]
fn is_impossible<L: ExerciseLog>(
    log: &L,
    tables: &Tables,
    station: u16,
    before: usize,
    pdu: &PduView<'_>,
    first: bool,
    request: &PduView<'_>,
) -> bool
    requires at { station < length (L.recording log.now).setting.stations }
    requires within { before ≤ length (L.recording log.now).entries }
    requires tied { AreTablesBelow (L.recording log.now) before tables.now }
    requires first { let r = L.recording log.now in first ≡ is_change r.setting.exercise (pdu_of pdu.now) (log_before r station before) }
    requires answers { IsTrue (is_answer_to (pdu_of pdu.now) (pdu_of request.now)) }
    ensures { let r = L.recording log.now in result ≡ is_impossible r.setting.exercise (station_at r station) (log_before r station before) (pdu_of pdu.now) (pdu_of request.now) }
{
    first && is_hopeless(log, tables, station, before, Change::of(pdu, request))
}

/// What is known of a PDU that a station sends at an entry, beside its bytes.
#[derive(Clone, Copy)]
pub(crate) struct SendFacts {
    /// Hash base of an answer's keys.
    pub base: u32,
    /// Whether its sender is that station.
    pub is_from: bool,
    /// Whether it is a request that reuses its identifier.
    pub is_reused: bool,
    /// Whether it is the first Able under its key.
    pub is_first: bool,
}

/// The first of causes 5 to 10 against a PDU that a station sends at an entry. `taken`: the
/// request that an answer takes up, with its entry.
#[tactic(auto, unfolding(exercise_model::specs::Cause::send_cause))]
pub(crate) fn judge_sent<L: ExerciseLog>(
    log: &L,
    tables: &Tables,
    station: u16,
    before: usize,
    pdu: &PduView<'_>,
    facts: SendFacts,
    taken: &Option<(u32, PduView<'_>)>,
) -> Option<Cause>
    requires at { station < length (L.recording log.now).setting.stations }
    requires within { before < length (L.recording log.now).entries }
    requires tied { AreTablesBelow (L.recording log.now) before tables.now }
    requires base { facts.base ≡ answer_base station (pdu_of pdu.now) }
    requires from { facts.is_from ≡ is_from (station_at (L.recording log.now) station).address (pdu_of pdu.now) }
    requires reused { let r = L.recording log.now in facts.is_reused ≡ (is_request_body (pdu_of pdu.now).body && is_reused r.setting.exercise (pdu_of pdu.now) (log_before r station before)) }
    requires first { let r = L.recording log.now in facts.is_first ≡ is_change r.setting.exercise (pdu_of pdu.now) (log_before r station before) }
    requires request { option_map (λ t. pdu_of t.1) taken.now ≡ request_of_sent (L.recording log.now) station before (pdu_of pdu.now) }
    ensures { let r = L.recording log.now in result ≡ send_cause r.setting.exercise (station_at r station) (log_before r station before) (pdu_of pdu.now) }
{
    if !facts.is_from {
        return Some(Cause::WrongSender);
    }
    if facts.is_reused {
        return Some(Cause::ReusedIdentifier);
    }
    if !is_answer(pdu) {
        return None;
    }
    let Some((_, request)) = taken else {
        return Some(Cause::NoRequest);
    };
    if !answers(pdu, request) {
        Some(Cause::WrongAnswer)
    } else if is_changed_answer(log, &tables.firsts, station, before, pdu, facts.base) {
        Some(Cause::ChangedAnswer)
    } else if is_impossible(log, tables, station, before, pdu, facts.is_first, request) {
        Some(Cause::Impossible)
    } else {
        None
    }
}

/// Causes 11 and 12, stranger and never sent: the first against a received PDU if nothing was sent
/// before, given the form of the recording and whether the sender is a recorded station.
#[tactic(auto, unfolding(exercise_model::specs::Cause::get_cause, exercise_model::specs::Cause::was_sent, exercise_model::specs::Setting::may_be_heard))]
pub(crate) fn judge_unsent(form: Form, recorded: bool) -> Option<Cause>
    ensures { (w : SettingData) (b : List ℕ) (p : Pdu) → form ≡ w.form → recorded ≡ is_recorded w p → result ≡ get_cause w [] b p }
{
    if recorded {
        Some(Cause::NeverSent)
    } else if form == Form::Open {
        None
    } else {
        Some(Cause::Stranger)
    }
}

/// Cause 13, wrong state: against a state that a station tells at an entry.
pub(crate) fn judge_told<L: ExerciseLog>(
    log: &L,
    tables: &Tables,
    station: u16,
    before: usize,
    entity: u16,
    state: EntityState,
) -> Option<Cause>
    requires at { station < length (L.recording log.now).setting.stations }
    requires within { before ≤ length (L.recording log.now).entries }
    requires tied { AreTablesBelow (L.recording log.now) before tables.now }
    ensures { let r = L.recording log.now in result ≡ first_cause (tell_rows state (state_after r.setting.exercise (station_at r station) (log_before r station before) entity)) }
{
    if state == state_before(log, tables, station, before, entity) {
        None
    } else {
        Some(Cause::WrongState)
    }
}
