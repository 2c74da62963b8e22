//! Judges whether the event of an entry can happen next, and with which entry its step links.

use crate::change::{change_by, was_acknowledged};
use crate::entries::{address_of, entry_at, pdu_sent};
use crate::exchange::request_taken_up;
use crate::state::state_before;
use dis_records::{EntityState, Kind, Scope};
use exercise_check::Step;
use exercise_model::{
    Cause, Change, EntryView, ExerciseLog, Form, is_answer, is_entity, is_from, key_of,
    meaning_view, responds,
};
use siman_pdus::{ABLE, PduView, UNABLE, answers, is_request, is_under_identifier, same_order};

/// The entry that a step links with, if any, or the first cause against it.
pub(crate) type PlainJudgement = Result<Option<usize>, Cause>;

/// Whether a PDU is a request under the request identifier of another request, and another order.
fn is_other_order(request: &PduView<'_>, other: &PduView<'_>) -> bool {
    is_request(other) && is_under_identifier(request, other) && !same_order(request, other)
}

/// Whether a station sent, before an entry, another order under the request identifier of a
/// request.
fn is_reused<L: ExerciseLog>(
    log: &L,
    station: usize,
    before: usize,
    request: &PduView<'_>,
) -> bool {
    for i in 0..before {
        if let Some(other) = pdu_sent(log, station, i) {
            if is_other_order(request, &other) {
                return true;
            }
        }
    }
    false
}

/// Whether a PDU that a station sends at an entry is an Able after an Unable under its key, or an
/// Unable after an Able.
fn is_changed_answer<L: ExerciseLog>(
    log: &L,
    station: usize,
    before: usize,
    pdu: &PduView<'_>,
) -> bool {
    let Some(key) = key_of(pdu) else {
        return false;
    };
    if responds(ABLE, pdu) {
        was_acknowledged(log, station, before, UNABLE, &key)
    } else {
        responds(UNABLE, pdu) && was_acknowledged(log, station, before, ABLE, &key)
    }
}

/// Whether a change is impossible at an entry of a station.
fn is_hopeless<L: ExerciseLog>(log: &L, station: usize, before: usize, change: Change) -> bool {
    match change.scope {
        Scope::One(entity) => {
            let absent = state_before(log, station, before, entity) == EntityState::Absent;
            match change.kind {
                Kind::CreateEntity => !(is_entity(entity) && absent),
                _ => absent,
            }
        }
        Scope::All => change.kind == Kind::CreateEntity,
    }
}

/// Judges an answer that a station sends at an entry.
fn judge_answer<L: ExerciseLog>(
    log: &L,
    station: usize,
    place: usize,
    pdu: &PduView<'_>,
) -> PlainJudgement {
    let Some((entry, request)) = request_taken_up(log, station, place, pdu) else {
        return Err(Cause::NoRequest);
    };
    if !answers(pdu, &request) {
        return Err(Cause::WrongAnswer);
    }
    if is_changed_answer(log, station, place, pdu) {
        return Err(Cause::ChangedAnswer);
    }
    match change_by(log, station, place, pdu) {
        Some(change) if is_hopeless(log, station, place, change) => Err(Cause::Impossible),
        _ => Ok(Some(entry)),
    }
}

/// Judges a PDU that a station sends at an entry.
fn judge_sent<L: ExerciseLog>(
    log: &L,
    station: usize,
    place: usize,
    pdu: &PduView<'_>,
) -> PlainJudgement {
    match address_of(log, station) {
        Some(address) if is_from(address, pdu) => {}
        _ => return Err(Cause::WrongSender),
    }
    if is_request(pdu) && is_reused(log, station, place, pdu) {
        return Err(Cause::ReusedIdentifier);
    }
    if is_answer(pdu) {
        judge_answer(log, station, place, pdu)
    } else {
        Ok(None)
    }
}

/// The first recorded station that is the origin of a PDU.
pub(crate) fn sender_of<L: ExerciseLog>(log: &L, pdu: &PduView<'_>) -> Option<usize> {
    for station in 0..log.station_count() {
        if is_from(log.station(station).address(), pdu) {
            return Some(station);
        }
    }
    None
}

/// The entry of the first step that sends a datagram of these bytes.
fn first_sender<L: ExerciseLog>(log: &L, steps: &[Step], datagram: &[u8]) -> Option<usize> {
    for step in steps {
        let place = step.place as usize;
        if let Some(EntryView::Sent { bytes, .. }) = entry_at(log, place) {
            if bytes == datagram {
                return Some(place);
            }
        }
    }
    None
}

/// Judges a datagram that a station receives after these steps.
fn judge_received<L: ExerciseLog>(
    log: &L,
    before: &[Step],
    bytes: &[u8],
    pdu: &PduView<'_>,
) -> PlainJudgement {
    if sender_of(log, pdu).is_none() {
        return match log.form() {
            Form::Open => Ok(None),
            Form::First | Form::Closed => Err(Cause::Stranger),
        };
    }
    match first_sender(log, before, bytes) {
        Some(entry) => Ok(Some(entry)),
        None => Err(Cause::NeverSent),
    }
}

/// Judges an entry, its station's next one, after these steps.
pub(crate) fn judge<L: ExerciseLog>(
    log: &L,
    before: &[Step],
    place: usize,
    entry: &EntryView<'_>,
) -> PlainJudgement {
    match *entry {
        EntryView::Sent { station, bytes, .. } => match meaning_view(log.exercise(), bytes) {
            Some(pdu) => judge_sent(log, usize::from(station), place, &pdu),
            None => Ok(None),
        },
        EntryView::Received { bytes, .. } => match meaning_view(log.exercise(), bytes) {
            Some(pdu) => judge_received(log, before, bytes, &pdu),
            None => Ok(None),
        },
        EntryView::Told {
            station,
            entity,
            state,
        } if state != state_before(log, usize::from(station), place, entity) => {
            Err(Cause::WrongState)
        }
        EntryView::Told { .. } => Ok(None),
    }
}
