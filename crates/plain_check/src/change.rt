//! Acknowledgements of a station under one key, and the changes that its answers make.

use crate::entries::pdu_sent;
use crate::exchange::request_taken_up;
use exercise_model::{AcknowledgeKey, Change, ExerciseLog, key_of, responds, responds_under};
use siman_pdus::{ABLE, PduView};

/// Whether an entry of a station sends an Acknowledge with this response flag under this key.
pub(crate) fn acknowledges<L: ExerciseLog>(
    log: &L,
    station: usize,
    response: u16,
    key: &AcknowledgeKey,
    entry: usize,
) -> bool {
    match pdu_sent(log, station, entry) {
        Some(pdu) => responds_under(response, key, &pdu),
        None => false,
    }
}

/// Whether a station sent, before an entry, an Acknowledge with this response flag under this key.
pub(crate) fn was_acknowledged<L: ExerciseLog>(
    log: &L,
    station: usize,
    before: usize,
    response: u16,
    key: &AcknowledgeKey,
) -> bool {
    for entry in 0..before {
        if acknowledges(log, station, response, key, entry) {
            return true;
        }
    }
    false
}

/// The change that a PDU makes if a station sends it at an entry: it is the first Able under its
/// key, and answers the request that it takes up.
pub(crate) fn change_by<L: ExerciseLog>(
    log: &L,
    station: usize,
    before: usize,
    pdu: &PduView<'_>,
) -> Option<Change> {
    let key = key_of(pdu)?;
    if !responds(ABLE, pdu) || was_acknowledged(log, station, before, ABLE, &key) {
        return None;
    }
    let (_, request) = request_taken_up(log, station, before, pdu)?;
    Change::carried_out(pdu, &request)
}

/// The change that an entry of a station makes.
pub(crate) fn change_made<L: ExerciseLog>(log: &L, station: usize, entry: usize) -> Option<Change> {
    let pdu = pdu_sent(log, station, entry)?;
    change_by(log, station, entry, &pdu)
}
