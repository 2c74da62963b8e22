//! The request that an answer takes up.

use crate::entries::{address_of, received_by};
use exercise_model::{ExerciseLog, is_asked};
use siman_pdus::PduView;

/// The request that an answer of a station takes up, with its entry: the first matching request
/// that the station received before an entry.
pub(crate) fn request_taken_up<'a, L: ExerciseLog>(
    log: &'a L,
    station: usize,
    before: usize,
    answer: &PduView<'_>,
) -> Option<(usize, PduView<'a>)> {
    let address = address_of(log, station)?;
    for entry in 0..before {
        if let Some(request) = received_by(log, station, entry) {
            if is_asked(address, answer, &request) {
                return Some((entry, request));
            }
        }
    }
    None
}
