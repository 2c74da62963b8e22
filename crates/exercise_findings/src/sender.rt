//! Look-up of the recorded station that sent a PDU.

ghost use Rattle.std.specs.Prelude.{◌≡◌, is_some, Some, IfSome};
ghost use Rattle.siman_pdus.specs.Reading.{pdu_of};
ghost use Rattle.exercise_model.specs.Account.{sender_of};
ghost use Rattle.exercise_model.specs.Setting.{is_recorded};

use exercise_model::{ExerciseLog, is_from};
use siman_pdus::{Message, PduView};
use std::alloc::{AllocError, Global};

/// Cache of station indices under a small hash of their addresses. It affects speed alone, never
/// the result.
pub(crate) type StationCache = Vec<u16>;

/// Number of places in the cache.
const PLACES: usize = 1024;

/// The cache place for an address.
fn number_of(site: u16, application: u16) -> usize {
    (usize::from(site) * 64 + usize::from(application)) % PLACES
}

/// Stores a station's index at a place of the cache.
fn keep_place(places: &mut StationCache, number: usize, station: u16) {
    if number < places.len() {
        places[number] = station;
    }
}

/// The cache, filled with the stations of a log.
pub(crate) fn places_of<L: ExerciseLog>(
    alloc: Global,
    log: &L,
) -> Result<StationCache, AllocError> {
    let mut places = vec![in alloc; 0; PLACES]?;
    for station in 0..log.station_count() {
        let address = log.station(station).address();
        let number = number_of(address.site(), address.application());
        keep_place(&mut places, number, station as u16);
    }
    Ok(places)
}

/// The recorded station that sent a PDU, if the cache holds it.
fn sender_at_place<L: ExerciseLog>(log: &L, places: &StationCache, pdu: &PduView<'_>) -> Option<u16>
    ensures { IfSome result (λ station. sender_of (L.recording log.now) (pdu_of pdu.now) ≡ Some station) }
{
    let origin = pdu.origin();
    let Some(place) = places.get(number_of(origin.site, origin.application)) else {
        return None;
    };
    let station = *place;
    if usize::from(station) >= log.station_count() {
        return None;
    }
    if is_from(log.station(usize::from(station)).address(), pdu) {
        Some(station)
    } else {
        None
    }
}

/// The recorded station that sent a PDU; the cache is tried first.
pub(crate) fn sender_of<L: ExerciseLog>(
    log: &L,
    places: &StationCache,
    pdu: &PduView<'_>,
) -> Option<u16>
    ensures sender { result ≡ sender_of (L.recording log.now) (pdu_of pdu.now) }
    ensures recorded { is_some result ≡ is_recorded (L.recording log.now).setting (pdu_of pdu.now) }
{
    match sender_at_place(log, places, pdu) {
        Some(station) => Some(station),
        None => sender_among(log, pdu),
    }
}

/// The recorded station that sent a PDU, searched among all.
fn sender_among<L: ExerciseLog>(log: &L, pdu: &PduView<'_>) -> Option<u16>
    ensures sender { result ≡ sender_of (L.recording log.now) (pdu_of pdu.now) }
    ensures recorded { is_some result ≡ is_recorded (L.recording log.now).setting (pdu_of pdu.now) }
{
    for station in 0..log.station_count() {
        if is_from(log.station(station).address(), pdu) {
            return Some(station as u16);
        }
    }
    None
}
