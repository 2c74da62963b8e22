//! Reads the entries of a recording and the PDUs that they send and receive.

use dis_records::Address;
use exercise_model::{EntryView, ExerciseLog, meaning_view};
use siman_pdus::PduView;

/// The entry with this number; `None` past the last.
pub(crate) fn entry_at<L: ExerciseLog>(log: &L, entry: usize) -> Option<EntryView<'_>> {
    if entry < log.entry_count() {
        Some(log.entry(entry))
    } else {
        None
    }
}

/// Address of a station; `None` past the last.
pub(crate) fn address_of<L: ExerciseLog>(log: &L, station: usize) -> Option<Address> {
    if station < log.station_count() {
        Some(log.station(station).address())
    } else {
        None
    }
}

/// The station of an entry.
pub(crate) fn station_of(entry: &EntryView<'_>) -> usize {
    match entry {
        EntryView::Sent { station, .. }
        | EntryView::Received { station, .. }
        | EntryView::Told { station, .. } => usize::from(*station),
    }
}

/// Whether an entry belongs to a station.
pub(crate) fn is_own<L: ExerciseLog>(log: &L, station: usize, entry: usize) -> bool {
    match entry_at(log, entry) {
        Some(found) => station_of(&found) == station,
        None => false,
    }
}

/// The PDU that an entry of a station sends, unless the datagram is "other".
pub(crate) fn pdu_sent<L: ExerciseLog>(
    log: &L,
    station: usize,
    entry: usize,
) -> Option<PduView<'_>> {
    match entry_at(log, entry)? {
        EntryView::Sent {
            station: at,
            bytes,
            ..
        } if usize::from(at) == station => meaning_view(log.exercise(), bytes),
        _ => None,
    }
}

/// The PDU that an entry of a station receives, unless the datagram is "other".
pub(crate) fn received_by<L: ExerciseLog>(
    log: &L,
    station: usize,
    entry: usize,
) -> Option<PduView<'_>> {
    match entry_at(log, entry)? {
        EntryView::Received {
            station: at,
            bytes,
            ..
        } if usize::from(at) == station => meaning_view(log.exercise(), bytes),
        _ => None,
    }
}

/// The bytes that an entry sends or receives.
pub(crate) fn bytes_at<L: ExerciseLog>(log: &L, entry: usize) -> Option<&[u8]> {
    match entry_at(log, entry)? {
        EntryView::Sent { bytes, .. } | EntryView::Received { bytes, .. } => Some(bytes),
        EntryView::Told { .. } => None,
    }
}

/// The PDU that an entry sends or receives, unless the datagram is "other".
pub(crate) fn pdu_at<L: ExerciseLog>(log: &L, entry: usize) -> Option<PduView<'_>> {
    meaning_view(log.exercise(), bytes_at(log, entry)?)
}
