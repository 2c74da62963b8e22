//! Whether all ways to read a datagram, or the file of a recording, agree.

use exercise_model::{ExerciseLog, Station};
use exercise_recording::{RecordingView, read_recording};
use siman_pdus::{Pdu, PduFault, decode, encode, encoded_size, view};
use std::alloc::Global;

/// Whether a PDU was read, and equals this one.
fn is_same<E: Drop>(read: Result<Pdu, E>, pdu: &Pdu) -> bool {
    match read {
        Ok(read) => read == *pdu,
        Err(_) => false,
    }
}

/// Whether the encoding of a PDU has the size of [`encoded_size`] and decodes to this PDU.
fn is_written_back(alloc: Global, pdu: &Pdu) -> bool {
    let size = match encoded_size(pdu) {
        Some(size) => usize::from(size),
        None => return false,
    };
    let mut text = Vec::new(alloc);
    encode(pdu, &mut text).is_ok() && size == text.len() && is_same(decode(alloc, &text), pdu)
}

/// Whether all ways to read a datagram agree, and whether they read a PDU, which must also survive
/// encoding, copying and viewing in place.
pub fn datagram_readings(alloc: Global, bytes: &[u8]) -> (bool, bool) {
    match (&decode(alloc, bytes), &view(bytes)) {
        (Ok(pdu), Ok(shown)) => {
            let is_copied = is_same(pdu.copy(alloc), pdu) && is_same(shown.to_pdu(alloc), pdu);
            (is_copied && is_written_back(alloc, pdu), true)
        }
        (Err(fault), Err(seen)) => (*fault == PduFault::from(*seen), false),
        _ => (false, false),
    }
}

/// Whether two stations have equal addresses and equal opening entities.
fn are_same(one: &Station, other: &Station) -> bool {
    one.address() == other.address() && one.opening() == other.opening()
}

/// Whether two logs have equal heads, stations and entries.
fn are_alike<L: ExerciseLog, M: ExerciseLog>(one: &L, other: &M) -> bool {
    for i in 0..one.station_count() {
        if i >= other.station_count() || !are_same(one.station(i), other.station(i)) {
            return false;
        }
    }
    for i in 0..one.entry_count() {
        if i >= other.entry_count() || one.entry(i) != other.entry(i) {
            return false;
        }
    }
    let counts = one.station_count() == other.station_count();
    let heads = one.form() == other.form() && one.exercise() == other.exercise();
    counts && heads && one.entry_count() == other.entry_count()
}

/// Whether both ways to read a file agree, and whether it is a recording.
pub fn recording_readings(alloc: Global, bytes: &[u8]) -> (bool, bool) {
    let read = read_recording(alloc, bytes, u64::MAX);
    match (&read, &RecordingView::over(alloc, bytes)) {
        (Ok(read), Ok(seen)) => (are_alike(read, seen), true),
        (Err(fault), Err(seen)) => (fault == seen, false),
        _ => (false, read.is_ok()),
    }
}
