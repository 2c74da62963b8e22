//! Sources of received datagrams, receipts of sent ones, and sends that no log has.

use crate::entries::entry_at;
use crate::exchange::request_taken_up;
use crate::judge::sender_of;
use exercise_model::{EntryView, ExerciseLog, is_answer, meaning_view};
use exercise_review::Missing;

/// The first entry at which a station sends these bytes.
fn first_send<L: ExerciseLog>(log: &L, sender: usize, datagram: &[u8]) -> Option<usize> {
    for entry in 0..log.entry_count() {
        match entry_at(log, entry) {
            Some(EntryView::Sent { station, bytes, .. })
                if usize::from(station) == sender && bytes == datagram => {
                return Some(entry);
            }
            _ => {}
        }
    }
    None
}

/// The bytes that an entry receives.
fn bytes_received<L: ExerciseLog>(log: &L, entry: usize) -> Option<&[u8]> {
    match entry_at(log, entry)? {
        EntryView::Received { bytes, .. } => Some(bytes),
        EntryView::Sent { .. } | EntryView::Told { .. } => None,
    }
}

/// For a datagram received from a recorded station, the first entry of that station that sends
/// these bytes.
pub fn plain_source<L: ExerciseLog>(log: &L, entry: usize) -> Option<usize> {
    let bytes = bytes_received(log, entry)?;
    let sender = sender_of(log, &meaning_view(log.exercise(), bytes)?)?;
    first_send(log, sender, bytes)
}

/// Number of entries that have an entry as their source.
pub fn plain_receipts<L: ExerciseLog>(log: &L, entry: usize) -> usize {
    let mut count = 0usize;
    for other in 0..log.entry_count() {
        if plain_source(log, other) == Some(entry) {
            count = count.saturating_add(1);
        }
    }
    count
}

/// Whether any entry before this one receives these bytes.
fn is_received_before<L: ExerciseLog>(log: &L, before: usize, datagram: &[u8]) -> bool {
    for entry in 0..before {
        if bytes_received(log, entry) == Some(datagram) {
            return true;
        }
    }
    false
}

/// The missing send that an entry reveals: the entry is the first to receive a datagram of a
/// recorded station that this station does not send.
pub fn plain_missing<L: ExerciseLog>(log: &L, entry: usize) -> Option<Missing> {
    let bytes = bytes_received(log, entry)?;
    let pdu = meaning_view(log.exercise(), bytes)?;
    let sender = sender_of(log, &pdu)?;
    if is_received_before(log, entry, bytes) || first_send(log, sender, bytes).is_some() {
        return None;
    }
    let after = if is_answer(&pdu) {
        match request_taken_up(log, sender, log.entry_count(), &pdu) {
            Some((request, _)) => Some(request),
            None => None,
        }
    } else {
        None
    };
    Some(Missing {
        sender: u16::try_from(sender).ok()?,
        after,
    })
}
