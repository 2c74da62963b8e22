//! Reports on a recording, computed from each station's log alone.

use crate::change::{acknowledges, change_made};
use crate::entries::entry_at;
use crate::exchange::request_taken_up;
use crate::judge::sender_of;
use crate::state::opening_state;
use dis_records::EntityState;
use exercise_model::{
    AcknowledgeKey, Change, EntryView, ExerciseLog, is_answer, key_of, meaning_view, responds,
};
use siman_pdus::ABLE;
use std::alloc::{AllocError, Global};

/// For a sent answer, the entry of the request that it takes up.
pub fn plain_pair<L: ExerciseLog>(log: &L, entry: usize) -> Option<usize> {
    let EntryView::Sent { station, bytes, .. } = entry_at(log, entry)? else {
        return None;
    };
    let pdu = meaning_view(log.exercise(), bytes)?;
    if !is_answer(&pdu) {
        return None;
    }
    let (request, _) = request_taken_up(log, usize::from(station), entry, &pdu)?;
    Some(request)
}

/// The entry of the first Able that a station sends under a key.
fn first_able<L: ExerciseLog>(log: &L, key: &AcknowledgeKey, station: usize) -> Option<usize> {
    for entry in 0..log.entry_count() {
        if acknowledges(log, station, ABLE, key, entry) {
            return Some(entry);
        }
    }
    None
}

/// For a received Able, the entry of the first Able that its sender sent under its key.
pub fn plain_cause<L: ExerciseLog>(log: &L, entry: usize) -> Option<usize> {
    let EntryView::Received { bytes, .. } = entry_at(log, entry)? else {
        return None;
    };
    let pdu = meaning_view(log.exercise(), bytes)?;
    let key = key_of(&pdu)?;
    if !responds(ABLE, &pdu) {
        return None;
    }
    first_able(log, &key, sender_of(log, &pdu)?)
}

/// Whether an entry has a datagram that is "other".
fn is_other<L: ExerciseLog>(log: &L, entry: usize) -> bool {
    match entry_at(log, entry) {
        Some(EntryView::Sent { bytes, .. } | EntryView::Received { bytes, .. }) => {
            meaning_view(log.exercise(), bytes).is_none()
        }
        _ => false,
    }
}

/// Number of datagrams that are "other".
pub fn plain_others<L: ExerciseLog>(log: &L) -> u32 {
    let mut others = 0u32;
    for entry in 0..log.entry_count() {
        if is_other(log, entry) {
            others = others.saturating_add(1);
        }
    }
    others
}

/// The changes of a station with their entries, in order.
pub(crate) fn changes<L: ExerciseLog>(
    alloc: Global,
    log: &L,
    station: usize,
) -> Result<Vec<(usize, Change)>, AllocError> {
    let mut changes = Vec::new(alloc);
    for entry in 0..log.entry_count() {
        if let Some(change) = change_made(log, station, entry) {
            changes.push((entry, change))?;
        }
    }
    Ok(changes)
}

/// The entities of a station in `1..=most` that are not Absent after its log, with their states, by
/// rising number.
pub fn plain_states<L: ExerciseLog>(
    alloc: Global,
    log: &L,
    station: usize,
    most: u16,
) -> Result<Vec<(u16, EntityState)>, AllocError> {
    let changes = changes(alloc, log, station)?;
    let mut entities = Vec::new(alloc);
    for entity in 1..=most {
        let mut state = opening_state(log, station, entity);
        for (_, change) in &changes {
            state = change.changed(entity, state);
        }
        if state != EntityState::Absent {
            entities.push((entity, state))?;
        }
    }
    Ok(entities)
}
