//! Recordings with a changed state, and spoilt certificates.

use crate::input::RandomInput;
use crate::random::Random;
use exercise_model::{EntryView, ExerciseLog, Form};
use exercise_recording::RecordingView;
use std::alloc::{AllocError, Global};

/// Offset of the first entry in the file of a recording.
fn first_entry<L: ExerciseLog>(log: &L) -> usize {
    let mut place = match log.form() {
        Form::First => 11usize,
        Form::Closed | Form::Open => 12,
    };
    for i in 0..log.station_count() {
        let opening = log.station(i).opening().len();
        place = place
            .saturating_add(opening.saturating_mul(3))
            .saturating_add(6);
    }
    place
}

/// Offset in the file of a recording of the state in a random told entry; `None` if there is no
/// such entry.
fn told_state<L: ExerciseLog>(log: &L, random: &mut Random) -> Option<usize> {
    let mut place = first_entry(log);
    let (mut told, mut found) = (0usize, None);
    for i in 0..log.entry_count() {
        place = match log.entry(i) {
            EntryView::Sent { bytes, .. } | EntryView::Received { bytes, .. } => {
                place.saturating_add(13).saturating_add(bytes.len())
            }
            EntryView::Told { .. } => {
                told = told.saturating_add(1);
                if random.one_in(told) {
                    found = Some(place.saturating_add(5));
                }
                place.saturating_add(6)
            }
        };
    }
    found
}

/// Offset in a file of the state in a random told entry; `None` if there is no such entry, or the
/// file is no recording.
fn state_place(alloc: Global, random: &mut Random, bytes: &[u8]) -> Option<usize> {
    match RecordingView::over(alloc, bytes) {
        Ok(log) => told_state(&log, random),
        Err(_) => None,
    }
}

/// Replaces the state at a place by another one; a byte that is no state stays.
fn change_state(bytes: &mut [u8], place: usize, more: u8) {
    if let Some(state) = bytes.get_mut(place) {
        if *state < 3 {
            *state = (*state % 3).saturating_add(more) % 3;
        }
    }
}

/// A copy of a recording in which the state of a random told entry is another one; `None` if there
/// is no such entry.
pub fn with_other_state(
    alloc: Global,
    random: &mut Random,
    recording: &[u8],
) -> Result<Option<Vec<u8>>, AllocError> {
    let more = if random.one_in(2) { 1 } else { 2 };
    let Some(place) = state_place(alloc, random, recording) else {
        return Ok(None);
    };
    let mut copy = Vec::from_slice(alloc, recording)?;
    change_state(&mut copy, place, more);
    Ok(Some(copy))
}

/// Swaps two neighbouring steps of a certificate, chosen at random.
fn swap_steps(random: &mut Random, bytes: &mut Vec<u8>) {
    let steps = bytes.len().saturating_sub(12) / 8;
    let first = random.below(steps.saturating_sub(1));
    let start = first.saturating_mul(8).saturating_add(12);
    for i in 0..8usize {
        let (one, other) = (
            start.saturating_add(i),
            start.saturating_add(i).saturating_add(8),
        );
        if one < bytes.len() && other < bytes.len() {
            bytes.swap(one, other);
        }
    }
}

/// Spoils the certificate in the input, or swaps two of its steps.
pub fn spoil_certificate(input: &mut RandomInput) {
    if input.random.one_in(2) {
        swap_steps(&mut input.random, &mut input.bytes);
    } else {
        let ways = input.random.below(2).saturating_add(1);
        input.spoil(ways);
    }
}
