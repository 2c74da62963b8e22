//! The search for a sequence that explains a recording.

use crate::check::taken;
use crate::entries::{entry_at, is_own};
use crate::judge::judge;
use exercise_audit::{Audit, Block};
use exercise_check::{Certificate, NO_LINK, Step};
use exercise_model::{Cause, EntryView, ExerciseLog};
use std::alloc::{AllocError, Global};

/// The next entry of a station after these steps.
fn next_entry<L: ExerciseLog>(log: &L, steps: &[Step], station: usize) -> Option<usize> {
    let done = taken(log, steps, station);
    let mut seen = 0usize;
    for entry in 0..log.entry_count() {
        if is_own(log, station, entry) {
            if seen == done {
                return Some(entry);
            }
            seen = seen.saturating_add(1);
        }
    }
    None
}

/// The next entry of a station after these steps, with its step or the first cause against it.
fn next_step<L: ExerciseLog>(
    log: &L,
    steps: &[Step],
    station: usize,
) -> Option<(usize, Result<Step, Cause>)> {
    let place = next_entry(log, steps, station)?;
    let number = u32::try_from(place).ok()?;
    let step = match judge(log, steps, place, &entry_at(log, place)?) {
        Err(cause) => Err(cause),
        Ok(Some(link)) => Ok(Step {
            place: number,
            link: u32::try_from(link).ok()?,
        }),
        Ok(None) => Ok(Step {
            place: number,
            link: NO_LINK,
        }),
    };
    Some((place, step))
}

/// Adds one step for each station whose next entry can happen.
fn sweep<L: ExerciseLog>(log: &L, steps: &mut Vec<Step>) -> Result<(), AllocError> {
    for station in 0..log.station_count() {
        if let Some((_, Ok(step))) = next_step(log, steps, station) {
            steps.push(step)?;
        }
    }
    Ok(())
}

/// The next entry and the first cause against it, for each station whose next entry cannot happen.
fn blocks<L: ExerciseLog>(
    alloc: Global,
    log: &L,
    steps: &[Step],
) -> Result<Vec<Block>, AllocError> {
    let mut blocks = Vec::new(alloc);
    for station in 0..log.station_count() {
        if let Some((entry, Err(cause))) = next_step(log, steps, station) {
            blocks.push(Block {
                station,
                entry,
                cause,
            })?;
        }
    }
    Ok(blocks)
}

/// The steps that the stations can take, one each in turn, until no station can continue.
pub fn plain_steps<L: ExerciseLog>(alloc: Global, log: &L) -> Result<Vec<Step>, AllocError> {
    let mut steps = Vec::new(alloc);
    // Each sweep adds a step at least, or no later one does.
    for _sweep in 0..log.entry_count() {
        sweep(log, &mut steps)?;
    }
    Ok(steps)
}

/// The stamp of an entry: a state told has that of the nearest entry before it that was sent or
/// received, or 0.
fn stamp_at<L: ExerciseLog>(log: &L, entry: usize) -> u64 {
    let mut last = 0;
    for before in 0..=entry {
        match entry_at(log, before) {
            Some(EntryView::Sent { stamp, .. } | EntryView::Received { stamp, .. }) => last = stamp,
            _ => {}
        }
    }
    last
}

/// The earliest step that a station can take after these: by the stamp of its entry, then by the
/// entry.
fn earliest_step<L: ExerciseLog>(log: &L, steps: &[Step]) -> Option<Step> {
    let mut earliest: Option<(u64, Step)> = None;
    for station in 0..log.station_count() {
        if let Some((entry, Ok(step))) = next_step(log, steps, station) {
            let stamp = stamp_at(log, entry);
            let is_later = match &earliest {
                Some((least, first)) => (*least, first.place) < (stamp, step.place),
                None => false,
            };
            if !is_later {
                earliest = Some((stamp, step));
            }
        }
    }
    Some(earliest?.1)
}

/// The steps of the sequence of time, until no station can continue.
fn timely_steps<L: ExerciseLog>(alloc: Global, log: &L) -> Result<Vec<Step>, AllocError> {
    let mut steps = Vec::new(alloc);
    for _step in 0..log.entry_count() {
        if let Some(step) = earliest_step(log, &steps) {
            steps.push(step)?;
        }
    }
    Ok(steps)
}

/// Searches for a sequence that explains a recording. Finds one exactly if one exists: that of
/// time.
pub fn plain_audit<L: ExerciseLog>(alloc: Global, log: &L) -> Result<Audit, AllocError> {
    let steps = timely_steps(alloc, log)?;
    if steps.len() == log.entry_count() {
        Ok(Audit::Explained(Certificate { steps }))
    } else {
        Ok(Audit::Blocked(blocks(alloc, log, &steps)?))
    }
}
