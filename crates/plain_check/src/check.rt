//! The checker of certificates.

use crate::entries::{entry_at, is_own, station_of};
use crate::judge::judge;
use exercise_check::{Certificate, CheckFault, NO_LINK, Step};
use exercise_model::{Cause, ExerciseLog};

/// Number of these steps that name an entry of a station.
pub(crate) fn taken<L: ExerciseLog>(log: &L, steps: &[Step], station: usize) -> usize {
    let mut count = 0usize;
    for step in steps {
        if is_own(log, station, step.place as usize) {
            count = count.saturating_add(1);
        }
    }
    count
}

/// Number of a station's entries before an entry.
pub(crate) fn entries_before<L: ExerciseLog>(log: &L, station: usize, before: usize) -> usize {
    let mut count = 0usize;
    for entry in 0..before {
        if is_own(log, station, entry) {
            count = count.saturating_add(1);
        }
    }
    count
}

/// The first cause against a step, given the steps before it.
fn step_cause<L: ExerciseLog>(log: &L, before: &[Step], step: Step) -> Option<Cause> {
    let place = step.place as usize;
    let Some(entry) = entry_at(log, place) else {
        return Some(Cause::NoSuchRecord);
    };
    let station = station_of(&entry);
    if taken(log, before, station) != entries_before(log, station, place) {
        return Some(Cause::OutOfOrder);
    }
    let is_linked = match judge(log, before, place, &entry) {
        Err(cause) => return Some(cause),
        Ok(Some(link)) => step.link as usize == link,
        Ok(None) => step.link == NO_LINK,
    };
    if is_linked {
        None
    } else {
        Some(Cause::BadLink)
    }
}

/// Checks a certificate against the logs of an exercise. Returns the first bad step with the first
/// cause that holds there. Allocates no memory, and never returns `Memory`.
pub fn plain_check<L: ExerciseLog>(log: &L, certificate: &Certificate) -> Result<(), CheckFault> {
    let steps = certificate.steps.as_slice();
    if steps.len() != log.entry_count() {
        return Err(CheckFault::Bad {
            step: 0,
            cause: Cause::CountDiffers,
        });
    }
    for i in 0..steps.len() {
        if let Some(cause) = step_cause(log, &steps[..i], steps[i]) {
            return Err(CheckFault::Bad { step: i, cause });
        }
    }
    Ok(())
}
