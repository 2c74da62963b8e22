//! Entries that are taken as the recording has them, while each may happen: where stamps never fall,
//! they begin the sequence of time.

ghost use Rattle.std.specs.Prelude.{◌≡◌, ◌<◌, length, true, false, nat_lt, Some, None, [], OnOk, if◌then◌else◌};
ghost use Rattle.exercise_model.specs.Held.{shown};
ghost use Rattle.exercise_model.specs.Stamps.{stamp_past};
ghost use Rattle.exercise_check.specs.Course.{IsCourse, begun};
ghost use Rattle.exercise_audit.specs.Time.{IsTimely, StampsNeverFall};
ghost use Rattle.exercise_audit.specs.Search.{TookAsWritten};

use exercise_check::{Course, Progress};
use exercise_model::{EntryView, ExerciseLog};
use std::alloc::{AllocError, Global};

/// Nearest stamp once an entry is passed, where it was `last` before; `None` if it falls there.
fn risen(last: u64, entry: EntryView<'_>) -> Option<u64>
    ensures { result ≡ (if nat_lt (stamp_past last (shown entry.entry)) last then None else Some (stamp_past last (shown entry.entry))) }
{
    match entry {
        EntryView::Sent { stamp, .. } | EntryView::Received { stamp, .. } => {
            if stamp < last { None } else { Some(stamp) }
        }
        EntryView::Told { .. } => Some(last),
    }
}

/// Whether stamps never fall from one entry of a recording to a later one.
fn stamps_never_fall<L: ExerciseLog>(log: &L) -> bool
    ensures never { result ≡ true → StampsNeverFall (L.recording log.now) }
    ensures fall { result ≡ false → StampsNeverFall (L.recording log.now) → ⊥ }
{
    let mut last = 0;
    for entry in 0..log.entry_count() {
        match risen(last, log.entry(entry)) {
            Some(stamp) => last = stamp,
            None => return false,
        }
    }
    true
}

/// Takes entries as the recording has them, up to the first one that may not happen then.
fn take_as_written<L: ExerciseLog>(
    alloc: Global,
    course: &mut Course<'_, L>,
    entries: usize,
) -> Result<(), AllocError>
    requires begun { course.old.steps ≡ [] }
    requires course { IsCourse course.old }
    requires count { entries ≡ length course.old.recording.entries }
    requires rising { StampsNeverFall course.old.recording }
    ensures recording { course.new.recording ≡ course.old.recording }
    ensures taken { OnOk result (TookAsWritten course.new) }
{
    for entry in 0..entries {
        match course.go_on(alloc, entry)? {
            Progress::Taken(_) => (),
            Progress::Barred(_) => return Ok(()),
        }
    }
    Ok(())
}

/// Begins a search: where stamps never fall, takes entries as the recording has them, up to the
/// first one that may not happen then; else takes none.
pub(crate) fn take_first_entries<L: ExerciseLog>(
    alloc: Global,
    log: &L,
    course: &mut Course<'_, L>,
) -> Result<(), AllocError>
    requires { course.old ≡ begun (L.recording log.now) }
    ensures recording { course.new.recording ≡ course.old.recording }
    ensures course { OnOk result (IsCourse course.new) }
    ensures timely { OnOk result (IsTimely course.new.recording course.new.steps) }
    ensures taken { OnOk result (StampsNeverFall course.old.recording → TookAsWritten course.new) }
    ensures none { OnOk result ((StampsNeverFall course.old.recording → ⊥) → course.new ≡ course.old) }
{
    let entries = log.entry_count();
    if stamps_never_fall(log) {
        take_as_written(alloc, course, entries)?;
    }
    Ok(())
}
