//! Recordings that are searched again.

ghost use Rattle.std.specs.Prelude.{IfOk};
ghost use Rattle.exercise_audit.specs.Time.{IsTimely};
ghost use Rattle.exercise_check.specs.Goodness.{IsGood};
ghost use Rattle.siman_tests.specs.SearchedAgain.{IsFoundAgain};

use exercise_audit::{Audit, audit, time_determines_sequences};
use exercise_check::Certificate;
use exercise_model::{ExerciseLog, Recording};
use std::alloc::{AllocError, Global};

/// Searches a recording again, of which a certificate in the sequence of time is there: the same
/// steps are found.
pub fn is_found_again(
    alloc: Global,
    recording: &Recording,
    found: &Certificate,
) -> Result<Audit, AllocError>
    requires good { IsGood recording.now found.now.steps.items }
    requires timely { IsTimely recording.now found.now.steps.items }
    ensures { IfOk result (IsFoundAgain found.now.steps.items) }
{
    let _entries = recording.entry_count();
    time_determines_sequences();
    audit(alloc, recording)
}
