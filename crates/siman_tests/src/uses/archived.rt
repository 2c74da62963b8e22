//! Recordings that were converted, and are judged.

ghost use Rattle.std.specs.Prelude.{IfErr, IfOk, OnOk, ◌≡◌};
ghost use Rattle.exercise_audit.specs.Audit.{IsAuditOf};
ghost use Rattle.exercise_check.specs.Goodness.{IsGood, Refuses};
ghost use Rattle.exercise_model.specs.Conversion.{converted};
ghost use Rattle.exercise_model.specs.declared.form.Form.TheVariants.{First};

use exercise_audit::{Audit, audit, conversion_keeps_searches};
use exercise_check::{Certificate, CheckFault, check, conversion_keeps_checks};
use exercise_findings::Account;
use exercise_model::{ExerciseLog, Recording};
use std::alloc::{AllocError, Global};

/// Checks a certificate, for the recording and for its conversion at once: after a yes its steps
/// are good for the conversion too (`yes`), and after a no they are refused there at that step for
/// that cause (`no`).
pub fn need_no_second_check(
    alloc: Global,
    recording: &Recording,
    certificate: &Certificate,
) -> Result<Account, CheckFault>
    ensures yes { recording.now.setting.form ≡ First → OnOk result (IsGood (converted recording.now) certificate.now.steps.items) }
    ensures no { recording.now.setting.form ≡ First → IfErr result (Refuses (converted recording.now) certificate.now.steps.items) }
{
    conversion_keeps_checks();
    check(alloc, recording, certificate)
}

/// Searches a recording, and its conversion at once: the result is valid for both.
pub fn need_no_second_search(alloc: Global, recording: &Recording) -> Result<Audit, AllocError>
    ensures { recording.now.setting.form ≡ First → IfOk result (IsAuditOf (converted recording.now)) }
{
    conversion_keeps_searches();
    audit(alloc, recording)
}
