//! Why a certificate is refused, as one value.

ghost use Rattle.std.specs.Prelude.{◌≡◌, true, is_some, IfOk, IfSome, IfNone};
ghost use Rattle.exercise_check.specs.Goodness.{IsGood, Refuses};
ghost use Rattle.exercise_check.specs.declared.checker.CheckFault.TheVariants.{Bad as FirstBad};
ghost use Rattle.exercise_conflict.specs.Whole.{IsRefusalOf, IsVerdictOf};

use crate::blame::{Blame, fault_found};
use crate::step_clash::StepClash;
use crate::step_clashing::step_clash_of;
use exercise_check::{BadStep, Certificate, CheckResult, check_found};
use exercise_findings::{Account, Findings};
use exercise_model::{Cause, ExerciseLog};
use std::alloc::{AllocError, Global};

/// Why a certificate is refused.
#[derive(Clone, Copy, PartialEq, Eq)]
pub struct Refusal {
    /// The first bad step, from 0; 0 if the numbers of steps and entries differ.
    pub step: usize,
    /// The first cause against it.
    pub cause: Cause,
    /// Its contradiction.
    pub clash: Option<StepClash>,
    /// What is at fault: the certificate if some run explains the recording.
    pub fault: Blame,
}

/// Result of judging a certificate.
#[derive(Drop)]
pub enum Verdict {
    /// The certificate is good; this is the account of the recording.
    Good(Account),
    /// The certificate is refused.
    Bad(Refusal),
}

/// Result of judging a certificate, with the findings of the recording.
#[derive(Drop)]
pub struct Judged<'a, L: ExerciseLog> {
    /// Why it is refused; `None` if it is good.
    pub refusal: Option<Refusal>,
    /// The findings from each station's log about its own entries.
    pub findings: Findings<'a, L>,
}

/// The refusal of a certificate with this first bad step.
fn refusal_of<'a, L: ExerciseLog>(
    alloc: Global,
    findings: Findings<'a, L>,
    certificate: &Certificate,
    bad: BadStep,
) -> Result<Judged<'a, L>, AllocError>
    requires { Refuses findings certificate.now.steps.items (FirstBad bad.step bad.cause) }
    ensures refusal { IfOk result (λ judged. IfSome judged.refusal (IsRefusalOf findings.entry certificate.now.steps.items)) }
    ensures some { IfOk result (λ judged. is_some judged.refusal ≡ true) }
    ensures findings { IfOk result (λ judged. judged.findings ≡ findings.entry) }
{
    let BadStep { step, cause } = bad;
    let clash = step_clash_of(alloc, &findings, certificate, step, cause)?;
    let (fault, findings) = fault_found(alloc, findings)?;
    let refusal = Refusal {
        step,
        cause,
        clash,
        fault,
    };
    Ok(Judged {
        refusal: Some(refusal),
        findings,
    })
}

/// As [`verdict_of`], but with existing findings, which are returned, so that each datagram is
/// decoded once for the check, the search and the result.
pub fn refusal_found<'a, L: ExerciseLog>(
    alloc: Global,
    findings: Findings<'a, L>,
    certificate: &Certificate,
) -> Result<Judged<'a, L>, AllocError>
    ensures refused { IfOk result (λ judged. IfSome judged.refusal (IsRefusalOf findings.entry certificate.now.steps.items)) }
    ensures good { IfOk result (λ judged. IfNone judged.refusal (IsGood findings.entry certificate.now.steps.items)) }
    ensures findings { IfOk result (λ judged. judged.findings ≡ findings.entry) }
{
    let CheckResult { bad, findings } = check_found(alloc, findings, certificate)?;
    match bad {
        Some(bad) => refusal_of(alloc, findings, certificate, bad),
        None => Ok(Judged {
            refusal: None,
            findings,
        }),
    }
}

/// Checks a certificate against the logs of an exercise. If it is not good, returns the
/// contradiction of its first bad step and what is at fault. It makes at most one search, and none
/// if the logs alone rule out a run.
pub fn verdict_of<L: ExerciseLog>(
    alloc: Global,
    log: &L,
    certificate: &Certificate,
) -> Result<Verdict, AllocError>
    ensures { IfOk result (IsVerdictOf (L.recording log.now) certificate.now.steps.items) }
{
    let Judged { refusal, findings } = refusal_found(
        alloc,
        Findings::of(alloc, log)?,
        certificate,
    )?;
    match refusal {
        Some(refusal) => Ok(Verdict::Bad(refusal)),
        None => Ok(Verdict::Good(findings.into_account(alloc)?)),
    }
}
