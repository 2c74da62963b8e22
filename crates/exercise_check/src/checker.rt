//! The checker of certificates: judges their steps one after the other.

ghost use Rattle.std.specs.Prelude.{◌≡◌, ◌≢◌, ◌<◌, ◌+◌, [], length, take, OnOk, IfOk, IfSome, IfNone, IfErr, Err};
ghost use Rattle.exercise_model.specs.Run.{Explains};
ghost use Rattle.exercise_model.specs.Headline.{Holds};
ghost use Rattle.exercise_model.specs.Alike.{IsAlwaysAsSaid};
ghost use Rattle.exercise_check.specs.Sequence.{sequence_of};
ghost use Rattle.exercise_check.specs.Goodness.{cause_at, IsGood, Refuses};
ghost use Rattle.exercise_check.specs.Judging.{Keeps};
ghost use Rattle.exercise_findings.specs.Account.{IsAccount};
ghost use Rattle.exercise_check.specs.Checked.{HasKnowledge, HasPairs};

use crate::certificate::{Certificate, Step};
use crate::cursors::{Cursors, first_cursors, is_next, pass};
use crate::judgement::{Judgement, judge};
use crate::number::link_number;
use exercise_findings::{Account, Findings};
use exercise_model::{Cause, ExerciseLog};
use std::alloc::{AllocError, Global};
use std::error::Error;
use std::fmt;

/// Why a certificate was refused.
#[derive(Clone, Copy, Debug, PartialEq, Eq)]
pub enum CheckFault {
    /// The first bad step, from 0, and the first cause that holds there. If the numbers of steps
    /// and entries differ, it is step 0 with CountDiffers.
    Bad { step: usize, cause: Cause },
    /// There is no memory to judge the certificate.
    Memory,
}

/// `no step=N cause=N NAME`, or `memory`.
impl fmt::Display for CheckFault {
    ghost use Rattle.std.specs.Prelude.{Some};
    ghost use Rattle.exercise_check.specs.FaultText.{check_fault_text};

    ghost output = { λ fault. Some (check_fault_text fault) };

    fn fmt<W: fmt::Write>(&self, f: &mut fmt::Formatter<W>) -> fmt::Result {
        match self {
            CheckFault::Bad { step, cause } => {
                write!(f, "no step={step} cause={} {cause}", cause.number())
            }
            CheckFault::Memory => write!(f, "memory"),
        }
    }
}

impl Error for CheckFault {}

impl From<AllocError> for CheckFault {
    ghost use Rattle.std.specs.Prelude.{◌≡◌};
    ghost use Rattle.exercise_check.specs.declared.checker.CheckFault.TheVariants.{Memory};

    ghost from_gives = { λ _ e. e ≡ Memory };

    fn from(_e: AllocError) -> CheckFault {
        CheckFault::Memory
    }
}

/// Takes the step at index `at`, once all steps before it are taken. Returns the first cause
/// against it, or `None` if it is good and taken. Takes no memory.
fn take_step<L: ExerciseLog>(
    found: &mut Findings<'_, L>,
    cursors: &mut Cursors,
    steps: &[Step],
    at: usize,
) -> Option<Cause>
    requires within { at < length steps.now }
    requires kept { Keeps found.old (take at steps.now) cursors.old }
    ensures cause { result ≡ cause_at found.old steps.now at }
    ensures kept { IfNone result (Keeps found.old (take (at + 1) steps.now) cursors.new) }
    ensures findings { found.new ≡ found.old }
{
    let step = steps[at];
    let place = step.place as usize;
    if place >= found.log().entry_count() {
        return Some(Cause::NoSuchRecord);
    }
    if !is_next(found.log(), cursors, place) {
        return Some(Cause::OutOfOrder);
    }
    found.settle_source(place);
    match judge(found, cursors, place) {
        Judgement::Forbidden(cause) => Some(cause),
        Judgement::Allowed(link) if link_number(link) == step.link => {
            pass(cursors, found.log(), place);
            None
        }
        Judgement::Allowed(_) => Some(Cause::BadLink),
    }
}

/// Takes the steps of a certificate up to the first bad one, which is returned.
fn take_steps<L: ExerciseLog>(
    found: &mut Findings<'_, L>,
    cursors: &mut Cursors,
    steps: &[Step],
) -> Option<BadStep>
    requires begun { Keeps found.old [] cursors.old }
    requires count { length steps.now ≡ length found.old.entries }
    ensures good { IfNone result (IsGood found.old steps.now) }
    ensures bad { IfSome result (λ bad. Refuses found.old steps.now (CheckFault.Bad bad.step bad.cause)) }
    ensures findings { found.new ≡ found.old }
{
    for i in 0..steps.len() {
        if let Some(cause) = take_step(found, cursors, steps, i) {
            return Some(BadStep { step: i, cause });
        }
    }
    None
}

/// Checks a certificate against the logs of an exercise.
///
/// A yes means that the certificate's sequence is a run that explains the recording: each station
/// did exactly what its log holds. By the clause `knowledge`, each Able received from a recorded
/// station then shows what its sender had done before; by `said`, the reported account holds in
/// every run that explains the recording. By `only`, a good certificate is refused only for want of
/// memory.
///
/// A no is the first bad step and the first cause that holds there. Cause 1 is tested first, for
/// the whole certificate, and reported at step 0; then for each step 2 and 3 for its entry, 5 to 13
/// for its event, and 4 for its link. Returns Memory if there is none for the findings in the log,
/// for the table of each station's next entries, or for the account. Taking the steps needs none,
/// and datagrams are read in place.
pub fn check<L: ExerciseLog>(
    alloc: Global,
    log: &L,
    certificate: &Certificate,
) -> Result<Account, CheckFault>
    ensures good { OnOk result (IsGood (L.recording log.now) certificate.now.steps.items) }
    ensures explains { let r = L.recording log.now in OnOk result (Explains r (sequence_of r certificate.now.steps.items)) }
    ensures holds { let r = L.recording log.now in OnOk result (Holds r (sequence_of r certificate.now.steps.items)) }
    ensures account { IfOk result (λ checked. IsAccount (L.recording log.now) checked) }
    ensures knowledge { let r = L.recording log.now in IfOk result (λ checked. HasKnowledge r (sequence_of r certificate.now.steps.items) checked) }
    ensures answers { let r = L.recording log.now in IfOk result (λ checked. HasPairs r (sequence_of r certificate.now.steps.items) checked) }
    ensures said { OnOk result (IsAlwaysAsSaid (L.recording log.now)) }
    ensures bad { IfErr result (Refuses (L.recording log.now) certificate.now.steps.items) }
    ensures only { IsGood (L.recording log.now) certificate.now.steps.items → IfErr result (λ fault. fault ≡ CheckFault.Memory) }
    ensures count { length certificate.now.steps.items ≢ length (L.recording log.now).entries → result ≡ Err (CheckFault.Bad 0 Cause.CountDiffers) }
{
    let steps = certificate.steps.as_slice();
    let entries = log.entry_count();
    if steps.len() != entries {
        return Err(CheckFault::Bad {
            step: 0,
            cause: Cause::CountDiffers,
        });
    }
    let mut found = Findings::of(alloc, log)?;
    let mut cursors = first_cursors(alloc, log)?;
    let bad = take_steps(&mut found, &mut cursors, steps);
    drop(cursors);
    match bad {
        None => Ok(found.into_account(alloc)?),
        Some(BadStep { step, cause }) => Err(CheckFault::Bad { step, cause }),
    }
}

/// A bad step of a certificate.
#[derive(Clone, Copy)]
pub struct BadStep {
    /// Number of the step, from 0.
    pub step: usize,
    /// First cause that holds against it.
    pub cause: Cause,
}

/// Result of a check, with the findings in the log.
#[derive(Drop)]
pub struct CheckResult<'a, L: ExerciseLog> {
    /// First bad step; `None` if the certificate is good.
    pub bad: Option<BadStep>,
    /// Findings of each station's log about its own entries.
    pub findings: Findings<'a, L>,
}

/// Like [`check`], with findings that were made before; returns them.
pub fn check_found<'a, L: ExerciseLog>(
    alloc: Global,
    findings: Findings<'a, L>,
    certificate: &Certificate,
) -> Result<CheckResult<'a, L>, AllocError>
    ensures good { IfOk result (λ stepped. IfNone stepped.bad (IsGood findings.entry certificate.now.steps.items)) }
    ensures bad { IfOk result (λ stepped. IfSome stepped.bad (λ bad. Refuses findings.entry certificate.now.steps.items (CheckFault.Bad bad.step bad.cause))) }
    ensures findings { IfOk result (λ stepped. stepped.findings ≡ findings.entry) }
{
    let steps = certificate.steps.as_slice();
    let entries = findings.log().entry_count();
    if entries != steps.len() {
        let bad = BadStep {
            step: 0,
            cause: Cause::CountDiffers,
        };
        return Ok(CheckResult {
            bad: Some(bad),
            findings,
        });
    }
    let mut findings = findings;
    let mut cursors = first_cursors(alloc, findings.log())?;
    let bad = take_steps(&mut findings, &mut cursors, steps);
    Ok(CheckResult { bad, findings })
}
