//! Decides whether some run explains a recording. Mostly the sequence of the entries in the file is
//! such a run, which one pass shows; a search is made only if it is not.

ghost use Rattle.std.specs.Prelude.{◌≡◌, ◌<◌, ◌+◌, true, length, IfOk};
ghost use Rattle.exercise_audit.specs.Audit.{IsAuditOf, IsExplained};
ghost use Rattle.exercise_audit.specs.Written.{IsRunAsWritten, is_sent_before};

use crate::blocks::Audit;
use crate::searched::{Searched, audit_found};
use exercise_findings::Findings;
use exercise_model::{Cause, ExerciseLog};
use std::alloc::{AllocError, Global};

/// Whether an earlier entry sent the datagram that this entry received from a recorded station.
fn is_sent_before<L: ExerciseLog>(findings: &mut Findings<'_, L>, entry: usize) -> bool
    ensures findings { findings.new ≡ findings.old }
    ensures sent { result ≡ is_sent_before findings.old entry }
{
    findings.settle_source(entry);
    match findings.source(entry) {
        Some(source) => (source as usize) < entry,
        None => false,
    }
}

/// Whether an entry is found to be allowed after those before it, which are a run.
#[tactic(auto, using(crate::proofs::Written::alone_follows, crate::proofs::Written::sent_follows))]
fn follows<L: ExerciseLog>(findings: &mut Findings<'_, L>, entry: usize) -> bool
    requires within { entry < length findings.old.entries }
    requires run { IsRunAsWritten findings.old entry }
    ensures findings { findings.new ≡ findings.old }
    ensures run { result ≡ true → IsRunAsWritten findings.old (entry + 1) }
{
    match findings.cause(entry) {
        None => true,
        Some(Cause::NeverSent) => is_sent_before(findings, entry),
        Some(_) => false,
    }
}

/// Whether the entries, in the sequence of the recording, are found to be a run.
fn is_run_as_written<L: ExerciseLog>(findings: &mut Findings<'_, L>) -> bool
    ensures findings { findings.new ≡ findings.old }
    ensures run { result ≡ true → IsRunAsWritten findings.old (length findings.old.entries) }
{
    for entry in 0..findings.log().entry_count() {
        if !follows(findings, entry) {
            return false;
        }
    }
    true
}

/// Whether some run explains a recording, and the findings in it.
#[derive(Drop)]
pub struct Explanation<'a, L: ExerciseLog> {
    /// Whether some run explains the recording.
    pub is_explained: bool,
    /// Findings of each station's log about its own entries.
    pub findings: Findings<'a, L>,
}

/// Whether the result of a search shows that some run explains the recording.
#[tactic(auto, using(crate::proofs::Written::good_explained, crate::proofs::Written::blocked_unexplained))]
fn has_run<L: ExerciseLog>(log: &L, audit: Audit) -> bool
    requires { IsAuditOf (L.recording log.now) audit }
    ensures { IsExplained (L.recording log.now) result }
{
    let _end = log.entry_count();
    match audit {
        Audit::Explained(_) => true,
        Audit::Blocked(_) => false,
    }
}

/// Whether some run explains a recording with these findings, which are returned too. It names no
/// sequence: [`audit_found`] does. It searches only if the entries, in the sequence of the
/// recording, are not a run.
#[tactic(auto, using(crate::proofs::Written::written_explained))]
pub fn explanation_of<'a, L: ExerciseLog>(
    alloc: Global,
    findings: Findings<'a, L>,
) -> Result<Explanation<'a, L>, AllocError>
    ensures explained { IfOk result (λ x. IsExplained findings.entry x.is_explained) }
    ensures findings { IfOk result (λ x. x.findings ≡ findings.entry) }
{
    let mut findings = findings;
    if is_run_as_written(&mut findings) {
        return Ok(Explanation {
            is_explained: true,
            findings,
        });
    }
    let Searched { audit, findings } = audit_found(alloc, findings)?;
    Ok(Explanation {
        is_explained: has_run(findings.log(), audit),
        findings,
    })
}
