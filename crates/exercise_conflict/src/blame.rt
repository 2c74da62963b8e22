//! Whether a refused certificate or its recording is at fault.

ghost use Rattle.std.specs.Prelude.{◌≡◌, IfOk, IsTrue};
ghost use Rattle.exercise_model.specs.Recording.{PlainRecording, IsRecording};
ghost use Rattle.exercise_model.specs.History.{History};
ghost use Rattle.exercise_model.specs.Run.{Explains};
ghost use Rattle.exercise_conflict.specs.Wider.{HasFurtherSends};
ghost use Rattle.exercise_conflict.specs.declared.blame.Blame.TheVariants.{Certificate, Recording};

use crate::also::standing_cause;
use exercise_audit::{Audit, Searched, audit, audit_found};
use exercise_findings::Findings;
use exercise_model::ExerciseLog;
use std::alloc::{AllocError, Global};

/// What is at fault if a certificate of a recording is not good.
#[derive(Clone, Copy, PartialEq, Eq)]
pub enum Blame {
    /// The certificate: some run explains the recording.
    Certificate,
    /// The recording: no run explains it.
    Recording,
}

/// Whether some entry has a standing cause against it. If so, no run explains the recording, nor
/// any recording that adds only sends which are no Ables.
pub(crate) fn has_standing_cause<L: ExerciseLog>(findings: &Findings<'_, L>) -> bool
    ensures limits { IsRecording findings.now }
    ensures stays { IsTrue result → (wide : PlainRecording) (h : History) → HasFurtherSends findings.now wide → Explains wide h → ⊥ }
    ensures unexplained { IsTrue result → (h : History) → Explains findings.now h → ⊥ }
{
    for entry in 0..findings.log().entry_count() {
        if standing_cause(findings, entry).is_some() {
            return true;
        }
    }
    false
}

/// What is at fault if a certificate of a recording is not good: the certificate exactly if some
/// run explains the recording. If an entry has a standing cause no run does, and no search is made.
pub fn fault_of<L: ExerciseLog>(
    alloc: Global,
    findings: &Findings<'_, L>,
) -> Result<Blame, AllocError>
    ensures certificate { IfOk result (λ fault. fault ≡ Certificate → (h : History) × Explains findings.now h) }
    ensures recording { IfOk result (λ fault. fault ≡ Recording → (h : History) → Explains findings.now h → ⊥) }
{
    if has_standing_cause(findings) {
        return Ok(Blame::Recording);
    }
    match audit(alloc, findings.log())? {
        Audit::Explained(_) => Ok(Blame::Certificate),
        Audit::Blocked(_) => Ok(Blame::Recording),
    }
}

/// As [`fault_of`], returning the findings too.
pub(crate) fn fault_found<'a, L: ExerciseLog>(
    alloc: Global,
    findings: Findings<'a, L>,
) -> Result<(Blame, Findings<'a, L>), AllocError>
    ensures certificate { IfOk result (λ told. told.0 ≡ Certificate → (h : History) × Explains findings.entry h) }
    ensures recording { IfOk result (λ told. told.0 ≡ Recording → (h : History) → Explains findings.entry h → ⊥) }
    ensures findings { IfOk result (λ told. told.1 ≡ findings.entry) }
{
    if has_standing_cause(&findings) {
        return Ok((Blame::Recording, findings));
    }
    let Searched { audit, findings } = audit_found(alloc, findings)?;
    match audit {
        Audit::Explained(_) => Ok((Blame::Certificate, findings)),
        Audit::Blocked(_) => Ok((Blame::Recording, findings)),
    }
}
