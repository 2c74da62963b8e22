//! Result of a search: the sequence of time, or the blocks of the stations that cannot go on.

ghost use Rattle.std.specs.Prelude.{◌≡◌, IfOk};
ghost use Rattle.exercise_audit.specs.Audit.{IsAuditOf};

use crate::blocks::Audit;
use crate::longest::{FoundRun, LongestRun, run_found};
use exercise_findings::Findings;
use exercise_model::ExerciseLog;
use std::alloc::{AllocError, Global};

/// Result of a search, with the findings in the log.
#[derive(Drop)]
pub struct Searched<'a, L: ExerciseLog> {
    /// Result of the search.
    pub audit: Audit,
    /// Findings of each station's log about its own entries.
    pub findings: Findings<'a, L>,
}

/// Like [`audit`], with findings that were made before; returns them.
pub fn audit_found<'a, L: ExerciseLog>(
    alloc: Global,
    findings: Findings<'a, L>,
) -> Result<Searched<'a, L>, AllocError>
    ensures audit { IfOk result (λ searched. IsAuditOf findings.entry searched.audit) }
    ensures findings { IfOk result (λ searched. searched.findings ≡ findings.entry) }
{
    let FoundRun { run, findings } = run_found(alloc, findings)?;
    let LongestRun {
        certificate,
        blocks,
    } = run;
    let audit = if blocks.is_empty() {
        Audit::Explained(certificate)
    } else {
        Audit::Blocked(blocks)
    };
    Ok(Searched { audit, findings })
}

/// Searches for a sequence of the entries that explains a recording. Finds a certificate, which the
/// checker accepts, exactly if some sequence explains it; otherwise returns, for each station that
/// has entries left when no station can go on, its next entry and the first cause that holds there.
/// The certificate has the sequence of time: of the entries that may happen next, the one with the
/// least stamp, and among equal stamps with the least number, happens. A told state has the stamp
/// of the nearest sent or received entry before it in the recording, 0 if there is none.
pub fn audit<L: ExerciseLog>(alloc: Global, log: &L) -> Result<Audit, AllocError>
    ensures { IfOk result (IsAuditOf (L.recording log.now)) }
{
    let Searched { audit, .. } = audit_found(alloc, Findings::of(alloc, log)?)?;
    Ok(audit)
}
