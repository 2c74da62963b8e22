//! All contradictions of a recording, as one value.

ghost use Rattle.std.specs.Prelude.{◌≡◌, IfOk};
ghost use Rattle.exercise_audit.specs.Audit.{IsBlocked};
ghost use Rattle.exercise_conflict.specs.Whole.{IsConflictOf, IsExplanationOf};

use crate::lacks::{MissingSend, missing_sends};
use crate::repair::{Repair, repair_unexplained};
use crate::way::{Also, Way, cycles_of, further_causes, ways_of};
use exercise_audit::{Audit, Block, Searched, audit, audit_found};
use exercise_check::Certificate;
use exercise_findings::Findings;
use exercise_model::ExerciseLog;
use std::alloc::{AllocError, Global};

/// Why no run explains a recording. Stations are indices in the recording, entries are numbers,
/// both from 0.
pub struct Conflict {
    /// For each station that cannot go on, its next entry and the cause.
    pub blocks: Vec<Block>,
    /// The way of each of these stations, in that order.
    pub ways: Vec<Way>,
    /// Rings of stations that wait for one another, by their lowest station.
    pub cycles: Vec<Vec<usize>>,
    /// Further causes against entries within one log, by rising entries.
    pub also: Vec<Also>,
    /// The missing sends, by rising entries.
    pub lacks: Vec<MissingSend>,
    /// Whether adding these is enough.
    pub repair: Repair,
}

// Not derived, so that a caller that drops it makes one call instead of dropping each field inline.
impl Drop for Conflict {
    fn drop(self) {
        let Conflict {
            blocks: _blocks,
            ways: _ways,
            cycles: _cycles,
            also: _also,
            lacks: _lacks,
            repair: _repair,
        } = self;
    }
}

/// Result of a search for a sequence.
#[derive(Drop)]
pub enum ConflictSearch {
    /// A sequence that explains the recording.
    Explained(Certificate),
    /// No sequence does: the contradictions.
    Contradicted(Conflict),
}

/// The conflict of a recording with this blocked list.
fn contradicted<L: ExerciseLog>(
    alloc: Global,
    findings: &Findings<'_, L>,
    blocks: Vec<Block>,
) -> Result<Conflict, AllocError>
    requires { IsBlocked findings.now blocks.items }
    ensures { IfOk result (IsConflictOf findings.now) }
{
    let ways = ways_of(alloc, findings, &blocks)?;
    let cycles = cycles_of(alloc, findings, &blocks)?;
    let also = further_causes(alloc, findings, &blocks)?;
    let lacks = missing_sends(alloc, findings)?;
    let repair = repair_unexplained(alloc, findings, &lacks)?;
    Ok(Conflict {
        blocks,
        ways,
        cycles,
        also,
        lacks,
        repair,
    })
}

/// Searches for a sequence that explains a recording; if there is none, returns the contradictions.
/// It makes at most two searches: one of the recording, and one of it with the missing sends.
pub fn conflict_of<L: ExerciseLog>(
    alloc: Global,
    findings: &Findings<'_, L>,
) -> Result<ConflictSearch, AllocError>
    ensures { IfOk result (IsExplanationOf findings.now) }
{
    match audit(alloc, findings.log())? {
        Audit::Explained(certificate) => Ok(ConflictSearch::Explained(certificate)),
        Audit::Blocked(blocks) => {
            let conflict = contradicted(alloc, findings, blocks)?;
            Ok(ConflictSearch::Contradicted(conflict))
        }
    }
}

/// Result of a search for a sequence, with the findings of the recording.
#[derive(Drop)]
pub struct ConflictFindings<'a, L: ExerciseLog> {
    /// The result.
    pub explanation: ConflictSearch,
    /// The findings from each station's log about its own entries.
    pub findings: Findings<'a, L>,
}

/// Looks up the sources of all receipts, so that later look-ups are immediate.
fn settle_sources<L: ExerciseLog>(findings: &mut Findings<'_, L>)
    ensures { findings.new ≡ findings.old }
{
    for entry in 0..findings.log().entry_count() {
        findings.settle_source(entry);
    }
}

/// As [`conflict_of`], but with existing findings, which are returned: each datagram is decoded
/// once for the search and the result.
pub fn conflict_found<'a, L: ExerciseLog>(
    alloc: Global,
    findings: Findings<'a, L>,
) -> Result<ConflictFindings<'a, L>, AllocError>
    ensures explanation { IfOk result (λ told. IsExplanationOf findings.entry told.explanation) }
    ensures findings { IfOk result (λ told. told.findings ≡ findings.entry) }
{
    let Searched {
        audit,
        mut findings,
    } = audit_found(alloc, findings)?;
    let explanation = match audit {
        Audit::Explained(certificate) => ConflictSearch::Explained(certificate),
        Audit::Blocked(blocks) => {
            settle_sources(&mut findings);
            ConflictSearch::Contradicted(contradicted(alloc, &findings, blocks)?)
        }
    };
    Ok(ConflictFindings {
        explanation,
        findings,
    })
}
