//! Calls on a recording that no sequence explains.

use crate::call::{LibraryCall, Said, refused, usual};
use exercise_audit::{Audit, Block, audit};
use exercise_check::Certificate;
use exercise_conflict::{
    Blame, Conflict, ConflictSearch, Enough, MissingSend, Refusal, Repair, RepairedLog, StepClash,
    Verdict, Wait, conflict_found, conflict_of, cycle_at, fault_of, missing_sends, refusal_found,
    repair_of, verdict_of, waits_of,
};
use exercise_findings::Findings;
use exercise_model::{Cause, ExerciseLog, Recording};
use exercise_review::Missing;
use std::alloc::{AllocError, Global};

/// 1:1 and 2:3 each receive a comment of the other before they send one, and 1:1 receives one more
/// that 2:3 never sent.
pub(crate) const RING: [u8; 253] = [
    68, 83, 82, 67, 48, 48, 48, 49, 1, 0, 2, 0, 1, 0, 1, 0, 0, 0, 2, 0, 3, 0, 0, 2, 0, 0, 0, 0, 0,
    0, 0, 0, 0, 0, 0, 32, 7, 1, 22, 5, 0, 0, 0, 0, 0, 32, 0, 0, 0, 2, 0, 3, 0, 0, 0, 1, 0, 1, 0, 0,
    0, 0, 0, 0, 0, 0, 0, 0, 1, 0, 0, 0, 0, 0, 0, 0, 0, 0, 0, 0, 32, 7, 1, 22, 5, 0, 0, 0, 0, 0, 32,
    0, 0, 0, 1, 0, 1, 0, 0, 0, 2, 0, 3, 0, 0, 0, 0, 0, 0, 0, 0, 0, 0, 2, 0, 1, 0, 0, 0, 0, 0, 0, 0,
    0, 0, 32, 7, 1, 22, 5, 0, 0, 0, 0, 0, 32, 0, 0, 0, 1, 0, 1, 0, 0, 0, 2, 0, 3, 0, 0, 0, 0, 0, 0,
    0, 0, 0, 0, 1, 0, 1, 0, 0, 0, 0, 0, 0, 0, 0, 0, 32, 7, 1, 22, 5, 0, 0, 0, 0, 0, 32, 0, 0, 0, 2,
    0, 3, 0, 0, 0, 1, 0, 1, 0, 0, 0, 0, 0, 0, 0, 0, 0, 0, 2, 0, 0, 0, 0, 0, 0, 0, 0, 0, 0, 0, 32,
    7, 1, 22, 5, 0, 0, 0, 0, 0, 32, 0, 0, 0, 2, 0, 3, 0, 5, 0, 1, 0, 1, 0, 0, 0, 0, 0, 0, 0, 0, 0,
    0, 0, 0, 0, 0, 5,
];

/// Computes every part of the conflict of that recording.
pub(crate) struct Contradicting;

/// The missing send of 2:3, and the entry that received it.
const LACK: MissingSend = MissingSend {
    entry: 4,
    missing: Missing {
        sender: 1,
        after: None,
    },
};

/// Whether there are exactly two waits, and they form a cycle.
fn are_a_ring(alloc: Global, waits: &[Wait]) -> Result<bool, AllocError> {
    match cycle_at(alloc, waits, 0)? {
        Some(cycle) => Ok(waits.len() == 2 && cycle.as_slice() == [0, 1].as_slice()),
        None => Ok(false),
    }
}

/// Whether the stations of blocked entries wait for each other.
fn is_ring<L: ExerciseLog>(
    alloc: Global,
    findings: &Findings<'_, L>,
    blocks: &[Block],
) -> Result<bool, AllocError> {
    let waits = waits_of(alloc, findings, blocks)?;
    are_a_ring(alloc, &waits)
}

/// Whether `audit` is blocked, and the two stations wait for each other.
fn is_ring_right<L: ExerciseLog>(
    alloc: Global,
    findings: &Findings<'_, L>,
) -> Result<bool, AllocError> {
    match audit(alloc, findings.log())? {
        Audit::Blocked(blocks) => is_ring(alloc, findings, &blocks),
        Audit::Explained(_) => Ok(false),
    }
}

/// Whether exactly [`LACK`] is missing.
fn is_lack_right<L: ExerciseLog>(
    alloc: Global,
    findings: &Findings<'_, L>,
) -> Result<bool, AllocError> {
    let lacks = missing_sends(alloc, findings)?;
    Ok(lacks.as_slice() == [LACK].as_slice())
}

/// A repair by one added send, which is not enough.
const NOT_ENOUGH: Repair = Repair {
    sends: 1,
    enough: Enough::No,
};

/// Whether a conflict is that of the recording: two stations in one cycle, the lack, the
/// repair, and nothing else.
fn is_conflict(conflict: &Conflict) -> bool {
    conflict.ways.len() == 2
        && conflict.cycles.len() == 1
        && conflict.also.is_empty()
        && conflict.lacks.as_slice() == [LACK].as_slice()
        && conflict.repair == NOT_ENOUGH
}

/// Whether [`conflict_of`] finds the conflict of the recording.
fn is_whole_right<L: ExerciseLog>(
    alloc: Global,
    findings: &Findings<'_, L>,
) -> Result<bool, AllocError> {
    match conflict_of(alloc, findings)? {
        ConflictSearch::Contradicted(conflict) => Ok(is_conflict(&conflict)),
        ConflictSearch::Explained(_) => Ok(false),
    }
}

/// Whether the recording with the missing send has one entry more, and is still not explained.
fn is_repair_right<L: ExerciseLog>(
    alloc: Global,
    findings: &Findings<'_, L>,
) -> Result<bool, AllocError> {
    let repair = repair_of(alloc, findings)?;
    match RepairedLog::of(alloc, findings)? {
        Some(log) => Ok(log.entry_count() == 6 && repair == NOT_ENOUGH),
        None => Ok(false),
    }
}

/// The refusal of a certificate without steps.
const WITHOUT_STEPS: Refusal = Refusal {
    step: 0,
    cause: Cause::CountDiffers,
    clash: Some(StepClash::CountDiffers {
        steps: 0,
        records: 5,
        missing: Some(0),
        twice: None,
    }),
    fault: Blame::Recording,
};

/// Whether a certificate without steps is refused as [`WITHOUT_STEPS`].
fn is_refusal_right(alloc: Global, log: &Recording) -> Result<bool, AllocError> {
    let certificate = Certificate {
        steps: Vec::new(alloc),
    };
    match verdict_of(alloc, log, &certificate)? {
        Verdict::Bad(refusal) => Ok(refusal == WITHOUT_STEPS),
        Verdict::Good(_) => Ok(false),
    }
}

/// Whether the waits, the lack, the fault, the whole conflict and the repair are all as expected.
fn are_parts_right<L: ExerciseLog>(
    alloc: Global,
    findings: &Findings<'_, L>,
) -> Result<bool, AllocError> {
    let ring = is_ring_right(alloc, findings)?;
    let lack = is_lack_right(alloc, findings)?;
    let fault = fault_of(alloc, findings)?;
    let whole = is_whole_right(alloc, findings)?;
    let repair = is_repair_right(alloc, findings)?;
    Ok(ring && lack && fault == Blame::Recording && whole && repair)
}

/// Whether all results for a log are as expected.
fn is_told(alloc: Global, log: &Recording) -> Result<bool, AllocError> {
    let findings = Findings::of(alloc, log)?;
    let told = are_parts_right(alloc, &findings)?;
    let refused = is_refusal_right(alloc, log)?;
    Ok(told && refused)
}

/// The outcome of a call on a log, which must be unchanged.
fn said(told: Result<bool, AllocError>, log: &Recording) -> Said {
    match told {
        Ok(told) => usual(told),
        Err(_) => refused(log.entry_count() == 5),
    }
}

impl LibraryCall<Recording> for Contradicting {
    fn make(alloc: Global, log: &mut Recording) -> Said {
        said(is_told(alloc, log), log)
    }
}

/// Whether the findings name the cause of the last entry of the recording.
fn are_found<L: ExerciseLog>(findings: &Findings<'_, L>) -> bool {
    findings.cause(4) == Some(Cause::NeverSent) && findings.log().entry_count() == 5
}

/// Computes the conflict of a recording, and returns its findings.
pub(crate) struct FindingConflict;

/// Whether the conflict and the findings of a log are as expected.
fn is_conflict_found(alloc: Global, log: &Recording) -> Result<bool, AllocError> {
    let told = conflict_found(alloc, Findings::of(alloc, log)?)?;
    let is_whole = match &told.explanation {
        ConflictSearch::Contradicted(conflict) => is_conflict(conflict),
        ConflictSearch::Explained(_) => false,
    };
    Ok(is_whole && are_found(&told.findings))
}

impl LibraryCall<Recording> for FindingConflict {
    fn make(alloc: Global, log: &mut Recording) -> Said {
        said(is_conflict_found(alloc, log), log)
    }
}

/// Computes the refusal of a certificate, and returns the findings of the log.
pub(crate) struct FindingRefusal;

/// Whether the refusal of a certificate without steps and the findings of a log are as expected.
fn is_refusal_found(alloc: Global, log: &Recording) -> Result<bool, AllocError> {
    let certificate = Certificate {
        steps: Vec::new(alloc),
    };
    let judged = refusal_found(alloc, Findings::of(alloc, log)?, &certificate)?;
    Ok(judged.refusal == Some(WITHOUT_STEPS) && are_found(&judged.findings))
}

impl LibraryCall<Recording> for FindingRefusal {
    fn make(alloc: Global, log: &mut Recording) -> Said {
        said(is_refusal_found(alloc, log), log)
    }
}
