//! Whether adding the sends that the logs lack makes a recording explainable.

ghost use Rattle.std.specs.Prelude.{◌≡◌, false, IfOk};
ghost use Rattle.exercise_model.specs.Recording.{IsRecording};
ghost use Rattle.exercise_conflict.specs.Lacks.{missing_sends};
ghost use Rattle.exercise_conflict.specs.Repair.{repaired, is_too_long, is_able_at, is_able_missing, IsUnexplained, IsEnough, IsRepairOf};
ghost use Rattle.exercise_conflict.specs.RepairText.{enough_text};

use crate::blame::has_standing_cause;
use crate::lacks::{MissingSend, missing_sends};
use crate::repaired::RepairedLog;
use exercise_audit::{Audit, audit};
use exercise_findings::Findings;
use exercise_model::{EntryView, ExerciseLog, meaning_view, responds};
use siman_pdus::ABLE;
use std::alloc::{AllocError, Global};
use std::fmt;

/// Whether adding the missing sends, each at its place, is enough.
#[derive(Clone, Copy, PartialEq, Eq)]
pub enum Enough {
    /// Some run explains the recording with them.
    Yes,
    /// No run does, and none of them is an Able.
    No,
    /// No run does, but one of them is an Able; or the recording would have too many entries.
    Unknown,
}

impl Enough {
    /// Its word: `yes`, `no` or `unknown`.
    pub fn name(self) -> &'static str
        ensures { result.now ≡ enough_text self }
    {
        match self {
            Enough::Yes => "yes",
            Enough::No => "no",
            Enough::Unknown => "unknown",
        }
    }
}

/// Prints its word.
impl fmt::Display for Enough {
    ghost use Rattle.std.specs.Prelude.{Some};
    ghost use Rattle.exercise_conflict.specs.RepairText.{enough_text};

    ghost output = { λ enough. Some (enough_text enough) };

    fn fmt<W: fmt::Write>(&self, f: &mut fmt::Formatter<W>) -> fmt::Result {
        f.write_str(self.name())
    }
}

/// The number of sends that the logs lack, and whether adding them is enough.
#[derive(Clone, Copy, PartialEq, Eq)]
pub struct Repair {
    /// The number of missing sends.
    pub sends: usize,
    /// Whether they are enough.
    pub enough: Enough,
}

/// Whether the datagram of an entry is an Able Acknowledge.
fn is_able_at<L: ExerciseLog>(findings: &Findings<'_, L>, entry: usize) -> bool
    ensures { result ≡ is_able_at findings.now entry }
{
    let log = findings.log();
    if entry >= log.entry_count() {
        return false;
    }
    match log.entry(entry) {
        EntryView::Sent { bytes, .. } | EntryView::Received { bytes, .. } => {
            match meaning_view(log.exercise(), bytes) {
                Some(pdu) => responds(ABLE, &pdu),
                None => false,
            }
        }
        EntryView::Told { .. } => false,
    }
}

/// Whether one of the missing sends is an Able.
#[tactic(auto, unfolding(crate::specs::Repair::is_able_missing))]
fn is_able_missing<L: ExerciseLog>(findings: &Findings<'_, L>, lacks: &[MissingSend]) -> bool
    requires { lacks.now ≡ missing_sends findings.now }
    ensures { result ≡ is_able_missing findings.now }
{
    lacks.iter().any(|lack| is_able_at(findings, lack.entry))
}

/// Searches for a run of the repaired log, which has no more entries than a log may have.
fn searched<L: ExerciseLog>(
    alloc: Global,
    findings: &Findings<'_, L>,
    whole: &RepairedLog<'_, L>,
    able: bool,
) -> Result<Enough, AllocError>
    requires repaired { whole.now ≡ repaired findings.now }
    requires limits { IsRecording whole.now }
    requires fits { is_too_long findings.now ≡ false }
    requires able { able ≡ is_able_missing findings.now }
    ensures { IfOk result (IsEnough findings.now) }
{
    match audit(alloc, whole)? {
        Audit::Explained(_) => Ok(Enough::Yes),
        Audit::Blocked(_) if able => Ok(Enough::Unknown),
        Audit::Blocked(_) => Ok(Enough::No),
    }
}

/// Whether the missing sends, none of which is an Able, are enough. If an entry has a standing
/// cause they are not, and no search is made.
fn enough_without_able<L: ExerciseLog>(
    alloc: Global,
    findings: &Findings<'_, L>,
    whole: &RepairedLog<'_, L>,
) -> Result<Enough, AllocError>
    requires repaired { whole.now ≡ repaired findings.now }
    requires limits { IsRecording whole.now }
    requires fits { is_too_long findings.now ≡ false }
    requires able { is_able_missing findings.now ≡ false }
    ensures { IfOk result (IsEnough findings.now) }
{
    if has_standing_cause(findings) {
        return Ok(Enough::No);
    }
    searched(alloc, findings, whole, false)
}

/// Whether the missing sends are enough.
fn enough_of<L: ExerciseLog>(
    alloc: Global,
    findings: &Findings<'_, L>,
    lacks: &[MissingSend],
) -> Result<Enough, AllocError>
    requires { lacks.now ≡ missing_sends findings.now }
    ensures { IfOk result (IsEnough findings.now) }
{
    let Some(whole) = RepairedLog::with(alloc, findings, lacks)? else {
        return Ok(Enough::Unknown);
    };
    if is_able_missing(findings, lacks) {
        return searched(alloc, findings, &whole, true);
    }
    enough_without_able(alloc, findings, &whole)
}

/// The number of missing sends, given all of them, and whether they are enough.
pub(crate) fn repair_with<L: ExerciseLog>(
    alloc: Global,
    findings: &Findings<'_, L>,
    lacks: &[MissingSend],
) -> Result<Repair, AllocError>
    requires { lacks.now ≡ missing_sends findings.now }
    ensures { IfOk result (IsRepairOf findings.now) }
{
    Ok(Repair {
        sends: lacks.len(),
        enough: enough_of(alloc, findings, lacks)?,
    })
}

/// As [`repair_with`], for a recording that no run explains: if nothing is missing, the answer is
/// no without a search.
#[tactic(auto, using(crate::proofs::Unrepaired::nothing_repairs))]
pub(crate) fn repair_unexplained<L: ExerciseLog>(
    alloc: Global,
    findings: &Findings<'_, L>,
    lacks: &[MissingSend],
) -> Result<Repair, AllocError>
    requires lacks { lacks.now ≡ missing_sends findings.now }
    requires limits { IsRecording findings.now }
    requires unexplained { IsUnexplained findings.now }
    ensures { IfOk result (IsRepairOf findings.now) }
{
    if lacks.is_empty() {
        return Ok(Repair {
            sends: 0,
            enough: Enough::No,
        });
    }
    repair_with(alloc, findings, lacks)
}

/// The number of sends that the logs of a recording lack, and whether some run explains the
/// recording with them, each at its place. It makes at most one search, and none if the logs alone
/// rule it out.
pub fn repair_of<L: ExerciseLog>(
    alloc: Global,
    findings: &Findings<'_, L>,
) -> Result<Repair, AllocError>
    ensures { IfOk result (IsRepairOf findings.now) }
{
    let lacks = missing_sends(alloc, findings)?;
    repair_with(alloc, findings, &lacks)
}
