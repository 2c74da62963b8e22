//! Entries that the logs lack.

ghost use Rattle.std.specs.Prelude.{IfOk, IfSome, length, ◌+◌, ◌≡◌, ◌≤◌};
ghost use Rattle.exercise_conflict.specs.Further.{HasMissingSends};
ghost use Rattle.exercise_conflict.specs.Needed.{IsNeeded};
ghost use Rattle.exercise_conflict.specs.Repair.{repaired};
ghost use Rattle.exercise_conflict.specs.Wider.{IsWider};
ghost use Rattle.exercise_conflict.specs.declared.repair.Enough.TheVariants as words;
ghost use Rattle.exercise_model.specs.History.{History};
ghost use Rattle.exercise_model.specs.Recording.{IsRecording, PlainRecording};
ghost use Rattle.exercise_model.specs.Run.{Explains};

use exercise_conflict::{
    Repair, enough_is_one_word, fewer_do_not_do, missing_is_needed, nowhere_else, repair_of,
};
use exercise_findings::Findings;
use exercise_model::ExerciseLog;
use exercise_review::{Missing, Register, missing_at};
use std::alloc::{AllocError, Global};

/// The missing send of an entry that receives a datagram. The log of the sender does not have it,
/// and whatever is added to the recording, some run explains the whole only if that log has it.
pub fn must_be_filled<L: ExerciseLog>(findings: &Register<'_, L>, entry: usize) -> Option<Missing>
    ensures { IfSome result (λ m. (wide : PlainRecording) (h : History) → IsRecording wide → IsWider findings.now wide → Explains wide h
        → IsNeeded findings.now wide entry m) }
{
    missing_is_needed();
    missing_at(findings, entry)
}

/// Whether the sends that the logs lack are enough. If so, a run explains the recording with them
/// (`yes`). No recording with fewer additional entries is explained (`fewer`). If they are not
/// enough, they are not at other places either (`no`).
pub fn ends_the_search<L: ExerciseLog>(
    alloc: Global,
    findings: &Findings<'_, L>,
) -> Result<Repair, AllocError>
    ensures yes { IfOk result (λ repair. repair.enough ≡ words.Yes → (h : History) × Explains (repaired findings.now) h) }
    ensures fewer { IfOk result (λ repair. (wide : PlainRecording) (h : History) → IsRecording findings.now → IsRecording wide → IsWider findings.now wide → Explains wide h
        → length findings.now.entries + repair.sends ≤ length wide.entries) }
    ensures no { IfOk result (λ repair. repair.enough ≡ words.No → (wide : PlainRecording) (h : History) → IsRecording findings.now → IsRecording wide
        → HasMissingSends findings.now wide → Explains wide h → ⊥) }
{
    enough_is_one_word();
    fewer_do_not_do();
    nowhere_else();
    repair_of(alloc, findings)
}
