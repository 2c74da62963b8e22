//! Entries that contradict their own log.

ghost use Rattle.std.specs.Prelude.{IfSome, Option, Some, is_some, slice_index_or, true, ℕ, ◌≡◌};
ghost use Rattle.dis_records.specs.declared.entity_state.EntityState.{EntityState};
ghost use Rattle.exercise_check.specs.Goodness.{IsFirstBad, no_step};
ghost use Rattle.exercise_conflict.specs.Earlier.{Contradicts};
ghost use Rattle.exercise_conflict.specs.Wider.{HasFurtherSends, IsWider};
ghost use Rattle.exercise_conflict.specs.declared.clash.Clash.TheVariants as clashes;
ghost use Rattle.exercise_findings.specs.Tables.{own_cause};
ghost use Rattle.exercise_model.specs.History.{History};
ghost use Rattle.exercise_model.specs.Recording.{PlainRecording};
ghost use Rattle.exercise_model.specs.Run.{Explains};
ghost use Rattle.exercise_model.specs.declared.cause.Cause.TheVariants.{ReusedIdentifier, WrongState};
ghost use Rattle.exercise_review.specs.Life.{state_before};

use exercise_check::Certificate;
use exercise_conflict::{
    Clash, bad_steps_have_own_causes, clash_of, clashes_are_the_conflict, earlier_is_the_conflict,
    earlier_of, final_is_final, own_causes_are_final, own_causes_stay,
};
use exercise_findings::Findings;
use exercise_model::{Cause, ExerciseLog};

/// Whether the log of its own station has a cause against an entry, so that no search is needed.
/// Then no run explains the recording (`never`), with any further sends either, except Ables
/// (`sends`).
pub fn is_against_its_own_log<L: ExerciseLog>(findings: &Findings<'_, L>, entry: usize) -> bool
    ensures never { result ≡ true → (h : History) → Explains findings.now h → ⊥ }
    ensures sends { result ≡ true → (wide : PlainRecording) (h : History) → HasFurtherSends findings.now wide → Explains wide h → ⊥ }
{
    own_causes_are_final();
    own_causes_stay();
    match findings.cause(entry) {
        Some(Cause::NeverSent) | None => false,
        Some(_) => true,
    }
}

/// Whether an entry is from a stranger. Then no further entries make the recording explainable.
pub fn is_beyond_mending<L: ExerciseLog>(findings: &Findings<'_, L>, entry: usize) -> bool
    ensures { result ≡ true → (wide : PlainRecording) (h : History) → IsWider findings.now wide → Explains wide h → ⊥ }
{
    final_is_final();
    match findings.cause(entry) {
        Some(Cause::Stranger) => true,
        _ => false,
    }
}

/// The earlier entry that an entry contradicts. If the entry sends another order with a used
/// identifier, there is such an earlier entry (`there`), and the cause holds after that one alone,
/// so that nothing else need be shown (`shown`).
pub fn is_shown_by_two_entries<L: ExerciseLog>(
    findings: &Findings<'_, L>,
    entry: usize,
) -> Option<usize>
    ensures shown { own_cause findings.now entry ≡ Some ReusedIdentifier → IfSome result (λ k. Contradicts findings.now entry k ReusedIdentifier) }
    ensures there { own_cause findings.now entry ≡ Some ReusedIdentifier → is_some result ≡ true }
{
    earlier_is_the_conflict();
    earlier_of(findings, entry)
}

/// The clash of an entry. If the entry tells a wrong state, there is a clash (`there`), and it
/// names the state that the entity has (`right`).
pub fn is_set_right<L: ExerciseLog>(findings: &Findings<'_, L>, entry: usize) -> Option<Clash>
    ensures there { own_cause findings.now entry ≡ Some WrongState → is_some result ≡ true }
    ensures right { own_cause findings.now entry ≡ Some WrongState → (s n : ℕ) (state : EntityState) (change : Option ℕ)
        → result ≡ Some (clashes.WrongState s n state change) → state_before findings.now s n entry ≡ state }
{
    clashes_are_the_conflict();
    clash_of(findings, entry)
}

/// Whether the entry of the first bad step of a certificate has this cause by the log of its
/// station alone. Then another sequence does not remove the cause, except for a datagram that was
/// sent too late.
pub fn is_the_cause_of_its_entry<L: ExerciseLog>(
    findings: &Findings<'_, L>,
    certificate: &Certificate,
    step: usize,
    cause: Cause,
) -> bool
    requires { IsFirstBad findings.now certificate.now.steps.items step cause }
    ensures { result ≡ true → own_cause findings.now (slice_index_or certificate.now.steps.items step no_step).place ≡ Some cause }
{
    bad_steps_have_own_causes();
    !matches!(
        cause,
        Cause::CountDiffers | Cause::NoSuchRecord | Cause::OutOfOrder | Cause::BadLink
    )
}
