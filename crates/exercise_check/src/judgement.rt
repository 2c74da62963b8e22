//! Judges the next event of a station.

ghost use Rattle.std.specs.Prelude.{◌≡◌, ◌<◌, List, length};
ghost use Rattle.exercise_findings.specs.Source.{source_of};
ghost use Rattle.exercise_check.specs.declared.certificate.Step.{Step};
ghost use Rattle.exercise_check.specs.Course.{IsCourse};
ghost use Rattle.exercise_check.specs.Cursors.{AreCursors};
ghost use Rattle.exercise_check.specs.Judging.{judged, is_unsent, if_taken, source_judgement, JudgesNext, IsReadyAt};

use crate::cursors::{Cursors, was_taken};
use exercise_findings::Findings;
use exercise_model::{Cause, ExerciseLog};

/// Verdict on an event that would be next.
#[derive(Clone, Copy)]
pub(crate) enum Judgement {
    /// The event is allowed; the entry that its step links to, if any.
    Allowed(Option<u32>),
    /// The event may not happen; the first cause that holds.
    Forbidden(Cause),
}

/// Verdict for this cause, if there is any, or else for this link.
fn judged(cause: Option<Cause>, link: Option<u32>) -> Judgement
    ensures { result ≡ judged cause link }
{
    match cause {
        Some(cause) => Judgement::Forbidden(cause),
        None => Judgement::Allowed(link),
    }
}

/// Whether the verdict is that the received datagram was never sent.
fn is_unsent(judgement: Judgement) -> bool
    ensures { result ≡ is_unsent judgement }
{
    matches!(judgement, Judgement::Forbidden(Cause::NeverSent))
}

/// Source of an entry, if the source was taken.
fn source_taken<L: ExerciseLog>(
    found: &Findings<'_, L>,
    cursors: &Cursors,
    place: usize,
) -> Option<u32>
    requires { length cursors.now.next.items ≡ length found.now.setting.stations }
    ensures { (steps : List Step) → AreCursors found.now steps cursors.now → result ≡ if_taken found.now steps (source_of found.now place) }
{
    match found.source(place) {
        Some(source) if was_taken(found.log(), cursors, source as usize) => Some(source),
        _ => None,
    }
}

/// Judges a received datagram that must have been sent before: it was if its source was taken.
#[inline(never)]
fn judge_received<L: ExerciseLog>(
    found: &Findings<'_, L>,
    cursors: &Cursors,
    place: usize,
) -> Judgement
    requires { length cursors.now.next.items ≡ length found.now.setting.stations }
    ensures { (steps : List Step) → AreCursors found.now steps cursors.now → result ≡ source_judgement (if_taken found.now steps (source_of found.now place)) }
{
    match source_taken(found, cursors, place) {
        Some(source) => Judgement::Allowed(Some(source)),
        None => Judgement::Forbidden(Cause::NeverSent),
    }
}

/// Judges the event of an entry that is its station's next one. Uses the findings in the station's
/// log: first cause against the entry, request of an answer, source of a receipt. For a receipt of
/// a datagram that must have been sent before, uses also the entries taken so far.
#[inline(always)]
pub(crate) fn judge<L: ExerciseLog>(
    found: &Findings<'_, L>,
    cursors: &Cursors,
    place: usize,
) -> Judgement
    requires within { place < length found.now.entries }
    requires cursors { length cursors.now.next.items ≡ length found.now.setting.stations }
    ensures { let r = found.now in (steps : List Step) → IsCourse (record { recording = r; steps = steps }) → AreCursors r steps cursors.now → IsReadyAt r steps place → JudgesNext r steps place result }
{
    let alone = judged(found.cause(place), found.pair(place));
    if is_unsent(alone) {
        judge_received(found, cursors, place)
    } else {
        alone
    }
}
