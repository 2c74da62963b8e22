//! Next entry of each station: found in one pass over the log, and advanced with each step.

ghost use Rattle.std.specs.Prelude.{◌≡◌, ◌<◌, ◌≤◌, ◌+◌, ◌==◌, ℕ, List, [], ◌∷◌, ◌++◌, length, slice_get, slice_index_or, IfOk, IfSome, IfNone, if◌then◌else◌};
ghost use Rattle.exercise_model.specs.History.{event_of, station_of, log_at};
ghost use Rattle.exercise_model.specs.Place.{log_before};
ghost use Rattle.exercise_check.specs.declared.certificate.Step.{Step};
ghost use Rattle.exercise_check.specs.Sequence.{sequence_of, is_next};
ghost use Rattle.exercise_check.specs.Cursors.{AreCursorsFrom, AreCursors};
ghost use Rattle.exercise_check.specs.Judging.{was_taken};

use exercise_findings::replace;
use exercise_model::ExerciseLog;
use std::alloc::{AllocError, Global};

/// Marks the end of a station's entries; no entry has this number.
const NO_ENTRY: u32 = u32::MAX;

/// Next entry of each station, and for each entry the following one of its station.
#[derive(Drop)]
pub(crate) struct Cursors {
    /// For each entry, the following entry of its station, or `NO_ENTRY`.
    pub followers: Vec<u32>,
    /// For each station, its next entry, or `NO_ENTRY`.
    pub next: Vec<u32>,
}

/// Adds an entry in front of the later ones, which were added before.
fn go_back<L: ExerciseLog>(cursors: &mut Cursors, log: &L, entry: usize)
    requires within { entry < length (L.recording log.now).entries }
    requires tied { AreCursorsFrom (L.recording log.now) (entry + 1) cursors.old }
    ensures { AreCursorsFrom (L.recording log.now) entry cursors.new }
{
    let station = usize::from(log.entry(entry).station());
    let follower = cursors.next[station];
    replace(&mut cursors.followers, entry, follower);
    replace(&mut cursors.next, station, entry as u32);
}

/// Cursors before any entry was added.
fn no_cursors<L: ExerciseLog>(alloc: Global, log: &L) -> Result<Cursors, AllocError>
    ensures { let r = L.recording log.now in IfOk result (AreCursorsFrom r (length r.entries)) }
{
    let followers = vec![in alloc; NO_ENTRY; log.entry_count()]?;
    let next = vec![in alloc; NO_ENTRY; log.station_count()]?;
    Ok(Cursors { followers, next })
}

/// Cursors before the first step: each station's next entry is its first.
pub(crate) fn first_cursors<L: ExerciseLog>(alloc: Global, log: &L) -> Result<Cursors, AllocError>
    ensures { IfOk result (AreCursors (L.recording log.now) []) }
{
    let mut cursors = no_cursors(alloc, log)?;
    for entry in (0..log.entry_count()).rev() {
        go_back(&mut cursors, log, entry);
    }
    Ok(cursors)
}

/// Next entry of a station, if it has one.
pub(crate) fn next_entry<L: ExerciseLog>(
    log: &L,
    cursors: &Cursors,
    station: usize,
) -> Option<usize>
    ensures within { IfSome result (λ place. place < length (L.recording log.now).entries) }
    ensures at { IfSome result (λ place. station < length cursors.now.next.items) }
    ensures some { IfSome result (λ place. place ≡ slice_index_or cursors.now.next.items station 0) }
    ensures none { IfNone result (station < length cursors.now.next.items → length (L.recording log.now).entries ≤ slice_index_or cursors.now.next.items station 0) }
{
    let place = *cursors.next.get(station)? as usize;
    if place < log.entry_count() {
        Some(place)
    } else {
        None
    }
}

/// Whether an entry is its station's next one.
pub(crate) fn is_next<L: ExerciseLog>(log: &L, cursors: &Cursors, place: usize) -> bool
    requires within { place < length (L.recording log.now).entries }
    requires next { length cursors.now.next.items ≡ length (L.recording log.now).setting.stations }
    ensures { let r = L.recording log.now in (steps : List Step) → AreCursors r steps cursors.now → IfSome (slice_get r.entries place) (λ e. result ≡ is_next r steps place (event_of e)) }
{
    let station = usize::from(log.entry(place).station());
    cursors.next[station] as usize == place
}

/// Whether an entry was taken: the next one of its station is behind it.
pub(crate) fn was_taken<L: ExerciseLog>(log: &L, cursors: &Cursors, entry: usize) -> bool
    requires within { entry < length (L.recording log.now).entries }
    requires next { length cursors.now.next.items ≡ length (L.recording log.now).setting.stations }
    ensures { let r = L.recording log.now in (steps : List Step) → AreCursors r steps cursors.now → result ≡ was_taken r steps entry }
{
    let station = usize::from(log.entry(entry).station());
    cursors.next[station] as usize > entry
}

/// Advances the cursor of a station past an entry of that station.
pub(crate) fn pass_at<L: ExerciseLog>(cursors: &mut Cursors, log: &L, station: usize, place: usize)
    requires within { place < length (L.recording log.now).entries }
    requires at { station < length (L.recording log.now).setting.stations }
    requires own { IfSome (slice_get (L.recording log.now).entries place) (λ e. station_of (event_of e) ≡ station) }
    requires followers { length cursors.old.followers.items ≡ length (L.recording log.now).entries }
    requires next { length cursors.old.next.items ≡ length (L.recording log.now).setting.stations }
    ensures { let r = L.recording log.now in (steps : List Step) (link : ℕ) → IfSome (slice_get r.entries place) (λ e. length (log_at (station_of (event_of e)) (sequence_of r steps)) ≡ length (log_before r (station_of (event_of e)) place)) → AreCursors r steps cursors.old → AreCursors r (steps ++ record { place = place; link = link } ∷ []) cursors.new }
{
    let _log = log;
    let follower = cursors.followers[place];
    replace(&mut cursors.next, station, follower);
}

/// Like [`pass_at`], with the station read from the log.
pub(crate) fn pass<L: ExerciseLog>(cursors: &mut Cursors, log: &L, place: usize)
    requires within { place < length (L.recording log.now).entries }
    requires followers { length cursors.old.followers.items ≡ length (L.recording log.now).entries }
    requires next { length cursors.old.next.items ≡ length (L.recording log.now).setting.stations }
    ensures { let r = L.recording log.now in (steps : List Step) (link : ℕ) → IfSome (slice_get r.entries place) (λ e. length (log_at (station_of (event_of e)) (sequence_of r steps)) ≡ length (log_before r (station_of (event_of e)) place)) → AreCursors r steps cursors.old → AreCursors r (steps ++ record { place = place; link = link } ∷ []) cursors.new }
{
    let station = usize::from(log.entry(place).station());
    pass_at(cursors, log, station, place);
}
