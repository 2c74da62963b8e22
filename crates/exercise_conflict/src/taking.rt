//! The entries that the steps of a certificate name, and those that they should name.

ghost use Rattle.std.specs.Prelude.{◌≡◌, ◌<◌, ◌≤◌, ◌+◌, ◌==◌, ◌&&◌, ℕ, false, length, nat_lt, slice_get, slice_index_or, is_some, IfOk, if◌then◌else◌};
ghost use Rattle.std.specs.Option.{option_map_or};
ghost use Rattle.exercise_model.specs.History.{event_of, log_at};
ghost use Rattle.exercise_model.specs.Cause.{sends};
ghost use Rattle.exercise_model.specs.Place.{first_below, own_event};
ghost use Rattle.exercise_check.specs.Sequence.{sequence_of, first_sender};
ghost use Rattle.exercise_conflict.specs.StepClash.{times_taken, is_left_out, is_taken_again, count_clash, takes, has_rank, next_entry_after};

use crate::question::{NumberTest, first_below};
use crate::step_clash::StepClash;
use exercise_check::Step;
use exercise_model::{EntryView, ExerciseLog};
use std::alloc::{AllocError, Global};

/// Adds one to the count at a place, if there is one.
fn count_one(times: &mut Vec<usize>, place: usize)
    requires { (k : ℕ) → slice_index_or times.old.items k 0 < 18446744073709551615 }
    ensures count { length times.new.items ≡ length times.old.items }
    ensures each { (k : ℕ) → k < length times.old.items → slice_index_or times.new.items k 0 ≡ slice_index_or times.old.items k 0 + (if place == k then 1 else 0) }
{
    if place < times.len() {
        times[place] += 1;
    }
}

/// For each entry, how many steps name it.
fn times_taken(alloc: Global, steps: &[Step], entries: usize) -> Result<Vec<usize>, AllocError>
    ensures count { IfOk result (λ times. length times.items ≡ entries) }
    ensures each { IfOk result (λ times. (i : ℕ) → i < entries → slice_index_or times.items i 0 ≡ times_taken steps.now i) }
{
    let mut times = vec![in alloc; 0; entries]?;
    for step in steps {
        count_one(&mut times, step.place as usize);
    }
    Ok(times)
}

/// Test for counts of 0.
#[derive(Drop)]
struct AreZero<'a> {
    times: &'a [usize],
}

impl NumberTest for AreZero<'_> {
    ghost test = { λ q i. slice_index_or q.times.now i 0 == 0 };

    fn passes(&self, entry: usize) -> bool {
        match self.times.get(entry) {
            Some(times) => *times == 0,
            None => true,
        }
    }
}

/// Test for counts above 1.
#[derive(Drop)]
struct AreAboveOne<'a> {
    times: &'a [usize],
}

impl NumberTest for AreAboveOne<'_> {
    ghost test = { λ q i. nat_lt 1 (slice_index_or q.times.now i 0) };

    fn passes(&self, entry: usize) -> bool {
        match self.times.get(entry) {
            Some(times) => *times > 1,
            None => false,
        }
    }
}

/// The entries that the steps leave out, and those that they name twice.
pub(crate) fn count_clash(
    alloc: Global,
    steps: &[Step],
    entries: usize,
) -> Result<StepClash, AllocError>
    ensures { IfOk result (λ clash. clash ≡ count_clash steps.now entries) }
{
    let times = times_taken(alloc, steps, entries)?;
    Ok(StepClash::CountDiffers {
        steps: steps.len(),
        records: entries,
        missing: first_below(&AreZero { times: &times }, entries),
        twice: first_below(&AreAboveOne { times: &times }, entries),
    })
}

/// Test for the steps that name an entry.
#[derive(Drop)]
pub(crate) struct NamesEntry<'a> {
    pub steps: &'a [Step],
    pub entry: usize,
}

impl NumberTest for NamesEntry<'_> {
    ghost test = { λ q. takes q.steps.now q.entry };

    fn passes(&self, step: usize) -> bool {
        match self.steps.get(step) {
            Some(step) => step.place as usize == self.entry,
            None => false,
        }
    }
}

/// Whether an entry exists and belongs to a station.
#[tactic(auto, unfolding(exercise_model::specs::Place::own_event))]
fn is_own<L: ExerciseLog>(log: &L, entry: usize, station: u16) -> bool
    ensures { result ≡ is_some (own_event (L.recording log.now) station entry) }
{
    entry < log.entry_count() && log.entry(entry).station() == station
}

/// 1 if `holds`, else 0.
fn one_if(holds: bool) -> usize
    ensures one { result ≡ (if holds then 1 else 0) }
    ensures few { result ≤ 1 }
{
    if holds { 1 } else { 0 }
}

/// How many of a station's entries the steps name.
fn count_done<L: ExerciseLog>(log: &L, before: &[Step], station: u16) -> usize
    ensures { result ≡ length (log_at station (sequence_of (L.recording log.now) before.now)) }
{
    let mut done = 0;
    for step in before {
        done += one_if(is_own(log, step.place as usize, station));
    }
    done
}

/// Whether an entry belongs to the station and is the next one: its rank equals the number of
/// entries done.
fn is_here(own: bool, rank: usize, done: usize) -> bool
    ensures { result ≡ (own && (rank == done)) }
{
    own && rank == done
}

/// The entry of a station with this rank: `done` of its entries precede it.
fn first_ranked<L: ExerciseLog>(log: &L, station: u16, done: usize) -> Option<usize>
    ensures { let r = L.recording log.now in result ≡ first_below (has_rank r station done) (length r.entries) }
{
    let mut rank = 0;
    for entry in 0..log.entry_count() {
        let own = is_own(log, entry, station);
        if is_here(own, rank, done) {
            return Some(entry);
        }
        rank += one_if(own);
    }
    None
}

/// The next entry of a station after these steps.
pub(crate) fn next_entry_after<L: ExerciseLog>(
    log: &L,
    before: &[Step],
    station: u16,
) -> Option<usize>
    ensures { result ≡ next_entry_after (L.recording log.now) before.now station }
{
    let done = count_done(log, before, station);
    first_ranked(log, station, done)
}

/// Whether an entry exists and sends a datagram of these bytes.
fn sends_bytes<L: ExerciseLog>(log: &L, entry: usize, bytes: &[u8]) -> bool
    ensures { result ≡ option_map_or (λ e. sends bytes.now (event_of e)) (slice_get (L.recording log.now).entries entry) false }
{
    if entry >= log.entry_count() {
        return false;
    }
    match log.entry(entry) {
        EntryView::Sent { bytes: sent, .. } => bytes == sent,
        EntryView::Received { .. } | EntryView::Told { .. } => false,
    }
}

/// The entry of the first step that sends a datagram of these bytes.
#[tactic(auto, unfolding(exercise_check::specs::Sequence::first_sender))]
pub(crate) fn first_sender<L: ExerciseLog>(log: &L, bytes: &[u8], before: &[Step]) -> Option<usize>
    ensures { result ≡ first_sender (L.recording log.now).entries bytes.now before.now }
{
    for step in before {
        let place = step.place as usize;
        if sends_bytes(log, place, bytes) {
            return Some(place);
        }
    }
    None
}
