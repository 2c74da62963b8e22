//! The changes of a station, with look-up of the next change of an entity: among its own changes,
//! and among those of all entities.

ghost use Rattle.std.specs.Prelude.{◌≡◌, ℕ, ◌+◌, ◌-◌, ◌<◌, ◌≤◌, ◌==◌, true, false, length, slice_index_or, IfOk, if◌then◌else◌};
ghost use Rattle.dis_records.specs.declared.entity_state.EntityState.TheVariants.{Absent};
ghost use Rattle.exercise_model.specs.Station.{listed_state};
ghost use Rattle.exercise_review.specs.Span.{changes_made};
ghost use Rattle.exercise_review.specs.Course.{change_in, is_of, is_change_of_all_in, IsNextIn, AreNextIn, AreUpTo, AreOwn, AreInOrder, IsCourse};

use crate::changes::Made;
use dis_records::{EntityState, Scope};
use exercise_findings::Findings;
use exercise_model::{Change, ExerciseLog, state_made};
use std::alloc::{AllocError, Global};

/// For each entity, its own changes (those of scope `One`). Places are indices into the station's
/// list of changes; its length means none.
#[derive(Drop)]
pub(crate) struct OwnChanges {
    /// First own change of each entity number, up to `last`; greater numbers have none.
    pub first: Vec<u32>,
    /// For each own change, the next own change of that entity.
    pub next: Vec<u32>,
}

/// The changes of a station in order, with its opening states. Look-up of the next change lets a
/// life skip changes that do not affect the entity.
#[derive(Drop)]
pub(crate) struct StationChanges<'a> {
    pub changes: &'a [Made],
    /// Greatest entity number in the opening states or in an own change; 0 if there are none.
    pub last: u16,
    /// Opening state of each entity number up to `last`; greater numbers are Absent.
    pub starts: Vec<EntityState>,
    pub own: OwnChanges,
    /// For each place, the first change of all entities from there on that changes the state
    /// Absent. Ends with the last such change, so it is empty if there are none.
    pub absent: Vec<u32>,
    /// As `absent`, for the state Stopped.
    pub stopped: Vec<u32>,
    /// As `absent`, for the state Running.
    pub running: Vec<u32>,
}

/// The place recorded at index `at`, or `end` if none is.
fn place_in(places: &[u32], at: usize, end: usize) -> usize
    ensures { result ≡ slice_index_or places.now at end }
{
    match places.get(at) {
        Some(place) => *place as usize,
        None => end,
    }
}

/// Stores a place.
fn put(places: &mut Vec<u32>, at: usize, place: u32)
    requires { at < length places.old.items }
    ensures count { length places.new.items ≡ length places.old.items }
    ensures each { (end k : ℕ) → slice_index_or places.new.items k end ≡ (if k == at then place else slice_index_or places.old.items k end) }
{
    places[at] = place;
}

/// Whether a change is one of all entities and changes this state.
fn is_change_of_all_in(change: Change, state: EntityState) -> bool
    ensures { result ≡ is_change_of_all_in state change }
{
    match change.scope {
        Scope::All => state_made(change.kind, state) != state,
        Scope::One(_) => false,
    }
}

/// Place just after the last change of all entities that changes this state; 0 if none does.
fn end_of_changes(changes: &[Made], state: EntityState) -> usize
    ensures within { result ≤ length changes.now }
    ensures none { (i : ℕ) → result ≤ i → i < length changes.now → is_change_of_all_in state (change_in changes.now i) ≡ false }
    ensures last { 0 < result → is_change_of_all_in state (change_in changes.now (result - 1)) ≡ true }
{
    let mut last = 0;
    for place in 0..changes.len() {
        if is_change_of_all_in(changes[place].change, state) {
            last = place + 1;
        }
    }
    last
}

/// First change of all entities, from a place on, that changes this state, given the table of the
/// later places.
fn next_change(changes: &[Made], state: EntityState, places: &[u32], place: usize) -> usize
    requires within { place < length changes.now }
    requires behind { AreNextIn (is_change_of_all_in state) changes.now (place + 1) places.now }
    ensures { IsNextIn (is_change_of_all_in state) changes.now place result }
{
    if is_change_of_all_in(changes[place].change, state) {
        place
    } else {
        place_in(places, place + 1, changes.len())
    }
}

/// For each place, the first change of all entities from there on that changes this state.
fn next_changes(alloc: Global, changes: &[Made], state: EntityState) -> Result<Vec<u32>, AllocError>
    requires { length changes.now < 4294967296 }
    ensures { IfOk result (λ places. AreNextIn (is_change_of_all_in state) changes.now 0 places.items) }
{
    let count = end_of_changes(changes, state);
    let mut places = vec![in alloc; changes.len() as u32; count]?;
    for done in 0..count {
        let place = count - 1 - done;
        let next = next_change(changes, state, &places, place);
        put(&mut places, place, next as u32);
    }
    Ok(places)
}

/// The greater of two numbers.
fn greater(number: u16, other: u16) -> u16
    ensures left { number ≤ result }
    ensures right { other ≤ result }
{
    if number < other { other } else { number }
}

/// Greatest entity number in the opening states; 0 if there are none.
fn last_opening(opening: &[(u16, EntityState)]) -> u16
    ensures { (i : ℕ) → i < length opening.now → (slice_index_or opening.now i (0, Absent)).0 ≤ result }
{
    let mut last = 0;
    for place in 0..opening.len() {
        last = greater(last, opening[place].0);
    }
    last
}

/// Entity number of a change of one entity; 0 for a change of all.
fn own_number(change: Change) -> u16
    ensures { (e : ℕ) → result < e → is_of e change ≡ false }
{
    match change.scope {
        Scope::One(number) => number,
        Scope::All => 0,
    }
}

/// Greatest entity number in changes of one entity; 0 if there are none.
fn last_changed(changes: &[Made]) -> u16
    ensures { AreUpTo result changes.now }
{
    let mut last = 0;
    for place in 0..changes.len() {
        last = greater(last, own_number(changes[place].change));
    }
    last
}

/// Adds the change at a place to the table, which has all later changes.
fn note_own(own: &mut OwnChanges, changes: &[Made], last: u16, place: usize)
    requires few { length changes.now < 4294967296 }
    requires within { place < length changes.now }
    requires numbers { AreUpTo last changes.now }
    requires behind { AreOwn changes.now last (place + 1) own.old }
    ensures { AreOwn changes.now last place own.new }
{
    let _last = last;
    if let Scope::One(entity) = changes[place].change.scope {
        let number = usize::from(entity);
        let next = own.first[number];
        put(&mut own.next, place, next);
        put(&mut own.first, number, place as u32);
    }
}

/// Table without any own change.
fn no_own(alloc: Global, changes: &[Made], last: u16) -> Result<OwnChanges, AllocError>
    requires { length changes.now < 4294967296 }
    ensures { IfOk result (AreOwn changes.now last (length changes.now)) }
{
    let end = changes.len() as u32;
    Ok(OwnChanges {
        first: vec![in alloc; end; usize::from(last) + 1]?,
        next: vec![in alloc; end; changes.len()]?,
    })
}

/// Table of the own changes of each entity up to `last`.
fn own_of(alloc: Global, changes: &[Made], last: u16) -> Result<OwnChanges, AllocError>
    requires few { length changes.now < 4294967296 }
    requires numbers { AreUpTo last changes.now }
    ensures { IfOk result (AreOwn changes.now last 0) }
{
    let mut own = no_own(alloc, changes, last)?;
    let end = changes.len();
    for done in 0..end {
        note_own(&mut own, changes, last, end - 1 - done);
    }
    Ok(own)
}

/// Stores the opening state of an entity number.
fn start(starts: &mut Vec<EntityState>, number: u16, state: EntityState)
    requires { number < length starts.old.items }
    ensures count { length starts.new.items ≡ length starts.old.items }
    ensures each { (k : ℕ) → slice_index_or starts.new.items k Absent ≡ (if number == k then state else slice_index_or starts.old.items k Absent) }
{
    starts[usize::from(number)] = state;
}

/// Opening state of each entity number up to `last`; the first of several states of one entity
/// counts.
fn starts_of(
    alloc: Global,
    opening: &[(u16, EntityState)],
    last: u16,
) -> Result<Vec<EntityState>, AllocError>
    requires { (i : ℕ) → i < length opening.now → (slice_index_or opening.now i (0, Absent)).0 ≤ last }
    ensures count { IfOk result (λ starts. length starts.items ≡ last + 1) }
    ensures each { IfOk result (λ starts. (e : ℕ) → slice_index_or starts.items e Absent ≡ listed_state opening.now e) }
{
    let mut starts = vec![in alloc; EntityState::Absent; usize::from(last) + 1]?;
    for done in 0..opening.len() {
        let (number, state) = opening[opening.len() - 1 - done];
        start(&mut starts, number, state);
    }
    Ok(starts)
}

impl<'a> StationChanges<'a> {
    /// Course of a station, given the list of its changes.
    pub fn of<L: ExerciseLog>(
        alloc: Global,
        findings: &Findings<'_, L>,
        station: u16,
        changes: &'a [Made],
    ) -> Result<StationChanges<'a>, AllocError>
        requires at { station < length findings.now.setting.stations }
        requires changes { changes.now ≡ changes_made findings.now station }
        ensures { IfOk result (IsCourse findings.now station) }
    {
        let opening = findings.log().station(usize::from(station)).opening();
        let last = greater(last_opening(opening), last_changed(changes));
        Ok(StationChanges {
            changes,
            last,
            starts: starts_of(alloc, opening, last)?,
            own: own_of(alloc, changes, last)?,
            absent: next_changes(alloc, changes, EntityState::Absent)?,
            stopped: next_changes(alloc, changes, EntityState::Stopped)?,
            running: next_changes(alloc, changes, EntityState::Running)?,
        })
    }

    /// Opening state of an entity.
    pub fn start(&self, number: u16) -> EntityState
        ensures { result ≡ slice_index_or self.now.starts.items number Absent }
    {
        match self.starts.get(usize::from(number)) {
            Some(state) => *state,
            None => EntityState::Absent,
        }
    }

    /// Place of the first own change of an entity.
    pub fn first_own(&self, number: u16) -> usize
        requires { AreInOrder self.now }
        ensures { IsNextIn (is_of number) self.now.changes.now 0 result }
    {
        place_in(&self.own.first, usize::from(number), self.changes.len())
    }

    /// Place of the next own change of an entity after one of its own changes.
    pub fn next_own(&self, number: u16, place: usize) -> usize
        requires order { AreInOrder self.now }
        requires within { place < length self.now.changes.now }
        requires own { is_of number (change_in self.now.changes.now place) ≡ true }
        ensures { IsNextIn (is_of number) self.now.changes.now (place + 1) result }
    {
        let _number = number;
        self.own.next[place] as usize
    }

    /// Place of the first change of all entities, from a place on, that changes this state.
    pub fn next_change_of_all(&self, state: EntityState, place: usize) -> usize
        requires order { AreInOrder self.now }
        requires within { place ≤ length self.now.changes.now }
        ensures { IsNextIn (is_change_of_all_in state) self.now.changes.now place result }
    {
        let places = match state {
            EntityState::Absent => &self.absent,
            EntityState::Stopped => &self.stopped,
            EntityState::Running => &self.running,
        };
        place_in(places, place, self.changes.len())
    }
}
