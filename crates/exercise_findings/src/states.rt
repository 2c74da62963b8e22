//! The current states of a station's entities. States that were set singly are in pages of 256
//! entities, allocated at first use; a change of all entities is one number besides, and touches no
//! page.

ghost use Rattle.std.specs.Prelude.{◌≡◌, ◌<◌, ◌+◌, ℕ, ◌==◌, false, length, IfOk, OnOk, if◌then◌else◌};
ghost use Rattle.dis_records.specs.declared.entity_state.EntityState.TheVariants.{Absent};
ghost use Rattle.exercise_model.specs.Station.{is_absent, listed_state};
ghost use Rattle.exercise_model.specs.State.{state_made, changed};
ghost use Rattle.exercise_findings.specs.States.{held_at, state_in, state_or_absent, AreUpTo, IsPut, AreStates};
ghost use Rattle.exercise_model.specs.Account.{change_at};

use dis_records::{EntityState, Kind, Scope};
use exercise_model::{Change, ExerciseLog, Station, is_entity, state_made};
use std::alloc::{AllocError, Global};

/// Entities in a page.
pub(crate) const PAGE: u16 = 256;

/// Pages for all entity numbers.
pub(crate) const PAGES: u16 = 256;

/// The state of an entity that was set singly.
#[derive(Clone, Copy)]
pub(crate) struct SingleState {
    pub state: EntityState,
    /// Number of the change that set it.
    pub since: u32,
}

/// The states of the entities of a station. A change has the number of its entry plus 1; 0 is the
/// opening.
#[derive(Drop)]
pub(crate) struct States {
    alloc: Global,
    /// States set singly: entity `e` is at place `e % 256` of page `e / 256`.
    pub pages: Vec<Vec<SingleState>>,
    /// The state of every entity that was not set singly since `alike`.
    pub rest: EntityState,
    /// Number of the last change that set all entities to one state: a Create or Remove of all.
    pub alike: u32,
    /// Number of the last Start or Stop of all.
    pub moved: u32,
    /// The state to which that set the entities that were present.
    pub moved_to: EntityState,
}

/// States in which no entity is present. It takes no memory.
#[tactic(auto, unfolding(crate::specs::States::state_in, crate::specs::States::held_at))]
fn no_entities(alloc: Global) -> States
    ensures up_to { AreUpTo 0 result }
    ensures states { (e : ℕ) → state_in result e ≡ Absent }
{
    States {
        alloc,
        pages: Vec::new(alloc),
        rest: EntityState::Absent,
        alike: 0,
        moved: 0,
        moved_to: EntityState::Stopped,
    }
}

/// The state of an entity that was set singly, or `None`.
fn held_at(states: &States, entity: u16) -> Option<SingleState>
    ensures { result ≡ held_at states.now.pages.items entity }
{
    let page = usize::from(entity / PAGE);
    if page < states.pages.len() {
        states.pages[page].get(usize::from(entity % PAGE)).copied()
    } else {
        None
    }
}

/// The state under an entity number, checked or not.
#[tactic(auto, unfolding(crate::specs::States::state_in))]
pub(crate) fn state_in(states: &States, entity: u16) -> EntityState
    ensures { result ≡ state_in states.now entity }
{
    let Some(held) = held_at(states, entity) else {
        return states.rest;
    };
    if held.since < states.alike {
        states.rest
    } else if held.state == EntityState::Absent {
        EntityState::Absent
    } else if held.since < states.moved {
        states.moved_to
    } else {
        held.state
    }
}

/// The state under an entity number; Absent if no entity can have that number.
pub(crate) fn state_or_absent(states: &States, entity: u16) -> EntityState
    ensures { result ≡ state_or_absent states.now entity }
{
    if is_entity(entity) {
        state_in(states, entity)
    } else {
        EntityState::Absent
    }
}

/// Adds empty pages up to and including this one.
fn reach_page(
    pages: &mut Vec<Vec<SingleState>>,
    alloc: Global,
    page: usize,
) -> Result<(), AllocError>
    requires { page < 256 }
    ensures held { (e : ℕ) → held_at pages.new.items e ≡ held_at pages.old.items e }
    ensures within { OnOk result (page < length pages.new.items) }
{
    for _next in pages.len()..page + 1 {
        pages.push(Vec::new(alloc))?;
    }
    Ok(())
}

/// Sets a place of a page, filling new places before it with `filler`.
fn put_at(
    page: &mut Vec<SingleState>,
    filler: SingleState,
    place: usize,
    held: SingleState,
) -> Result<(), AllocError>
    requires { place < 256 }
    ensures { OnOk result (IsPut filler place held page.old.items page.new.items) }
{
    for _next in page.len()..place + 1 {
        page.push(filler)?;
    }
    page[place] = held;
    Ok(())
}

/// Sets the state under one number, by the change with this number (0: the opening).
fn hold(states: &mut States, entity: u16, state: EntityState, number: u32) -> Result<(), AllocError>
    requires up_to { AreUpTo number states.old }
    ensures up_to { OnOk result (AreUpTo number states.new) }
    ensures states { OnOk result ((e : ℕ) → state_in states.new e ≡ (if entity == e then state else state_in states.old e)) }
{
    let page = usize::from(entity / PAGE);
    let place = usize::from(entity % PAGE);
    let filler = SingleState {
        state: states.rest,
        since: number,
    };
    let held = SingleState {
        state,
        since: number,
    };
    reach_page(&mut states.pages, states.alloc, page)?;
    put_at(&mut states.pages[page], filler, place, held)
}

/// Sets all entities to one state, by the change of this entry.
fn set_all(states: &mut States, state: EntityState, entry: u32)
    requires few { entry < 4294967295 }
    requires up_to { AreUpTo entry states.old }
    ensures up_to { AreUpTo (entry + 1) states.new }
    ensures states { (e : ℕ) → state_in states.new e ≡ state }
{
    states.rest = state;
    states.alike = entry + 1;
}

/// The new state for an entity that is present; Absent stays Absent.
fn moved(before: EntityState, state: EntityState) -> EntityState
    ensures { result ≡ (if is_absent before then Absent else state) }
{
    match before {
        EntityState::Absent => EntityState::Absent,
        EntityState::Stopped | EntityState::Running => state,
    }
}

/// Sets all present entities to one state, by the change of this entry.
fn set_all_present(states: &mut States, state: EntityState, entry: u32)
    requires few { entry < 4294967295 }
    requires there { is_absent state ≡ false }
    requires up_to { AreUpTo entry states.old }
    ensures up_to { AreUpTo (entry + 1) states.new }
    ensures states { (e : ℕ) → state_in states.new e ≡ (if is_absent (state_in states.old e) then Absent else state) }
{
    states.rest = moved(states.rest, state);
    states.moved = entry + 1;
    states.moved_to = state;
}

/// Carries out a request of a kind for all entities, by the change of this entry.
fn change_all(states: &mut States, kind: Kind, entry: u32)
    requires few { entry < 4294967295 }
    requires up_to { AreUpTo entry states.old }
    ensures up_to { AreUpTo (entry + 1) states.new }
    ensures states { (e : ℕ) → state_in states.new e ≡ state_made kind (state_in states.old e) }
{
    match kind {
        Kind::CreateEntity => set_all(states, EntityState::Stopped, entry),
        Kind::RemoveEntity => set_all(states, EntityState::Absent, entry),
        Kind::StartResume => set_all_present(states, EntityState::Running, entry),
        Kind::StopFreeze => set_all_present(states, EntityState::Stopped, entry),
        _ => {}
    }
}

/// Applies the change of an entry.
fn make_change(states: &mut States, change: Change, entry: u32) -> Result<(), AllocError>
    requires few { entry < 4294967295 }
    requires up_to { AreUpTo entry states.old }
    ensures up_to { OnOk result (AreUpTo (entry + 1) states.new) }
    ensures states { OnOk result ((e : ℕ) → state_in states.new e ≡ changed e (state_in states.old e) change) }
{
    match change.scope {
        Scope::One(entity) => {
            let state = state_made(change.kind, state_in(states, entity));
            hold(states, entity, state, entry + 1)
        }
        Scope::All => {
            change_all(states, change.kind, entry);
            Ok(())
        }
    }
}

/// The states of the entities of a station before its first entry.
fn opening_states(alloc: Global, station: &Station) -> Result<States, AllocError>
    ensures up_to { IfOk result (AreUpTo 0) }
    ensures states { IfOk result (λ states. (e : ℕ) → state_in states e ≡ listed_state station.now.opening e) }
{
    let opening = station.opening();
    let mut states = no_entities(alloc);
    for done in 0..opening.len() {
        let (entity, state) = opening[opening.len() - 1 - done];
        hold(&mut states, entity, state, 0)?;
    }
    Ok(states)
}

/// The states of the entities of each station before the first entry of a log.
pub(crate) fn no_changes<L: ExerciseLog>(alloc: Global, log: &L) -> Result<Vec<States>, AllocError>
    ensures { IfOk result (λ states. AreStates (L.recording log.now) 0 states.items) }
{
    let mut states = Vec::new(alloc);
    for station in 0..log.station_count() {
        states.push(opening_states(alloc, log.station(station))?)?;
    }
    Ok(states)
}

/// Applies the change of the next entry of a log, if it makes one.
pub(crate) fn note_change<L: ExerciseLog>(
    states: &mut Vec<States>,
    log: &L,
    change: Option<Change>,
    entry: usize,
) -> Result<(), AllocError>
    requires within { entry < length (L.recording log.now).entries }
    requires change { change ≡ change_at (L.recording log.now) entry }
    requires tied { AreStates (L.recording log.now) entry states.old.items }
    ensures { OnOk result (AreStates (L.recording log.now) (entry + 1) states.new.items) }
{
    match change {
        Some(change) => {
            let station = usize::from(log.entry(entry).station());
            make_change(&mut states[station], change, entry as u32)
        }
        None => Ok(()),
    }
}
