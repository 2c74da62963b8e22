//! Entities by rising numbers, with their states.

ghost use Rattle.std.specs.Prelude.{◌≡◌, ◌≤◌, ◌<◌, ◌+◌, Some, true, length, IsTrue, OnOk, OnErr, MatchOption, insert, remove};
ghost use Rattle.dis_records.specs.declared.entity_state.EntityState.{EntityState};
ghost use Rattle.exercise_model.specs.declared.station.TheConstants.{LARGEST_ENTITY};
ghost use Rattle.siman_application.specs.declared.entity_list.TheConstants.{MOST_ENTITIES};
ghost use Rattle.exercise_model.specs.Station.{is_opening, listed_state};
ghost use Rattle.exercise_model.specs.Place.{first_below};
ghost use Rattle.exercise_model.specs.State.{changed};
ghost use Rattle.siman_application.specs.Answer.{is_free, chosen};
ghost use Rattle.siman_application.specs.Listed.{states_in, inserted, removed, all_changed, IsPossible};

use dis_records::{ANY_NUMBER, EntityState, Kind, Scope};
use exercise_model::{Change, is_entity, listed_state};
use std::alloc::AllocError;

/// Most entities of an application (profile).
pub(crate) const MOST_ENTITIES: usize = 4096;

/// Whether an entity of this number can be created.
fn is_free(entities: &[(u16, EntityState)], number: u16) -> bool
    ensures { result ≡ is_free (states_in entities.now) number }
{
    is_entity(number) && listed_state(entities, number) == EntityState::Absent
}

/// Least number from 1 on that no entity has.
pub(crate) fn least_free(entities: &[(u16, EntityState)]) -> u16
    requires opening { IsTrue (is_opening entities.now) }
    requires few { length entities.now < MOST_ENTITIES }
    ensures { first_below (is_free (states_in entities.now)) (LARGEST_ENTITY + 1) ≡ Some result }
{
    let mut least = 1;
    for (number, _) in entities {
        if *number != least {
            return least;
        }
        least += 1;
    }
    least
}

/// Index at which an entity of this number is inserted.
fn place_for(entities: &[(u16, EntityState)], number: u16) -> usize
    ensures within { result ≤ length entities.now }
    ensures place { (state : EntityState) → insert entities.now result (number, state) ≡ inserted number state entities.now }
{
    for place in 0..entities.len() {
        if entities[place].0 >= number {
            return place;
        }
    }
    entities.len()
}

/// Index of the entity of this number, if any.
fn place_of(entities: &[(u16, EntityState)], number: u16) -> Option<usize>
    ensures { MatchOption result (removed number entities.now ≡ entities.now)
        (λ place. (place < length entities.now) × (remove entities.now place ≡ removed number entities.now)) }
{
    for place in 0..entities.len() {
        if entities[place].0 == number {
            return Some(place);
        }
    }
    None
}

/// Inserts an entity in its place among entities by rising numbers. After a refusal nothing changed.
pub fn insert_entity(
    entities: &mut Vec<(u16, EntityState)>,
    number: u16,
    state: EntityState,
) -> Result<(), AllocError>
    ensures ok { OnOk result (entities.new.items ≡ inserted number state entities.old.items) }
    ensures err { OnErr result (entities.new.items ≡ entities.old.items) }
{
    let place = place_for(entities, number);
    entities.insert(place, (number, state))?;
    Ok(())
}

/// Removes an entity, if there is one of this number.
fn remove(entities: &mut Vec<(u16, EntityState)>, number: u16)
    ensures { entities.new.items ≡ removed number entities.old.items }
{
    if let Some(place) = place_of(entities, number) {
        entities.remove(place);
    }
}

/// Changes each entity in the scope.
fn change_each(entities: &mut Vec<(u16, EntityState)>, change: Change)
    ensures { entities.new.items ≡ all_changed change entities.old.items }
{
    for place in 0..entities.len() {
        let (number, state) = entities[place];
        entities[place] = (number, change.changed(number, state));
    }
}

/// Number that a Create Entity for this number creates, if any.
pub(crate) fn choose(entities: &[(u16, EntityState)], number: u16) -> Option<u16>
    requires opening { IsTrue (is_opening entities.now) }
    requires few { length entities.now ≤ MOST_ENTITIES }
    ensures { result ≡ chosen (states_in entities.now) number }
{
    if entities.len() >= MOST_ENTITIES {
        return None;
    }
    if number == ANY_NUMBER {
        return Some(least_free(entities));
    }
    if is_free(entities, number) {
        return Some(number);
    }
    None
}

/// Makes a change that the entities permit. Only a Create Entity takes memory.
pub(crate) fn carry_out(
    entities: &mut Vec<(u16, EntityState)>,
    change: Change,
) -> Result<(), AllocError>
    requires opening { IsTrue (is_opening entities.old.items) }
    requires few { length entities.old.items ≤ MOST_ENTITIES }
    requires possible { IsPossible change (states_in entities.old.items) }
    ensures opening { is_opening entities.new.items ≡ true }
    ensures few { length entities.new.items ≤ MOST_ENTITIES }
    ensures ok { OnOk result (states_in entities.new.items ≡ (λ e. changed e (listed_state entities.old.items e) change)) }
    ensures err { OnErr result (entities.new.items ≡ entities.old.items) }
{
    match change.kind {
        Kind::CreateEntity => match change.scope {
            Scope::One(number) => {
                insert_entity(entities, number, EntityState::Stopped)?;
                Ok(())
            }
            // No request creates all entities.
            Scope::All => Ok(()),
        },
        Kind::RemoveEntity => {
            match change.scope {
                Scope::One(number) => remove(entities, number),
                Scope::All => entities.clear(),
            }
            Ok(())
        }
        _ => {
            change_each(entities, change);
            Ok(())
        }
    }
}
