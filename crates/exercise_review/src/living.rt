//! The life of an entity, by the course of its station: from each change to the next that may
//! affect it.

ghost use Rattle.std.specs.Prelude.{◌≡◌, ℕ, ◌+◌, ◌<◌, ◌≤◌, [], false, length, map};
ghost use Rattle.exercise_review.specs.Room.{AddsWithin};
ghost use Rattle.exercise_review.specs.Course.{is_of, IsNextIn, IsStayEnd, AreInOrder, start_in, course_stretches};
ghost use Rattle.exercise_review.specs.Stay.{stay_of, stretch_so_far};

use crate::course::StationChanges;
use crate::entry_number::NO_ENTRY;
use crate::fault::ReviewFault;
use crate::stay::{Stay, end_stay, stay_on};
use dis_records::EntityState;
use exercise_model::LARGEST_ENTITY;

/// Place of the next own change of an entity after `place`, where `own` is the next one from
/// `place` on.
fn next_own_after(course: &StationChanges<'_>, entity: u16, own: usize, place: usize) -> usize
    requires order { AreInOrder course.now }
    requires within { place < length course.now.changes.now }
    requires own { IsNextIn (is_of entity) course.now.changes.now place own }
    ensures { IsNextIn (is_of entity) course.now.changes.now (place + 1) result }
{
    if own == place {
        course.next_own(entity, place)
    } else {
        own
    }
}

/// Place up to which an entity has a state, from `place` on: its next own change `own`, or an
/// earlier change of all entities that changes the state.
fn stay_end(
    course: &StationChanges<'_>,
    entity: u16,
    state: EntityState,
    own: usize,
    place: usize,
) -> usize
    requires order { AreInOrder course.now }
    requires own { IsNextIn (is_of entity) course.now.changes.now place own }
    ensures { IsStayEnd entity state course.now.changes.now own place result }
{
    let _entity = entity;
    let of_all = course.next_change_of_all(state, place);
    if of_all < own { of_all } else { own }
}

/// The stay of an entity of a station before the first change.
fn start_stay(course: &StationChanges<'_>, station: u16, entity: u16) -> Stay
    requires { AreInOrder course.now }
    ensures { result ≡ stay_of station entity (stretch_so_far (start_in course.now entity)) }
{
    Stay {
        station,
        entity,
        state: course.start(entity),
        from: NO_ENTRY,
        until: NO_ENTRY,
    }
}

/// Adds the stays of an entity of a station, given the course of that station; `OverLimit` beyond
/// `most`. Reads only its own changes and those of all entities that change its state.
pub(crate) fn push_life(
    stays: &mut Vec<Stay>,
    most: usize,
    course: &StationChanges<'_>,
    station: u16,
    entity: u16,
) -> Result<(), ReviewFault>
    requires order { AreInOrder course.now }
    requires room { length stays.old.items ≤ most }
    ensures { AddsWithin most stays.old.items (map (stay_of station entity) (course_stretches course.now entity)) result stays.new.items }
{
    let mut stay = start_stay(course, station, entity);
    let mut own = course.first_own(entity);
    let mut place = stay_end(course, entity, stay.state, own, 0);
    while place < course.changes.len() {
        let made = course.changes[place];
        let state = made.change.changed(entity, stay.state);
        stay_on(stays, most, &mut stay, made.entry, state)?;
        own = next_own_after(course, entity, own, place);
        place = stay_end(course, entity, stay.state, own, place + 1);
    }
    end_stay(stays, most, stay, NO_ENTRY)
}

/// Whether the life of an entity may have any stay: it exists before the first change, or some
/// change may create it.
pub(crate) fn has_possible_life(course: &StationChanges<'_>, entity: u16) -> bool
    requires { AreInOrder course.now }
    ensures { result ≡ false → course_stretches course.now entity ≡ [] }
{
    match course.start(entity) {
        EntityState::Absent => {
            let own = course.first_own(entity);
            stay_end(course, entity, EntityState::Absent, own, 0) < course.changes.len()
        }
        EntityState::Stopped | EntityState::Running => true,
    }
}

/// Greatest number of an entity whose life may have any stay, given the course of a station; at
/// most 65,533.
pub(crate) fn last_entity_alive(course: &StationChanges<'_>) -> u16
    requires { AreInOrder course.now }
    ensures within { result ≤ 65533 }
    ensures none { (e : ℕ) → result < e → e ≤ 65533 → course_stretches course.now e ≡ [] }
{
    if course.next_change_of_all(EntityState::Absent, 0) < course.changes.len() {
        return LARGEST_ENTITY;
    }
    if course.last < LARGEST_ENTITY {
        course.last
    } else {
        LARGEST_ENTITY
    }
}
