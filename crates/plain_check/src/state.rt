//! The state of an entity of a station before an entry.

use crate::change::change_made;
use dis_records::EntityState;
use exercise_model::{ExerciseLog, is_entity};

/// The state that an entity of a station has at the start.
pub(crate) fn opening_state<L: ExerciseLog>(log: &L, station: usize, entity: u16) -> EntityState {
    if station < log.station_count() {
        log.station(station).opening_state(entity)
    } else {
        EntityState::Absent
    }
}

/// The state of an entity of a station before an entry; Absent if no entity can have this number.
pub(crate) fn state_before<L: ExerciseLog>(
    log: &L,
    station: usize,
    before: usize,
    entity: u16,
) -> EntityState {
    if !is_entity(entity) {
        return EntityState::Absent;
    }
    let mut state = opening_state(log, station, entity);
    for i in 0..before {
        if let Some(change) = change_made(log, station, i) {
            state = change.changed(entity, state);
        }
    }
    state
}
