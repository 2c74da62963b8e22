//! The state of an entity before an entry, replayed from the changes that the pass found.

ghost use Rattle.std.specs.Prelude.{◌≡◌, ◌<◌, ◌≤◌, length, option_and_then};
ghost use Rattle.std.specs.Option.{option_map_or};
ghost use Rattle.exercise_model.specs.History.{station_at};
ghost use Rattle.exercise_model.specs.State.{change_made, changed, state_after};
ghost use Rattle.exercise_model.specs.Place.{log_before, own_event};
ghost use Rattle.exercise_findings.specs.Column.{IsShortColumn};
ghost use Rattle.exercise_findings.specs.Tables.{IsChangeAt};

use crate::change_number::{NO_CHANGE, change_in};
use crate::column::number_at;
use dis_records::EntityState;
use exercise_model::{Change, ExerciseLog, is_entity, listed_state, scope_has, state_made};

/// The state of an entity after a change, if there is one.
fn changed(entity: u16, state: EntityState, change: Option<Change>) -> EntityState
    ensures { result ≡ option_map_or (changed entity state) change state }
{
    match change {
        Some(change) if scope_has(change.scope, entity) => state_made(change.kind, state),
        _ => state,
    }
}

/// The change that an entry makes, if it belongs to this station.
fn own_change<L: ExerciseLog>(
    log: &L,
    changes: &[u32],
    station: u16,
    entry: usize,
) -> Option<Change>
    requires within { entry < length (L.recording log.now).entries }
    requires changes { let r = L.recording log.now in IsShortColumn 0 (IsChangeAt r) (length r.entries) changes.now }
    ensures { let r = L.recording log.now in result ≡ option_and_then (change_made r.setting.exercise (station_at r station) (log_before r station entry)) (own_event r station entry) }
{
    if log.entry(entry).station() == station {
        change_in(number_at(changes, NO_CHANGE, entry))
    } else {
        None
    }
}

/// The state of an entity of a station before an entry.
pub(crate) fn state_made_before<L: ExerciseLog>(
    log: &L,
    changes: &[u32],
    station: u16,
    entity: u16,
    before: usize,
) -> EntityState
    requires at { station < length (L.recording log.now).setting.stations }
    requires within { before ≤ length (L.recording log.now).entries }
    requires changes { let r = L.recording log.now in IsShortColumn 0 (IsChangeAt r) (length r.entries) changes.now }
    ensures { let r = L.recording log.now in result ≡ state_after r.setting.exercise (station_at r station) (log_before r station before) entity }
{
    if !is_entity(entity) {
        return EntityState::Absent;
    }
    let mut state = listed_state(log.station(usize::from(station)).opening(), entity);
    for entry in 0..before {
        state = changed(entity, state, own_change(log, changes, station, entry));
    }
    state
}
