//! The change that made the state of an entity at a place.

ghost use Rattle.std.specs.Prelude.{◌≡◌, ◌<◌, ◌≤◌, length, option_and_then, Some};
ghost use Rattle.std.specs.Option.{option_map_or};
ghost use Rattle.exercise_model.specs.History.{station_at};
ghost use Rattle.exercise_model.specs.State.{change_made, changed};
ghost use Rattle.exercise_model.specs.Cause.{same_state};
ghost use Rattle.exercise_model.specs.Place.{log_before, own_event};
ghost use Rattle.exercise_findings.specs.State.{state_before};
ghost use Rattle.exercise_conflict.specs.Since.{last_change_entry};

use crate::logs::Logs;
use dis_records::EntityState;
use exercise_findings::Findings;
use exercise_model::{Change, ExerciseLog, is_entity, listed_state, scope_has, state_made};

/// The state of an entity after a change, if there is one.
fn changed(entity: u16, state: EntityState, change: Option<Change>) -> EntityState
    ensures { result ≡ option_map_or (changed entity state) change state }
{
    match change {
        Some(change) if scope_has(change.scope, entity) => state_made(change.kind, state),
        _ => state,
    }
}

/// The change that an entry makes, if it belongs to this station.
fn own_change<L: ExerciseLog>(
    findings: &Findings<'_, L>,
    station: u16,
    entry: usize,
) -> Option<Change>
    requires { entry < length findings.now.entries }
    ensures { let r = findings.now in result ≡ option_and_then (change_made r.setting.exercise (station_at r station) (log_before r station entry)) (own_event r station entry) }
{
    if findings.log().entry(entry).station() == station {
        findings.change(entry)
    } else {
        None
    }
}

/// Whether two states are equal.
fn is_same(next: EntityState, state: EntityState) -> bool
    ensures { result ≡ same_state next state }
{
    next == state
}

/// The state of an entity of a station before an entry, and the entry of the change that made it.
pub(crate) fn state_and_change<L: ExerciseLog>(
    logs: &Logs<'_, '_, L>,
    station: u16,
    entity: u16,
    before: usize,
) -> (EntityState, Option<usize>)
    requires at { station < length logs.now.setting.stations }
    requires within { before ≤ length logs.now.entries }
    ensures state { result.0 ≡ state_before logs.now station entity before }
    ensures since { result.1 ≡ last_change_entry logs.now station entity before }
{
    if !is_entity(entity) {
        return (EntityState::Absent, None);
    }
    let findings = logs.findings();
    let opening = findings.log().station(usize::from(station)).opening();
    let mut state = listed_state(opening, entity);
    let mut since = None;
    let mut entry = logs.first(station, before);
    while entry < before {
        let next = changed(entity, state, own_change(findings, station, entry));
        if !is_same(next, state) {
            since = Some(entry);
        }
        state = next;
        entry = logs.follower(station, entry, before);
    }
    (state, since)
}

/// The entry of the change that made an entity's state before an entry: the last one that altered
/// the state. `None` if the entity still has its initial state, and for a number that no entity
/// has. It scans all entries before, and takes no memory.
pub fn last_change_entry<L: ExerciseLog>(
    findings: &Findings<'_, L>,
    station: u16,
    entity: u16,
    before: usize,
) -> Option<usize>
    requires at { station < length findings.now.setting.stations }
    requires within { before ≤ length findings.now.entries }
    ensures { result ≡ last_change_entry findings.now station entity before }
{
    let (_, since) = state_and_change(&Logs::unwritten(findings), station, entity, before);
    since
}
