//! The state of an entity of a station before an entry, and the entities after all logs.

ghost use Rattle.std.specs.Prelude.{◌≡◌, ◌<◌, ◌≤◌, ◌+◌, ◌*◌, length, [], ◌∷◌, ◌++◌, if◌then◌else◌, option_map, IfOk, OnOk};
ghost use Rattle.siman_pdus.specs.Reading.{pdu_of};
ghost use Rattle.exercise_model.specs.Station.{is_absent};
ghost use Rattle.exercise_model.specs.History.{station_at};
ghost use Rattle.exercise_model.specs.Change.{is_change};
ghost use Rattle.exercise_model.specs.State.{change_by, state_after, present_below};
ghost use Rattle.exercise_model.specs.Place.{log_before};
ghost use Rattle.exercise_model.specs.Account.{entities_of};
ghost use Rattle.exercise_findings.specs.TakenUp.{request_of_sent};
ghost use Rattle.exercise_findings.specs.States.{has_page, state_or_absent};
ghost use Rattle.exercise_findings.specs.Tables.{AreTablesBelow};

use crate::states::{PAGE, PAGES, SingleState, States, state_or_absent};
use crate::tables::Tables;
use dis_records::EntityState;
use exercise_model::{Change, ExerciseLog};
use siman_pdus::PduView;
use std::alloc::{AllocError, Global};

/// The change that a PDU makes which a station sends at an entry. `first`: whether it is the first
/// Able under its key; `taken`: the request that it takes up, with its entry.
#[tactic(auto, unfolding(exercise_model::specs::State::change_by))]
pub(crate) fn change_by<L: ExerciseLog>(
    log: &L,
    station: u16,
    before: usize,
    pdu: &PduView<'_>,
    first: bool,
    taken: &Option<(u32, PduView<'_>)>,
) -> Option<Change>
    requires at { station < length (L.recording log.now).setting.stations }
    requires first { let r = L.recording log.now in first ≡ is_change r.setting.exercise (pdu_of pdu.now) (log_before r station before) }
    requires request { option_map (λ t. pdu_of t.1) taken.now ≡ request_of_sent (L.recording log.now) station before (pdu_of pdu.now) }
    ensures { let r = L.recording log.now in result ≡ change_by r.setting.exercise (station_at r station) (log_before r station before) (pdu_of pdu.now) }
{
    let (_log, _station, _before) = (log, station, before);
    match taken {
        Some((_, request)) if first => Change::carried_out(pdu, request),
        _ => None,
    }
}

/// The state of an entity of a station before an entry.
pub(crate) fn state_before<L: ExerciseLog>(
    log: &L,
    tables: &Tables,
    station: u16,
    before: usize,
    entity: u16,
) -> EntityState
    requires at { station < length (L.recording log.now).setting.stations }
    requires within { before ≤ length (L.recording log.now).entries }
    requires tied { AreTablesBelow (L.recording log.now) before tables.now }
    ensures { let r = L.recording log.now in result ≡ state_after r.setting.exercise (station_at r station) (log_before r station before) entity }
{
    state_or_absent(&tables.states[usize::from(station)], entity)
}

/// Appends an entity with its state if it is not Absent.
fn push_present(
    entities: &mut Vec<(u16, EntityState)>,
    entity: u16,
    state: EntityState,
) -> Result<(), AllocError>
    ensures { OnOk result (entities.new.items ≡ entities.old.items ++ (if is_absent state then [] else (entity, state) ∷ [])) }
{
    if state != EntityState::Absent {
        entities.push((entity, state))?;
    }
    Ok(())
}

/// Whether a page holds states of single entities.
fn has_page(pages: &[Vec<SingleState>], page: u16) -> bool
    ensures { result ≡ has_page pages.now page }
{
    let page = usize::from(page);
    page < pages.len() && !pages[page].is_empty()
}

/// Appends the entities of the next page that are not Absent.
fn push_page(
    entities: &mut Vec<(u16, EntityState)>,
    states: &States,
    page: u16,
) -> Result<(), AllocError>
    requires page { page < 256 }
    requires so_far { entities.old.items ≡ present_below (state_or_absent states.now) (page * 256) }
    ensures { OnOk result (entities.new.items ≡ present_below (state_or_absent states.now) ((page + 1) * 256)) }
{
    if states.rest == EntityState::Absent && !has_page(&states.pages, page) {
        return Ok(());
    }
    for place in 0..PAGE {
        let entity = page * PAGE + place;
        push_present(entities, entity, state_or_absent(states, entity))?;
    }
    Ok(())
}

/// The entities that are not Absent, by rising numbers.
pub(crate) fn present(alloc: Global, states: &States) -> Result<Vec<(u16, EntityState)>, AllocError>
    ensures { IfOk result (λ entities. entities.items ≡ present_below (state_or_absent states.now) 65536) }
{
    let mut entities = Vec::new(alloc);
    for page in 0..PAGES {
        push_page(&mut entities, states, page)?;
    }
    Ok(entities)
}

/// The entities of a station that are not Absent after its log, by rising numbers.
pub(crate) fn entities<L: ExerciseLog>(
    alloc: Global,
    log: &L,
    tables: &Tables,
    station: usize,
) -> Result<Vec<(u16, EntityState)>, AllocError>
    requires at { station < length (L.recording log.now).setting.stations }
    requires tied { let r = L.recording log.now in AreTablesBelow r (length r.entries) tables.now }
    ensures { let r = L.recording log.now in IfOk result (λ entities. entities.items ≡ entities_of r station) }
{
    present(alloc, &tables.states[station])
}
