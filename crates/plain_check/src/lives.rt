//! The lives of the entities of a recording.

use crate::entries::pdu_at;
use crate::outcomes::stamp_of;
use crate::parties::station_address;
use crate::report::{changes, plain_pair};
use crate::state::opening_state;
use dis_records::{EntityId, EntityState};
use exercise_model::{Change, ExerciseLog, is_entity};
use exercise_review::{Span, Stretch};
use siman_pdus::request_id;
use std::alloc::{AllocError, Global};

/// Adds a stretch, unless its state is Absent.
fn push_stretch(
    stretches: &mut Vec<Stretch>,
    state: EntityState,
    from: Option<usize>,
    until: Option<usize>,
) -> Result<(), AllocError> {
    if state != EntityState::Absent {
        stretches.push(Stretch { state, from, until })?;
    }
    Ok(())
}

/// The stretches of an entity's life, given its state at the start and the changes of its station.
/// Each ends at the change to another state.
fn stretches_by(
    alloc: Global,
    entity: u16,
    mut state: EntityState,
    changes: &[(usize, Change)],
) -> Result<Vec<Stretch>, AllocError> {
    let mut stretches = Vec::new(alloc);
    let mut from = None;
    for (entry, change) in changes {
        let next = change.changed(entity, state);
        if next != state {
            push_stretch(&mut stretches, state, from, Some(*entry))?;
            state = next;
            from = Some(*entry);
        }
    }
    push_stretch(&mut stretches, state, from, None)?;
    Ok(stretches)
}

/// The life of an entity of a station.
pub fn plain_lives<L: ExerciseLog>(
    alloc: Global,
    log: &L,
    station: u16,
    entity: u16,
) -> Result<Vec<Stretch>, AllocError> {
    if !is_entity(entity) {
        return Ok(Vec::new(alloc));
    }
    let changes = changes(alloc, log, usize::from(station))?;
    let state = opening_state(log, usize::from(station), entity);
    stretches_by(alloc, entity, state, &changes)
}

/// A span of an entity's life, from its stretch.
fn span_of<L: ExerciseLog>(log: &L, entity: EntityId, stretch: Stretch) -> Span {
    let behind = match stretch.from {
        Some(entry) => plain_pair(log, entry),
        None => None,
    };
    let asked = match behind {
        Some(request) => pdu_at(log, request),
        None => None,
    };
    let (by, request) = match asked {
        Some(pdu) => (Some(pdu.origin.site_application()), request_id(&pdu)),
        None => (None, None),
    };
    Span {
        entity,
        state: stretch.state,
        from: stretch.from,
        to: stretch.until,
        since: stamp_of(log, stretch.from),
        until: stamp_of(log, stretch.until),
        by,
        request,
    }
}

/// Adds the spans of an entity's life.
fn push_spans<L: ExerciseLog>(
    log: &L,
    spans: &mut Vec<Span>,
    entity: EntityId,
    stretches: &[Stretch],
) -> Result<(), AllocError> {
    for stretch in stretches {
        spans.push(span_of(log, entity, *stretch))?;
    }
    Ok(())
}

/// Adds the spans of the lives of a station's entities in `1..=most`.
pub(crate) fn push_lives<L: ExerciseLog>(
    alloc: Global,
    log: &L,
    spans: &mut Vec<Span>,
    station: u16,
    most: u16,
) -> Result<(), AllocError> {
    let changes = changes(alloc, log, usize::from(station))?;
    let at = station_address(log, station);
    for number in 1..=most {
        let state = opening_state(log, usize::from(station), number);
        let stretches = stretches_by(alloc, number, state, &changes)?;
        let entity = EntityId {
            site: at.site,
            application: at.application,
            entity: number,
        };
        push_spans(log, spans, entity, &stretches)?;
    }
    Ok(())
}
