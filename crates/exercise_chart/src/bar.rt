//! The bars of a picture: the states of the stations' entities over the steps.

ghost use Rattle.std.specs.Prelude.{◌≡◌, ◌<◌, ◌≤◌, ◌++◌, length, option_map, OnOk, IfOk};
ghost use Rattle.exercise_chart.specs.Scene.{point_in};
ghost use Rattle.exercise_chart.specs.Bar.{is_among, is_chosen, began, reaches, is_shown, no_slots, next_slots, bar_of, bars_in, bars_from, slots_after, undrawn_of, station_bars, station_undrawn, bars_of, all_undrawn, Adds, Makes};

use crate::fault::ChartFault;
use crate::point::Point;
use crate::scene::Scene;
use dis_records::{EntityId, EntityState};
use exercise_model::ExerciseLog;
use exercise_review::{ReviewFault, Span, spans_of};
use std::alloc::{AllocError, Global};

/// Largest number of entities of one station for which bars are drawn.
pub const MOST_ENTITIES: usize = 8;

/// Largest number of spans that the entities of one station may have.
pub const MOST_STRETCHES: usize = 4_194_304;

/// A bar: one span of an entity's life, in which its state was Stopped or Running.
#[derive(Clone, Copy)]
pub struct Bar {
    /// The index of the station.
    pub station: u16,
    /// The entity's number, from 0, among the drawn entities of its station, in rising order.
    pub slot: usize,
    pub entity: EntityId,
    /// Stopped or Running.
    pub state: EntityState,
    /// The change that began the span; `None` if the span lasts from the start.
    pub from: Option<Point>,
    /// The change that ended the span; `None` if it lasts to the end.
    pub to: Option<Point>,
}

/// How many entities of a station have no bar, though a span of theirs would be in the picture.
#[derive(Clone, Copy)]
pub struct Undrawn {
    /// The index of the station.
    pub station: u16,
    pub entities: usize,
}

/// The bars of a picture, and the stations that have more entities than bars are drawn for.
#[derive(Drop)]
pub(crate) struct EntityBars {
    pub bars: Vec<Bar>,
    pub undrawn: Vec<Undrawn>,
}

/// How many slots of a station are used so far, and the entity in the last one.
#[derive(Clone, Copy)]
pub(crate) struct BarSlots {
    pub used: usize,
    pub last: Option<u16>,
}

/// Whether an entity is among these.
fn is_among(entities: &[EntityId], entity: EntityId) -> bool
    ensures { result ≡ is_among entities.now entity }
{
    let mut others = entities;
    while let [other, rest @ ..] = others {
        if *other == entity {
            return true;
        }
        others = rest;
    }
    false
}

/// Whether an entity is chosen: it is among these, or these are none.
fn is_chosen(chosen: &[EntityId], entity: EntityId) -> bool
    ensures { result ≡ is_chosen chosen.now entity }
{
    chosen.is_empty() || is_among(chosen, entity)
}

/// Whether a span began in the last row or before it.
fn began<L: ExerciseLog>(scene: &Scene<'_, L>, span: &Span) -> bool
    ensures { result ≡ began scene.now span.now }
{
    match span.from {
        Some(entry) => scene.step_of(entry) < scene.rows().end,
        None => true,
    }
}

/// Whether a span did not end before the first row.
fn reaches<L: ExerciseLog>(scene: &Scene<'_, L>, span: &Span) -> bool
    ensures { result ≡ reaches scene.now span.now }
{
    match span.to {
        Some(entry) => scene.rows().first <= scene.step_of(entry),
        None => true,
    }
}

/// Whether a span is shown.
fn is_shown<L: ExerciseLog>(scene: &Scene<'_, L>, span: &Span) -> bool
    ensures { result ≡ is_shown scene.now span.now }
{
    is_chosen(scene.chosen(), span.entity) && began(scene, span) && reaches(scene, span)
}

/// The slots after `entity`: unchanged if it has the last slot, else with one more.
fn next_slots(slots: BarSlots, entity: u16) -> BarSlots
    requires { slots.used < 4194304 }
    ensures { result ≡ next_slots slots entity }
{
    if slots.last == Some(entity) {
        slots
    } else {
        BarSlots {
            used: slots.used + 1,
            last: Some(entity),
        }
    }
}

/// The point of an entry, if an entry is given.
fn point_if<L: ExerciseLog>(scene: &Scene<'_, L>, entry: Option<usize>) -> Option<Point>
    ensures { result ≡ option_map (point_in scene.now) entry }
{
    match entry {
        Some(entry) => Some(scene.point(entry)),
        None => None,
    }
}

/// The bar of one span of a station's entity.
fn bar_of<L: ExerciseLog>(scene: &Scene<'_, L>, station: u16, slot: usize, span: &Span) -> Bar
    ensures { result ≡ bar_of scene.now station slot span.now }
{
    Bar {
        station,
        slot,
        entity: span.entity,
        state: span.state,
        from: point_if(scene, span.from),
        to: point_if(scene, span.to),
    }
}

/// Adds the bar of a span, if its entity is among the first `MOST_ENTITIES`.
fn push_bar<L: ExerciseLog>(
    bars: &mut Vec<Bar>,
    scene: &Scene<'_, L>,
    station: u16,
    slots: BarSlots,
    span: &Span,
) -> Result<(), AllocError>
    ensures { OnOk result (bars.new.items ≡ bars.old.items ++ bars_in scene.now station slots span.now) }
{
    if slots.used <= MOST_ENTITIES {
        bars.push(bar_of(scene, station, slots.used.saturating_sub(1), span))?;
    }
    Ok(())
}

/// Adds the bars of a station's spans, which are sorted by entity. Returns how many entities have a
/// span that is shown.
#[tactic(auto, unfolding(crate::specs::Bar::bars_from, crate::specs::Bar::slots_after))]
fn push_bars<L: ExerciseLog>(
    bars: &mut Vec<Bar>,
    scene: &Scene<'_, L>,
    station: u16,
    spans: &[Span],
) -> Result<usize, AllocError>
    requires { length spans.now ≤ MOST_STRETCHES }
    ensures bars { OnOk result (bars.new.items ≡ bars.old.items ++ bars_from scene.now station no_slots spans.now) }
    ensures entities { IfOk result (λ entities. entities ≡ (slots_after scene.now no_slots spans.now).used) }
{
    let mut slots = BarSlots {
        used: 0,
        last: None,
    };
    for span in spans {
        if is_shown(scene, span) {
            slots = next_slots(slots, span.entity.entity);
            push_bar(bars, scene, station, slots, span)?;
        }
    }
    Ok(slots.used)
}

/// Adds how many of a station's shown entities have no bar, if any.
fn push_undrawn(undrawn: &mut Vec<Undrawn>, station: u16, entities: usize) -> Result<(), AllocError>
    ensures { OnOk result (undrawn.new.items ≡ undrawn.old.items ++ undrawn_of station entities) }
{
    if entities > MOST_ENTITIES {
        undrawn.push(Undrawn {
            station,
            entities: entities - MOST_ENTITIES,
        })?;
    }
    Ok(())
}

/// Adds the bars of a station, and how many of its entities have none.
#[tactic(auto, unfolding(crate::specs::Bar::station_bars, crate::specs::Bar::entities_shown))]
fn push_station<L: ExerciseLog>(
    alloc: Global,
    bars: &mut Vec<Bar>,
    undrawn: &mut Vec<Undrawn>,
    scene: &Scene<'_, L>,
    station: u16,
) -> Result<(), ChartFault>
    requires { station < length scene.now.recording.setting.stations }
    ensures bars { Adds scene.now.recording bars.old.items (station_bars scene.now station) result bars.new.items }
    ensures undrawn { OnOk result (undrawn.new.items ≡ undrawn.old.items ++ station_undrawn scene.now station) }
{
    match spans_of(alloc, scene.register(), station, MOST_STRETCHES) {
        Ok(spans) => {
            let entities = push_bars(bars, scene, station, &spans)?;
            push_undrawn(undrawn, station, entities)?;
            Ok(())
        }
        Err(ReviewFault::OverLimit) => Err(ChartFault::OverLimit),
        Err(ReviewFault::Memory) => Err(ChartFault::Memory),
    }
}

/// All bars, by station, entity and time, and all stations with more entities. `OverLimit` if the entities of a station have more than
/// `MOST_STRETCHES` spans.
#[tactic(auto, unfolding(crate::specs::Bar::bars_of, crate::specs::Bar::all_undrawn), using(crate::proofs::Lists::list_steps))]
pub(crate) fn bars_of<L: ExerciseLog>(
    alloc: Global,
    scene: &Scene<'_, L>,
) -> Result<EntityBars, ChartFault>
    ensures { Makes scene.now result }
{
    let mut bars = Vec::new(alloc);
    let mut undrawn = Vec::new(alloc);
    for station in 0..scene.log().station_count() {
        push_station(alloc, &mut bars, &mut undrawn, scene, station as u16)?;
    }
    Ok(EntityBars { bars, undrawn })
}
