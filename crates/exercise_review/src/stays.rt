//! The compact spans of the lives of a recording's entities, by station, entity and time.

ghost use Rattle.std.specs.Prelude.{◌≡◌, ◌<◌, ◌≤◌, Err, IfErr, length, map};
ghost use Rattle.std.specs.List.{list_any};
ghost use Rattle.exercise_review.specs.Room.{AddsWithin, CountsWithin};
ghost use Rattle.exercise_review.specs.Span.{spans_of, all_spans, changes_made};
ghost use Rattle.exercise_review.specs.Course.{AreChanges, AreInOrder, has_change_of_all, is_all, is_made_of_all, course_stretches};
ghost use Rattle.exercise_review.specs.Stay.{StaysWithin, stay_of, stays_of, all_stays};

use crate::changes::{Made, changes_made};
use crate::course::StationChanges;
use crate::fault::ReviewFault;
use crate::living::{has_possible_life, last_entity_alive, push_life};
use crate::stay::Stay;
use dis_records::Scope;
use exercise_findings::Findings;
use exercise_model::{Change, ExerciseLog};
use std::alloc::Global;

/// Adds the stays of an entity, given the course of its station; `OverLimit` beyond `most`. An
/// entity that never lives is skipped.
fn push_entity(
    stays: &mut Vec<Stay>,
    most: usize,
    course: &StationChanges<'_>,
    station: u16,
    entity: u16,
) -> Result<(), ReviewFault>
    requires order { AreInOrder course.now }
    requires room { length stays.old.items ≤ most }
    ensures { AddsWithin most stays.old.items (map (stay_of station entity) (course_stretches course.now entity)) result stays.new.items }
{
    if has_possible_life(course, entity) {
        push_life(stays, most, course, station, entity)
    } else {
        Ok(())
    }
}

/// Adds the stays of a station's entities, given the changes of that station; `OverLimit` beyond
/// `most`.
fn push_station<L: ExerciseLog>(
    alloc: Global,
    stays: &mut Vec<Stay>,
    most: usize,
    findings: &Findings<'_, L>,
    station: u16,
    changes: &[Made],
) -> Result<(), ReviewFault>
    requires at { station < length findings.now.setting.stations }
    requires changes { changes.now ≡ changes_made findings.now station }
    requires room { length stays.old.items ≤ most }
    ensures { AddsWithin most stays.old.items (stays_of findings.now station) result stays.new.items }
{
    let course = StationChanges::of(alloc, findings, station, changes)?;
    for below in 0..last_entity_alive(&course) {
        push_entity(stays, most, &course, station, below + 1)?;
    }
    Ok(())
}

/// Adds the stays of all stations' entities, given the changes of each station; `OverLimit` beyond
/// `most`.
#[tactic(auto, unfolding(crate::specs::Stay::all_stays))]
fn push_stays<L: ExerciseLog>(
    alloc: Global,
    stays: &mut Vec<Stay>,
    most: usize,
    findings: &Findings<'_, L>,
    changes: &[Vec<Made>],
) -> Result<(), ReviewFault>
    requires changes { AreChanges findings.now (length findings.now.entries) changes.now }
    requires room { length stays.old.items ≤ most }
    ensures { AddsWithin most stays.old.items (all_stays findings.now) result stays.new.items }
{
    for station in 0..findings.log().station_count() {
        push_station(
            alloc,
            stays,
            most,
            findings,
            station as u16,
            &changes[station],
        )?;
    }
    Ok(())
}

/// Adds the number of stays of an entity to a count, given the course of its station; `OverLimit`
/// beyond `most`. `made` is a buffer, cleared for each entity.
fn count_entity(
    made: &mut Vec<Stay>,
    count: usize,
    most: usize,
    course: &StationChanges<'_>,
    station: u16,
    entity: u16,
) -> Result<usize, ReviewFault>
    requires order { AreInOrder course.now }
    requires room { count ≤ most }
    ensures { CountsWithin most count (map (stay_of station entity) (course_stretches course.now entity)) result }
{
    made.clear();
    push_entity(made, most - count, course, station, entity)?;
    Ok(count + made.len())
}

/// Adds the number of stays of a station's entities to a count, given the changes of that station;
/// `OverLimit` beyond `most`.
fn count_station<L: ExerciseLog>(
    alloc: Global,
    count: usize,
    most: usize,
    findings: &Findings<'_, L>,
    station: u16,
    changes: &[Made],
) -> Result<usize, ReviewFault>
    requires at { station < length findings.now.setting.stations }
    requires changes { changes.now ≡ changes_made findings.now station }
    requires room { count ≤ most }
    ensures { CountsWithin most count (stays_of findings.now station) result }
{
    let course = StationChanges::of(alloc, findings, station, changes)?;
    let mut made = Vec::new(alloc);
    let mut count = count;
    for below in 0..last_entity_alive(&course) {
        count = count_entity(&mut made, count, most, &course, station, below + 1)?;
    }
    Ok(count)
}

/// Number of spans in the lives of all stations' entities, given the changes of each station;
/// `OverLimit` if there are more than `most`. Stores the spans of only one entity at a time.
fn number_of_spans<L: ExerciseLog>(
    alloc: Global,
    findings: &Findings<'_, L>,
    changes: &[Vec<Made>],
    most: usize,
) -> Result<usize, ReviewFault>
    requires { AreChanges findings.now (length findings.now.entries) changes.now }
    ensures { CountsWithin most 0 (all_spans findings.now) result }
{
    let _entries = findings.log().entry_count();
    let mut count = 0;
    for station in 0..findings.log().station_count() {
        count = count_station(
            alloc,
            count,
            most,
            findings,
            station as u16,
            &changes[station],
        )?;
    }
    Ok(count)
}

/// Whether a change is one of all entities.
fn is_of_all(change: Change) -> bool
    ensures { result ≡ is_all change.scope }
{
    match change.scope {
        Scope::All => true,
        Scope::One(_) => false,
    }
}

/// Whether any of these changes is one of all entities.
fn has_change_of_all(changes: &[Made]) -> bool
    ensures { result ≡ list_any is_made_of_all changes.now }
{
    changes.iter().any(|made| is_of_all(made.change))
}

/// Whether any change of any station is one of all entities.
fn is_some_change_of_all(changes: &[Vec<Made>]) -> bool
    ensures { result ≡ list_any has_change_of_all changes.now }
{
    changes.iter().any(|made| has_change_of_all(made))
}

/// Returns `OverLimit` if the lives alone have more than `most` spans, given the changes of each
/// station. Counts them only if some change is one of all entities: any other change affects at
/// most one entity, so without such a change there are few spans.
pub(crate) fn refuse_many<L: ExerciseLog>(
    alloc: Global,
    findings: &Findings<'_, L>,
    changes: &[Vec<Made>],
    most: usize,
) -> Result<(), ReviewFault>
    requires { AreChanges findings.now (length findings.now.entries) changes.now }
    ensures { IfErr result (λ fault. CountsWithin most 0 (all_spans findings.now) (Err fault)) }
{
    if is_some_change_of_all(changes) {
        number_of_spans(alloc, findings, changes, most)?;
    }
    Ok(())
}

/// The compact spans of the lives of a station's entities, by entity and time; `OverLimit` if there
/// are more than `most`.
pub(crate) fn stays_of<L: ExerciseLog>(
    alloc: Global,
    findings: &Findings<'_, L>,
    station: u16,
    most: usize,
) -> Result<Vec<Stay>, ReviewFault>
    requires { station < length findings.now.setting.stations }
    ensures { StaysWithin findings.now most (spans_of findings.now station) result }
{
    let _entries = findings.log().entry_count();
    let changes = changes_made(alloc, findings, station)?;
    let mut stays = Vec::new(alloc);
    push_station(alloc, &mut stays, most, findings, station, &changes)?;
    Ok(stays)
}

/// The compact spans of the lives of all stations' entities, given the changes of each station, by
/// station, entity and time; `OverLimit` if there are more than `most`.
pub(crate) fn stays_within<L: ExerciseLog>(
    alloc: Global,
    findings: &Findings<'_, L>,
    changes: &[Vec<Made>],
    most: usize,
) -> Result<Vec<Stay>, ReviewFault>
    requires { AreChanges findings.now (length findings.now.entries) changes.now }
    ensures { StaysWithin findings.now most (all_spans findings.now) result }
{
    let _entries = findings.log().entry_count();
    let mut stays = Vec::new(alloc);
    push_stays(alloc, &mut stays, most, findings, changes)?;
    Ok(stays)
}
