//! Whether parts of a log open as the log before them ends.

ghost use Rattle.std.specs.Prelude.{◌≡◌, ◌≤◌, ℕ, length, map, slice_index_or, IfOk, [], Option};
ghost use Rattle.exercise_model.specs.Place.{log_before};
ghost use Rattle.exercise_recording.specs.Joining.{place_among};
ghost use Rattle.exercise_recording.specs.Reading.{recording_at};
ghost use Rattle.siman_outside.specs.declared.limits.TheConstants.{LARGEST_RECORDING};
ghost use Rattle.siman_file_commands.specs.Openings.{pair_difference, first_difference, entities_then, other_entity, first_other, FindsOther, Judges};

use dis_records::{Address, EntityState};
use exercise_findings::{Findings, StatesBefore};
use exercise_model::{ExerciseLog, is_above};
use exercise_recording::{Joint, LaterOpening, RecordingView};
use siman_outside::{Fault, LARGEST_RECORDING};
use std::alloc::{AllocError, Global};
use std::convert::AsStr;

/// An opening list that does not agree with the log before it.
#[derive(Clone, Copy)]
pub(crate) struct OtherOpening {
    /// Number of pieces before its own.
    pub piece: usize,
    /// Address of the station.
    pub address: Address,
    /// Number of the first entity that has another state in it.
    pub entity: u16,
}

/// The entity of which two entities with their states differ: the lower number, if the numbers
/// differ.
fn pair_difference(one: (u16, EntityState), other: (u16, EntityState)) -> Option<u16>
    ensures { result ≡ pair_difference one other }
{
    if one.0 != other.0 {
        return Some(one.0.min(other.0));
    }
    if one.1 != other.1 {
        return Some(one.0);
    }
    None
}

/// The first entity by number that one of two lists has alone or in another state, where the numbers
/// of both rise.
fn first_difference(ones: &[(u16, EntityState)], others: &[(u16, EntityState)]) -> Option<u16>
    ensures { result ≡ first_difference ones.now others.now }
{
    let mut left = ones;
    let mut right = others;
    while let [one, more @ ..] = left {
        let [other, rest @ ..] = right else {
            return Some(one.0);
        };
        let difference = pair_difference(*one, *other);
        if difference.is_some() {
            return difference;
        }
        left = more;
        right = rest;
    }
    match right.first() {
        Some(other) => Some(other.0),
        None => None,
    }
}

/// Index of the station with an address among those of a log: how many have a lower address.
fn place_among<L: ExerciseLog>(log: &L, address: Address) -> usize
    ensures { result ≡ place_among (L.recording log.now).setting.stations address }
{
    let mut place = 0;
    for index in 0..log.station_count() {
        if is_above(Some(log.station(index).address()), address) {
            place += 1;
        }
    }
    place
}

/// The first entity of which an opening list has another state than the log of its station, given
/// the states before its part.
fn other_entity<L: ExerciseLog>(
    alloc: Global,
    log: &L,
    states: &StatesBefore<'_, '_, L>,
    later: &LaterOpening,
) -> Result<Option<u16>, AllocError>
    requires { states.now.recording ≡ L.recording log.now }
    ensures { IfOk result (λ entity. entity ≡ first_difference (entities_then (L.recording log.now) (place_among (L.recording log.now).setting.stations later.now.station.address) states.now.index) later.now.station.opening) }
{
    let place = place_among(log, later.address());
    if place >= log.station_count() {
        return Ok(first_difference(&[], later.opening()));
    }
    let entities = states.entities(alloc, place as u16)?;
    Ok(first_difference(&entities, later.opening()))
}

/// The entry of this number, or the end of the log where it has fewer: the logs before both are equal.
fn entry_within<L: ExerciseLog>(log: &L, entry: usize) -> usize
    ensures within { result ≤ length (L.recording log.now).entries }
    ensures same { (s : ℕ) → log_before (L.recording log.now) s result ≡ log_before (L.recording log.now) s entry }
{
    if entry > log.entry_count() {
        log.entry_count()
    } else {
        entry
    }
}

/// The first opening list that does not agree with the log before it.
fn first_other<L: ExerciseLog>(
    alloc: Global,
    log: &L,
    later: &[LaterOpening],
) -> Result<Option<OtherOpening>, AllocError>
    ensures { IfOk result (λ other. other ≡ first_other (L.recording log.now) later.now) }
{
    let findings = Findings::of(alloc, log)?;
    let mut states = StatesBefore::start(alloc, &findings)?;
    for opening in later {
        states = states.at(alloc, entry_within(log, opening.entry()))?;
        if let Some(entity) = other_entity(alloc, log, &states, opening)? {
            return Ok(Some(OtherOpening {
                piece: opening.piece(),
                address: opening.address(),
                entity,
            }));
        }
    }
    Ok(None)
}

/// The first opening list that does not agree with the log before it, in the recording whose text
/// this is. The text of joined pieces is always one, so that no fault but want of memory comes.
fn first_other_in(
    alloc: Global,
    text: &[u8],
    later: &[LaterOpening],
) -> Result<Option<OtherOpening>, Fault<'static>>
    ensures { FindsOther (recording_at LARGEST_RECORDING text.now) later.now result }
{
    match RecordingView::over_limited(alloc, text, LARGEST_RECORDING) {
        Ok(log) => {
            let other = first_other(alloc, &log, later)?;
            Ok(other)
        }
        Err(_) => Err(Fault::Memory),
    }
}

/// The name of this index, or none past the last.
fn name_at<S: AsStr>(names: &[S], index: usize) -> &str
    ensures { result.now ≡ slice_index_or (map S.text names.now) index [] }
{
    match names.get(index) {
        Some(name) => name.as_str(),
        None => "",
    }
}

/// Judges the opening lists of joined pieces with these names: of each later part of a log, they have
/// to be the states in which the log before it leaves the entities of its station.
pub(crate) fn judge_openings<'a, S: AsStr>(
    alloc: Global,
    names: &'a [S],
    joint: &Joint,
) -> Result<(), Fault<'a>>
    ensures { Judges (map S.text names.now) joint.now result }
{
    if joint.later().is_empty() {
        return Ok(());
    }
    let mut text: Vec<u8> = Vec::new(alloc);
    if joint.write(&mut text).is_err() {
        return Err(Fault::Memory);
    }
    match first_other_in(alloc, &text, joint.later())? {
        None => Ok(()),
        Some(other) => Err(Fault::OtherOpening(
            other.address.site(),
            other.address.application(),
            other.entity,
            name_at(names, other.piece),
        )),
    }
}
