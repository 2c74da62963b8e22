//! Search in the sequence of time: of all stations whose next entry may happen, the one with the
//! earliest goes on. A station that cannot go on has no turn; if it receives a datagram that was
//! not sent so far, it has its turn again once the entry that sends it is taken.

ghost use Rattle.std.specs.Prelude.{◌≡◌, ◌<◌, ◌≤◌, ◌+◌, ℕ, length, None, OnOk, IfOk, true, false};
ghost use Rattle.exercise_model.specs.declared.station.TheConstants.{MOST_STATIONS};
ghost use Rattle.exercise_model.specs.Stamps.{AreStamps};
ghost use Rattle.exercise_check.specs.Course.{IsCourse, begun, so_far};
ghost use Rattle.exercise_audit.specs.Next.{IsHeld};
ghost use Rattle.exercise_audit.specs.Time.{IsTimely};
ghost use Rattle.exercise_audit.specs.Turns.{turn_of, turn_count, IsFirstOf};
ghost use Rattle.exercise_audit.specs.Search.{IsTurn, HaveTurns, IsSearch, WaitsFor};

use crate::first_entries::take_first_entries;
use crate::turns::{Moment, Turn, Turns};
use crate::waiting::{Waiting, no_waiting, wait, wake};
use exercise_check::{Course, Progress};
use exercise_model::{Cause, ExerciseLog, Stamps};
use std::alloc::{AllocError, Global};

/// Moment of the next entry of a station, if it has one.
fn next_turn<L: ExerciseLog>(
    course: &Course<'_, L>,
    stamps: &Stamps,
    station: usize,
) -> Option<Moment>
    requires { AreStamps course.now.recording stamps.now }
    ensures { IsTurn course.now station result }
{
    let entry = course.next_entry(station)?;
    Some(Moment {
        stamp: stamps.at(entry),
        entry,
    })
}

/// Gives each of these stations its turn.
fn give_turns<L: ExerciseLog>(
    course: &Course<'_, L>,
    stamps: &Stamps,
    turns: &mut Turns,
    stations: &[usize],
)
    requires { AreStamps course.now.recording stamps.now }
    ensures { HaveTurns course.now stations.now turns.old turns.new }
{
    for station in stations {
        turns.set(*station, next_turn(course, stamps, *station));
    }
}

/// Makes a station wait for the source of its entry, if the station cannot go on because the
/// datagram was not sent.
fn wait_for<L: ExerciseLog>(
    alloc: Global,
    course: &Course<'_, L>,
    waiting: &mut Waiting,
    station: usize,
    entry: usize,
    cause: Cause,
) -> Result<(), AllocError>
    ensures { OnOk result (WaitsFor course.now.recording entry station cause waiting.old waiting.new) }
{
    if cause != Cause::NeverSent {
        return Ok(());
    }
    match course.source(entry) {
        Some(source) => wait(alloc, waiting, source as usize, station),
        None => Ok(()),
    }
}

/// The station whose turn is first takes its entry, if it may; returns whether it did. Then those
/// that waited for this entry have their turns. If it may not, it has no turn for now.
fn take_turn<L: ExerciseLog>(
    alloc: Global,
    course: &mut Course<'_, L>,
    stamps: &Stamps,
    waiting: &mut Waiting,
    turns: &mut Turns,
    turn: Turn,
) -> Result<bool, AllocError>
    requires stamps { AreStamps course.old.recording stamps.now }
    requires search { IsSearch course.old waiting.old turns.old }
    requires first { IsFirstOf turns.old 0 (length turns.old) turn }
    ensures recording { course.new.recording ≡ course.old.recording }
    ensures search { IfOk result (λ taken. IsSearch course.new waiting.new turns.new) }
    ensures taken { IfOk result (λ taken. taken ≡ true → length course.new.steps ≡ length course.old.steps + 1) }
    ensures same { IfOk result (λ taken. taken ≡ false → course.new ≡ course.old) }
    ensures fewer { IfOk result (λ taken. taken ≡ false → turn_count turns.new < turn_count turns.old) }
{
    let Turn { station, moment } = turn;
    match course.go_on_at(alloc, station, moment.entry)? {
        Progress::Taken(_) => {
            turns.set(station, next_turn(course, stamps, station));
            let woken = wake(alloc, waiting, moment.entry);
            give_turns(course, stamps, turns, woken.as_slice());
            Ok(true)
        }
        Progress::Barred(cause) => {
            wait_for(alloc, course, waiting, station, moment.entry, cause)?;
            turns.set(station, None);
            Ok(false)
        }
    }
}

/// Takes the earliest entry of those that may happen next; returns whether there is one.
fn take_earliest<L: ExerciseLog>(
    alloc: Global,
    course: &mut Course<'_, L>,
    stamps: &Stamps,
    waiting: &mut Waiting,
    turns: &mut Turns,
) -> Result<bool, AllocError>
    requires stamps { AreStamps course.old.recording stamps.now }
    requires search { IsSearch course.old waiting.old turns.old }
    ensures recording { course.new.recording ≡ course.old.recording }
    ensures search { IfOk result (λ taken. IsSearch course.new waiting.new turns.new) }
    ensures taken { IfOk result (λ taken. taken ≡ true → length course.new.steps ≡ length course.old.steps + 1) }
    ensures none { IfOk result (λ taken. taken ≡ false → (s : ℕ) → s < length turns.new → turn_of turns.new s ≡ None) }
{
    loop {
        let Some(turn) = turns.first() else {
            return Ok(false);
        };
        if take_turn(alloc, course, stamps, waiting, turns, turn)? {
            return Ok(true);
        }
    }
}

/// The turns of all stations before the first step.
fn first_turns<L: ExerciseLog>(
    alloc: Global,
    course: &Course<'_, L>,
    stamps: &Stamps,
    stations: usize,
) -> Result<Turns, AllocError>
    requires stamps { AreStamps course.now.recording stamps.now }
    requires few { stations ≤ MOST_STATIONS }
    ensures count { IfOk result (λ turns. length turns ≡ stations) }
    ensures each { IfOk result (λ turns. (s : ℕ) → s < stations → IsTurn course.now s (turn_of turns s)) }
{
    let mut turns = Turns::none(alloc, stations)?;
    for station in 0..stations {
        turns.set(station, next_turn(course, stamps, station));
    }
    Ok(turns)
}

/// Takes entries in the sequence of time from any beginning of it on, until no station can go on.
fn take_others<L: ExerciseLog>(
    alloc: Global,
    log: &L,
    course: &mut Course<'_, L>,
) -> Result<(), AllocError>
    requires recording { course.old.recording ≡ L.recording log.now }
    requires course { IsCourse course.old }
    requires timely { IsTimely course.old.recording course.old.steps }
    ensures recording { course.new.recording ≡ course.old.recording }
    ensures course { OnOk result (IsCourse course.new) }
    ensures timely { OnOk result (IsTimely course.new.recording course.new.steps) }
    ensures held { OnOk result ((s : ℕ) → s < length course.new.recording.setting.stations → IsHeld course.new.recording (so_far course.new) s) }
{
    let stamps = Stamps::of(alloc, log)?;
    let mut waiting = no_waiting(alloc);
    let mut turns = first_turns(alloc, course, &stamps, log.station_count())?;
    loop {
        if !take_earliest(alloc, course, &stamps, &mut waiting, &mut turns)? {
            break;
        }
    }
    Ok(())
}

/// Takes entries in the sequence of time, until no station can go on. As long as that is the
/// sequence of the recording, no station needs a turn.
pub(crate) fn take_entries<L: ExerciseLog>(
    alloc: Global,
    log: &L,
    course: &mut Course<'_, L>,
) -> Result<(), AllocError>
    requires { course.old ≡ begun (L.recording log.now) }
    ensures recording { course.new.recording ≡ course.old.recording }
    ensures course { OnOk result (IsCourse course.new) }
    ensures timely { OnOk result (IsTimely course.new.recording course.new.steps) }
    ensures held { OnOk result ((s : ℕ) → s < length course.new.recording.setting.stations → IsHeld course.new.recording (so_far course.new) s) }
{
    take_first_entries(alloc, log, course)?;
    if course.len() == log.entry_count() {
        return Ok(());
    }
    take_others(alloc, log, course)
}
