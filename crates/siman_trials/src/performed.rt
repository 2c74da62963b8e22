//! Moves of stations at their links.

ghost use Rattle.std.specs.Prelude.{◌≡◌};
ghost use Rattle.siman_lines.specs.AtLines.{Telling, AtLines, Follows};
ghost use Rattle.siman_lines.specs.KeptAtLine.{Keeps};
ghost use Rattle.siman_trials.specs.Moves.{ActsAt, MoveEnds, MovesEnd};

use exercise_recording::RecordingWriter;
use siman_lines::{AtLineFault, Line, StationAtLine, order_at, repeat_at, serve_rounds, tell_at};
use siman_scripts::{Act, Move};
use siman_stations::Moment;
use std::alloc::Global;
use std::io::Write;

/// Number of rounds behind a move.
const ROUNDS: u32 = 4;

/// Largest number of receives of a station in a round.
const TURNS: u32 = 64;

/// Why a move was not made, or why the stations were not served behind it.
#[derive(Clone, Copy, Debug, PartialEq, Eq)]
pub enum LinkMoveFault {
    /// No station has the index of the move.
    NoSuchStation,
    /// A station failed at its link.
    AtLine(AtLineFault),
}

impl From<AtLineFault> for LinkMoveFault {
    ghost use Rattle.std.specs.Prelude.{◌≡◌};
    ghost use Rattle.siman_trials.specs.declared.performed.LinkMoveFault.TheVariants.{AtLine};

    ghost from_gives = { λ fault halt. halt ≡ AtLine fault };

    fn from(fault: AtLineFault) -> LinkMoveFault {
        LinkMoveFault::AtLine(fault)
    }
}

/// Makes a station carry out an act at its link. A delivery does nothing, since the links deliver.
fn act_at<L: Line + Drop, W: Write>(
    alloc: Global,
    station: &mut StationAtLine<L>,
    recorder: &mut RecordingWriter<'_, W>,
    now: u64,
    act: Act,
) -> Result<(), AtLineFault>
    ensures does { let told : Telling L = record { received = L.received; sent = L.sent; failures = L.failures; passed = L.passed } in
        ActsAt told now act result station.old recorder.old station.new recorder.new }
    ensures index { station.new.index ≡ station.old.index }
    ensures keeps { Keeps station.old.index station.old.node recorder.old (L.sent station.old.line) station.new.node recorder.new (L.sent station.new.line) }
{
    let moment = Moment::relative(now);
    match act {
        Act::Command(order) => order_at(alloc, station, recorder, moment, order),
        Act::Deliver(_) => Ok(()),
        Act::Tick => repeat_at(alloc, station, recorder, moment),
        Act::Tell(entity) => tell_at(station, recorder, entity),
    }
}

/// Makes a move, and then serves all stations.
fn make_move<L: Line + Drop, W: Write>(
    alloc: Global,
    stations: &mut Vec<StationAtLine<L>>,
    recorder: &mut RecordingWriter<'_, W>,
    step: Move,
) -> Result<(), LinkMoveFault>
    ensures ends { let told : Telling L = record { received = L.received; sent = L.sent; failures = L.failures; passed = L.passed } in
        let old : AtLines L = record { stations = stations.old.items; recorder = recorder.old } in
        let new : AtLines L = record { stations = stations.new.items; recorder = recorder.new } in
        MoveEnds told step old new result }
    ensures follows { let told : Telling L = record { received = L.received; sent = L.sent; failures = L.failures; passed = L.passed } in
        let old : AtLines L = record { stations = stations.old.items; recorder = recorder.old } in
        let new : AtLines L = record { stations = stations.new.items; recorder = recorder.new } in
        Follows told old new }
{
    let Move { now, station, act } = step;
    let number = usize::from(station);
    if number >= stations.len() {
        return Err(LinkMoveFault::NoSuchStation);
    }
    act_at(alloc, &mut stations[number], recorder, now, act)?;
    let moment = Moment::relative(now);
    serve_rounds(alloc, stations, recorder, moment, ROUNDS, TURNS)?;
    Ok(())
}

/// Makes moves in order, up to the first that fails. A Command issues its order, a Tick repeats
/// what is due, a Tell records a state, and a Deliver does nothing, since the links deliver. Behind
/// each move four rounds serve each station in turn, for at most 64 receives.
pub fn make_moves<L: Line + Drop, W: Write>(
    alloc: Global,
    stations: &mut Vec<StationAtLine<L>>,
    recorder: &mut RecordingWriter<'_, W>,
    moves: Vec<Move>,
) -> Result<(), LinkMoveFault>
    ensures ends { let told : Telling L = record { received = L.received; sent = L.sent; failures = L.failures; passed = L.passed } in
        let old : AtLines L = record { stations = stations.old.items; recorder = recorder.old } in
        let new : AtLines L = record { stations = stations.new.items; recorder = recorder.new } in
        MovesEnd told moves.items old new result }
    // With a fault too, the effect is one of calls at these stations.
    ensures follows { let told : Telling L = record { received = L.received; sent = L.sent; failures = L.failures; passed = L.passed } in
        let old : AtLines L = record { stations = stations.old.items; recorder = recorder.old } in
        let new : AtLines L = record { stations = stations.new.items; recorder = recorder.new } in
        Follows told old new }
{
    for step in moves {
        match make_move(alloc, stations, recorder, step) {
            Ok(()) => {}
            Err(halt) => return Err(halt),
        }
    }
    Ok(())
}
