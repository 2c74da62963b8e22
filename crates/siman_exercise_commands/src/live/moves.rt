//! The moves of a script, made by stations that each have their own link.

ghost use Rattle.std.specs.Prelude.{◌≡◌, ◌⊎◌, ◌<◌, length, None, Option, OnOk, IfOk, IfErr, option_map, slice_get};
ghost use Rattle.siman_stations.specs.declared.station_fault.StationFault.{StationFault};
ghost use Rattle.siman_lines.specs.AtLine.{Hinders};
ghost use Rattle.siman_lines.specs.AtLines.{Telling, AtLines, posts_of, Misfits, Follows};
ghost use Rattle.siman_lines.specs.KeptAtLine.{Keeps};
ghost use Rattle.siman_stations.specs.Acts.{as_move};
ghost use Rattle.siman_exercise_commands.specs.Live.Moves.{live_fault, judged, move_fault, Gives, at_move, of_done, ActEnds, JudgedEnds, MoveEnds, MovesEnd};

use crate::refusal::move_refusal;
use byte_files::unplaced;
use exercise_model::MOST_ENTRIES;
use exercise_recording::RecordingWriter;
use siman_lines::{
    AtLineFault, Line, StationAtLine, order_at, repeat_at, serve_rounds, stations_at_lines,
    tell_at, trouble_pieces,
};
use siman_outside::{Fault, ShortText, short_text};
use siman_scripts::{Act, Move};
use siman_stations::{Moment, MoveFault, Node};
use std::alloc::Global;
use std::io::Write;

/// Rounds of service after each move.
const ROUNDS: u32 = 4;

/// Most receives of a station in one round.
const TURNS: u32 = 64;

/// Why a move was not made, or why a station could not be served after it.
#[derive(Clone, Copy)]
pub(crate) enum LiveMoveFault {
    /// The move is refused.
    Move(MoveFault),
    /// A call of a link failed.
    Line,
    /// An entry was not recorded.
    Record,
    /// Memory ran out.
    Memory,
}

impl LiveMoveFault {
    /// Fault of this halt at the move of this number.
    pub(crate) fn at(self, number: usize) -> Fault<'static>
        ensures { result ≡ at_move number self }
    {
        match self {
            LiveMoveFault::Move(fault) => Fault::Move(number, move_refusal(fault), None),
            LiveMoveFault::Line => Fault::LineFailed,
            LiveMoveFault::Record => Fault::Output,
            LiveMoveFault::Memory => Fault::Memory,
        }
    }
}

/// Last failed call of a link, in words, from the first station whose link reports one. `None`, too,
/// if memory runs out.
pub(crate) fn trouble_of<L: Line + Drop>(
    alloc: Global,
    stations: &[StationAtLine<L>],
) -> Option<ShortText> {
    let trouble = stations.iter().find_map(|station| station.line.trouble())?;
    short_text(alloc, unplaced(trouble_pieces(trouble)))
}

/// Attaches each station to the link of the same index. There must be as many links as stations.
pub(crate) fn attach_stations<L: Line + Drop>(
    alloc: Global,
    nodes: Vec<Node>,
    lines: Vec<L>,
) -> Result<Vec<StationAtLine<L>>, Fault<'static>>
    ensures lines { OnOk result (length lines.items ≡ length nodes.items) }
    ensures posts { IfOk result (λ stations. stations.items ≡ posts_of nodes.items lines.items) }
    ensures fault { IfErr result (λ fault. ((fault ≡ Fault.LineFailed) × Misfits nodes.items lines.items) ⊎ (fault ≡ Fault.Memory)) }
{
    match stations_at_lines(alloc, nodes, lines) {
        Ok(stations) => Ok(stations),
        Err(AtLineFault::Memory) => Err(Fault::Memory),
        Err(_) => Err(Fault::LineFailed),
    }
}

/// The result of a station's call, as the result of a move.
fn of_station(done: Result<(), AtLineFault>) -> Result<(), LiveMoveFault>
    ensures made { (reason : Option StationFault) → OnOk done (reason ≡ None) → OnOk result (as_move reason ≡ None) }
    ensures fault { (reason : Option StationFault) → IfErr done (Hinders reason) → IfErr result (Gives (as_move reason)) }
    ensures named { result ≡ of_done done }
{
    match done {
        Ok(()) => Ok(()),
        Err(AtLineFault::Station(fault)) => Err(LiveMoveFault::Move(MoveFault::from(fault))),
        Err(AtLineFault::Line) => Err(LiveMoveFault::Line),
        Err(AtLineFault::Record(_)) => Err(LiveMoveFault::Record),
        Err(AtLineFault::Memory) => Err(LiveMoveFault::Memory),
    }
}

/// Makes a station do an act at its link. A delivery does nothing.
fn act_at<L: Line + Drop, W: Write>(
    alloc: Global,
    station: &mut StationAtLine<L>,
    recorder: &mut RecordingWriter<'_, W>,
    now: u64,
    act: Act,
) -> Result<(), LiveMoveFault>
    ensures made { OnOk result (live_fault station.old.node now act ≡ None) }
    ensures fault { IfErr result (Gives (live_fault station.old.node now act)) }
    ensures does { let told : Telling L = record { received = L.received; sent = L.sent; failures = L.failures; passed = L.passed } in
        ActEnds told now act result station.old recorder.old station.new recorder.new }
    ensures index { station.new.index ≡ station.old.index }
    ensures keeps { Keeps station.old.index station.old.node recorder.old (L.sent station.old.line) station.new.node recorder.new (L.sent station.new.line) }
{
    let moment = Moment::relative(now);
    match act {
        Act::Command(order) => of_station(order_at(alloc, station, recorder, moment, order)),
        Act::Deliver(_) => Ok(()),
        Act::Tick => of_station(repeat_at(alloc, station, recorder, moment)),
        Act::Tell(entity) => of_station(tell_at(station, recorder, entity)),
    }
}

/// Makes a move, and then serves all stations. A delivery does nothing, and nothing is served after
/// it, since the links deliver.
fn make_move<L: Line + Drop, W: Write>(
    alloc: Global,
    stations: &mut Vec<StationAtLine<L>>,
    recorder: &mut RecordingWriter<'_, W>,
    step: Move,
) -> Result<(), LiveMoveFault>
    ensures made { OnOk result (move_fault recorder.old.entries (option_map (λ (p : StationAtLine L). p.node) (slice_get stations.old.items step.station)) step.now step.act ≡ None) }
    ensures fault { IfErr result (Gives (move_fault recorder.old.entries (option_map (λ (p : StationAtLine L). p.node) (slice_get stations.old.items step.station)) step.now step.act)) }
    ensures ends { let told : Telling L = record { received = L.received; sent = L.sent; failures = L.failures; passed = L.passed } in
        let old : AtLines L = record { stations = stations.old.items; recorder = recorder.old } in
        let new : AtLines L = record { stations = stations.new.items; recorder = recorder.new } in
        MoveEnds told step old new result }
    // All that changed follows from calls at these stations, also after a fault.
    ensures follows { let told : Telling L = record { received = L.received; sent = L.sent; failures = L.failures; passed = L.passed } in
        let old : AtLines L = record { stations = stations.old.items; recorder = recorder.old } in
        let new : AtLines L = record { stations = stations.new.items; recorder = recorder.new } in
        Follows told old new }
{
    if let Act::Deliver(_) = &step.act {
        return Ok(());
    }
    judge_and_make(alloc, stations, recorder, step)
}

/// As [`make_move`], of a move that is no delivery.
fn judge_and_make<L: Line + Drop, W: Write>(
    alloc: Global,
    stations: &mut Vec<StationAtLine<L>>,
    recorder: &mut RecordingWriter<'_, W>,
    step: Move,
) -> Result<(), LiveMoveFault>
    ensures made { OnOk result (judged recorder.old.entries (option_map (λ (p : StationAtLine L). p.node) (slice_get stations.old.items step.station)) step.now step.act ≡ None) }
    ensures fault { IfErr result (Gives (judged recorder.old.entries (option_map (λ (p : StationAtLine L). p.node) (slice_get stations.old.items step.station)) step.now step.act)) }
    ensures ends { let told : Telling L = record { received = L.received; sent = L.sent; failures = L.failures; passed = L.passed } in
        let old : AtLines L = record { stations = stations.old.items; recorder = recorder.old } in
        let new : AtLines L = record { stations = stations.new.items; recorder = recorder.new } in
        JudgedEnds told step old new result }
    // All that changed follows from calls at these stations, also after a fault.
    ensures follows { let told : Telling L = record { received = L.received; sent = L.sent; failures = L.failures; passed = L.passed } in
        let old : AtLines L = record { stations = stations.old.items; recorder = recorder.old } in
        let new : AtLines L = record { stations = stations.new.items; recorder = recorder.new } in
        Follows told old new }
{
    let Move { now, station, act } = step;
    if recorder.entry_count() as usize + 2 > MOST_ENTRIES {
        return Err(LiveMoveFault::Move(MoveFault::Records));
    }
    if usize::from(station) >= stations.len() {
        return Err(LiveMoveFault::Move(MoveFault::NoSuchStation));
    }
    act_at(
        alloc,
        &mut stations[usize::from(station)],
        recorder,
        now,
        act,
    )?;
    let moment = Moment::relative(now);
    of_station(serve_rounds(alloc, stations, recorder, moment, ROUNDS, TURNS))
}

/// Makes moves in their order, up to the first that cannot be made.
pub(crate) fn make_moves<L: Line + Drop, W: Write>(
    alloc: Global,
    stations: &mut Vec<StationAtLine<L>>,
    recorder: &mut RecordingWriter<'_, W>,
    moves: Vec<Move>,
) -> Result<(), Fault<'static>>
    ensures ends { let told : Telling L = record { received = L.received; sent = L.sent; failures = L.failures; passed = L.passed } in
        let old : AtLines L = record { stations = stations.old.items; recorder = recorder.old } in
        let new : AtLines L = record { stations = stations.new.items; recorder = recorder.new } in
        MovesEnd told moves.items old new result }
    // All that changed follows from calls at these stations, also after a fault.
    ensures follows { let told : Telling L = record { received = L.received; sent = L.sent; failures = L.failures; passed = L.passed } in
        let old : AtLines L = record { stations = stations.old.items; recorder = recorder.old } in
        let new : AtLines L = record { stations = stations.new.items; recorder = recorder.new } in
        Follows told old new }
{
    for (number, step) in moves.into_iter().enumerate() {
        match make_move(alloc, stations, recorder, step) {
            Ok(()) => {}
            Err(halt) => return Err(halt.at(number)),
        }
    }
    Ok(())
}
