//! An exercise over a network in memory.

ghost use Rattle.std.specs.Prelude.{◌≡◌, ◌⊎◌, List, length, None, Err};
ghost use Rattle.siman_stations.specs.World.{WorldData, setting_of};
ghost use Rattle.siman_lines.specs.AtLines.{Telling};
ghost use Rattle.siman_lines.specs.Passed.{passed_nothing};
ghost use Rattle.siman_lines.specs.declared.fault.AtLineFault.TheVariants as at_lines;
ghost use Rattle.siman_trials.specs.declared.recorded.ExerciseFault.TheVariants.{Lines};
ghost use Rattle.siman_trials.specs.declared.wire.WireLine.{WireLine};
ghost use Rattle.siman_trials.specs.Ended.{ComesToEnd};
ghost use Rattle.siman_trials.specs.Recorded.{Leaves};

use crate::recorded::{ExerciseFault, TrialRecording, record_exercise};
use crate::wire::lines_of;
use siman_lines::AtLineFault;
use siman_scripts::{Move, WorldStation};
use std::alloc::Global;
use std::io::Write;

/// Records an exercise of stations on a network in memory, on which each station hears all others,
/// once and in order. The call numbered `fails_at`, from 1, of all calls of the network fails. The
/// recording explains itself as that of [`record_exercise`] does: of the network this needs only
/// that each datagram received was sent before.
pub fn record_on_network<W: Write + Drop>(
    alloc: Global,
    exercise: u8,
    stations: Vec<WorldStation>,
    moves: Vec<Move>,
    fails_at: Option<u64>,
    file: W,
) -> TrialRecording<W>
    ensures comes { let w : WorldData = record { exercise = exercise; stations = stations.items } in
        let told : Telling WireLine = record { received = λ l. None; sent = λ l. None; failures = λ l. length l.failures.items; passed = λ l. passed_nothing } in
        ((result.ended ≡ Err (Lines at_lines.Memory)) × (W.contents result.file ≡ W.contents file)) ⊎ ((lines : List WireLine) × (length lines ≡ length stations.items) × ComesToEnd told w lines moves.items (W.contents file) (W.contents result.file) result.ended) }
    ensures leaves { let w : WorldData = record { exercise = exercise; stations = stations.items } in
        Leaves (setting_of w) (W.contents file) (W.contents result.file) result.ended }
{
    match lines_of(alloc, stations.len(), fails_at) {
        Ok(lines) => record_exercise(alloc, exercise, stations, lines, moves, file),
        Err(_) => TrialRecording {
            ended: Err(ExerciseFault::Lines(AtLineFault::Memory)),
            file,
        },
    }
}
