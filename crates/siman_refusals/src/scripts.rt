//! Calls that read a script or a source, and run its world.

use crate::call::{LibraryCall, Said, refused, usual};
use exercise_model::ExerciseLog;
use siman_plans::{PlanTextFault, reason_of_source, say_plan};
use siman_print::Spelling;
use siman_scripts::{Script, ScriptFault, read_script};
use siman_stations::{WorldFault, run_world};
use std::alloc::Global;

/// A script with a loss, a copy and a swap.
pub const SCRIPT: &str = "exercise 1
station 1:1
station 2:3
create 1:1 2:3:7
at 10
tick 1:1
deliver 1 2:3
start 1:1 2:3:7
stop 1:1 2:3:7
deliver 4 2:3
deliver 3 2:3
deliver 4 2:3
tell 2:3 7
deliver 2 1:1
deliver 6 1:1
deliver 5 1:1
";

/// A source with labels, an answer, a copy and a loss.
const SOURCE: &str = "exercise 1
station 1:1 tries=2
station 2:3      # the tank
opening 2:3 8 running
create 1:1 2:3:7 as make
deliver make 2:3
deliver answer(make) 1:1
start 1:1 all as go
deliver go 2:3
deliver go again
lose answer(go)
tell 2:3 7
tick 1:1 as t
";

/// Reads a script.
pub struct ReadingScript;

impl LibraryCall<()> for ReadingScript {
    fn make(alloc: Global, _lent: &mut ()) -> Said {
        match read_script(alloc, SCRIPT.as_bytes()) {
            Ok(script) => usual(script.stations.len() == 2 && script.moves.len() == 12),
            Err(fault) => refused(fault == ScriptFault::Memory),
        }
    }
}

/// Runs a world.
pub struct RunningWorld;

impl LibraryCall<()> for RunningWorld {
    fn make(alloc: Global, _lent: &mut ()) -> Said {
        let Ok(script) = read_script(alloc, SCRIPT.as_bytes()) else {
            return Said::Memory;
        };
        let Script {
            exercise,
            stations,
            moves,
        } = script;
        match run_world(alloc, exercise, stations, moves) {
            Ok(log) => usual(log.entry_count() == 16),
            Err(fault) => refused(fault == WorldFault::Memory),
        }
    }
}

/// Reads a source, and asks why it is none.
pub struct ReadingSource;

impl LibraryCall<()> for ReadingSource {
    fn make(alloc: Global, _lent: &mut ()) -> Said {
        match reason_of_source(alloc, SOURCE.as_bytes()) {
            Ok(reason) => usual(reason.is_none()),
            Err(_) => Said::Memory,
        }
    }
}

/// Plans a source.
pub struct SayingPlan;

impl LibraryCall<()> for SayingPlan {
    fn make(alloc: Global, _lent: &mut ()) -> Said {
        match say_plan(alloc, Spelling::Text, SOURCE.as_bytes()) {
            Ok(said) => usual(said.stop.is_none() && said.sends == 5),
            Err(fault) => refused(matches!(fault, PlanTextFault::Memory)),
        }
    }
}
