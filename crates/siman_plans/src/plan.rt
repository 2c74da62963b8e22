//! Plans: what each line of a source does.

ghost use Rattle.std.specs.Prelude.{◌≡◌, ◌⊎◌, true, false, option_map, OnOk, IfOk, IfErr};
ghost use Rattle.siman_stations.specs.World.{WorldData, are_world_stations};
ghost use Rattle.siman_plans.specs.declared.plan_fault.Stop.TheVariants as stops;
ghost use Rattle.siman_plans.specs.Plan.{PlanData, no_plan, plan_at};
ghost use Rattle.siman_plans.specs.Planned.{IsPlan, Faults};
ghost use Rattle.siman_plans.specs.SoFar.{IsSoFar};

use crate::deed::{PlannedLine, SentDatagram};
use crate::notes::Notes;
use crate::plan_fault::{LineFault, PlanFault, Refusal, Stop};
use crate::planner::Planner;
use crate::source::SourceLine;
use exercise_model::Recording;
use siman_scripts::WorldStation;
use siman_stations::{World, WorldFault};
use std::alloc::Global;

/// A plan: what the lines of a source did, as far as a move that the world refuses.
#[derive(Drop)]
pub(crate) struct Plan {
    /// Recording of the moves.
    pub recording: Recording,
    /// What each line did, in the order of the lines.
    pub planned: Vec<PlannedLine>,
    /// What became of each datagram, by its number.
    pub sent: Vec<SentDatagram>,
    /// The plain lines of the moves and of the settings of the clocks.
    pub script: Vec<u8>,
    /// The move that the world refuses, if any.
    pub stop: Option<Refusal>,
}

/// A plan before the first line.
fn begin(alloc: Global, exercise: u8, stations: Vec<WorldStation>) -> Result<Planner, PlanFault>
    ensures begun { let w : WorldData = record { exercise = exercise; stations = stations.items } in IfOk result (IsSoFar w no_plan) }
    ensures stations { OnOk result (are_world_stations stations.items ≡ true) }
    ensures fault { IfErr result (λ fault. (fault ≡ PlanFault.Memory) ⊎ ((fault ≡ PlanFault.Stations) × (are_world_stations stations.items ≡ false))) }
{
    let world = match World::begin(alloc, exercise, stations) {
        Ok(world) => world,
        Err(WorldFault::Stations) => return Err(PlanFault::Stations),
        Err(WorldFault::Memory | WorldFault::Move(..)) => return Err(PlanFault::Memory),
    };
    Ok(Planner {
        world,
        notes: Notes::begin(alloc),
    })
}

/// What a plan has, without what makes it.
fn finish(planner: Planner, stop: Option<Refusal>) -> Plan
    ensures { (w : WorldData) → (d : PlanData) → IsSoFar w d planner → IsPlan w (d, option_map stops.Refused stop) result }
{
    let Planner { world, notes } = planner;
    let (planned, sent, script) = notes.into_lists();
    Plan {
        recording: world.into_recording(),
        planned,
        sent,
        script,
        stop,
    }
}

/// The plan of the lines of a source, in the world of its stations: what each line does, in their
/// order. Where the world refuses a move, the plan ends before its line, and says so. Refuses the
/// stations first, as a world does, and then the first line in which a word names no datagram.
pub(crate) fn plan_of(
    alloc: Global,
    exercise: u8,
    stations: Vec<WorldStation>,
    lines: Vec<SourceLine>,
) -> Result<Plan, PlanFault>
    ensures plan { let w : WorldData = record { exercise = exercise; stations = stations.items } in IfOk result (IsPlan w (plan_at w lines.items)) }
    ensures stations { OnOk result (are_world_stations stations.items ≡ true) }
    ensures fault { let w : WorldData = record { exercise = exercise; stations = stations.items } in IfErr result (Faults w (plan_at w lines.items)) }
{
    let mut planner = begin(alloc, exercise, stations)?;
    match planner.run(alloc, lines) {
        Ok(()) => Ok(finish(planner, None)),
        Err(LineFault::Stop(Stop::Refused(refusal))) => Ok(finish(planner, Some(refusal))),
        Err(LineFault::Stop(Stop::Unnamed { line, column, why })) => {
            Err(PlanFault::Unnamed { line, column, why })
        }
        Err(LineFault::Memory) => Err(PlanFault::Memory),
    }
}
