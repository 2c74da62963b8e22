//! One move of a plan, and what it did.

ghost use Rattle.std.specs.Prelude.{◌≡◌, ◌<◌, List, length, IfOk};
ghost use Rattle.exercise_model.specs.Setting.{station_in};
ghost use Rattle.siman_stations.specs.Holds.{IsAfter};
ghost use Rattle.siman_stations.specs.World.{WorldData};
ghost use Rattle.siman_plans.specs.Plain.{act_text};
ghost use Rattle.siman_plans.specs.SoFar.{last_told, deed_before, completed, Stepped};

use crate::deed::Deed;
use crate::plain::put_act;
use dis_records::EntityState;
use exercise_model::{EntryView, ExerciseLog, Recording};
use siman_scripts::{Act, Move};
use siman_stations::{StepFault, World};
use std::alloc::{AllocError, Global};

/// The plain line of an act of a station of a recording.
pub(crate) fn plain_line(
    alloc: Global,
    recording: &Recording,
    station: u16,
    act: &Act,
) -> Result<Vec<u8>, AllocError>
    ensures { station < length recording.now.setting.stations → IfOk result (λ text. text.items ≡ act_text (station_in recording.now.setting station).address act.now) }
{
    let mut text = Vec::new(alloc);
    if let Some(station) = recording.setting().stations().get(usize::from(station)) {
        put_act(&mut text, station.address(), act)?;
    }
    Ok(text)
}

/// The state that the last entry tells.
pub(crate) fn last_told(recording: &Recording) -> EntityState
    ensures { result ≡ last_told recording.now.entries }
{
    let count = recording.entry_count();
    if count == 0 {
        return EntityState::Absent;
    }
    match recording.entry(count - 1) {
        EntryView::Told { state, .. } => state,
        EntryView::Sent { .. } | EntryView::Received { .. } => EntityState::Absent,
    }
}

/// What an act will have done, apart from what only its move shows.
pub(crate) fn deed_before(act: &Act, station: u16, sends: u32, label: Option<usize>) -> Deed
    ensures { result ≡ deed_before act.now station sends label }
{
    match act {
        Act::Command(_) => Deed::Ordered {
            station,
            sends,
            label,
        },
        Act::Deliver(number) => Deed::Brought {
            station,
            brings: *number,
            answers: None,
        },
        Act::Tick => Deed::Ticked {
            station,
            sends: None,
            label,
        },
        Act::Tell(entity) => Deed::Told {
            station,
            entity: *entity,
            state: EntityState::Absent,
        },
    }
}

/// A deed with what its move sent, and the state that it told.
pub(crate) fn completed(did: Deed, sends: Option<u32>, state: EntityState) -> Deed
    ensures { result ≡ completed sends state did }
{
    match did {
        Deed::Ticked { station, label, .. } => Deed::Ticked {
            station,
            sends,
            label,
        },
        Deed::Told {
            station,
            entity,
            ..
        } => Deed::Told {
            station,
            entity,
            state,
        },
        Deed::Brought {
            station,
            brings,
            ..
        } => Deed::Brought {
            station,
            brings,
            answers: sends,
        },
        other => other,
    }
}

/// Makes one more move. Returns the number of the datagram that it sent, if any.
pub(crate) fn make_move(
    alloc: Global,
    world: &mut World,
    step: Move,
) -> Result<Option<u32>, StepFault>
    requires { (w : WorldData) × (ms : List Move) × IsAfter w ms world.old }
    ensures { (w : WorldData) → (ms : List Move) → IsAfter w ms world.old → Stepped w ms step result world.new }
{
    let before = world.sent_count();
    world.make(alloc, step)?;
    if before < world.sent_count() {
        Ok(Some(before as u32))
    } else {
        Ok(None)
    }
}
