//! The compact form of the spans of lives.

ghost use Rattle.std.specs.Prelude.{◌≡◌, ◌≤◌, length, OnOk};
ghost use Rattle.exercise_review.specs.Room.{AddsWithin};
ghost use Rattle.exercise_review.specs.Stay.{stay_ended_at, stay_ended_by, stay_after};

use crate::fault::ReviewFault;
use dis_records::EntityState;

/// A span of an entity's life, in which it had one state other than Absent, in little memory.
/// Entries are numbers from 0; 0xFFFFFFFF means none.
#[derive(Clone, Copy)]
pub(crate) struct Stay {
    /// The station, a number from 0.
    pub station: u16,
    /// The entity of that station.
    pub entity: u16,
    /// Its state.
    pub state: EntityState,
    /// The entry of the change that began it; none if it lasts from the start.
    pub from: u32,
    /// The entry of the change that ended it; none if it lasts to the end.
    pub until: u32,
}

/// Adds the current stay of an entity, which ends at an entry or with the log; nothing if the
/// entity is Absent. `OverLimit` beyond `most`.
pub(crate) fn end_stay(
    stays: &mut Vec<Stay>,
    most: usize,
    stay: Stay,
    until: u32,
) -> Result<(), ReviewFault>
    requires { length stays.old.items ≤ most }
    ensures { AddsWithin most stays.old.items (stay_ended_at stay until) result stays.new.items }
{
    if stay.state == EntityState::Absent {
        return Ok(());
    }
    if stays.len() >= most {
        return Err(ReviewFault::OverLimit);
    }
    let ended = Stay { until, ..stay };
    stays.push(ended)?;
    Ok(())
}

/// Continues past an entry that leaves the entity in a state; ends the current stay there if the
/// state differs. `OverLimit` beyond `most`.
pub(crate) fn stay_on(
    stays: &mut Vec<Stay>,
    most: usize,
    stay: &mut Stay,
    entry: u32,
    state: EntityState,
) -> Result<(), ReviewFault>
    requires { length stays.old.items ≤ most }
    ensures added { AddsWithin most stays.old.items (stay_ended_by stay.old entry state) result stays.new.items }
    ensures stay { OnOk result (stay.new ≡ stay_after stay.old entry state) }
{
    if state == stay.state {
        return Ok(());
    }
    end_stay(stays, most, *stay, entry)?;
    stay.state = state;
    stay.from = entry;
    Ok(())
}
