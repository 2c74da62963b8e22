//! The life of an entity: the stretches in which it had one state.

ghost use Rattle.std.specs.Prelude.{◌≡◌, ◌<◌, ◌++◌, length, true, IfOk, OnOk};
ghost use Rattle.exercise_model.specs.Station.{is_entity};
ghost use Rattle.exercise_review.specs.Life.{life_in, stretch_of, life_after, lives_of};
ghost use Rattle.exercise_review.specs.Span.{changes_made, life_by_changes};

use crate::changes::{Made, changes_made};
use crate::register::Register;
use dis_records::EntityState;
use exercise_model::{ExerciseLog, is_entity};
use std::alloc::{AllocError, Global};

/// A maximal stretch of a station's log in which an entity had one state other than Absent.
#[derive(Clone, Copy, PartialEq, Eq)]
pub struct Stretch {
    /// The state, Stopped or Running.
    pub state: EntityState,
    /// The entry of the change that began it; `None` if it lasts from the start.
    pub from: Option<usize>,
    /// The entry of the change that ended it; `None` if it lasts to the end.
    pub until: Option<usize>,
}

/// A life up to some entry: the ended stretches, and the current state with the entry that began
/// it, or none for the start.
#[derive(Drop)]
struct Life {
    ended: Vec<Stretch>,
    state: EntityState,
    since: Option<usize>,
}

/// Ends the current stretch of a life, at an entry or with the log; adds nothing if the entity is
/// Absent.
fn end_stretch(life: &mut Life, until: Option<usize>) -> Result<(), AllocError>
    ensures ended { OnOk result (life.new.ended.items ≡ life.old.ended.items ++ stretch_of (life_in life.old) until) }
    ensures state { life.new.state ≡ life.old.state }
    ensures since { life.new.since ≡ life.old.since }
{
    if life.state == EntityState::Absent {
        return Ok(());
    }
    let stretch = Stretch {
        state: life.state,
        from: life.since,
        until,
    };
    life.ended.push(stretch)?;
    Ok(())
}

/// Continues a life past an entry that leaves the entity in a state.
fn live_on(life: &mut Life, entry: usize, state: EntityState) -> Result<(), AllocError>
    ensures { OnOk result (life_in life.new ≡ life_after (life_in life.old) entry state) }
{
    if state == life.state {
        return Ok(());
    }
    end_stretch(life, Some(entry))?;
    life.state = state;
    life.since = Some(entry);
    Ok(())
}

/// Continues a life of an entity past the changes of its station.
fn live_by(life: &mut Life, entity: u16, changes: &[Made]) -> Result<(), AllocError>
    ensures { OnOk result (life_in life.new ≡ life_by_changes entity (life_in life.old) changes.now) }
{
    for made in changes {
        let state = made.change.changed(entity, life.state);
        live_on(life, made.entry as usize, state)?;
    }
    Ok(())
}

/// The life of an entity of a station, given the changes of that station.
fn station_life<L: ExerciseLog>(
    alloc: Global,
    findings: &Register<'_, L>,
    station: u16,
    entity: u16,
    changes: &[Made],
) -> Result<Vec<Stretch>, AllocError>
    requires at { station < length findings.now.setting.stations }
    requires entity { is_entity entity ≡ true }
    requires changes { changes.now ≡ changes_made findings.now station }
    ensures { IfOk result (λ stretches. stretches.items ≡ lives_of findings.now station entity) }
{
    let mut life = Life {
        ended: Vec::new(alloc),
        state: findings.state_before(station, entity, 0),
        since: None,
    };
    live_by(&mut life, entity, changes)?;
    end_stretch(&mut life, None)?;
    let Life { ended, .. } = life;
    Ok(ended)
}

/// The life of an entity of a station: the maximal stretches of the station's log in which it has
/// one state other than Absent, in order. A number that no entity has is Absent throughout. Reads
/// each entry once.
pub fn lives_of<L: ExerciseLog>(
    alloc: Global,
    findings: &Register<'_, L>,
    station: u16,
    entity: u16,
) -> Result<Vec<Stretch>, AllocError>
    requires { station < length findings.now.setting.stations }
    ensures { IfOk result (λ stretches. stretches.items ≡ lives_of findings.now station entity) }
{
    if is_entity(entity) {
        let changes = changes_made(alloc, findings.findings(), station)?;
        station_life(alloc, findings, station, entity, &changes)
    } else {
        Ok(Vec::new(alloc))
    }
}
