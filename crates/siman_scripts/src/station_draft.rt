//! Stations of a script as its lines are read.

ghost use Rattle.std.specs.Prelude.{◌≡◌, ◌++◌, ◌∷◌, [], Some, None, Ok, Err, true, false, ◌≤◌, IsSome, OnOk};
ghost use Rattle.exercise_model.specs.Station.{is_opening, is_entity, is_absent};
ghost use Rattle.siman_scripts.specs.Reason.{opening_reason};
ghost use Rattle.siman_scripts.specs.Draft.{new_station, is_at, last_number, opened_with, holding, knowing};

use crate::line_fault::ScriptLineFault;
use crate::statement::ManagerRules;
use crate::why::Why;
use crate::world_station::WorldStation;
use dis_records::{Address, EntityState, FixedDatum};
use exercise_model::{LARGEST_ENTITY, Station};
use std::alloc::{AllocError, Global};
use std::marker::Model;

/// A station whose lines are being read: its entities, datums and actions are added one by one.
/// Contracts see it as the station that it is so far.
#[derive(Drop)]
pub(crate) struct StationDraft {
    address: Address,
    opening: Vec<(u16, EntityState)>,
    rules: ManagerRules,
    fixed: Vec<FixedDatum>,
    actions: Vec<u32>,
}

impl Model for StationDraft {
    ghost use Rattle.std.specs.Prelude.{◌≡◌, true, []};
    ghost use Rattle.exercise_model.specs.Station.{is_opening};
    ghost use Rattle.siman_scripts.specs.Stations.{WorldStationData};

    ghost Value = { WorldStationData };

    ghost view = { λ w. record { station = record { address = w.address; opening = w.opening.items }; first_id = w.rules.first_id; tries = w.rules.tries; wait = w.rules.wait; datums = record { fixed = w.fixed.items; variable = [] }; actions = w.actions.items } };

    ghost invariant = { λ w. is_opening w.opening.items ≡ true };
}

impl StationDraft {
    /// A station as its own line describes it.
    pub fn begin(alloc: Global, address: Address, rules: ManagerRules) -> StationDraft
        ensures { result ≡ new_station address rules }
    {
        StationDraft {
            address,
            opening: Vec::new(alloc),
            rules,
            fixed: Vec::new(alloc),
            actions: Vec::new(alloc),
        }
    }

    pub fn address(&self) -> Address
        ensures { result ≡ self.now.station.address }
    {
        self.address
    }

    /// Whether the station has this address.
    pub fn is_at(&self, address: Address) -> bool
        ensures { result ≡ is_at address self.now }
    {
        self.address.site() == address.site() && self.address.application() == address.application()
    }

    /// Adds an entity that the station opens with, of a number in 1..=0xFFFD above those before, in
    /// a state other than Absent.
    pub fn open(&mut self, entity: u16, state: EntityState) -> Result<(), ScriptLineFault>
        ensures ok { OnOk result (opened_with entity state self.old ≡ Some self.new) }
        ensures bad { result ≡ Err ScriptLineFault.Bad → opened_with entity state self.old ≡ None }
        ensures known { result ≡ Err ScriptLineFault.Unknown → ⊥ }
    {
        if !is_next(&self.opening, entity, state) {
            return Err(ScriptLineFault::Bad);
        }
        self.opening.push((entity, state))?;
        Ok(())
    }

    /// Why an entity is refused: the word of its line, from 0, and the reason. An entity and a
    /// state that a line can say are refused only for the number before.
    #[tactic(auto, using(crate::proofs::Openings::opens_next))]
    pub fn opening_reason(&self, entity: u16, state: EntityState) -> Option<(usize, Why)>
        ensures reason { result ≡ opening_reason entity state (Some self.now) }
        ensures below { is_entity entity ≡ true → is_absent state ≡ false → IsSome result → entity ≤ last_number 0 self.now.station.opening }
    {
        if is_next(&self.opening, entity, state) {
            None
        } else {
            Some((2, Why::EntityNotAbove(last_number(&self.opening))))
        }
    }

    /// Adds a fixed datum that the station holds.
    pub fn hold(&mut self, datum: FixedDatum) -> Result<(), AllocError>
        ensures { OnOk result (self.new ≡ holding datum self.old) }
    {
        self.fixed.push(datum)?;
        Ok(())
    }

    /// Adds an action that the station knows.
    pub fn know(&mut self, id: u32) -> Result<(), AllocError>
        ensures { OnOk result (self.new ≡ knowing id self.old) }
    {
        self.actions.push(id)?;
        Ok(())
    }

    /// The finished station.
    pub fn finish(self, alloc: Global) -> WorldStation
        ensures { result ≡ self }
    {
        let StationDraft {
            address,
            opening,
            rules,
            fixed,
            actions,
        } = self;
        WorldStation {
            station: Station::new(address, opening).unwrap(),
            first_id: rules.first_id,
            tries: rules.tries,
            wait: rules.wait,
            fixed,
            variable: Vec::new(alloc),
            actions,
        }
    }
}

/// Number of the last entity, or 0 if there is none.
fn last_number(opening: &[(u16, EntityState)]) -> u16
    ensures { result ≡ last_number 0 opening.now }
{
    match opening.last() {
        Some((number, _)) => *number,
        None => 0,
    }
}

/// Whether an entity may be added behind these.
#[tactic(auto, using(crate::proofs::Openings::opens_next))]
fn is_next(opening: &[(u16, EntityState)], entity: u16, state: EntityState) -> bool
    requires { is_opening opening.now ≡ true }
    ensures { result ≡ is_opening (opening.now ++ (entity, state) ∷ []) }
{
    if entity <= last_number(opening) || entity > LARGEST_ENTITY || state == EntityState::Absent {
        return false;
    }
    true
}
