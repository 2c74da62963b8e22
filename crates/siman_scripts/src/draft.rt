//! The script as its lines are read.

ghost use Rattle.std.specs.Prelude.{◌≡◌, ◌<◌, ◌≤◌, length, position, IfOk, IfSome, Some, None, Ok, Result};
ghost use Rattle.siman_scripts.specs.Draft.{DraftData, blank, is_at, index_of, last_address, moving, after, wants_exercise, takes_outfits, takes_moves, Leaves, Finds};
ghost use Rattle.siman_scripts.specs.Script.{is_whole, script_of};

mod reasons;

use crate::act::{Act, Move};
use crate::line_fault::ScriptLineFault;
use crate::part::{ScriptPart, takes_moves, takes_outfits, takes_stations, wants_exercise};
use crate::script::Script;
use crate::statement::{ManagerRules, Statement};
use crate::station_draft::StationDraft;
use crate::world_station::WorldStation;
use dis_records::{Address, EntityState, FixedDatum};
use exercise_model::{MOST_STATIONS, is_above};
use std::alloc::{AllocError, Global};
use std::marker::Model;

/// What the lines of a script so far give. Contracts see its stations and moves as lists.
#[derive(Drop)]
pub struct Draft {
    part: ScriptPart,
    exercise: u8,
    stations: Vec<StationDraft>,
    moves: Vec<Move>,
    clock: u64,
}

impl Model for Draft {
    ghost use Rattle.std.specs.Prelude.{◌≤◌, length};
    ghost use Rattle.siman_scripts.specs.Draft.{DraftData};

    ghost Value = { DraftData };

    ghost view = { λ d. record { part = d.part; exercise = d.exercise; stations = d.stations.items; moves = d.moves.items; clock = d.clock } };

    ghost invariant = { λ d. length d.stations.items ≤ 256 };
}

/// Index of the station with this address, if any.
fn index_of(stations: &[StationDraft], address: Address) -> Option<usize>
    ensures index { result ≡ index_of address stations.now }
    ensures within { IfSome result (λ i. i < length stations.now) }
{
    stations.iter().position(|station| station.is_at(address))
}

/// Address of the last station, if any.
fn last_address(stations: &[StationDraft]) -> Option<Address>
    ensures { result ≡ last_address stations.now }
{
    Some(stations.last()?.address())
}

/// The stations of a world.
fn finish(alloc: Global, drafts: Vec<StationDraft>) -> Result<Vec<WorldStation>, AllocError>
    ensures { IfOk result (λ stations. stations.items ≡ drafts.items) }
{
    let mut stations = Vec::new(alloc);
    for draft in drafts {
        stations.push(draft.finish(alloc))?;
    }
    Ok(stations)
}

impl Draft {
    /// The draft before the first line.
    pub fn begin(alloc: Global) -> Draft
        ensures { result ≡ blank }
    {
        Draft {
            part: ScriptPart::Exercise,
            exercise: 0,
            stations: Vec::new(alloc),
            moves: Vec::new(alloc),
            clock: 0,
        }
    }

    /// Adds the statement of one more line, or refuses it.
    pub fn take(&mut self, alloc: Global, statement: Statement) -> Result<(), ScriptLineFault>
        ensures { Leaves result self.new (after self.old statement) }
    {
        match statement {
            Statement::Nothing => Ok(()),
            Statement::Exercise(exercise) => self.take_exercise(exercise),
            Statement::Station { address, rules } => self.take_station(alloc, address, rules),
            Statement::Opening {
                address,
                entity,
                state,
            } => self.take_opening(address, entity, state),
            Statement::Fixed { address, datum } => self.take_fixed(address, datum),
            Statement::Action { address, id } => self.take_action(address, id),
            Statement::At(now) => self.take_clock(now),
            Statement::Does { address, act } => self.take_move(address, act),
        }
    }

    fn take_exercise(&mut self, exercise: u8) -> Result<(), ScriptLineFault>
        ensures { Leaves result self.new (after self.old (Statement.Exercise exercise)) }
    {
        if !wants_exercise(self.part) {
            return Err(ScriptLineFault::Bad);
        }
        self.part = ScriptPart::Stations;
        self.exercise = exercise;
        Ok(())
    }

    fn take_station(
        &mut self,
        alloc: Global,
        address: Address,
        rules: ManagerRules,
    ) -> Result<(), ScriptLineFault>
        ensures { Leaves result self.new (after self.old (Statement.Station address rules)) }
    {
        if !takes_stations(self.part)
            || self.stations.len() >= MOST_STATIONS
            || !is_above(last_address(&self.stations), address)
        {
            return Err(ScriptLineFault::Bad);
        }
        self.stations
            .push(StationDraft::begin(alloc, address, rules))?;
        Ok(())
    }

    /// Index of the station that a line of an outfit names.
    fn outfit_index(&self, address: Address) -> Result<usize, ScriptLineFault>
        ensures index { Finds (takes_outfits self.now.part) (index_of address self.now.stations) result }
        ensures within { IfOk result (λ i. i < length self.now.stations) }
    {
        if !takes_outfits(self.part) {
            return Err(ScriptLineFault::Bad);
        }
        match index_of(&self.stations, address) {
            Some(index) => Ok(index),
            None => Err(ScriptLineFault::Unknown),
        }
    }

    fn take_opening(
        &mut self,
        address: Address,
        entity: u16,
        state: EntityState,
    ) -> Result<(), ScriptLineFault>
        ensures { Leaves result self.new (after self.old (Statement.Opening address entity state)) }
    {
        let index = self.outfit_index(address)?;
        self.part = ScriptPart::Outfits;
        let station = &mut self.stations[index];
        station.open(entity, state)
    }

    fn take_fixed(&mut self, address: Address, datum: FixedDatum) -> Result<(), ScriptLineFault>
        ensures { Leaves result self.new (after self.old (Statement.Fixed address datum)) }
    {
        let index = self.outfit_index(address)?;
        self.part = ScriptPart::Outfits;
        let station = &mut self.stations[index];
        station.hold(datum)?;
        Ok(())
    }

    fn take_action(&mut self, address: Address, id: u32) -> Result<(), ScriptLineFault>
        ensures { Leaves result self.new (after self.old (Statement.Action address id)) }
    {
        let index = self.outfit_index(address)?;
        self.part = ScriptPart::Outfits;
        let station = &mut self.stations[index];
        station.know(id)?;
        Ok(())
    }

    fn take_clock(&mut self, now: u64) -> Result<(), ScriptLineFault>
        ensures { Leaves result self.new (after self.old (Statement.At now)) }
    {
        if !takes_moves(self.part) {
            return Err(ScriptLineFault::Bad);
        }
        self.part = ScriptPart::Moves;
        self.clock = now;
        Ok(())
    }

    fn take_move(&mut self, address: Address, act: Act) -> Result<(), ScriptLineFault>
        ensures { Leaves result self.new (after self.old (Statement.Does address act)) }
    {
        if !takes_moves(self.part) {
            return Err(ScriptLineFault::Bad);
        }
        let Some(index) = index_of(&self.stations, address) else {
            return Err(ScriptLineFault::Unknown);
        };
        self.part = ScriptPart::Moves;
        self.moves.push(Move {
            now: self.clock,
            station: index as u16,
            act,
        })?;
        Ok(())
    }

    /// Whether a move may follow; if so, only moves may follow from here on.
    pub fn begin_moves(&mut self) -> bool
        ensures may { result ≡ takes_moves self.old.part }
        ensures draft { self.new ≡ moving self.old }
    {
        if !takes_moves(self.part) {
            return false;
        }
        self.part = ScriptPart::Moves;
        true
    }

    /// Index of the station with this address, if any.
    pub fn index_at(&self, address: Address) -> Option<usize>
        ensures index { result ≡ index_of address self.now.stations }
        ensures few { IfSome result (λ i. i < 256) }
    {
        index_of(&self.stations, address)
    }

    /// Whether there was an `exercise` line and a `station` line.
    pub fn is_whole(&self) -> bool
        ensures { result ≡ is_whole self.now }
    {
        !wants_exercise(self.part) && !self.stations.is_empty()
    }

    /// The finished script.
    pub fn finish(self, alloc: Global) -> Result<Script, AllocError>
        ensures { IfOk result (λ script. script ≡ script_of self) }
    {
        let Draft {
            exercise,
            stations,
            moves,
            ..
        } = self;
        Ok(Script {
            exercise,
            stations: finish(alloc, stations)?,
            moves,
        })
    }
}
