//! Why a line is refused after the lines before it.

ghost use Rattle.std.specs.Prelude.{◌≡◌, ◌^◌, ◌<◌, None};
ghost use Rattle.siman_scripts.specs.Draft.{index_of, takes_outfits};
ghost use Rattle.siman_scripts.specs.Reason.{part_why, part_reason, known_reason, rising_reason, station_place, draft_reason, end_reason};
ghost use Rattle.siman_scripts.specs.declared.statement.Statement.TheVariants.{Exercise, Station, Opening, At, Does};

use super::{Draft, index_of, last_address};
use crate::act::Act;
use crate::part::{ScriptPart, takes_moves, takes_outfits, takes_stations, wants_exercise};
use crate::statement::{ManagerRules, Statement};
use crate::why::{LineReason, Why};
use dis_records::{Address, EntityState};
use exercise_model::{MOST_STATIONS, is_above};

/// Reason of a line that is before the exercise, or late for its part.
fn part_why(part: ScriptPart, late: Why) -> Why
    ensures { result ≡ part_why part late }
{
    if wants_exercise(part) {
        Why::BeforeExercise
    } else {
        late
    }
}

/// Reason of a station that is not above this one, if there is one.
fn rising_reason(before: Option<Address>, address: Address) -> Option<(usize, Why)>
    ensures { result ≡ rising_reason before address }
{
    match before {
        Some(last) if !is_above(before, address) => {
            Some((1, Why::StationNotAbove(last.site(), last.application())))
        }
        _ => None,
    }
}

/// The word of a move that names its station.
fn station_place(act: &Act) -> usize
    ensures { result ≡ station_place act.now }
{
    match act {
        Act::Deliver(_) => 2,
        Act::Command(_) | Act::Tick | Act::Tell(_) => 1,
    }
}

impl Draft {
    fn exercise_reason(&self, exercise: u8) -> Option<(usize, Why)>
        ensures { result ≡ draft_reason self.now (Exercise exercise) }
    {
        if wants_exercise(self.part) {
            None
        } else {
            Some((0, Why::SecondExercise))
        }
    }

    fn station_reason(&self, address: Address, rules: ManagerRules) -> Option<(usize, Why)>
        ensures { result ≡ draft_reason self.now (Station address rules) }
    {
        if !takes_stations(self.part) {
            return Some((0, part_why(self.part, Why::LateStation)));
        }
        if self.stations.len() >= MOST_STATIONS {
            return Some((0, Why::TooManyStations));
        }
        rising_reason(last_address(&self.stations), address)
    }

    fn opening_reason(
        &self,
        address: Address,
        entity: u16,
        state: EntityState,
    ) -> Option<(usize, Why)>
        ensures { result ≡ draft_reason self.now (Opening address entity state) }
    {
        if !takes_outfits(self.part) {
            return Some((0, part_why(self.part, Why::LateOutfit)));
        }
        match index_of(&self.stations, address) {
            Some(index) => self.stations[index].opening_reason(entity, state),
            None => Some((
                1,
                Why::UnknownStation(address.site(), address.application()),
            )),
        }
    }

    /// Reason of a line of an outfit.
    fn outfit_reason(&self, address: Address) -> Option<(usize, Why)>
        ensures { result ≡ part_reason self.now.part (takes_outfits self.now.part) Why.LateOutfit (known_reason 1 address (λ _. None) (index_of address self.now.stations)) }
    {
        if !takes_outfits(self.part) {
            return Some((0, part_why(self.part, Why::LateOutfit)));
        }
        self.station_unknown(1, address)
    }

    /// Reason of an address, in this word, that no station has.
    fn station_unknown(&self, place: usize, address: Address) -> Option<(usize, Why)>
        ensures { result ≡ known_reason place address (λ _. None) (index_of address self.now.stations) }
    {
        match index_of(&self.stations, address) {
            Some(_) => None,
            None => Some((
                place,
                Why::UnknownStation(address.site(), address.application()),
            )),
        }
    }

    fn clock_reason(&self, now: u64) -> Option<(usize, Why)>
        ensures { result ≡ draft_reason self.now (At now) }
    {
        if takes_moves(self.part) {
            None
        } else {
            Some((0, part_why(self.part, Why::BeforeExercise)))
        }
    }

    fn move_reason(&self, address: Address, act: &Act) -> Option<(usize, Why)>
        ensures { result ≡ draft_reason self.now (Does address act.now) }
    {
        if !takes_moves(self.part) {
            return Some((0, part_why(self.part, Why::BeforeExercise)));
        }
        self.station_unknown(station_place(act), address)
    }

    /// Why a statement is refused after the lines before it: a word of the line, from 0, and the
    /// reason.
    pub fn reason(&self, statement: &Statement) -> Option<(usize, Why)>
        ensures { result ≡ draft_reason self.now statement.now }
    {
        match statement {
            Statement::Nothing => None,
            Statement::Exercise(exercise) => self.exercise_reason(*exercise),
            Statement::Station { address, rules } => self.station_reason(*address, *rules),
            Statement::Opening {
                address,
                entity,
                state,
            } => self.opening_reason(*address, *entity, *state),
            Statement::Fixed { address, .. } => self.outfit_reason(*address),
            Statement::Action { address, .. } => self.outfit_reason(*address),
            Statement::At(now) => self.clock_reason(*now),
            Statement::Does { address, act } => self.move_reason(*address, act),
        }
    }

    /// Reason of a text of `count` lines that ends too early.
    pub fn end_reason(&self, count: usize) -> Option<LineReason>
        requires { count < 2 ^ 63 }
        ensures { result ≡ end_reason self.now count }
    {
        let why = if wants_exercise(self.part) {
            Why::NoExercise
        } else if self.stations.is_empty() {
            Why::NoStation
        } else {
            return None;
        };
        Some(LineReason {
            line: count + 1,
            column: 0,
            why,
        })
    }
}
