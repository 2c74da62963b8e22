//! Random scenes: what a few stations do, in orders, answers, states and comments. Wild scenes also
//! contain events that can't happen.

use crate::letter::{ALL, Letter};
use crate::random::Random;
use dis_records::EntityState;
use std::alloc::Global;

/// Largest entity number.
pub const ENTITIES: u8 = 4;

/// One event of a scene, at the station with this index.
#[derive(Clone, Copy)]
pub enum RandomEvent {
    Sends(usize, Letter),
    Gets(usize, Letter),
    Tells(usize, u8, EntityState),
}

/// The station of an event.
pub fn station_of(deed: RandomEvent) -> usize {
    match deed {
        RandomEvent::Sends(station, _)
        | RandomEvent::Gets(station, _)
        | RandomEvent::Tells(station, _, _) => station,
    }
}

/// A scene: its events so far, and the state that they led to.
#[derive(Drop)]
pub struct RandomExercise {
    pub random: Random,
    pub stations: usize,
    is_wild: bool,
    /// Whether an allocation failed, so that part of the scene is missing.
    pub is_short: bool,
    pub deeds: Vec<RandomEvent>,
    sent: Vec<Letter>,
    got: Vec<Letter>,
    /// The state of entities 0 to 7 of each station; [`place_of`] is the index.
    pub states: [EntityState; 32],
    request: u8,
}

/// Index into `states` of an entity.
pub fn place_of(station: usize, entity: u8) -> usize {
    station
        .saturating_mul(8)
        .saturating_add(usize::from(entity))
}

/// State of an entity after a request of this PDU type.
fn made(kind: u8, before: EntityState) -> EntityState {
    match (kind, before) {
        (11, _) => EntityState::Stopped,
        (12, _) | (_, EntityState::Absent) => EntityState::Absent,
        (13, _) => EntityState::Running,
        (14, _) => EntityState::Stopped,
        _ => before,
    }
}

/// One of the last four letters, if there are any.
fn recent(random: &mut Random, letters: &[Letter]) -> Option<Letter> {
    let back = random.below(letters.len().min(4)).saturating_add(1);
    letters.get(letters.len().saturating_sub(back)).copied()
}

/// An empty scene with 2 to 4 stations, wild or not at random.
pub fn begin(alloc: Global, mut random: Random) -> RandomExercise {
    let stations = random.below(3).saturating_add(2);
    let is_wild = random.one_in(2);
    let mut states = [EntityState::Absent; 32];
    for place in 0..32usize {
        let entity = place % 8;
        states[place] = match random.below(4) {
            0 if entity >= 1 && entity <= 4 => EntityState::Running,
            1 if entity >= 1 && entity <= 4 => EntityState::Stopped,
            _ => EntityState::Absent,
        };
    }
    RandomExercise {
        random,
        stations,
        is_wild,
        is_short: false,
        deeds: Vec::new(alloc),
        sent: Vec::new(alloc),
        got: Vec::new(alloc),
        states,
        request: 0,
    }
}

impl RandomExercise {
    /// Appends an event.
    fn add(&mut self, deed: RandomEvent) {
        if self.deeds.push(deed).is_err() {
            self.is_short = true;
        }
    }

    /// Records that a station sends a letter.
    fn send(&mut self, station: usize, letter: Letter) {
        if self.sent.push(letter).is_err() {
            self.is_short = true;
        }
        self.add(RandomEvent::Sends(station, letter));
    }

    /// Records that the addressed station receives a letter. If there is no such station, a station
    /// sends an order instead.
    fn get(&mut self, letter: Letter) {
        if letter.to >= self.stations {
            return self.ask();
        }
        if (letter.kind <= 14 || letter.kind == 16) && self.got.push(letter).is_err() {
            self.is_short = true;
        }
        self.add(RandomEvent::Gets(letter.to, letter));
    }

    /// A letter of this PDU type between two different stations, with the next request number.
    fn letter(&mut self, kind: u8) -> Letter {
        let from = self.random.below(self.stations);
        let way = self.random.below(self.stations.saturating_sub(1));
        self.request = self.request.wrapping_add(1);
        Letter {
            kind,
            from,
            to: from.saturating_add(way).saturating_add(1) % self.stations.max(1),
            origin: 0,
            target: 0,
            request: self.request,
            flag: 0,
            response: 0,
            stamp: 0,
        }
    }

    /// A random entity number, from 1.
    fn entity(&mut self) -> u8 {
        match self.random.below(usize::from(ENTITIES)) {
            0 => 1,
            1 => 2,
            2 => 3,
            _ => 4,
        }
    }

    /// A station sends an order.
    fn ask(&mut self) {
        let kind = match self.random.below(8) {
            0..=2 => 11,
            3 => 12,
            4 | 5 => 13,
            6 => 14,
            _ => 16,
        };
        let mut letter = self.letter(kind);
        letter.target = self.entity();
        if self.random.one_in(8) {
            letter.target = ALL;
        }
        if self.is_wild && self.random.one_in(4) {
            letter.request = self.entity();
        }
        self.send(letter.from, letter)
    }

    /// A recently sent letter is received, or sent once more; before the first letter an order is
    /// sent.
    fn bring(&mut self, is_received: bool) {
        match recent(&mut self.random, &self.sent) {
            Some(letter) if is_received => self.get(letter),
            Some(letter) => self.send(letter.from, letter),
            None => self.ask(),
        }
    }

    /// The state of an entity.
    fn state(&self, station: usize, entity: u8) -> EntityState {
        match self.states.get(place_of(station, entity)) {
            Some(state) => *state,
            None => EntityState::Absent,
        }
    }

    /// Whether a station can carry out an order.
    fn is_able(&self, order: &Letter) -> bool {
        let is_create = order.kind == 11;
        if order.target == ALL {
            return !is_create;
        }
        (self.state(order.to, order.target) == EntityState::Absent) == is_create
    }

    /// Carries out an order.
    fn carry_out(&mut self, order: &Letter) {
        for entity in 1..=ENTITIES {
            if order.target == entity || order.target == ALL {
                if let Some(state) = self.states.get_mut(place_of(order.to, entity)) {
                    *state = made(order.kind, *state);
                }
            }
        }
    }

    /// The answer to an order, able to comply or unable.
    fn answer_to(&self, order: &Letter, able: bool) -> Letter {
        Letter {
            kind: if order.kind == 16 { 17 } else { 15 },
            from: order.to,
            to: order.from,
            origin: if order.target == ALL { 0 } else { order.target },
            target: 0,
            request: order.request,
            flag: order.kind.saturating_sub(10),
            response: if able { 1 } else { 2 },
            stamp: 0,
        }
    }

    /// The answer to an order that was already sent.
    fn sent_answer(&self, order: &Letter) -> Option<Letter> {
        for letter in &self.sent {
            let is_answer = matches!(letter.kind, 15 | 17) && letter.from == order.to;
            if is_answer && letter.to == order.from && letter.request == order.request {
                return Some(*letter);
            }
        }
        None
    }

    /// A station answers an order that it received; an order that it already answered gets a copy
    /// of that answer.
    fn answer(&mut self) {
        let Some(order) = recent(&mut self.random, &self.got) else {
            return self.bring(true);
        };
        if let Some(again) = self.sent_answer(&order) {
            return self.send(order.to, again);
        }
        let able = self.is_able(&order);
        if able {
            self.carry_out(&order);
        }
        self.send(order.to, self.answer_to(&order, able))
    }

    /// A station tells the state of one of its entities, or a random state.
    fn tell(&mut self, is_true: bool) {
        let station = self.random.below(self.stations);
        let entity = self.entity();
        let state = if is_true {
            self.state(station, entity)
        } else {
            match self.random.below(3) {
                0 => EntityState::Absent,
                1 => EntityState::Stopped,
                _ => EntityState::Running,
            }
        };
        self.add(RandomEvent::Tells(station, entity, state));
    }

    /// A station sends an answer in which one field may be wrong.
    fn answer_badly(&mut self) {
        let Some(order) = recent(&mut self.random, &self.got) else {
            return self.bring(true);
        };
        let able = self.random.one_in(2);
        let mut letter = self.answer_to(&order, able);
        match self.random.below(6) {
            0 => letter.flag = (letter.flag % 4).saturating_add(1),
            1 => letter.origin = self.entity(),
            2 => letter.request = letter.request.wrapping_add(1),
            _ => {}
        }
        self.send(letter.from, letter)
    }

    /// A recent letter is received with a changed field, or sent again by any station.
    fn go_astray(&mut self) {
        let Some(mut letter) = recent(&mut self.random, &self.sent) else {
            return self.ask();
        };
        match self.random.below(4) {
            0 => {
                let other = self.random.below(self.stations);
                return self.send(other, letter);
            }
            1 => letter.stamp = 20,
            2 => letter.from = 8,
            _ => letter.to = self.random.below(self.stations),
        }
        self.get(letter)
    }

    /// Adds the next random event.
    pub fn go_on(&mut self) {
        match self.random.below(24) {
            0..=4 => self.ask(),
            5..=8 => self.bring(true),
            9..=13 => self.answer(),
            14 => self.tell(true),
            15 => self.bring(false),
            16 => {
                let kind = if self.random.one_in(2) { 22 } else { 99 };
                let letter = self.letter(kind);
                self.send(letter.from, letter)
            }
            17..=19 if self.is_wild => self.answer_badly(),
            20 if self.is_wild => self.go_astray(),
            21 if self.is_wild => self.tell(false),
            _ => self.bring(true),
        }
    }

    /// Swaps two neighbouring events at random, if they belong to different stations; in wild
    /// scenes now and then also two of one station.
    pub fn swap(&mut self) {
        let place = self.random.below(self.deeds.len());
        let next = place.saturating_add(1);
        if place >= self.deeds.len() || next >= self.deeds.len() {
            return;
        }
        let is_free = station_of(self.deeds[place]) != station_of(self.deeds[next]);
        if is_free || self.is_wild && self.random.one_in(16) {
            self.deeds.swap(place, next);
        }
    }
}
