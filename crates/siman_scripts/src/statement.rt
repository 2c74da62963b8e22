//! Statements of the lines of a script.

use crate::act::Act;
use dis_records::{Address, EntityState, FixedDatum};

/// Rules by which the manager of a station orders.
#[derive(Clone, Copy)]
pub struct ManagerRules {
    /// The request identifier of the first order.
    pub first_id: u32,
    /// Most sendings of an order, at least 1.
    pub tries: u32,
    /// Time from the sending of an order until it is due.
    pub wait: u64,
}

/// Statement of one line of a script.
#[derive(Drop)]
pub enum Statement {
    /// None: the line is ignored.
    Nothing,
    /// The identifier of the exercise.
    Exercise(u8),
    /// A station, and the rules of its manager.
    Station {
        address: Address,
        rules: ManagerRules,
    },
    /// An entity that a station opens with.
    Opening {
        address: Address,
        entity: u16,
        state: EntityState,
    },
    /// A fixed datum that a station holds.
    Fixed {
        address: Address,
        datum: FixedDatum,
    },
    /// An action that a station knows.
    Action {
        address: Address,
        id: u32,
    },
    /// The time of the clocks from here on.
    At(u64),
    /// A move of a station.
    Does {
        address: Address,
        act: Act,
    },
}
