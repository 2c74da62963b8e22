//! Stations of a world.

use dis_records::{FixedDatum, VariableDatum};
use exercise_model::Station;
use std::marker::Model;

/// A station of a world, with manager and application. Contracts see its lists.
#[derive(Drop)]
pub struct WorldStation {
    /// Its address, and the entities that it opens with.
    pub station: Station,
    /// The request identifier of its first order.
    pub first_id: u32,
    /// Most sendings of an order.
    pub tries: u32,
    /// Time from the sending of an order until it is due, in the units of a move's `now`.
    pub wait: u64,
    /// The fixed datums that it holds; of a repeated identifier the last counts.
    pub fixed: Vec<FixedDatum>,
    /// The variable datums that it holds; of a repeated identifier the last counts.
    pub variable: Vec<VariableDatum>,
    /// The identifiers of the actions that it knows.
    pub actions: Vec<u32>,
}

impl Model for WorldStation {
    ghost use Rattle.siman_scripts.specs.Stations.{WorldStationData};

    ghost Value = { WorldStationData };

    ghost view = { λ w. record { station = w.station; first_id = w.first_id; tries = w.tries; wait = w.wait; datums = record { fixed = w.fixed.items; variable = w.variable.items }; actions = w.actions.items } };
}
