//! A station of an exercise with its two halves, the application and the manager: how it handles a
//! received datagram, and the orders and repeats that it sends; and worlds, stations in memory that
//! make the moves of a script.
//!
//! [`take_turn`] records a datagram, lets the application answer, records the answer, and passes
//! the PDU to the manager, with any [`Recorder`]; [`order_text`] and [`repeat_text`] make the texts
//! of orders and of repeats. Each does so at a [`Moment`]: a time of the station's clock, with the
//! timestamp of what is sent at it, relative or absolute. [`run_world`] makes the moves of a list in
//! their order, and returns the recording of what its stations sent, received and told, or the first
//! move that cannot be made; [`begin_world`] returns the stations in their initial state, and a
//! [`World`] makes one move after the other. The crate reads no script, opens no file, reads no
//! clock and sends nothing.
//!
//! The contract for the layer above: what is recorded and how application and manager change at a
//! moment (`specs/StationTurn.antt`, `specs/Sending.antt`, `specs/Moments.antt`); the invariant of a
//! station (`specs/Halves.antt`), which each step preserves ([`halves_follow_logs`]), and under
//! which nothing that the station sends or tells has a cause against it ([`deeds_have_no_cause`]);
//! the recording of a world, or its first fault, as functions of the moves (`specs/World.antt`),
//! also of a world after some of its moves (`specs/Holds.antt`), and that its entries are a run
//! ([`worlds_are_runs`]).
#![tactic(auto)]

mod journal;
mod laws;
mod moment;
mod moving;
mod recorder;
mod sending;
mod station_fault;
mod turn;
mod world;
mod world_fault;
mod world_laws;

pub use laws::{deeds_have_no_cause, halves_follow_logs};
pub use moment::{Moment, stamp_of};
pub use moving::StepFault;
pub use recorder::Recorder;
pub use sending::{OrderTextFault, order_text, repeat_text};
pub use station_fault::StationFault;
pub use turn::{Node, TurnFault, take_turn};
pub use world::{InitialWorld, World, begin_world, run_world};
pub use world_fault::{MoveFault, WorldFault};
pub use world_laws::worlds_are_runs;
