//! Acts of the stations of a world, move by move.

use siman_manager::Order;

/// Act of a station in one move.
#[derive(Drop, PartialEq, Eq)]
pub enum Act {
    /// Its manager makes this order, and sends it.
    Command(Order),
    /// The network delivers to it the datagram of this number. Sent datagrams are counted from 0,
    /// over all stations of the world, in the order in which they are sent.
    Deliver(u32),
    /// Its manager looks for an order that is due, and sends it again.
    Tick,
    /// It tells the state of the entity of this number, in 1..=0xFFFD, which may be Absent.
    Tell(u16),
}

/// One move of a world.
#[derive(Drop, PartialEq, Eq)]
pub struct Move {
    /// Time of the station's clock, in the units of its `wait`.
    pub now: u64,
    /// The station's index in the world, from 0.
    pub station: u16,
    pub act: Act,
}
