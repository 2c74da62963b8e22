//! Orders, their states, and the meanings of PDUs to them.

use dis_records::EntityId;
use siman_pdus::{Body, Pdu};

/// An order to be made, and its receiver.
#[derive(Drop, PartialEq, Eq)]
pub struct Order {
    /// The receiving identifier: a station, all of a site, or all.
    pub target: EntityId,
    /// The body of a request. Its request identifier is ignored: the manager assigns its own.
    pub body: Body,
}

/// State of an order.
#[derive(Clone, Copy, PartialEq, Eq)]
pub enum OrderStatus {
    /// It waits for an answer, and was sent this many times, at least once.
    Waiting(u32),
    /// An answer settled it.
    Answered,
    /// It was sent as often as is allowed, and no answer was received in time. A late answer still
    /// settles it.
    GivenUp,
}

/// Meaning of a received PDU to the manager. The number is the order's request identifier.
#[derive(Clone, Copy, PartialEq, Eq)]
pub enum Taken {
    /// It is of another exercise, or answers no order of this manager.
    Foreign,
    /// It answers an order that was settled before.
    Repeat(u32),
    /// It settles the order.
    Answered(u32),
    /// It answers the order and does not settle it: the order is unchanged.
    Pending(u32),
}

/// An order that was made, as it stands.
#[derive(Clone, Copy)]
pub struct OrderView<'a> {
    /// Its PDU, as it was last sent.
    pub pdu: &'a Pdu,
    /// How often it was sent.
    pub sends: u32,
    /// Time of its last sending.
    pub last: u64,
    /// Its state.
    pub status: OrderStatus,
}
