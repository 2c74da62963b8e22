//! The value of a field.

use dis_records::{Address, ClockTime, EntityId, EntityState, Kind};

/// The value of a field. Words are ASCII without quotes and `\`, phrases printable ASCII.
#[derive(Clone, Copy)]
pub enum Value<'a> {
    /// A number.
    Number(u64),
    /// A 64-bit clock value of a station; in JSON a string, since many readers cannot hold such
    /// numbers.
    Clock(u64),
    /// A word.
    Word(&'a str),
    /// A kind of PDU.
    Kind(Kind),
    /// The state of an entity.
    State(EntityState),
    /// An entity identifier.
    Entity(&'a EntityId),
    /// The address of a station.
    Address(Address),
    /// A clock time.
    Time(&'a ClockTime),
    /// A number, and its name, if it has one; in JSON two keys.
    Named(u64, Option<&'a str>),
    /// Yes or no.
    Truth(bool),
    /// Text up to the end of the line.
    Phrase(&'a str),
    /// Addresses, in text with blanks between them.
    Ring(&'a [Address]),
    /// No value: `-`, in JSON null.
    Missing,
}
