//! Packets, as a capture hands them up.

use crate::byte_order::ByteOrder;

/// Which way a packet went, as the host that captured it saw it.
#[derive(Clone, Copy, Debug, PartialEq, Eq)]
pub enum Direction {
    /// The capture does not say.
    Unknown,
    /// It came in.
    Inbound,
    /// It went out.
    Outbound,
}

/// What a capture says of a packet, besides its bytes.
#[derive(Clone, Copy, Debug, PartialEq, Eq)]
pub struct PacketHead {
    /// Offset of its record or block, in bytes from the start of the file.
    pub at: u64,
    /// Link type of its interface (LINKTYPE).
    pub link: u16,
    /// Byte order of its file or section, which is that of the capturing host.
    pub order: ByteOrder,
    /// Whether its interface has the wanted name, or no name is wanted.
    pub wanted: bool,
    /// Microseconds since 1970-01-01, rounded down.
    pub stamp: u64,
    pub direction: Direction,
    /// Length on the wire in bytes; the captured length may be smaller.
    pub original: u32,
}
