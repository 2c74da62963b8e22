//! UDP datagrams (RFC 768).

ghost use Rattle.std.specs.Prelude.{◌≡◌, ◌+◌, ◌≤◌, ◌<◌, ◌^◌, length};
ghost use Rattle.packet_captures.specs.Carried.{shown};
ghost use Rattle.packet_captures.specs.UserDatagram.{datagram_of};

use crate::carried::{Addresses, Carried};
use crate::internet::part;
use crate::network_order::u16_if;

/// Size of a UDP header in bytes: source port, target port, length, checksum.
const HEADER_SIZE: usize = 8;

/// A UDP datagram, as far as the capture kept it.
#[derive(Clone, Copy, PartialEq, Eq)]
pub struct Datagram<'a> {
    pub addresses: Addresses,
    /// Source port, if it was kept.
    pub source_port: Option<u16>,
    /// Target port, if it was kept.
    pub target_port: Option<u16>,
    /// Number of bytes of the data by the length field, if that was kept.
    pub size: Option<u16>,
    /// The bytes of the data that were kept, from the first on; none if the length field was not
    /// kept.
    pub bytes: &'a [u8],
}

impl Datagram<'_> {
    ghost use Rattle.packet_captures.specs.UserDatagram.{is_whole};
    ghost use Rattle.packet_captures.specs.Carried.{plain_datagram};

    /// Whether all bytes of the data are there.
    pub fn is_whole(&self) -> bool
        ensures { result ≡ is_whole (plain_datagram self.now) }
    {
        match self.size {
            Some(size) => usize::from(size) == self.bytes.len(),
            None => false,
        }
    }
}

/// The datagram in `size` bytes behind an IP header, of which these bytes were kept. It is none if
/// it has no room for its header, or if its length field is below 8 or above `size`; bytes behind
/// its length are no part of it.
#[tactic(auto, unfolding(crate::specs::UserDatagram::datagram_of))]
pub fn datagram_of(addresses: Addresses, size: usize, bytes: &[u8]) -> Carried<'_>
    ensures { shown result ≡ datagram_of addresses size bytes.now }
{
    if size < HEADER_SIZE {
        return Carried::Other;
    }
    let length = u16_if(bytes, 4);
    let (size, kept) = match length {
        None => (None, part(bytes, 8, 0)),
        Some(length) => {
            if length < 8 || size < usize::from(length) {
                return Carried::Other;
            }
            (Some(length - 8), part(bytes, 8, usize::from(length - 8)))
        }
    };
    Carried::Datagram(Datagram {
        addresses,
        source_port: u16_if(bytes, 0),
        target_port: u16_if(bytes, 2),
        size,
        bytes: kept,
    })
}
