//! Fragments of UDP datagrams.

use crate::carried::Addresses;
use crate::host::Host;

/// A fragment of a UDP datagram, as far as the capture kept it (RFC 791, 3.2; RFC 8200, 4.5).
#[derive(Clone, Copy, PartialEq, Eq)]
pub struct Fragment<'a> {
    pub addresses: Addresses,
    /// Identification, of 16 bits in IPv4 and of 32 in IPv6.
    pub identification: u32,
    /// Place of its first byte in the datagram, header included, in bytes: a multiple of 8.
    pub offset: u16,
    /// Whether more fragments follow it in the datagram.
    pub more: bool,
    /// Its number of bytes by the IP header.
    pub size: u16,
    /// The bytes that were kept, from the first on.
    pub bytes: &'a [u8],
}

impl Fragment<'_> {
    ghost use Rattle.std.specs.Prelude.{◌≡◌, ◌==◌, length};
    ghost use Rattle.packet_captures.specs.Assembly.{key_of};
    ghost use Rattle.packet_captures.specs.Carried.{plain_fragment};

    /// Whether all its bytes are there.
    pub fn is_whole(&self) -> bool
        ensures { result ≡ (length self.now.bytes.now == self.now.size) }
    {
        self.bytes.len() == usize::from(self.size)
    }

    /// What it shares with the other fragments of its datagram.
    pub fn key(&self) -> Key
        ensures { result ≡ key_of (plain_fragment self.now) }
    {
        Key {
            source: self.addresses.source,
            target: self.addresses.target,
            identification: self.identification,
        }
    }
}

/// What the fragments of one datagram share, beside the protocol, which is UDP (RFC 791, 3.2).
#[derive(Clone, Copy, Debug, PartialEq, Eq)]
pub struct Key {
    pub source: Host,
    pub target: Host,
    pub identification: u32,
}
