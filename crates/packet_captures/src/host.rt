//! Address of a host.

/// An IPv4 or IPv6 address as the number that its bytes are in network byte order.
#[derive(Clone, Copy, Debug, PartialEq, Eq)]
pub enum Host {
    /// IPv4 (RFC 791).
    V4(u32),
    /// IPv6 (RFC 4291), as its upper and its lower 64 bits.
    V6 { upper: u64, lower: u64 },
}

impl Host {
    ghost use Rattle.std.specs.Prelude.{◌≡◌};
    ghost use Rattle.packet_captures.specs.Host.{is_for_all, unmapped};

    /// Whether what is sent to this address is for all: IPv4 multicast, 255.255.255.255, IPv6
    /// multicast.
    pub fn is_for_all(self) -> bool
        ensures { result ≡ is_for_all self }
    {
        match self {
            Host::V4(number) => number / 0x1000_0000 == 14 || number == 0xFFFF_FFFF,
            Host::V6 { upper, .. } => upper / 0x100_0000_0000_0000 == 255,
        }
    }

    /// The address, or of an IPv4-mapped IPv6 address its IPv4 one. Addresses in packets are not
    /// changed so: this is for an address that a person gives.
    pub fn unmapped(self) -> Host
        ensures { result ≡ unmapped self }
    {
        match self {
            Host::V6 { upper: 0, lower } if lower / 0x1_0000_0000 == 0xFFFF => {
                Host::V4((lower % 0x1_0000_0000) as u32)
            }
            _ => self,
        }
    }
}
