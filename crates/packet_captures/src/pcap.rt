//! Files of pcap: their head, and their records.

ghost use Rattle.std.specs.Prelude.{◌≡◌, ◌+◌, ◌<◌, ◌^◌, length};
ghost use Rattle.packet_captures.specs.Pcap.{pcap_kind, pcap_head, record_head, record_size, record_stamp};

use crate::byte_order::{ByteOrder, u16_at, u32_at};
use crate::capture_fault::FormatFault;
use crate::packet::{Direction, PacketHead};

/// Size in bytes of the head of a file.
pub(crate) const PCAP_HEAD: usize = 24;

/// Size in bytes of the head of a record.
pub(crate) const RECORD_HEAD: usize = 16;

/// Offset in a record of the number of bytes that were kept.
pub(crate) const RECORD_LENGTH: usize = 8;

/// What the head of a file of pcap says of its records.
#[derive(Clone, Copy, Debug, PartialEq, Eq)]
pub struct PcapHead {
    pub order: ByteOrder,
    /// Whether fractions of stamps are nanoseconds, and not microseconds.
    pub nanoseconds: bool,
    /// Link type of all packets (LINKTYPE).
    pub link: u16,
}

/// Byte order, and whether fractions are nanoseconds, by the magic as a little-endian number.
pub(crate) fn pcap_kind(magic: u32) -> Option<(ByteOrder, bool)>
    ensures { result ≡ pcap_kind magic }
{
    if magic == 0xA1B2_C3D4 {
        Some((ByteOrder::Little, false))
    } else if magic == 0xA1B2_3C4D {
        Some((ByteOrder::Little, true))
    } else if magic == 0xD4C3_B2A1 {
        Some((ByteOrder::Big, false))
    } else if magic == 0x4D3C_B2A1 {
        Some((ByteOrder::Big, true))
    } else {
        None
    }
}

/// Head of a file, given the kind of its magic.
#[tactic(auto, unfolding(crate::specs::Pcap::pcap_head))]
pub(crate) fn pcap_head(
    kind: (ByteOrder, bool),
    at: u64,
    head: &[u8],
) -> Result<PcapHead, FormatFault>
    requires size { length head.now ≡ 24 }
    requires offsets { at + 4 < 2 ^ 64 }
    ensures { result ≡ pcap_head kind at head.now }
{
    let (order, nanoseconds) = kind;
    if u16_at(order, head, 4) != 2 {
        return Err(FormatFault::Version(at + 4));
    }
    Ok(PcapHead {
        order,
        nanoseconds,
        link: (u32_at(order, head, 20) % (1 << 16)) as u16,
    })
}

impl PcapHead {
    /// Stamp of a record, in microseconds.
    fn record_stamp(self, head: &[u8]) -> u64
        requires { length head.now ≡ 16 }
        ensures { result ≡ record_stamp self head.now }
    {
        let seconds = u64::from(u32_at(self.order, head, 0));
        let fraction = u64::from(u32_at(self.order, head, 4));
        seconds * 1_000_000
            + if self.nanoseconds {
                fraction / 1000
            } else {
                fraction
            }
    }

    /// Head of the packet in the record at this offset, given the record's head.
    pub(crate) fn record_head(self, wanted: bool, at: u64, head: &[u8]) -> PacketHead
        requires { length head.now ≡ 16 }
        ensures { result ≡ record_head self wanted at head.now }
    {
        PacketHead {
            at,
            link: self.link,
            order: self.order,
            wanted,
            stamp: self.record_stamp(head),
            direction: Direction::Unknown,
            original: u32_at(self.order, head, 12),
        }
    }

    /// Size in bytes of the record that has this head.
    pub(crate) fn record_size(self, head: &[u8]) -> usize
        requires { length head.now ≡ 16 }
        ensures { result ≡ record_size self head.now }
    {
        RECORD_HEAD + u32_at(self.order, head, 8) as usize
    }
}
