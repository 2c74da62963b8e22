//! IPv4 packets (RFC 791).

ghost use Rattle.std.specs.Prelude.{◌≡◌, ◌-◌, ◌/◌, ◌%◌, ◌*◌};
ghost use Rattle.packet_captures.specs.Carried.{shown};
ghost use Rattle.packet_captures.specs.Internet4.{internet_4, contradicts_4, carried_4};

use crate::carried::{Addresses, Carried, ended};
use crate::fragment::Fragment;
use crate::host::Host;
use crate::internet::{USER_DATAGRAM, part};
use crate::network_order::{u8_at, u16_at, u32_at};
use crate::user_datagram::datagram_of;

/// Smallest size of an IPv4 header in bytes: one without options.
const HEADER_SIZE: usize = 20;

/// Whether a field that is there says that this is no IPv4 packet with UDP: the version, a header
/// shorter than 20 bytes, a packet shorter than its header or longer than its frame that was not
/// cut, the protocol.
#[tactic(auto, unfolding(crate::specs::Internet4::contradicts_4))]
fn contradicts(bytes: &[u8], cut: bool) -> bool
    ensures { result ≡ contradicts_4 cut bytes.now }
{
    if bytes.is_empty() {
        return false;
    }
    let first = u8_at(bytes, 0);
    if first / 16 != 4 || first % 16 < 5 {
        return true;
    }
    if bytes.len() < 4 {
        return false;
    }
    let size = u16_at(bytes, 2);
    if size < u16::from(first % 16 * 4) || !cut && bytes.len() < usize::from(size) {
        return true;
    }
    bytes.len() >= 10 && u8_at(bytes, 9) != USER_DATAGRAM
}

/// What an IPv4 packet carries. Bytes behind its total length belong to the frame.
#[tactic(auto, unfolding(crate::specs::Internet4::internet_4))]
pub(crate) fn internet_4(bytes: &[u8], to_group: bool, cut: bool) -> Carried<'_>
    ensures { shown result ≡ internet_4 to_group cut bytes.now }
{
    if contradicts(bytes, cut) {
        return Carried::Other;
    }
    if bytes.len() < HEADER_SIZE {
        return ended(cut);
    }
    let addresses = Addresses {
        source: Host::V4(u32_at(bytes, 12)),
        target: Host::V4(u32_at(bytes, 16)),
        to_group,
    };
    let header = u16::from(u8_at(bytes, 0) % 16 * 4);
    let size = u16_at(bytes, 2).saturating_sub(header);
    let kept = part(bytes, usize::from(header), usize::from(size));
    carried_4(addresses, u16_at(bytes, 4), u16_at(bytes, 6), size, kept)
}

/// What the `size` bytes behind an IPv4 header with this identification and this field of flags and
/// fragment offset are: a fragment, if more follow or others come before, else a whole datagram.
#[tactic(auto, unfolding(crate::specs::Internet4::carried_4))]
fn carried_4(
    addresses: Addresses,
    identification: u16,
    place: u16,
    size: u16,
    bytes: &[u8],
) -> Carried<'_>
    ensures { shown result ≡ carried_4 addresses identification place size bytes.now }
{
    let offset = place % 0x2000 * 8;
    let more = place / 0x2000 % 2 == 1;
    if offset == 0 && !more {
        return datagram_of(addresses, usize::from(size), bytes);
    }
    Carried::Fragment(Fragment {
        addresses,
        identification: u32::from(identification),
        offset,
        more,
        size,
        bytes,
    })
}
