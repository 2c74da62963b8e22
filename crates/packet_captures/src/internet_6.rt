//! IPv6 packets (RFC 8200).

ghost use Rattle.std.specs.Prelude.{◌≡◌, ◌+◌, ◌≤◌, ◌<◌, ◌^◌, length};
ghost use Rattle.packet_captures.specs.Carried.{shown};
ghost use Rattle.packet_captures.specs.Internet6.{internet_6, contradicts_6, is_read_6, is_extension_6, is_no_extension, behind_6, fragment_6, host_at};

use crate::carried::{Addresses, Carried, ended};
use crate::fragment::Fragment;
use crate::host::Host;
use crate::internet::{USER_DATAGRAM, behind, part};
use crate::network_order::{u8_at, u16_at, u32_at, u64_at};
use crate::user_datagram::datagram_of;

/// Size of the header in bytes.
const HEADER_SIZE: usize = 40;

/// Next-header number of a fragment header.
const FRAGMENT: u8 = 44;

/// Whether this next-header number is one of the extension headers that are passed over: hop-by-hop
/// options, routing, destination options.
fn is_extension(next: u8) -> bool
    ensures { result ≡ is_extension_6 next }
{
    next == 0 || next == 43 || next == 60
}

/// Whether what has this next-header number is read or passed over.
fn is_read(next: u8) -> bool
    ensures { result ≡ is_read_6 next }
{
    next == USER_DATAGRAM || next == FRAGMENT || is_extension(next)
}

/// Whether no extension header that is passed over stands at the front of these bytes, of `size`
/// bytes: it has another number, no room, or behind it stands what is not read.
#[tactic(auto, unfolding(crate::specs::Internet6::is_no_extension))]
fn is_no_extension(next: u8, size: usize, bytes: &[u8]) -> bool
    ensures { result ≡ is_no_extension next size bytes.now }
{
    !is_extension(next) || size < 8 || !bytes.is_empty() && !is_read(u8_at(bytes, 0))
}

/// Whether a field that is there says that this is no IPv6 packet that is read: the version, a
/// packet longer than its frame that was not cut, the next header.
#[tactic(auto, unfolding(crate::specs::Internet6::contradicts_6))]
fn contradicts(bytes: &[u8], cut: bool) -> bool
    ensures { result ≡ contradicts_6 cut bytes.now }
{
    if bytes.is_empty() {
        return false;
    }
    if u8_at(bytes, 0) / 16 != 6 {
        return true;
    }
    if bytes.len() < 6 {
        return false;
    }
    if !cut && bytes.len() < HEADER_SIZE + usize::from(u16_at(bytes, 4)) {
        return true;
    }
    bytes.len() >= 7 && !is_read(u8_at(bytes, 6))
}

/// What an IPv6 packet carries. Bytes behind its payload length belong to the frame.
#[tactic(auto, unfolding(crate::specs::Internet6::internet_6))]
pub(crate) fn internet_6(bytes: &[u8], to_group: bool, cut: bool) -> Carried<'_>
    ensures { shown result ≡ internet_6 to_group cut bytes.now }
{
    if contradicts(bytes, cut) {
        return Carried::Other;
    }
    if bytes.len() < HEADER_SIZE {
        return ended(cut);
    }
    let addresses = Addresses {
        source: host_at(bytes, 8),
        target: host_at(bytes, 24),
        to_group,
    };
    let size = usize::from(u16_at(bytes, 4));
    behind_header(
        addresses,
        u8_at(bytes, 6),
        size,
        part(bytes, HEADER_SIZE, size),
    )
}

/// Address in the 16 bytes at an offset.
fn host_at(bytes: &[u8], at: usize) -> Host
    requires { at + 16 ≤ length bytes.now }
    ensures { result ≡ host_at at bytes.now }
{
    Host::V6 {
        upper: u64_at(bytes, at),
        lower: u64_at(bytes, at + 8),
    }
}

/// What stands in `size` bytes behind a header with this next-header number, of which these bytes
/// were kept. Extension headers are passed over.
#[tactic(auto, using(crate::proofs::Headers::behind_none, crate::proofs::Headers::behind_more))]
fn behind_header(addresses: Addresses, next: u8, size: usize, bytes: &[u8]) -> Carried<'_>
    requires { size < 2 ^ 16 }
    ensures { shown result ≡ behind_6 size addresses next size bytes.now }
{
    let mut next = next;
    let mut room = size;
    let mut rest = bytes;
    'headers: for _most in 0..size {
        if next == USER_DATAGRAM {
            return datagram_of(addresses, room, rest);
        }
        if next == FRAGMENT {
            return fragment_of(addresses, room, rest);
        }
        if is_no_extension(next, room, rest) {
            return Carried::Other;
        }
        if rest.len() < 2 {
            return Carried::Unsettled(Some(addresses));
        }
        let own = 8 + 8 * usize::from(u8_at(rest, 1));
        if room < own {
            return Carried::Other;
        }
        next = u8_at(rest, 0);
        room -= own;
        rest = behind(rest, own);
    }
    Carried::Other
}

/// What a fragment header and the bytes behind it are, `size` bytes in all, of which these were
/// kept.
#[tactic(auto, unfolding(crate::specs::Internet6::fragment_6))]
fn fragment_of(addresses: Addresses, size: usize, bytes: &[u8]) -> Carried<'_>
    requires { size < 2 ^ 16 }
    ensures { shown result ≡ fragment_6 addresses size bytes.now }
{
    if size < 8 || !bytes.is_empty() && u8_at(bytes, 0) != USER_DATAGRAM {
        return Carried::Other;
    }
    if bytes.len() < 8 {
        return Carried::Unsettled(Some(addresses));
    }
    let place = u16_at(bytes, 2);
    Carried::Fragment(Fragment {
        addresses,
        identification: u32_at(bytes, 4),
        offset: place / 8 * 8,
        more: place % 2 == 1,
        size: (size - 8) as u16,
        bytes: behind(bytes, 8),
    })
}
