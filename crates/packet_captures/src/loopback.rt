//! Links without addresses: loopback, and raw IP.

ghost use Rattle.std.specs.Prelude.{◌≡◌, ◌+◌, ◌*◌};
ghost use Rattle.packet_captures.specs.Carried.{shown};
ghost use Rattle.packet_captures.specs.Loopback.{loopback, loopback_family, of_family, raw};

use crate::carried::{Carried, ended};
use crate::internet::behind;
use crate::internet_4::internet_4;
use crate::internet_6::internet_6;
use crate::network_order::u8_at;

/// Size in bytes of the address family in front of a packet.
const FAMILY_SIZE: usize = 4;

/// What a packet of this address family carries: AF_INET is 2 everywhere; AF_INET6 is 10 on Linux,
/// 24 on NetBSD and OpenBSD, 28 on FreeBSD, 30 on macOS.
fn of_family(family: u32, bytes: &[u8], cut: bool) -> Carried<'_>
    ensures { shown result ≡ of_family cut family bytes.now }
{
    match family {
        2 => internet_4(bytes, false, cut),
        10 | 24 | 28 | 30 => internet_6(bytes, false, cut),
        _ => Carried::Other,
    }
}

/// What a frame of a loopback carries, the address family in little-endian or big-endian order.
pub(crate) fn loopback(bytes: &[u8], is_little: bool, cut: bool) -> Carried<'_>
    ensures { shown result ≡ loopback is_little cut bytes.now }
{
    if bytes.len() < FAMILY_SIZE {
        return ended(cut);
    }
    let family = [bytes[0], bytes[1], bytes[2], bytes[3]];
    let family = if is_little {
        u32::from_le_bytes(family)
    } else {
        u32::from_be_bytes(family)
    };
    of_family(family, behind(bytes, FAMILY_SIZE), cut)
}

/// What a packet without a link's header carries, IPv4 or IPv6 by its version.
pub(crate) fn raw(bytes: &[u8], cut: bool) -> Carried<'_>
    ensures { shown result ≡ raw cut bytes.now }
{
    if bytes.is_empty() {
        return ended(cut);
    }
    if u8_at(bytes, 0) / 16 == 6 {
        internet_6(bytes, false, cut)
    } else {
        internet_4(bytes, false, cut)
    }
}
