//! Linux cooked captures.

ghost use Rattle.std.specs.Prelude.{◌≡◌};
ghost use Rattle.packet_captures.specs.Carried.{shown};
ghost use Rattle.packet_captures.specs.Cooked.{cooked, cooked_2, is_group};

use crate::carried::{Carried, ended};
use crate::ethernet::typed;
use crate::internet::behind;
use crate::network_order::{u8_at, u16_at};

/// Size of a header in bytes.
const HEADER_SIZE: usize = 16;

/// Size of a header of version 2 in bytes.
const HEADER_SIZE_2: usize = 20;

/// Size of the protocol in bytes, with which a header of version 2 begins.
const PROTOCOL_SIZE: usize = 2;

/// Whether a packet of this type is for all: it was broadcast (1) or multicast (2).
fn is_group(kind: u16) -> bool
    ensures { result ≡ is_group kind }
{
    kind == 1 || kind == 2
}

/// What a frame of Linux cooked capture carries.
pub(crate) fn cooked(bytes: &[u8], cut: bool) -> Carried<'_>
    ensures { shown result ≡ cooked cut bytes.now }
{
    if bytes.len() < HEADER_SIZE {
        return ended(cut);
    }
    let to_group = is_group(u16_at(bytes, 0));
    typed(u16_at(bytes, 14), behind(bytes, HEADER_SIZE), to_group, cut)
}

/// What a frame of Linux cooked capture, version 2, carries.
pub(crate) fn cooked_2(bytes: &[u8], cut: bool) -> Carried<'_>
    ensures { shown result ≡ cooked_2 cut bytes.now }
{
    if bytes.len() < PROTOCOL_SIZE {
        return ended(cut);
    }
    let protocol = u16_at(bytes, 0);
    if bytes.len() < HEADER_SIZE_2 {
        return typed(protocol, &[], false, cut);
    }
    let to_group = is_group(u16::from(u8_at(bytes, 10)));
    typed(protocol, behind(bytes, HEADER_SIZE_2), to_group, cut)
}
