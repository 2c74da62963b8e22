//! Ethernet frames (IEEE 802.3), EtherTypes and 802.1Q tags.

ghost use Rattle.std.specs.Prelude.{◌≡◌, ◌==◌, ◌%◌, drop};
ghost use Rattle.std.specs.Option.{option_map};
ghost use Rattle.packet_captures.specs.Carried.{shown};
ghost use Rattle.packet_captures.specs.Ethernet.{ethernet, is_tag, typed, untagged};

use crate::carried::{Carried, ended};
use crate::internet::behind;
use crate::internet_4::internet_4;
use crate::internet_6::internet_6;
use crate::network_order::{u8_at, u16_at};

/// Size of an Ethernet header in bytes: target, source, EtherType.
const HEADER_SIZE: usize = 14;

/// Size in bytes of what stands behind the EtherType of a tag: its control information and the next
/// EtherType.
const TAG_SIZE: usize = 4;

/// Whether this EtherType is that of an 802.1Q tag.
fn is_tag(kind: u16) -> bool
    ensures { result ≡ is_tag kind }
{
    kind == 0x8100 || kind == 0x88A8 || kind == 0x9100
}

/// EtherType behind the tags and what stands behind it, given the first one; `None` if a tag ends
/// too early.
#[tactic(auto, using(crate::proofs::Tags::untagged_more, crate::proofs::Tags::untagged_short, crate::proofs::Tags::untagged_plain))]
fn untagged(kind: u16, bytes: &[u8]) -> Option<(u16, &[u8])>
    ensures { option_map (λ p. (p.0, p.1.now)) result ≡ untagged kind bytes.now }
{
    let mut kind = kind;
    let mut rest = bytes;
    'tags: while is_tag(kind) {
        if rest.len() < TAG_SIZE {
            return None;
        }
        kind = u16_at(rest, 2);
        rest = behind(rest, TAG_SIZE);
    }
    Some((kind, rest))
}

/// What stands behind an EtherType, after any tags.
pub(crate) fn typed(kind: u16, bytes: &[u8], to_group: bool, cut: bool) -> Carried<'_>
    ensures { shown result ≡ typed to_group cut kind bytes.now }
{
    match untagged(kind, bytes) {
        None => ended(cut),
        Some((0x0800, rest)) => internet_4(rest, to_group, cut),
        Some((0x86DD, rest)) => internet_6(rest, to_group, cut),
        Some(_) => Carried::Other,
    }
}

/// What an Ethernet frame carries.
pub(crate) fn ethernet(bytes: &[u8], cut: bool) -> Carried<'_>
    ensures { shown result ≡ ethernet cut bytes.now }
{
    if bytes.len() < HEADER_SIZE {
        return ended(cut);
    }
    let to_group = u8_at(bytes, 0) % 2 == 1;
    typed(u16_at(bytes, 12), behind(bytes, HEADER_SIZE), to_group, cut)
}
