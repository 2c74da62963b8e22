//! What is made of a packet.

ghost use Rattle.std.specs.Prelude.{◌≡◌, ◌≤◌, true, length};
ghost use Rattle.dis_records.specs.declared.header.TheConstants.{LARGEST_DATAGRAM};
ghost use Rattle.packet_captures.specs.Carried.{User, plain_datagram};
ghost use Rattle.exercise_recording.specs.Captures.Judgement.{plain};
ghost use Rattle.exercise_recording.specs.Captures.Kind.{has_entries};
ghost use Rattle.exercise_recording.specs.Captures.Log.{without_datagram, datagram_judged, whole_judged};

use crate::captures::packet_kind::{PacketKind, datagram_kind, is_bundled};
use crate::captures::packet_rule::PacketRule;
use packet_captures::{Addresses, Carried, Datagram, Direction, datagram_of};

/// What a packet is to the station, and the bytes of its datagram.
#[derive(Clone, Copy)]
pub(crate) struct Judgement<'a> {
    pub kind: PacketKind,
    /// The bytes of the datagram, or those that the capture kept; none if there is no datagram.
    pub bytes: &'a [u8],
    /// Whether it is a datagram to the port that is longer than its PDU.
    pub is_bundled: bool,
}

/// What a packet without a datagram is.
pub(crate) fn without_datagram<'a>(kind: PacketKind) -> Judgement<'a>
    ensures { plain result ≡ without_datagram kind }
{
    Judgement {
        kind,
        bytes: &[],
        is_bundled: false,
    }
}

/// What a packet is that carries a datagram.
pub(crate) fn of_datagram<'a>(
    rule: &PacketRule,
    direction: Direction,
    datagram: &Datagram<'a>,
) -> Judgement<'a>
    ensures judged { plain result ≡ datagram_judged rule.now direction (User (plain_datagram datagram.now)) }
    ensures short { has_entries result.kind ≡ true → length result.bytes.now ≤ LARGEST_DATAGRAM }
{
    Judgement {
        kind: datagram_kind(rule, direction, datagram),
        bytes: datagram.bytes,
        is_bundled: is_bundled(rule, datagram),
    }
}

/// What the fragment is that completed a datagram with these bytes, its header included.
pub(crate) fn of_whole<'a>(
    rule: &PacketRule,
    direction: Direction,
    addresses: Addresses,
    bytes: &'a [u8],
) -> Judgement<'a>
    ensures judged { plain result ≡ whole_judged rule.now direction addresses (Some bytes.now) }
    ensures short { has_entries result.kind ≡ true → length result.bytes.now ≤ LARGEST_DATAGRAM }
{
    match datagram_of(addresses, bytes.len(), bytes) {
        Carried::Datagram(datagram) => of_datagram(rule, direction, &datagram),
        Carried::Other | Carried::Unsettled(_) | Carried::Fragment(_) => {
            without_datagram(PacketKind::Other)
        }
    }
}
