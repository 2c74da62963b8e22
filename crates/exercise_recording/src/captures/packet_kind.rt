//! What a packet of a capture is to a station.

ghost use Rattle.std.specs.Prelude.{◌≡◌, ◌≤◌, true, length, slice_get};
ghost use Rattle.dis_records.specs.declared.header.TheConstants.{LARGEST_DATAGRAM};
ghost use Rattle.std.specs.Int.{w16};
ghost use Rattle.packet_captures.specs.Carried.{plain_datagram};
ghost use Rattle.packet_captures.specs.NetworkOrder.{number_if};
ghost use Rattle.exercise_recording.specs.Captures.Kind.{differs, is_number, is_misfit, is_foreign, is_elsewhere, is_sent, is_received, is_passing, is_of_station, other_kind, own_kind, sent_kind, entry_kind, datagram_kind, unsettled_kind, ends_before, is_bundled, has_entries};

use crate::captures::packet_rule::PacketRule;
use dis_records::LARGEST_DATAGRAM;
use packet_captures::{Addresses, Datagram, Direction};

/// The protocol family of Simulation Management (IEEE 1278.1-2012, 6.2.66; SISO-REF-010).
const FAMILY: u8 = 5;

/// Smallest length that the length field of a PDU can have, in bytes: that of a header.
const HEADER_SIZE: u16 = 12;

/// What a packet is to a station. Each packet is of one kind, the first that holds.
#[derive(Clone, Copy, PartialEq, Eq)]
pub(crate) enum PacketKind {
    /// It is of another interface, or carries no UDP datagram of Simulation Management to the port.
    Other,
    /// It is a fragment that completes no datagram.
    Fragment,
    /// It is of another exercise.
    Elsewhere,
    /// The host neither sent nor received it.
    Passing,
    /// The capture did not keep all of it.
    Cut,
    /// The host sent it under another address than the station's.
    Shared,
    /// The station sent it.
    Sent,
    /// The station sent it for all, and hears it, too.
    SentAndHeard,
    /// The station received it.
    Received,
}

/// Whether a number is there, and is another one.
fn differs(number: u16, found: Option<u16>) -> bool
    ensures { result ≡ differs number found }
{
    match found {
        Some(found) => found != number,
        None => false,
    }
}

/// Whether a number is there, and is this one.
fn is_number(number: u16, found: Option<u16>) -> bool
    ensures { result ≡ is_number number found }
{
    match found {
        Some(found) => found == number,
        None => false,
    }
}

/// Whether a byte is there, and is another one.
fn differs_at(byte: u8, at: usize, bytes: &[u8]) -> bool
    ensures { result ≡ differs byte (slice_get bytes.now at) }
{
    match bytes.get(at) {
        Some(found) => *found != byte,
        None => false,
    }
}

/// Number in the two bytes at an offset, in network byte order, if both are there.
#[tactic(auto, unfolding(packet_captures::specs::NetworkOrder::number_at))]
fn number_if(bytes: &[u8], at: usize) -> Option<u16>
    requires { at ≤ 16 }
    ensures { result ≡ number_if w16 at bytes.now }
{
    if at + 2 <= bytes.len() {
        Some(u16::from_be_bytes([bytes[at], bytes[at + 1]]))
    } else {
        None
    }
}

/// Whether a number of bytes is there, and is none that a PDU can have.
fn is_misfit(size: Option<u16>) -> bool
    ensures { result ≡ is_misfit size }
{
    match size {
        Some(size) => size < 4 || usize::from(size) > LARGEST_DATAGRAM,
        None => false,
    }
}

/// Whether a datagram is none of Simulation Management at the port.
#[tactic(auto, unfolding(crate::specs::Captures::Kind::is_foreign))]
fn is_foreign(rule: &PacketRule, datagram: &Datagram<'_>) -> bool
    ensures { result ≡ is_foreign rule.now (plain_datagram datagram.now) }
{
    differs(rule.port, datagram.target_port)
        || is_misfit(datagram.size)
        || differs_at(FAMILY, 3, datagram.bytes)
}

/// Whether the host sent a packet.
fn is_sent(rule: &PacketRule, direction: Direction, addresses: Addresses) -> bool
    ensures { result ≡ is_sent rule.now direction addresses }
{
    addresses.source == rule.host && direction != Direction::Inbound
}

/// Whether the host received a packet.
fn is_received(rule: &PacketRule, direction: Direction, addresses: Addresses) -> bool
    ensures { result ≡ is_received rule.now direction addresses }
{
    (addresses.target == rule.host || addresses.are_for_all()) && direction != Direction::Outbound
}

/// Whether the host neither sent nor received a packet.
#[tactic(auto, unfolding(crate::specs::Captures::Kind::is_passing))]
fn is_passing(rule: &PacketRule, direction: Direction, addresses: Addresses) -> bool
    ensures { result ≡ is_passing rule.now direction addresses }
{
    !(is_sent(rule, direction, addresses) || is_received(rule, direction, addresses))
}

/// Whether a datagram has the station's address as its originating one.
#[tactic(auto, unfolding(crate::specs::Captures::Kind::is_of_station))]
fn is_of_station(rule: &PacketRule, bytes: &[u8]) -> bool
    ensures { result ≡ is_of_station rule.now bytes.now }
{
    is_number(rule.address.site, number_if(bytes, 12))
        && is_number(rule.address.application, number_if(bytes, 14))
}

/// Kind of a datagram that the host sent in the name of another station.
fn other_kind(rule: &PacketRule, addresses: Addresses) -> PacketKind
    ensures { result ≡ other_kind rule.now addresses }
{
    if addresses.target == rule.host || (addresses.are_for_all() && rule.hears_itself) {
        PacketKind::Received
    } else {
        PacketKind::Shared
    }
}

/// Kind of a datagram that the station sent.
fn own_kind(rule: &PacketRule, addresses: Addresses) -> PacketKind
    ensures { result ≡ own_kind rule.now addresses }
{
    if addresses.are_for_all() && rule.hears_itself {
        PacketKind::SentAndHeard
    } else {
        PacketKind::Sent
    }
}

/// Kind of a datagram that the host sent.
#[tactic(auto, unfolding(crate::specs::Captures::Kind::sent_kind))]
fn sent_kind(rule: &PacketRule, addresses: Addresses, bytes: &[u8]) -> PacketKind
    ensures { result ≡ sent_kind rule.now addresses bytes.now }
{
    if rule.is_shared && !is_of_station(rule, bytes) {
        other_kind(rule, addresses)
    } else {
        own_kind(rule, addresses)
    }
}

/// Kind of a datagram of the exercise that the host sent or received.
fn entry_kind(rule: &PacketRule, direction: Direction, datagram: &Datagram<'_>) -> PacketKind
    ensures { result ≡ entry_kind rule.now direction (plain_datagram datagram.now) }
{
    if is_sent(rule, direction, datagram.addresses) {
        sent_kind(rule, datagram.addresses, datagram.bytes)
    } else {
        PacketKind::Received
    }
}

/// Kind of a UDP datagram, or of what the capture kept of it.
#[tactic(auto, unfolding(crate::specs::Captures::Kind::datagram_kind))]
pub(crate) fn datagram_kind(
    rule: &PacketRule,
    direction: Direction,
    datagram: &Datagram<'_>,
) -> PacketKind
    ensures kind { result ≡ datagram_kind rule.now direction (plain_datagram datagram.now) }
    // An entry has at most 8192 bytes.
    ensures short { has_entries result ≡ true → length datagram.now.bytes.now ≤ LARGEST_DATAGRAM }
{
    if is_foreign(rule, datagram) {
        PacketKind::Other
    } else if differs_at(rule.exercise, 1, datagram.bytes) {
        PacketKind::Elsewhere
    } else if is_passing(rule, direction, datagram.addresses) {
        PacketKind::Passing
    } else if !datagram.is_whole() {
        PacketKind::Cut
    } else {
        entry_kind(rule, direction, datagram)
    }
}

/// Kind of a frame that the capture cut before it says what it carries.
pub(crate) fn unsettled_kind(
    rule: &PacketRule,
    direction: Direction,
    addresses: Option<Addresses>,
) -> PacketKind
    ensures { result ≡ unsettled_kind rule.now direction addresses }
{
    match addresses {
        Some(addresses) if is_passing(rule, direction, addresses) => PacketKind::Passing,
        _ => PacketKind::Cut,
    }
}

/// Whether a PDU of this length, which its length field says, ends before its datagram.
fn ends_before(size: Option<u16>, length: u16) -> bool
    ensures { result ≡ ends_before size length }
{
    match size {
        Some(size) => length >= HEADER_SIZE && length < size,
        None => false,
    }
}

/// Whether a datagram to the port is longer than its PDU.
#[tactic(auto, unfolding(crate::specs::Captures::Kind::is_bundled))]
pub(crate) fn is_bundled(rule: &PacketRule, datagram: &Datagram<'_>) -> bool
    ensures { result ≡ is_bundled rule.now (plain_datagram datagram.now) }
{
    is_number(rule.port, datagram.target_port)
        && match number_if(datagram.bytes, 8) {
            Some(length) => ends_before(datagram.size, length),
            None => false,
        }
}
