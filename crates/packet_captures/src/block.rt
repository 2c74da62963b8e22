//! The packets and statistics in blocks of pcapng.

ghost use Rattle.std.specs.Prelude.{◌≡◌, ◌+◌, ◌≤◌, ◌<◌, ◌^◌, length, ok_or, IfOk, OnOk};
ghost use Rattle.packet_captures.specs.Block.{direction_of, enhanced_packet, interface_at, long_enough, lost_in, old_packet, room_for, simple_packet, ticks_of, timed_packet, packet_in, seen};
ghost use Rattle.packet_captures.specs.Interface.{options_from};
ghost use Rattle.packet_captures.specs.Options.{padded};
ghost use Rattle.packet_captures.specs.Packet.{direction_from};
ghost use Rattle.packet_captures.specs.Stamp.{stamp_of};
ghost use Rattle.packet_captures.specs.declared.capture_fault.FormatFault.TheVariants as faults;

use crate::byte_order::{ByteOrder, u16_at, u32_at, u64_at};
use crate::capture_fault::FormatFault;
use crate::interface::{Interface, options_from};
use crate::options::{behind, option_value, padded};
use crate::packet::{Direction, PacketHead};
use crate::stamp::stamp_of;

/// Code and length of the options for a packet's flags, and for packets lost.
const FLAGS: u16 = 2;

const FLAGS_SIZE: u16 = 4;

const IF_DROP: u16 = 5;

const IF_DROP_SIZE: u16 = 8;

/// Size in bytes of all other fields of a block that holds a packet with a stamp.
const TIMED: usize = 32;

/// Size in bytes of all other fields of a simple packet block.
const SIMPLE: usize = 16;

/// A packet, and which part of its block has its bytes.
#[derive(Clone, Copy)]
pub struct PacketPart {
    pub head: PacketHead,
    pub from: usize,
    pub count: usize,
}

/// Checks that a block has at least this many bytes.
pub(crate) fn long_enough(size: usize, at: u64, block: &[u8]) -> Result<(), FormatFault>
    requires { at + 4 < 2 ^ 64 }
    ensures { result ≡ long_enough size at block.now }
{
    if block.len() < size {
        return Err(FormatFault::Block(at + 4));
    }
    Ok(())
}

/// The interface of this index, which the section must have described.
fn interface_at(interfaces: &[Interface], index: usize, at: u64) -> Result<Interface, FormatFault>
    requires { at + 8 < 2 ^ 64 }
    ensures { result ≡ interface_at interfaces.now index at }
{
    match interfaces.get(index) {
        Some(interface) => Ok(*interface),
        None => Err(FormatFault::Interface(at + 8)),
    }
}

/// Checks that a block has room for this many bytes of a packet behind its other fields.
fn room_for(
    kept: usize,
    others: usize,
    field: u64,
    at: u64,
    block: &[u8],
) -> Result<(), FormatFault>
    requires offsets { at + field < 2 ^ 64 }
    requires sizes { kept + others < 2 ^ 64 }
    ensures answer { result ≡ room_for kept others field at block.now }
    ensures room { OnOk result (kept + others ≤ length block.now) }
{
    if block.len() < kept + others {
        return Err(FormatFault::Block(at + field));
    }
    Ok(())
}

/// Direction in the lowest bits of a packet's flags.
fn direction_from(bits: u32) -> Direction
    ensures { result ≡ direction_from bits }
{
    if bits == 1 {
        Direction::Inbound
    } else if bits == 2 {
        Direction::Outbound
    } else {
        Direction::Unknown
    }
}

/// Direction in the flags among a packet's options.
fn direction_of(order: ByteOrder, options: &[u8]) -> Direction
    ensures { result ≡ direction_of order options.now }
{
    match option_value(order, FLAGS, Some(FLAGS_SIZE), options) {
        Some(value) => direction_from(u32_at(order, value, 0) % 4),
        None => Direction::Unknown,
    }
}

/// Ticks of the clock at a packet, from their upper and lower half.
fn ticks_of(order: ByteOrder, block: &[u8]) -> u64
    requires { 20 ≤ length block.now }
    ensures { result ≡ ticks_of order block.now }
{
    let upper = u64::from(u32_at(order, block, 12));
    let lower = u64::from(u32_at(order, block, 16));
    upper * (1 << 32) + lower
}

/// Direction of the packet in a block, whose captured length is this.
fn timed_direction(order: ByteOrder, kept: usize, block: &[u8]) -> Direction
    requires size { kept < 2 ^ 32 }
    requires fields { 4 ≤ length block.now }
    ensures { result ≡ direction_of order (options_from (28 + padded kept) block.now) }
{
    let fields = &block[..block.len() - 4];
    direction_of(order, behind(fields, 28 + padded(kept)))
}

/// The stamp of a packet of this interface.
fn timed_stamp(
    interface: Interface,
    order: ByteOrder,
    at: u64,
    block: &[u8],
) -> Result<u64, FormatFault>
    requires size { 20 ≤ length block.now }
    requires offsets { at + 12 < 2 ^ 64 }
    ensures { result ≡ ok_or (stamp_of interface.resolution interface.offset (ticks_of order block.now)) (faults.Time (at + 12)) }
{
    match stamp_of(
        interface.resolution,
        interface.offset,
        ticks_of(order, block),
    ) {
        Some(stamp) => Ok(stamp),
        None => Err(FormatFault::Time(at + 12)),
    }
}

/// The packet of an enhanced or an old packet block of this interface.
#[tactic(auto, unfolding(crate::specs::Block::timed_packet))]
fn timed_packet(
    order: ByteOrder,
    interfaces: &[Interface],
    index: usize,
    at: u64,
    block: &[u8],
) -> Result<PacketPart, FormatFault>
    requires size { 32 ≤ length block.now }
    requires offsets { at + length block.now < 2 ^ 64 }
    ensures packet { seen (packet_in block.now) result ≡ timed_packet order interfaces.now index at block.now }
    ensures within { IfOk result (λ p. p.from + p.count ≤ length block.now) }
{
    let interface = interface_at(interfaces, index, at)?;
    let kept = u32_at(order, block, 20) as usize;
    room_for(kept, TIMED, 20, at, block)?;
    let stamp = timed_stamp(interface, order, at, block)?;
    Ok(PacketPart {
        head: PacketHead {
            at,
            link: interface.link,
            order,
            wanted: interface.wanted,
            stamp,
            direction: timed_direction(order, kept, block),
            original: u32_at(order, block, 24),
        },
        from: 28,
        count: kept,
    })
}

/// The packet of an enhanced packet block.
#[tactic(auto, unfolding(crate::specs::Block::enhanced_packet))]
pub(crate) fn enhanced_packet(
    order: ByteOrder,
    interfaces: &[Interface],
    at: u64,
    block: &[u8],
) -> Result<PacketPart, FormatFault>
    requires size { 12 ≤ length block.now }
    requires offsets { at + length block.now < 2 ^ 64 }
    ensures packet { seen (packet_in block.now) result ≡ enhanced_packet order interfaces.now at block.now }
    ensures within { IfOk result (λ p. p.from + p.count ≤ length block.now) }
{
    long_enough(TIMED, at, block)?;
    timed_packet(
        order,
        interfaces,
        u32_at(order, block, 8) as usize,
        at,
        block,
    )
}

/// The packet of an old packet block.
#[tactic(auto, unfolding(crate::specs::Block::old_packet))]
pub(crate) fn old_packet(
    order: ByteOrder,
    interfaces: &[Interface],
    at: u64,
    block: &[u8],
) -> Result<PacketPart, FormatFault>
    requires size { 12 ≤ length block.now }
    requires offsets { at + length block.now < 2 ^ 64 }
    ensures packet { seen (packet_in block.now) result ≡ old_packet order interfaces.now at block.now }
    ensures within { IfOk result (λ p. p.from + p.count ≤ length block.now) }
{
    long_enough(TIMED, at, block)?;
    timed_packet(
        order,
        interfaces,
        usize::from(u16_at(order, block, 8)),
        at,
        block,
    )
}

/// The packet of a simple packet block, where the packet before it has this stamp.
#[tactic(auto, unfolding(crate::specs::Block::simple_packet))]
pub(crate) fn simple_packet(
    order: ByteOrder,
    interfaces: &[Interface],
    stamp: u64,
    at: u64,
    block: &[u8],
) -> Result<PacketPart, FormatFault>
    requires size { 12 ≤ length block.now }
    requires offsets { at + length block.now < 2 ^ 64 }
    ensures packet { seen (packet_in block.now) result ≡ simple_packet order interfaces.now stamp at block.now }
    ensures within { IfOk result (λ p. p.from + p.count ≤ length block.now) }
{
    long_enough(SIMPLE, at, block)?;
    let interface = interface_at(interfaces, 0, at)?;
    let original = u32_at(order, block, 8);
    let kept = interface.kept_of(original) as usize;
    room_for(kept, SIMPLE, 8, at, block)?;
    Ok(PacketPart {
        head: PacketHead {
            at,
            link: interface.link,
            order,
            wanted: interface.wanted,
            stamp,
            direction: Direction::Unknown,
            original,
        },
        from: 12,
        count: kept,
    })
}

/// Number of packets lost in a statistics block, if it has one.
pub(crate) fn lost_in(order: ByteOrder, block: &[u8]) -> Option<u64>
    requires { 24 ≤ length block.now }
    ensures { result ≡ lost_in order block.now }
{
    match option_value(order, IF_DROP, Some(IF_DROP_SIZE), options_from(20, block)) {
        Some(value) => Some(u64_at(order, value, 0)),
        None => None,
    }
}
