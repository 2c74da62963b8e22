//! Blocks of pcapng, in a window over the file.

ghost use Rattle.std.specs.Prelude.{◌≡◌, ◌+◌, ◌≤◌, ◌<◌, ◌^◌, ℕ, List, take, drop, length, Some, IfOk, IfSome, OnErr};
ghost use Rattle.std.specs.Option.{option_map};
ghost use Rattle.packet_captures.specs.Answers.{Changes, Gives, GivesContent};
ghost use Rattle.packet_captures.specs.Block.{packet_in, seen};
ghost use Rattle.packet_captures.specs.State.{with_stamp};
ghost use Rattle.packet_captures.specs.Pcapng.{block_content, state_after, packet_in_block, is_looked_into, order_in, same_at_end, section_at, size_in, sized_at, version_in};
ghost use Rattle.packet_captures.specs.Window.{SameAhead, Passes, bytes_ahead};
ghost use Rattle.packet_captures.specs.declared.capture_fault.FormatFault.TheVariants as faults;

use crate::block::{PacketPart, enhanced_packet, long_enough, lost_in, old_packet, simple_packet};
use crate::byte_order::{ByteOrder, u16_at, u32_at};
use crate::capture_fault::{CaptureFault, FormatFault};
use crate::interface::interface_of;
use crate::state::CaptureState;
use crate::window::Window;
use std::io::Read;

/// Kinds of blocks.
pub(crate) const SECTION: u32 = 0x0A0D_0D0A;

const INTERFACE: u32 = 1;

const OLD_PACKET: u32 = 2;

const SIMPLE_PACKET: u32 = 3;

const STATISTICS: u32 = 5;

const ENHANCED_PACKET: u32 = 6;

/// Byte-order magic of a section header.
const BYTE_ORDER: u32 = 0x1A2B_3C4D;

/// Size in bytes of the head of a block, and with the byte order of a section header.
pub(crate) const BLOCK_HEAD: usize = 8;

pub(crate) const SECTION_HEAD: usize = 12;

/// Whether a block of this kind, which is no section header, is looked into.
pub(crate) fn is_looked_into(kind: u32) -> bool
    ensures { result ≡ is_looked_into kind }
{
    kind == INTERFACE
        || kind == OLD_PACKET
        || kind == SIMPLE_PACKET
        || kind == STATISTICS
        || kind == ENHANCED_PACKET
}

/// Total length of the block that has this head.
#[tactic(auto, unfolding(crate::specs::Pcapng::size_in))]
pub(crate) fn size_in(order: ByteOrder, at: u64, head: &[u8]) -> Result<usize, FormatFault>
    requires size { length head.now ≡ 8 }
    requires offsets { at + 8 < 2 ^ 64 }
    ensures answer { result ≡ size_in order at head.now }
    ensures least { IfOk result (λ n. 12 ≤ n) }
{
    let size = u32_at(order, head, 4);
    if size < 12 || size % 4 != 0 {
        return Err(FormatFault::Block(at + 4));
    }
    Ok(size as usize)
}

/// Checks that a block of this size ends with its total length.
#[tactic(auto, unfolding(crate::specs::Pcapng::same_at_end))]
pub(crate) fn same_at_end(
    order: ByteOrder,
    size: usize,
    at: u64,
    block: &[u8],
) -> Result<usize, FormatFault>
    requires size { (12 ≤ size) × (length block.now ≡ size) }
    requires offsets { at + size < 2 ^ 64 }
    ensures answer { result ≡ same_at_end order size at block.now }
    ensures same { IfOk result (λ n. n ≡ size) }
{
    if u32_at(order, block, size - 4) as usize != size {
        return Err(FormatFault::Block(at + (size - 4) as u64));
    }
    Ok(size)
}

/// Byte order of the section whose header begins so.
#[tactic(auto, unfolding(crate::specs::Pcapng::order_in))]
pub(crate) fn order_in(at: u64, head: &[u8]) -> Result<ByteOrder, FormatFault>
    requires size { length head.now ≡ 12 }
    requires offsets { at + 8 < 2 ^ 64 }
    ensures { result ≡ order_in at head.now }
{
    if u32_at(ByteOrder::Little, head, 8) == BYTE_ORDER {
        Ok(ByteOrder::Little)
    } else if u32_at(ByteOrder::Big, head, 8) == BYTE_ORDER {
        Ok(ByteOrder::Big)
    } else {
        Err(FormatFault::Magic(at + 8))
    }
}

/// Checks that a section header is long enough, and its version 1.
#[tactic(auto, unfolding(crate::specs::Pcapng::version_in))]
pub(crate) fn version_in(order: ByteOrder, at: u64, block: &[u8]) -> Result<(), FormatFault>
    requires size { 12 ≤ length block.now }
    requires offsets { at + length block.now < 2 ^ 64 }
    ensures { result ≡ version_in order at block.now }
{
    long_enough(28, at, block)?;
    if u16_at(order, block, 12) != 1 {
        return Err(FormatFault::Version(at + 12));
    }
    Ok(())
}

/// Takes the packet of a block, and notes its stamp.
fn stamped_packet(state: &mut CaptureState, part: PacketPart) -> Option<PacketPart>
    ensures part { result ≡ Some part }
    ensures stamp { state.new ≡ with_stamp part.head.stamp state.old }
{
    state.set_stamp(part.head.stamp);
    Some(part)
}

/// Changes the state by a block that has no packet.
#[tactic(auto, unfolding(crate::specs::Pcapng::state_after))]
fn state_after(
    state: &mut CaptureState,
    order: ByteOrder,
    name: Option<&[u8]>,
    kind: u32,
    at: u64,
    block: &[u8],
) -> Result<(), CaptureFault>
    requires size { 12 ≤ length block.now }
    requires offsets { at + length block.now < 2 ^ 64 }
    ensures content { Changes result state.new (state_after order (option_map (λ n. n.now) name.entry) state.old kind at block.now) }
    ensures failed { OnErr result (state.new ≡ state.old) }
{
    if kind == INTERFACE {
        long_enough(20, at, block)?;
        state.add_interface(interface_of(order, name, block))?;
    } else if kind == STATISTICS {
        long_enough(24, at, block)?;
        state.set_lost(u32_at(order, block, 8) as usize, lost_in(order, block));
    }
    Ok(())
}

/// The packet of a block, if it has one.
#[tactic(auto, unfolding(crate::specs::Pcapng::packet_in_block))]
fn packet_in_block(
    state: &CaptureState,
    order: ByteOrder,
    kind: u32,
    at: u64,
    block: &[u8],
) -> Result<Option<PacketPart>, FormatFault>
    requires size { 12 ≤ length block.now }
    requires offsets { at + length block.now < 2 ^ 64 }
    ensures packet { seen (option_map (packet_in block.now)) result ≡ packet_in_block order state.now kind at block.now }
    ensures within { IfOk result (λ part. IfSome part (λ p. p.from + p.count ≤ length block.now)) }
{
    if kind == ENHANCED_PACKET {
        Ok(Some(enhanced_packet(order, state.interfaces(), at, block)?))
    } else if kind == SIMPLE_PACKET {
        Ok(Some(simple_packet(order, state.interfaces(), state.stamp(), at, block)?))
    } else if kind == OLD_PACKET {
        Ok(Some(old_packet(order, state.interfaces(), at, block)?))
    } else {
        Ok(None)
    }
}

/// Changes the state by a block, and gives its packet, if it has one.
#[tactic(auto, unfolding(crate::specs::Pcapng::block_content))]
pub(crate) fn block_content(
    state: &mut CaptureState,
    order: ByteOrder,
    name: Option<&[u8]>,
    kind: u32,
    at: u64,
    block: &[u8],
) -> Result<Option<PacketPart>, CaptureFault>
    requires size { 12 ≤ length block.now }
    requires offsets { at + length block.now < 2 ^ 64 }
    ensures content { GivesContent result state.new block.now (block_content order (option_map (λ n. n.now) name.entry) state.old kind at block.now) }
    ensures failed { OnErr result (state.new ≡ state.old) }
    ensures within { IfOk result (λ part. IfSome part (λ p. p.from + p.count ≤ length block.now)) }
{
    match packet_in_block(state, order, kind, at, block)? {
        Some(part) => Ok(stamped_packet(state, part)),
        None => {
            state_after(state, order, name, kind, at, block)?;
            Ok(None)
        }
    }
}
