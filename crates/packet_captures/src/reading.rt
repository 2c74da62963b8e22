//! Reads records and blocks through a window over the file.

ghost use Rattle.std.specs.Prelude.{◌≡◌, ◌+◌, ◌≤◌, ◌==◌, false, length, take, IfOk, OnOk, IfSome};
ghost use Rattle.std.specs.Int.{w32};
ghost use Rattle.packet_captures.specs.Answers.{Gives, Reads};
ghost use Rattle.byte_files.specs.Fields.{tested};
ghost use Rattle.packet_captures.specs.Pcap.{pcap_at, pcap_head, record_at, record_packet, record_size};
ghost use Rattle.packet_captures.specs.declared.capture_fault.FormatFault.TheVariants as faults;
ghost use Rattle.packet_captures.specs.Numbers.{number_at};
ghost use Rattle.packet_captures.specs.Pcapng.{held_in, order_in, same_at_end, section_at, size_in, sized_at, version_in};
ghost use Rattle.packet_captures.specs.Whole.{held_at, whole_at};
ghost use Rattle.packet_captures.specs.Window.{Passes, SameAhead, bytes_ahead};

use crate::byte_order::{ByteOrder, u32_at};
use crate::capture_fault::{CaptureFault, FormatFault};
use crate::limits::LARGEST_BLOCK;
use crate::packet::PacketHead;
use crate::pcap::{PCAP_HEAD, PcapHead, RECORD_HEAD, RECORD_LENGTH, pcap_head};
use crate::pcapng::{BLOCK_HEAD, SECTION_HEAD, order_in, same_at_end, size_in, version_in};
use crate::window::Window;
use std::io::Read;

/// Holds this many bytes; the fault is Truncated if the file ends before.
pub(crate) fn hold_whole<R: Read>(
    window: &mut Window<R>,
    size: usize,
    head: bool,
) -> Result<(), CaptureFault>
    ensures same { OnOk result (SameAhead window.old window.new) }
    ensures held { OnOk result (size ≤ length window.new.held) }
    ensures whole { IfSome (bytes_ahead window.old) (λ b. Gives result (whole_at size head window.old.at b)) }
{
    if !window.hold(size)? {
        let at = window.offset(window.held().len());
        return Err(CaptureFault::Format(FormatFault::Truncated { at, head }));
    }
    Ok(())
}

/// Checks that a record or block of this size is held at once; else the fault is at its length, which
/// has this offset in it.
fn check_held<R: Read>(window: &Window<R>, size: usize, field: usize) -> Result<(), FormatFault>
    requires { field ≤ length window.now.held }
    ensures { result ≡ held_at size field window.now.at }
{
    if size > LARGEST_BLOCK {
        return Err(FormatFault::Block(window.offset(field)));
    }
    Ok(())
}

/// Checks that the block whose head is held is held at once.
pub(crate) fn check_block<R: Read>(window: &Window<R>, order: ByteOrder) -> Result<(), FormatFault>
    requires { 8 ≤ length window.now.held }
    ensures { IfSome (bytes_ahead window.now) (λ b. result ≡ held_in order window.now.at (take 8 b)) }
{
    let size = u32_at(order, &window.held()[..BLOCK_HEAD], 4);
    check_held(window, size as usize, 4)
}

/// Total length of the block whose head is held.
fn block_size<R: Read>(window: &Window<R>, order: ByteOrder) -> Result<usize, FormatFault>
    requires { 8 ≤ length window.now.held }
    ensures size { IfSome (bytes_ahead window.now) (λ b. result ≡ size_in order window.now.at (take 8 b)) }
    ensures least { IfOk result (λ n. 12 ≤ n) }
{
    let _end = window.offset(BLOCK_HEAD);
    size_in(order, window.offset(0), &window.held()[..BLOCK_HEAD])
}

/// Checks that a block that is held ends with its total length.
fn check_end<R: Read>(
    window: &Window<R>,
    order: ByteOrder,
    size: usize,
) -> Result<usize, FormatFault>
    requires { (12 ≤ size) × (size ≤ length window.now.held) }
    ensures size { IfSome (bytes_ahead window.now) (λ b. result ≡ same_at_end order size window.now.at (take size b)) }
    ensures same { IfOk result (λ n. n ≡ size) }
{
    let _end = window.offset(size);
    same_at_end(order, size, window.offset(0), &window.held()[..size])
}

/// Holds the block whose head is held; returns its size.
#[tactic(auto, unfolding(crate::specs::Pcapng::sized_at))]
pub(crate) fn hold_block<R: Read>(
    window: &mut Window<R>,
    order: ByteOrder,
    head: bool,
) -> Result<usize, CaptureFault>
    requires { 8 ≤ length window.old.held }
    ensures same { OnOk result (SameAhead window.old window.new) }
    ensures held { IfOk result (λ n. (12 ≤ n) × (n ≤ length window.new.held)) }
    ensures size { IfSome (bytes_ahead window.old) (λ b. Gives result (sized_at order head window.old.at b)) }
{
    let size = block_size(window, order)?;
    hold_whole(window, size, head)?;
    Ok(check_end(window, order, size)?)
}

/// Passes over this many bytes; the fault is Truncated if the file ends before.
fn pass_whole<R: Read>(window: &mut Window<R>, size: usize) -> Result<(), CaptureFault>
    ensures passed { OnOk result (Passes size window.old window.new) }
    ensures whole { IfSome (bytes_ahead window.old) (λ b. Gives result (whole_at size false window.old.at b)) }
{
    if !window.pass_over(size)? {
        let at = window.offset(0);
        return Err(CaptureFault::Format(FormatFault::Truncated { at, head: false }));
    }
    Ok(())
}

/// Passes over the last total length of a block of this size, which is held.
fn pass_end<R: Read>(
    window: &mut Window<R>,
    order: ByteOrder,
    size: usize,
) -> Result<usize, CaptureFault>
    requires { 4 ≤ length window.old.held }
    ensures passed { OnOk result (Passes 4 window.old window.new) }
    ensures same { IfOk result (λ n. n ≡ size) }
    ensures size { IfSome (bytes_ahead window.old) (λ b. Gives result (tested (number_at order w32 0 (take 4 b) == size) (faults.Block window.old.at) size)) }
{
    if u32_at(order, &window.held()[..4], 0) as usize != size {
        let at = window.offset(0);
        return Err(CaptureFault::Format(FormatFault::Block(at)));
    }
    window.pass(4);
    Ok(size)
}

/// Passes over the block whose head is held, in as much memory as any; returns its size.
#[tactic(auto, unfolding(crate::specs::Pcapng::sized_at))]
pub(crate) fn pass_block<R: Read>(
    window: &mut Window<R>,
    order: ByteOrder,
) -> Result<usize, CaptureFault>
    requires { 8 ≤ length window.old.held }
    ensures passed { IfOk result (λ n. Passes n window.old window.new) }
    ensures size { IfSome (bytes_ahead window.old) (λ b. Gives result (sized_at order false window.old.at b)) }
{
    let size = block_size(window, order)?;
    pass_whole(window, size - 4)?;
    hold_whole(window, 4, false)?;
    pass_end(window, order, size)
}

/// Size of the record whose head is held.
fn record_size<R: Read>(window: &Window<R>, head: PcapHead) -> usize
    requires { 16 ≤ length window.now.held }
    ensures size { IfSome (bytes_ahead window.now) (λ b. result ≡ record_size head (take 16 b)) }
    ensures least { 16 ≤ result }
{
    head.record_size(&window.held()[..RECORD_HEAD])
}

/// Takes the record that is held, of this size.
fn take_record<R: Read>(
    window: &mut Window<R>,
    head: PcapHead,
    wanted: bool,
    size: usize,
) -> PacketHead
    requires { (16 ≤ size) × (size ≤ length window.old.held) }
    ensures passed { Passes size window.old window.new }
    ensures packet { IfSome (bytes_ahead window.old) (λ b. record { head = result; bytes = window.new.kept } ≡ record_packet head wanted window.old.at (take size b)) }
{
    let at = window.offset(0);
    let record = head.record_head(wanted, at, &window.held()[..RECORD_HEAD]);
    window.pass_keeping(size, RECORD_HEAD, size - RECORD_HEAD);
    record
}

/// Reads the record of pcap at the front.
#[tactic(auto, unfolding(crate::specs::Pcap::record_at))]
pub(crate) fn next_record<R: Read>(
    window: &mut Window<R>,
    head: PcapHead,
    wanted: bool,
) -> Result<PacketHead, CaptureFault>
    ensures { IfSome (bytes_ahead window.old) (λ b. Reads result window.old window.new (record_at head wanted window.old.at b)) }
{
    hold_whole(window, RECORD_HEAD, false)?;
    let size = record_size(window, head);
    check_held(window, size, RECORD_LENGTH)?;
    hold_whole(window, size, false)?;
    Ok(take_record(window, head, wanted, size))
}

/// The head of a file of pcap that is held, given the kind of its magic.
fn held_head<R: Read>(window: &Window<R>, kind: (ByteOrder, bool)) -> Result<PcapHead, FormatFault>
    requires { 24 ≤ length window.now.held }
    ensures { IfSome (bytes_ahead window.now) (λ b. result ≡ pcap_head kind window.now.at (take 24 b)) }
{
    let _end = window.offset(PCAP_HEAD);
    pcap_head(kind, window.offset(0), &window.held()[..PCAP_HEAD])
}

/// Reads the head of a file of pcap, given the kind of its magic.
#[tactic(auto, unfolding(crate::specs::Pcap::pcap_at))]
pub(crate) fn next_pcap<R: Read>(
    window: &mut Window<R>,
    kind: (ByteOrder, bool),
) -> Result<PcapHead, CaptureFault>
    ensures passed { OnOk result (Passes 24 window.old window.new) }
    ensures head { IfSome (bytes_ahead window.old) (λ b. Gives result (pcap_at kind window.old.at b)) }
{
    hold_whole(window, PCAP_HEAD, true)?;
    let head = held_head(window, kind)?;
    window.pass(PCAP_HEAD);
    Ok(head)
}

/// Byte order of the section whose header is held as far as that.
fn held_order<R: Read>(window: &Window<R>) -> Result<ByteOrder, FormatFault>
    requires { 12 ≤ length window.now.held }
    ensures { IfSome (bytes_ahead window.now) (λ b. result ≡ order_in window.now.at (take 12 b)) }
{
    let _end = window.offset(SECTION_HEAD);
    order_in(window.offset(0), &window.held()[..SECTION_HEAD])
}

/// Checks the version of the section header that is held, of this size.
fn check_version<R: Read>(
    window: &Window<R>,
    order: ByteOrder,
    size: usize,
) -> Result<(), FormatFault>
    requires { (12 ≤ size) × (size ≤ length window.now.held) }
    ensures { IfSome (bytes_ahead window.now) (λ b. result ≡ version_in order window.now.at (take size b)) }
{
    let _end = window.offset(size);
    version_in(order, window.offset(0), &window.held()[..size])
}

/// Reads the section header at the front; returns its size and the byte order.
#[tactic(auto, unfolding(crate::specs::Pcapng::section_at))]
pub(crate) fn next_section<R: Read>(
    window: &mut Window<R>,
    head: bool,
) -> Result<(usize, ByteOrder), CaptureFault>
    ensures passed { IfOk result (λ r. Passes r.0 window.old window.new) }
    ensures section { IfSome (bytes_ahead window.old) (λ b. Gives result (section_at head window.old.at b)) }
{
    hold_whole(window, SECTION_HEAD, head)?;
    let order = held_order(window)?;
    check_block(window, order)?;
    let size = hold_block(window, order, head)?;
    check_version(window, order, size)?;
    window.pass(size);
    Ok((size, order))
}
