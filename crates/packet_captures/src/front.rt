//! The head, record or block at the front of the bytes of a capture.

ghost use Rattle.std.specs.Prelude.{◌≡◌, ◌≤◌, length, take, true, false, None, IfSome, IfOk, IfErr, OnOk, OnErr};
ghost use Rattle.packet_captures.specs.Faults.{format_of};
ghost use Rattle.packet_captures.specs.declared.byte_order.ByteOrder.TheVariants.{Little};
ghost use Rattle.std.specs.Int.{w32};
ghost use Rattle.std.specs.Option.{option_map};
ghost use Rattle.packet_captures.specs.Answers.{Finds, GivesKept};
ghost use Rattle.packet_captures.specs.Capture.{block_found, front_found, head_found, is_whole, other_found, pcap_found, record_found, section_found, start_found};
ghost use Rattle.packet_captures.specs.Numbers.{number_at};
ghost use Rattle.packet_captures.specs.Pcapng.{block_content, is_looked_into};
ghost use Rattle.packet_captures.specs.Window.{Passes, SameAhead, bytes_ahead};

use crate::byte_order::{ByteOrder, u32_at};
use crate::capture_fault::{CaptureFault, FormatFault};
use crate::form::Form;
use crate::packet::PacketHead;
use crate::pcap::{PcapHead, pcap_kind};
use crate::pcapng::{BLOCK_HEAD, SECTION, block_content, is_looked_into};
use crate::reading::{
    check_block, hold_block, hold_whole, next_pcap, next_record, next_section, pass_block,
};
use crate::state::CaptureState;
use crate::window::Window;
use std::io::Read;

/// Reads the block that is held, of this size, and passes over it; the bytes of its packet stay
/// readable.
fn take_block<R: Read>(
    window: &mut Window<R>,
    state: &mut CaptureState,
    order: ByteOrder,
    name: Option<&[u8]>,
    kind: u32,
    size: usize,
) -> Result<Option<PacketHead>, CaptureFault>
    requires { (12 ≤ size) × (size ≤ length window.old.held) }
    ensures passed { OnOk result (Passes size window.old window.new) }
    ensures content { IfSome (bytes_ahead window.old) (λ b. GivesKept result window.new state.new (block_content order (option_map (λ n. n.now) name.entry) state.old kind window.old.at (take size b))) }
    ensures failed { OnErr result (state.new ≡ state.old) }
{
    let at = window.offset(0);
    let _end = window.offset(size);
    match block_content(state, order, name, kind, at, &window.held()[..size])? {
        Some(part) => {
            window.pass_keeping(size, part.from, part.count);
            Ok(Some(part.head))
        }
        None => {
            window.pass(size);
            Ok(None)
        }
    }
}

/// Reads the section header at the front.
#[tactic(auto, unfolding(crate::specs::Capture::section_found))]
fn section<R: Read>(
    window: &mut Window<R>,
    state: &mut CaptureState,
    head: bool,
) -> Result<Option<PacketHead>, CaptureFault>
    ensures found { IfSome (bytes_ahead window.old) (λ b. Finds result window.new state.new (section_found head state.old window.old.at b)) }
    ensures failed { OnErr result (state.new ≡ state.old) }
{
    let (_size, order) = next_section(window, head)?;
    state.begin_section(order);
    Ok(None)
}

/// Reads the head of a file of pcap at the front.
#[tactic(auto, unfolding(crate::specs::Capture::pcap_found))]
fn pcap<R: Read>(
    window: &mut Window<R>,
    state: &mut CaptureState,
    kind: (ByteOrder, bool),
) -> Result<Option<PacketHead>, CaptureFault>
    ensures found { IfSome (bytes_ahead window.old) (λ b. Finds result window.new state.new (pcap_found kind state.old window.old.at b)) }
    ensures failed { OnErr result (state.new ≡ state.old) }
{
    let head = next_pcap(window, kind)?;
    state.begin_pcap(head);
    Ok(None)
}

/// Reads the record of pcap at the front.
#[tactic(auto, unfolding(crate::specs::Capture::record_found))]
fn record<R: Read>(
    window: &mut Window<R>,
    state: &mut CaptureState,
    head: PcapHead,
    name: Option<&[u8]>,
) -> Result<Option<PacketHead>, CaptureFault>
    ensures found { IfSome (bytes_ahead window.old) (λ b. Finds result window.new state.new (record_found head (option_map (λ n. n.now) name.entry) state.old window.old.at b)) }
    ensures failed { OnErr result (state.new ≡ state.old) }
{
    Ok(Some(next_record(window, head, name.is_none())?))
}

/// Kind of the block whose head is held.
fn kind_of<R: Read>(window: &Window<R>, order: ByteOrder) -> u32
    requires { 8 ≤ length window.now.held }
    ensures { IfSome (bytes_ahead window.now) (λ b. result ≡ number_at order w32 0 (take 8 b)) }
{
    u32_at(order, &window.held()[..BLOCK_HEAD], 0)
}

/// Reads a block that is looked into and whose head is held.
#[tactic(auto, unfolding(crate::specs::Capture::other_found))]
fn known_block<R: Read>(
    window: &mut Window<R>,
    state: &mut CaptureState,
    order: ByteOrder,
    name: Option<&[u8]>,
    kind: u32,
) -> Result<Option<PacketHead>, CaptureFault>
    requires head { 8 ≤ length window.old.held }
    requires kind { is_looked_into kind ≡ true }
    ensures found { IfSome (bytes_ahead window.old) (λ b. kind ≡ number_at order w32 0 (take 8 b) →
        Finds result window.new state.new (other_found order (option_map (λ n. n.now) name.entry) state.old window.old.at b)) }
    ensures failed { OnErr result (state.new ≡ state.old) }
{
    check_block(window, order)?;
    let size = hold_block(window, order, false)?;
    take_block(window, state, order, name, kind, size)
}

/// Passes over a block that is not looked into and whose head is held.
#[tactic(auto, unfolding(crate::specs::Capture::other_found), using(crate::proofs::BlockContents::no_content))]
fn unknown_block<R: Read>(
    window: &mut Window<R>,
    state: &mut CaptureState,
    order: ByteOrder,
    name: Option<&[u8]>,
    kind: u32,
) -> Result<Option<PacketHead>, CaptureFault>
    requires head { 8 ≤ length window.old.held }
    requires kind { is_looked_into kind ≡ false }
    ensures found { IfSome (bytes_ahead window.old) (λ b. kind ≡ number_at order w32 0 (take 8 b) →
        Finds result window.new state.new (other_found order (option_map (λ n. n.now) name.entry) state.old window.old.at b)) }
    ensures failed { OnErr result (state.new ≡ state.old) }
{
    pass_block(window, order)?;
    Ok(None)
}

/// Reads a block that is no section header and whose head is held.
fn other_block<R: Read>(
    window: &mut Window<R>,
    state: &mut CaptureState,
    order: ByteOrder,
    name: Option<&[u8]>,
    kind: u32,
) -> Result<Option<PacketHead>, CaptureFault>
    requires { 8 ≤ length window.old.held }
    ensures found { IfSome (bytes_ahead window.old) (λ b. kind ≡ number_at order w32 0 (take 8 b) →
        Finds result window.new state.new (other_found order (option_map (λ n. n.now) name.entry) state.old window.old.at b)) }
    ensures failed { OnErr result (state.new ≡ state.old) }
{
    if is_looked_into(kind) {
        known_block(window, state, order, name, kind)
    } else {
        unknown_block(window, state, order, name, kind)
    }
}

/// Reads the block at the front.
#[tactic(auto, unfolding(crate::specs::Capture::block_found))]
fn block<R: Read>(
    window: &mut Window<R>,
    state: &mut CaptureState,
    order: ByteOrder,
    name: Option<&[u8]>,
) -> Result<Option<PacketHead>, CaptureFault>
    ensures found { IfSome (bytes_ahead window.old) (λ b. Finds result window.new state.new (block_found order (option_map (λ n. n.now) name.entry) state.old window.old.at b)) }
    ensures failed { OnErr result (state.new ≡ state.old) }
{
    hold_whole(window, BLOCK_HEAD, false)?;
    let kind = kind_of(window, order);
    if kind == SECTION {
        section(window, state, false)
    } else {
        other_block(window, state, order, name, kind)
    }
}

/// The first four bytes that are held, as a little-endian number.
fn magic_of<R: Read>(window: &Window<R>) -> u32
    requires { 4 ≤ length window.now.held }
    ensures { IfSome (bytes_ahead window.now) (λ b. result ≡ number_at Little w32 0 (take 4 b)) }
{
    u32_at(ByteOrder::Little, &window.held()[..4], 0)
}

/// Reads the head of a file that begins with this number.
fn head<R: Read>(
    window: &mut Window<R>,
    state: &mut CaptureState,
    magic: u32,
) -> Result<Option<PacketHead>, CaptureFault>
    ensures found { IfSome (bytes_ahead window.old) (λ b. Finds result window.new state.new (head_found magic state.old window.old.at b)) }
    ensures failed { OnErr result (state.new ≡ state.old) }
{
    if magic == SECTION {
        return section(window, state, true);
    }
    match pcap_kind(magic) {
        Some(kind) => pcap(window, state, kind),
        None => Err(CaptureFault::Format(FormatFault::Magic(window.offset(0)))),
    }
}

/// Reads the beginning of a file.
#[tactic(auto, unfolding(crate::specs::Capture::start_found))]
fn beginning<R: Read>(
    window: &mut Window<R>,
    state: &mut CaptureState,
) -> Result<Option<PacketHead>, CaptureFault>
    ensures found { IfSome (bytes_ahead window.old) (λ b. Finds result window.new state.new (start_found state.old window.old.at b)) }
    ensures failed { OnErr result (state.new ≡ state.old) }
{
    if !window.hold(4)? {
        return Err(CaptureFault::Format(FormatFault::Magic(window.offset(0))));
    }
    let magic = magic_of(window);
    head(window, state, magic)
}

/// Reads the head, record or block at the front; gives the head of its packet, if it has one.
#[tactic(auto, unfolding(crate::specs::Capture::front_found))]
pub(crate) fn front<R: Read>(
    window: &mut Window<R>,
    state: &mut CaptureState,
    name: Option<&[u8]>,
) -> Result<Option<PacketHead>, CaptureFault>
    ensures found { IfSome (bytes_ahead window.old) (λ b. Finds result window.new state.new (front_found state.old.form (option_map (λ n. n.now) name.entry) state.old window.old.at b)) }
    ensures failed { OnErr result (state.new ≡ state.old) }
{
    match state.form() {
        Form::Start => beginning(window, state),
        Form::Pcap(head) => record(window, state, head, name),
        Form::Section(order) => block(window, state, order, name),
    }
}

/// Whether the capture is whole here: it has begun, and no byte follows.
pub(crate) fn is_whole<R: Read>(
    window: &mut Window<R>,
    state: &CaptureState,
) -> Result<bool, CaptureFault>
    ensures same { OnOk result (SameAhead window.old window.new) }
    ensures whole { IfSome (bytes_ahead window.old) (λ b. IfOk result (λ whole. whole ≡ is_whole state.now.form b)) }
    ensures failed { IfErr result (λ e. format_of e ≡ None) }
{
    match state.form() {
        Form::Start => Ok(false),
        Form::Pcap(_) | Form::Section(_) => Ok(!window.hold(1)?),
    }
}
