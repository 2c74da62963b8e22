//! Interfaces of a section of pcapng.

ghost use Rattle.std.specs.Prelude.{◌≡◌, ◌+◌, ◌≤◌, length};
ghost use Rattle.std.specs.Option.{option_map};
ghost use Rattle.packet_captures.specs.Interface.{interface_of, is_wanted, resolution_of, offset_of, kept_of, options_from};

use crate::byte_order::{ByteOrder, u16_at, u32_at, u64_at};
use crate::options::option_value;
use crate::stamp::MICROSECONDS;

/// Size in bytes of the last field of a block, its total length.
const LAST: usize = 4;

/// Code of the option for the name of an interface, and of those for the clock of its stamps.
const IF_NAME: u16 = 2;

const IF_TSRESOL: u16 = 9;

const IF_TSOFFSET: u16 = 14;

/// An interface of a section. Its name is not part of this, so that it is small.
#[derive(Clone, Copy, Debug, PartialEq, Eq)]
pub struct Interface {
    /// Link type of its packets (LINKTYPE).
    pub link: u16,
    /// Most bytes of a packet that were captured; 0 for no limit.
    pub snapshot: u32,
    /// Whether it has the wanted name.
    pub wanted: bool,
    /// Ticks of its clock in a second, as a power of ten, or from 128 on of two.
    pub resolution: u8,
    /// Seconds that are added to its stamps, in two's complement.
    pub offset: u64,
    /// Packets that it lost, as far as was said.
    pub lost: u64,
}

/// Options of a block, from an offset on.
pub(crate) fn options_from(offset: usize, block: &[u8]) -> &[u8]
    requires { offset + 4 ≤ length block.now }
    ensures { result.now ≡ options_from offset block.now }
{
    &block[offset..block.len() - LAST]
}

/// Whether an interface with the found name is wanted, given the wanted name.
fn is_wanted(name: Option<&[u8]>, found: Option<&[u8]>) -> bool
    ensures { result ≡ is_wanted (option_map (λ n. n.now) name.entry) (option_map (λ n. n.now) found.entry) }
{
    match (name, found) {
        (None, _) => true,
        (Some(name), Some(found)) => found == name,
        (Some(_), None) => false,
    }
}

/// The resolution of a clock, which is one byte if it is said.
fn resolution_of(order: ByteOrder, options: &[u8]) -> u8
    ensures { result ≡ resolution_of order options.now }
{
    match option_value(order, IF_TSRESOL, Some(1), options) {
        Some(value) => value[0],
        None => MICROSECONDS,
    }
}

/// The seconds that are added to stamps.
fn offset_of(order: ByteOrder, options: &[u8]) -> u64
    ensures { result ≡ offset_of order options.now }
{
    match option_value(order, IF_TSOFFSET, Some(8), options) {
        Some(value) => u64_at(order, value, 0),
        None => 0,
    }
}

/// The interface that a block describes.
#[tactic(auto, unfolding(crate::specs::Interface::interface_of))]
pub(crate) fn interface_of(order: ByteOrder, name: Option<&[u8]>, block: &[u8]) -> Interface
    requires { 20 ≤ length block.now }
    ensures { result ≡ interface_of order (option_map (λ n. n.now) name.entry) block.now }
{
    let options = options_from(16, block);
    Interface {
        link: u16_at(order, block, 8),
        snapshot: u32_at(order, block, 12),
        wanted: is_wanted(name, option_value(order, IF_NAME, None, options)),
        resolution: resolution_of(order, options),
        offset: offset_of(order, options),
        lost: 0,
    }
}

impl Interface {
    /// Captured length of a packet of this length in a simple packet block.
    pub(crate) fn kept_of(self, original: u32) -> u32
        ensures { result ≡ kept_of self.snapshot original }
    {
        if self.snapshot == 0 {
            original
        } else {
            original.min(self.snapshot)
        }
    }
}
