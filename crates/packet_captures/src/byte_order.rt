//! Numbers in either byte order, at an offset.

ghost use Rattle.std.specs.Prelude.{◌≡◌, ◌+◌, ◌≤◌, length};
ghost use Rattle.std.specs.Int.{w16, w32, w64};
ghost use Rattle.packet_captures.specs.Numbers.{number_at};

/// Order of the bytes of a number.
#[derive(Clone, Copy, Debug, PartialEq, Eq)]
pub enum ByteOrder {
    /// The lowest byte first.
    Little,
    /// The highest byte first.
    Big,
}

/// Number in the two bytes at an offset.
#[tactic(auto, unfolding(crate::specs::Numbers::number_at))]
pub(crate) fn u16_at(order: ByteOrder, bytes: &[u8], at: usize) -> u16
    requires { at + 2 ≤ length bytes.now }
    ensures { result ≡ number_at order w16 at bytes.now }
{
    let field = [bytes[at], bytes[at + 1]];
    match order {
        ByteOrder::Little => u16::from_le_bytes(field),
        ByteOrder::Big => u16::from_be_bytes(field),
    }
}

/// Number in the four bytes at an offset.
#[tactic(auto, unfolding(crate::specs::Numbers::number_at))]
pub(crate) fn u32_at(order: ByteOrder, bytes: &[u8], at: usize) -> u32
    requires { at + 4 ≤ length bytes.now }
    ensures { result ≡ number_at order w32 at bytes.now }
{
    let field = [bytes[at], bytes[at + 1], bytes[at + 2], bytes[at + 3]];
    match order {
        ByteOrder::Little => u32::from_le_bytes(field),
        ByteOrder::Big => u32::from_be_bytes(field),
    }
}

/// Number in the eight bytes at an offset.
#[tactic(auto, unfolding(crate::specs::Numbers::number_at))]
pub(crate) fn u64_at(order: ByteOrder, bytes: &[u8], at: usize) -> u64
    requires { at + 8 ≤ length bytes.now }
    ensures { result ≡ number_at order w64 at bytes.now }
{
    let field = [
        bytes[at],
        bytes[at + 1],
        bytes[at + 2],
        bytes[at + 3],
        bytes[at + 4],
        bytes[at + 5],
        bytes[at + 6],
        bytes[at + 7],
    ];
    match order {
        ByteOrder::Little => u64::from_le_bytes(field),
        ByteOrder::Big => u64::from_be_bytes(field),
    }
}
