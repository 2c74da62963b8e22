//! Numbers in network byte order (big-endian) at an offset of bytes.

ghost use Rattle.std.specs.Prelude.{◌≡◌, ◌+◌, ◌≤◌, length};
ghost use Rattle.std.specs.Int.{w8, w16, w32, w64};
ghost use Rattle.packet_captures.specs.NetworkOrder.{number_at, number_if};

/// Byte at an offset.
#[tactic(auto, unfolding(crate::specs::NetworkOrder::number_at))]
pub(crate) fn u8_at(bytes: &[u8], at: usize) -> u8
    requires { at + 1 ≤ length bytes.now }
    ensures { result ≡ number_at w8 at bytes.now }
{
    bytes[at]
}

/// Number in the two bytes at an offset.
#[tactic(auto, unfolding(crate::specs::NetworkOrder::number_at))]
pub(crate) fn u16_at(bytes: &[u8], at: usize) -> u16
    requires { at + 2 ≤ length bytes.now }
    ensures { result ≡ number_at w16 at bytes.now }
{
    u16::from_be_bytes([bytes[at], bytes[at + 1]])
}

/// Number in the four bytes at an offset.
#[tactic(auto, unfolding(crate::specs::NetworkOrder::number_at))]
pub(crate) fn u32_at(bytes: &[u8], at: usize) -> u32
    requires { at + 4 ≤ length bytes.now }
    ensures { result ≡ number_at w32 at bytes.now }
{
    u32::from_be_bytes([bytes[at], bytes[at + 1], bytes[at + 2], bytes[at + 3]])
}

/// Number in the eight bytes at an offset.
#[tactic(auto, unfolding(crate::specs::NetworkOrder::number_at))]
pub(crate) fn u64_at(bytes: &[u8], at: usize) -> u64
    requires { at + 8 ≤ length bytes.now }
    ensures { result ≡ number_at w64 at bytes.now }
{
    u64::from_be_bytes([
        bytes[at],
        bytes[at + 1],
        bytes[at + 2],
        bytes[at + 3],
        bytes[at + 4],
        bytes[at + 5],
        bytes[at + 6],
        bytes[at + 7],
    ])
}

/// Number in the two bytes at an offset, if both are there.
pub(crate) fn u16_if(bytes: &[u8], at: usize) -> Option<u16>
    requires { at ≤ 8 }
    ensures { result ≡ number_if w16 at bytes.now }
{
    if at + 2 <= bytes.len() {
        Some(u16_at(bytes, at))
    } else {
        None
    }
}
