//! The checksum of an IPv4 header.

ghost use Rattle.std.specs.Prelude.{◌≡◌, ℕ, ◌+◌, ◌<◌, ◌^◌};
ghost use Rattle.exercise_recording.specs.Captures.Checksum.{carried, checksum_of};

/// Checksum of words of 16 bits with this sum: the complement of their ones' complement sum (RFC
/// 1071, 1).
pub(crate) fn checksum(sum: u32) -> u16
    ensures { result ≡ checksum_of sum }
{
    let once = carried(sum);
    let twice = carried(once);
    65_535 - twice as u16
}

/// A sum of words to which its carries are added.
fn carried(sum: u32) -> u32
    ensures { result ≡ carried sum }
{
    sum % 65_536 + sum / 65_536
}

/// A header adds up, with its checksum, to all ones in ones' complement, as whoever receives it
/// looks at (RFC 1071, 1).
pub fn headers_add_up()
    ensures { (sum : ℕ) → sum < 2 ^ 31 → carried (carried (sum + checksum_of sum)) ≡ 65535 }
{}
