//! Stamps of packets, in microseconds since 1970-01-01, rounded down.

ghost use Rattle.std.specs.Prelude.{◌≡◌, ◌+◌, ◌-◌, ◌*◌, ◌<◌, ◌^◌};
ghost use Rattle.packet_captures.specs.Stamp.{microseconds, stamp_of, in_64_bits, less_by};

/// Microseconds in a second.
const SECOND: u128 = 1_000_000;

/// Value of `if_tsresol` for microseconds, which holds where an interface has none.
pub(crate) const MICROSECONDS: u8 = 6;

/// Value of `if_tsresol` for nanoseconds.
const NANOSECONDS: u8 = 9;

/// A power of ten that is below 2 ^ 84.
#[tactic(auto, using(crate::proofs::Stamps::tens_rise, crate::proofs::Stamps::tens_are_above_0))]
fn power_of_ten(exponent: u8) -> u128
    requires { exponent < 26 }
    ensures value { result ≡ 10 ^ exponent }
    ensures positive { 0 < result }
{
    10u128.pow(u32::from(exponent))
}

/// Ticks in microseconds.
#[tactic(auto, using(crate::proofs::Stamps::tiny))]
fn microseconds(resolution: u8, ticks: u64) -> u128
    ensures value { result ≡ microseconds resolution ticks }
    ensures limit { result < 2 ^ 84 }
{
    let parts = u128::from(ticks) * SECOND;
    if resolution >= 128 {
        parts >> (resolution - 128)
    } else if resolution < 26 {
        parts / power_of_ten(resolution)
    } else {
        0
    }
}

/// The number, if it has 64 bits.
fn in_64_bits(number: u128) -> Option<u64>
    ensures { result ≡ in_64_bits number }
{
    if number < 1 << 64 {
        Some(number as u64)
    } else {
        None
    }
}

/// The number less by another, if that is not below 0 and has 64 bits.
fn less_by(number: u128, other: u128) -> Option<u64>
    ensures { result ≡ less_by number other }
{
    if number < other {
        None
    } else {
        in_64_bits(number - other)
    }
}

/// Like [`stamp_of`], for any resolution and offset.
#[tactic(auto, unfolding(crate::specs::Stamp::stamp_of))]
fn shifted_stamp(resolution: u8, offset: u64, ticks: u64) -> Option<u64>
    ensures { result ≡ stamp_of resolution offset ticks }
{
    let unshifted = microseconds(resolution, ticks);
    if offset < 1 << 63 {
        in_64_bits(unshifted + u128::from(offset) * SECOND)
    } else {
        less_by(unshifted, ((1 << 64) - u128::from(offset)) * SECOND)
    }
}

/// The stamp of these ticks, with the resolution and the offset of their interface; `None` if it is
/// before 1970 or above 64 bits.
#[tactic(auto, unfolding(crate::specs::Stamp::stamp_of), using(crate::proofs::Stamps::plain, crate::proofs::Stamps::thousandths))]
pub(crate) fn stamp_of(resolution: u8, offset: u64, ticks: u64) -> Option<u64>
    ensures { result ≡ stamp_of resolution offset ticks }
{
    if offset == 0 && resolution == MICROSECONDS {
        Some(ticks)
    } else if offset == 0 && resolution == NANOSECONDS {
        Some(ticks / 1000)
    } else {
        shifted_stamp(resolution, offset, ticks)
    }
}
