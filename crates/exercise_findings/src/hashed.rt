//! Words that feed the hasher, which takes 64 bits at a time, or single bytes.

ghost use Rattle.std.specs.Prelude.{◌≡◌};
ghost use Rattle.exercise_findings.specs.Hashed.{word};

/// One 64-bit word of three numbers, `high` in the upper half.
pub(crate) fn word(high: u32, middle: u16, low: u16) -> u64
    ensures { result ≡ word high middle low }
{
    u64::from(high) * 0x1_0000_0000 + u64::from(middle) * 0x1_0000 + u64::from(low)
}
