//! Clock times.

use std::fmt;

/// A time that exceeds one hour (IEEE 1278.1-2012, 6.2.14). Both numbers are carried and printed
/// unchanged, and nothing is computed from them (profile).
#[derive(Clone, Copy, PartialEq, Eq)]
pub struct ClockTime {
    /// Hours since 0000 h on 1 January 1970 UTC; its 32 bits are printed as an unsigned number.
    pub hour: u32,
    /// Time past the hour, encoded like a timestamp: upper 31 bits the time, lowest bit 1 for
    /// absolute time.
    pub past: u32,
}

/// Prints `hour/past`, the two numbers unchanged.
impl fmt::Display for ClockTime {
    ghost use Rattle.std.specs.Prelude.{Some};
    ghost use Rattle.dis_records.specs.Texts.{clock_text};

    ghost output = { λ t. Some (clock_text t) };

    fn fmt<W: fmt::Write>(&self, f: &mut fmt::Formatter<W>) -> fmt::Result {
        write!(f, "{}/{}", self.hour, self.past)
    }
}
