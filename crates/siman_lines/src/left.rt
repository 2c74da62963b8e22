//! What stations at their links left out.

ghost use Rattle.std.specs.Prelude.{◌≡◌};
ghost use Rattle.siman_lines.specs.LeftOut.{is_nothing, left_out_by};

use crate::line::Line;
use crate::station_at_line::StationAtLine;

/// Counts of what stations left out, all together.
#[derive(Clone, Copy)]
pub struct LeftOut {
    /// Number of stations that may have something left to serve.
    pub busy: usize,
    /// Datagrams of over 8192 bytes that they dropped; saturates at the greatest `u64`.
    pub dropped: u64,
    /// Datagrams from strangers that their links passed over; saturates likewise.
    pub strangers: u64,
}

impl LeftOut {
    /// Whether nothing was left out.
    pub fn is_nothing(self) -> bool
        ensures { result ≡ is_nothing self }
    {
        self.busy == 0 && self.dropped == 0 && self.strangers == 0
    }
}

/// Counts of what stations at their links left out, all together.
pub fn left_out<L: Line + Drop>(stations: &[StationAtLine<L>]) -> LeftOut
    ensures { result ≡ left_out_by L.passed stations.now }
{
    let mut busy = 0;
    let mut dropped: u64 = 0;
    let mut strangers: u64 = 0;
    for station in stations {
        if station.busy {
            busy += 1;
        }
        dropped = dropped.saturating_add(station.dropped);
        strangers = strangers.saturating_add(station.line.passed().strangers);
    }
    LeftOut {
        busy,
        dropped,
        strangers,
    }
}
