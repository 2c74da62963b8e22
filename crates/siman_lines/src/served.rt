//! Result of some turns of a station.

ghost use Rattle.std.specs.Prelude.{◌≡◌, false, if◌then◌else◌};
ghost use Rattle.siman_lines.specs.AtLines.{is_busy};

/// Result of some turns of a station at its link.
#[derive(Clone, Copy)]
pub struct Served {
    /// Datagrams of at most 8192 bytes that it received, recorded and took.
    pub taken: u32,
    /// Answers that it sent.
    pub sent: u32,
    /// Longer datagrams that it received and dropped.
    pub dropped: u32,
    /// Whether the last receive found nothing.
    pub idle: bool,
}

impl Served {
    /// Result of no turns.
    pub(crate) fn nothing() -> Served
        ensures { result ≡ record { taken = 0; sent = 0; dropped = 0; idle = false } }
    {
        Served {
            taken: 0,
            sent: 0,
            dropped: 0,
            idle: false,
        }
    }

    /// Result of a turn that dropped a datagram.
    pub(crate) fn one_dropped() -> Served
        ensures { result ≡ record { taken = 0; sent = 0; dropped = 1; idle = false } }
    {
        Served {
            taken: 0,
            sent: 0,
            dropped: 1,
            idle: false,
        }
    }

    /// Result of a turn that took a datagram, and sent an answer if one was due.
    pub(crate) fn one_taken(answered: bool) -> Served
        ensures { result ≡ record { taken = 1; sent = if answered then 1 else 0; dropped = 0; idle = false } }
    {
        Served {
            taken: 1,
            sent: if answered { 1 } else { 0 },
            dropped: 0,
            idle: false,
        }
    }

    /// Whether something may be left to serve, given whether its link passed over a stranger's
    /// datagram.
    pub(crate) fn is_busy(self, met: bool) -> bool
        ensures { result ≡ is_busy self met }
    {
        self.taken > 0 || self.dropped > 0 || met || !self.idle
    }
}
