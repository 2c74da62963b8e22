//! The trait of a link.

ghost use Rattle.std.specs.Prelude.{◌≡◌, not, ℕ, ◌<◌, List, Option, None, Result, ⊤, IfOk, OnOk, OnErr, MatchOption};
ghost use Rattle.siman_lines.specs.LineDatagrams.{Grows, Hands, MayGrow, Same};

use crate::trouble::LineTrouble;
use std::net::SocketAddr;
use thiserror::Error;

/// A failed call of a link.
#[derive(Clone, Copy, Debug, PartialEq, Eq, Error)]
pub enum LineFault {
    /// The datagram of a send may have been sent or not; a receive returned nothing.
    #[error("the line failed")]
    Failed,
}

/// The datagrams that a link passed over so far. Each count saturates at the greatest `u64`.
#[derive(Clone, Copy, Debug, PartialEq, Eq)]
pub struct PassedOver {
    /// From strangers, who are no peers.
    pub strangers: u64,
    /// Of other protocol families than Simulation Management, from peers.
    pub others: u64,
}

impl PassedOver {
    ghost use Rattle.siman_lines.specs.Passed.{passed_nothing, same_counts};

    /// No datagrams.
    pub fn nothing() -> PassedOver
        ensures { result ≡ passed_nothing }
    {
        PassedOver {
            strangers: 0,
            others: 0,
        }
    }

    /// Whether a count differs from that of `earlier`.
    pub(crate) fn differs_from(self, earlier: PassedOver) -> bool
        ensures { result ≡ not (same_counts self earlier) }
    {
        self.strangers != earlier.strangers || self.others != earlier.others
    }
}

/// A link: the end of a network at one station. It carries datagrams without any promise of
/// delivery, and a call never waits.
pub trait Line {
    ghost use Rattle.siman_lines.specs.declared.line.LineFault.{LineFault};
    ghost use Rattle.siman_lines.specs.declared.line.PassedOver.{PassedOver};

    // Datagrams that it returned from receives, oldest first, if links of this kind specify them.
    ghost received: { Self → Option (List (List ℕ)) } = { λ _. None };

    // Datagrams passed to its sends, oldest first, if links of this kind specify them.
    ghost sent: { Self → Option (List (List ℕ)) } = { λ _. None };

    // Number of failed calls.
    ghost failures: { Self → ℕ };

    // Relation between the states before and after a receive that found nothing.
    ghost finds_nothing: { Self → Self → Type 0 };

    // The datagrams that it passed over.
    ghost passed: { Self → PassedOver };

    // What links of this kind promise of a send beyond the contract of all links, given the
    // datagram, the states before and after, and the result.
    ghost sends: { List ℕ → Self → Self → Result (Unit {0}) LineFault → Type 0 } = { λ _ _ _ _. ⊤ };

    // What links of this kind promise of a receive beyond the contract of all links.
    ghost receives: { Self → Self → Result (Option ℕ) LineFault → Type 0 } = { λ _ _ _. ⊤ };

    /// Sends a datagram. After a fault it may have been sent or not.
    fn send(&mut self, datagram: &[u8]) -> Result<(), LineFault>
        ensures sent { OnOk result (Grows (sent self.old) (sent self.new) datagram.now) }
        ensures lost { OnErr result (MayGrow (sent self.old) (sent self.new) datagram.now) }
        ensures received { Same (received self.old) (received self.new) }
        ensures own { sends datagram.now self.old self.new result }
        ensures worked { OnOk result (failures self.new ≡ failures self.old) }
        ensures failed { OnErr result (failures self.old < failures self.new) };

    /// Receives the next datagram into the front of the buffer, cut to the size of the buffer, and
    /// returns how many bytes it wrote there. `None` if no datagram is waiting.
    fn receive(&mut self, buffer: &mut [u8]) -> Result<Option<usize>, LineFault>
        ensures within { IfOk result (λ r. MatchOption r
            (Same (received self.old) (received self.new))
            (λ n. Hands (received self.old) (received self.new) n buffer.new)) }
        ensures nothing { IfOk result (λ r. MatchOption r (finds_nothing self.old self.new) (λ n. Unit {0})) }
        ensures none { OnErr result (Same (received self.old) (received self.new)) }
        ensures sent { Same (sent self.old) (sent self.new) }
        ensures own { receives self.old self.new result }
        ensures worked { OnOk result (failures self.new ≡ failures self.old) }
        ensures failed { OnErr result (failures self.old < failures self.new) };

    /// The datagrams that it passed over so far.
    fn passed(&self) -> PassedOver
        ensures { result ≡ passed self.now };

    /// The last failed call, if there was any and the link records it.
    fn trouble(&self) -> Option<LineTrouble> {
        None
    }

    /// The address of the stranger that came first after `place` other ones, if the link keeps it. No
    /// contract speaks of it.
    fn stranger(&self, _place: usize) -> Option<SocketAddr> {
        None
    }

    /// As [`lost`](Line::lost), as it was when the link looked last. No contract speaks of it.
    fn lost_lately(&self) -> Option<u64> {
        None
    }

    /// How many datagrams the system dropped before this link could receive them, if it is known.
    /// No contract speaks of it: it is the system's own count.
    fn lost(&self) -> Option<u64> {
        None
    }

    /// How many bytes of datagrams the system keeps until this link receives them, if it is known.
    /// No contract speaks of it.
    fn buffer(&self) -> Option<u64> {
        None
    }
}
