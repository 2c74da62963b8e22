//! How many packets of a capture were what.

ghost use Rattle.std.specs.Prelude.{◌≡◌};
ghost use Rattle.exercise_recording.specs.Captures.Counts.{no_counts, next, counted};

use crate::captures::packet_kind::PacketKind;

/// Numbers of packets of a capture, each of which no more than 64 bits hold.
#[derive(Clone, Copy, PartialEq, Eq)]
pub struct PacketCounts {
    /// All packets. Each is counted once more in one of the other fields down to `cut`.
    pub packets: u64,
    pub sent: u64,
    pub received: u64,
    pub other: u64,
    pub elsewhere: u64,
    pub passing: u64,
    pub shared: u64,
    pub fragments: u64,
    pub cut: u64,
    /// Packets among those sent that the station also heard.
    pub echoes: u64,
    /// Datagrams to the port that are longer than their PDU, whatever else they are.
    pub bundled: u64,
}

/// The number after one, or the largest of 64 bits.
fn next(number: u64) -> u64
    ensures { result ≡ next number }
{
    number.saturating_add(1)
}

impl PacketCounts {
    /// No packet yet.
    pub fn none() -> PacketCounts
        ensures { result ≡ no_counts }
    {
        PacketCounts {
            packets: 0,
            sent: 0,
            received: 0,
            other: 0,
            elsewhere: 0,
            passing: 0,
            shared: 0,
            fragments: 0,
            cut: 0,
            echoes: 0,
            bundled: 0,
        }
    }

    /// The counts with one more packet of a kind, which is bundled or not.
    #[tactic(auto, unfolding(crate::specs::Captures::Counts::counted))]
    pub(crate) fn with_packet(self, kind: PacketKind, is_bundled: bool) -> PacketCounts
        ensures { result ≡ counted kind is_bundled self }
    {
        let mut counts = self;
        counts.packets = next(counts.packets);
        if is_bundled {
            counts.bundled = next(counts.bundled);
        }
        match kind {
            PacketKind::Other => counts.other = next(counts.other),
            PacketKind::Fragment => counts.fragments = next(counts.fragments),
            PacketKind::Elsewhere => counts.elsewhere = next(counts.elsewhere),
            PacketKind::Passing => counts.passing = next(counts.passing),
            PacketKind::Cut => counts.cut = next(counts.cut),
            PacketKind::Shared => counts.shared = next(counts.shared),
            PacketKind::Sent => counts.sent = next(counts.sent),
            PacketKind::SentAndHeard => {
                counts.sent = next(counts.sent);
                counts.echoes = next(counts.echoes);
            }
            PacketKind::Received => counts.received = next(counts.received),
        }
        counts
    }
}
