//! The rule by which packets of a capture become entries of a station's log.

use dis_records::SiteApplication;
use packet_captures::Host;

/// Which station the log is of, where its host is, and how packets are read that are not plainly its
/// own (profile).
#[derive(Clone, Copy)]
pub struct PacketRule {
    /// Host of the station.
    pub host: Host,
    /// UDP port to which datagrams of the exercise go.
    pub port: u16,
    /// Exercise of the recording.
    pub exercise: u8,
    /// Site and application of the station.
    pub address: SiteApplication,
    /// Whether packets that the capture cut, and the torn end of a file, are counted, and are no fault.
    pub keeps_cut: bool,
    /// Whether other stations send from this host, too.
    pub is_shared: bool,
    /// Whether the station hears what its own host sends for all.
    pub hears_itself: bool,
}
