//! How much of a capture is held at once.

/// Largest size in bytes of a record of pcap, or of a block of pcapng that is looked into. No packet of
/// a network is as long.
pub const LARGEST_BLOCK: usize = 1_048_576;
