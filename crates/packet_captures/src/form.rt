//! How the bytes of a capture are to be read.

use crate::byte_order::ByteOrder;
use crate::pcap::PcapHead;

/// Form of the bytes that follow in a capture.
#[derive(Clone, Copy, Debug, PartialEq, Eq)]
pub enum Form {
    /// A file begins, of either format.
    Start,
    /// Records of pcap.
    Pcap(PcapHead),
    /// Blocks of pcapng, in a section of this byte order.
    Section(ByteOrder),
}
