//! Packet captures: packets of both formats, in both byte orders, and each fault with its place.

use packet_captures::ByteOrder::{Big, Little};
use packet_captures::Direction::{Inbound, Outbound, Unknown};
use packet_captures::{ByteOrder, Capture, CaptureFault, Direction, FormatFault, PacketHead};
use siman_trials::{Calls, WELL, read_from};
use std::alloc::Global;
use std::io::{ErrorKind, Read};

/// A packet's head, with its bytes.
type Packet<'a> = (PacketHead, &'a [u8]);

/// A file of pcap with one packet, little-endian, in microseconds.
const LITTLE_MICRO: [u8; 45] = [
    0xD4, 0xC3, 0xB2, 0xA1, 0x02, 0x00, 0x04, 0x00, 0x00, 0x00, 0x00, 0x00, 0x00, 0x00, 0x00, 0x00,
    0xFF, 0xFF, 0x00, 0x00, 0x01, 0x00, 0x00, 0x00, 0x00, 0xF1, 0x53, 0x65, 0x40, 0xE2, 0x01, 0x00,
    0x05, 0x00, 0x00, 0x00, 0x05, 0x00, 0x00, 0x00, 0xDE, 0xAD, 0xBE, 0xEF, 0x01,
];

/// The same file, big-endian.
const BIG_MICRO: [u8; 45] = [
    0xA1, 0xB2, 0xC3, 0xD4, 0x00, 0x02, 0x00, 0x04, 0x00, 0x00, 0x00, 0x00, 0x00, 0x00, 0x00, 0x00,
    0x00, 0x00, 0xFF, 0xFF, 0x00, 0x00, 0x00, 0x01, 0x65, 0x53, 0xF1, 0x00, 0x00, 0x01, 0xE2, 0x40,
    0x00, 0x00, 0x00, 0x05, 0x00, 0x00, 0x00, 0x05, 0xDE, 0xAD, 0xBE, 0xEF, 0x01,
];

/// The file, little-endian, in nanoseconds.
const LITTLE_NANO: [u8; 45] = [
    0x4D, 0x3C, 0xB2, 0xA1, 0x02, 0x00, 0x04, 0x00, 0x00, 0x00, 0x00, 0x00, 0x00, 0x00, 0x00, 0x00,
    0xFF, 0xFF, 0x00, 0x00, 0x01, 0x00, 0x00, 0x00, 0x00, 0xF1, 0x53, 0x65, 0xE7, 0xCD, 0x5B, 0x07,
    0x05, 0x00, 0x00, 0x00, 0x05, 0x00, 0x00, 0x00, 0xDE, 0xAD, 0xBE, 0xEF, 0x01,
];

/// The file, big-endian, in nanoseconds, with bits above the link type, of a packet of 1,500 bytes.
const BIG_NANO: [u8; 45] = [
    0xA1, 0xB2, 0x3C, 0x4D, 0x00, 0x02, 0x00, 0x04, 0x00, 0x00, 0x00, 0x00, 0x00, 0x00, 0x00, 0x00,
    0x00, 0x00, 0xFF, 0xFF, 0xF4, 0x00, 0x00, 0x71, 0x65, 0x53, 0xF1, 0x00, 0x07, 0x5B, 0xCD, 0xE7,
    0x00, 0x00, 0x00, 0x05, 0x00, 0x00, 0x05, 0xDC, 0xDE, 0xAD, 0xBE, 0xEF, 0x01,
];

/// A file of pcapng: a little-endian section with the interfaces `eth0` (at 28, in nanoseconds, of at
/// most 3 bytes) and `lo` (at 68), an enhanced packet (at 96), a block of an unknown kind (at 144), a
/// simple packet (at 164), an old packet (at 184) and statistics (from 228 on); and a big-endian one
/// (at 336) with an interface (at 364, 1,024 ticks a second, a thousand million seconds back), an
/// enhanced packet (at 404), a simple packet (at 436) and statistics (at 456).
const BLOCKS: [u8; 492] = [
    0x0A, 0x0D, 0x0D, 0x0A, 0x1C, 0x00, 0x00, 0x00, 0x4D, 0x3C, 0x2B, 0x1A, 0x01, 0x00, 0x00, 0x00,
    0xFF, 0xFF, 0xFF, 0xFF, 0xFF, 0xFF, 0xFF, 0xFF, 0x1C, 0x00, 0x00, 0x00, 0x01, 0x00, 0x00, 0x00,
    0x28, 0x00, 0x00, 0x00, 0x01, 0x00, 0x00, 0x00, 0x03, 0x00, 0x00, 0x00, 0x02, 0x00, 0x04, 0x00,
    0x65, 0x74, 0x68, 0x30, 0x09, 0x00, 0x01, 0x00, 0x09, 0x00, 0x00, 0x00, 0x00, 0x00, 0x00, 0x00,
    0x28, 0x00, 0x00, 0x00, 0x01, 0x00, 0x00, 0x00, 0x1C, 0x00, 0x00, 0x00, 0x65, 0x00, 0x00, 0x00,
    0x00, 0x00, 0x00, 0x00, 0x02, 0x00, 0x02, 0x00, 0x6C, 0x6F, 0x00, 0x00, 0x1C, 0x00, 0x00, 0x00,
    0x06, 0x00, 0x00, 0x00, 0x30, 0x00, 0x00, 0x00, 0x00, 0x00, 0x00, 0x00, 0xFE, 0x9C, 0x97, 0x17,
    0xE7, 0xCD, 0x85, 0x3D, 0x03, 0x00, 0x00, 0x00, 0x3C, 0x00, 0x00, 0x00, 0x01, 0x02, 0x03, 0x00,
    0x02, 0x00, 0x04, 0x00, 0x02, 0x00, 0x00, 0x00, 0x00, 0x00, 0x00, 0x00, 0x30, 0x00, 0x00, 0x00,
    0xAD, 0x0B, 0x00, 0x00, 0x14, 0x00, 0x00, 0x00, 0xFF, 0xFF, 0xFF, 0xFF, 0xFF, 0xFF, 0xFF, 0xFF,
    0x14, 0x00, 0x00, 0x00, 0x03, 0x00, 0x00, 0x00, 0x14, 0x00, 0x00, 0x00, 0x09, 0x00, 0x00, 0x00,
    0x04, 0x05, 0x06, 0x00, 0x14, 0x00, 0x00, 0x00, 0x02, 0x00, 0x00, 0x00, 0x2C, 0x00, 0x00, 0x00,
    0x01, 0x00, 0xFF, 0xFF, 0x24, 0x0A, 0x06, 0x00, 0x41, 0x22, 0x20, 0x18, 0x04, 0x00, 0x00, 0x00,
    0x04, 0x00, 0x00, 0x00, 0x07, 0x08, 0x09, 0x0A, 0x02, 0x00, 0x04, 0x00, 0x01, 0x00, 0x00, 0x00,
    0x2C, 0x00, 0x00, 0x00, 0x05, 0x00, 0x00, 0x00, 0x24, 0x00, 0x00, 0x00, 0x00, 0x00, 0x00, 0x00,
    0x00, 0x00, 0x00, 0x00, 0x00, 0x00, 0x00, 0x00, 0x05, 0x00, 0x08, 0x00, 0x05, 0x00, 0x00, 0x00,
    0x00, 0x00, 0x00, 0x00, 0x24, 0x00, 0x00, 0x00, 0x05, 0x00, 0x00, 0x00, 0x24, 0x00, 0x00, 0x00,
    0x00, 0x00, 0x00, 0x00, 0x00, 0x00, 0x00, 0x00, 0x00, 0x00, 0x00, 0x00, 0x05, 0x00, 0x08, 0x00,
    0x07, 0x00, 0x00, 0x00, 0x00, 0x00, 0x00, 0x00, 0x24, 0x00, 0x00, 0x00, 0x05, 0x00, 0x00, 0x00,
    0x24, 0x00, 0x00, 0x00, 0x01, 0x00, 0x00, 0x00, 0x00, 0x00, 0x00, 0x00, 0x00, 0x00, 0x00, 0x00,
    0x05, 0x00, 0x08, 0x00, 0x02, 0x00, 0x00, 0x00, 0x00, 0x00, 0x00, 0x00, 0x24, 0x00, 0x00, 0x00,
    0x0A, 0x0D, 0x0D, 0x0A, 0x00, 0x00, 0x00, 0x1C, 0x1A, 0x2B, 0x3C, 0x4D, 0x00, 0x01, 0x00, 0x00,
    0xFF, 0xFF, 0xFF, 0xFF, 0xFF, 0xFF, 0xFF, 0xFF, 0x00, 0x00, 0x00, 0x1C, 0x00, 0x00, 0x00, 0x01,
    0x00, 0x00, 0x00, 0x28, 0x01, 0x14, 0x00, 0x00, 0x00, 0x00, 0x00, 0x00, 0x00, 0x09, 0x00, 0x01,
    0x8A, 0x00, 0x00, 0x00, 0x00, 0x0E, 0x00, 0x08, 0xFF, 0xFF, 0xFF, 0xFF, 0xC4, 0x65, 0x36, 0x00,
    0x00, 0x00, 0x00, 0x28, 0x00, 0x00, 0x00, 0x06, 0x00, 0x00, 0x00, 0x20, 0x00, 0x00, 0x00, 0x00,
    0x00, 0x00, 0x01, 0x95, 0x4F, 0xC4, 0x02, 0x00, 0x00, 0x00, 0x00, 0x00, 0x00, 0x00, 0x00, 0x00,
    0x00, 0x00, 0x00, 0x20, 0x00, 0x00, 0x00, 0x03, 0x00, 0x00, 0x00, 0x14, 0x00, 0x00, 0x00, 0x02,
    0x0B, 0x0C, 0x00, 0x00, 0x00, 0x00, 0x00, 0x14, 0x00, 0x00, 0x00, 0x05, 0x00, 0x00, 0x00, 0x24,
    0x00, 0x00, 0x00, 0x00, 0x00, 0x00, 0x00, 0x00, 0x00, 0x00, 0x00, 0x00, 0x00, 0x05, 0x00, 0x08,
    0x00, 0x00, 0x00, 0x00, 0x00, 0x00, 0x00, 0x01, 0x00, 0x00, 0x00, 0x24,
];

/// Head of a packet.
fn head(
    order: ByteOrder,
    at: u64,
    link: u16,
    stamp: u64,
    direction: Direction,
    original: u32,
) -> PacketHead {
    PacketHead {
        at,
        link,
        order,
        wanted: true,
        stamp,
        direction,
        original,
    }
}

/// Whether the next packets of a capture are these.
fn has_packets<R: Read>(capture: &mut Capture<'_, R>, packets: &[Packet<'_>]) -> bool {
    for (head, bytes) in packets {
        match capture.next() {
            Ok(Some(found)) if found == *head && capture.packet_bytes() == *bytes => {}
            _ => return false,
        }
    }
    true
}

/// Whether a capture is these packets and then ends whole, by reads of any size and by single bytes.
fn is_read(alloc: Global, file: &[u8], packets: &[Packet<'_>], lost: u64) -> bool {
    for most in [1, 7, usize::MAX] {
        let calls = Calls { most, ..WELL };
        let Ok(mut capture) = Capture::new(alloc, read_from(file, calls), None) else {
            return false;
        };
        let found = has_packets(&mut capture, packets) && matches!(capture.next(), Ok(None));
        if !found || capture.lost() != lost {
            return false;
        }
    }
    true
}

#[test]
fn pcap_is_read_in_each_form(rt: HostRuntime) {
    let bytes: [u8; 5] = [0xDE, 0xAD, 0xBE, 0xEF, 0x01];
    for (file, order) in [
        (LITTLE_MICRO, Little),
        (BIG_MICRO, Big),
        (LITTLE_NANO, Little),
    ] {
        let packet = head(order, 24, 1, 1_700_000_000_123_456, Unknown, 5);
        assert!(rt; is_read(rt.alloc(), &file, &[(packet, &bytes)], 0));
    }
    let cut = head(Big, 24, 113, 1_700_000_000_123_456, Unknown, 1500);
    assert!(rt; is_read(rt.alloc(), &BIG_NANO, &[(cut, &bytes)], 0));
    assert!(rt; is_read(rt.alloc(), &BIG_NANO[..24], &[], 0));
}

#[test]
fn pcapng_is_read_block_by_block(rt: HostRuntime) {
    let packets: [Packet<'_>; 5] = [
        (
            head(Little, 96, 1, 1_700_000_000_123_456, Outbound, 60),
            &[1, 2, 3],
        ),
        (
            head(Little, 164, 1, 1_700_000_000_123_456, Unknown, 9),
            &[4, 5, 6],
        ),
        (
            head(Little, 184, 101, 1_700_000_000_123_457, Inbound, 4),
            &[7, 8, 9, 10],
        ),
        (head(Big, 404, 276, 700_000_000_500_000, Unknown, 0), &[]),
        (
            head(Big, 436, 276, 700_000_000_500_000, Unknown, 2),
            &[11, 12],
        ),
    ];
    assert!(rt; is_read(rt.alloc(), &BLOCKS, &packets, 10));
    assert!(rt; is_read(rt.alloc(), &BLOCKS[..336], &packets[..3], 9));
}

/// Which of the packets of a capture are wanted, where this name is asked for.
fn wanted(alloc: Global, file: &[u8], name: &[u8], wanted: &[bool]) -> bool {
    let Ok(mut capture) = Capture::new(alloc, file, Some(name)) else {
        return false;
    };
    for one in wanted {
        match capture.next() {
            Ok(Some(found)) if found.wanted == *one => {}
            _ => return false,
        }
    }
    matches!(capture.next(), Ok(None))
}

#[test]
fn packets_are_wanted_by_the_name_of_their_interface(rt: HostRuntime) {
    assert!(rt;
        wanted(
            rt.alloc(),
            &BLOCKS,
            b"eth0",
            &[true, true, false, false, false]
        )
    );
    assert!(rt;
        wanted(
            rt.alloc(),
            &BLOCKS,
            b"lo",
            &[false, false, true, false, false]
        )
    );
    assert!(rt;
        wanted(
            rt.alloc(),
            &BLOCKS,
            b"eth",
            &[false, false, false, false, false]
        )
    );
    assert!(rt; wanted(rt.alloc(), &LITTLE_MICRO, b"eth0", &[false]));
}

/// The fault that ends a capture, if one does.
fn fault_of<R: Read + Drop>(alloc: Global, reader: R) -> Option<CaptureFault> {
    let mut capture = Capture::new(alloc, reader, None).ok()?;
    for _ in 0..u64::MAX {
        match capture.next() {
            Ok(Some(_)) => {}
            Ok(None) => return None,
            Err(fault) => return Some(fault),
        }
    }
    None
}

/// Whether a file with a byte changed has this fault, by reads of any size and by single bytes.
fn has_fault(alloc: Global, file: &[u8], at: usize, byte: u8, fault: FormatFault) -> bool {
    let Ok(mut bytes) = Vec::from_slice(alloc, file) else {
        return false;
    };
    if at < bytes.len() {
        bytes[at] = byte;
    }
    for most in [1, usize::MAX] {
        let calls = Calls { most, ..WELL };
        if fault_of(alloc, read_from(&bytes, calls)) != Some(CaptureFault::Format(fault)) {
            return false;
        }
    }
    true
}

#[test]
fn a_fault_of_pcap_has_its_place(rt: HostRuntime) {
    let alloc = rt.alloc();
    assert!(rt; has_fault(alloc, &[], 0, 0, FormatFault::Magic(0)));
    assert!(rt; has_fault(alloc, &LITTLE_MICRO[..3], 0, 0xD4, FormatFault::Magic(0)));
    assert!(rt; has_fault(alloc, &LITTLE_MICRO, 0, 0xD5, FormatFault::Magic(0)));
    assert!(rt; has_fault(alloc, &LITTLE_MICRO, 4, 3, FormatFault::Version(4)));
    assert!(rt; has_fault(alloc, &BIG_NANO, 4, 1, FormatFault::Version(4)));
    for (size, at, head) in [
        (4, 4, true),
        (23, 23, true),
        (25, 25, false),
        (44, 44, false),
    ] {
        let fault = FormatFault::Truncated { at, head };
        assert!(rt; has_fault(alloc, &LITTLE_MICRO[..size], 0, 0xD4, fault));
    }
    // A record that is longer than the file, up to a mebibyte and above.
    let longer = FormatFault::Truncated {
        at: 45,
        head: false,
    };
    assert!(rt; has_fault(alloc, &LITTLE_MICRO, 34, 0x0F, longer));
    assert!(rt; has_fault(alloc, &LITTLE_MICRO, 34, 0x10, FormatFault::Block(32)));
    assert!(rt; has_fault(alloc, &LITTLE_MICRO, 35, 0xFF, FormatFault::Block(32)));
}

#[test]
fn a_fault_of_pcapng_has_its_place(rt: HostRuntime) {
    // The offset of a byte, what it becomes, and the fault of the file.
    let faults: [(usize, u8, FormatFault); 22] = [
        (0, 0x0B, FormatFault::Magic(0)),
        (8, 0x4E, FormatFault::Magic(8)),
        (344, 0x1B, FormatFault::Magic(344)),
        (12, 2, FormatFault::Version(12)),
        (349, 2, FormatFault::Version(348)),
        (4, 8, FormatFault::Block(4)),
        (4, 0x1D, FormatFault::Block(4)),
        (24, 0x20, FormatFault::Block(24)),
        (160, 0x18, FormatFault::Block(160)),
        (164, 6, FormatFault::Block(168)),
        (116, 0x11, FormatFault::Block(116)),
        (204, 0xFF, FormatFault::Block(204)),
        (443, 0xFF, FormatFault::Block(440)),
        (444, 1, FormatFault::Block(444)),
        (104, 2, FormatFault::Interface(104)),
        (192, 2, FormatFault::Interface(192)),
        (367, 9, FormatFault::Interface(412)),
        (418, 0, FormatFault::Time(416)),
        (416, 0xFF, FormatFault::Time(416)),
        // A length of almost 4 GiB, one of a mebibyte and more, and one of less, of each of which the
        // rest of the file is there.
        (103, 0xFF, FormatFault::Block(100)),
        (102, 0x10, FormatFault::Block(100)),
        (
            102,
            0x0F,
            FormatFault::Truncated {
                at: 492,
                head: false,
            },
        ),
    ];
    for (at, byte, fault) in faults {
        assert!(rt; has_fault(rt.alloc(), &BLOCKS, at, byte, fault), "at {at}");
    }
}

#[test]
fn a_torn_file_of_pcapng_has_its_length(rt: HostRuntime) {
    let ends = [
        (11, true),
        (20, true),
        (100, false),
        (150, false),
        (163, false),
        (340, false),
    ];
    for (size, head) in ends {
        let fault = FormatFault::Truncated {
            at: size as u64,
            head,
        };
        assert!(rt;
            has_fault(rt.alloc(), &BLOCKS[..size], 0, 0x0A, fault),
            "of {size}"
        );
    }
}

#[test]
fn what_was_lost_is_told_up_to_a_fault(rt: HostRuntime) {
    // The file ends in the last statistics.
    let mut capture = Capture::new(rt.alloc(), &BLOCKS[..480], None).expect(&rt, "memory");
    for _ in 0..5 {
        assert!(rt; matches!(capture.next(), Ok(Some(_))));
    }
    let torn = FormatFault::Truncated {
        at: 480,
        head: false,
    };
    assert!(rt; capture.next() == Err(CaptureFault::Format(torn)));
    assert!(rt; capture.lost() == 9);
}

#[test]
fn a_simple_packet_needs_an_interface(rt: HostRuntime) {
    // A section header, and a simple packet.
    let file: [u8; 48] = [
        0x0A, 0x0D, 0x0D, 0x0A, 0x1C, 0, 0, 0, 0x4D, 0x3C, 0x2B, 0x1A, 1, 0, 0, 0, 0xFF, 0xFF,
        0xFF, 0xFF, 0xFF, 0xFF, 0xFF, 0xFF, 0x1C, 0, 0, 0, 3, 0, 0, 0, 0x14, 0, 0, 0, 1, 0, 0, 0,
        9, 0, 0, 0, 0x14, 0, 0, 0,
    ];
    assert!(rt; has_fault(rt.alloc(), &file, 0, 0x0A, FormatFault::Interface(36)));
}

#[test]
fn a_failed_read_ends_the_reading(rt: HostRuntime) {
    for (fails_at, kind, fault) in [
        (1, ErrorKind::Other, Some(CaptureFault::Read)),
        (100, ErrorKind::Other, Some(CaptureFault::Read)),
        (100, ErrorKind::Interrupted, None),
    ] {
        let calls = Calls {
            most: 3,
            fails_at,
            kind: Some(kind),
        };
        assert!(rt;
            fault_of(rt.alloc(), read_from(&BLOCKS, calls)) == fault,
            "at {fails_at}"
        );
    }
}
