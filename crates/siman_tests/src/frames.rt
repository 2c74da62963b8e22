//! What frames carry, link by link and header by header, in literal bytes.

mod headers;

use packet_captures::*;
use std::alloc::Global;
use std::process::Abort;

/// A frame that tcpdump captured on an Ethernet: a Create Entity of station 1:1 on 10.77.0.1, to the
/// broadcast address of its network, 10.77.0.255, from and to port 3000.
const CAPTURED: [u8; 70] = [
    0xff, 0xff, 0xff, 0xff, 0xff, 0xff, 0x56, 0x33, 0x95, 0x96, 0x6c, 0xd5, 0x08, 0x00, 0x45, 0x00,
    0x00, 0x38, 0xa7, 0xfe, 0x40, 0x00, 0x40, 0x11, 0x7d, 0x1d, 0x0a, 0x4d, 0x00, 0x01, 0x0a, 0x4d,
    0x00, 0xff, 0x0b, 0xb8, 0x0b, 0xb8, 0x00, 0x24, 0x15, 0xcf, 0x07, 0x01, 0x0b, 0x05, 0x00, 0x00,
    0x00, 0x02, 0x00, 0x1c, 0x00, 0x00, 0x00, 0x01, 0x00, 0x01, 0x00, 0x00, 0x00, 0x02, 0x00, 0x03,
    0x00, 0x07, 0x00, 0x00, 0x00, 0x01,
];

/// An IPv4 packet from 10.0.0.3 to 10.0.0.4 with the data 1, 2, 3 from port 4000 to port 3000.
const PACKET: [u8; 31] = [
    0x45, 0, 0, 31, 0x12, 0x34, 0, 0, 64, 17, 0, 0, 10, 0, 0, 3, 10, 0, 0, 4, 0x0F, 0xA0, 0x0B,
    0xB8, 0, 11, 0, 0, 1, 2, 3,
];

/// The same datagram in an IPv6 packet from fe80::3 to ff02::1.
const PACKET_6: [u8; 51] = [
    0x60, 0, 0, 0, 0, 11, 17, 64, 0xFE, 0x80, 0, 0, 0, 0, 0, 0, 0, 0, 0, 0, 0, 0, 0, 3, 0xFF, 2, 0,
    0, 0, 0, 0, 0, 0, 0, 0, 0, 0, 0, 0, 1, 0x0F, 0xA0, 0x0B, 0xB8, 0, 11, 0, 0, 1, 2, 3,
];

/// The header of an Ethernet frame with an IPv4 packet.
const ETHERNET: [u8; 14] = [2, 0, 0, 0, 0, 4, 2, 0, 0, 0, 0, 3, 0x08, 0x00];

/// What a frame carries, in words.
fn kind_of(carried: Carried<'_>) -> &'static str {
    match carried {
        Carried::Other => "other",
        Carried::Unsettled(None) => "unsettled",
        Carried::Unsettled(Some(_)) => "unsettled between addresses",
        Carried::Datagram(datagram) if datagram.is_whole() => "datagram",
        Carried::Datagram(_) => "cut datagram",
        Carried::Fragment(fragment) if fragment.is_whole() => "fragment",
        Carried::Fragment(_) => "cut fragment",
    }
}

/// Whether the link says that a frame is for all; `false` also where it has no datagram.
fn is_to_group(carried: Carried<'_>) -> bool {
    match carried {
        Carried::Datagram(datagram) => datagram.addresses.to_group,
        _ => false,
    }
}

/// Bytes of two parts, one after the other.
fn joined(rt: &impl Abort, alloc: Global, front: &[u8], back: &[u8]) -> Vec<u8> {
    let mut bytes = Vec::new(alloc);
    bytes.extend_from_slice(front).expect(rt, "there is memory");
    bytes.extend_from_slice(back).expect(rt, "there is memory");
    bytes
}

/// What a frame of a link type carries that had so many bytes.
fn carried_of<'a>(rt: &impl Abort, code: u16, original: usize, frame: &'a [u8]) -> Carried<'a> {
    let link = Link::of(code, true).expect(rt, "the link type is read");
    let original = u32::try_from(original).expect(rt, "the frame is small");
    contents(link, original, frame)
}

/// The packet with another byte at a place.
fn edited(rt: &impl Abort, alloc: Global, packet: &[u8], place: usize, byte: u8) -> Vec<u8> {
    let mut edited = Vec::from_slice(alloc, packet).expect(rt, "there is memory");
    *edited
        .get_mut(place)
        .expect(rt, "the place is in the packet") = byte;
    edited
}

#[test]
fn a_captured_frame_carries_a_datagram(rt: HostRuntime) {
    let carried = contents(Link::Ethernet, 70, &CAPTURED);
    let Carried::Datagram(datagram) = carried else {
        panic!(rt; "no datagram");
    };
    assert!(rt; datagram.addresses.source == Host::V4(0x0A4D_0001));
    assert!(rt; datagram.addresses.target == Host::V4(0x0A4D_00FF));
    assert!(rt; datagram.addresses.to_group && datagram.addresses.are_for_all());
    assert!(rt; datagram.source_port == Some(3000) && datagram.target_port == Some(3000));
    assert!(rt; datagram.size == Some(28) && datagram.is_whole());
    assert!(rt; datagram.bytes == &CAPTURED[42..]);
}

#[test]
fn an_ipv6_packet_carries_the_datagram(rt: HostRuntime) {
    let Carried::Datagram(datagram) = contents(Link::Raw6, 51, &PACKET_6) else {
        panic!(rt; "no datagram");
    };
    let source = Host::V6 {
        upper: 0xFE80_0000_0000_0000,
        lower: 3,
    };
    let target = Host::V6 {
        upper: 0xFF02_0000_0000_0000,
        lower: 1,
    };
    assert!(rt; datagram.addresses.source == source && datagram.addresses.target == target);
    assert!(rt; !datagram.addresses.to_group && datagram.addresses.are_for_all());
    assert!(rt; datagram.source_port == Some(4000) && datagram.target_port == Some(3000));
    assert!(rt; datagram.bytes == [1, 2, 3].as_slice());
}

#[test]
fn each_link_leads_to_the_packet(rt: HostRuntime) {
    let rows: [(u16, &[u8], &[u8], bool); 17] = [
        (1, &ETHERNET, &PACKET, false),
        (
            1,
            &[3, 0, 0, 0, 0, 4, 2, 0, 0, 0, 0, 3, 0x08, 0],
            &PACKET,
            true,
        ),
        (
            1,
            &[2, 0, 0, 0, 0, 4, 2, 0, 0, 0, 0, 3, 0x86, 0xDD],
            &PACKET_6,
            false,
        ),
        (
            1,
            &[2, 0, 0, 0, 0, 4, 2, 0, 0, 0, 0, 3, 0x81, 0, 0, 5, 0x08, 0],
            &PACKET,
            false,
        ),
        (
            1,
            &[
                2, 0, 0, 0, 0, 4, 2, 0, 0, 0, 0, 3, 0x88, 0xA8, 0, 5, 0x91, 0, 0, 6, 0x81, 0, 0xE0,
                7, 0x08, 0,
            ],
            &PACKET,
            false,
        ),
        (0, &[2, 0, 0, 0], &PACKET, false),
        (0, &[24, 0, 0, 0], &PACKET_6, false),
        (108, &[0, 0, 0, 2], &PACKET, false),
        (108, &[0, 0, 0, 30], &PACKET_6, false),
        (101, &[], &PACKET, false),
        (101, &[], &PACKET_6, false),
        (228, &[], &PACKET, false),
        (229, &[], &PACKET_6, false),
        (
            113,
            &[0, 4, 0, 1, 0, 6, 2, 0, 0, 0, 0, 3, 0, 0, 0x08, 0],
            &PACKET,
            false,
        ),
        (
            113,
            &[
                0, 2, 0, 1, 0, 6, 2, 0, 0, 0, 0, 3, 0, 0, 0x81, 0, 0, 5, 0x08, 0,
            ],
            &PACKET,
            true,
        ),
        (
            276,
            &[
                0x08, 0, 0, 0, 0, 0, 0, 2, 0, 1, 1, 6, 2, 0, 0, 0, 0, 3, 0, 0,
            ],
            &PACKET,
            true,
        ),
        (
            276,
            &[
                0x86, 0xDD, 0, 0, 0, 0, 0, 2, 0, 1, 3, 6, 2, 0, 0, 0, 0, 3, 0, 0,
            ],
            &PACKET_6,
            false,
        ),
    ];
    for (code, header, packet, to_group) in rows {
        let frame = joined(&rt, rt.alloc(), header, packet);
        let carried = carried_of(&rt, code, frame.len(), &frame);
        assert_eq!(rt; kind_of(carried), "datagram");
        assert_eq!(rt; is_to_group(carried), to_group);
    }
}

#[test]
fn other_links_and_protocols_carry_nothing(rt: HostRuntime) {
    for code in [2, 105, 147, 227, 230, 277] {
        assert!(rt; Link::of(code, true).is_none() && Link::of(code, false).is_none());
    }
    let rows: [(u16, &[u8], &[u8]); 9] = [
        // ARP, a length in place of an EtherType, and each IP under the other's.
        (
            1,
            &[2, 0, 0, 0, 0, 4, 2, 0, 0, 0, 0, 3, 0x08, 0x06],
            &PACKET,
        ),
        (1, &[2, 0, 0, 0, 0, 4, 2, 0, 0, 0, 0, 3, 0, 31], &PACKET),
        (
            1,
            &[2, 0, 0, 0, 0, 4, 2, 0, 0, 0, 0, 3, 0x86, 0xDD],
            &PACKET,
        ),
        (228, &[], &PACKET_6),
        (229, &[], &PACKET),
        // A header and a tag that end too early in a frame that was not cut.
        (1, &[2, 0, 0, 0, 0, 4, 2, 0, 0, 0, 0, 3, 0x08], &[]),
        (
            1,
            &[2, 0, 0, 0, 0, 4, 2, 0, 0, 0, 0, 3, 0x81, 0, 0, 5, 0x08],
            &[],
        ),
        // AppleTalk, and a family in the other byte order.
        (0, &[16, 0, 0, 0], &PACKET),
        (0, &[0, 0, 0, 2], &PACKET),
    ];
    for (code, header, packet) in rows {
        let frame = joined(&rt, rt.alloc(), header, packet);
        assert_eq!(rt;
            kind_of(carried_of(&rt, code, frame.len(), &frame)),
            "other"
        );
    }
}

#[test]
fn a_byte_of_an_ipv4_packet_decides(rt: HostRuntime) {
    let rows = [
        // Version 5; headers of 16 bytes, and of 24, which leave UDP 7 bytes.
        (0, 0x55, "other"),
        (0, 0x44, "other"),
        (0, 0x46, "other"),
        // The packet is shorter than its header, longer than its frame, too short for UDP's length.
        (3, 19, "other"),
        (3, 32, "other"),
        (3, 30, "other"),
        // Don't fragment, the bit that is not used, more fragments, an offset of 8, TCP.
        (6, 0x40, "datagram"),
        (6, 0x80, "datagram"),
        (6, 0x20, "fragment"),
        (7, 1, "fragment"),
        (9, 6, "other"),
        // UDP's length without room for its header, beyond the packet, and before its end.
        (25, 7, "other"),
        (25, 12, "other"),
        (25, 10, "datagram"),
    ];
    for (place, byte, kind) in rows {
        let packet = edited(&rt, rt.alloc(), &PACKET, place, byte);
        assert_eq!(rt;
            kind_of(carried_of(&rt, 228, 31, &packet)),
            kind,
            "at {place}"
        );
    }
}

#[test]
fn options_and_padding_are_no_part_of_the_datagram(rt: HostRuntime) {
    let options: [u8; 40] = [
        0x46, 0, 0, 35, 0x12, 0x34, 0, 0, 64, 17, 0, 0, 10, 0, 0, 3, 10, 0, 0, 4, 0x94, 4, 0, 0,
        0x0F, 0xA0, 0x0B, 0xB8, 0, 11, 0, 0, 1, 2, 3, 0xFF, 0xFF, 0xFF, 0xFF, 0xFF,
    ];
    let Carried::Datagram(datagram) = contents(Link::Raw, 40, &options) else {
        panic!(rt; "no datagram");
    };
    assert!(rt; datagram.target_port == Some(3000) && datagram.bytes == [1, 2, 3].as_slice());
}

#[test]
fn a_cut_frame_says_what_is_there(rt: HostRuntime) {
    // Bytes that were kept, then target port, size and bytes of data that are there.
    let rows = [
        (34, "cut datagram", None, None, 0),
        (37, "cut datagram", None, None, 0),
        (38, "cut datagram", Some(3000), None, 0),
        (40, "cut datagram", Some(3000), Some(28), 0),
        (46, "cut datagram", Some(3000), Some(28), 4),
        (69, "cut datagram", Some(3000), Some(28), 27),
        (70, "datagram", Some(3000), Some(28), 28),
    ];
    for (kept, kind, port, size, there) in rows {
        let carried = contents(Link::Ethernet, 70, &CAPTURED[..kept]);
        assert_eq!(rt; kind_of(carried), kind);
        let Carried::Datagram(datagram) = carried else {
            panic!(rt; "no datagram");
        };
        assert!(rt; datagram.target_port == port && datagram.size == size);
        assert!(rt; datagram.bytes.len() == there);
        assert!(rt; datagram.addresses.source == Host::V4(0x0A4D_0001));
    }
    for kept in [0, 13, 14, 23, 33] {
        let carried = contents(Link::Ethernet, 70, &CAPTURED[..kept]);
        assert_eq!(rt; kind_of(carried), "unsettled");
    }
    // What is there is enough: the protocol is TCP, a total length is below the header's.
    let tcp = edited(&rt, rt.alloc(), &CAPTURED, 23, 6);
    assert_eq!(rt;
        kind_of(carried_of(&rt, 1, 70, tcp.get(..24).expect(&rt, "so long"))),
        "other"
    );
    let short = edited(&rt, rt.alloc(), &CAPTURED, 17, 19);
    assert_eq!(rt;
        kind_of(carried_of(&rt, 1, 70, short.get(..18).expect(&rt, "so long"))),
        "other"
    );
}
