//! IPv6 packets with extension headers, whole and cut, in literal bytes.

use super::kind_of;
use packet_captures::*;

/// An IPv6 packet from fe80::3 to ff02::1 with 43 bytes behind its header: hop-by-hop options of 8
/// bytes, a routing header of 16, destination options of 8, and a UDP datagram from port 4000 to
/// port 3000 with the data 1, 2, 3.
const CHAIN: [u8; 83] = [
    0x60, 0, 0, 0, 0, 43, 0, 64, 0xFE, 0x80, 0, 0, 0, 0, 0, 0, 0, 0, 0, 0, 0, 0, 0, 3, 0xFF, 2, 0,
    0, 0, 0, 0, 0, 0, 0, 0, 0, 0, 0, 0, 1, 43, 0, 1, 4, 0, 0, 0, 0, 60, 1, 0, 0, 0, 0, 0, 0, 0, 0,
    0, 0, 0, 0, 0, 0, 17, 0, 1, 4, 0, 0, 0, 0, 0x0F, 0xA0, 0x0B, 0xB8, 0, 11, 0, 0, 1, 2, 3,
];

/// An IPv6 packet between the same hosts with a fragment, identification 0x01020304, offset 16, more
/// to come, of 8 bytes.
const PART: [u8; 56] = [
    0x60, 0, 0, 0, 0, 16, 44, 64, 0xFE, 0x80, 0, 0, 0, 0, 0, 0, 0, 0, 0, 0, 0, 0, 0, 3, 0xFF, 2, 0,
    0, 0, 0, 0, 0, 0, 0, 0, 0, 0, 0, 0, 1, 17, 0, 0, 0x11, 1, 2, 3, 4, 21, 22, 23, 24, 25, 26, 27,
    28,
];

#[test]
fn extension_headers_are_passed_over(rt: HostRuntime) {
    let Carried::Datagram(datagram) = contents(Link::Raw6, 83, &CHAIN) else {
        panic!(rt; "no datagram");
    };
    assert!(rt; datagram.source_port == Some(4000) && datagram.target_port == Some(3000));
    assert!(rt; datagram.bytes == [1, 2, 3].as_slice() && datagram.is_whole());
}

#[test]
fn a_byte_of_an_ipv6_packet_decides(rt: HostRuntime) {
    let rows = [
        // Version 4; a packet longer than its frame, and one that ends within UDP's length.
        (0, 0x40, "other"),
        (5, 44, "other"),
        (5, 42, "other"),
        // TCP behind the header, and behind an extension header; no next header; ICMPv6.
        (6, 6, "other"),
        (64, 6, "other"),
        (64, 59, "other"),
        (48, 58, "other"),
        // A routing header that is longer than what is left, and UDP in the middle of it.
        (49, 4, "other"),
        (40, 17, "other"),
        // Another order of the headers.
        (40, 60, "datagram"),
        (48, 0, "datagram"),
        // UDP's length below 8.
        (77, 7, "other"),
    ];
    for (place, byte, kind) in rows {
        let mut packet = Vec::from_slice(rt.alloc(), &CHAIN).expect(&rt, "there is memory");
        *packet
            .get_mut(place)
            .expect(&rt, "the place is in the packet") = byte;
        assert_eq!(rt;
            kind_of(contents(Link::Raw6, 83, &packet)),
            kind,
            "at {place}"
        );
    }
}

#[test]
fn a_fragment_header_is_read(rt: HostRuntime) {
    let Carried::Fragment(fragment) = contents(Link::Raw6, 56, &PART) else {
        panic!(rt; "no fragment");
    };
    assert!(rt; fragment.identification == 0x0102_0304 && fragment.offset == 16 && fragment.more);
    assert!(rt;
        fragment.bytes == [21, 22, 23, 24, 25, 26, 27, 28].as_slice() && fragment.is_whole()
    );
    // What is behind it is no UDP: destination options are not read there.
    let mut packet = PART;
    packet[40] = 60;
    assert_eq!(rt; kind_of(contents(Link::Raw6, 56, &packet)), "other");
}

#[test]
fn a_cut_ipv6_packet_says_what_is_there(rt: HostRuntime) {
    let rows = [
        (0, "unsettled"),
        (39, "unsettled"),
        (40, "unsettled between addresses"),
        (41, "unsettled between addresses"),
        (65, "unsettled between addresses"),
        (66, "cut datagram"),
        (82, "cut datagram"),
        (83, "datagram"),
    ];
    for (kept, kind) in rows {
        assert_eq!(rt;
            kind_of(contents(Link::Raw6, 83, &CHAIN[..kept])),
            kind,
            "with {kept}"
        );
    }
    let rows = [
        (47, "unsettled between addresses"),
        (48, "cut fragment"),
        (55, "cut fragment"),
        (56, "fragment"),
    ];
    for (kept, kind) in rows {
        assert_eq!(rt;
            kind_of(contents(Link::Raw6, 56, &PART[..kept])),
            kind,
            "with {kept}"
        );
    }
    // The next header is TCP, as the first seven bytes and the first byte of an extension header say.
    let mut packet = CHAIN;
    packet[6] = 6;
    assert_eq!(rt; kind_of(contents(Link::Raw6, 83, &packet[..7])), "other");
    let mut packet = CHAIN;
    packet[40] = 6;
    assert_eq!(rt; kind_of(contents(Link::Raw6, 83, &packet[..41])), "other");
}

#[test]
fn addresses_for_all_are_known(rt: HostRuntime) {
    let upper = 0xFF02_0000_0000_0000;
    for host in [
        Host::V4(0xE000_0001),
        Host::V4(0xEFFF_FFFF),
        Host::V4(0xFFFF_FFFF),
        Host::V6 { upper, lower: 1 },
    ] {
        assert!(rt; host.is_for_all());
    }
    let mapped = 0xFFFF_0A00_0003;
    for host in [
        Host::V4(0xDFFF_FFFF),
        Host::V4(0xF000_0000),
        Host::V4(0x0A4D_00FF),
        Host::V6 {
            upper: 0xFE80_0000_0000_0000,
            lower: 1,
        },
        Host::V6 {
            upper: 0,
            lower: mapped,
        },
    ] {
        assert!(rt; !host.is_for_all());
    }
    let given = Host::V6 {
        upper: 0,
        lower: mapped,
    };
    assert!(rt; given.unmapped() == Host::V4(0x0A00_0003));
    let kept = Host::V6 {
        upper,
        lower: mapped,
    };
    assert!(rt; kept.unmapped() == kept);
}
