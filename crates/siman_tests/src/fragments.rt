//! Fragments that are put together, or not.

use packet_captures::*;
use std::alloc::{AllocError, Global};
use std::process::Abort;

/// A UDP datagram from port 4000 to port 3000 with 19 bytes of data.
const WHOLE: [u8; 27] = [
    0x0F, 0xA0, 0x0B, 0xB8, 0, 27, 0, 0, 1, 2, 3, 4, 5, 6, 7, 8, 9, 10, 11, 12, 13, 14, 15, 16, 17,
    18, 19,
];

/// From 10.0.0.3 to 10.0.0.4.
const ADDRESSES: Addresses = Addresses {
    source: Host::V4(0x0A00_0003),
    target: Host::V4(0x0A00_0004),
    to_group: false,
};

/// A part as it comes: where it begins, whether more follow, its number of bytes, and its stamp.
type Coming = (u16, bool, usize, u64);

/// A whole fragment of the datagram with this identification.
fn fragment(identification: u32, offset: u16, more: bool, bytes: &[u8]) -> Fragment<'_> {
    Fragment {
        addresses: ADDRESSES,
        identification,
        offset,
        more,
        size: bytes.len().min(0xFFFF) as u16,
        bytes,
    }
}

/// Takes a part of [`WHOLE`].
fn taken(
    assembly: &mut Assembly,
    alloc: Global,
    identification: u32,
    part: (u16, bool, usize),
) -> Result<Option<Vec<u8>>, AllocError> {
    let (offset, more, size) = part;
    let behind = WHOLE.as_slice().get(usize::from(offset)..).unwrap_or(&[]);
    let bytes = behind.get(..size).unwrap_or(&[]);
    assembly.take(alloc, &fragment(identification, offset, more, bytes), 0)
}

/// Number of bytes that each part of one datagram completes; 0 if none.
fn completed(rt: &impl Abort, alloc: Global, parts: &[Coming]) -> Vec<usize> {
    let zeros = [0; 32];
    let mut assembly = Assembly::new(alloc);
    let mut sizes = Vec::new(alloc);
    for (offset, more, size, stamp) in parts {
        let bytes = zeros.as_slice().get(..*size).expect(rt, "a part is small");
        let part = fragment(7, *offset, *more, bytes);
        let whole = assembly
            .take(alloc, &part, *stamp)
            .expect(rt, "there is memory");
        let size = match whole {
            Some(bytes) => bytes.len(),
            None => 0,
        };
        sizes.push(size).expect(rt, "there is memory");
    }
    sizes
}

#[test]
fn parts_make_the_datagram_in_every_order(rt: HostRuntime) {
    let parts = [(0, true, 8), (8, true, 8), (16, false, 11)];
    for order in [
        [0, 1, 2],
        [0, 2, 1],
        [1, 0, 2],
        [1, 2, 0],
        [2, 0, 1],
        [2, 1, 0],
    ] {
        let mut assembly = Assembly::new(rt.alloc());
        let mut last = None;
        for index in order {
            assert!(rt; last.is_none());
            let part = *parts
                .as_slice()
                .get(index)
                .expect(&rt, "there are three parts");
            last = taken(&mut assembly, rt.alloc(), 7, part).expect(&rt, "there is memory");
        }
        let whole = last.expect(&rt, "the datagram is whole");
        assert!(rt; whole.as_slice() == WHOLE.as_slice());
        let Carried::Datagram(datagram) = datagram_of(ADDRESSES, whole.len(), &whole) else {
            panic!(rt; "no datagram");
        };
        assert!(rt; datagram.target_port == Some(3000) && datagram.is_whole());
        assert!(rt; datagram.bytes == &WHOLE[8..]);
    }
}

#[test]
fn a_part_that_does_not_fit_gives_up_its_datagram(rt: HostRuntime) {
    let rows: [(&[Coming], &[usize]); 13] = [
        // The same part again, and one that overlaps: what was there before is gone.
        (
            &[
                (0, true, 8, 0),
                (0, true, 8, 0),
                (8, false, 8, 0),
                (0, true, 8, 0),
            ],
            &[0, 0, 0, 16],
        ),
        (
            &[(0, true, 16, 0), (8, true, 8, 0), (16, false, 4, 0)],
            &[0, 0, 0],
        ),
        // A length that is no multiple of 8, and none.
        (
            &[
                (0, true, 8, 0),
                (8, true, 7, 0),
                (8, false, 8, 0),
                (0, true, 8, 0),
            ],
            &[0, 0, 0, 16],
        ),
        (
            &[
                (0, true, 8, 0),
                (8, true, 0, 0),
                (8, false, 8, 0),
                (0, true, 8, 0),
            ],
            &[0, 0, 0, 16],
        ),
        // A second last part; parts behind the end, told before or after.
        (
            &[(8, false, 8, 0), (16, false, 8, 0), (0, true, 8, 0)],
            &[0, 0, 0],
        ),
        (
            &[(8, false, 8, 0), (16, true, 8, 0), (0, true, 8, 0)],
            &[0, 0, 0],
        ),
        (
            &[(16, true, 8, 0), (8, false, 8, 0), (0, true, 8, 0)],
            &[0, 0, 0],
        ),
        // Beyond 65,535 by one byte.
        (
            &[
                (0, true, 8, 0),
                (65528, false, 8, 0),
                (8, false, 8, 0),
                (0, true, 8, 0),
            ],
            &[0, 0, 0, 16],
        ),
        // The last part may be empty.
        (&[(0, true, 8, 0), (8, false, 0, 0)], &[0, 8]),
        // A part alone is whole at once.
        (&[(0, false, 5, 0)], &[5]),
        // 30 seconds less a microsecond, and 30 seconds: then it begins a new one.
        (&[(0, true, 8, 5), (8, false, 8, 30_000_004)], &[0, 16]),
        (
            &[
                (0, true, 8, 5),
                (8, false, 8, 30_000_005),
                (0, true, 8, 60_000_004),
            ],
            &[0, 0, 16],
        ),
        // Before the first by the clock.
        (
            &[(0, true, 8, 5), (8, false, 8, 4), (0, true, 8, 5)],
            &[0, 0, 16],
        ),
    ];
    for (parts, sizes) in rows {
        assert!(rt; completed(&rt, rt.alloc(), parts).as_slice() == sizes);
    }
}

#[test]
fn parts_of_other_datagrams_do_not_meet(rt: HostRuntime) {
    let mut assembly = Assembly::new(rt.alloc());
    let first = fragment(7, 0, true, &WHOLE[..8]);
    let last = fragment(7, 8, false, &WHOLE[8..]);
    let other = Addresses {
        source: Host::V4(0x0A00_0005),
        ..ADDRESSES
    };
    let back = Addresses {
        target: Host::V4(0x0A00_0003),
        source: Host::V4(0x0A00_0004),
        to_group: false,
    };
    let strange = [
        fragment(8, 8, false, &WHOLE[8..]),
        Fragment {
            addresses: other,
            ..last
        },
        Fragment {
            addresses: back,
            ..last
        },
        // A fragment that the capture cut changes nothing.
        Fragment {
            bytes: &WHOLE[8..26],
            ..last
        },
    ];
    for part in strange {
        let mut assembly = Assembly::new(rt.alloc());
        assert!(rt;
            assembly
                .take(rt.alloc(), &first, 0)
                .expect(&rt, "memory")
                .is_none()
        );
        assert!(rt;
            assembly
                .take(rt.alloc(), &part, 0)
                .expect(&rt, "memory")
                .is_none()
        );
        assert!(rt;
            assembly
                .take(rt.alloc(), &last, 0)
                .expect(&rt, "memory")
                .is_some()
        );
    }
    // Whether the link says that a part is for all does not matter.
    let to_group = Addresses {
        to_group: true,
        ..ADDRESSES
    };
    let part = Fragment {
        addresses: to_group,
        ..last
    };
    assert!(rt;
        assembly
            .take(rt.alloc(), &first, 0)
            .expect(&rt, "memory")
            .is_none()
    );
    assert!(rt;
        assembly
            .take(rt.alloc(), &part, 0)
            .expect(&rt, "memory")
            .is_some()
    );
}

#[test]
fn the_datagram_that_began_first_makes_room(rt: HostRuntime) {
    let mut assembly = Assembly::new(rt.alloc());
    // Datagram 3 begins last of 64: its first beginning is forgotten after 30 seconds.
    for (identification, stamp) in [(3, 0), (0, 0), (1, 0), (2, 0), (3, 30_000_000)] {
        let part = fragment(identification, 0, true, &WHOLE[..8]);
        let _ = assembly
            .take(rt.alloc(), &part, stamp)
            .expect(&rt, "there is memory");
    }
    for identification in 4..64 {
        let part = fragment(identification, 0, true, &WHOLE[..8]);
        let _ = assembly
            .take(rt.alloc(), &part, 0)
            .expect(&rt, "there is memory");
    }
    // The 65th takes the place of datagram 0.
    let part = fragment(64, 0, true, &WHOLE[..8]);
    let _ = assembly
        .take(rt.alloc(), &part, 0)
        .expect(&rt, "there is memory");
    for (identification, is_whole) in [(1, true), (64, true), (0, false), (2, true), (63, true)] {
        let part = (8, false, 19);
        let whole = taken(&mut assembly, rt.alloc(), identification, part);
        assert!(rt; whole.expect(&rt, "there is memory").is_some() == is_whole);
    }
}

/// Takes the three parts of [`WHOLE`], and answers it.
fn all_taken(
    assembly: &mut Assembly,
    alloc: Global,
    identification: u32,
) -> Result<Option<Vec<u8>>, AllocError> {
    let _ = taken(assembly, alloc, identification, (16, false, 11))?;
    let _ = taken(assembly, alloc, identification, (0, true, 8))?;
    taken(assembly, alloc, identification, (8, true, 8))
}

/// Passes also if one allocation, whichever it is, is refused: then the datagram begins anew, and the
/// one that is held beside it is as before.
#[test]
fn after_a_refusal_all_can_be_sent_again(rt: HostRuntime) {
    let alloc = rt.alloc();
    let mut assembly = Assembly::new(alloc);
    let mut is_begun = taken(&mut assembly, alloc, 1, (0, true, 8)).is_ok();
    if !is_begun {
        is_begun = taken(&mut assembly, alloc, 1, (0, true, 8)).is_ok();
    }
    assert!(rt; is_begun);
    let mut whole = all_taken(&mut assembly, alloc, 2);
    if whole.is_err() {
        whole = all_taken(&mut assembly, alloc, 2);
    }
    let bytes = whole.ok().flatten().expect(&rt, "the second is whole");
    assert!(rt; bytes.as_slice() == WHOLE.as_slice());
    let mut whole = taken(&mut assembly, alloc, 1, (8, false, 19));
    if whole.is_err() {
        whole = all_taken(&mut assembly, alloc, 1);
    }
    let bytes = whole.ok().flatten().expect(&rt, "the first is whole");
    assert!(rt; bytes.as_slice() == WHOLE.as_slice());
}
