//! Joining pieces as no command does: behind refused pieces, and within a small limit. What pieces
//! yield is in the cases of `siman_cases`.

use dis_records::Address;
use exercise_recording::*;
use siman_trials::{Calls, WELL, read_from};
use std::io::ErrorKind;

/// A piece of the first format, of exercise 1: station 2:3 with entity 7 stopped, which received a
/// datagram of two bytes, sent one of one byte, and told that entity 7 runs.
const SIMULATOR: [u8; 60] = [
    0x44, 0x53, 0x52, 0x43, 0x30, 0x30, 0x30, 0x31, 1, 0, 1, 0, 2, 0, 3, 0, 1, 0, 7, 1, 2, 0, 0, 0,
    0, 0, 0, 0, 0, 0, 5, 0, 2, 0xAB, 0xCD, 1, 0, 0, 0, 0, 0, 0, 0, 0, 1, 0, 0, 1, 0xEF, 3, 0, 0, 0,
    7, 2, 0, 0, 0, 0, 3,
];

/// A piece of the second format, open, of exercise 1: station 1:1 with no entities, which sent the
/// first datagram and received the other.
const MANAGER: [u8; 52] = [
    0x44, 0x53, 0x52, 0x43, 0x30, 0x30, 0x30, 0x32, 1, 1, 0, 1, 0, 1, 0, 1, 0, 0, 1, 0, 0, 0, 0, 0,
    0, 0, 0, 0, 3, 0, 2, 0xAB, 0xCD, 2, 0, 0, 0, 0, 0, 0, 0, 0, 0, 4, 0, 1, 0xEF, 0, 0, 0, 0, 2,
];

/// Both joined, the simulator's entries first: of the second format, open, 1:1 before 2:3.
const JOINED: [u8; 96] = [
    0x44, 0x53, 0x52, 0x43, 0x30, 0x30, 0x30, 0x32, 1, 1, 0, 2, 0, 1, 0, 1, 0, 0, 0, 2, 0, 3, 0, 1,
    0, 7, 1, 2, 0, 1, 0, 0, 0, 0, 0, 0, 0, 5, 0, 2, 0xAB, 0xCD, 1, 0, 1, 0, 0, 0, 0, 0, 0, 1, 0, 0,
    1, 0xEF, 3, 0, 1, 0, 7, 2, 1, 0, 0, 0, 0, 0, 0, 0, 0, 0, 3, 0, 2, 0xAB, 0xCD, 2, 0, 0, 0, 0, 0,
    0, 0, 0, 0, 4, 0, 1, 0xEF, 0, 0, 0, 0, 5,
];

/// The result of joining both.
const TOLD: Joined = Joined {
    pieces: 2,
    stations: 2,
    entries: 5,
    form: Form::Open,
};

/// Behind the simulator's piece others are refused, each for a different reason; then the manager's
/// is added as if there had been none of them.
#[test]
fn a_piece_that_is_refused_changes_nothing(rt: HostRuntime) {
    let alloc = rt.alloc();
    let mut foreign = MANAGER;
    foreign[8] = 2;
    let torn = RecordingFault::Format(FormatFault::Truncated(51));
    let address = Address::new(2, 3).expect(&rt, "it is an address");
    let pieces: [(&[u8], JoinFault); 3] = [
        (&MANAGER[..51], JoinFault::Recording(torn)),
        (&foreign, JoinFault::Exercise),
        (&SIMULATOR, JoinFault::Station(address)),
    ];
    let mut joining = Joining::start(alloc, FormWord::Unsaid);
    assert!(rt; joining.add(alloc, SIMULATOR.as_slice(), 1000).is_ok());
    for (piece, fault) in pieces {
        assert!(rt; joining.add(alloc, piece, 1000).err() == Some(fault));
    }
    for fails_at in 1..8 {
        let calls = Calls {
            most: 10,
            fails_at,
            kind: Some(ErrorKind::Other),
        };
        let refusal = joining.add(alloc, read_from(&MANAGER, calls), 1000).err();
        assert!(rt; refusal == Some(JoinFault::Recording(RecordingFault::Read)));
    }
    assert!(rt; joining.add(alloc, read_from(&MANAGER, WELL), 1000).is_ok());
    let joint = joining.end(alloc, 96).expect(&rt, "it is within the limit");
    let mut out = Vec::new(alloc);
    assert!(rt; joint.told() == TOLD && joint.write(&mut out).is_ok());
    assert!(rt; out.as_slice() == JOINED.as_slice());
}

#[test]
fn what_passes_a_limit_is_not_joined(rt: HostRuntime) {
    let alloc = rt.alloc();
    let rows: [(u64, Result<Joined, JoinFault>, &[u8]); 2] = [
        (96, Ok(TOLD), &JOINED),
        (95, Err(JoinFault::Size), &[]),
    ];
    for (limit, wanted, file) in rows {
        let readers = Vec::from_slice(alloc, &[SIMULATOR.as_slice(), MANAGER.as_slice()]).expect(
            &rt,
            "there is memory",
        );
        let mut out = Vec::new(alloc);
        assert!(rt; join(alloc, FormWord::Unsaid, readers, limit, &mut out) == wanted);
        assert!(rt; out.as_slice() == file);
    }
    let nothing = Joining::start(alloc, FormWord::Unsaid);
    assert!(rt; nothing.end(alloc, 95).err() == Some(JoinFault::Stations));
    let mut joining = Joining::start(alloc, FormWord::Unsaid);
    assert!(rt; joining.add(alloc, SIMULATOR.as_slice(), 1000).is_ok());
    assert!(rt; joining.add(alloc, MANAGER.as_slice(), 1000).is_ok());
    assert!(rt; joining.end(alloc, 95).err() == Some(JoinFault::Size));
}

/// A later part of the simulator's log, open, of exercise 1: station 2:3 with no entities, which
/// sent a datagram of one byte at the stamp in byte 28.
const LATER: [u8; 37] = [
    0x44, 0x53, 0x52, 0x43, 0x30, 0x30, 0x30, 0x32, 1, 1, 0, 1, 0, 2, 0, 3, 0, 0, 1, 0, 0, 0, 0, 0,
    0, 0, 0, 0, 1, 0, 1, 0xCD, 0, 0, 0, 0, 1,
];

/// The simulator's log, whose second stamp is 1 here, and its later part, joined: one station, which
/// begins as in the first part.
const WHOLE: [u8; 75] = [
    0x44, 0x53, 0x52, 0x43, 0x30, 0x30, 0x30, 0x32, 1, 1, 0, 1, 0, 2, 0, 3, 0, 1, 0, 7, 1, 2, 0, 0,
    0, 0, 0, 0, 0, 0, 0, 5, 0, 2, 0xAB, 0xCD, 1, 0, 0, 0, 0, 0, 0, 0, 0, 0, 1, 0, 1, 0xEF, 3, 0, 0,
    0, 7, 2, 1, 0, 0, 0, 0, 0, 0, 0, 0, 0, 1, 0, 1, 0xCD, 0, 0, 0, 0, 4,
];

/// A log goes on in a later piece, if that does not begin before the last stamp so far: here 1,
/// though 5 stands before it. Between the parts stands the log of another station.
#[test]
fn a_log_goes_on_in_a_later_part(rt: HostRuntime) {
    let alloc = rt.alloc();
    let address = Address::new(2, 3).expect(&rt, "it is an address");
    let mut first = SIMULATOR;
    first[44] = 0;
    first[45] = 1;
    let mut joining = Joining::of_parts(alloc, FormWord::Unsaid);
    assert!(rt; joining.add(alloc, first.as_slice(), 1000).is_ok());
    let mut early = LATER;
    early[28] = 0;
    let refusal = joining.add(alloc, early.as_slice(), 1000).err();
    assert!(rt; refusal == Some(JoinFault::Time(address)));
    let mut foreign = LATER;
    foreign[8] = 2;
    let refusal = joining.add(alloc, foreign.as_slice(), 1000).err();
    assert!(rt; refusal == Some(JoinFault::Exercise));
    assert!(rt; joining.add(alloc, LATER.as_slice(), 1000).is_ok());
    let joint = joining.end(alloc, 75).expect(&rt, "it is within the limit");
    let told = joint.told();
    assert!(rt; told.pieces == 2 && told.stations == 1 && told.entries == 4);
    let mut out = Vec::new(alloc);
    assert!(rt; joint.write(&mut out).is_ok() && out.as_slice() == WHOLE.as_slice());

    let mut apart = Joining::of_parts(alloc, FormWord::Unsaid);
    for piece in [first.as_slice(), MANAGER.as_slice(), LATER.as_slice()] {
        assert!(rt; apart.add(alloc, piece, 1000).is_ok());
    }
    let joint = apart.end(alloc, 110).expect(&rt, "it is within the limit");
    let told = joint.told();
    assert!(rt; told.pieces == 3 && told.stations == 2 && told.entries == 6);
}

/// Without parts a station that comes again is refused, whatever its stamps.
#[test]
fn a_later_part_is_no_piece(rt: HostRuntime) {
    let alloc = rt.alloc();
    let address = Address::new(2, 3).expect(&rt, "it is an address");
    let mut joining = Joining::start(alloc, FormWord::Unsaid);
    assert!(rt; joining.add(alloc, SIMULATOR.as_slice(), 1000).is_ok());
    let refusal = joining.add(alloc, LATER.as_slice(), 1000).err();
    assert!(rt; refusal == Some(JoinFault::Station(address)));
}
