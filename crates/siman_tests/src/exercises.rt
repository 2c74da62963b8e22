//! Exercises that are recorded from their beginning to their end.

ghost use Rattle.std.specs.Prelude.{Some, IfSome};
ghost use Rattle.std.specs.List.{All};
ghost use Rattle.siman_lines.specs.Calls.{IsUnused};
ghost use Rattle.siman_lines.specs.Memory.{sent_of};

use siman_lines::{AtLineFault, MemoryLine};
use siman_scripts::{Script, read_script};
use siman_stations::WorldFault;
use siman_trials::{ExerciseFault, LinkMoveFault, record_exercise, record_on_network};
use std::alloc::Global;

/// The first of two stations orders the creation of 2:3:7.
const SCRIPT: &[u8] = b"exercise 1\nstation 1:1\nstation 2:3\ncreate 1:1 2:3:7\n";

/// A station that is alone orders the creation of 2:3:7.
const ALONE: &[u8] = b"exercise 1\nstation 1:1\ncreate 1:1 2:3:7\n";

/// The head of the recording of exercise 1 with stations 1:1 and 2:3, and the entry in which 1:1
/// sent a creation of 2:3:7.
const SENT: [u8; 64] = [
    68, 83, 82, 67, 48, 48, 48, 49, 1, 0, 2, 0, 1, 0, 1, 0, 0, 0, 2, 0, 3, 0, 0, 1, 0, 0, 0, 0, 0,
    0, 0, 0, 0, 0, 0, 28, 7, 1, 11, 5, 0, 0, 0, 0, 0, 28, 0, 0, 0, 1, 0, 1, 0, 0, 0, 2, 0, 3, 0, 7,
    0, 0, 0, 1,
];

/// The entries in which 2:3 received it, 2:3 sent that it is able to comply, and 1:1 received that
/// answer, and the end.
const ANSWERED: [u8; 136] = [
    2, 0, 1, 0, 0, 0, 0, 0, 0, 0, 0, 0, 28, 7, 1, 11, 5, 0, 0, 0, 0, 0, 28, 0, 0, 0, 1, 0, 1, 0, 0,
    0, 2, 0, 3, 0, 7, 0, 0, 0, 1, 1, 0, 1, 0, 0, 0, 0, 0, 0, 0, 0, 0, 32, 7, 1, 15, 5, 0, 0, 0, 0,
    0, 32, 0, 0, 0, 2, 0, 3, 0, 7, 0, 1, 0, 1, 0, 0, 0, 1, 0, 1, 0, 0, 0, 1, 2, 0, 0, 0, 0, 0, 0,
    0, 0, 0, 0, 0, 32, 7, 1, 15, 5, 0, 0, 0, 0, 0, 32, 0, 0, 0, 2, 0, 3, 0, 7, 0, 1, 0, 1, 0, 0, 0,
    1, 0, 1, 0, 0, 0, 1, 0, 0, 0, 0, 4,
];

#[test]
fn a_creation_on_a_network_is_recorded(rt: HostRuntime) {
    let alloc = rt.alloc();
    let unsent = ExerciseFault::Move(LinkMoveFault::AtLine(AtLineFault::Line));
    // The call that fails, the result, and the bytes of the recording behind the order.
    let rows: [(Option<u64>, Result<(), ExerciseFault>, &[u8]); 2] = [
        (None, Ok(()), &ANSWERED),
        (Some(1), Err(unsent), &[]),
    ];
    for (fails_at, ended, rest) in rows {
        let Script {
            stations,
            moves,
            ..
        } = read_script(alloc, SCRIPT).expect(&rt, "it is one");
        let recorded = record_on_network(alloc, 1, stations, moves, fails_at, Vec::new(alloc));
        assert!(rt; recorded.ended == ended);
        assert!(rt; recorded.file.strip_prefix(SENT.as_slice()) == Some(rest));
    }
}

#[test]
fn equal_stations_record_nothing(rt: HostRuntime) {
    let alloc = rt.alloc();
    let mut script = read_script(alloc, ALONE).expect(&rt, "it is one");
    let mut other = read_script(alloc, ALONE).expect(&rt, "it is one");
    let equal = other.stations.pop().expect(&rt, "it has a station");
    script.stations.push(equal).expect(&rt, "there is memory");
    let Script {
        stations,
        moves,
        ..
    } = script;
    let recorded = record_on_network(alloc, 1, stations, moves, None, Vec::new(alloc));
    assert!(rt; recorded.ended == Err(ExerciseFault::World(WorldFault::Stations)));
    assert!(rt; recorded.file.is_empty());
}

/// Links on which nothing arrives, and through which nothing was sent.
fn dead_lines(alloc: Global, count: usize) -> Option<Vec<MemoryLine>>
    ensures { IfSome result (λ lines. All (λ line. IsUnused (Some (sent_of line))) lines.items) }
{
    let mut lines = Vec::new(alloc);
    for _ in 0..count {
        lines
            .push(MemoryLine::new(alloc, Vec::new(alloc), None))
            .ok()?;
    }
    Some(lines)
}

/// Result and file of recording the creation over this many links on which nothing arrives.
fn on_dead_lines(alloc: Global, count: usize) -> Option<(Result<(), ExerciseFault>, Vec<u8>)> {
    let Script {
        stations,
        moves,
        ..
    } = read_script(alloc, SCRIPT).ok()?;
    let lines = dead_lines(alloc, count)?;
    let file = Vec::new(alloc);
    let recorded = record_exercise(alloc, 1, stations, lines, moves, file);
    Some((recorded.ended, recorded.file))
}

#[test]
fn dead_lines_bring_no_answer(rt: HostRuntime) {
    let (ended, file) = on_dead_lines(rt.alloc(), 2).expect(&rt, "there is memory");
    assert!(rt; ended.is_ok());
    assert!(rt; file.strip_prefix(SENT.as_slice()) == Some([0, 0, 0, 0, 1].as_slice()));
    let (ended, file) = on_dead_lines(rt.alloc(), 1).expect(&rt, "there is memory");
    assert!(rt; ended == Err(ExerciseFault::Lines(AtLineFault::Line)) && file.is_empty());
}
