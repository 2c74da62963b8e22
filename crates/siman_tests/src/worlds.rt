//! Moves and stations that no script can express.

use dis_records::EntityId;
use siman_manager::Order;
use siman_pdus::{Body, Datums};
use siman_scripts::{Act, Move, Script, read_script};
use siman_stations::{MoveFault, WorldFault, run_world};
use std::alloc::Global;

/// A station at 1:1 that makes no move.
const ALONE: &[u8] = b"exercise 1\nstation 1:1\n";

/// A Comment to all stations.
fn comment(alloc: Global) -> Act {
    let datums = Datums {
        fixed: Vec::new(alloc),
        variable: Vec::new(alloc),
    };
    Act::Command(Order {
        target: EntityId {
            site: 0xFFFF,
            application: 0xFFFF,
            entity: 0,
        },
        body: Body::Comment { datums },
    })
}

/// No station, a station that never sends an order, and two equal stations are refused.
#[test]
fn stations_are_refused(rt: HostRuntime) {
    let alloc = rt.alloc();
    for (count, tries) in [(0, 1), (1, 0), (2, 1)] {
        let mut stations = Vec::new(alloc);
        for _ in 0..count {
            let mut script = read_script(alloc, ALONE).expect(&rt, "it is a script");
            let mut station = script.stations.pop().expect(&rt, "it has a station");
            station.tries = tries;
            stations.push(station).expect(&rt, "there is memory");
        }
        let refusal = run_world(alloc, 1, stations, Vec::new(alloc)).err();
        assert!(rt; refusal == Some(WorldFault::Stations));
    }
}

/// The fault of a move by the station with this index, in a world with only one station.
fn barred(alloc: Global, station: u16, act: Act) -> Option<WorldFault> {
    let Script { stations, .. } = read_script(alloc, ALONE).ok()?;
    let step = Move {
        now: 0,
        station,
        act,
    };
    let moves = vec![in alloc; step].ok()?;
    run_world(alloc, 1, stations, moves).err()
}

#[test]
fn moves_are_refused(rt: HostRuntime) {
    let nowhere = WorldFault::Move(0, MoveFault::NoSuchStation);
    let no_order = WorldFault::Move(0, MoveFault::NotARequest);
    assert!(rt; barred(rt.alloc(), 1, Act::Tell(0)) == Some(nowhere));
    assert!(rt; barred(rt.alloc(), 0, comment(rt.alloc())) == Some(no_order));
}
