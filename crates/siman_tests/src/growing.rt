//! The rows of a recording that grows, entry after entry, on the recording with losses.

use crate::losses::losses;
use exercise_log::GrowingLog;
use exercise_model::{ExerciseLog, Setting, Station};
use siman_print::{Spelling, TextLine};
use std::alloc::Global;

/// The first eight entries in the order of the file: the second send of a request has the order of
/// the first, and each change is told once.
const IN_ORDER: &str =
    "entry 0 1:1 sent clock=100 create-entity version=7 time=00:00.000000/relative status=0 from=1:1:0 to=2:3:7 request=1 order=0\nentry 1 2:3 received clock=501 create-entity version=7 time=00:00.000000/relative status=0 from=1:1:0 to=2:3:7 request=1 source=0\nentry 2 2:3 sent clock=501 acknowledge version=7 time=00:00.000000/relative status=0 from=2:3:7 to=1:1:0 flag=1(create-entity) response=1(able) request=1 answers=1\nchange 2 entity=2:3:7 to=stopped by=1:1 request=1\nentry 3 1:1 received clock=102 acknowledge version=7 time=00:00.000000/relative status=0 from=2:3:7 to=1:1:0 flag=1(create-entity) response=1(able) request=1 source=2\nentry 4 1:1 sent clock=103 create-entity version=7 time=00:00.000000/relative status=0 from=1:1:0 to=2:4:9 request=2 order=4\nentry 5 1:1 sent clock=113 create-entity version=7 time=00:00.000016/relative status=0 from=1:1:0 to=2:4:9 request=2 order=4\nentry 6 2:4 received clock=914 create-entity version=7 time=00:00.000016/relative status=0 from=1:1:0 to=2:4:9 request=2 source=5\nentry 7 2:4 sent clock=914 acknowledge version=7 time=00:00.000000/relative status=0 from=2:4:9 to=1:1:0 flag=1(create-entity) response=1(able) request=2 answers=6\nchange 7 entity=2:4:9 to=stopped by=1:1 request=2\n";

/// The entries that come when a request and its answer come twice, and a receipt before its send:
/// by their places in the file.
const TWICE: [usize; 6] = [1, 2, 1, 2, 0, 3];

/// The rows of those: the second answer answers the first request and changes nothing; what was
/// received before its send has no source yet.
const TWICE_ROWS: &str =
    "entry 0 2:3 received clock=501 create-entity version=7 time=00:00.000000/relative status=0 from=1:1:0 to=2:3:7 request=1 source=-\nentry 1 2:3 sent clock=501 acknowledge version=7 time=00:00.000000/relative status=0 from=2:3:7 to=1:1:0 flag=1(create-entity) response=1(able) request=1 answers=0\nchange 1 entity=2:3:7 to=stopped by=1:1 request=1\nentry 2 2:3 received clock=501 create-entity version=7 time=00:00.000000/relative status=0 from=1:1:0 to=2:3:7 request=1 source=-\nentry 3 2:3 sent clock=501 acknowledge version=7 time=00:00.000000/relative status=0 from=2:3:7 to=1:1:0 flag=1(create-entity) response=1(able) request=1 answers=0\nentry 4 1:1 sent clock=100 create-entity version=7 time=00:00.000000/relative status=0 from=1:1:0 to=2:3:7 request=1 order=4\nentry 5 1:1 received clock=102 acknowledge version=7 time=00:00.000000/relative status=0 from=2:3:7 to=1:1:0 flag=1(create-entity) response=1(able) request=1 source=1\n";

/// The setting of a log.
fn setting_of<L: ExerciseLog>(alloc: Global, log: &L) -> Option<Setting> {
    let mut stations = Vec::new(alloc);
    for place in 0..log.station_count() {
        let station = log.station(place);
        let opening = Vec::from_slice(alloc, station.opening()).ok()?;
        stations
            .push(Station::new(station.address(), opening)?)
            .ok()?;
    }
    Setting::new(log.form(), log.exercise(), stations)
}

/// The rows of entries of a log, by their places there, while a recording grows by them.
fn rows_of<L: ExerciseLog>(alloc: Global, log: &L, places: &[usize]) -> Option<String> {
    let mut growing = GrowingLog::begin(alloc, setting_of(alloc, log)?);
    let mut text = String::new(alloc);
    let mut line = TextLine::new();
    for place in places {
        if *place < log.entry_count() {
            let view = log.entry(*place);
            growing
                .put_next(alloc, &mut text, &mut line, Spelling::Text, view)
                .ok()?;
        }
    }
    Some(text)
}

#[test]
fn rows_come_with_their_entries(rt: HostRuntime) {
    let log = losses(rt.alloc()).expect(&rt, "there is memory");
    let rows = rows_of(rt.alloc(), &log, &[0, 1, 2, 3, 4, 5, 6, 7]).expect(&rt, "there is memory");
    assert!(rt; rows.as_str() == IN_ORDER);
}

#[test]
fn what_comes_twice_belongs_to_the_first(rt: HostRuntime) {
    let log = losses(rt.alloc()).expect(&rt, "there is memory");
    let rows = rows_of(rt.alloc(), &log, &TWICE).expect(&rt, "there is memory");
    assert!(rt; rows.as_str() == TWICE_ROWS);
}
