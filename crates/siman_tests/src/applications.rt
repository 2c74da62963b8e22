//! An application with literal datagrams that no line of a script can produce. Its other answers
//! are cases of `siman_cases`.

mod logs;

use dis_records::{Address, VariableDatum};
use exercise_model::Station;
use siman_application::Application;
use siman_pdus::{decode, encode};
use std::alloc::Global;

/// Data Query 1 from 1:1:0 to 2:3:0 for the variable datums 5 and 6.
const VARIABLE_QUERY: [u8; 48] = [
    7, 1, 18, 5, 0, 0, 0, 0, 0, 48, 0, 0, 0, 1, 0, 1, 0, 0, 0, 2, 0, 3, 0, 0, 0, 0, 0, 1, 0, 0, 0,
    0, 0, 0, 0, 0, 0, 0, 0, 2, 0, 0, 0, 5, 0, 0, 0, 6,
];

/// Its answer: 5 has the 40 bits 48454C4C4F.
const VARIABLE_DATA: [u8; 56] = [
    7, 1, 20, 5, 0, 0, 0, 0, 0, 56, 0, 0, 0, 2, 0, 3, 0, 0, 0, 1, 0, 1, 0, 0, 0, 0, 0, 1, 0, 0, 0,
    0, 0, 0, 0, 0, 0, 0, 0, 1, 0, 0, 0, 5, 0, 0, 0, 40, 0x48, 0x45, 0x4C, 0x4C, 0x4F, 0, 0, 0,
];

/// Set Data 2 from 1:1:0 to 2:3:0: 5 has the 8 bits 41.
const VARIABLE_SETTING: [u8; 56] = [
    7, 1, 19, 5, 0, 0, 0, 0, 0, 56, 0, 0, 0, 1, 0, 1, 0, 0, 0, 2, 0, 3, 0, 0, 0, 0, 0, 2, 0, 0, 0,
    0, 0, 0, 0, 0, 0, 0, 0, 1, 0, 0, 0, 5, 0, 0, 0, 8, 0x41, 0, 0, 0, 0, 0, 0, 0,
];

/// Its answer: that record.
const VARIABLE_SET: [u8; 56] = [
    7, 1, 20, 5, 0, 0, 0, 0, 0, 56, 0, 0, 0, 2, 0, 3, 0, 0, 0, 1, 0, 1, 0, 0, 0, 0, 0, 2, 0, 0, 0,
    0, 0, 0, 0, 0, 0, 0, 0, 1, 0, 0, 0, 5, 0, 0, 0, 8, 0x41, 0, 0, 0, 0, 0, 0, 0,
];

/// The answer to the query with timestamp 4.
const VARIABLE_AGAIN: [u8; 56] = [
    7, 1, 20, 5, 0, 0, 0, 4, 0, 56, 0, 0, 0, 2, 0, 3, 0, 0, 0, 1, 0, 1, 0, 0, 0, 0, 0, 1, 0, 0, 0,
    0, 0, 0, 0, 0, 0, 0, 0, 1, 0, 0, 0, 5, 0, 0, 0, 40, 0x48, 0x45, 0x4C, 0x4C, 0x4F, 0, 0, 0,
];

/// The station 2:3 without entities.
fn station(alloc: Global) -> Option<Station> {
    Station::new(Address::new(2, 3)?, Vec::new(alloc))
}

/// Whether the application answers a datagram, taken with a timestamp, by exactly this one.
fn is_answered(
    alloc: Global,
    application: &mut Application,
    datagram: &[u8],
    stamp: u32,
    wanted: &[u8],
) -> bool {
    let Ok(pdu) = decode(alloc, datagram) else {
        return false;
    };
    let mut out = Vec::new(alloc);
    match application.take(&pdu, stamp) {
        Ok(Some(answer)) => encode(answer, &mut out).is_ok() && out.as_slice() == wanted,
        _ => false,
    }
}

/// An application of exercise 1 at 2:3, whose variable datum 5 has the 40 bits 48454C4C4F, answers
/// a query for 5 and 6, sets 5, and then answers a copy of the query with the data of its first
/// answer, and with the timestamp at which it takes the copy.
#[test]
fn a_query_that_comes_again_gets_its_first_answer(rt: HostRuntime) {
    let alloc = rt.alloc();
    let hello = Vec::from_slice(alloc, b"HELLO").expect(&rt, "there is memory");
    let datum = VariableDatum::new(5, 40, hello)
        .ok()
        .expect(&rt, "it is a datum");
    let held = vec![in alloc; datum].expect(&rt, "there is memory");
    let place = station(alloc).expect(&rt, "it is a station");
    let begun = Application::begin(alloc, 1, &place, &[], held, &[]);
    let mut application = begun.expect(&rt, "there is memory");
    assert!(rt; is_answered(alloc, &mut application, &VARIABLE_QUERY, 0, &VARIABLE_DATA));
    assert!(rt; is_answered(alloc, &mut application, &VARIABLE_SETTING, 0, &VARIABLE_SET));
    let five = application.variable(5).expect(&rt, "it is held");
    assert!(rt; five.bits() == 8 && application.variable(6).is_none());
    assert!(rt; is_answered(alloc, &mut application, &VARIABLE_QUERY, 4, &VARIABLE_AGAIN));
}
