//! Entries without a conflict, and differences that no row of `why` names. Conflicts are cases of
//! `siman_cases`.

use crate::losses::losses;
use exercise_conflict::{PduField, clash_of, missing_sends, pdu_difference};
use exercise_findings::Findings;
use siman_pdus::view;

/// An order, an answer, and an index past the last entry have no clash, and no send is missing.
#[test]
fn what_contradicts_nothing_has_no_clash(rt: HostRuntime) {
    let log = losses(rt.alloc()).expect(&rt, "there is memory");
    let findings = Findings::of(rt.alloc(), &log).expect(&rt, "there is memory");
    for entry in [0, 2, 30] {
        assert!(rt; clash_of(&findings, entry).is_none());
    }
    let lacks = missing_sends(rt.alloc(), &findings).expect(&rt, "there is memory");
    assert!(rt; lacks.is_empty());
}

/// A Start/Resume to an entity of 2:3, with a request identifier.
fn start(entity: u8, request: u8) -> [u8; 44] {
    [
        7, 1, 0x0D, 5, 0, 0, 0, 0, 0, 0x2C, 0, 0, 0, 1, 0, 1, 0, 0, 0, 2, 0, 3, 0, entity, 0, 0, 0,
        0, 0, 0, 0, 0, 0, 0, 0, 0, 0, 0, 0, 0, 0, 0, 0, request,
    ]
}

/// An Event Report of 2:3:7, with an event type.
fn report(event: u8) -> [u8; 40] {
    [
        7, 1, 0x15, 5, 0, 0, 0, 0, 0, 0x28, 0, 0, 0, 2, 0, 3, 0, 7, 0, 1, 0, 1, 0, 0, 0, 0, 0,
        event, 0, 0, 0, 0, 0, 0, 0, 0, 0, 0, 0, 0,
    ]
}

#[test]
fn the_first_difference_is_named(rt: HostRuntime) {
    let rows: [(&[u8], &[u8], PduField); 3] = [
        (&start(7, 1), &start(9, 1), PduField::To),
        (&start(7, 1), &start(7, 2), PduField::Request),
        (&report(1), &report(9), PduField::Event),
    ];
    for (one, other, field) in rows {
        let one = view(one).expect(&rt, "it is a PDU");
        let other = view(other).expect(&rt, "it is a PDU");
        assert!(rt; pdu_difference(&one, &other) == Some(field));
    }
}
