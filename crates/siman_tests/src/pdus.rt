//! Roles, request identifiers and answers, of literal datagrams, and a PDU of version 6 that is
//! written. Other properties of PDUs are in the cases of `siman_cases`.

use dis_records::Version;
use siman_pdus::{Role, answers, decode, encode, request_id, role, view};

/// Site, application and entity number, each in two bytes.
type Id = [u8; 6];

/// The manager.
const MANAGER: Id = [0, 1, 0, 1, 0, 0];

/// Entity 7 of 2:3.
const ENTITY: Id = [0, 2, 0, 3, 0, 7];

/// Event Report 1 from 2:3:7 to the manager.
const REPORT: [u8; 40] = [
    7, 1, 21, 5, 0, 0, 0, 0, 0, 40, 0, 0, 0, 2, 0, 3, 0, 7, 0, 1, 0, 1, 0, 0, 0, 0, 0, 1, 0, 0, 0,
    0, 0, 0, 0, 0, 0, 0, 0, 0,
];

/// A Remove Entity from the manager, with request identifier 1.
fn removal(to: Id) -> [u8; 28] {
    let [s, t, a, b, e, f] = to;
    [
        7, 1, 12, 5, 0, 0, 0, 0, 0, 28, 0, 0, 0, 1, 0, 1, 0, 0, s, t, a, b, e, f, 0, 0, 0, 1,
    ]
}

/// An Acknowledge with a flag, response 1 and a request identifier.
fn acknowledge(from: Id, to: Id, flag: u8, request: u8) -> [u8; 32] {
    let [s, t, a, b, e, f] = from;
    let [u, v, c, d, g, h] = to;
    [
        7, 1, 15, 5, 0, 0, 0, 0, 0, 32, 0, 0, s, t, a, b, e, f, u, v, c, d, g, h, 0, flag, 0, 1, 0,
        0, 0, request,
    ]
}

#[test]
fn roles_and_request_identifiers(rt: HostRuntime) {
    let order = removal(ENTITY);
    let order = view(&order).expect(&rt, "it is a PDU");
    let report = view(&REPORT).expect(&rt, "it is a PDU");
    assert!(rt; role(&order) == Role::Request && request_id(&order) == Some(1));
    assert!(rt; role(&report) == Role::Notice && request_id(&report).is_none());
    let flags = [
        (0, Role::Outside),
        (1, Role::Answer),
        (4, Role::Answer),
        (5, Role::Outside),
    ];
    for (flag, expected) in flags {
        let answer = acknowledge(ENTITY, MANAGER, flag, 9);
        let answer = view(&answer).expect(&rt, "it is a PDU");
        assert!(rt; role(&answer) == expected && request_id(&answer) == Some(9));
    }
}

/// The target of Remove Entity 1; origin, target, flag and request identifier of an Acknowledge;
/// and whether that Acknowledge answers the order.
type AcknowledgeRow = (Id, Id, Id, u8, u8, bool);

#[test]
fn an_answer_fits_its_request(rt: HostRuntime) {
    let other_station = [0, 2, 0, 4, 0, 7];
    let other_entity = [0, 2, 0, 3, 0, 8];
    let other_manager = [0, 2, 0, 1, 0, 0];
    let everybody = [0xFF; 6];
    let rows: [AcknowledgeRow; 7] = [
        (ENTITY, ENTITY, MANAGER, 2, 1, true),
        (ENTITY, ENTITY, MANAGER, 3, 1, false),
        (ENTITY, ENTITY, MANAGER, 2, 2, false),
        (ENTITY, other_station, MANAGER, 2, 1, false),
        (ENTITY, other_entity, MANAGER, 2, 1, false),
        (ENTITY, ENTITY, other_manager, 2, 1, false),
        (everybody, other_station, MANAGER, 2, 1, true),
    ];
    for (target, from, to, flag, request, fits) in rows {
        let (answer, order) = (acknowledge(from, to, flag, request), removal(target));
        let answer = view(&answer).expect(&rt, "it is a PDU");
        let order = view(&order).expect(&rt, "it is a PDU");
        assert!(rt; answers(&answer, &order) == fits);
    }
    let order = removal(ENTITY);
    let order = view(&order).expect(&rt, "it is a PDU");
    assert!(rt; !answers(&order, &order));
}

#[test]
fn version_6_is_written_without_a_status(rt: HostRuntime) {
    let bytes = [
        6, 1, 12, 5, 0, 0, 0, 0, 0, 28, 0, 0, 0, 1, 0, 1, 0, 0, 0, 2, 0, 3, 0, 7, 0, 0, 0, 1,
    ];
    for status in [0, 9] {
        let mut pdu = decode(rt.alloc(), &removal(ENTITY)).expect(&rt, "it is a PDU");
        pdu.version = Version::V6;
        pdu.status = status;
        let mut out = Vec::new(rt.alloc());
        assert!(rt; encode(&pdu, &mut out).is_ok());
        assert!(rt; out.as_slice() == bytes.as_slice());
    }
}
