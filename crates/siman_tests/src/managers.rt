//! What a received PDU means to a manager, with literal values. The fates of its orders are in the
//! cases of `siman_cases`.

ghost use Rattle.std.specs.Prelude.{IsTrue};
ghost use Rattle.siman_pdus.specs.Role.{is_request_body};

use dis_records::{Address, EntityId, Version};
use siman_manager::Taken::{Answered, Foreign, Pending, Repeat};
use siman_manager::{Manager, Order};
use siman_pdus::{Body, Pdu};

/// The entity that receives the orders.
const STATION: EntityId = EntityId {
    site: 7,
    application: 8,
    entity: 9,
};

/// The manager's address, with the entity number of its PDUs.
const MANAGER: EntityId = EntityId {
    site: 2,
    application: 5,
    entity: 0,
};

/// A Create Entity for the entity [`STATION`].
fn creation() -> Order
    ensures { IsTrue (is_request_body result.body) }
{
    Order {
        target: STATION,
        body: Body::CreateEntity { request: 77 },
    }
}

/// The station's Acknowledge of a Create Entity, with a response: able (1), unable (2), pending
/// (3).
fn acknowledge(exercise: u8, response: u16, request: u32) -> Pdu {
    Pdu {
        version: Version::V7,
        exercise,
        stamp: 0,
        status: 0,
        origin: STATION,
        target: MANAGER,
        body: Body::Acknowledge {
            flag: 1,
            response,
            request,
        },
    }
}

/// Each row has the exercise, the response and the request identifier of an Acknowledge, and its
/// meaning to a manager of exercise 3 that ordered a creation with request identifier 1.
#[test]
fn only_what_settles_an_order_changes_it(rt: HostRuntime) {
    let rows = [
        (3, 1, 9, Foreign),
        (4, 1, 1, Foreign),
        (3, 3, 1, Pending(1)),
        (3, 2, 1, Answered(1)),
        (3, 1, 1, Repeat(1)),
    ];
    let address = Address::new(2, 5).expect(&rt, "it is an address");
    let mut manager = Manager::begin(rt.alloc(), 3, address, 1, 2, 10);
    assert!(rt; manager.request(creation(), 0, 70).is_ok());
    for (exercise, response, request, taken) in rows {
        assert!(rt; manager.take(&acknowledge(exercise, response, request)) == taken);
    }
}
