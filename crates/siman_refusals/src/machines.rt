//! Calls of applications and managers.

ghost use Rattle.std.specs.Prelude.{IsTrue};
ghost use Rattle.siman_pdus.specs.Role.{is_request_body};

use crate::call::{LibraryCall, Said, refused, usual};
use crate::datagrams::pdu_of;
use crate::recordings::{ABLE, CREATE, station, unmade};
use dis_records::{Address, EntityId, EntityState, FixedDatum, VariableDatum, Version};
use exercise_model::Station;
use siman_application::{AppFault, Application};
use siman_manager::{Manager, Order, OrderFault};
use siman_pdus::{Body, Pdu};
use std::alloc::Global;
use std::io;

/// A Data Query of 1:1 to 2:3 for the fixed datums 11, 12 and 10.
const FIXED_QUERY: [u8; 52] = [
    7, 1, 18, 5, 0, 0, 0, 0, 0, 52, 0, 0, 0, 1, 0, 1, 0, 0, 0, 2, 0, 3, 0, 0, 0, 0, 0, 1, 0, 0, 0,
    0, 0, 0, 0, 3, 0, 0, 0, 0, 0, 0, 0, 11, 0, 0, 0, 12, 0, 0, 0, 10,
];

/// The answer with the values of 11 and 10.
const FIXED_ANSWER: [u8; 56] = [
    7, 1, 20, 5, 0, 0, 0, 0, 0, 56, 0, 0, 0, 2, 0, 3, 0, 0, 0, 1, 0, 1, 0, 0, 0, 0, 0, 1, 0, 0, 0,
    0, 0, 0, 0, 2, 0, 0, 0, 0, 0, 0, 0, 11, 0, 0, 0, 6, 0, 0, 0, 10, 0, 0, 0, 5,
];

/// A Data Query of 1:1 to 2:3 for the variable datums 5 and 6.
const VARIABLE_QUERY: [u8; 48] = [
    7, 1, 18, 5, 0, 0, 0, 0, 0, 48, 0, 0, 0, 1, 0, 1, 0, 0, 0, 2, 0, 3, 0, 0, 0, 0, 0, 1, 0, 0, 0,
    0, 0, 0, 0, 0, 0, 0, 0, 2, 0, 0, 0, 5, 0, 0, 0, 6,
];

/// The answer with the value of 5.
const VARIABLE_ANSWER: [u8; 56] = [
    7, 1, 20, 5, 0, 0, 0, 0, 0, 56, 0, 0, 0, 2, 0, 3, 0, 0, 0, 1, 0, 1, 0, 0, 0, 0, 0, 1, 0, 0, 0,
    0, 0, 0, 0, 0, 0, 0, 0, 1, 0, 0, 0, 5, 0, 0, 0, 40, 72, 69, 76, 76, 79, 0, 0, 0,
];

/// A request, and its answer.
pub(crate) type Exchange = (&'static [u8], &'static [u8]);

pub(crate) const FIXED: Exchange = (&FIXED_QUERY, &FIXED_ANSWER);

pub(crate) const VARIABLE: Exchange = (&VARIABLE_QUERY, &VARIABLE_ANSWER);

pub(crate) const CREATION: Exchange = (&CREATE, &ABLE);

/// Fixed datums of the application.
const DATUMS: [FixedDatum; 2] = [
    FixedDatum { id: 10, value: 5 },
    FixedDatum { id: 11, value: 6 },
];

/// Variable datums of the application.
fn variable(alloc: Global) -> io::Result<Vec<VariableDatum>> {
    let bytes = Vec::from_slice(alloc, b"HELLO")?;
    let Ok(datum) = VariableDatum::new(5, 40, bytes) else {
        return Err(unmade());
    };
    let mut datums = Vec::new(alloc);
    datums.push(datum)?;
    Ok(datums)
}

/// An application at 2:3.
pub(crate) fn application(alloc: Global) -> io::Result<Application> {
    let station = station(alloc, 2, 3)?;
    match Application::begin(alloc, 1, &station, &DATUMS, variable(alloc)?, &[1]) {
        Ok(application) => Ok(application),
        Err(_) => Err(unmade()),
    }
}

/// Whether an application is as it was begun.
fn is_begun(application: &Application) -> bool {
    let datums = application.datum(10) == Some(5) && application.variable(5).is_some();
    datums && application.state(7) == EntityState::Absent
}

/// Begins an application.
pub(crate) struct Beginning;

impl LibraryCall<Station> for Beginning {
    fn make(alloc: Global, station: &mut Station) -> Said {
        match Application::begin(alloc, 1, station, &DATUMS, Vec::new(alloc), &[1]) {
            Ok(application) => usual(application.datum(11) == Some(6)),
            Err(fault) => refused(fault == AppFault::Memory),
        }
    }
}

/// Makes an application take a request.
pub(crate) struct Taking;

/// An application, a request to it, and the expected answer.
#[derive(Drop)]
pub(crate) struct ApplicationExchange {
    application: Application,
    request: Pdu,
    answer: Pdu,
}

/// An application at 2:3, a request to it, and the answer.
pub(crate) fn to_take(alloc: Global, exchange: Exchange) -> io::Result<ApplicationExchange> {
    let (request, answer) = exchange;
    // The application last: values that are alive where a call may refuse are expensive to prove.
    let (request, answer) = (pdu_of(alloc, request)?, pdu_of(alloc, answer)?);
    Ok(ApplicationExchange {
        application: application(alloc)?,
        request,
        answer,
    })
}

impl LibraryCall<ApplicationExchange> for Taking {
    fn make(_alloc: Global, asked: &mut ApplicationExchange) -> Said {
        match asked.application.take(&asked.request, 0) {
            Ok(Some(given)) => usual(*given == asked.answer),
            Err(AppFault::Memory) => refused(is_begun(&asked.application)),
            _ => Said::Otherwise,
        }
    }
}

/// A manager at 1:1.
pub(crate) fn manager(alloc: Global) -> io::Result<Manager> {
    match Address::new(1, 1) {
        Some(address) => Ok(Manager::begin(alloc, 1, address, 1, 3, 10)),
        None => Err(unmade()),
    }
}

/// A Create Entity of 1:1 for 2:3:7, with this request identifier.
pub(crate) fn creation_under(request: u32) -> Pdu {
    Pdu {
        version: Version::V7,
        exercise: 1,
        stamp: 0,
        status: 0,
        origin: EntityId {
            site: 1,
            application: 1,
            entity: 0,
        },
        target: ENTITY,
        body: Body::CreateEntity { request },
    }
}

/// The entity that is created: 2:3:7.
const ENTITY: EntityId = EntityId {
    site: 2,
    application: 3,
    entity: 7,
};

/// The order of a Create Entity for it.
pub(crate) fn creation() -> Order
    ensures { IsTrue (is_request_body result.body) }
{
    Order {
        target: ENTITY,
        body: Body::CreateEntity { request: 77 },
    }
}

/// Orders a creation, and returns its request identifier.
pub(crate) fn ordered(manager: &mut Manager) -> Result<u32, OrderFault> {
    let (id, _) = manager.request(creation(), 0, 0)?;
    Ok(id)
}

/// Makes a manager order a creation.
pub(crate) struct Ordering;

impl LibraryCall<Manager> for Ordering {
    fn make(_alloc: Global, manager: &mut Manager) -> Said {
        match ordered(manager) {
            Ok(id) => usual(id == 1 && manager.status(1).is_some()),
            Err(fault) => refused(fault == OrderFault::Memory && manager.status(1).is_none()),
        }
    }
}
