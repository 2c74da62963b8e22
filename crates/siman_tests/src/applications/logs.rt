//! An application whose contract follows from the law of own logs alone, with nothing else proved.

ghost use Rattle.std.specs.Prelude.{◌≡◌, ◌∷◌, [], true, Some, IfOk};
ghost use Rattle.siman_pdus.specs.declared.pdu.Pdu.{Pdu};
ghost use Rattle.siman_pdus.specs.Reading.{reading};
ghost use Rattle.siman_pdus.specs.Role.{is_request_body};
ghost use Rattle.siman_application.specs.OwnLog.{Orders, Takes, log_in, AnswersHaveNoCause};

use crate::applications::station;
use dis_records::EntityState;
use exercise_model::Station;
use siman_application::{AppFault, Application, own_logs_stand};
use std::alloc::Global;

/// A Start/Resume of exercise 1 from 1:1:0 to 2:3:7, with request identifier 1 and padding that is
/// not zero.
const START: [u8; 44] = [
    7, 1, 13, 5, 0, 0, 0, 0, 0, 44, 0, 9, 0, 1, 0, 1, 0, 0, 0, 2, 0, 3, 0, 7, 0, 0, 0, 0, 0, 0, 0,
    0, 0, 0, 0, 0, 0, 0, 0, 0, 0, 0, 0, 1,
];

/// The Create Entity of entity 7, with request identifier 1.
const CREATE: [u8; 28] = [
    7, 1, 11, 5, 0, 0, 0, 0, 0, 28, 0, 0, 0, 1, 0, 1, 0, 0, 0, 2, 0, 3, 0, 7, 0, 0, 0, 1,
];

/// Begins an application. By its contract every answer in its log of two turns can happen: an order
/// is sent with these bytes, and then a request is taken and answered at once.
fn begin_to_answer(
    alloc: Global,
    exercise: u8,
    station: &Station,
    order: &[u8],
    request: &[u8],
    stamp: u32,
) -> Result<Application, AppFault>
    ensures { IfOk result (λ app. (o : Pdu) → reading order.now ≡ Some o → o.exercise ≡ exercise → is_request_body o.body ≡ true
        → (q : Pdu) → reading request.now ≡ Some q → AnswersHaveNoCause app.outfit (log_in app.outfit 0 (Takes request.now q stamp ∷ Orders order.now o ∷ []))) }
{
    own_logs_stand();
    Application::begin(alloc, exercise, station, &[], Vec::new(alloc), &[])
}

/// An application at a station without entities begins with entity 7 absent, before it answers the
/// creation of that entity, behind the order of [`START`].
#[test]
fn an_answer_stands(rt: HostRuntime) {
    let station = station(rt.alloc()).expect(&rt, "there is memory");
    let begun = begin_to_answer(rt.alloc(), 1, &station, &START, &CREATE, 0);
    let application = begun.expect(&rt, "there is memory");
    assert!(rt; application.state(7) == EntityState::Absent);
}
