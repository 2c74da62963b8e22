//! Configuration of an application.

ghost use Rattle.std.specs.Prelude.{◌≡◌, ◌==◌};
ghost use Rattle.std.specs.List.{list_any};
ghost use Rattle.siman_application.specs.Distinct.{is_for};
ghost use Rattle.siman_application.specs.Answer.{answer_pdu};

use dis_records::{EntityId, addressed};
use exercise_model::Station;
use siman_pdus::{Body, Datums, Pdu, kind_of};
use std::marker::Model;

/// Configuration of an application, which never changes: the exercise, its station with the
/// entities that it opens with, the datums that it holds at first, and the actions that it knows.
#[derive(Drop)]
pub(crate) struct AppProfile {
    pub exercise: u8,
    pub station: Station,
    pub datums: Datums,
    pub actions: Vec<u32>,
}

impl Model for AppProfile {
    ghost use Rattle.siman_application.specs.AppProfile.{AppProfile};

    ghost Value = { AppProfile };

    ghost view = { λ a. record { exercise = a.exercise; station = a.station; datums = a.datums; actions = a.actions.items } };
}

impl AppProfile {
    /// Whether a PDU is of the exercise, is a request, and addresses the station.
    pub(crate) fn is_for(&self, pdu: &Pdu) -> bool
        ensures { result ≡ is_for self.now pdu.now }
    {
        pdu.exercise == self.exercise
            && pdu.body.is_request()
            && addressed(pdu.target, self.station.address())
    }

    /// Whether an action is known.
    pub(crate) fn knows(&self, action: u32) -> bool
        ensures { result ≡ list_any (λ known. known == action) self.now.actions }
    {
        knows(&self.actions, action)
    }

    /// Answer to a request from an entity number: in the request's version, of the exercise, status
    /// 0, to the request's originator.
    pub(crate) fn answer(&self, request: &Pdu, stamp: u32, number: u16, body: Body) -> Pdu
        ensures { result ≡ answer_pdu self.now request.now stamp number body }
    {
        let address = self.station.address();
        Pdu {
            version: request.version,
            exercise: self.exercise,
            stamp,
            status: 0,
            origin: EntityId {
                site: address.site(),
                application: address.application(),
                entity: number,
            },
            target: request.origin,
            body,
        }
    }
}

fn knows(actions: &[u32], action: u32) -> bool
    ensures { result ≡ list_any (λ known. known == action) actions.now }
{
    for known in actions {
        if *known == action {
            return true;
        }
    }
    false
}
