//! Answers to new requests.

ghost use Rattle.std.specs.Prelude.{◌≡◌, [], IfOk, IsTrue};
ghost use Rattle.std.specs.Option.{unwrap_or};
ghost use Rattle.dis_records.specs.Entity.{is_open};
ghost use Rattle.siman_pdus.specs.Role.{is_request_body};
ghost use Rattle.siman_application.specs.Answer.{plain_answer, chosen, created, obeyed, is_meant, action_status, no_datums, data_pdu, data_answer, held_records, ids_of, brought, result_of, answer};
ghost use Rattle.siman_application.specs.Holding.{held_in};
ghost use Rattle.siman_application.specs.Knows.{knows};
ghost use Rattle.siman_application.specs.Listed.{states_in};

use crate::entities::Entities;
use crate::held::Held;
use crate::outfit::AppProfile;
use crate::records::ids_of;
use dis_records::{Kind, is_open};
use siman_pdus::{ABLE, Body, DatumIds, Datums, Pdu, UNABLE, kind_of};
use std::alloc::{AllocError, Global};

/// Request status of an action that was done (SISO-REF-010): complete.
const COMPLETE: u32 = 4;

/// Request status of an action that was not done: request rejected.
const REJECTED: u32 = 5;

/// Acknowledge flags (SISO-REF-010).
const CREATE: u16 = 1;

const REMOVE: u16 = 2;

const START: u16 = 3;

const STOP: u16 = 4;

/// Result of a request: its answer, and the datums that it stores, if any.
#[derive(Drop)]
pub(crate) struct RequestResult {
    pub answer: Pdu,
    pub brought: Option<Datums>,
}

/// Answer from the entity number of the request, or from 0 if that names no single entity.
fn plain_answer(outfit: &AppProfile, request: &Pdu, stamp: u32, body: Body) -> Pdu
    ensures { result ≡ plain_answer outfit.now request.now stamp body }
{
    let asked = request.target.entity;
    let number = if is_open(kind_of(&request.body), asked) {
        0
    } else {
        asked
    };
    outfit.answer(request, stamp, number, body)
}

/// Answer to a Create Entity: able, from the created number, or unable.
fn answer_creation(
    outfit: &AppProfile,
    entities: &Entities,
    request: &Pdu,
    stamp: u32,
    id: u32,
) -> Pdu
    ensures { result ≡ created outfit.now request.now stamp id (chosen (states_in entities.now) request.now.target.entity) }
{
    match entities.choose(request.target.entity) {
        Some(number) => {
            let body = Body::Acknowledge {
                flag: CREATE,
                response: ABLE,
                request: id,
            };
            outfit.answer(request, stamp, number, body)
        }
        None => {
            let body = Body::Acknowledge {
                flag: CREATE,
                response: UNABLE,
                request: id,
            };
            plain_answer(outfit, request, stamp, body)
        }
    }
}

/// Answer to a Remove Entity, Start/Resume or Stop/Freeze: able if it is for all entities or for a
/// present one.
fn answer_order(
    outfit: &AppProfile,
    entities: &Entities,
    request: &Pdu,
    stamp: u32,
    flag: u16,
    id: u32,
) -> Pdu
    ensures { result ≡ obeyed outfit.now (states_in entities.now) request.now stamp flag id }
{
    let is_able = entities.is_meant(kind_of(&request.body), request.target.entity);
    let response = if is_able { ABLE } else { UNABLE };
    let body = Body::Acknowledge {
        flag,
        response,
        request: id,
    };
    plain_answer(outfit, request, stamp, body)
}

/// Request status of an action: complete if the action is known, for all entities or for a present
/// one.
fn action_status(outfit: &AppProfile, entities: &Entities, request: &Pdu, action: u32) -> u32
    ensures { result ≡ action_status outfit.now (states_in entities.now) request.now action }
{
    if outfit.knows(action) && entities.is_meant(kind_of(&request.body), request.target.entity) {
        COMPLETE
    } else {
        REJECTED
    }
}

fn answer_action(
    alloc: Global,
    outfit: &AppProfile,
    entities: &Entities,
    request: &Pdu,
    stamp: u32,
    id: u32,
    action: u32,
) -> Pdu
    ensures { result ≡ plain_answer outfit.now request.now stamp (Body.ActionResponse id (action_status outfit.now (states_in entities.now) request.now action) no_datums) }
{
    let datums = Datums {
        fixed: Vec::new(alloc),
        variable: Vec::new(alloc),
    };
    let result = action_status(outfit, entities, request, action);
    plain_answer(
        outfit,
        request,
        stamp,
        Body::ActionResponse {
            request: id,
            result,
            datums,
        },
    )
}

/// Data with these datums.
fn answer_data(outfit: &AppProfile, request: &Pdu, stamp: u32, id: u32, datums: Datums) -> Pdu
    ensures { result ≡ data_pdu outfit.now request.now stamp id datums }
{
    let body = Body::DataPdu {
        request: id,
        datums,
    };
    plain_answer(outfit, request, stamp, body)
}

/// Data with the records held under these identifiers, as many as fit.
fn answer_query(
    alloc: Global,
    outfit: &AppProfile,
    held: &Held,
    request: &Pdu,
    stamp: u32,
    id: u32,
    ids: &DatumIds,
) -> Result<Pdu, AllocError>
    ensures { IfOk result (λ pdu. pdu ≡ data_answer outfit.now request.now stamp id (held_records (knows [] (held_in held.now)) ids.now)) }
{
    let none = Held::new(alloc);
    let datums = held.find(alloc, &none, ids)?;
    Ok(answer_data(outfit, request, stamp, id, datums))
}

/// Data with the records held under the identifiers of `came`, after these datums are stored, as
/// many as fit.
fn set_data_answer(
    alloc: Global,
    outfit: &AppProfile,
    held: &Held,
    request: &Pdu,
    stamp: u32,
    id: u32,
    came: &Datums,
) -> Result<Pdu, AllocError>
    ensures { IfOk result (λ pdu. pdu ≡ data_answer outfit.now request.now stamp id (held_records (result_of came.now (knows [] (held_in held.now))) (ids_of came.now))) }
{
    let ids = ids_of(alloc, came)?;
    let others = Held::of(alloc, came)?;
    let datums = held.find(alloc, &others, &ids)?;
    Ok(answer_data(outfit, request, stamp, id, datums))
}

/// Answer to a Set Data, and the datums that it stores.
fn answer_setting(
    alloc: Global,
    outfit: &AppProfile,
    held: &Held,
    request: &Pdu,
    stamp: u32,
    id: u32,
    came: &Datums,
) -> Result<RequestResult, AllocError>
    ensures answer { IfOk result (λ outcome. outcome.answer ≡ data_answer outfit.now request.now stamp id (held_records (result_of came.now (knows [] (held_in held.now))) (ids_of came.now))) }
    ensures brought { IfOk result (λ outcome. unwrap_or outcome.brought no_datums ≡ came.now) }
{
    let brought = came.copy(alloc)?;
    let answer = set_data_answer(alloc, outfit, held, request, stamp, id, came)?;
    Ok(RequestResult {
        answer,
        brought: Some(brought),
    })
}

/// Answer to a new request, and the datums that it stores.
pub(crate) fn answer(
    alloc: Global,
    outfit: &AppProfile,
    entities: &Entities,
    held: &Held,
    request: &Pdu,
    stamp: u32,
) -> Result<RequestResult, AllocError>
    requires { IsTrue (is_request_body request.now.body) }
    ensures answer { IfOk result (λ outcome. outcome.answer ≡ answer outfit.now (knows entities.now (held_in held.now)) request.now stamp) }
    ensures brought { IfOk result (λ outcome. unwrap_or outcome.brought no_datums ≡ brought request.now.body) }
{
    let answer = match &request.body {
        Body::CreateEntity { request: id } => {
            answer_creation(outfit, entities, request, stamp, *id)
        }
        Body::RemoveEntity { request: id } => {
            answer_order(outfit, entities, request, stamp, REMOVE, *id)
        }
        Body::StartResume { request: id, .. } => {
            answer_order(outfit, entities, request, stamp, START, *id)
        }
        Body::StopFreeze { request: id, .. } => {
            answer_order(outfit, entities, request, stamp, STOP, *id)
        }
        Body::ActionRequest {
            request: id,
            action,
            ..
        } => { answer_action(alloc, outfit, entities, request, stamp, *id, *action) }
        Body::DataQuery {
            request: id,
            ids,
            ..
        } => { answer_query(alloc, outfit, held, request, stamp, *id, ids)? }
        Body::SetData {
            request: id,
            datums,
        } => {
            return answer_setting(alloc, outfit, held, request, stamp, *id, datums);
        }
        Body::Acknowledge { .. }
        | Body::ActionResponse { .. }
        | Body::DataPdu { .. }
        | Body::EventReport { .. }
        | Body::Comment { .. } => unreachable!(),
    };
    Ok(RequestResult {
        answer,
        brought: None,
    })
}
