//! Making of orders.

ghost use Rattle.std.specs.Prelude.{◌≡◌, ◌+◌, ◌<◌, ◌^◌, OnOk, IfOk, OnErr, IfErr, IfSome, None, Some, Err};
ghost use Rattle.std.specs.Option.{SomeIff};
ghost use Rattle.indexmap.specs.IndexMap.{values, index_map_len};
ghost use Rattle.siman_manager.specs.Blocks.{IsRight};
ghost use Rattle.siman_manager.specs.Book.{numbered, order_pdu, next_id, refusal, with_order};
ghost use Rattle.siman_manager.specs.Answers.{reported_by};

use crate::blocks::{note, quiet_until};
use crate::fault::OrderFault;
use crate::kept::{MadeOrder, OrderStanding, OrderTable};
use crate::order::Order;
use crate::settings::Settings;
use dis_records::{EntityId, Version};
use siman_pdus::{Body, Pdu, encoded_size};

/// A request's body with this request identifier.
fn numbered(body: Body, id: u32) -> Body
    ensures { result ≡ numbered id body }
{
    match body {
        Body::CreateEntity { .. } => Body::CreateEntity { request: id },
        Body::RemoveEntity { .. } => Body::RemoveEntity { request: id },
        Body::StartResume { real, sim, .. } => Body::StartResume {
            real,
            sim,
            request: id,
        },
        Body::StopFreeze {
            real,
            reason,
            behaviour,
            ..
        } => Body::StopFreeze {
            real,
            reason,
            behaviour,
            request: id,
        },
        Body::ActionRequest { action, datums, .. } => Body::ActionRequest {
            request: id,
            action,
            datums,
        },
        Body::DataQuery { interval, ids, .. } => Body::DataQuery {
            request: id,
            interval,
            ids,
        },
        Body::SetData { datums, .. } => Body::SetData {
            request: id,
            datums,
        },
        other => other,
    }
}

fn order_pdu(settings: &Settings, id: u32, order: Order, stamp: u32) -> Pdu
    ensures { result ≡ order_pdu settings.now id order stamp }
{
    let Order { target, body } = order;
    Pdu {
        version: Version::V7,
        exercise: settings.exercise,
        stamp,
        status: 0,
        origin: EntityId {
            site: settings.address.site(),
            application: settings.address.application(),
            entity: 0,
        },
        target,
        body: numbered(body, id),
    }
}

/// Identifier of the next order after `count` orders, if one is left.
fn next_id(settings: &Settings, count: usize) -> Option<u32>
    ensures { SomeIff result (next_id settings.now count < 2 ^ 32) (next_id settings.now count) }
{
    if count > (u32::MAX - settings.first_id) as usize {
        return None;
    }
    Some(settings.first_id + count as u32)
}

/// Makes an order, and appends it. Returns its identifier.
pub(crate) fn make(
    orders: &mut OrderTable,
    times: &mut Vec<u64>,
    settings: &Settings,
    order: Order,
    now: u64,
    stamp: u32,
) -> Result<u32, OrderFault>
    requires { IsRight settings.now times.old.items orders.old }
    ensures right { IsRight settings.now times.new.items orders.new }
    ensures refused { IfSome (refusal settings.now (index_map_len orders.old) order stamp) (λ fault. result ≡ Err fault) }
    ensures only { IfErr result (λ fault. refusal settings.now (index_map_len orders.old) order stamp ≡ reported_by fault) }
    ensures err { OnErr result (values orders.new ≡ values orders.old) }
    ensures id { IfOk result (λ id. id ≡ next_id settings.now (index_map_len orders.old)) }
    ensures made { OnOk result (values orders.new ≡ with_order settings.now order now stamp (values orders.old)) }
    ensures len { OnOk result (index_map_len orders.new ≡ index_map_len orders.old + 1) }
{
    let place = orders.len();
    let Some(id) = next_id(settings, place) else {
        return Err(OrderFault::IdsSpent);
    };
    let pdu = order_pdu(settings, id, order, stamp);
    if encoded_size(&pdu).is_none() {
        return Err(OrderFault::TooLong);
    }
    let kept = MadeOrder {
        pdu,
        sends: 1,
        last: now,
        standing: OrderStanding::Waiting,
    };
    let time = quiet_until(&kept, settings);
    times.reserve(1)?;
    orders.insert(id, kept)?;
    note(times, place, time);
    Ok(id)
}
