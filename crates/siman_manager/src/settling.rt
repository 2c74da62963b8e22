//! Whether an answer settles an order.

ghost use Rattle.std.specs.Prelude.{◌≡◌, ◌≤◌, ◌<◌, ◌-◌, ◌+◌, ℕ, List};
ghost use Rattle.std.specs.Option.{SomeIff};
ghost use Rattle.indexmap.specs.IndexMap.{keys, values, index_map_len};
ghost use Rattle.siman_manager.specs.Table.{IsNumbered};
ghost use Rattle.siman_manager.specs.Blocks.{IsRight};
ghost use Rattle.siman_manager.specs.Book.{settles, taken_by, settled, taken_as, after_take};

use crate::kept::{MadeOrder, OrderStanding, OrderTable};
use crate::order::Taken;
use crate::settings::Settings;
use siman_pdus::{ABLE, Body, Pdu, UNABLE, answers, request_id};

/// Whether an answer with this body settles the order that it answers.
fn settles(body: &Body) -> bool
    ensures { result ≡ settles body.now }
{
    match body {
        Body::Acknowledge { response, .. } => *response == ABLE || *response == UNABLE,
        Body::ActionResponse { result, .. } => !(*result == 1 || *result == 2 || *result == 3),
        Body::DataPdu { .. } => true,
        Body::CreateEntity { .. }
        | Body::RemoveEntity { .. }
        | Body::StartResume { .. }
        | Body::StopFreeze { .. }
        | Body::ActionRequest { .. }
        | Body::DataQuery { .. }
        | Body::SetData { .. }
        | Body::EventReport { .. }
        | Body::Comment { .. } => false,
    }
}

/// Meaning of a PDU of the exercise to the order with this identifier, which it may settle.
fn judge(kept: &mut MadeOrder, id: u32, pdu: &Pdu) -> Taken
    ensures answer { result ≡ taken_by id pdu.now kept.old }
    ensures after { kept.new ≡ settled pdu.now kept.old }
{
    if !answers(pdu, &kept.pdu) {
        return Taken::Foreign;
    }
    let settling = settles(&pdu.body);
    let standing = kept.standing;
    if settling {
        kept.standing = OrderStanding::Answered;
    }
    match standing {
        OrderStanding::Answered => Taken::Repeat(id),
        OrderStanding::Waiting | OrderStanding::GivenUp => {
            if settling {
                Taken::Answered(id)
            } else {
                Taken::Pending(id)
            }
        }
    }
}

/// Index of the order with this identifier, if any.
pub(crate) fn place_of(orders: &OrderTable, first_id: u32, id: u32) -> Option<usize>
    requires { IsNumbered first_id orders.now }
    ensures { SomeIff result ((first_id ≤ id) × (id < first_id + index_map_len orders.now)) (id - first_id) }
{
    orders.get_index_of(&id)
}

/// Takes a received PDU, by its request identifier. Returns its meaning to the manager.
pub(crate) fn take(orders: &mut OrderTable, settings: &Settings, pdu: &Pdu) -> Taken
    requires { IsNumbered settings.now.first_id orders.old }
    ensures keys { keys orders.new ≡ keys orders.old }
    ensures len { index_map_len orders.new ≡ index_map_len orders.old }
    ensures right { (times : List ℕ) → IsRight settings.now times orders.old → IsRight settings.now times orders.new }
    ensures answer { result ≡ taken_as settings.now pdu.now (values orders.old) }
    ensures after { values orders.new ≡ after_take settings.now pdu.now (values orders.old) }
{
    if pdu.exercise != settings.exercise {
        return Taken::Foreign;
    }
    let Some(id) = request_id(pdu) else {
        return Taken::Foreign;
    };
    let Some(place) = place_of(orders, settings.first_id, id) else {
        return Taken::Foreign;
    };
    judge(&mut orders[place], id, pdu)
}
