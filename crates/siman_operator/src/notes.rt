//! The notes of a session: rows that begin with `# `, between the rows of entries.

ghost use Rattle.std.specs.Prelude.{◌≡◌, ◌++◌, ◌+◌, OnOk, string_bytes};
ghost use Rattle.std.specs.Option.{option_map};
ghost use Rattle.siman_application.specs.Application.{came};
ghost use Rattle.siman_application.specs.Play.{state_over};
ghost use Rattle.siman_manager.specs.Viewed.{viewed};
ghost use Rattle.siman_print.specs.Spelled.{line_spelled, lines_spelled};
ghost use Rattle.siman_print.specs.Lent.{value_of};
ghost use Rattle.siman_print.specs.Values.{number_value};
ghost use Rattle.siman_print.specs.declared.spelling.Spelling.TheVariants.{Text};
ghost use Rattle.siman_operator.specs.Notes.{order_row, standing_order, at_place, due_row, due_rows, ready_at, ready_place, row_under, spent_at, again_row, tick_rows, standing_name, named_rows, standing_row, standing_rows, entity_row, entity_rows, rows_below};

use dis_records::{Address, EntityId, EntityState};
use siman_application::Application;
use siman_manager::{Manager, OrderStatus, OrderView};
use siman_pdus::{Message, Pdu, request_id};
use siman_print::{Field, Spelling, Value, put_named};
use std::alloc::AllocError;

/// One more than the greatest number of an entity.
const ENTITIES_END: u16 = 0xFFFE;

/// A number, or a missing value.
fn number_value(number: Option<u32>) -> Value<'static>
    ensures { value_of result ≡ number_value number }
{
    match number {
        Some(number) => Value::Number(u64::from(number)),
        None => Value::Missing,
    }
}

/// Writes the row of an order under a name, sent so often, the last time at `last`.
fn put_order_row(
    text: &mut String,
    name: &str,
    tries: u32,
    pdu: &Pdu,
    sends: u64,
    last: u64,
) -> Result<(), AllocError>
    ensures { OnOk result (string_bytes text.new ≡ string_bytes text.old ++ line_spelled Text (order_row name.now tries pdu.now sends last)) }
{
    let fields = [
        Field::Keyed("request", number_value(request_id(pdu))),
        Field::Bare("kind", Value::Kind(pdu.kind())),
        Field::Keyed("to", Value::Entity(&pdu.target)),
        Field::Keyed("sends", Value::Number(sends)),
        Field::Keyed("tries", Value::Number(u64::from(tries))),
        Field::Keyed("last", Value::Clock(last)),
    ];
    put_named(text, Spelling::Text, name, &fields)
}

/// Writes the row of an order as it stands.
fn put_order(
    text: &mut String,
    name: &str,
    tries: u32,
    order: OrderView<'_>,
) -> Result<(), AllocError>
    ensures { OnOk result (string_bytes text.new ≡ string_bytes text.old ++ line_spelled Text (standing_order name.now tries (viewed order.entry))) }
{
    let sends = u64::from(order.sends);
    put_order_row(text, name, tries, order.pdu, sends, order.last)
}

/// Writes the row of the order at a place, if it is due now and was not before.
fn put_due_at(
    text: &mut String,
    manager: &Manager,
    place: usize,
    before: u64,
    now: u64,
) -> Result<(), AllocError>
    ensures { OnOk result (string_bytes text.new ≡ string_bytes text.old ++ lines_spelled Text (at_place (due_row manager.now before now) manager.now place)) }
{
    match manager.order(place) {
        Some(order) => {
            if manager.is_due(place, now) && !manager.is_due(place, before) {
                put_order(text, "# due", manager.tries(), order)
            } else {
                Ok(())
            }
        }
        None => Ok(()),
    }
}

/// Writes the rows of the orders that are due now and were not before.
pub(crate) fn put_due(
    text: &mut String,
    manager: &Manager,
    before: u64,
    now: u64,
) -> Result<(), AllocError>
    ensures { OnOk result (string_bytes text.new ≡ string_bytes text.old ++ lines_spelled Text (due_rows manager.now before now)) }
{
    for place in 0..manager.order_count() {
        put_due_at(text, manager, place, before, now)?;
    }
    Ok(())
}

/// Whether a tick sends the order at a place again, if it comes so far.
fn is_ready_at(manager: &Manager, place: usize, now: u64) -> bool
    ensures { result ≡ ready_at manager.now now place }
{
    match manager.order(place) {
        Some(order) => manager.is_due(place, now) && order.sends < manager.tries(),
        None => false,
    }
}

/// The place of the order that a tick sends again, if it sends one.
#[tactic(auto, unfolding(crate::specs::Notes::ready_place))]
fn ready_place(manager: &Manager, now: u64) -> Option<usize>
    ensures { result ≡ ready_place manager.now now }
{
    for place in 0..manager.order_count() {
        if is_ready_at(manager, place, now) {
            return Some(place);
        }
    }
    None
}

/// Writes the row of the order at a place under a name.
fn put_under(
    text: &mut String,
    manager: &Manager,
    place: usize,
    name: &str,
) -> Result<(), AllocError>
    ensures { OnOk result (string_bytes text.new ≡ string_bytes text.old ++ lines_spelled Text (at_place (row_under name.now manager.now) manager.now place)) }
{
    match manager.order(place) {
        Some(order) => put_order(text, name, manager.tries(), order),
        None => Ok(()),
    }
}

/// Writes the row of the order at a place, if a tick gives it up.
fn put_spent_at(
    text: &mut String,
    manager: &Manager,
    place: usize,
    now: u64,
) -> Result<(), AllocError>
    ensures { OnOk result (string_bytes text.new ≡ string_bytes text.old ++ lines_spelled Text (spent_at manager.now now place)) }
{
    if manager.is_due(place, now) && !is_ready_at(manager, place, now) {
        put_under(text, manager, place, "# given-up")
    } else {
        Ok(())
    }
}

/// Writes the row of the order at a place, as a tick at this time sends it again.
fn put_again_at(
    text: &mut String,
    manager: &Manager,
    place: usize,
    now: u64,
) -> Result<(), AllocError>
    ensures { OnOk result (string_bytes text.new ≡ string_bytes text.old ++ lines_spelled Text (at_place (again_row manager.now now) manager.now place)) }
{
    match manager.order(place) {
        Some(order) => {
            let sends = u64::from(order.sends) + 1;
            put_order_row(text, "# again", manager.tries(), order.pdu, sends, now)
        }
        None => Ok(()),
    }
}

/// Writes the rows of the orders at the places below `end` that a tick gives up.
fn put_spent(text: &mut String, manager: &Manager, end: usize, now: u64) -> Result<(), AllocError>
    ensures { OnOk result (string_bytes text.new ≡ string_bytes text.old ++ lines_spelled Text (rows_below (spent_at manager.now now) end)) }
{
    for place in 0..end {
        put_spent_at(text, manager, place, now)?;
    }
    Ok(())
}

/// Writes the rows of what a tick at this time does to the orders: those that it gives up, and the
/// one that it sends again.
pub(crate) fn put_tick(text: &mut String, manager: &Manager, now: u64) -> Result<(), AllocError>
    ensures { OnOk result (string_bytes text.new ≡ string_bytes text.old ++ lines_spelled Text (tick_rows manager.now now)) }
{
    match ready_place(manager, now) {
        Some(place) => {
            put_spent(text, manager, place, now)?;
            put_again_at(text, manager, place, now)
        }
        None => put_spent(text, manager, manager.order_count(), now),
    }
}

/// What is said of an order that is not answered.
fn standing_name(due: bool, status: OrderStatus) -> Option<&'static str>
    ensures { option_map (λ name. name.now) result ≡ standing_name due status }
{
    match status {
        OrderStatus::Waiting(_) => Some(if due { "# due" } else { "# waiting" }),
        OrderStatus::Answered => None,
        OrderStatus::GivenUp => Some("# given-up"),
    }
}

/// Writes the row of an order with this name, if it has one.
fn put_named_order(
    text: &mut String,
    name: Option<&'static str>,
    tries: u32,
    order: OrderView<'_>,
) -> Result<(), AllocError>
    ensures { OnOk result (string_bytes text.new ≡ string_bytes text.old ++ lines_spelled Text (named_rows tries (viewed order.entry) (option_map (λ name. name.now) name.entry))) }
{
    match name {
        Some(name) => put_order(text, name, tries, order),
        None => Ok(()),
    }
}

/// Writes the row of the order at a place, if it is not answered.
fn put_standing_at(
    text: &mut String,
    manager: &Manager,
    place: usize,
    now: u64,
) -> Result<(), AllocError>
    ensures { OnOk result (string_bytes text.new ≡ string_bytes text.old ++ lines_spelled Text (at_place (standing_row manager.now now) manager.now place)) }
{
    match manager.order(place) {
        Some(order) => {
            let name = standing_name(manager.is_due(place, now), order.status);
            put_named_order(text, name, manager.tries(), order)
        }
        None => Ok(()),
    }
}

/// Writes the rows of the orders that are not answered.
pub(crate) fn put_standing(text: &mut String, manager: &Manager, now: u64) -> Result<(), AllocError>
    ensures { OnOk result (string_bytes text.new ≡ string_bytes text.old ++ lines_spelled Text (standing_rows manager.now now)) }
{
    for place in 0..manager.order_count() {
        put_standing_at(text, manager, place, now)?;
    }
    Ok(())
}

/// Writes the row of an entity in this state, if it is there.
fn put_entity(
    text: &mut String,
    address: Address,
    number: u16,
    state: EntityState,
) -> Result<(), AllocError>
    ensures { OnOk result (string_bytes text.new ≡ string_bytes text.old ++ lines_spelled Text (entity_row address number state)) }
{
    if state == EntityState::Absent {
        return Ok(());
    }
    let id = EntityId {
        site: address.site(),
        application: address.application(),
        entity: number,
    };
    let fields = [
        Field::Bare("entity", Value::Entity(&id)),
        Field::Bare("state", Value::State(state)),
    ];
    put_named(text, Spelling::Text, "# entity", &fields)
}

/// Writes the rows of the entities that are there.
pub(crate) fn put_entities(
    text: &mut String,
    address: Address,
    application: &Application,
) -> Result<(), AllocError>
    ensures { OnOk result (string_bytes text.new ≡ string_bytes text.old ++ lines_spelled Text (entity_rows address application.now)) }
{
    for number in 0..ENTITIES_END {
        put_entity(text, address, number, application.state(number))?;
    }
    Ok(())
}
