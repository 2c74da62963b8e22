//! The plain lines of statements: how the plain script of a plan spells them.

ghost use Rattle.std.specs.Prelude.{◌≡◌, ◌++◌, codes, decimal, OnOk};
ghost use Rattle.std.specs.List.{flat_map};
ghost use Rattle.dis_records.specs.Texts.{entity_text};
ghost use Rattle.siman_print.specs.Spelled.{address_text};
ghost use Rattle.siman_plans.specs.Plain.{behind, order_name, datum_words, order_words, act_text, at_text, rules_text, setup_text};

use dis_records::{Address, EntityId, FixedDatum};
use itoa::Buffer;
use siman_manager::Order;
use siman_pdus::Body;
use siman_scripts::{Act, ManagerRules, Statement};
use std::alloc::AllocError;

/// Appends words.
fn put_words(text: &mut Vec<u8>, words: &str) -> Result<(), AllocError>
    ensures { OnOk result (text.new.items ≡ text.old.items ++ words.now) }
{
    text.extend_from_slice(words.as_bytes())
}

/// Appends a number in decimal.
fn put_number(text: &mut Vec<u8>, number: u64) -> Result<(), AllocError>
    ensures { OnOk result (text.new.items ≡ text.old.items ++ decimal number) }
{
    let mut digits = Buffer::new();
    put_words(text, digits.format(number))
}

/// Appends a number behind a blank.
fn put_behind(text: &mut Vec<u8>, number: u64) -> Result<(), AllocError>
    ensures { OnOk result (text.new.items ≡ text.old.items ++ behind number) }
{
    put_words(text, " ")?;
    put_number(text, number)
}

/// Appends `S:A`.
fn put_address(text: &mut Vec<u8>, address: Address) -> Result<(), AllocError>
    ensures { OnOk result (text.new.items ≡ text.old.items ++ address_text address) }
{
    put_number(text, u64::from(address.site()))?;
    put_words(text, ":")?;
    put_number(text, u64::from(address.application()))
}

/// Appends `S:A:E`.
fn put_entity(text: &mut Vec<u8>, id: EntityId) -> Result<(), AllocError>
    ensures { OnOk result (text.new.items ≡ text.old.items ++ entity_text id) }
{
    put_number(text, u64::from(id.site))?;
    put_words(text, ":")?;
    put_number(text, u64::from(id.application))?;
    put_words(text, ":")?;
    put_number(text, u64::from(id.entity))
}

/// The name of the line of an order with this body; empty for the body of no order.
pub(crate) fn order_name(body: &Body) -> &'static str
    ensures { result.now ≡ order_name body.now }
{
    match body {
        Body::CreateEntity { .. } => "create",
        Body::RemoveEntity { .. } => "remove",
        Body::StartResume { .. } => "start",
        Body::StopFreeze { .. } => "stop",
        Body::ActionRequest { .. } => "do",
        Body::DataQuery { .. } => "query",
        Body::SetData { .. } => "set",
        _ => "",
    }
}

/// Appends numbers, each behind a blank.
fn put_numbers(text: &mut Vec<u8>, numbers: &[u32]) -> Result<(), AllocError>
    ensures { OnOk result (text.new.items ≡ text.old.items ++ flat_map behind numbers.now) }
{
    let mut others = numbers;
    while let [number, rest @ ..] = others {
        put_behind(text, u64::from(*number))?;
        others = rest;
    }
    Ok(())
}

/// Appends the identifier and the value of a datum, each behind a blank.
fn put_datum(text: &mut Vec<u8>, datum: FixedDatum) -> Result<(), AllocError>
    ensures { OnOk result (text.new.items ≡ text.old.items ++ datum_words datum) }
{
    put_behind(text, u64::from(datum.id))?;
    put_behind(text, u64::from(datum.value))
}

/// Appends datums.
fn put_datums(text: &mut Vec<u8>, datums: &[FixedDatum]) -> Result<(), AllocError>
    ensures { OnOk result (text.new.items ≡ text.old.items ++ flat_map datum_words datums.now) }
{
    let mut others = datums;
    while let [datum, rest @ ..] = others {
        put_datum(text, *datum)?;
        others = rest;
    }
    Ok(())
}

/// Appends the words behind the receiver of an order with this body.
fn put_order_words(text: &mut Vec<u8>, body: &Body) -> Result<(), AllocError>
    ensures { OnOk result (text.new.items ≡ text.old.items ++ order_words body.now) }
{
    match body {
        Body::ActionRequest { action, .. } => put_behind(text, u64::from(*action)),
        Body::DataQuery { ids, .. } => put_numbers(text, &ids.fixed),
        Body::SetData { datums, .. } => put_datums(text, &datums.fixed),
        _ => Ok(()),
    }
}

/// Appends the name of an order's line, the address behind it, and the receiver.
fn put_order_head(
    text: &mut Vec<u8>,
    name: &str,
    address: Address,
    target: EntityId,
) -> Result<(), AllocError>
    ensures { OnOk result (text.new.items ≡ text.old.items ++ (name.now ++ codes " " ++ address_text address ++ codes " " ++ entity_text target)) }
{
    put_words(text, name)?;
    put_words(text, " ")?;
    put_address(text, address)?;
    put_words(text, " ")?;
    put_entity(text, target)
}

/// Appends the plain line of an order.
fn put_order(text: &mut Vec<u8>, address: Address, order: &Order) -> Result<(), AllocError>
    ensures { OnOk result (text.new.items ≡ text.old.items ++ (order_name order.now.body ++ codes " " ++ address_text address ++ codes " " ++ entity_text order.now.target ++ order_words order.now.body ++ codes "\n")) }
{
    put_order_head(text, order_name(&order.body), address, order.target)?;
    put_order_words(text, &order.body)?;
    put_words(text, "\n")
}

/// Appends the plain line of a delivery.
fn put_delivery(text: &mut Vec<u8>, address: Address, datagram: u32) -> Result<(), AllocError>
    ensures { OnOk result (text.new.items ≡ text.old.items ++ (codes "deliver " ++ decimal datagram ++ codes " " ++ address_text address ++ codes "\n")) }
{
    put_words(text, "deliver ")?;
    put_number(text, u64::from(datagram))?;
    put_words(text, " ")?;
    put_address(text, address)?;
    put_words(text, "\n")
}

/// Appends the plain line of a move of the station of this address.
pub(crate) fn put_act(text: &mut Vec<u8>, address: Address, act: &Act) -> Result<(), AllocError>
    ensures { OnOk result (text.new.items ≡ text.old.items ++ act_text address act.now) }
{
    match act {
        Act::Command(order) => put_order(text, address, order),
        Act::Deliver(datagram) => put_delivery(text, address, *datagram),
        Act::Tick => {
            put_words(text, "tick ")?;
            put_address(text, address)?;
            put_words(text, "\n")
        }
        Act::Tell(entity) => {
            put_words(text, "tell ")?;
            put_address(text, address)?;
            put_behind(text, u64::from(*entity))?;
            put_words(text, "\n")
        }
    }
}

/// Appends the plain line of a time of the clocks.
pub(crate) fn put_at(text: &mut Vec<u8>, now: u64) -> Result<(), AllocError>
    ensures { OnOk result (text.new.items ≡ text.old.items ++ at_text now) }
{
    put_words(text, "at ")?;
    put_number(text, now)?;
    put_words(text, "\n")
}

/// Appends the words of a manager's rules.
fn put_rules(text: &mut Vec<u8>, rules: ManagerRules) -> Result<(), AllocError>
    ensures { OnOk result (text.new.items ≡ text.old.items ++ rules_text rules) }
{
    put_words(text, " first=")?;
    put_number(text, u64::from(rules.first_id))?;
    put_words(text, " tries=")?;
    put_number(text, u64::from(rules.tries))?;
    put_words(text, " wait=")?;
    put_number(text, rules.wait)
}

/// Appends the name of a line and the address behind it.
fn put_head(text: &mut Vec<u8>, name: &str, address: Address) -> Result<(), AllocError>
    ensures { OnOk result (text.new.items ≡ text.old.items ++ (name.now ++ address_text address)) }
{
    put_words(text, name)?;
    put_address(text, address)
}

/// Appends the plain line of the exercise, of a station or of what it opens with; nothing for other
/// statements.
pub(crate) fn put_setup(text: &mut Vec<u8>, statement: &Statement) -> Result<(), AllocError>
    ensures { OnOk result (text.new.items ≡ text.old.items ++ setup_text statement.now) }
{
    match statement {
        Statement::Exercise(exercise) => {
            put_words(text, "exercise ")?;
            put_number(text, u64::from(*exercise))?;
        }
        Statement::Station { address, rules } => {
            put_head(text, "station ", *address)?;
            put_rules(text, *rules)?;
        }
        Statement::Opening {
            address,
            entity,
            state,
        } => {
            put_head(text, "opening ", *address)?;
            put_behind(text, u64::from(*entity))?;
            put_words(text, " ")?;
            put_words(text, state.name())?;
        }
        Statement::Fixed { address, datum } => {
            put_head(text, "fixed ", *address)?;
            put_datum(text, *datum)?;
        }
        Statement::Action { address, id } => {
            put_head(text, "action ", *address)?;
            put_behind(text, u64::from(*id))?;
        }
        Statement::Nothing | Statement::At(_) | Statement::Does { .. } => return Ok(()),
    }
    put_words(text, "\n")
}
