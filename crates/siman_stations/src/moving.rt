//! One move of a station of a world.

ghost use Rattle.std.specs.Prelude.{◌≡◌, ◌⊎◌, ◌∷◌, [], ◌<◌, ◌≤◌, length, true, is_some, IfOk, IfErr, IfSome, OnOk, None, Some, slice_get, option_and_then};
ghost use Rattle.dis_records.specs.declared.header.TheConstants.{LARGEST_DATAGRAM};
ghost use Rattle.siman_pdus.specs.Reading.{reading};
ghost use Rattle.siman_pdus.specs.Spelling.{pdu_text};
ghost use Rattle.exercise_model.specs.Entry.{Told};
ghost use Rattle.exercise_model.specs.Station.{is_entity};
ghost use Rattle.siman_application.specs.Play.{state_over};
ghost use Rattle.siman_application.specs.Application.{came};
ghost use Rattle.siman_stations.specs.Asked.{order_fault, tell_fault};
ghost use Rattle.siman_stations.specs.Sending.{next_order, after_order, next_repeat, after_tick};
ghost use Rattle.siman_stations.specs.Acts.{HasRoom, Writes, RepeatsShort, AreShort, Gives, LacksMemory, Keeps, at_move, Goes, send_fault, as_move, sends_of, turn_if, halves_fault, halves_entries};
ghost use Rattle.siman_stations.specs.Moments.{moment_of};
ghost use Rattle.siman_stations.specs.StationTurn.{stamp_of, sent_as, TakesBoth};
ghost use Rattle.siman_stations.specs.Sending.{IsOrderInRange};
ghost use Rattle.siman_stations.specs.WorldLaw.{IsActInRange};

use crate::journal::Journal;
use crate::world_fault::{MoveFault, WorldFault};
use crate::{Moment, Node, OrderTextFault, TurnFault, order_text, repeat_text, take_turn};
use exercise_model::{LogFault, is_entity};
use siman_manager::{Order, OrderFault};
use siman_pdus::EncodeFault;
use siman_scripts::Act;
use std::alloc::{AllocError, Global};

/// Why a move was not made.
#[derive(Drop)]
pub enum StepFault {
    /// It cannot be made.
    Move(MoveFault),
    /// Memory ran out.
    Memory,
}

impl StepFault {
    /// Fault of a world whose move of this number was not made.
    pub fn at(self, number: usize) -> WorldFault
        ensures { result ≡ at_move number self }
    {
        match self {
            StepFault::Move(fault) => WorldFault::Move(number, fault),
            StepFault::Memory => WorldFault::Memory,
        }
    }
}

impl From<AllocError> for StepFault {
    ghost use Rattle.std.specs.Prelude.{◌≡◌};
    ghost use Rattle.siman_stations.specs.declared.moving.StepFault.TheVariants.{Memory};

    ghost from_gives = { λ _ e. e ≡ Memory };

    fn from(_e: AllocError) -> StepFault {
        StepFault::Memory
    }
}

/// Makes an order, and writes its PDU into `text`.
fn make_order(node: &mut Node, now: u64, order: Order, text: &mut Vec<u8>) -> Result<(), StepFault>
    ensures node { OnOk result (node.new ≡ after_order node.old (moment_of now) order) }
    ensures text { OnOk result (text.new.items ≡ pdu_text (next_order node.old.manager (stamp_of now) order)) }
    ensures size { OnOk result (length text.new.items ≤ LARGEST_DATAGRAM) }
    ensures made { OnOk result (as_move (order_fault node.old.manager (stamp_of now) order) ≡ None) }
    ensures in_range { OnOk result (IsOrderInRange order) }
    ensures fault { IfErr result (Gives (as_move (order_fault node.old.manager (stamp_of now) order))) }
    ensures kept { IfErr result (λ fault. (fault ≡ StepFault.Memory) ⊎ (node.new ≡ node.old)) }
{
    if !order.body.is_request() {
        return Err(StepFault::Move(MoveFault::NotARequest));
    }
    match order_text(node, Moment::relative(now), order, text) {
        Ok(_) => Ok(()),
        Err(OrderTextFault::Order(OrderFault::Memory) | OrderTextFault::Memory) => {
            Err(StepFault::Memory)
        }
        Err(OrderTextFault::Order(fault)) => Err(StepFault::Move(MoveFault::Order(fault))),
    }
}

/// Writes the repeat that is due into `text`, if any. Returns whether one is due.
fn make_repeat(node: &mut Node, now: u64, text: &mut Vec<u8>) -> Result<bool, AllocError>
    requires { RepeatsShort node.old.manager }
    ensures node { OnOk result (node.new ≡ after_tick node.old (moment_of now)) }
    ensures due { IfOk result (λ due. due ≡ is_some (next_repeat node.old.manager (moment_of now))) }
    ensures text { OnOk result (IfSome (next_repeat node.old.manager (moment_of now)) (λ p. text.new.items ≡ pdu_text p)) }
    ensures size { IfOk result (λ due. due ≡ true → length text.new.items ≤ LARGEST_DATAGRAM) }
{
    match repeat_text(node, Moment::relative(now), text) {
        Ok(due) => Ok(due),
        Err(EncodeFault::Memory) => Err(AllocError),
        Err(EncodeFault::TooLong) => unreachable!(),
    }
}

/// Makes an order of a station, and sends it.
fn command(
    alloc: Global,
    journal: &mut Journal,
    node: &mut Node,
    station: u16,
    now: u64,
    order: Order,
) -> Result<(), StepFault>
    requires { HasRoom station journal.old.recording }
    ensures entries { OnOk result (Writes (sent_as station now (Some (next_order node.old.manager (stamp_of now) order))) journal.old journal.new) }
    ensures halves { OnOk result (node.new ≡ after_order node.old (moment_of now) order) }
    ensures made { OnOk result (as_move (order_fault node.old.manager (stamp_of now) order) ≡ None) }
    ensures in_range { OnOk result (IsOrderInRange order) }
    ensures fault { IfErr result (Gives (as_move (order_fault node.old.manager (stamp_of now) order))) }
    ensures kept { IfErr result (Keeps journal.old node.old journal.new node.new) }
{
    make_order(node, now, order, &mut journal.text)?;
    journal.send(alloc, station, now)?;
    Ok(())
}

/// Sends the repeat of a station that is due, if any.
fn tick(
    alloc: Global,
    journal: &mut Journal,
    node: &mut Node,
    station: u16,
    now: u64,
) -> Result<(), AllocError>
    requires room { HasRoom station journal.old.recording }
    requires short { RepeatsShort node.old.manager }
    ensures entries { OnOk result (Writes (sent_as station now (next_repeat node.old.manager (moment_of now))) journal.old journal.new) }
    ensures halves { OnOk result (node.new ≡ after_tick node.old (moment_of now)) }
{
    if make_repeat(node, now, &mut journal.text)? {
        journal.send(alloc, station, now)?;
    }
    Ok(())
}

/// Fault of a turn that had room for its entries: always that memory ran out.
fn of_turn(fault: TurnFault<LogFault>) -> StepFault
    requires { LacksMemory fault }
    ensures { result ≡ StepFault.Memory }
{
    match fault {
        TurnFault::Memory | TurnFault::Record(LogFault::Memory) => StepFault::Memory,
        TurnFault::Record(LogFault::Argument | LogFault::Count) => unreachable!(),
    }
}

/// Delivers the datagram of this number to a station, and sends its reply, if one is due.
fn deliver(
    alloc: Global,
    journal: &mut Journal,
    node: &mut Node,
    station: u16,
    now: u64,
    number: u32,
) -> Result<(), StepFault>
    requires room { HasRoom station journal.old.recording }
    requires short { AreShort (sends_of journal.old) }
    ensures entries { OnOk result (Writes (turn_if node.old.application station now (slice_get (sends_of journal.old) number)) journal.old journal.new) }
    ensures halves { OnOk result (TakesBoth (option_and_then reading (slice_get (sends_of journal.old) number)) node.old node.new) }
    ensures sent { OnOk result (number < length (sends_of journal.old)) }
    ensures fault { IfErr result (Gives (send_fault (sends_of journal.old) number)) }
    ensures kept { IfErr result (Keeps journal.old node.old journal.new node.new) }
{
    let number = number as usize;
    if number >= journal.sends.len() {
        return Err(StepFault::Move(MoveFault::NoSuchSend));
    }
    let turn = take_turn(
        alloc,
        &mut journal.recording,
        node,
        station,
        Moment::relative(now),
        &journal.sends[number],
        &mut journal.text,
    );
    match turn {
        Ok(true) => {
            journal.number(alloc)?;
            Ok(())
        }
        Ok(false) => Ok(()),
        Err(fault) => Err(of_turn(fault)),
    }
}

/// Records the state of an entity of a station as told.
fn tell(journal: &mut Journal, node: &Node, station: u16, entity: u16) -> Result<(), StepFault>
    requires { HasRoom station journal.old.recording }
    ensures entries { OnOk result (Writes (Told station entity (state_over node.now.application.outfit (came node.now.application) entity) ∷ []) journal.old journal.new) }
    ensures entity { OnOk result (is_entity entity ≡ true) }
    ensures fault { IfErr result (Gives (as_move (tell_fault entity))) }
    ensures kept { IfErr result (Keeps journal.old node.now journal.new node.now) }
{
    if !is_entity(entity) {
        return Err(StepFault::Move(MoveFault::NoSuchEntity));
    }
    let state = node.application.state(entity);
    journal.tell(station, entity, state)?;
    Ok(())
}

/// Makes a station do an act.
pub(crate) fn act_at(
    alloc: Global,
    journal: &mut Journal,
    node: &mut Node,
    station: u16,
    now: u64,
    act: Act,
) -> Result<(), StepFault>
    requires room { HasRoom station journal.old.recording }
    requires short { AreShort (sends_of journal.old) }
    requires repeats { RepeatsShort node.old.manager }
    ensures entries { OnOk result (Writes (halves_entries (sends_of journal.old) node.old station now act) journal.old journal.new) }
    ensures halves { OnOk result (Goes (sends_of journal.old) now act node.old node.new) }
    ensures done { OnOk result (halves_fault (sends_of journal.old) node.old now act ≡ None) }
    ensures in_range { OnOk result (IsActInRange act) }
    ensures fault { IfErr result (Gives (halves_fault (sends_of journal.old) node.old now act)) }
    ensures kept { IfErr result (Keeps journal.old node.old journal.new node.new) }
{
    match act {
        Act::Command(order) => command(alloc, journal, node, station, now, order),
        Act::Deliver(number) => deliver(alloc, journal, node, station, now, number),
        Act::Tick => {
            tick(alloc, journal, node, station, now)?;
            Ok(())
        }
        Act::Tell(entity) => tell(journal, node, station, entity),
    }
}
