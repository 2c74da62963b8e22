//! The turn of one station: how it handles a received datagram.

ghost use Rattle.std.specs.Prelude.{◌≡◌, ◌≤◌, ◌+◌, [], length, true, Err, Some, None, is_some, IfOk, IfErr, IfSome, OnOk, vec_len, vec_capacity};
ghost use Rattle.dis_records.specs.declared.header.TheConstants.{LARGEST_DATAGRAM};
ghost use Rattle.siman_pdus.specs.Reading.{reading};
ghost use Rattle.siman_pdus.specs.Spelling.{pdu_text};
ghost use Rattle.siman_application.specs.Application.{Leaves, Takes};
ghost use Rattle.siman_stations.specs.StationTurn.{sent_as, reply_due, RecordsAll, TakesBoth, turn_entries, FailsAnswer, FailsTurn};

use crate::moment::Moment;
use crate::recorder::Recorder;
use dis_records::LARGEST_DATAGRAM;
use siman_application::{AppFault, Application};
use siman_manager::Manager;
use siman_pdus::{Pdu, PduFault, decode, encode};
use std::alloc::Global;

/// The application and the manager of a station.
#[derive(Drop)]
pub struct Node {
    /// Takes requests and answers them.
    pub application: Application,
    /// Makes orders and takes their answers.
    pub manager: Manager,
}

/// Why a turn was not done whole.
#[derive(Clone, Copy, Debug, Drop, PartialEq, Eq)]
pub enum TurnFault<F> {
    /// An entry was not recorded.
    Record(F),
    /// Memory ran out.
    Memory,
}

/// Writes the reply to a PDU into `text`, if one is due. Returns whether one is.
fn reply(
    application: &mut Application,
    pdu: &Pdu,
    stamp: u32,
    text: &mut Vec<u8>,
) -> Result<bool, AppFault>
    requires empty { text.old.items ≡ [] }
    requires room { vec_len text.old + LARGEST_DATAGRAM ≤ vec_capacity text.old }
    ensures leaves { Leaves application.old pdu.now result application.new }
    ensures due { IfOk result (λ due. due ≡ is_some (reply_due application.old (Some pdu.now) stamp)) }
    ensures text { OnOk result (IfSome (reply_due application.old (Some pdu.now) stamp) (λ p. text.new.items ≡ pdu_text p)) }
    ensures size { IfOk result (λ due. due ≡ true → length text.new.items ≤ LARGEST_DATAGRAM) }
{
    match application.take(pdu, stamp)? {
        Some(answer) => {
            encode(answer, text).unwrap();
            Ok(true)
        }
        None => Ok(false),
    }
}

/// Writes the reply to a received PDU into `text`, if one is due, and records it. Returns whether
/// one is.
fn answer<R: Recorder>(
    alloc: Global,
    recorder: &mut R,
    application: &mut Application,
    station: u16,
    moment: Moment,
    pdu: &Pdu,
    text: &mut Vec<u8>,
) -> Result<bool, TurnFault<R::Fault>>
    ensures entries { OnOk result (RecordsAll R.records (sent_as station moment.now (reply_due application.old (Some pdu.now) moment.stamp)) recorder.old recorder.new) }
    ensures takes { OnOk result (Takes application.old pdu.now application.new) }
    ensures due { IfOk result (λ due. due ≡ is_some (reply_due application.old (Some pdu.now) moment.stamp)) }
    ensures text { OnOk result (IfSome (reply_due application.old (Some pdu.now) moment.stamp) (λ p. text.new.items ≡ pdu_text p)) }
    ensures err { IfErr result (λ fault. FailsAnswer R.refuses station moment pdu.now fault recorder.old recorder.new application.old application.new) }
{
    // The memory is reserved before the application acts.
    text.clear();
    if text.reserve(LARGEST_DATAGRAM).is_err() {
        return Err(TurnFault::Memory);
    }
    match reply(application, pdu, moment.stamp, text) {
        Ok(true) => match recorder.record_sent(alloc, station, moment.now, text) {
            Ok(()) => Ok(true),
            Err(fault) => Err(TurnFault::Record(fault)),
        },
        Ok(false) => Ok(false),
        Err(_) => Err(TurnFault::Memory),
    }
}

/// Makes the turn of a station that received a datagram: records it as received, lets the
/// application answer its PDU, if it is one, records the answer as sent, and lets the manager take
/// the PDU. Returns whether there is an answer, which is to be sent and whose text is then in
/// `text`. A datagram that is no PDU is recorded and nothing more. If memory runs out, the datagram
/// is recorded, and application and manager are unchanged, so that a later copy is answered.
pub fn take_turn<R: Recorder>(
    alloc: Global,
    recorder: &mut R,
    node: &mut Node,
    station: u16,
    moment: Moment,
    bytes: &[u8],
    text: &mut Vec<u8>,
) -> Result<bool, TurnFault<R::Fault>>
    ensures entries { OnOk result (RecordsAll R.records (turn_entries node.old.application station moment bytes.now) recorder.old recorder.new) }
    ensures halves { OnOk result (TakesBoth (reading bytes.now) node.old node.new) }
    ensures due { IfOk result (λ due. due ≡ is_some (reply_due node.old.application (reading bytes.now) moment.stamp)) }
    ensures text { OnOk result (IfSome (reply_due node.old.application (reading bytes.now) moment.stamp) (λ p. text.new.items ≡ pdu_text p)) }
    ensures err { IfErr result (λ fault. FailsTurn R.records R.refuses station moment bytes.now fault recorder.old recorder.new node.old node.new) }
{
    if let Err(fault) = recorder.record_received(alloc, station, moment.now, bytes) {
        return Err(TurnFault::Record(fault));
    }
    match decode(alloc, bytes) {
        Ok(pdu) => {
            let application = &mut node.application;
            let answered = answer(alloc, recorder, application, station, moment, &pdu, text)?;
            let _ = node.manager.take(&pdu);
            Ok(answered)
        }
        Err(PduFault::Memory) => Err(TurnFault::Memory),
        Err(_) => Ok(false),
    }
}
