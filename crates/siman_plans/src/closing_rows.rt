//! The rows behind those of the moves of a plan: datagrams that are brought to nobody or more than
//! once, and warnings.

ghost use Rattle.std.specs.Prelude.{◌≡◌, ◌≤◌, ◌+◌, ◌++◌, ◌∷◌, [], length, OnOk, slice_get, string_bytes, option_map, Some, None, if◌then◌else◌};
ghost use Rattle.std.specs.List.{list_any};
ghost use Rattle.dis_records.specs.Entity.{is_addressed};
ghost use Rattle.siman_pdus.specs.Reading.{pdu_of};
ghost use Rattle.dis_records.specs.Texts.{entity_text};
ghost use Rattle.siman_print.specs.Fields.{option_value};
ghost use Rattle.siman_print.specs.Line.{Word as WordValue, named_line};
ghost use Rattle.siman_print.specs.Spelled.{address_text, lines_spelled, line_spelled};
ghost use Rattle.siman_plans.specs.ClosingLines.{is_unheard, is_undelivered, lost_row, lost_rows, copied_row, copies_of, copied_rows, warning_row, nobody_of, nobody_rows, is_missed, undelivered_rows, is_astray, astray_rows, order_warnings, delivery_warnings, warnings_of};

use crate::background::Background;
use crate::deed::{Deed, PlannedLine, Receipt, SentDatagram};
use crate::move_rows::{PduFields, target_in};
use dis_records::{Address, EntityId, addressed};
use siman_pdus::PduView;
use siman_print::{RowFields, Spelling, TextLine, Word, bare, keyed, put_row};
use std::alloc::AllocError;

impl SentDatagram {
    /// Whether it is brought to nobody.
    fn is_unheard(&self) -> bool
        ensures { result ≡ is_unheard self.now }
    {
        self.receipts.is_empty()
    }

    /// Whether it is brought to nobody, and not meant to be lost.
    fn is_undelivered(&self) -> bool
        ensures { result ≡ is_undelivered self.now }
    {
        self.is_unheard() && !self.is_meant
    }
}

/// An identifier, unless this holds.
fn unless(holds: bool, id: EntityId) -> Option<EntityId>
    ensures { result ≡ (if holds then None else Some id) }
{
    if holds { None } else { Some(id) }
}

/// Writes a row as the one row of a list; the buffer is overwritten.
fn put_one<F: RowFields>(
    text: &mut String,
    row: &mut TextLine,
    spelling: Spelling,
    name: &str,
    fields: &F,
) -> Result<(), AllocError>
    requires short { length name.now ≤ 14 }
    requires room { 32 + F.most ≤ 1024 }
    ensures { OnOk result (string_bytes text.new ≡ string_bytes text.old ++ lines_spelled spelling (named_line name.now (F.fields fields.now) ∷ [])) }
{
    put_row(text, row, spelling, name, fields)
}

/// Writes the row of a warning; the buffer is overwritten.
fn put_warning<F: RowFields + Drop>(
    text: &mut String,
    row: &mut TextLine,
    spelling: Spelling,
    line: usize,
    name: Word<'_>,
    fields: F,
) -> Result<(), AllocError>
    requires { 110 + F.most ≤ 1024 }
    ensures { OnOk result (string_bytes text.new ≡ string_bytes text.old ++ lines_spelled spelling (warning_row line name.entry.word.now (F.fields fields) ∷ [])) }
{
    let fields = ((bare!("source", line), bare!("name", name)), fields);
    put_row(text, row, spelling, "warning", &fields)
}

/// Writes the warning of an order that addresses no station of the source, if it has such a
/// receiver.
fn put_nobody(
    text: &mut String,
    row: &mut TextLine,
    spelling: Spelling,
    line: usize,
    to: Option<EntityId>,
) -> Result<(), AllocError>
    ensures { OnOk result (string_bytes text.new ≡ string_bytes text.old ++ lines_spelled spelling (nobody_rows line to)) }
{
    match to {
        Some(to) => {
            let name = Word::of("nobody");
            put_warning(text, row, spelling, line, name, keyed!("to", to))
        }
        None => Ok(()),
    }
}

/// Whether there is a datagram that is brought to nobody, and is not meant to be lost.
fn is_missed(datagram: Option<&SentDatagram>) -> bool
    ensures { result ≡ is_missed (option_map (λ d. d.now) datagram.entry) }
{
    match datagram {
        Some(datagram) => datagram.is_undelivered(),
        None => false,
    }
}

/// Writes the warning of an order that is not delivered, if it is not.
fn put_undelivered(
    text: &mut String,
    row: &mut TextLine,
    spelling: Spelling,
    line: usize,
    order: (u32, bool),
) -> Result<(), AllocError>
    ensures { OnOk result (string_bytes text.new ≡ string_bytes text.old ++ lines_spelled spelling (undelivered_rows line order.0 order.1)) }
{
    let (number, is_missed) = order;
    if is_missed {
        let name = Word::of("undelivered");
        let fields = keyed!("datagram", number);
        return put_warning(text, row, spelling, line, name, fields);
    }
    Ok(())
}

/// Writes the warnings of an order: the receiver that is no station's, and whether it is not
/// delivered.
#[tactic(auto, using(crate::proofs::Joined::rows_joined))]
fn put_order_notes(
    text: &mut String,
    row: &mut TextLine,
    spelling: Spelling,
    order: (usize, u32),
    to: Option<EntityId>,
    is_missed: bool,
) -> Result<(), AllocError>
    ensures { OnOk result (string_bytes text.new ≡ string_bytes text.old ++ lines_spelled spelling (nobody_rows order.0 to ++ undelivered_rows order.0 order.1 is_missed)) }
{
    let (line, number) = order;
    put_nobody(text, row, spelling, line, to)?;
    put_undelivered(text, row, spelling, line, (number, is_missed))
}

/// Writes the warning of a delivery that is astray, if it is, given the station and the receiver.
fn put_astray(
    text: &mut String,
    row: &mut TextLine,
    spelling: Spelling,
    line: usize,
    places: (Option<Address>, Option<EntityId>),
    is_astray: bool,
) -> Result<(), AllocError>
    ensures { OnOk result (string_bytes text.new ≡ string_bytes text.old ++ lines_spelled spelling (astray_rows line (option_value (λ a. WordValue (address_text a)) places.0) (option_value (λ id. WordValue (entity_text id)) places.1) is_astray)) }
{
    let (at, to) = places;
    if is_astray {
        let name = Word::of("not-addressed");
        let places = (keyed!("at", at), keyed!("to", to));
        let fields = ((bare!("source", line), bare!("name", name)), places);
        return put_one(text, row, spelling, "warning", &fields);
    }
    Ok(())
}

impl<'d, 'l> Background<'d, 'l> {
    /// Writes the row of a datagram that is brought to nobody.
    fn put_lost_row(
        &self,
        text: &mut String,
        row: &mut TextLine,
        spelling: Spelling,
        number: usize,
        datagram: &SentDatagram,
    ) -> Result<(), AllocError>
        ensures { OnOk result (string_bytes text.new ≡ string_bytes text.old ++ line_spelled spelling (lost_row self.now number datagram.now)) }
    {
        let pdu = self.pdu_at(number);
        let fields = (
            bare!("datagram", number),
            keyed!("source", datagram.line),
            PduFields(&pdu),
        );
        put_row(text, row, spelling, "lost", &fields)
    }

    /// Writes the rows of the datagrams that are brought to nobody.
    pub fn put_lost(
        &self,
        text: &mut String,
        row: &mut TextLine,
        spelling: Spelling,
        sent: &[SentDatagram],
    ) -> Result<(), AllocError>
        ensures { OnOk result (string_bytes text.new ≡ string_bytes text.old ++ lines_spelled spelling (lost_rows self.now 0 sent.now)) }
    {
        let (mut number, mut others) = (0, sent);
        while let [datagram, rest @ ..] = others {
            if datagram.is_unheard() {
                self.put_lost_row(text, row, spelling, number, datagram)?;
            }
            number += 1;
            others = rest;
        }
        Ok(())
    }

    /// Writes the row of a datagram that is brought to a station more than once.
    fn put_copied_row(
        &self,
        text: &mut String,
        row: &mut TextLine,
        spelling: Spelling,
        copied: (usize, usize),
        receipt: Receipt,
    ) -> Result<(), AllocError>
        ensures { OnOk result (string_bytes text.new ≡ string_bytes text.old ++ line_spelled spelling (copied_row self.now copied.0 copied.1 receipt)) }
    {
        let (number, line) = copied;
        let fields = (
            bare!("datagram", number),
            keyed!("source", line),
            keyed!("at", self.station(receipt.station)),
            keyed!("times", receipt.times),
        );
        put_row(text, row, spelling, "copied", &fields)
    }

    /// Writes the rows of the stations to which a datagram is brought more than once.
    fn put_copies(
        &self,
        text: &mut String,
        row: &mut TextLine,
        spelling: Spelling,
        copied: (usize, usize),
        receipts: &[Receipt],
    ) -> Result<(), AllocError>
        ensures { OnOk result (string_bytes text.new ≡ string_bytes text.old ++ lines_spelled spelling (copies_of self.now copied.0 copied.1 receipts.now)) }
    {
        let mut others = receipts;
        while let [receipt, rest @ ..] = others {
            if receipt.times >= 2 {
                self.put_copied_row(text, row, spelling, copied, *receipt)?;
            }
            others = rest;
        }
        Ok(())
    }

    /// Writes the rows of the datagrams that are brought to a station more than once.
    pub fn put_copied(
        &self,
        text: &mut String,
        row: &mut TextLine,
        spelling: Spelling,
        sent: &[SentDatagram],
    ) -> Result<(), AllocError>
        ensures { OnOk result (string_bytes text.new ≡ string_bytes text.old ++ lines_spelled spelling (copied_rows self.now 0 sent.now)) }
    {
        let (mut number, mut others) = (0, sent);
        while let [datagram, rest @ ..] = others {
            let copied = (number, datagram.line);
            self.put_copies(text, row, spelling, copied, &datagram.receipts)?;
            number += 1;
            others = rest;
        }
        Ok(())
    }

    /// Whether a receiver is that of a station of the source.
    fn addresses_any(&self, to: EntityId) -> bool
        ensures { result ≡ list_any (λ a. is_addressed to a) self.now.stations }
    {
        self.stations.iter().any(|station| addressed(to, *station))
    }

    /// The receiver of an order that addresses no station of the source.
    fn nobody_of(&self, pdu: &Option<PduView<'_>>) -> Option<EntityId>
        ensures { result ≡ nobody_of self.now (option_map pdu_of pdu.now) }
    {
        match pdu {
            Some(pdu) => unless(self.addresses_any(pdu.target), pdu.target),
            None => None,
        }
    }

    /// Whether a PDU is brought to a station that it does not address.
    fn is_astray(&self, pdu: &Option<PduView<'_>>, station: u16) -> bool
        ensures { result ≡ is_astray (option_map pdu_of pdu.now) (slice_get self.now.stations station) }
    {
        match (pdu, self.station(station)) {
            (Some(pdu), Some(station)) => !addressed(pdu.target, station),
            _ => false,
        }
    }

    /// Writes the warnings of an order.
    fn put_order_warnings(
        &self,
        text: &mut String,
        row: &mut TextLine,
        spelling: Spelling,
        sent: &[SentDatagram],
        order: (usize, u32),
    ) -> Result<(), AllocError>
        ensures { OnOk result (string_bytes text.new ≡ string_bytes text.old ++ lines_spelled spelling (order_warnings self.now sent.now order.0 order.1)) }
    {
        let number = order.1;
        let to = self.nobody_of(&self.pdu_at(number as usize));
        let is_missed = is_missed(sent.get(number as usize));
        put_order_notes(text, row, spelling, order, to, is_missed)
    }

    /// Writes the warning of a delivery, if it is astray.
    fn put_delivery_warnings(
        &self,
        text: &mut String,
        row: &mut TextLine,
        spelling: Spelling,
        line: usize,
        delivery: (u16, u32),
    ) -> Result<(), AllocError>
        ensures { OnOk result (string_bytes text.new ≡ string_bytes text.old ++ lines_spelled spelling (delivery_warnings self.now line delivery.0 delivery.1)) }
    {
        let (station, brings) = delivery;
        let pdu = self.pdu_at(brings as usize);
        let places = (self.station(station), target_in(&pdu));
        let is_astray = self.is_astray(&pdu, station);
        put_astray(text, row, spelling, line, places, is_astray)
    }

    /// Writes the warnings of a line.
    pub fn put_warnings(
        &self,
        text: &mut String,
        row: &mut TextLine,
        spelling: Spelling,
        sent: &[SentDatagram],
        planned: PlannedLine,
    ) -> Result<(), AllocError>
        ensures { OnOk result (string_bytes text.new ≡ string_bytes text.old ++ lines_spelled spelling (warnings_of self.now sent.now planned)) }
    {
        let line = planned.line;
        match planned.did {
            Deed::Set { is_back: true } => {
                put_warning(text, row, spelling, line, Word::of("back"), ())
            }
            Deed::Ordered { sends, .. } => {
                self.put_order_warnings(text, row, spelling, sent, (line, sends))
            }
            Deed::Brought {
                station,
                brings,
                ..
            } => self.put_delivery_warnings(text, row, spelling, line, (station, brings)),
            _ => Ok(()),
        }
    }
}
