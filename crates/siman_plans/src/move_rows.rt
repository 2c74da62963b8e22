//! The rows of a plan: what each move did.

ghost use Rattle.std.specs.Prelude.{◌≡◌, ◌++◌, OnOk, slice_get, string_bytes, option_map, option_and_then};
ghost use Rattle.dis_records.specs.Texts.{entity_text, kind_text};
ghost use Rattle.siman_pdus.specs.Reading.{pdu_of};
ghost use Rattle.exercise_review.specs.Word.{word_text};
ghost use Rattle.siman_print.specs.Fields.{option_value};
ghost use Rattle.siman_print.specs.Line.{Number, Word as WordValue};
ghost use Rattle.siman_print.specs.Spelled.{lines_spelled};
ghost use Rattle.siman_plans.specs.declared.deed.Deed.TheVariants as deeds;
ghost use Rattle.siman_plans.specs.MoveLines.{pdu_at, entity_value, kind_value, origin_value, target_value, request_value, order_value, response_value, move_rows, deed_rows};

use crate::background::Background;
use crate::deed::{Deed, PlannedLine};
use crate::label_name::label_field;
use crate::values::{Response, order_word};
use dis_records::{Address, EntityId, EntityState, Kind};
use exercise_review::Word as AnswerWord;
use siman_pdus::{PduView, request_id};
use siman_print::{RowFields, Spelling, TextLine, Word, bare, keyed, kind_of, put_row};
use std::alloc::AllocError;

/// The kind of a PDU.
fn kind_in(pdu: &Option<PduView<'_>>) -> Option<Kind>
    ensures { option_value (λ k. WordValue (kind_text k)) result ≡ kind_value (option_map pdu_of pdu.now) }
{
    match pdu {
        Some(pdu) => Some(kind_of(&pdu.body)),
        None => None,
    }
}

/// The originating identifier of a PDU.
fn origin_in(pdu: &Option<PduView<'_>>) -> Option<EntityId>
    ensures { option_value (λ id. WordValue (entity_text id)) result ≡ origin_value (option_map pdu_of pdu.now) }
{
    match pdu {
        Some(pdu) => Some(pdu.origin),
        None => None,
    }
}

/// The receiving identifier of a PDU.
pub(crate) fn target_in(pdu: &Option<PduView<'_>>) -> Option<EntityId>
    ensures { option_value (λ id. WordValue (entity_text id)) result ≡ target_value (option_map pdu_of pdu.now) }
{
    match pdu {
        Some(pdu) => Some(pdu.target),
        None => None,
    }
}

/// The name of the line of an order.
fn order_in(pdu: &Option<PduView<'_>>) -> Option<Word<'static>>
    ensures { option_value (λ w. WordValue w.word.now) result ≡ order_value (option_map pdu_of pdu.now) }
{
    match pdu {
        Some(pdu) => Some(order_word(&pdu.body)),
        None => None,
    }
}

/// Kind and identifiers of a PDU, as fields.
#[derive(Clone, Copy)]
pub(crate) struct PduFields<'p, 'a>(pub(crate) &'p Option<PduView<'a>>);

impl<'p, 'a> RowFields for PduFields<'p, 'a> {
    ghost use Rattle.std.specs.Prelude.{option_map};
    ghost use Rattle.siman_pdus.specs.Reading.{pdu_of};
    ghost use Rattle.siman_plans.specs.MoveLines.{pdu_fields};

    ghost fields = { λ f. pdu_fields (option_map pdu_of f.0.now) };

    ghost most = { 240 };

    fn add_fields(&self, line: &mut TextLine, spelling: Spelling) {
        let fields = (
            keyed!("kind", kind_in(self.0)),
            keyed!("from", origin_in(self.0)),
            keyed!("to", target_in(self.0)),
        );
        fields.add_fields(line, spelling)
    }
}

/// The identifier of the request that a PDU is or answers.
fn request_of(pdu: &Option<PduView<'_>>) -> Option<u32>
    ensures { option_value Number result ≡ request_value (option_map pdu_of pdu.now) }
{
    match pdu {
        Some(pdu) => request_id(pdu),
        None => None,
    }
}

impl<'d, 'l> Background<'d, 'l> {
    /// The label of an index.
    fn label(&self, label: Option<usize>) -> Option<&'l [u8]>
        ensures { option_map (λ l. l.now) result ≡ option_and_then (λ i. slice_get self.now.labels i) label }
    {
        match label {
            Some(index) => self.labels.as_slice().get(index).copied(),
            None => None,
        }
    }

    /// The address of the station of an index.
    pub fn station(&self, station: u16) -> Option<Address>
        ensures { result ≡ slice_get self.now.stations station }
    {
        self.stations.as_slice().get(usize::from(station)).copied()
    }

    /// Writes the row of an order.
    fn put_order(
        &self,
        text: &mut String,
        row: &mut TextLine,
        spelling: Spelling,
        line: usize,
        order: (u16, u32, Option<usize>),
    ) -> Result<(), AllocError>
        ensures { OnOk result (string_bytes text.new ≡ string_bytes text.old ++ lines_spelled spelling (deed_rows self.now line (deeds.Ordered order.0 order.1 order.2))) }
    {
        let (station, sends, label) = order;
        let pdu = self.pdu_at(sends as usize);
        let name = order_in(&pdu);
        let fields = (
            keyed!("from", self.station(station)),
            keyed!("to", target_in(&pdu)),
            keyed!("request", request_of(&pdu)),
            keyed!("sends", sends),
            label_field(self.label(label)),
        );
        let fields = ((bare!("source", line), bare!("did", name)), fields);
        put_row(text, row, spelling, "move", &fields)
    }

    /// Writes the row of a repeat that was looked for.
    fn put_tick(
        &self,
        text: &mut String,
        row: &mut TextLine,
        spelling: Spelling,
        line: usize,
        tick: (u16, Option<u32>, Option<usize>),
    ) -> Result<(), AllocError>
        ensures { OnOk result (string_bytes text.new ≡ string_bytes text.old ++ lines_spelled spelling (deed_rows self.now line (deeds.Ticked tick.0 tick.1 tick.2))) }
    {
        let (station, sends, label) = tick;
        let pdu = match sends {
            Some(sends) => self.pdu_at(sends as usize),
            None => None,
        };
        let fields = (
            keyed!("at", self.station(station)),
            keyed!("repeats", request_of(&pdu)),
            keyed!("sends", sends),
            label_field(self.label(label)),
        );
        let name = Word::of("tick");
        let fields = ((bare!("source", line), bare!("did", name)), fields);
        put_row(text, row, spelling, "move", &fields)
    }

    /// The identifier of an entity of a station.
    fn entity(&self, station: u16, entity: u16) -> Option<EntityId>
        ensures { option_value (λ id. WordValue (entity_text id)) result ≡ entity_value self.now station entity }
    {
        let address = self.station(station)?;
        Some(EntityId {
            site: address.site(),
            application: address.application(),
            entity,
        })
    }

    /// Writes the row of a told state.
    fn put_told(
        &self,
        text: &mut String,
        row: &mut TextLine,
        spelling: Spelling,
        line: usize,
        told: (u16, u16, EntityState),
    ) -> Result<(), AllocError>
        ensures { OnOk result (string_bytes text.new ≡ string_bytes text.old ++ lines_spelled spelling (deed_rows self.now line (deeds.Told told.0 told.1 told.2))) }
    {
        let (station, entity, state) = told;
        let fields = (
            keyed!("entity", self.entity(station, entity)),
            keyed!("state", state),
        );
        let name = Word::of("tell");
        let fields = ((bare!("source", line), bare!("did", name)), fields);
        put_row(text, row, spelling, "move", &fields)
    }

    /// Writes the row of a delivery.
    fn put_delivery(
        &self,
        text: &mut String,
        row: &mut TextLine,
        spelling: Spelling,
        line: usize,
        delivery: (u16, u32, Option<u32>),
    ) -> Result<(), AllocError>
        ensures { OnOk result (string_bytes text.new ≡ string_bytes text.old ++ lines_spelled spelling (deed_rows self.now line (deeds.Brought delivery.0 delivery.1 delivery.2))) }
    {
        let (station, brings, answers) = delivery;
        let pdu = self.pdu_at(brings as usize);
        let fields = (
            (
                keyed!("at", self.station(station)),
                keyed!("brings", brings),
            ),
            PduFields(&pdu),
            (
                keyed!("request", request_of(&pdu)),
                keyed!("answers", answers),
                keyed!("response", self.response(answers)),
            ),
        );
        let name = Word::of("deliver");
        let fields = ((bare!("source", line), bare!("did", name)), fields);
        put_row(text, row, spelling, "move", &fields)
    }

    /// What an answer says.
    fn response(&self, answer: Option<u32>) -> Option<Response>
        ensures { option_value (λ r. WordValue (word_text r.0)) result ≡ response_value (option_and_then (pdu_at self.now) answer) }
    {
        let pdu = self.pdu_at(answer? as usize)?;
        Some(Response(AnswerWord::of(&pdu.body)?))
    }

    /// Writes the row of a line, if it made a move.
    pub fn put_rows(
        &self,
        text: &mut String,
        row: &mut TextLine,
        spelling: Spelling,
        planned: PlannedLine,
    ) -> Result<(), AllocError>
        ensures { OnOk result (string_bytes text.new ≡ string_bytes text.old ++ lines_spelled spelling (move_rows self.now planned)) }
    {
        let line = planned.line;
        match planned.did {
            Deed::Ordered {
                station,
                sends,
                label,
            } => self.put_order(text, row, spelling, line, (station, sends, label)),
            Deed::Ticked {
                station,
                sends,
                label,
            } => self.put_tick(text, row, spelling, line, (station, sends, label)),
            Deed::Told {
                station,
                entity,
                state,
            } => self.put_told(text, row, spelling, line, (station, entity, state)),
            Deed::Brought {
                station,
                brings,
                answers,
            } => self.put_delivery(text, row, spelling, line, (station, brings, answers)),
            Deed::Set { .. } | Deed::Lost { .. } => Ok(()),
        }
    }
}
