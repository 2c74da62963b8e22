//! Encodes PDUs to datagrams.

ghost use Rattle.std.specs.Prelude.{◌≡◌, ◌+◌, ◌<◌, ◌≤◌, ◌++◌, ◌↔◌, [], ◌∷◌, OnOk, OnErr, Err, vec_len, vec_capacity};
ghost use Rattle.std.specs.Int.{w16, w32};
ghost use Rattle.dis_records.specs.declared.header.TheConstants.{LARGEST_DATAGRAM};
ghost use Rattle.dis_records.specs.ClockTime.{clock_time_layout};
ghost use Rattle.dis_records.specs.Datum.{fixed_layouts, variable_layout, variable_layouts, id_layouts};
ghost use Rattle.dis_records.specs.Entity.{entity_layout};
ghost use Rattle.dis_records.specs.Header.{header_layout};
ghost use Rattle.dis_records.specs.Layout.{Byte, Number, Padding, size};
ghost use Rattle.siman_pdus.specs.Spelling.{records_layout, id_lists_layout, body_kind, body_layout, pdu_layout, pdu_size, pdu_text, HasCarriedStatus, Spells, carried};
ghost use Rattle.siman_pdus.specs.Writing.{HasRoom, Puts};

use crate::fault::EncodeFault;
use crate::pdu::{Body, Pdu};
use crate::size::encoded_size;
use dis_records::{
    ClockTime, EntityId, FixedDatum, Header, Kind, VariableDatum, padded_size, write_header,
};

// Each of these appends fields to a vector that has room for them.

fn put_u8(out: &mut Vec<u8>, number: u8)
    requires { HasRoom out.old 1 }
    ensures { Puts (Byte number ∷ []) out.old out.new }
{
    out.push(number).unwrap();
}

#[tactic(auto, using(crate::proofs::Texts::fits16))]
fn put_u16(out: &mut Vec<u8>, number: u16)
    requires { HasRoom out.old 2 }
    ensures { Puts (Number w16 number ∷ []) out.old out.new }
{
    out.extend_from_slice(&number.to_be_bytes()).unwrap();
}

#[tactic(auto, using(crate::proofs::Texts::fits32))]
fn put_u32(out: &mut Vec<u8>, number: u32)
    requires { HasRoom out.old 4 }
    ensures { Puts (Number w32 number ∷ []) out.old out.new }
{
    out.extend_from_slice(&number.to_be_bytes()).unwrap();
}

fn put_header(out: &mut Vec<u8>, header: &Header)
    requires { HasRoom out.old 12 }
    ensures { Puts (header_layout header.now) out.old out.new }
{
    out.extend_from_slice(&write_header(header)).unwrap();
}

fn put_entity(out: &mut Vec<u8>, id: EntityId)
    requires { HasRoom out.old 6 }
    ensures { Puts (entity_layout id) out.old out.new }
{
    put_u16(out, id.site);
    put_u16(out, id.application);
    put_u16(out, id.entity);
}

fn put_time(out: &mut Vec<u8>, time: ClockTime)
    requires { HasRoom out.old 8 }
    ensures { Puts (clock_time_layout time) out.old out.new }
{
    put_u32(out, time.hour);
    put_u32(out, time.past);
}

fn put_padding(out: &mut Vec<u8>, count: usize)
    requires small { count ≤ 8 }
    requires room { HasRoom out.old count }
    ensures { Puts (Padding count ∷ []) out.old out.new }
{
    out.extend_from_slice(&[0; 8][..count]).unwrap();
}

fn put_variable(out: &mut Vec<u8>, datum: &VariableDatum)
    requires { HasRoom out.old (size (variable_layout datum.now)) }
    ensures { Puts (variable_layout datum.now) out.old out.new }
{
    let value = datum.bytes();
    let padding = padded_size(datum.bits()) as usize - 8 - value.len();
    put_u32(out, datum.id());
    put_u32(out, datum.bits());
    out.extend_from_slice(value).unwrap();
    put_padding(out, padding);
}

fn put_fixed_records(out: &mut Vec<u8>, records: &[FixedDatum])
    requires { HasRoom out.old (size (fixed_layouts records.now)) }
    ensures { Puts (fixed_layouts records.now) out.old out.new }
{
    for datum in records {
        put_u32(out, datum.id);
        put_u32(out, datum.value);
    }
}

fn put_variable_records(out: &mut Vec<u8>, records: &[VariableDatum])
    requires { HasRoom out.old (size (variable_layouts records.now)) }
    ensures { Puts (variable_layouts records.now) out.old out.new }
{
    for datum in records {
        put_variable(out, datum);
    }
}

fn put_id_records(out: &mut Vec<u8>, ids: &[u32])
    requires { HasRoom out.old (size (id_layouts ids.now)) }
    ensures { Puts (id_layouts ids.now) out.old out.new }
{
    for id in ids {
        put_u32(out, *id);
    }
}

#[tactic(auto, using(crate::proofs::Texts::size_join, crate::proofs::Texts::size_fixed, crate::proofs::Texts::variable_least))]
fn put_datums(out: &mut Vec<u8>, fixed: &[FixedDatum], variable: &[VariableDatum])
    requires limit { size (records_layout fixed.now variable.now) ≤ LARGEST_DATAGRAM }
    requires room { HasRoom out.old (size (records_layout fixed.now variable.now)) }
    ensures { Puts (records_layout fixed.now variable.now) out.old out.new }
{
    put_u32(out, fixed.len() as u32);
    put_u32(out, variable.len() as u32);
    put_fixed_records(out, fixed);
    put_variable_records(out, variable);
}

#[tactic(auto, using(crate::proofs::Texts::size_join, crate::proofs::Texts::size_ids))]
fn put_ids(out: &mut Vec<u8>, fixed: &[u32], variable: &[u32])
    requires limit { size (id_lists_layout fixed.now variable.now) ≤ LARGEST_DATAGRAM }
    requires room { HasRoom out.old (size (id_lists_layout fixed.now variable.now)) }
    ensures { Puts (id_lists_layout fixed.now variable.now) out.old out.new }
{
    put_u32(out, fixed.len() as u32);
    put_u32(out, variable.len() as u32);
    put_id_records(out, fixed);
    put_id_records(out, variable);
}

fn put_body(out: &mut Vec<u8>, body: &Body)
    requires limit { size (body_layout body.now) ≤ LARGEST_DATAGRAM }
    requires room { HasRoom out.old (size (body_layout body.now)) }
    ensures { Puts (body_layout body.now) out.old out.new }
{
    match body {
        Body::CreateEntity { request } | Body::RemoveEntity { request } => put_u32(out, *request),
        Body::StartResume { real, sim, request } => {
            put_time(out, *real);
            put_time(out, *sim);
            put_u32(out, *request);
        }
        Body::StopFreeze {
            real,
            reason,
            behaviour,
            request,
        } => {
            put_time(out, *real);
            put_u8(out, *reason);
            put_u8(out, *behaviour);
            put_padding(out, 2);
            put_u32(out, *request);
        }
        Body::Acknowledge {
            flag,
            response,
            request,
        } => {
            put_u16(out, *flag);
            put_u16(out, *response);
            put_u32(out, *request);
        }
        Body::ActionRequest {
            request,
            action,
            datums,
        } => {
            put_u32(out, *request);
            put_u32(out, *action);
            put_datums(out, &datums.fixed, &datums.variable);
        }
        Body::ActionResponse {
            request,
            result,
            datums,
        } => {
            put_u32(out, *request);
            put_u32(out, *result);
            put_datums(out, &datums.fixed, &datums.variable);
        }
        Body::DataQuery {
            request,
            interval,
            ids,
        } => {
            put_u32(out, *request);
            put_u32(out, *interval);
            put_ids(out, &ids.fixed, &ids.variable);
        }
        Body::SetData { request, datums } => {
            put_u32(out, *request);
            put_padding(out, 4);
            put_datums(out, &datums.fixed, &datums.variable);
        }
        Body::DataPdu { request, datums } => {
            put_u32(out, *request);
            put_padding(out, 4);
            put_datums(out, &datums.fixed, &datums.variable);
        }
        Body::EventReport { event, datums } => {
            put_u32(out, *event);
            put_padding(out, 4);
            put_datums(out, &datums.fixed, &datums.variable);
        }
        Body::Comment { datums } => put_datums(out, &datums.fixed, &datums.variable),
    }
}

/// Kind of a body.
pub fn kind_of(body: &Body) -> Kind
    ensures { result ≡ body_kind body.now }
{
    match body {
        Body::CreateEntity { .. } => Kind::CreateEntity,
        Body::RemoveEntity { .. } => Kind::RemoveEntity,
        Body::StartResume { .. } => Kind::StartResume,
        Body::StopFreeze { .. } => Kind::StopFreeze,
        Body::Acknowledge { .. } => Kind::Acknowledge,
        Body::ActionRequest { .. } => Kind::ActionRequest,
        Body::ActionResponse { .. } => Kind::ActionResponse,
        Body::DataQuery { .. } => Kind::DataQuery,
        Body::SetData { .. } => Kind::SetData,
        Body::DataPdu { .. } => Kind::DataPdu,
        Body::EventReport { .. } => Kind::EventReport,
        Body::Comment { .. } => Kind::Comment,
    }
}

fn put_pdu(out: &mut Vec<u8>, pdu: &Pdu, length: u16)
    requires own { length ≡ pdu_size pdu.now }
    requires limit { pdu_size pdu.now ≤ LARGEST_DATAGRAM }
    requires room { HasRoom out.old (pdu_size pdu.now) }
    ensures { Puts (pdu_layout pdu.now (pdu_size pdu.now)) out.old out.new }
{
    let header = Header {
        version: pdu.version,
        exercise: pdu.exercise,
        kind: kind_of(&pdu.body),
        stamp: pdu.stamp,
        length,
        status: pdu.status,
    };
    put_header(out, &header);
    put_entity(out, pdu.origin);
    put_entity(out, pdu.target);
    put_body(out, &pdu.body);
}

/// Appends the canonical text of a PDU: its spelling with zero padding. The status is not written
/// for a version whose headers have none. Takes no memory if the spare capacity of the vector is
/// enough; a fault leaves the vector and its capacity unchanged.
pub fn encode(pdu: &Pdu, out: &mut Vec<u8>) -> Result<(), EncodeFault>
    ensures ok { OnOk result (out.new.items ≡ out.old.items ++ pdu_text pdu.now) }
    // The text decodes to an equal PDU exactly if the status is 0 or the version has one.
    ensures spelled { OnOk result (HasCarriedStatus pdu.now ↔ Spells pdu.now (pdu_text pdu.now)) }
    // Otherwise it decodes to that PDU with status 0.
    ensures carried { OnOk result (Spells (carried pdu.now) (pdu_text pdu.now)) }
    ensures too_long { (result ≡ Err EncodeFault.TooLong) ↔ (LARGEST_DATAGRAM < pdu_size pdu.now) }
    // Memory is returned only if the spare capacity is too small.
    ensures memory { result ≡ Err EncodeFault.Memory → vec_capacity out.old < vec_len out.old + pdu_size pdu.now }
    ensures err { OnErr result (out.new.items ≡ out.old.items) }
    ensures kept { OnErr result (vec_capacity out.new ≡ vec_capacity out.old) }
{
    let Some(size) = encoded_size(pdu) else {
        return Err(EncodeFault::TooLong);
    };
    if out.reserve(usize::from(size)).is_err() {
        return Err(EncodeFault::Memory);
    }
    put_pdu(out, pdu, size);
    Ok(())
}
