//! PDUs in place: views of a datagram.

ghost use Rattle.std.specs.Prelude.{◌≡◌, ◌<◌, IfOk, IsSome, length};
ghost use Rattle.dis_records.specs.Datum.{canonical};
ghost use Rattle.dis_records.specs.Records.{shown};
ghost use Rattle.siman_pdus.specs.Reading.{body_of, datums_of, ids_of, pdu_of, with_last};

use crate::datums::{DatumIds, Datums};
use crate::pdu::{Body, Pdu};
use dis_records::{ClockTime, DatumsView, EntityId, IdsView, VariableDatum, VariableView, Version};
use std::alloc::{AllocError, Global};

/// Body of a PDU by kind, in place, as in [`Body`]; its records and identifiers are read from the
/// datagram.
#[derive(Drop)]
pub enum BodyView<'a> {
    /// PDU type 11 (7.5.2).
    CreateEntity {
        request: u32,
    },
    /// PDU type 12 (7.5.3).
    RemoveEntity {
        request: u32,
    },
    /// PDU type 13 (7.5.4): start at a real-world time, at a simulation time.
    StartResume {
        real: ClockTime,
        sim: ClockTime,
        request: u32,
    },
    /// PDU type 14 (7.5.5): stop at a real-world time, with a reason and a frozen behaviour.
    StopFreeze {
        real: ClockTime,
        reason: u8,
        behaviour: u8,
        request: u32,
    },
    /// PDU type 15 (7.5.6): the acknowledge flag, and the response flag.
    Acknowledge {
        flag: u16,
        response: u16,
        request: u32,
    },
    /// PDU type 16 (7.5.7).
    ActionRequest {
        request: u32,
        action: u32,
        datums: DatumsView<'a>,
    },
    /// PDU type 17 (7.5.8), with the request status.
    ActionResponse {
        request: u32,
        result: u32,
        datums: DatumsView<'a>,
    },
    /// PDU type 18 (7.5.9), with the time interval between answers, in the units of a timestamp.
    DataQuery {
        request: u32,
        interval: u32,
        ids: IdsView<'a>,
    },
    /// PDU type 19 (7.5.10).
    SetData {
        request: u32,
        datums: DatumsView<'a>,
    },
    /// PDU type 20 (7.5.11).
    DataPdu {
        request: u32,
        datums: DatumsView<'a>,
    },
    /// PDU type 21 (7.5.12), with the event type.
    EventReport {
        event: u32,
        datums: DatumsView<'a>,
    },
    /// PDU type 22 (7.5.13).
    Comment {
        datums: DatumsView<'a>,
    },
}

/// A PDU in place, with the fields of [`Pdu`]: borrows its datagram, and takes no memory.
#[derive(Drop)]
pub struct PduView<'a> {
    pub version: Version,
    /// Exercise identifier.
    pub exercise: u8,
    /// Timestamp, as in a [`Header`](dis_records::Header).
    pub stamp: u32,
    /// PDU status.
    pub status: u8,
    /// Originating identifier.
    pub origin: EntityId,
    /// Receiving identifier.
    pub target: EntityId,
    pub body: BodyView<'a>,
}

impl PduView<'_> {
    /// Owned PDU of this view, with the unused bits of its variable datums set to zero.
    pub fn to_pdu(&self, alloc: Global) -> Result<Pdu, AllocError>
        ensures { IfOk result (λ pdu. pdu ≡ pdu_of self.now) }
    {
        Ok(Pdu {
            version: self.version,
            exercise: self.exercise,
            stamp: self.stamp,
            status: self.status,
            origin: self.origin,
            target: self.target,
            body: self.body.to_body(alloc)?,
        })
    }
}

impl BodyView<'_> {
    /// Owned body of this view.
    pub fn to_body(&self, alloc: Global) -> Result<Body, AllocError>
        ensures { IfOk result (λ body. body ≡ body_of self.now) }
    {
        let body = match self {
            BodyView::CreateEntity { request } => Body::CreateEntity { request: *request },
            BodyView::RemoveEntity { request } => Body::RemoveEntity { request: *request },
            BodyView::StartResume { real, sim, request } => Body::StartResume {
                real: *real,
                sim: *sim,
                request: *request,
            },
            BodyView::StopFreeze {
                real,
                reason,
                behaviour,
                request,
            } => Body::StopFreeze {
                real: *real,
                reason: *reason,
                behaviour: *behaviour,
                request: *request,
            },
            BodyView::Acknowledge {
                flag,
                response,
                request,
            } => Body::Acknowledge {
                flag: *flag,
                response: *response,
                request: *request,
            },
            BodyView::ActionRequest {
                request,
                action,
                datums,
            } => Body::ActionRequest {
                request: *request,
                action: *action,
                datums: read_datums(alloc, datums)?,
            },
            BodyView::ActionResponse {
                request,
                result,
                datums,
            } => Body::ActionResponse {
                request: *request,
                result: *result,
                datums: read_datums(alloc, datums)?,
            },
            BodyView::DataQuery {
                request,
                interval,
                ids,
            } => Body::DataQuery {
                request: *request,
                interval: *interval,
                ids: read_ids(alloc, ids)?,
            },
            BodyView::SetData { request, datums } => Body::SetData {
                request: *request,
                datums: read_datums(alloc, datums)?,
            },
            BodyView::DataPdu { request, datums } => Body::DataPdu {
                request: *request,
                datums: read_datums(alloc, datums)?,
            },
            BodyView::EventReport { event, datums } => Body::EventReport {
                event: *event,
                datums: read_datums(alloc, datums)?,
            },
            BodyView::Comment { datums } => Body::Comment {
                datums: read_datums(alloc, datums)?,
            },
        };
        Ok(body)
    }
}

/// Replaces the last byte, if a byte is given.
fn set_last(bytes: &mut Vec<u8>, last: Option<u8>)
    requires { IsSome last → 0 < length bytes.old.items }
    ensures { bytes.new.items ≡ with_last last bytes.old.items }
{
    if let Some(last) = last {
        let end = bytes.len() - 1;
        bytes[end] = last;
    }
}

/// Owned datum of a record, its unused bits zero.
fn read_variable(alloc: Global, view: VariableView<'_>) -> Result<VariableDatum, AllocError>
    ensures { IfOk result (λ datum. datum ≡ canonical (shown view.entry)) }
{
    let mut bytes = Vec::from_slice(alloc, view.bytes)?;
    set_last(&mut bytes, view.last());
    Ok(VariableDatum::new(view.id, view.bits, bytes).unwrap())
}

fn read_datums(alloc: Global, view: &DatumsView<'_>) -> Result<Datums, AllocError>
    ensures { IfOk result (λ datums. datums ≡ datums_of view.now) }
{
    let fixed = view.fixed().collect(alloc)?;
    let mut variable = Vec::new(alloc);
    for record in view.variable() {
        variable.push(read_variable(alloc, record)?)?;
    }
    Ok(Datums { fixed, variable })
}

fn read_ids(alloc: Global, view: &IdsView<'_>) -> Result<DatumIds, AllocError>
    ensures { IfOk result (λ ids. ids ≡ ids_of view.now) }
{
    let fixed = view.fixed().collect(alloc)?;
    let variable = view.variable().collect(alloc)?;
    Ok(DatumIds { fixed, variable })
}
