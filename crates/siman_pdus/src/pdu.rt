//! PDUs as owned values.

ghost use Rattle.std.specs.Prelude.{◌≡◌, IfOk};

use crate::datums::{DatumIds, Datums};
use dis_records::{ClockTime, EntityId, Version};
use std::alloc::{AllocError, Global};

/// The response flag Able to comply of an Acknowledge (SISO-REF-010).
pub const ABLE: u16 = 1;

/// The response flag Unable to comply of an Acknowledge (SISO-REF-010).
pub const UNABLE: u16 = 2;

/// Body of a PDU by kind, after the header and the two identifiers (IEEE 1278.1-2012, 7.5.2 to
/// 7.5.13). All numbers are carried unchanged, as unsigned ones.
#[derive(Drop, PartialEq, Eq)]
pub enum Body {
    /// PDU type 11 (7.5.2).
    CreateEntity {
        request: u32,
    },
    /// PDU type 12 (7.5.3).
    RemoveEntity {
        request: u32,
    },
    /// PDU type 13 (7.5.4): start at a real-world time, at a simulation time.
    StartResume {
        real: ClockTime,
        sim: ClockTime,
        request: u32,
    },
    /// PDU type 14 (7.5.5): stop at a real-world time, with a reason and a frozen behaviour.
    StopFreeze {
        real: ClockTime,
        reason: u8,
        behaviour: u8,
        request: u32,
    },
    /// PDU type 15 (7.5.6): the acknowledge flag, and the response flag.
    Acknowledge {
        flag: u16,
        response: u16,
        request: u32,
    },
    /// PDU type 16 (7.5.7).
    ActionRequest {
        request: u32,
        action: u32,
        datums: Datums,
    },
    /// PDU type 17 (7.5.8), with the request status.
    ActionResponse {
        request: u32,
        result: u32,
        datums: Datums,
    },
    /// PDU type 18 (7.5.9), with the time interval between answers, in the units of a timestamp.
    DataQuery {
        request: u32,
        interval: u32,
        ids: DatumIds,
    },
    /// PDU type 19 (7.5.10).
    SetData {
        request: u32,
        datums: Datums,
    },
    /// PDU type 20 (7.5.11).
    DataPdu {
        request: u32,
        datums: Datums,
    },
    /// PDU type 21 (7.5.12), with the event type.
    EventReport {
        event: u32,
        datums: Datums,
    },
    /// PDU type 22 (7.5.13).
    Comment {
        datums: Datums,
    },
}

/// A Simulation Management PDU: the header without kind and length, the originating and the
/// receiving identifier, and the body.
#[derive(Drop, PartialEq, Eq)]
pub struct Pdu {
    pub version: Version,
    /// Exercise identifier.
    pub exercise: u8,
    /// Timestamp, as in a [`Header`](dis_records::Header).
    pub stamp: u32,
    /// PDU status.
    pub status: u8,
    /// Originating identifier.
    pub origin: EntityId,
    /// Receiving identifier.
    pub target: EntityId,
    pub body: Body,
}

impl Pdu {
    /// An owned copy of the PDU.
    pub fn copy(&self, alloc: Global) -> Result<Pdu, AllocError>
        ensures { IfOk result (λ pdu. pdu ≡ self.now) }
    {
        Ok(Pdu {
            version: self.version,
            exercise: self.exercise,
            stamp: self.stamp,
            status: self.status,
            origin: self.origin,
            target: self.target,
            body: self.body.copy(alloc)?,
        })
    }
}

impl Body {
    /// An owned copy of the body.
    pub fn copy(&self, alloc: Global) -> Result<Body, AllocError>
        ensures { IfOk result (λ body. body ≡ self.now) }
    {
        let body = match self {
            Body::CreateEntity { request } => Body::CreateEntity { request: *request },
            Body::RemoveEntity { request } => Body::RemoveEntity { request: *request },
            Body::StartResume { real, sim, request } => Body::StartResume {
                real: *real,
                sim: *sim,
                request: *request,
            },
            Body::StopFreeze {
                real,
                reason,
                behaviour,
                request,
            } => Body::StopFreeze {
                real: *real,
                reason: *reason,
                behaviour: *behaviour,
                request: *request,
            },
            Body::Acknowledge {
                flag,
                response,
                request,
            } => Body::Acknowledge {
                flag: *flag,
                response: *response,
                request: *request,
            },
            Body::ActionRequest {
                request,
                action,
                datums,
            } => Body::ActionRequest {
                request: *request,
                action: *action,
                datums: datums.copy(alloc)?,
            },
            Body::ActionResponse {
                request,
                result,
                datums,
            } => Body::ActionResponse {
                request: *request,
                result: *result,
                datums: datums.copy(alloc)?,
            },
            Body::DataQuery {
                request,
                interval,
                ids,
            } => Body::DataQuery {
                request: *request,
                interval: *interval,
                ids: ids.copy(alloc)?,
            },
            Body::SetData { request, datums } => Body::SetData {
                request: *request,
                datums: datums.copy(alloc)?,
            },
            Body::DataPdu { request, datums } => Body::DataPdu {
                request: *request,
                datums: datums.copy(alloc)?,
            },
            Body::EventReport { event, datums } => Body::EventReport {
                event: *event,
                datums: datums.copy(alloc)?,
            },
            Body::Comment { datums } => Body::Comment {
                datums: datums.copy(alloc)?,
            },
        };
        Ok(body)
    }
}
