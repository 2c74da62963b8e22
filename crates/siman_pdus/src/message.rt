//! Fields of a PDU that an exchange needs, from an owned PDU or a view.

use crate::encoding::kind_of;
use crate::order::same_fields;
use crate::pdu::{Body, Pdu};
use crate::same_views::same_shown;
use crate::views::{BodyView, PduView};
use dis_records::{EntityId, Kind};

/// Fields of an Acknowledge (IEEE 1278.1-2012, 7.5.6).
#[derive(Clone, Copy)]
pub struct Acknowledgement {
    /// Acknowledge flag: the kind of request that is acknowledged.
    pub flag: u16,
    /// Response flag: [`ABLE`](crate::ABLE), [`UNABLE`](crate::UNABLE) or another number.
    pub response: u16,
    /// Request identifier.
    pub request: u32,
}

/// A PDU in an exchange: a [`Pdu`], or a [`PduView`] of its datagram. In contracts it is one PDU,
/// and the methods return fields of it. No call takes memory.
pub trait Message {
    ghost use Rattle.std.specs.Prelude.{◌≡◌};
    ghost use Rattle.siman_pdus.specs.declared.pdu.Pdu.{Pdu};
    ghost use Rattle.siman_pdus.specs.Message.{acknowledgement_of};
    ghost use Rattle.siman_pdus.specs.Role.{request_id_of};
    ghost use Rattle.siman_pdus.specs.Same.{is_same_order};
    ghost use Rattle.siman_pdus.specs.Spelling.{body_kind};

    /// The PDU that contracts see.
    ghost pdu: { Self → Pdu };

    /// Exercise identifier.
    fn exercise(&self) -> u8
        ensures { result ≡ (pdu self.now).exercise };

    /// Originating identifier.
    fn origin(&self) -> EntityId
        ensures { result ≡ (pdu self.now).origin };

    /// Receiving identifier.
    fn target(&self) -> EntityId
        ensures { result ≡ (pdu self.now).target };

    /// Kind of the PDU.
    fn kind(&self) -> Kind
        ensures { result ≡ body_kind (pdu self.now).body };

    /// Request identifier; every kind but Event Report and Comment has one.
    fn request(&self) -> Option<u32>
        ensures { result ≡ request_id_of (pdu self.now).body };

    /// Fields of the Acknowledge, if it is one.
    fn acknowledgement(&self) -> Option<Acknowledgement>
        ensures { result ≡ acknowledgement_of (pdu self.now).body };

    /// Whether `other` is a repeat of this PDU: equal in all but timestamp and status (profile).
    fn is_order_of(&self, other: &Self) -> bool
        ensures { result ≡ is_same_order (pdu self.now) (pdu other.now) };
}

impl Message for Pdu {
    ghost pdu = { λ p. p };

    fn exercise(&self) -> u8 {
        self.exercise
    }

    fn origin(&self) -> EntityId {
        self.origin
    }

    fn target(&self) -> EntityId {
        self.target
    }

    fn kind(&self) -> Kind {
        kind_of(&self.body)
    }

    fn request(&self) -> Option<u32> {
        self.body.request()
    }

    fn acknowledgement(&self) -> Option<Acknowledgement> {
        self.body.acknowledgement()
    }

    fn is_order_of(&self, other: &Pdu) -> bool {
        same_fields(self, other)
    }
}

impl Message for PduView<'_> {
    ghost use Rattle.siman_pdus.specs.Reading.{pdu_of};

    ghost pdu = { pdu_of };

    fn exercise(&self) -> u8 {
        self.exercise
    }

    fn origin(&self) -> EntityId {
        self.origin
    }

    fn target(&self) -> EntityId {
        self.target
    }

    fn kind(&self) -> Kind {
        self.body.kind()
    }

    fn request(&self) -> Option<u32> {
        self.body.request()
    }

    fn acknowledgement(&self) -> Option<Acknowledgement> {
        self.body.acknowledgement()
    }

    fn is_order_of(&self, other: &Self) -> bool {
        same_shown(self, other)
    }
}

impl Body {
    ghost use Rattle.std.specs.Prelude.{◌≡◌};
    ghost use Rattle.siman_pdus.specs.Message.{acknowledgement_of};
    ghost use Rattle.siman_pdus.specs.Role.{request_id_of};

    fn request(&self) -> Option<u32>
        ensures { result ≡ request_id_of self.now }
    {
        match self {
            Body::CreateEntity { request }
            | Body::RemoveEntity { request }
            | Body::StartResume { request, .. }
            | Body::StopFreeze { request, .. }
            | Body::Acknowledge { request, .. }
            | Body::ActionRequest { request, .. }
            | Body::ActionResponse { request, .. }
            | Body::DataQuery { request, .. }
            | Body::SetData { request, .. }
            | Body::DataPdu { request, .. } => Some(*request),
            Body::EventReport { .. } | Body::Comment { .. } => None,
        }
    }

    pub(crate) fn acknowledgement(&self) -> Option<Acknowledgement>
        ensures { result ≡ acknowledgement_of self.now }
    {
        match self {
            Body::Acknowledge {
                flag,
                response,
                request,
            } => Some(Acknowledgement {
                flag: *flag,
                response: *response,
                request: *request,
            }),
            _ => None,
        }
    }
}

impl BodyView<'_> {
    ghost use Rattle.std.specs.Prelude.{◌≡◌};
    ghost use Rattle.siman_pdus.specs.Message.{acknowledgement_of};
    ghost use Rattle.siman_pdus.specs.Reading.{body_of};
    ghost use Rattle.siman_pdus.specs.Role.{request_id_of};
    ghost use Rattle.siman_pdus.specs.Spelling.{body_kind};

    fn kind(&self) -> Kind
        ensures { result ≡ body_kind (body_of self.now) }
    {
        match self {
            BodyView::CreateEntity { .. } => Kind::CreateEntity,
            BodyView::RemoveEntity { .. } => Kind::RemoveEntity,
            BodyView::StartResume { .. } => Kind::StartResume,
            BodyView::StopFreeze { .. } => Kind::StopFreeze,
            BodyView::Acknowledge { .. } => Kind::Acknowledge,
            BodyView::ActionRequest { .. } => Kind::ActionRequest,
            BodyView::ActionResponse { .. } => Kind::ActionResponse,
            BodyView::DataQuery { .. } => Kind::DataQuery,
            BodyView::SetData { .. } => Kind::SetData,
            BodyView::DataPdu { .. } => Kind::DataPdu,
            BodyView::EventReport { .. } => Kind::EventReport,
            BodyView::Comment { .. } => Kind::Comment,
        }
    }

    fn request(&self) -> Option<u32>
        ensures { result ≡ request_id_of (body_of self.now) }
    {
        match self {
            BodyView::CreateEntity { request }
            | BodyView::RemoveEntity { request }
            | BodyView::StartResume { request, .. }
            | BodyView::StopFreeze { request, .. }
            | BodyView::Acknowledge { request, .. }
            | BodyView::ActionRequest { request, .. }
            | BodyView::ActionResponse { request, .. }
            | BodyView::DataQuery { request, .. }
            | BodyView::SetData { request, .. }
            | BodyView::DataPdu { request, .. } => Some(*request),
            BodyView::EventReport { .. } | BodyView::Comment { .. } => None,
        }
    }

    fn acknowledgement(&self) -> Option<Acknowledgement>
        ensures { result ≡ acknowledgement_of (body_of self.now) }
    {
        match self {
            BodyView::Acknowledge {
                flag,
                response,
                request,
            } => Some(Acknowledgement {
                flag: *flag,
                response: *response,
                request: *request,
            }),
            _ => None,
        }
    }
}
