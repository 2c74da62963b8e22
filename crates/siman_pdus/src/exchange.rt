//! Role of a PDU in an exchange (IEEE 1278.1-2012, 5.6).

ghost use Rattle.std.specs.Prelude.{◌≡◌};
ghost use Rattle.siman_pdus.specs.Message.{acknowledge_role, role_by};
ghost use Rattle.siman_pdus.specs.Role.{role_of, is_request_body, is_request_role, request_id_of};

use crate::encoding::kind_of;
use crate::message::{Acknowledgement, Message};
use crate::pdu::Body;
use crate::roles::Role;
use dis_records::Kind;

/// Role of a PDU.
#[tactic(auto, using(crate::proofs::Messages::role_is))]
pub fn role<M: Message>(message: &M) -> Role
    ensures { result ≡ role_of (M.pdu message.now).body }
{
    role_in(message.kind(), message.acknowledgement())
}

/// Whether a PDU is a request.
pub fn is_request<M: Message>(message: &M) -> bool
    ensures { result ≡ is_request_body (M.pdu message.now).body }
{
    is_request_role(role(message))
}

/// Request identifier of a PDU; every kind but Event Report and Comment has one.
pub fn request_id<M: Message>(message: &M) -> Option<u32>
    ensures { result ≡ request_id_of (M.pdu message.now).body }
{
    message.request()
}

impl Body {
    ghost use Rattle.siman_pdus.specs.Role.{is_request_body};

    /// Whether a PDU with this body is a request.
    #[tactic(auto, using(crate::proofs::Messages::role_is))]
    pub fn is_request(&self) -> bool
        ensures { result ≡ is_request_body self.now }
    {
        is_request_role(role_in(kind_of(self), self.acknowledgement()))
    }
}

fn is_request_role(role: Role) -> bool
    ensures { result ≡ is_request_role role }
{
    match role {
        Role::Request => true,
        Role::Answer | Role::Notice | Role::Outside => false,
    }
}

/// Role of an Acknowledge with these flags: an answer if its acknowledge flag is 1 to 4 (profile).
fn acknowledge_role(said: Option<Acknowledgement>) -> Role
    ensures { result ≡ acknowledge_role said }
{
    match said {
        Some(said) if said.flag >= 1 && said.flag <= 4 => Role::Answer,
        _ => Role::Outside,
    }
}

/// Role of a PDU of a kind; `said` has the flags of an Acknowledge.
fn role_in(kind: Kind, said: Option<Acknowledgement>) -> Role
    ensures { result ≡ role_by kind said }
{
    match kind {
        Kind::CreateEntity
        | Kind::RemoveEntity
        | Kind::StartResume
        | Kind::StopFreeze
        | Kind::ActionRequest
        | Kind::DataQuery
        | Kind::SetData => Role::Request,
        Kind::Acknowledge => acknowledge_role(said),
        Kind::ActionResponse | Kind::DataPdu => Role::Answer,
        Kind::EventReport | Kind::Comment => Role::Notice,
    }
}
