//! The twelve kinds of Simulation Management PDU (IEEE 1278.1-2012, 5.6 and 7.5).

ghost use Rattle.std.specs.Prelude.{◌≡◌, IfSome, IsNone, IsTrue, ◌↔◌, not, ◌≤◌, length};
ghost use Rattle.dis_records.specs.Kind.{kind_code, is_kind_code};
ghost use Rattle.dis_records.specs.Texts.{kind_text};
ghost use Rattle.dis_records.specs.Entity.{is_create};

use std::fmt;

/// A kind of PDU; its number is the PDU type.
#[derive(Clone, Copy, PartialEq, Eq)]
pub enum Kind {
    CreateEntity = 11,
    RemoveEntity = 12,
    StartResume = 13,
    StopFreeze = 14,
    Acknowledge = 15,
    ActionRequest = 16,
    ActionResponse = 17,
    DataQuery = 18,
    SetData = 19,
    DataPdu = 20,
    EventReport = 21,
    Comment = 22,
}

impl Kind {
    /// PDU type.
    pub fn code(self) -> u8
        ensures { result ≡ kind_code self }
    {
        self as u8
    }

    /// Kind of a PDU type, if it is one of the twelve.
    pub fn from_code(code: u8) -> Option<Kind>
        ensures kind { IfSome result (λ kind. kind_code kind ≡ code) }
        ensures none { IsNone result ↔ IsTrue (not (is_kind_code code)) }
    {
        let kind = match code {
            11 => Kind::CreateEntity,
            12 => Kind::RemoveEntity,
            13 => Kind::StartResume,
            14 => Kind::StopFreeze,
            15 => Kind::Acknowledge,
            16 => Kind::ActionRequest,
            17 => Kind::ActionResponse,
            18 => Kind::DataQuery,
            19 => Kind::SetData,
            20 => Kind::DataPdu,
            21 => Kind::EventReport,
            22 => Kind::Comment,
            _ => return None,
        };
        Some(kind)
    }

    /// Whether it is a Create Entity.
    pub(crate) fn is_create(self) -> bool
        ensures { result ≡ is_create self }
    {
        match self {
            Kind::CreateEntity => true,
            _ => false,
        }
    }

    /// Name of the kind, such as `create-entity`.
    pub fn name(self) -> &'static str
        ensures name { result.now ≡ kind_text self }
        ensures short { length result.now ≤ 20 }
    {
        match self {
            Kind::CreateEntity => "create-entity",
            Kind::RemoveEntity => "remove-entity",
            Kind::StartResume => "start-resume",
            Kind::StopFreeze => "stop-freeze",
            Kind::Acknowledge => "acknowledge",
            Kind::ActionRequest => "action-request",
            Kind::ActionResponse => "action-response",
            Kind::DataQuery => "data-query",
            Kind::SetData => "set-data",
            Kind::DataPdu => "data",
            Kind::EventReport => "event-report",
            Kind::Comment => "comment",
        }
    }
}

/// Prints the name of the kind, such as `create-entity`.
impl fmt::Display for Kind {
    ghost use Rattle.std.specs.Prelude.{Some};
    ghost use Rattle.dis_records.specs.Texts.{kind_text};

    ghost output = { λ kind. Some (kind_text kind) };

    fn fmt<W: fmt::Write>(&self, f: &mut fmt::Formatter<W>) -> fmt::Result {
        f.write_str(self.name())
    }
}
