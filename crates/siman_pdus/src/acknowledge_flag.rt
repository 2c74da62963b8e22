//! The acknowledge flag of an Acknowledge: the kind of request that it acknowledges (SISO-REF-010).

ghost use Rattle.std.specs.Prelude.{◌≡◌, ◌≤◌, length};
ghost use Rattle.siman_pdus.specs.FieldNames.{flag_of, flag_text};

use dis_records::Kind;
use std::fmt;

/// The acknowledge flag of an Acknowledge: the kind of request that it acknowledges (SISO-REF-010).
#[derive(Clone, Copy, PartialEq, Eq)]
pub enum AcknowledgeFlag {
    /// Acknowledge flag 1.
    CreateEntity,
    /// Acknowledge flag 2.
    RemoveEntity,
    /// Acknowledge flag 3.
    StartResume,
    /// Acknowledge flag 4.
    StopFreeze,
}

impl AcknowledgeFlag {
    /// The flag with a number, if it has a name.
    pub fn of(number: u16) -> Option<AcknowledgeFlag>
        ensures { result ≡ flag_of number }
    {
        let named = match number {
            1 => AcknowledgeFlag::CreateEntity,
            2 => AcknowledgeFlag::RemoveEntity,
            3 => AcknowledgeFlag::StartResume,
            4 => AcknowledgeFlag::StopFreeze,
            _ => return None,
        };
        Some(named)
    }

    /// Its name, that of the kind, such as `remove-entity`.
    pub fn name(self) -> &'static str
        ensures name { result.now ≡ flag_text self }
        ensures short { length result.now ≤ 20 }
    {
        match self {
            AcknowledgeFlag::CreateEntity => Kind::CreateEntity.name(),
            AcknowledgeFlag::RemoveEntity => Kind::RemoveEntity.name(),
            AcknowledgeFlag::StartResume => Kind::StartResume.name(),
            AcknowledgeFlag::StopFreeze => Kind::StopFreeze.name(),
        }
    }
}

/// Its name.
impl fmt::Display for AcknowledgeFlag {
    ghost use Rattle.std.specs.Prelude.{Some};
    ghost use Rattle.siman_pdus.specs.FieldNames.{flag_text};

    ghost output = { λ named. Some (flag_text named) };

    fn fmt<W: fmt::Write>(&self, f: &mut fmt::Formatter<W>) -> fmt::Result {
        f.write_str(self.name())
    }
}
