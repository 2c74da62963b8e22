//! The fields in which datagrams can differ, with their names.

ghost use Rattle.std.specs.Prelude.{◌≡◌};
ghost use Rattle.exercise_conflict.specs.FieldText.{field_text};

use std::fmt;

/// A field in which one datagram can differ from another.
#[derive(Clone, Copy, PartialEq, Eq)]
pub enum PduField {
    /// The protocol version.
    Version,
    /// The timestamp.
    Time,
    /// The PDU status.
    Status,
    /// The kind of the PDU.
    Kind,
    /// The originating identifier.
    From,
    /// The receiving identifier.
    To,
    /// The real-world time of a Start/Resume or a Stop/Freeze.
    Real,
    /// The simulation time of a Start/Resume.
    Sim,
    /// The request identifier.
    Request,
    /// The reason of a Stop/Freeze.
    Reason,
    /// The frozen behaviour of a Stop/Freeze.
    Behaviour,
    /// The acknowledge flag of an Acknowledge.
    Flag,
    /// The response flag of an Acknowledge.
    Response,
    /// The action of an Action Request.
    Action,
    /// The request status of an Action Response.
    Outcome,
    /// The time interval of a Data Query.
    Interval,
    /// The event type of an Event Report.
    Event,
    /// The fixed datum records, or the identifiers of fixed datums.
    Fixed,
    /// The variable datum records, or the identifiers of variable datums.
    Variable,
    /// Bytes outside all fields: padding, and unused bits.
    Padding,
}

impl PduField {
    /// Its name: the key that it has in the row of a PDU.
    pub fn name(self) -> &'static str
        ensures { result.now ≡ field_text self }
    {
        match self {
            PduField::Version => "version",
            PduField::Time => "time",
            PduField::Status => "status",
            PduField::Kind => "kind",
            PduField::From => "from",
            PduField::To => "to",
            PduField::Real => "real",
            PduField::Sim => "sim",
            PduField::Request => "request",
            PduField::Reason => "reason",
            PduField::Behaviour => "behaviour",
            PduField::Flag => "flag",
            PduField::Response => "response",
            PduField::Action => "action",
            PduField::Outcome => "result",
            PduField::Interval => "interval",
            PduField::Event => "event",
            PduField::Fixed => "fixed",
            PduField::Variable => "variable",
            PduField::Padding => "padding",
        }
    }
}

/// Prints its name, like `response`.
impl fmt::Display for PduField {
    ghost use Rattle.std.specs.Prelude.{Some};

    ghost output = { λ field. Some (field_text field) };

    fn fmt<W: fmt::Write>(&self, f: &mut fmt::Formatter<W>) -> fmt::Result {
        f.write_str(self.name())
    }
}
