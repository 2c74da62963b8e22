//! A move of a script that is refused: its place, and the reason with its name.

ghost use Rattle.std.specs.Prelude.{◌≡◌};
ghost use Rattle.siman_outside.specs.Ending.{refusal_name};

/// Place of a move that is refused.
#[derive(Clone, Copy)]
pub struct MovePlace {
    /// The line of the script, from 1.
    pub line: usize,
    /// Number of datagrams that were sent before the move, if it is known.
    pub sends: Option<usize>,
}

/// Why a move of a script is refused.
#[derive(Clone, Copy, PartialEq, Eq)]
pub enum MoveRefusal {
    /// The recording has as many entries as one may have.
    Records,
    /// The script has no such station.
    NoSuchStation,
    /// No datagram of that number was sent before.
    NoSuchSend,
    /// The number is none of an entity.
    NoSuchEntity,
    /// The order is no request.
    NotARequest,
    /// The station has no request identifier left.
    IdsSpent,
    /// The PDU of the order would be too long.
    TooLong,
    /// Memory ran out on the order.
    Memory,
}

impl MoveRefusal {
    /// The name, as the line of the fault has it.
    pub(crate) fn name(self) -> &'static str
        ensures { result.now ≡ refusal_name self }
    {
        match self {
            MoveRefusal::Records => "records",
            MoveRefusal::NoSuchStation => "no-such-station",
            MoveRefusal::NoSuchSend => "no-such-send",
            MoveRefusal::NoSuchEntity => "no-such-entity",
            MoveRefusal::NotARequest => "not-a-request",
            MoveRefusal::IdsSpent => "ids-spent",
            MoveRefusal::TooLong => "too-long",
            MoveRefusal::Memory => "memory",
        }
    }
}
