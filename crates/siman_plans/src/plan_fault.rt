//! Why a source has no plan.

use siman_stations::MoveFault;
use std::alloc::{AllocError, AllocFailed};

/// Why a word of a line names no datagram, or no station to bring it to.
#[derive(Clone, Copy, Debug, PartialEq, Eq)]
pub(crate) enum Unnamed {
    /// The line with the label sent no datagram.
    LabelSendsNothing,
    /// No delivery of the labelled datagram was answered.
    NoAnswer,
    /// The datagram was never brought to a station.
    NeverBrought,
    /// The datagram was not sent.
    NotSent,
}

/// A move that the world refuses: its line, from 1, its number, from 0, and why.
#[derive(Clone, Copy, Debug, PartialEq, Eq)]
pub struct Refusal {
    pub line: usize,
    pub number: usize,
    pub fault: MoveFault,
}

/// Why a plan ends at a line.
#[derive(Clone, Copy)]
pub(crate) enum Stop {
    /// A word in this column, in bytes from 1, names nothing.
    Unnamed {
        line: usize,
        column: usize,
        why: Unnamed,
    },
    /// The world refuses the move of the line.
    Refused(Refusal),
}

/// Why a line was not done.
#[derive(Drop)]
pub(crate) enum LineFault {
    Stop(Stop),
    Memory,
}

impl From<AllocError> for LineFault {
    ghost use Rattle.std.specs.Prelude.{◌≡◌};
    ghost use Rattle.siman_plans.specs.declared.plan_fault.LineFault.TheVariants.{Memory};

    ghost from_gives = { λ _ e. e ≡ Memory };

    fn from(_e: AllocError) -> LineFault {
        LineFault::Memory
    }
}

impl<T: Drop> From<AllocFailed<T>> for LineFault {
    ghost use Rattle.std.specs.Prelude.{◌≡◌};
    ghost use Rattle.siman_plans.specs.declared.plan_fault.LineFault.TheVariants.{Memory};

    ghost from_gives = { λ _ e. e ≡ Memory };

    fn from(_e: AllocFailed<T>) -> LineFault {
        LineFault::Memory
    }
}

/// Why there is no plan.
#[derive(Clone, Copy, Debug, PartialEq, Eq)]
pub(crate) enum PlanFault {
    /// A world cannot have these stations.
    Stations,
    /// A word in this line, from 1, and column, in bytes from 1, names nothing.
    Unnamed {
        line: usize,
        column: usize,
        why: Unnamed,
    },
    /// Memory ran out.
    Memory,
}
