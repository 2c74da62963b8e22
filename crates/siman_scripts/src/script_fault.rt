//! Why a text is no script.

ghost use Rattle.std.specs.Prelude.{◌≡◌};
ghost use Rattle.siman_scripts.specs.declared.script_fault.ScriptFault.TheVariants.{Memory};
ghost use Rattle.siman_scripts.specs.Script.{fault_at};

use crate::line_fault::ScriptLineFault;
use std::alloc::AllocError;
use thiserror::Error;

/// Why a text is no script: its first refused line. Lines are counted from 1.
#[derive(Clone, Copy, Debug, PartialEq, Eq, Error)]
pub enum ScriptFault {
    /// The line of this number has no valid form, is out of its part, or conflicts with the lines
    /// before; the line after the last if the exercise or a station is missing; 0 if the text has
    /// more than 1,048,576 bytes.
    #[error("bad-line at line {0}")]
    BadLine(usize),
    /// The line of this number names a station that has no line.
    #[error("unknown-station at line {0}")]
    UnknownStation(usize),
    /// Memory ran out.
    #[error("memory")]
    Memory,
}

impl From<AllocError> for ScriptFault {
    ghost from_gives = { λ _ e. e ≡ Memory };

    fn from(_e: AllocError) -> ScriptFault {
        ScriptFault::Memory
    }
}

/// Fault of the line of this number.
pub(crate) fn fault_at(line: usize, fault: ScriptLineFault) -> ScriptFault
    ensures { result ≡ fault_at line fault }
{
    match fault {
        ScriptLineFault::Bad => ScriptFault::BadLine(line),
        ScriptLineFault::Unknown => ScriptFault::UnknownStation(line),
        ScriptLineFault::Memory => ScriptFault::Memory,
    }
}
