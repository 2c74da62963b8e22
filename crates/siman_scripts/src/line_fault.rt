//! Why a line of a script is refused.

ghost use Rattle.std.specs.Prelude.{◌≡◌};
ghost use Rattle.siman_scripts.specs.declared.line_fault.ScriptLineFault.TheVariants.{Memory};

use std::alloc::{AllocError, AllocFailed};

/// Why a line of a script is refused.
#[derive(Clone, Copy)]
pub enum ScriptLineFault {
    /// It has no valid form, is out of its part, or conflicts with the lines before.
    Bad,
    /// It names a station that has no line.
    Unknown,
    /// Memory ran out.
    Memory,
}

impl From<AllocError> for ScriptLineFault {
    ghost from_gives = { λ _ e. e ≡ Memory };

    fn from(_e: AllocError) -> ScriptLineFault {
        ScriptLineFault::Memory
    }
}

impl<T: Drop> From<AllocFailed<T>> for ScriptLineFault {
    ghost from_gives = { λ _ e. e ≡ Memory };

    fn from(_e: AllocFailed<T>) -> ScriptLineFault {
        ScriptLineFault::Memory
    }
}
