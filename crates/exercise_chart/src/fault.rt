//! Why a picture has no marks.

ghost use Rattle.std.specs.Prelude.{◌≡◌};
ghost use Rattle.exercise_chart.specs.declared.fault.ChartFault.TheVariants.{Memory};

use std::alloc::{AllocError, AllocFailed};
use thiserror::Error;

/// Why a picture has no marks.
#[derive(Clone, Copy, Debug, PartialEq, Eq, Error)]
pub enum ChartFault {
    /// The range of steps has more than 2,000 rows, or the entities of a station have more than
    /// 4,194,304 spans.
    #[error("over-limit")]
    OverLimit,
    /// Memory ran out.
    #[error("memory")]
    Memory,
}

impl From<AllocError> for ChartFault {
    ghost from_gives = { λ _ e. e ≡ Memory };

    fn from(_e: AllocError) -> ChartFault {
        ChartFault::Memory
    }
}

impl<T: Drop> From<AllocFailed<T>> for ChartFault {
    ghost from_gives = { λ _ e. e ≡ Memory };

    fn from(_e: AllocFailed<T>) -> ChartFault {
        ChartFault::Memory
    }
}
