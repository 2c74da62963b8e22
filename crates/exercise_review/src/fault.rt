//! The faults of a review.

ghost use Rattle.std.specs.Prelude.{◌≡◌};
ghost use Rattle.exercise_review.specs.declared.fault.ReviewFault.TheVariants.{Memory};

use std::alloc::{AllocError, AllocFailed};
use thiserror::Error;

/// A fault of a review.
#[derive(Clone, Copy, Debug, PartialEq, Eq, Error)]
pub enum ReviewFault {
    /// It would have more than 4,194,304 rows.
    #[error("over-limit")]
    OverLimit,
    /// Memory ran out.
    #[error("memory")]
    Memory,
}

impl From<AllocError> for ReviewFault {
    ghost from_gives = { λ _ e. e ≡ Memory };

    fn from(_e: AllocError) -> ReviewFault {
        ReviewFault::Memory
    }
}

impl<T: Drop> From<AllocFailed<T>> for ReviewFault {
    ghost from_gives = { λ _ e. e ≡ Memory };

    fn from(_e: AllocFailed<T>) -> ReviewFault {
        ReviewFault::Memory
    }
}
