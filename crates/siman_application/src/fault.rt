//! Why an application could not begin, or could not take a PDU.

ghost use Rattle.std.specs.Prelude.{◌≡◌};
ghost use Rattle.siman_application.specs.declared.fault.AppFault.TheVariants.{Memory};

use std::alloc::{AllocError, AllocFailed};
use thiserror::Error;

/// Why an application could not begin, or could not take a PDU.
#[derive(Clone, Copy, Debug, PartialEq, Eq, Error)]
pub enum AppFault {
    /// Memory ran out. An application that did not take a PDU is unchanged.
    #[error("memory")]
    Memory,
    /// The station opens with more than 4,096 entities.
    #[error("too-many")]
    TooMany,
}

impl From<AllocError> for AppFault {
    ghost from_gives = { λ _ e. e ≡ Memory };

    fn from(_e: AllocError) -> AppFault {
        AppFault::Memory
    }
}

impl<T: Drop> From<AllocFailed<T>> for AppFault {
    ghost from_gives = { λ _ e. e ≡ Memory };

    fn from(_e: AllocFailed<T>) -> AppFault {
        AppFault::Memory
    }
}
