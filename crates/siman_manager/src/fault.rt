//! Why an order was not made.

ghost use Rattle.std.specs.Prelude.{◌≡◌};
ghost use Rattle.siman_manager.specs.declared.fault.OrderFault.TheVariants.{Memory};

use std::alloc::{AllocError, AllocFailed};
use thiserror::Error;

/// Why an order was not made: the first of these that holds. After each of them the manager is
/// unchanged, no identifier is used up, and the order is dropped.
#[derive(Clone, Copy, Debug, PartialEq, Eq, Error)]
pub enum OrderFault {
    /// No request identifier is left: 0xFFFFFFFF is in use.
    #[error("ids-spent")]
    IdsSpent,
    /// Its PDU would have more than 8192 bytes.
    #[error("too-long")]
    TooLong,
    /// Memory ran out.
    #[error("memory")]
    Memory,
}

impl From<AllocError> for OrderFault {
    ghost from_gives = { λ _ e. e ≡ Memory };

    fn from(_e: AllocError) -> OrderFault {
        OrderFault::Memory
    }
}

impl<T: Drop> From<AllocFailed<T>> for OrderFault {
    ghost from_gives = { λ _ e. e ≡ Memory };

    fn from(_e: AllocFailed<T>) -> OrderFault {
        OrderFault::Memory
    }
}
