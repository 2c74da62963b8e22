//! Why a world does not run.

ghost use Rattle.std.specs.Prelude.{◌≡◌};
ghost use Rattle.siman_stations.specs.declared.world_fault.WorldFault.TheVariants.{Memory};

use crate::StationFault;
use siman_manager::OrderFault;
use std::alloc::{AllocError, AllocFailed};
use thiserror::Error;

/// Why a move cannot be made: the first of these that holds.
#[derive(Clone, Copy, Debug, PartialEq, Eq, Error)]
pub enum MoveFault {
    /// Fewer than two of the 1,048,576 entry numbers are left.
    #[error("records")]
    Records,
    /// The world has no station of this index.
    #[error("no-such-station")]
    NoSuchStation,
    /// No datagram of this number was sent so far.
    #[error("no-such-send")]
    NoSuchSend,
    /// No entity has this number, which is outside 1..=0xFFFD.
    #[error("no-such-entity")]
    NoSuchEntity,
    /// The body of the order is that of no request.
    #[error("not-a-request")]
    NotARequest,
    /// The manager refuses the order: no identifier is left, or it is too long.
    #[error("{0}")]
    Order(OrderFault),
}

/// Why a world does not run.
#[derive(Clone, Copy, Debug, PartialEq, Eq, Error)]
pub enum WorldFault {
    /// There is no station or more than 256, their addresses do not strictly rise, an order would
    /// be sent 0 times, or a station opens with more than 4,096 entities.
    #[error("stations")]
    Stations,
    /// The first move that cannot be made, by its number, from 0.
    #[error("{1} at move {0}")]
    Move(usize, MoveFault),
    /// Memory ran out.
    #[error("memory")]
    Memory,
}

impl From<StationFault> for MoveFault {
    ghost use Rattle.std.specs.Prelude.{◌≡◌};
    ghost use Rattle.siman_stations.specs.Acts.{of_station};

    ghost from_gives = { λ fault e. e ≡ of_station fault };

    fn from(fault: StationFault) -> MoveFault {
        match fault {
            StationFault::NoSuchEntity => MoveFault::NoSuchEntity,
            StationFault::NotARequest => MoveFault::NotARequest,
            StationFault::Order(fault) => MoveFault::Order(fault),
        }
    }
}

impl From<AllocError> for WorldFault {
    ghost from_gives = { λ _ e. e ≡ Memory };

    fn from(_e: AllocError) -> WorldFault {
        WorldFault::Memory
    }
}

impl<T: Drop> From<AllocFailed<T>> for WorldFault {
    ghost from_gives = { λ _ e. e ≡ Memory };

    fn from(_e: AllocFailed<T>) -> WorldFault {
        WorldFault::Memory
    }
}
