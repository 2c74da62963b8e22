//! Why a station refuses a call.

use siman_manager::OrderFault;

/// Why a station refuses a call, which leaves it unchanged.
#[derive(Clone, Copy, Debug, PartialEq, Eq)]
pub enum StationFault {
    /// No entity has this number, which is outside 1..=0xFFFD.
    NoSuchEntity,
    /// The body of the order is that of no request.
    NotARequest,
    /// The manager refuses the order: no identifier is left, or it is too long.
    Order(OrderFault),
}
