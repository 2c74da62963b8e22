//! Configuration of a manager.

use dis_records::Address;

/// Configuration of a manager, which never changes.
#[derive(Clone, Copy)]
pub(crate) struct Settings {
    pub exercise: u8,
    pub address: Address,
    /// The request identifier of the first order.
    pub first_id: u32,
    /// Most sendings of an order.
    pub tries: u32,
    /// Time from the sending of an order until it is due, in the units of `now`.
    pub wait: u64,
}
