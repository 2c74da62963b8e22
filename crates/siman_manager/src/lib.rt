//! The manager of a station: it makes orders (requests of IEEE 1278.1-2012, 5.6), repeats each
//! until it is answered or was sent as often as is allowed, and says which answer settled which
//! order.
//! The crate reads no clock and sends nothing: the time, the timestamps and the received PDUs are
//! arguments, and a PDU to send is returned.
//! The contract for the layer above: [`Manager`], each of whose calls is one step of the
//! definitions in `specs/Book.antt`, and [`orders_are_kept`], the effect of these steps over every
//! list of calls.
#![tactic(auto)]

mod blocks;
mod fault;
mod kept;
mod laws;
mod making;
mod manager;
mod order;
mod settings;
mod settling;
mod walk;

pub use fault::OrderFault;
pub use laws::orders_are_kept;
pub use manager::Manager;
pub use order::{Order, OrderStatus, OrderView, Taken};
