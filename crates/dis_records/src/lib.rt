//! Records of the Simulation Management PDUs of DIS (IEEE 1278.1-2012, 6.2): the header, addresses
//! and entity identifiers, clock times and datum records, the last also in place, as views of a
//! datagram. It never sees the body of a PDU as a whole, and only [`VariableDatum::copy`] takes
//! memory. The layers above may rely on `read_header`, which accepts exactly the headers of the
//! layout; on `scope`; on the invariant of [`VariableDatum`], which has as many bytes as its bits
//! need, the unused bits zero; and on [`DatumsView`] and [`IdsView`], whose iterators yield the
//! records of a datagram, in order.
//!
//! [`field`] and [`records`] have the functions to walk a datagram: numbers at an offset, and
//! records one after the other.
#![tactic(auto)]

mod address;
mod clock_time;
mod datum;
mod entity;
mod entity_number;
mod entity_state;
pub mod field;
mod header;
mod kind;
pub mod records;
mod views;

pub use address::{
    Address, LARGEST_ADDRESS_PART, SiteApplication, addresses_are_ordered, addresses_name_one,
    is_address_part,
};
pub use clock_time::ClockTime;
pub use datum::{DatumFault, FixedDatum, VariableDatum, VariableView, padded_size};
pub use entity::{EntityId, Scope, addressed, addresses};
pub use entity_number::{ANY_NUMBER, fits, is_open, scope};
pub use entity_state::EntityState;
pub use header::{
    HEADER_SIZE, Header, HeaderFault, LARGEST_DATAGRAM, Version, header_again, read_header,
    versions_are_known, write_header,
};
pub use kind::Kind;
pub use views::{DatumsView, IdsView};
