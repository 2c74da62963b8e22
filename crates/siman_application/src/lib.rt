//! The application of a station: it takes requests, holds entities and datums, and answers each
//! distinct request once (IEEE 1278.1-2012, 5.6).
//! The crate reads no clock and sends nothing: timestamps and received PDUs are arguments, and a
//! PDU to send is returned.
//! The contract for the layer above: [`Application`], whose replies, states and datums depend on
//! the distinct requests alone (`specs/Distinct.antt`, `Answer.antt`, `Play.antt`);
//! [`requests_are_told_once`], their effect over every list of PDUs; and [`own_logs_stand`]: no
//! answer in the log of such a station has a cause against it.
#![tactic(auto)]

mod answering;
mod application;
mod entities;
mod entity_list;
mod fault;
mod held;
mod kept;
mod laws;
mod outfit;
mod records;
mod tables;
mod taking;

pub use application::Application;
pub use entity_list::insert_entity;
pub use fault::AppFault;
pub use laws::{own_logs_stand, requests_are_told_once};
