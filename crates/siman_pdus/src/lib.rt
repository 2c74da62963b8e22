//! The twelve Simulation Management PDUs of DIS (IEEE 1278.1-2012, 5.6 and 7.5): their values, the
//! grammar of their datagrams, and their roles in an exchange. It never sees a station or a
//! history. The layers above may rely on [`decode`], which accepts exactly the grammar and returns
//! the reading of a datagram; on [`view`], which decodes in place and takes no memory, and
//! [`view_again`] for datagrams that are known to decode; on [`encode`], which appends the
//! canonical text of a PDU; and on the exact tests [`role`], [`same_order`], [`request_id`] and
//! [`answers`] of any [`Message`], a PDU or a view. [`AcknowledgeFlag`], [`ResponseFlag`],
//! [`RequestStatus`] and [`StopReason`] name the numbers of PDU fields.
#![tactic(auto)]

mod acknowledge_flag;
mod datums;
mod decoding;
mod encoding;
mod exchange;
mod fault;
mod message;
mod order;
mod pdu;
mod ranges;
mod request_status;
mod response_flag;
mod roles;
mod same_views;
mod shape;
mod size;
mod stop_reason;
mod views;

pub use acknowledge_flag::AcknowledgeFlag;
pub use datums::{DatumIds, Datums};
pub use decoding::{decode, spellings_are_apart, view, view_again};
pub use encoding::{encode, kind_of};
pub use exchange::{is_request, request_id, role};
pub use fault::{EncodeFault, PduFault, ViewFault};
pub use message::{Acknowledgement, Message};
pub use order::{answers, is_under_identifier, same_order, same_pdu};
pub use pdu::{ABLE, Body, Pdu, UNABLE};
pub use ranges::{datums_are_in_range, numbers_are_in_range, ranges_and_texts_agree};
pub use request_status::RequestStatus;
pub use response_flag::ResponseFlag;
pub use roles::Role;
pub use size::encoded_size;
pub use stop_reason::StopReason;
pub use views::{BodyView, PduView};
