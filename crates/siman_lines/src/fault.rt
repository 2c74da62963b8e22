//! Faults of a station's calls at its link.

use exercise_recording::WriterFault;
use siman_manager::OrderFault;
use siman_stations::StationFault;
use thiserror::Error;

/// Why a station ended its turns early. What was recorded before is in the recording after each of
/// them.
#[derive(Clone, Copy, Debug, PartialEq, Eq, Error)]
pub enum ServeFault {
    /// A receive failed: the link lost the datagram, and nothing else was done.
    #[error("receive")]
    Receive,
    /// A send failed: the answer is recorded, and may have been sent or not.
    #[error("send")]
    Send,
    /// An entry was not recorded, and what it would say was not done. No further entry can be
    /// written.
    #[error("record: {0}")]
    Record(WriterFault),
    /// Memory ran out: the datagram is recorded as received, and manager and application are
    /// unchanged, so that a later copy is answered.
    #[error("memory")]
    Memory,
}

/// Why an order or a repeat was not sent.
#[derive(Clone, Copy, Debug, PartialEq, Eq, Error)]
pub enum IssueFault {
    /// The manager refuses the order, and is unchanged.
    #[error("order: {0}")]
    Order(OrderFault),
    /// A send failed: the request is recorded, and may have been sent or not.
    #[error("send")]
    Send,
    /// The entry was not recorded, and the request was not sent; the manager counts it as sent. No
    /// further entry can be written.
    #[error("record: {0}")]
    Record(WriterFault),
    /// Memory ran out: nothing was recorded or sent; the manager counts the request as sent.
    #[error("memory")]
    Memory,
}

/// Fault of a call at a station. What was recorded before is in the recording after each of them.
#[derive(Clone, Copy, Debug, PartialEq, Eq)]
pub enum AtLineFault {
    /// The station refuses the call, and is unchanged.
    Station(StationFault),
    /// A call of the link failed.
    Line,
    /// An entry was not recorded, and what it would say was not done. No further entry can be
    /// written.
    Record(WriterFault),
    /// Memory ran out.
    Memory,
}
