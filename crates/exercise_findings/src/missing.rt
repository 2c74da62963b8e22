//! Sends that a log lacks.

/// A send that a log lacks.
#[derive(Clone, Copy, PartialEq, Eq)]
pub struct Missing {
    /// The recorded station that should have sent the datagram, by its index.
    pub sender: u16,
    /// The entry right after which the send belongs: that of the request which it takes up. `None`
    /// if it belongs at the start of the log.
    pub after: Option<usize>,
}
