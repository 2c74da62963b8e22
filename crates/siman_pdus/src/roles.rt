//! Roles of PDUs.

/// Role of a PDU in an exchange.
#[derive(Clone, Copy)]
pub enum Role {
    /// Create Entity, Remove Entity, Start/Resume, Stop/Freeze, Action Request, Data Query, Set
    /// Data.
    Request,
    /// Acknowledge with a flag from 1 to 4, Action Response, Data.
    Answer,
    /// Event Report, Comment.
    Notice,
    /// Acknowledge with another flag (profile).
    Outside,
}
