//! Certificates: a sequence of a recording's entries.

/// Link of a step that links to no entry.
pub const NO_LINK: u32 = 0xFFFF_FFFF;

/// A step of a sequence: its entry, and the entry that this one links to.
#[derive(Clone, Copy, PartialEq, Eq)]
pub struct Step {
    /// Number of the entry in the recording, from 0.
    pub place: u32,
    /// For a sent answer, the number of the entry with its request; for a datagram that means
    /// something and was received from a recorded station, the number of the first earlier entry of
    /// the sequence that sent equal bytes; otherwise [`NO_LINK`].
    pub link: u32,
}

/// A sequence of a recording's entries, step by step. It may hold any numbers: only the checker
/// decides whether it explains a recording.
#[derive(Drop)]
pub struct Certificate {
    /// Steps, from the first to the last.
    pub steps: Vec<Step>,
}
