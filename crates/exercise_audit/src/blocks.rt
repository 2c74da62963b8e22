//! Result of a search for a sequence.

use exercise_check::Certificate;
use exercise_model::Cause;

/// Next entry of a station that cannot go on, and its cause.
#[derive(Clone, Copy, PartialEq, Eq)]
pub struct Block {
    /// Index of the station in the recording, from 0.
    pub station: usize,
    /// Number of the entry in the recording, from 0.
    pub entry: usize,
    /// First cause of 5 to 13 that holds there.
    pub cause: Cause,
}

/// Result of a search for a sequence.
#[derive(Drop)]
pub enum Audit {
    /// A sequence that explains the recording.
    Explained(Certificate),
    /// No sequence explains it. One block, by rising indices, for each station that still has
    /// entries when no station can go on; every search ends with these blocks.
    Blocked(Vec<Block>),
}
