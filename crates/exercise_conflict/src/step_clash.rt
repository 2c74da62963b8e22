//! Contradictions of a certificate's step, and where they are.

use crate::clash::Clash;

/// The other side of the first cause against a certificate's step. Steps and entries are named by
/// their numbers, from 0.
#[derive(Clone, Copy, PartialEq, Eq)]
pub enum StepClash {
    /// The numbers of steps and entries differ.
    CountDiffers {
        /// Number of steps.
        steps: usize,
        /// Number of entries.
        records: usize,
        /// The lowest entry that no step names.
        missing: Option<usize>,
        /// The lowest entry that two steps name.
        twice: Option<usize>,
    },
    /// It names an entry that does not exist.
    NoSuchRecord {
        /// The number that it names.
        place: usize,
        /// Number of entries.
        records: usize,
    },
    /// It names an entry that is not the next one of its station.
    OutOfOrder {
        /// The entry.
        place: usize,
        /// The first earlier step that names it too.
        taken: Option<usize>,
        /// The next entry of its station; `None` if the station is done.
        next: Option<usize>,
    },
    /// Its event can happen next, but its link is wrong.
    BadLink {
        /// The entry that it names.
        place: usize,
        /// Its link; `None` if it has none.
        link: Option<usize>,
        /// The right link; `None` if it should have none.
        right: Option<usize>,
    },
    /// Its event cannot happen next.
    Event {
        /// The entry that it names.
        entry: usize,
        /// The contradiction.
        clash: Clash,
        /// For a datagram that was not sent yet, the first step that takes its source, too late.
        step: Option<usize>,
    },
}
