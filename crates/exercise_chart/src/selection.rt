//! What a picture shows of a recording.

use crate::clock::ClockUnit;
use crate::point::Rows;
use dis_records::{EntityId, SiteApplication};
use exercise_model::Cause;

/// What a picture shows of a recording.
#[derive(Clone, Copy)]
pub struct Selection<'a> {
    /// The range of steps.
    pub rows: Rows,
    /// The entities that are chosen for bars; none means all.
    pub entities: &'a [EntityId],
    /// The addresses of the stations whose columns are kept; none means all.
    pub stations: &'a [SiteApplication],
    /// What stamps count, if rows have a clock.
    pub clock: Option<ClockUnit>,
    /// Next entries of stations that cannot go on.
    pub blocked: &'a [BlockedEntry],
}

/// The next entry of a station that cannot go on, and the cause against it.
#[derive(Clone, Copy)]
pub struct BlockedEntry {
    pub entry: usize,
    pub cause: Cause,
}
