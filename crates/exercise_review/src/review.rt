//! The review of a whole recording.

ghost use Rattle.std.specs.Prelude.{◌≡◌, length, IfOk};
ghost use Rattle.exercise_model.specs.Account.{values_below};
ghost use Rattle.exercise_review.specs.Review.{Reviews};
ghost use Rattle.exercise_review.specs.Span.{all_spans};
ghost use Rattle.exercise_review.specs.Tally.{station_counts};
ghost use Rattle.exercise_review.specs.Told.{reviewed_orders};

use crate::fault::ReviewFault;
use crate::reviewed::Reviewed;
use crate::span::Span;
use crate::tally::{FateCounts, StationCounts};
use crate::told::OrderAt;
use exercise_findings::Findings;
use exercise_model::ExerciseLog;
use std::alloc::{AllocError, Global};

/// Most rows that a review can have.
pub const MOST_LINES: usize = 4_194_304;

/// The review of a recording: its orders at their parties with their fates, and the lives of its
/// entities.
#[derive(Drop)]
pub struct Review {
    /// Number of orders.
    pub orders: usize,
    /// Number of datagrams that are "other".
    pub others: u32,
    /// Number of orders at their parties with each fate.
    pub fates: FateCounts,
    /// The counts of each station, by rising address.
    pub stations: Vec<StationCounts>,
    /// Each order at each of its parties, by head and then by address of the party; once if it has
    /// none.
    pub told: Vec<OrderAt>,
    /// The spans of the lives of all entities, by station, entity and time.
    pub spans: Vec<Span>,
}

/// The counts of each station, by rising address.
fn stations_in<L: ExerciseLog>(
    alloc: Global,
    reviewed: &Reviewed<'_, L>,
) -> Result<Vec<StationCounts>, AllocError>
    ensures { IfOk result (λ stations. stations.items ≡ values_below (station_counts reviewed.now) (length reviewed.now.setting.stations)) }
{
    let mut stations = Vec::new(alloc);
    stations.extend_from_slice(reviewed.stations())?;
    Ok(stations)
}

/// All orders at all their parties, in order.
fn listed_in<L: ExerciseLog>(
    alloc: Global,
    reviewed: &Reviewed<'_, L>,
) -> Result<Vec<OrderAt>, AllocError>
    ensures { IfOk result (λ told. told.items ≡ reviewed_orders reviewed.now) }
{
    let mut told = Vec::with_capacity(alloc, reviewed.order_row_count())?;
    for place in 0..reviewed.order_row_count() {
        told.push(reviewed.told(place))?;
    }
    Ok(told)
}

/// The spans of all lives, in order.
fn spans_in<L: ExerciseLog>(
    alloc: Global,
    reviewed: &Reviewed<'_, L>,
) -> Result<Vec<Span>, AllocError>
    ensures { IfOk result (λ spans. spans.items ≡ all_spans reviewed.now) }
{
    let mut spans = Vec::with_capacity(alloc, reviewed.span_count())?;
    for place in 0..reviewed.span_count() {
        spans.push(reviewed.span(place))?;
    }
    Ok(spans)
}

/// The review of a recording, given its findings. `OverLimit` if it has more than 4,194,304 rows.
pub fn review_of<L: ExerciseLog>(
    alloc: Global,
    findings: Findings<'_, L>,
) -> Result<Review, ReviewFault>
    ensures { Reviews findings.entry result }
{
    let reviewed = Reviewed::of(alloc, findings)?;
    Ok(Review {
        orders: reviewed.order_count(),
        others: reviewed.others(),
        fates: reviewed.fates(),
        stations: stations_in(alloc, &reviewed)?,
        told: listed_in(alloc, &reviewed)?,
        spans: spans_in(alloc, &reviewed)?,
    })
}
