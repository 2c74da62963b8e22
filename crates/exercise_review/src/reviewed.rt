//! A recording with its review, whose rows are computed one by one without memory.

ghost use Rattle.std.specs.Prelude.{◌≡◌, ◌<◌, ◌≤◌, Some, Ok, Err, length, map, slice_get, IfOk, IfErr};
ghost use Rattle.exercise_model.specs.Account.{others_of, values_below};
ghost use Rattle.exercise_model.specs.Recording.{PlainRecording};
ghost use Rattle.exercise_review.specs.Review.{AreReviewTables, Reviews, line_count};
ghost use Rattle.exercise_review.specs.declared.review.TheConstants.{MOST_LINES};
ghost use Rattle.exercise_review.specs.Span.{all_spans};
ghost use Rattle.exercise_review.specs.Stay.{span_at};
ghost use Rattle.exercise_review.specs.Tally.{IsReviewBelow, ReviewsWithin, fates_of, station_counts};
ghost use Rattle.exercise_review.specs.Told.{orders_of, reviewed_orders};

use crate::changes::changes_by_station;
use crate::fault::ReviewFault;
use crate::register::Register;
use crate::review::MOST_LINES;
use crate::row::{OrderRow, reported_by};
use crate::span::{Span, span_at};
use crate::stay::Stay;
use crate::stays::{refuse_many, stays_within};
use crate::tally::{FateCounts, StationCounts, counts_of_stations, fates_of};
use crate::told::{OrderAt, OrderReview, rows_within};
use exercise_findings::Findings;
use exercise_model::ExerciseLog;
use std::alloc::{AllocError, Global};
use std::marker::Model;

/// The tables of a reviewed recording.
#[derive(Drop)]
struct ReviewTables {
    /// Number of orders.
    orders: usize,
    /// Number of orders at their parties with each fate.
    fates: FateCounts,
    /// The counts of each station, by rising address.
    stations: Vec<StationCounts>,
    /// The compact rows of the orders at their parties.
    rows: Vec<OrderRow>,
    /// The compact spans of the lives of all entities.
    stays: Vec<Stay>,
}

/// A recording with its review: its orders at their parties with their fates, and the lives of its
/// entities. Contracts see only the recording; the tables are private. Only `of` allocates memory.
#[derive(Drop)]
pub struct Reviewed<'a, L: ExerciseLog> {
    findings: Findings<'a, L>,
    kept: ReviewTables,
}

impl<'a, L: ExerciseLog> Model for Reviewed<'a, L> {
    ghost Value = { PlainRecording };

    ghost view = { λ x. x.findings };

    ghost invariant = { λ x. AreReviewTables x.findings x.kept };
}

/// The rows of the orders of a recording, and its findings. The other tables of the register are
/// dropped.
fn listed_in<'a, L: ExerciseLog>(
    alloc: Global,
    findings: Findings<'a, L>,
    most: usize,
) -> Result<(OrderReview, Findings<'a, L>), ReviewFault>
    ensures refused { IfErr result (λ fault. ReviewsWithin findings.entry most (Err fault)) }
    ensures told { IfOk result (λ made. ReviewsWithin findings.entry most (Ok made.0)) }
    ensures findings { IfOk result (λ made. made.1 ≡ findings.entry) }
{
    let register = Register::of(alloc, findings)?;
    let told = rows_within(alloc, &register, most)?;
    Ok((told, register.into_findings()))
}

/// The rows of the orders, the spans of all lives, and the findings; a fault if they exceed the
/// limit of rows. If the lives alone exceed it, that is found before any order is looked up or any
/// span stored.
fn listed<'a, L: ExerciseLog>(
    alloc: Global,
    findings: Findings<'a, L>,
) -> Result<(OrderReview, Vec<Stay>, Findings<'a, L>), ReviewFault>
    ensures refused { IfErr result (λ fault. Reviews findings.entry (Err fault)) }
    ensures told { IfOk result (λ made. IsReviewBelow findings.entry (length findings.entry.entries) made.0) }
    ensures stays { IfOk result (λ made. map (span_at findings.entry) made.1.items ≡ all_spans findings.entry) }
    ensures within { IfOk result (λ _. line_count findings.entry ≤ MOST_LINES) }
    ensures findings { IfOk result (λ made. made.2 ≡ findings.entry) }
{
    let most = MOST_LINES - 1 - findings.log().station_count();
    let changes = changes_by_station(alloc, &findings)?;
    refuse_many(alloc, &findings, &changes, most)?;
    let (told, findings) = listed_in(alloc, findings, most)?;
    let stays = stays_within(alloc, &findings, &changes, most - told.rows.len())?;
    Ok((told, stays, findings))
}

/// The counts of each station, and the number of orders at their parties with each fate.
fn counted<L: ExerciseLog>(
    alloc: Global,
    findings: &Findings<'_, L>,
    told: &OrderReview,
) -> Result<(Vec<StationCounts>, FateCounts), AllocError>
    requires { IsReviewBelow findings.now (length findings.now.entries) told.now }
    ensures stations { IfOk result (λ counts. counts.0.items ≡ values_below (station_counts findings.now) (length findings.now.setting.stations)) }
    ensures fates { IfOk result (λ counts. counts.1 ≡ fates_of (reviewed_orders findings.now)) }
{
    let fates = fates_of(alloc, &told.rows)?;
    let states = findings.states(alloc)?;
    let stations = counts_of_stations(alloc, findings.log(), &states, told)?;
    Ok((stations, fates))
}

impl<'a, L: ExerciseLog> Reviewed<'a, L> {
    /// The review of a recording, given its findings. Allocates memory for the tables. `OverLimit`
    /// if it has more than 4,194,304 rows.
    pub fn of(alloc: Global, findings: Findings<'a, L>) -> Result<Reviewed<'a, L>, ReviewFault>
        ensures reviewed { IfOk result (λ reviewed. reviewed ≡ findings.entry) }
        ensures within { IfOk result (λ _. line_count findings.entry ≤ MOST_LINES) }
        ensures refused { IfErr result (λ fault. Reviews findings.entry (Err fault)) }
    {
        let (told, stays, findings) = listed(alloc, findings)?;
        let (stations, fates) = counted(alloc, &findings, &told)?;
        let OrderReview { makers, rows, .. } = told;
        let kept = ReviewTables {
            orders: makers.len(),
            fates,
            stations,
            rows,
            stays,
        };
        Ok(Reviewed { findings, kept })
    }

    /// The log.
    pub fn log(&self) -> &'a L
        ensures { L.recording result.now ≡ self.now }
    {
        self.findings.log()
    }

    /// Number of orders.
    pub fn order_count(&self) -> usize
        ensures { result ≡ length (orders_of self.now) }
    {
        self.kept.orders
    }

    /// Number of datagrams that are "other".
    pub fn others(&self) -> u32
        ensures { result ≡ others_of self.now }
    {
        self.findings.others()
    }

    /// Number of orders at their parties with each fate.
    pub fn fates(&self) -> FateCounts
        ensures { result ≡ fates_of (reviewed_orders self.now) }
    {
        self.kept.fates
    }

    /// The counts of each station, by rising address.
    pub fn stations(&self) -> &[StationCounts]
        ensures { result.now ≡ values_below (station_counts self.now) (length self.now.setting.stations) }
    {
        self.kept.stations.as_slice()
    }

    /// Number of orders at their parties.
    pub fn order_row_count(&self) -> usize
        ensures { result ≡ length (reviewed_orders self.now) }
    {
        self.kept.rows.len()
    }

    /// An order at one of its parties. They are sorted by head and then by address of the party; an
    /// order without parties occurs once.
    pub fn told(&self, place: usize) -> OrderAt
        requires { place < length (reviewed_orders self.now) }
        ensures { slice_get (reviewed_orders self.now) place ≡ Some result }
    {
        reported_by(&self.findings, self.kept.rows[place])
    }

    /// Number of spans of lives.
    pub fn span_count(&self) -> usize
        ensures { result ≡ length (all_spans self.now) }
    {
        self.kept.stays.len()
    }

    /// A span of the life of an entity. They are sorted by station, entity and time.
    pub fn span(&self, place: usize) -> Span
        requires { place < length (all_spans self.now) }
        ensures { slice_get (all_spans self.now) place ≡ Some result }
    {
        span_at(&self.findings, self.kept.stays[place])
    }
}
