//! The orders of a recording at their parties.

ghost use Rattle.std.specs.Prelude.{◌≡◌, ◌≤◌, ◌<◌, ◌+◌, ◌∷◌, [], Some, length, map, IfOk, OnOk};
ghost use Rattle.exercise_review.specs.Asked.{IsAsked};
ghost use Rattle.exercise_review.specs.Order.{order_of, order_at};
ghost use Rattle.exercise_review.specs.Outcome.{outcome_at};
ghost use Rattle.exercise_review.specs.Row.{AddsRows, IsKept};
ghost use Rattle.exercise_review.specs.Told.{order_at_party, order_at_parties, order_at_its_parties};
ghost use Rattle.exercise_review.specs.Records.{AreRecords};
ghost use Rattle.exercise_review.specs.Tally.{IsReviewBelow, ReviewsWithin};

use crate::fault::ReviewFault;
use crate::hints::Hints;
use crate::order::{RecordedOrder, order_at_entry};
use crate::outcome::{OrderFacts, Outcome, asked_at_head, outcome_at, partyless_outcome};
use crate::parties::parties_by;
use crate::party::Party;
use crate::register::Register;
use crate::row::{OrderRow, row_of};
use dis_records::{EntityId, Kind, SiteApplication};
use exercise_model::ExerciseLog;
use std::alloc::{AllocError, Global};

/// An order at one of its parties, with its outcome there.
#[derive(Clone, Copy, PartialEq, Eq)]
pub struct OrderAt {
    /// The head of the order: its first entry, from 0.
    pub head: usize,
    /// The address of its maker.
    pub from: SiteApplication,
    /// Its request identifier.
    pub request: Option<u32>,
    /// Its kind.
    pub kind: Kind,
    /// Its target.
    pub to: EntityId,
    /// The address of the party; `None` if the order has none.
    pub at: Option<SiteApplication>,
    /// Its outcome there.
    pub outcome: Outcome,
}

/// Adds the row of an order at one of its parties; `OverLimit` if there are `most` rows already.
fn push_row<L: ExerciseLog>(
    rows: &mut Vec<OrderRow>,
    most: usize,
    findings: &Register<'_, L>,
    order: &RecordedOrder<'_>,
    outcome: Outcome,
) -> Result<(), ReviewFault>
    requires room { length rows.old.items ≤ most }
    requires head { order_at findings.now order.now.head ≡ Some (order_of order.now) }
    requires kept { IsKept findings.now (order_of order.now) outcome }
    ensures { AddsRows findings.now most rows.old.items (order_at_party findings.now (order_of order.now) outcome ∷ []) result rows.new.items }
{
    if rows.len() >= most {
        return Err(ReviewFault::OverLimit);
    }
    rows.push(row_of(findings, order, outcome))?;
    Ok(())
}

/// Adds the rows of an order at these parties, given the data about it; `OverLimit` beyond `most`
/// rows.
fn push_parties<L: ExerciseLog>(
    rows: &mut Vec<OrderRow>,
    most: usize,
    findings: &Register<'_, L>,
    order: &RecordedOrder<'_>,
    asked: OrderFacts<'_>,
    parties: &[Party],
    hints: &mut Hints,
) -> Result<(), ReviewFault>
    requires room { length rows.old.items ≤ most }
    requires head { order_at findings.now order.now.head ≡ Some (order_of order.now) }
    requires asked { IsAsked findings.now (order_of order.now) asked }
    ensures { let o = order_of order.now in AddsRows findings.now most rows.old.items (map (λ party. order_at_party findings.now o (outcome_at findings.now o party)) parties.now) result rows.new.items }
{
    for party in parties {
        let outcome = outcome_at(findings, order, asked, *party, hints);
        push_row(rows, most, findings, order, outcome)?;
    }
    Ok(())
}

/// Adds the rows of an order at each of its parties; `OverLimit` beyond `most` rows. `parties` is a
/// buffer.
#[tactic(auto, unfolding(crate::specs::Outcome::outcomes_of))]
fn push_order<L: ExerciseLog>(
    parties: &mut Vec<Party>,
    rows: &mut Vec<OrderRow>,
    most: usize,
    findings: &Register<'_, L>,
    order: &RecordedOrder<'_>,
    hints: &mut Hints,
) -> Result<(), ReviewFault>
    requires room { length rows.old.items ≤ most }
    requires head { order_at findings.now order.now.head ≡ Some (order_of order.now) }
    ensures { AddsRows findings.now most rows.old.items (order_at_parties findings.now (order_of order.now)) result rows.new.items }
{
    let asked = asked_at_head(findings, order, hints);
    parties_by(parties, findings, order, asked.own)?;
    if parties.is_empty() {
        let outcome = partyless_outcome(findings, order, asked.sends);
        return push_row(rows, most, findings, order, outcome);
    }
    push_parties(rows, most, findings, order, asked, parties, hints)
}

/// The review of the entries read so far.
#[derive(Drop)]
pub(crate) struct OrderReview {
    /// Number of entries in the log of each station.
    pub records: Vec<usize>,
    /// The maker of each order; `None` if it is not recorded.
    pub makers: Vec<Option<u16>>,
    /// The rows of the orders at their parties.
    pub rows: Vec<OrderRow>,
}

/// Adds the order whose head is the next entry, if any; `OverLimit` beyond `most` rows. `parties`
/// is a buffer.
fn push_entry<L: ExerciseLog>(
    parties: &mut Vec<Party>,
    told: &mut OrderReview,
    most: usize,
    findings: &Register<'_, L>,
    entry: usize,
    hints: &mut Hints,
) -> Result<(), ReviewFault>
    requires within { entry < length findings.now.entries }
    requires room { length told.old.rows.items ≤ most }
    requires before { IsReviewBelow findings.now entry told.old }
    ensures told { OnOk result (IsReviewBelow findings.now (entry + 1) told.new) }
    ensures added { AddsRows findings.now most told.old.rows.items (order_at_its_parties findings.now entry) result told.new.rows.items }
{
    match order_at_entry(findings, entry) {
        Some(order) => {
            told.makers.push(order.maker)?;
            push_order(parties, &mut told.rows, most, findings, &order, hints)
        }
        None => Ok(()),
    }
}

/// Number of entries in the log of each station.
fn records_of<L: ExerciseLog>(
    alloc: Global,
    findings: &Register<'_, L>,
) -> Result<Vec<usize>, AllocError>
    ensures { IfOk result (λ records. AreRecords findings.now (length findings.now.entries) records.items) }
{
    let mut records = Vec::new(alloc);
    records.extend_from_slice(findings.records())?;
    Ok(records)
}

/// The rows of all orders of a recording at all their parties; `OverLimit` if there are more than
/// `most`. Stops at the end of the entries that can have a key, since only those can be heads.
pub(crate) fn rows_within<L: ExerciseLog>(
    alloc: Global,
    findings: &Register<'_, L>,
    most: usize,
) -> Result<OrderReview, ReviewFault>
    ensures { ReviewsWithin findings.now most result }
{
    let mut told = OrderReview {
        records: records_of(alloc, findings)?,
        makers: Vec::new(alloc),
        rows: Vec::new(alloc),
    };
    let mut parties = Vec::new(alloc);
    let mut hints = Hints::new();
    for entry in 0..findings.indexed_end() {
        push_entry(&mut parties, &mut told, most, findings, entry, &mut hints)?;
    }
    Ok(told)
}
