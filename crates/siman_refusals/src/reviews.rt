//! Calls that review recordings.

use crate::call::{LibraryCall, Said, refused, usual};
use dis_records::EntityState;
use exercise_findings::{Findings, number_at, put_number};
use exercise_model::{ExerciseLog, Recording};
use exercise_review::{Fate, Review, ReviewFault, Reviewed, review_of};
use std::alloc::{AllocError, Global};

/// Reviews a creation; the log of its application is first.
pub(crate) struct Reviewing;

/// Whether a review is that of the creation: its only order is done at 2:3, and its entity is
/// stopped from the answer on.
fn is_of_creation(review: &Review) -> bool {
    let (told, spans) = (review.told.as_slice(), review.spans.as_slice());
    let done = told.len() == 1 && told[0].head == 2 && told[0].outcome.fate == Fate::Done;
    let lives = spans.len() == 1 && spans[0].state == EntityState::Stopped;
    let stopped = lives && spans[0].from == Some(1) && spans[0].to.is_none();
    review.orders == 1 && review.others == 0 && review.stations.len() == 2 && done && stopped
}

/// The review of a log.
fn reviewed(alloc: Global, log: &Recording) -> Result<Review, ReviewFault> {
    review_of(alloc, Findings::of(alloc, log)?)
}

impl LibraryCall<Recording> for Reviewing {
    fn make(alloc: Global, log: &mut Recording) -> Said {
        match reviewed(alloc, log) {
            Ok(review) => usual(is_of_creation(&review)),
            Err(fault) => refused(fault == ReviewFault::Memory && log.entry_count() == 4),
        }
    }
}

/// Reviews a creation, for a reader that asks for one row after the other.
pub(crate) struct Telling;

/// Whether the review is that of the creation: its only order is done at 2:3, and its entity has
/// one span, stopped.
fn is_creation_reviewed(reviewed: &Reviewed<'_, Recording>) -> bool {
    if reviewed.order_row_count() != 1
        || reviewed.span_count() != 1
        || reviewed.order_count() != 1
    {
        return false;
    }
    let (told, span) = (reviewed.told(0), reviewed.span(0));
    let done = told.head == 2 && told.outcome.fate == Fate::Done && reviewed.fates().done == 1;
    let stopped = span.state == EntityState::Stopped && span.from == Some(1) && span.to.is_none();
    reviewed.others() == 0 && reviewed.stations().len() == 2 && done && stopped
}

/// The review of a log, for such a reader.
fn told(alloc: Global, log: &Recording) -> Result<Reviewed<'_, Recording>, ReviewFault> {
    Reviewed::of(alloc, Findings::of(alloc, log)?)
}

impl LibraryCall<Recording> for Telling {
    fn make(alloc: Global, log: &mut Recording) -> Said {
        match told(alloc, log) {
            Ok(reviewed) => usual(is_creation_reviewed(&reviewed)),
            Err(fault) => refused(fault == ReviewFault::Memory),
        }
    }
}

/// Sets a number in an empty column.
pub(crate) struct Putting;

/// A column of three numbers: the second is 7, the others are 9.
fn column(alloc: Global) -> Result<Vec<u32>, AllocError> {
    let mut column = Vec::new(alloc);
    put_number(&mut column, 9, 3, 1, 7)?;
    Ok(column)
}

impl LibraryCall<()> for Putting {
    fn make(alloc: Global, _lent: &mut ()) -> Said {
        match column(alloc) {
            Ok(column) => usual(
                number_at(&column, 9, 0) == 9
                    && number_at(&column, 9, 1) == 7
                    && number_at(&column, 9, 2) == 9,
            ),
            Err(_) => Said::Memory,
        }
    }
}
