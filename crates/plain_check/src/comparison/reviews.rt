//! Compares the review with the plain version, on random recordings.

use crate::comparison::agreement::is_number;
use crate::comparison::recordings::recording;
use crate::{plain_head, plain_lives, plain_missing, plain_receipts, plain_review, plain_source};
use exercise_findings::Findings;
use exercise_model::{EntryView, ExerciseLog, Form, LARGEST_ENTITY, meaning_view};
use exercise_review::{
    Fate, FateCounts, OrderAt, Party, Register, Review, ReviewFault, change_of_order, fate_of,
    head_of, lives_of, missing_at, order_at, receipt_counts, review_of,
};
use siman_pdus::BodyView;
use siman_trials::{ENTITIES, Random};
use std::alloc::{AllocError, Global};
use std::io;
use std::io::Write;

/// The counted kinds: each fate, and the missing sends.
static COUNTED: [&str; 10] = [
    "done",
    "answered",
    "refused",
    "pending",
    "unheard",
    "unanswered",
    "lost",
    "unknown",
    "nobody",
    "missing",
];

/// Index in [`COUNTED`] of the fate that occurs only in open recordings.
const UNKNOWN: usize = 7;

/// Counts of the fates and the missing sends in the reviews.
#[derive(Drop)]
pub struct Reviews {
    /// Number of recordings whose plain review differed, or that could not be generated.
    pub otherwise: u32,
    counts: [usize; 10],
}

/// Whether an entry acknowledges the creation of all entities.
fn creates_all<L: ExerciseLog>(log: &L, entry: &EntryView<'_>) -> bool {
    let EntryView::Sent { bytes, .. } = *entry else {
        return false;
    };
    match meaning_view(log.exercise(), bytes) {
        Some(pdu) if pdu.origin.entity == 0 => matches!(
            pdu.body,
            BodyView::Acknowledge {
                flag: 1,
                response: 1,
                ..
            }
        ),
        _ => false,
    }
}

/// An upper bound for the entity numbers in a random recording.
fn most_in<L: ExerciseLog>(log: &L) -> u16 {
    for entry in 0..log.entry_count() {
        if creates_all(log, &log.entry(entry)) {
            return LARGEST_ENTITY;
        }
    }
    u16::from(ENTITIES)
}

/// Whether two reviews are equal.
fn is_same(one: &Review, other: &Review) -> bool {
    one.orders == other.orders
        && one.others == other.others
        && one.fates == other.fates
        && one.stations.as_slice() == other.stations.as_slice()
        && one.told.as_slice() == other.told.as_slice()
        && one.spans.as_slice() == other.spans.as_slice()
}

/// Whether the fast review of a log equals the plain one.
pub(crate) fn is_review_same<L: ExerciseLog>(
    alloc: Global,
    log: &L,
    plain: &Review,
) -> Result<bool, AllocError> {
    match review_of(alloc, Findings::of(alloc, log)?) {
        Ok(fast) => Ok(is_same(&fast, plain)),
        Err(ReviewFault::OverLimit) => Ok(false),
        Err(ReviewFault::Memory) => Err(AllocError),
    }
}

/// Whether the head, the source, the missing send and the receipts of each entry equal the plain
/// results.
fn are_entries_same<L: ExerciseLog>(
    log: &L,
    register: &Register<'_, L>,
    receipts: &[usize],
) -> bool {
    let mut same = receipts.len() == log.entry_count();
    for entry in 0..log.entry_count().saturating_add(1) {
        same = same
            && head_of(register, entry) == plain_head(log, entry)
            && is_number(register.source(entry), plain_source(log, entry))
            && missing_at(register, entry) == plain_missing(log, entry);
        if let Some(count) = receipts.get(entry) {
            same = same && *count == plain_receipts(log, entry);
        }
    }
    same
}

/// Number of missing sends.
fn missing_in<L: ExerciseLog>(log: &L) -> usize {
    let mut missing = 0usize;
    for entry in 0..log.entry_count() {
        if plain_missing(log, entry).is_some() {
            missing = missing.saturating_add(1);
        }
    }
    missing
}

/// Whether the fate and the change of an order, computed for it alone, equal those of the plain
/// review.
fn is_order_same<L: ExerciseLog>(register: &Register<'_, L>, told: &OrderAt) -> bool {
    let Some(order) = order_at(register, told.head) else {
        return false;
    };
    match told.outcome.party {
        Some(Party::Station(station)) => {
            fate_of(register, &order, Party::Station(station)) == told.outcome.fate
                && change_of_order(register, &order, station) == told.outcome.change
        }
        Some(Party::Outside(_)) => told.outcome.fate == Fate::Unknown,
        None => told.outcome.fate == Fate::Nobody,
    }
}

/// Whether the life of an entity equals the plain result; true past the last station.
fn is_life_same<L: ExerciseLog>(
    alloc: Global,
    log: &L,
    register: &Register<'_, L>,
    station: u16,
    entity: u16,
) -> Result<bool, AllocError> {
    if usize::from(station) >= register.log().station_count() {
        return Ok(true);
    }
    let plain = plain_lives(alloc, log, station, entity)?;
    match lives_of(alloc, register, station, entity) {
        Ok(fast) => Ok(fast.as_slice() == plain.as_slice()),
        Err(error) => Err(error),
    }
}

/// Whether the lives of a few entities of each station, and of the numbers 0 and 0xFFFF, which no
/// entity has, equal the plain results.
fn are_lives_same<L: ExerciseLog>(
    alloc: Global,
    log: &L,
    register: &Register<'_, L>,
) -> Result<bool, AllocError> {
    for station in 0..log.station_count() {
        for entity in [0, 1, 2, 3, 4, 5, LARGEST_ENTITY, 0xFFFF] {
            if !is_life_same(alloc, log, register, station as u16, entity)? {
                return Ok(false);
            }
        }
    }
    Ok(true)
}

/// Whether each order of a plain review passes [`is_order_same`].
fn are_orders_same<L: ExerciseLog>(register: &Register<'_, L>, told: &[OrderAt]) -> bool {
    for order in told {
        if !is_order_same(register, order) {
            return false;
        }
    }
    true
}

/// Whether the results for single orders, entries and lives equal the plain results.
fn is_single_same<L: ExerciseLog>(
    alloc: Global,
    log: &L,
    register: &Register<'_, L>,
    told: &[OrderAt],
) -> Result<bool, AllocError> {
    let lives = are_lives_same(alloc, log, register)?;
    if !lives || !are_orders_same(register, told) {
        return Ok(false);
    }
    let receipts = receipt_counts(alloc, register)?;
    Ok(are_entries_same(log, register, &receipts))
}

/// As [`is_single_same`], with a new register of the log.
fn is_found_same<L: ExerciseLog>(
    alloc: Global,
    log: &L,
    told: &[OrderAt],
) -> Result<bool, AllocError> {
    let register = Register::of(alloc, Findings::of(alloc, log)?)?;
    is_single_same(alloc, log, &register, told)
}

/// Whether the review of a recording equals the plain review, and so do the results for single
/// orders, entries and lives.
fn are_results_same<L: ExerciseLog>(
    alloc: Global,
    log: &L,
    plain: &Review,
) -> Result<bool, AllocError> {
    if is_review_same(alloc, log, plain)? {
        is_found_same(alloc, log, &plain.told)
    } else {
        Ok(false)
    }
}

/// The counts of the fates and of the missing sends, in the order of [`COUNTED`].
fn counts_of(fates: &FateCounts, missing: usize) -> [usize; 10] {
    [
        fates.done,
        fates.answered,
        fates.refused,
        fates.pending,
        fates.unheard,
        fates.unanswered,
        fates.lost,
        fates.unknown,
        fates.nobody,
        missing,
    ]
}

impl Reviews {
    /// Adds the result of a comparison and its counts.
    fn note(&mut self, same: bool, more: &[usize; 10]) {
        if !same {
            self.otherwise = self.otherwise.saturating_add(1);
        }
        for place in 0..10usize {
            self.counts[place] = self.counts[place].saturating_add(more[place]);
        }
    }

    /// Compares the review of a recording with the plain review, and counts its fates.
    fn try_log<L: ExerciseLog>(&mut self, alloc: Global, log: &L) -> Result<(), AllocError> {
        let plain = plain_review(alloc, log, most_in(log))?;
        let same = are_results_same(alloc, log, &plain)?;
        self.note(same, &counts_of(&plain.fates, missing_in(log)));
        Ok(())
    }

    /// Whether all reviews equalled the plain ones and each fate occurred; the fate unknown must
    /// occur in an open recording and no other.
    pub fn are_good(&self, form: Form) -> bool {
        for place in 0..10usize {
            let is_wanted = place != UNKNOWN || form == Form::Open;
            if (self.counts[place] > 0) != is_wanted {
                return false;
            }
        }
        self.otherwise == 0
    }

    /// Prints the number of each fate and of missing sends.
    pub fn print<W: Write>(&self, out: &mut W) -> io::Result<()> {
        for place in 0..10usize {
            write!(out, "{} {}, ", COUNTED[place], self.counts[place])?;
        }
        writeln!(out, "otherwise {}", self.otherwise)
    }
}

/// Compares the reviews of `count` random recordings of a form.
pub fn try_reviews(alloc: Global, form: Form, count: u32) -> Result<Reviews, AllocError> {
    let mut reviews = Reviews {
        otherwise: 0,
        counts: [0; 10],
    };
    for number in 0..count {
        let mut random = Random {
            state: u64::from(number),
        };
        let _first = random.below(1);
        match recording(alloc, form, true, random) {
            Ok(log) => reviews.try_log(alloc, &log)?,
            Err(_) => reviews.otherwise = reviews.otherwise.saturating_add(1),
        }
    }
    Ok(reviews)
}
