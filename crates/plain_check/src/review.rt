//! The review of a whole recording.

use crate::check::entries_before;
use crate::lives::push_lives;
use crate::orders::order_at;
use crate::outcomes::push_order;
use crate::parties::station_address;
use crate::report::{plain_others, plain_states};
use dis_records::EntityState;
use exercise_model::ExerciseLog;
use exercise_review::{Fate, FateCounts, OrderAt, Party, Review, Span, StationCounts};
use std::alloc::{AllocError, Global};

/// Number of these orders at their parties with a fate, in all or at one station.
fn fated(told: &[OrderAt], station: Option<u16>, fate: Fate) -> usize {
    let mut count = 0usize;
    for at in told {
        let is_there = match station {
            Some(station) => at.outcome.party == Some(Party::Station(station)),
            None => true,
        };
        if is_there && at.outcome.fate == fate {
            count = count.saturating_add(1);
        }
    }
    count
}

/// Number of these orders at their parties with each fate, in all or at one station.
fn fates_of(told: &[OrderAt], station: Option<u16>) -> FateCounts {
    FateCounts {
        done: fated(told, station, Fate::Done),
        answered: fated(told, station, Fate::Answered),
        refused: fated(told, station, Fate::Refused),
        pending: fated(told, station, Fate::Pending),
        unheard: fated(told, station, Fate::Unheard),
        unanswered: fated(told, station, Fate::Unanswered),
        lost: fated(told, station, Fate::Lost),
        unknown: fated(told, station, Fate::Unknown),
        nobody: fated(told, station, Fate::Nobody),
    }
}

/// Number of orders that a station made, or of all orders.
fn made_by<L: ExerciseLog>(log: &L, station: Option<u16>) -> usize {
    let mut count = 0usize;
    for entry in 0..log.entry_count() {
        match order_at(log, entry) {
            Some(order) if station.is_none() || order.maker == station => {
                count = count.saturating_add(1);
            }
            _ => {}
        }
    }
    count
}

/// Number of these entities that are Running.
fn running(states: &[(u16, EntityState)]) -> usize {
    let mut count = 0usize;
    for (_, state) in states {
        if *state == EntityState::Running {
            count = count.saturating_add(1);
        }
    }
    count
}

/// Counts of a station whose entity numbers are at most `most`.
fn station_counts<L: ExerciseLog>(
    alloc: Global,
    log: &L,
    told: &[OrderAt],
    station: u16,
    most: u16,
) -> Result<StationCounts, AllocError> {
    let states = plain_states(alloc, log, usize::from(station), most)?;
    Ok(StationCounts {
        at: station_address(log, station),
        records: entries_before(log, usize::from(station), log.entry_count()),
        made: made_by(log, Some(station)),
        fates: fates_of(told, Some(station)),
        entities: states.len(),
        running: running(&states),
    })
}

/// Each order of a recording at its parties.
fn result_of<L: ExerciseLog>(alloc: Global, log: &L) -> Result<Vec<OrderAt>, AllocError> {
    let mut told = Vec::new(alloc);
    for entry in 0..log.entry_count() {
        if let Some(order) = order_at(log, entry) {
            push_order(alloc, log, &mut told, &order)?;
        }
    }
    Ok(told)
}

/// Counts of each station.
fn stations_of<L: ExerciseLog>(
    alloc: Global,
    log: &L,
    told: &[OrderAt],
    most: u16,
) -> Result<Vec<StationCounts>, AllocError> {
    let mut stations = Vec::new(alloc);
    for station in 0..log.station_count() {
        if let Ok(station) = u16::try_from(station) {
            stations.push(station_counts(alloc, log, told, station, most)?)?;
        }
    }
    Ok(stations)
}

/// The spans of the lives of each station's entities.
fn spans_of<L: ExerciseLog>(alloc: Global, log: &L, most: u16) -> Result<Vec<Span>, AllocError> {
    let mut spans = Vec::new(alloc);
    for station in 0..log.station_count() {
        if let Ok(station) = u16::try_from(station) {
            push_lives(alloc, log, &mut spans, station, most)?;
        }
    }
    Ok(spans)
}

/// The review of a recording whose entity numbers are at most `most`. Has no limit of rows.
pub fn plain_review<L: ExerciseLog>(
    alloc: Global,
    log: &L,
    most: u16,
) -> Result<Review, AllocError> {
    let told = result_of(alloc, log)?;
    Ok(Review {
        orders: made_by(log, None),
        others: plain_others(log),
        fates: fates_of(&told, None),
        stations: stations_of(alloc, log, &told, most)?,
        spans: spans_of(alloc, log, most)?,
        told,
    })
}
