//! The outcome of an order at each of its parties.

use crate::change::change_made;
use crate::entries::entry_at;
use crate::orders::{copies_of, send_count};
use crate::parties::{parties_of, party_address, station_address, told_from};
use crate::replies::{decisive_entry, first_settling, news_of, replies_of, word_of};
use dis_records::SiteApplication;
use exercise_model::{EntryView, ExerciseLog};
use exercise_review::{Fate, OrderAt, Outcome, Party, RecordedOrder, Word};
use siman_pdus::{Message, request_id};
use std::alloc::{AllocError, Global};

/// Stamp of an optional entry.
pub(crate) fn stamp_of<L: ExerciseLog>(log: &L, entry: Option<usize>) -> Option<u64> {
    match entry_at(log, entry?)? {
        EntryView::Sent { stamp, .. } | EntryView::Received { stamp, .. } => Some(stamp),
        EntryView::Told { .. } => None,
    }
}

/// Time between two entries by the clock of their station; `None` if that was set back.
fn took<L: ExerciseLog>(log: &L, first: usize, last: Option<usize>) -> Option<u64> {
    let (from, until) = (stamp_of(log, Some(first))?, stamp_of(log, last)?);
    if from <= until {
        Some(until - from)
    } else {
        None
    }
}

/// Fate of an order at a party, given whether the party received it, its replies, and their
/// receipts at the maker.
fn fate_of<L: ExerciseLog>(
    log: &L,
    order: &RecordedOrder<'_>,
    is_got: bool,
    replies: &[usize],
    news: &[usize],
) -> Fate {
    let is_made = order.maker.is_some();
    let is_settled = first_settling(log, replies).is_some();
    match word_of(log, first_settling(log, news)) {
        Some(Word::Able | Word::Complete | Word::Data) if is_made => Fate::Done,
        Some(Word::Unable | Word::Rejected) if is_made => Fate::Refused,
        Some(_) if is_made => Fate::Answered,
        _ if is_made && is_settled => Fate::Unheard,
        _ if !replies.is_empty() && !is_settled => Fate::Pending,
        _ if is_got && replies.is_empty() => Fate::Unanswered,
        _ if !is_got => Fate::Lost,
        _ => Fate::Unknown,
    }
}

/// The first of these entries of a station that makes a change.
fn first_changing<L: ExerciseLog>(log: &L, station: u16, entries: &[usize]) -> Option<usize> {
    for entry in entries {
        if change_made(log, usize::from(station), *entry).is_some() {
            return Some(*entry);
        }
    }
    None
}

/// The outcome of an order without parties.
fn partyless_outcome<L: ExerciseLog>(log: &L, order: &RecordedOrder<'_>) -> Outcome {
    Outcome {
        party: None,
        sends: match order.maker {
            Some(maker) => Some(send_count(log, maker, &order.request)),
            None => None,
        },
        receipts: None,
        got: None,
        said: None,
        answer: None,
        heard: None,
        news: None,
        took: None,
        change: None,
        fate: Fate::Nobody,
    }
}

/// The outcome of an order at a recorded station, given its replies and their receipts at the
/// maker.
fn outcome_by<L: ExerciseLog>(
    log: &L,
    order: &RecordedOrder<'_>,
    station: u16,
    replies: &[usize],
    news: &[usize],
) -> Outcome {
    let (count, first) = copies_of(log, station, &order.request);
    let mut outcome = partyless_outcome(log, order);
    outcome.party = Some(Party::Station(station));
    outcome.receipts = Some(count);
    outcome.got = first;
    outcome.answer = decisive_entry(log, replies);
    outcome.said = word_of(log, outcome.answer);
    outcome.news = decisive_entry(log, news);
    outcome.heard = word_of(log, outcome.news);
    outcome.took = took(log, order.head, outcome.news);
    outcome.change = first_changing(log, station, replies);
    outcome.fate = fate_of(log, order, count > 0, replies, news);
    outcome
}

/// The outcome of an order at a recorded station.
fn recorded_outcome<L: ExerciseLog>(
    alloc: Global,
    log: &L,
    order: &RecordedOrder<'_>,
    station: u16,
) -> Result<Outcome, AllocError> {
    let replies = replies_of(alloc, log, order, station)?;
    match news_of(alloc, log, order, &replies) {
        Ok(news) => Ok(outcome_by(log, order, station, &replies, &news)),
        Err(error) => Err(error),
    }
}

/// The outcome of an order at an address of no recorded station.
fn outsider_outcome<L: ExerciseLog>(
    alloc: Global,
    log: &L,
    order: &RecordedOrder<'_>,
    address: SiteApplication,
) -> Result<Outcome, AllocError> {
    let told = told_from(alloc, log, order, address)?;
    let mut outcome = partyless_outcome(log, order);
    outcome.party = Some(Party::Outside(address));
    outcome.news = decisive_entry(log, &told);
    outcome.heard = word_of(log, outcome.news);
    outcome.took = took(log, order.head, outcome.news);
    outcome.fate = Fate::Unknown;
    Ok(outcome)
}

/// An order with its outcome at a party, or without a party.
fn order_at_party<L: ExerciseLog>(
    alloc: Global,
    log: &L,
    order: &RecordedOrder<'_>,
    party: Option<Party>,
) -> Result<OrderAt, AllocError> {
    let outcome = match party {
        Some(Party::Station(station)) => recorded_outcome(alloc, log, order, station)?,
        Some(Party::Outside(address)) => outsider_outcome(alloc, log, order, address)?,
        None => partyless_outcome(log, order),
    };
    Ok(OrderAt {
        head: order.head,
        from: match order.maker {
            Some(maker) => station_address(log, maker),
            None => order.request.origin.site_application(),
        },
        request: request_id(&order.request),
        kind: order.request.kind(),
        to: order.request.target,
        at: match party {
            Some(party) => Some(party_address(log, party)),
            None => None,
        },
        outcome,
    })
}

/// Adds an order at each of these parties, or once if there are none.
fn push_at<L: ExerciseLog>(
    alloc: Global,
    log: &L,
    told: &mut Vec<OrderAt>,
    order: &RecordedOrder<'_>,
    parties: &[Party],
) -> Result<(), AllocError> {
    if parties.is_empty() {
        told.push(order_at_party(alloc, log, order, None)?)?;
    }
    for party in parties {
        told.push(order_at_party(alloc, log, order, Some(*party))?)?;
    }
    Ok(())
}

/// Adds an order at each of its parties, or once if it has none.
pub(crate) fn push_order<L: ExerciseLog>(
    alloc: Global,
    log: &L,
    told: &mut Vec<OrderAt>,
    order: &RecordedOrder<'_>,
) -> Result<(), AllocError> {
    let parties = parties_of(alloc, log, order)?;
    push_at(alloc, log, told, order, &parties)
}
