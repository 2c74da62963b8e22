//! The replies of a party to an order, their receipts by its maker, and which of several answers
//! counts.

use crate::entries::{bytes_at, pdu_at, pdu_sent, received_by};
use crate::report::plain_pair;
use exercise_model::{EntryView, ExerciseLog};
use exercise_review::{RecordedOrder, Word};
use siman_pdus::{BodyView, answers, same_order};
use std::alloc::{AllocError, Global};

/// Whether a station sends, at an entry, an answer to an order that takes up a copy of it.
fn is_reply<L: ExerciseLog>(
    log: &L,
    order: &RecordedOrder<'_>,
    station: usize,
    entry: usize,
) -> bool {
    let (Some(answer), Some(pair)) = (pdu_sent(log, station, entry), plain_pair(log, entry)) else {
        return false;
    };
    match received_by(log, station, pair) {
        Some(copy) => answers(&answer, &order.request) && same_order(&order.request, &copy),
        None => false,
    }
}

/// The entries at which a station replies to an order.
pub(crate) fn replies_of<L: ExerciseLog>(
    alloc: Global,
    log: &L,
    order: &RecordedOrder<'_>,
    station: u16,
) -> Result<Vec<usize>, AllocError> {
    let mut replies = Vec::new(alloc);
    for entry in 0..log.entry_count() {
        if is_reply(log, order, usize::from(station), entry) {
            replies.push(entry)?;
        }
    }
    Ok(replies)
}

/// Whether one of these entries sends or receives these bytes.
fn are_bytes_of<L: ExerciseLog>(log: &L, entries: &[usize], bytes: &[u8]) -> bool {
    for entry in entries {
        if bytes_at(log, *entry) == Some(bytes) {
            return true;
        }
    }
    false
}

/// The entries at which the maker of an order, if it is recorded, receives the bytes of one of these
/// replies.
pub(crate) fn news_of<L: ExerciseLog>(
    alloc: Global,
    log: &L,
    order: &RecordedOrder<'_>,
    replies: &[usize],
) -> Result<Vec<usize>, AllocError> {
    let mut news = Vec::new(alloc);
    for entry in 0..log.entry_count() {
        match log.entry(entry) {
            EntryView::Received { station, bytes, .. } if order.maker == Some(station) => {
                if are_bytes_of(log, replies, bytes) {
                    news.push(entry)?;
                }
            }
            _ => {}
        }
    }
    Ok(news)
}

/// Word of the PDU that an optional entry sends or receives.
pub(crate) fn word_of<L: ExerciseLog>(log: &L, entry: Option<usize>) -> Option<Word> {
    let pdu = pdu_at(log, entry?)?;
    match pdu.body {
        BodyView::DataPdu { .. } => Some(Word::Data),
        BodyView::Acknowledge { response: 0, .. } | BodyView::ActionResponse { result: 0, .. } => {
            Some(Word::Other)
        }
        BodyView::Acknowledge { response: 1, .. } => Some(Word::Able),
        BodyView::Acknowledge { response: 2, .. } => Some(Word::Unable),
        BodyView::Acknowledge { response: 3, .. } | BodyView::ActionResponse { result: 1, .. } => {
            Some(Word::Pending)
        }
        BodyView::ActionResponse { result: 2, .. } => Some(Word::Executing),
        BodyView::ActionResponse { result: 3, .. } => Some(Word::PartiallyComplete),
        BodyView::ActionResponse { result: 4, .. } => Some(Word::Complete),
        BodyView::ActionResponse { result: 5, .. } => Some(Word::Rejected),
        BodyView::Acknowledge { response, .. } => Some(Word::Number(u32::from(response))),
        BodyView::ActionResponse { result, .. } => Some(Word::Number(result)),
        _ => None,
    }
}

/// Whether an entry sends or receives an answer that settles its order.
fn settles<L: ExerciseLog>(log: &L, entry: usize) -> bool {
    match pdu_at(log, entry) {
        Some(pdu) => match pdu.body {
            BodyView::DataPdu { .. } => true,
            BodyView::Acknowledge { response, .. } => matches!(response, 1 | 2),
            BodyView::ActionResponse { result, .. } => !matches!(result, 1..=3),
            _ => false,
        },
        None => false,
    }
}

/// The first of these entries that settles.
pub(crate) fn first_settling<L: ExerciseLog>(log: &L, entries: &[usize]) -> Option<usize> {
    for entry in entries {
        if settles(log, *entry) {
            return Some(*entry);
        }
    }
    None
}

/// The entry that counts among these: the first that settles, else the last.
pub(crate) fn decisive_entry<L: ExerciseLog>(log: &L, entries: &[usize]) -> Option<usize> {
    match first_settling(log, entries) {
        Some(entry) => Some(entry),
        None => entries.last().copied(),
    }
}
