//! Compact rows of the orders of a recording at their parties.

ghost use Rattle.std.specs.Prelude.{◌≡◌, ◌<◌, true, is_some, Some, length, option_map, option_and_then, unwrap_or, IfSome};
ghost use Rattle.std.specs.Option.{option_or};
ghost use Rattle.exercise_findings.specs.Number.{entry_of};
ghost use Rattle.exercise_review.specs.Order.{order_of, order_at};
ghost use Rattle.exercise_review.specs.Outcome.{took};
ghost use Rattle.exercise_review.specs.Parties.{party_address};
ghost use Rattle.exercise_review.specs.Row.{row_sends, row_receipts, word_numbered, row_word, row_outcome, row_order, IsKept};
ghost use Rattle.exercise_review.specs.Told.{order_at_party};
ghost use Rattle.exercise_review.specs.Word.{word_at};

use crate::entry_number::{NO_ENTRY, entry_of};
use crate::fate::Fate;
use crate::order::RecordedOrder;
use crate::outcome::{Outcome, stamp_in};
use crate::parties::{address_in, maker_in};
use crate::party::Party;
use crate::register::Register;
use crate::told::OrderAt;
use crate::word::{Word, word_in};
use dis_records::SiteApplication;
use exercise_findings::Findings;
use exercise_model::{EntryView, ExerciseLog, meaning_again};
use siman_pdus::{Message, request_id};

/// An order at one of its parties, in little memory: fields that can be read from the log again are
/// left out. Entries are numbers from 0; 0xFFFFFFFF means none.
#[derive(Clone, Copy)]
pub(crate) struct OrderRow {
    /// The head of the order.
    pub head: u32,
    /// The party; `None` if the order has none.
    pub party: Option<Party>,
    /// How often the maker sent the order; any number if the maker is not recorded.
    pub sends: u32,
    /// How often the party received it; any number if the party is not recorded.
    pub receipts: u32,
    /// The entry at which the party first received it.
    pub got: u32,
    /// The entry of the party's reply.
    pub answer: u32,
    /// The entry at which the maker heard the party's reply.
    pub news: u32,
    /// The entry of the first reply that made a change at the party.
    pub change: u32,
    /// Number of the word of the party's reply; 0 if it has no name, and then it is read from the
    /// log again.
    pub said: u8,
    /// Number of the word that the maker heard, as `said`.
    pub heard: u8,
    /// The fate of the order there.
    pub fate: Fate,
}

/// An optional entry as a number of 32 bits.
fn packed_entry(entry: Option<usize>) -> u32
    requires { IfSome entry (λ i. i < 0xFFFFFFFF) }
    ensures { entry_of result ≡ entry }
{
    match entry {
        Some(entry) => entry as u32,
        None => NO_ENTRY,
    }
}

/// An optional count as a number of 32 bits; 0 if it is unknown.
fn packed_count(count: Option<usize>) -> u32
    requires { IfSome count (λ n. n < 0x100000000) }
    ensures { result ≡ unwrap_or count 0 }
{
    match count {
        Some(count) => count as u32,
        None => 0,
    }
}

/// Number of a word that has a name; 0 for others, and for none.
fn word_number(word: Option<Word>) -> u8
    ensures { option_or (word_numbered result) word ≡ word }
{
    match word {
        Some(Word::Other) => 1,
        Some(Word::Able) => 2,
        Some(Word::Unable) => 3,
        Some(Word::Pending) => 4,
        Some(Word::Executing) => 5,
        Some(Word::PartiallyComplete) => 6,
        Some(Word::Complete) => 7,
        Some(Word::Rejected) => 8,
        Some(Word::Data) => 9,
        Some(Word::Number(_)) | None => 0,
    }
}

/// The word with this number, if any.
fn word_numbered(number: u8) -> Option<Word>
    ensures { result ≡ word_numbered number }
{
    match number {
        1 => Some(Word::Other),
        2 => Some(Word::Able),
        3 => Some(Word::Unable),
        4 => Some(Word::Pending),
        5 => Some(Word::Executing),
        6 => Some(Word::PartiallyComplete),
        7 => Some(Word::Complete),
        8 => Some(Word::Rejected),
        9 => Some(Word::Data),
        _ => None,
    }
}

/// Compact row of an order at one of its parties.
#[tactic(auto, unfolding(crate::specs::Row::row_order))]
pub(crate) fn row_of<L: ExerciseLog>(
    findings: &Register<'_, L>,
    order: &RecordedOrder<'_>,
    outcome: Outcome,
) -> OrderRow
    requires head { order_at findings.now order.now.head ≡ Some (order_of order.now) }
    requires kept { IsKept findings.now (order_of order.now) outcome }
    ensures { row_order findings.now result ≡ Some (order_at_party findings.now (order_of order.now) outcome) }
{
    let _end = findings.log().entry_count();
    OrderRow {
        head: order.head as u32,
        party: outcome.party,
        sends: packed_count(outcome.sends),
        receipts: packed_count(outcome.receipts),
        got: packed_entry(outcome.got),
        answer: packed_entry(outcome.answer),
        news: packed_entry(outcome.news),
        change: packed_entry(outcome.change),
        said: word_number(outcome.said),
        heard: word_number(outcome.heard),
        fate: outcome.fate,
    }
}

/// An order, read again at its head.
fn order_at_head<L: ExerciseLog>(log: &L, head: usize) -> RecordedOrder<'_>
    requires { is_some (order_at (L.recording log.now) head) ≡ true }
    ensures { Some (order_of result) ≡ order_at (L.recording log.now) head }
{
    match log.entry(head) {
        EntryView::Sent { station, bytes, .. } => RecordedOrder {
            head,
            maker: Some(station),
            request: meaning_again(log.exercise(), bytes),
        },
        EntryView::Received { bytes, .. } => RecordedOrder {
            head,
            maker: None,
            request: meaning_again(log.exercise(), bytes),
        },
        EntryView::Told { .. } => unreachable!(),
    }
}

/// How often an order was sent, from the number in its row; `None` if its maker is not recorded.
fn row_sends(maker: Option<u16>, sends: u32) -> Option<usize>
    ensures { result ≡ row_sends maker sends }
{
    match maker {
        Some(_) => Some(sends as usize),
        None => None,
    }
}

/// How often a party received an order, from the number in its row; `None` if the party is not
/// recorded.
fn row_receipts(party: Option<Party>, receipts: u32) -> Option<usize>
    ensures { result ≡ row_receipts party receipts }
{
    match party {
        Some(Party::Station(_)) => Some(receipts as usize),
        Some(Party::Outside(_)) | None => None,
    }
}

/// The word with this number, or else the word of an optional entry.
fn row_word<L: ExerciseLog>(log: &L, number: u8, entry: Option<usize>) -> Option<Word>
    ensures { result ≡ row_word (L.recording log.now) number entry }
{
    match (word_numbered(number), entry) {
        (Some(word), _) => Some(word),
        (None, Some(entry)) => word_in(log, entry),
        (None, None) => None,
    }
}

/// Time from the head of an order to the entry `news`, by the maker's clock; `None` if that was set
/// back.
fn time_to_news<L: ExerciseLog>(
    log: &L,
    order: &RecordedOrder<'_>,
    news: Option<usize>,
) -> Option<u64>
    ensures { result ≡ took (L.recording log.now) (order_of order.now) news }
{
    match (stamp_in(log, order.head), stamp_in(log, news?)) {
        (Some(from), Some(until)) if from <= until => Some(until - from),
        _ => None,
    }
}

/// Outcome of an order at one of its parties, read from its row.
fn row_outcome<L: ExerciseLog>(log: &L, order: &RecordedOrder<'_>, row: OrderRow) -> Outcome
    ensures { result ≡ row_outcome (L.recording log.now) (order_of order.now) row }
{
    let (answer, news) = (entry_of(row.answer), entry_of(row.news));
    Outcome {
        party: row.party,
        sends: row_sends(order.maker, row.sends),
        receipts: row_receipts(row.party, row.receipts),
        got: entry_of(row.got),
        said: row_word(log, row.said, answer),
        answer,
        heard: row_word(log, row.heard, news),
        news,
        took: time_to_news(log, order, news),
        change: entry_of(row.change),
        fate: row.fate,
    }
}

/// Address of an optional party.
fn party_address<L: ExerciseLog>(log: &L, party: Option<Party>) -> Option<SiteApplication>
    ensures { result ≡ option_map (λ p. (party_address (L.recording log.now) p)) party }
{
    match party {
        Some(party) => Some(address_in(log, party)),
        None => None,
    }
}

/// An order at a party, with its outcome.
fn order_at_party<L: ExerciseLog>(log: &L, order: &RecordedOrder<'_>, outcome: Outcome) -> OrderAt
    ensures { result ≡ order_at_party (L.recording log.now) (order_of order.now) outcome }
{
    OrderAt {
        head: order.head,
        from: maker_in(log, order),
        request: request_id(&order.request),
        kind: order.request.kind(),
        to: order.request.target,
        at: party_address(log, outcome.party),
        outcome,
    }
}

/// An order at one of its parties, read from its row. Allocates no memory.
#[tactic(auto, unfolding(crate::specs::Row::row_order))]
pub(crate) fn reported_by<L: ExerciseLog>(findings: &Findings<'_, L>, row: OrderRow) -> OrderAt
    requires { is_some (row_order findings.now row) ≡ true }
    ensures { Some result ≡ row_order findings.now row }
{
    let log = findings.log();
    let order = order_at_head(log, row.head as usize);
    order_at_party(log, &order, row_outcome(log, &order, row))
}
