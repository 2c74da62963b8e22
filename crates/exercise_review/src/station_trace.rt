//! Everything the logs of an order's maker and of one station hold about the order, collected in
//! one pass over the entries under its key.

ghost use Rattle.std.specs.Prelude.{◌≡◌, ◌<◌, ◌+◌, ◌&&◌, length, Some, None, true, false, is_some, IfSome, if◌then◌else◌};
ghost use Rattle.std.specs.Option.{option_or, option_map_or};
ghost use Rattle.siman_pdus.specs.Reading.{pdu_of};
ghost use Rattle.exercise_model.specs.Meaning.{meaning};
ghost use Rattle.exercise_model.specs.Recording.{PlainRecording};
ghost use Rattle.exercise_review.specs.Entries.{bytes_sent, bytes_received};
ghost use Rattle.exercise_review.specs.Counted.{count_below, last_below};
ghost use Rattle.exercise_review.specs.StationTrace.{settles_in, word_in, IsEntryWord, AreEntryWords, IsStationTrace};
ghost use Rattle.exercise_review.specs.Heard.{asks_in};
ghost use Rattle.exercise_review.specs.Order.{order_of, sends_order};
ghost use Rattle.exercise_review.specs.Outcome.{receipts_of};
ghost use Rattle.exercise_review.specs.Party.{is_copy, first_copy};
ghost use Rattle.exercise_review.specs.Register.{order_key, key_at};
ghost use Rattle.exercise_review.specs.Reply.{is_reply, is_news};
ghost use Rattle.exercise_review.specs.Stamped.{IsSaid};
ghost use Rattle.exercise_review.specs.Word.{is_settling, first_settling};

use crate::answered::{Replied, station_replies};
use crate::entries::{entry_at, meant_again};
use crate::hints::Hints;
use crate::news::{HeardReplies, heard_replies};
use crate::order::{Gets, Sends};
use crate::reply::{News, Replies, Reply, change_of_order};
use crate::walk::{Counted, counted_entries, last_entry};
use crate::word::{EntryWord, Word, first_settling, settles};
use exercise_model::{EntryView, ExerciseLog};
use siman_pdus::{PduView, answers, same_order};

/// Role of an entry for an order at a station: a send of the order, a copy of it, a reply to it, or
/// none of these.
#[derive(Clone, Copy)]
struct EntryRole<'a> {
    is_send: bool,
    is_copy: bool,
    reply: Option<Reply<'a>>,
}

/// Everything the logs hold about an order at a station.
#[derive(Clone, Copy)]
pub(crate) struct StationTrace {
    /// How often the station sent it.
    pub sends: usize,
    /// How often the station received it, and the first such entry.
    pub copies: Counted,
    /// The station's replies.
    pub replied: Replied,
    /// The replies of the station that the maker heard.
    pub news: HeardReplies,
}

/// The reply at an entry where a station sends these bytes, which mean this PDU, if it is one. A
/// known copy is not read again.
#[tactic(auto, unfolding(crate::specs::Reply::is_reply, crate::specs::Entries::pdu_sent, crate::specs::Word::settles_at), using(crate::proofs::Heard::meant_sent, crate::proofs::Under::is_answering))]
fn reply_in<'b, L: ExerciseLog>(
    replies: &Replies<'_, L>,
    entry: usize,
    bytes: &'b [u8],
    pdu: &PduView<'_>,
    said: Option<&[u8]>,
    known: Option<usize>,
) -> Option<Reply<'b>>
    requires said { IsSaid replies.now.findings.now (order_of replies.now.order.now).request said }
    requires known { let q = replies.now in IfSome known (λ i. is_copy q.findings.now (order_of q.order.now) q.station i ≡ true) }
    requires bytes { bytes_sent replies.now.findings.now replies.now.station entry ≡ Some bytes.now }
    requires meant { meaning replies.now.findings.now.setting.exercise bytes.now ≡ Some (pdu_of pdu.now) }
    ensures reply { let q = replies.now in is_some result ≡ is_reply q.findings.now (order_of q.order.now) q.station entry }
    ensures settles { let q = replies.now in settles_in result ≡ is_settling q.findings.now (is_reply q.findings.now (order_of q.order.now) q.station) entry }
    ensures bytes { IfSome result (λ reply. reply.bytes.now ≡ bytes.now) }
    ensures word { IfSome result (λ reply. reply.word ≡ word_in replies.now.findings.now bytes.now) }
    ensures answers { IfSome result (λ reply. asks_in replies.now.findings.now bytes.now ≡ false) }
    ensures taken { let q = replies.now in IfSome result (λ reply. is_copy q.findings.now (order_of q.order.now) q.station reply.copy ≡ true) }
{
    if !answers(pdu, &replies.order.request) {
        return None;
    }
    let copy = replies.copy_taken(entry, said, known)?;
    Some(Reply {
        settles: settles(&pdu.body),
        word: Word::of(&pdu.body),
        bytes,
        copy,
    })
}

/// The role of an entry that has nothing to do with the order.
const fn no_role<'a>() -> EntryRole<'a>
    ensures { (result.is_send ≡ false) × ((result.is_copy ≡ false) × (result.reply ≡ None)) }
{
    EntryRole {
        is_send: false,
        is_copy: false,
        reply: None,
    }
}

/// Role of an entry at which a station sends these bytes. A datagram that takes up no request is no
/// reply.
#[tactic(auto, unfolding(crate::specs::Order::sends_order, crate::specs::Reply::is_reply, crate::specs::Entries::pdu_sent))]
fn role_of_send<'a, L: ExerciseLog>(
    replies: &Replies<'_, L>,
    entry: usize,
    bytes: &'a [u8],
    said: Option<&[u8]>,
    known: Option<usize>,
) -> EntryRole<'a>
    requires said { IsSaid replies.now.findings.now (order_of replies.now.order.now).request said }
    requires known { let q = replies.now in IfSome known (λ i. is_copy q.findings.now (order_of q.order.now) q.station i ≡ true) }
    requires sent { bytes_sent replies.now.findings.now replies.now.station entry ≡ Some bytes.now }
    requires keyed { is_some (key_at replies.now.findings.now entry) ≡ true }
    ensures send { let q = replies.now in result.is_send ≡ sends_order q.findings.now q.station (order_of q.order.now).request entry }
    ensures copy { result.is_copy ≡ false }
    ensures reply { let q = replies.now in is_some result.reply ≡ is_reply q.findings.now (order_of q.order.now) q.station entry }
    ensures settles { let q = replies.now in settles_in result.reply ≡ is_settling q.findings.now (is_reply q.findings.now (order_of q.order.now) q.station) entry }
    ensures bytes { IfSome result.reply (λ reply. reply.bytes.now ≡ bytes.now) }
    ensures word { IfSome result.reply (λ reply. reply.word ≡ word_in replies.now.findings.now bytes.now) }
    ensures answers { IfSome result.reply (λ reply. asks_in replies.now.findings.now bytes.now ≡ false) }
    ensures taken { let q = replies.now in IfSome result.reply (λ reply. is_copy q.findings.now (order_of q.order.now) q.station reply.copy ≡ true) }
{
    if replies.findings.pair(entry).is_none() {
        return EntryRole {
            is_send: replies.says(bytes, said),
            is_copy: false,
            reply: None,
        };
    }
    let pdu = meant_again(replies.findings, bytes);
    EntryRole {
        is_send: same_order(&replies.order.request, &pdu),
        is_copy: false,
        reply: reply_in(replies, entry, bytes, &pdu, said, known),
    }
}

/// Role of an entry for an order at a station.
#[tactic(auto, unfolding(crate::specs::Reply::is_reply, crate::specs::Order::sends_order, crate::specs::Order::gets_order, crate::specs::Entries::pdu_sent, crate::specs::Entries::pdu_received, crate::specs::Entries::bytes_sent, crate::specs::Entries::bytes_received))]
fn role_at<'a, L: ExerciseLog>(
    replies: &Replies<'a, L>,
    entry: usize,
    said: Option<&[u8]>,
    known: Option<usize>,
) -> EntryRole<'a>
    requires said { IsSaid replies.now.findings.now (order_of replies.now.order.now).request said }
    requires keyed { is_some (key_at replies.now.findings.now entry) ≡ true }
    requires known { let q = replies.now in IfSome known (λ i. is_copy q.findings.now (order_of q.order.now) q.station i ≡ true) }
    ensures send { let q = replies.now in result.is_send ≡ sends_order q.findings.now q.station (order_of q.order.now).request entry }
    ensures copy { let q = replies.now in result.is_copy ≡ is_copy q.findings.now (order_of q.order.now) q.station entry }
    ensures reply { let q = replies.now in is_some result.reply ≡ is_reply q.findings.now (order_of q.order.now) q.station entry }
    ensures settles { let q = replies.now in settles_in result.reply ≡ is_settling q.findings.now (is_reply q.findings.now (order_of q.order.now) q.station) entry }
    ensures bytes { IfSome result.reply (λ reply. bytes_sent replies.now.findings.now replies.now.station entry ≡ Some reply.bytes.now) }
    ensures word { IfSome result.reply (λ reply. reply.word ≡ word_in replies.now.findings.now reply.bytes.now) }
    ensures answers { IfSome result.reply (λ reply. asks_in replies.now.findings.now reply.bytes.now ≡ false) }
    ensures taken { let q = replies.now in IfSome result.reply (λ reply. is_copy q.findings.now (order_of q.order.now) q.station reply.copy ≡ true) }
{
    match entry_at(replies.findings, entry) {
        Some(EntryView::Received { station, bytes, .. }) if station == replies.station =>
            EntryRole {
                is_send: false,
                is_copy: replies.says(bytes, said),
                reply: None,
            },
        Some(EntryView::Sent { station, bytes, .. }) if station == replies.station => {
            role_of_send(replies, entry, bytes, said, known)
        }
        _ => no_role(),
    }
}

/// Role of an entry, as `role_at`, where `known` may be a known copy, which is not read again.
#[tactic(auto, using(crate::proofs::Under::copy_alone))]
fn role_of_entry<'a, L: ExerciseLog>(
    replies: &Replies<'a, L>,
    entry: usize,
    said: Option<&[u8]>,
    known: Option<usize>,
) -> EntryRole<'a>
    requires said { IsSaid replies.now.findings.now (order_of replies.now.order.now).request said }
    requires keyed { is_some (key_at replies.now.findings.now entry) ≡ true }
    requires known { let q = replies.now in IfSome known (λ i. is_copy q.findings.now (order_of q.order.now) q.station i ≡ true) }
    ensures send { let q = replies.now in result.is_send ≡ sends_order q.findings.now q.station (order_of q.order.now).request entry }
    ensures copy { let q = replies.now in result.is_copy ≡ is_copy q.findings.now (order_of q.order.now) q.station entry }
    ensures reply { let q = replies.now in is_some result.reply ≡ is_reply q.findings.now (order_of q.order.now) q.station entry }
    ensures settles { let q = replies.now in settles_in result.reply ≡ is_settling q.findings.now (is_reply q.findings.now (order_of q.order.now) q.station) entry }
    ensures bytes { IfSome result.reply (λ reply. bytes_sent replies.now.findings.now replies.now.station entry ≡ Some reply.bytes.now) }
    ensures word { IfSome result.reply (λ reply. reply.word ≡ word_in replies.now.findings.now reply.bytes.now) }
    ensures answers { IfSome result.reply (λ reply. asks_in replies.now.findings.now reply.bytes.now ≡ false) }
    ensures taken { let q = replies.now in IfSome result.reply (λ reply. is_copy q.findings.now (order_of q.order.now) q.station reply.copy ≡ true) }
{
    match known {
        Some(copy) if copy == entry => EntryRole {
            is_send: false,
            is_copy: true,
            reply: None,
        },
        _ => role_at(replies, entry, said, known),
    }
}

/// An entry that is known to be a copy: the one that a reply takes up, or the one known before.
fn known_copy(known: Option<usize>, reply: Option<Reply<'_>>) -> Option<usize>
    ensures { result ≡ option_map_or (λ (x : Reply). Some x.copy) reply.entry known }
{
    match reply {
        Some(reply) => Some(reply.copy),
        None => known,
    }
}

/// A count, increased by one if `is_one`.
fn count_with_one(behind: usize, is_one: bool) -> usize
    requires { behind < 18446744073709551615 }
    ensures { result ≡ (if is_one then 1 else 0) + behind }
{
    if is_one { behind + 1 } else { behind }
}

/// Number and first of the copies at an entry and after it, given those after it.
fn copy_count(behind: Counted, entry: usize, is_copy: bool) -> Counted
    requires { behind.count < 18446744073709551615 }
    ensures count { result.count ≡ (if is_copy then 1 else 0) + behind.count }
    ensures first { result.first ≡ option_or (if is_copy then Some entry else None) behind.first }
{
    if is_copy {
        Counted {
            count: behind.count + 1,
            first: Some(entry),
        }
    } else {
        behind
    }
}

/// An empty collection.
fn empty_trace() -> StationTrace
    ensures sends { result.sends ≡ 0 }
    ensures copies { (result.copies.count ≡ 0) × (result.copies.first ≡ None) }
    ensures replied { (result.replied.settled.entry ≡ None) × ((result.replied.last.entry ≡ None) × (result.replied.change ≡ None)) }
    ensures news { (result.news.settled.entry ≡ None) × (result.news.last.entry ≡ None) }
    ensures words { (r : PlainRecording) → AreEntryWords r result.replied result.news }
{
    StationTrace {
        sends: 0,
        copies: Counted {
            count: 0,
            first: None,
        },
        replied: Replied {
            settled: EntryWord::nothing(),
            last: EntryWord::nothing(),
            change: None,
        },
        news: HeardReplies {
            settled: EntryWord::nothing(),
            last: EntryWord::nothing(),
        },
    }
}

/// Everything the logs hold about an order at a station, from the entries under its key there.
fn trace_under_key<L: ExerciseLog>(
    replies: &Replies<'_, L>,
    key: u64,
    said: Option<&[u8]>,
    hints: &mut Hints,
) -> StationTrace
    requires said { IsSaid replies.now.findings.now (order_of replies.now.order.now).request said }
    requires key { order_key replies.now.station (order_of replies.now.order.now).request ≡ Some key }
    ensures { let q = replies.now in IsStationTrace q.findings.now (order_of q.order.now) q.station result }
{
    let findings = replies.findings;
    let maker = replies.order.maker;
    let _end = findings.log().entry_count();
    let mut gathered = empty_trace();
    let mut known = None;
    let mut next = findings.last_near(key, &mut hints.keys);
    while let Some(entry) = next {
        let part = role_of_entry(replies, entry, said, known);
        known = known_copy(known, part.reply);
        gathered = StationTrace {
            sends: count_with_one(gathered.sends, part.is_send),
            copies: copy_count(gathered.copies, entry, part.is_copy),
            replied: station_replies(findings, gathered.replied, entry, part.reply),
            news: heard_replies(
                findings,
                maker,
                gathered.news,
                entry,
                part.reply,
                &mut hints.receipts,
            ),
        };
        next = findings.before(key, entry);
    }
    gathered
}

/// What the maker of an order heard of the station's replies. Tests all entries.
fn heard_by_search<L: ExerciseLog>(replies: &Replies<'_, L>) -> HeardReplies
    ensures heard { let q = replies.now in result.settled.entry ≡ first_settling q.findings.now (is_news q.findings.now (order_of q.order.now) q.station) }
    ensures news { let q = replies.now in result.last.entry ≡ last_below (is_news q.findings.now (order_of q.order.now) q.station) (length q.findings.now.entries) }
    ensures words { IsEntryWord replies.now.findings.now result.settled × IsEntryWord replies.now.findings.now result.last }
{
    let news = News { replies };
    let settled = first_settling(replies.findings, None, &news);
    let last = last_entry(replies.findings, None, &news);
    HeardReplies {
        settled: EntryWord::at(replies.findings, settled),
        last: EntryWord::at(replies.findings, last),
    }
}

/// How often a station received an order, and the first such entry. Tests all entries.
#[tactic(auto, unfolding(crate::specs::Party::first_copy))]
fn copies_by_search<L: ExerciseLog>(replies: &Replies<'_, L>) -> Counted
    ensures count { let q = replies.now in result.count ≡ receipts_of q.findings.now (order_of q.order.now) q.station }
    ensures first { let q = replies.now in result.first ≡ first_copy q.findings.now (order_of q.order.now) q.station }
{
    let gets = Gets {
        findings: replies.findings,
        station: replies.station,
        request: &replies.order.request,
    };
    counted_entries(replies.findings, None, &gets)
}

/// How often a station sent an order. Tests all entries.
fn sends_by_search<L: ExerciseLog>(replies: &Replies<'_, L>) -> usize
    ensures { let q = replies.now in result ≡ count_below (sends_order q.findings.now q.station (order_of q.order.now).request) (length q.findings.now.entries) }
{
    let sends = Sends {
        findings: replies.findings,
        station: replies.station,
        request: &replies.order.request,
    };
    counted_entries(replies.findings, None, &sends).count
}

/// Everything the logs hold about a PDU at a station. Tests all entries.
fn trace_by_search<L: ExerciseLog>(replies: &Replies<'_, L>) -> StationTrace
    ensures { let q = replies.now in IsStationTrace q.findings.now (order_of q.order.now) q.station result }
{
    let settled = first_settling(replies.findings, None, replies);
    let last = last_entry(replies.findings, None, replies);
    StationTrace {
        sends: sends_by_search(replies),
        copies: copies_by_search(replies),
        replied: Replied {
            settled: EntryWord::at(replies.findings, settled),
            last: EntryWord::at(replies.findings, last),
            change: change_of_order(replies.findings, replies.order, replies.station),
        },
        news: heard_by_search(replies),
    }
}

/// Everything the logs hold about an order at a station, given its key there. `said` may give bytes
/// that mean the order.
pub(crate) fn station_trace<L: ExerciseLog>(
    replies: &Replies<'_, L>,
    key: Option<u64>,
    said: Option<&[u8]>,
    hints: &mut Hints,
) -> StationTrace
    requires said { IsSaid replies.now.findings.now (order_of replies.now.order.now).request said }
    requires key { key ≡ order_key replies.now.station (order_of replies.now.order.now).request }
    ensures { let q = replies.now in IsStationTrace q.findings.now (order_of q.order.now) q.station result }
{
    match key {
        Some(key) => trace_under_key(replies, key, said, hints),
        None => trace_by_search(replies),
    }
}
