//! The outcome of an order at each of its parties.

ghost use Rattle.std.specs.Prelude.{◌≡◌, Some, map, IfOk};
ghost use Rattle.siman_pdus.specs.Reading.{pdu_of};
ghost use Rattle.exercise_review.specs.Order.{order_of, order_at};
ghost use Rattle.exercise_review.specs.Asked.{IsAsked};
ghost use Rattle.exercise_review.specs.StationTrace.{IsStationTrace};
ghost use Rattle.exercise_review.specs.Register.{request_digest};
ghost use Rattle.exercise_review.specs.Stamped.{IsSaid};
ghost use Rattle.exercise_review.specs.Outcome.{stamp_at, time_between, took, known_sends, recorded_outcome, outsider_outcome, partyless_outcome, outcome_at, outcomes_of};

use crate::digest::digest_under;
use crate::entries::{bytes_sent, entry_in};
use crate::fate::{Fate, collected_traces, fate_of};
use crate::hints::Hints;
use crate::keys::{digest_key, request_digest};
use crate::order::RecordedOrder;
use crate::parties::parties_by;
use crate::party::{HeardFrom, Party, is_maker};
use crate::register::Register;
use crate::reply::Replies;
use crate::station_trace::{StationTrace, station_trace};
use crate::word::{Word, decisive_entry, word_of};
use dis_records::SiteApplication;
use exercise_model::{EntryView, ExerciseLog};
use std::alloc::{AllocError, Global};

/// The outcome of an order at one of its parties, or of an order without parties. A field is `None`
/// if it has no value or no recorded log contains it. Entries are numbers from 0.
#[derive(Clone, Copy, PartialEq, Eq)]
pub struct Outcome {
    /// The party; `None` if the order has none.
    pub party: Option<Party>,
    /// How often the maker sent the order.
    pub sends: Option<usize>,
    /// How often the party received it.
    pub receipts: Option<usize>,
    /// The entry at which the party first received it.
    pub got: Option<usize>,
    /// The word of the party's reply.
    pub said: Option<Word>,
    /// The entry of that reply: the first that settles the order, else the last.
    pub answer: Option<usize>,
    /// The word of the party's answer that the maker heard.
    pub heard: Option<Word>,
    /// The entry at which the maker heard it: the first that settles the order, else the last.
    pub news: Option<usize>,
    /// Time from the head to `news` by the maker's clock, in units of the stamps; `None` also if
    /// that clock was set back.
    pub took: Option<u64>,
    /// The entry of the first reply that made a change at the party.
    pub change: Option<usize>,
    /// The fate of the order there.
    pub fate: Fate,
}

/// Stamp of an entry of a log, by the clock of its station; `None` for a state report.
#[tactic(auto, unfolding(crate::specs::Outcome::stamp_at))]
pub(crate) fn stamp_in<L: ExerciseLog>(log: &L, entry: usize) -> Option<u64>
    ensures { result ≡ stamp_at (L.recording log.now) entry }
{
    match entry_in(log, entry) {
        Some(EntryView::Sent { stamp, .. } | EntryView::Received { stamp, .. }) => Some(stamp),
        Some(EntryView::Told { .. }) | None => None,
    }
}

/// Stamp of an entry of a recording.
fn stamp_at<L: ExerciseLog>(findings: &Register<'_, L>, entry: usize) -> Option<u64>
    ensures { result ≡ stamp_at findings.now entry }
{
    stamp_in(findings.log(), entry)
}

/// Time between two entries by the clock of their station; `None` if that was set back.
fn time_between<L: ExerciseLog>(
    findings: &Register<'_, L>,
    first: usize,
    last: usize,
) -> Option<u64>
    ensures { result ≡ time_between findings.now first last }
{
    match (stamp_at(findings, first), stamp_at(findings, last)) {
        (Some(from), Some(until)) if from <= until => Some(until - from),
        _ => None,
    }
}

/// Time from the head of an order to the entry `news`.
fn took<L: ExerciseLog>(
    findings: &Register<'_, L>,
    order: &RecordedOrder<'_>,
    news: Option<usize>,
) -> Option<u64>
    ensures { result ≡ took findings.now (order_of order.now) news }
{
    match news {
        Some(entry) => time_between(findings, order.head, entry),
        None => None,
    }
}

/// Data about an order that every party's outcome needs.
#[derive(Clone, Copy)]
pub(crate) struct OrderFacts<'a> {
    /// Bytes that mean the order, if available.
    pub said: Option<&'a [u8]>,
    /// Digest of its request.
    pub digest: Option<u64>,
    /// How often it was sent, if its maker is recorded.
    pub sends: Option<usize>,
    /// The data collected at its maker, if that was done.
    pub own: Option<StationTrace>,
}

/// The data about an order, given the digest of its request.
#[tactic(auto, unfolding(crate::specs::Order::sends_of))]
fn asked_by<'b, L: ExerciseLog>(
    findings: &Register<'_, L>,
    order: &RecordedOrder<'_>,
    said: Option<&'b [u8]>,
    digest: Option<u64>,
    hints: &mut Hints,
) -> OrderFacts<'b>
    requires said { IsSaid findings.now (order_of order.now).request said }
    requires digest { digest ≡ request_digest (pdu_of order.now.request) }
    ensures { IsAsked findings.now (order_of order.now) result }
{
    let Some(station) = order.maker else {
        return OrderFacts {
            said,
            digest,
            sends: None,
            own: None,
        };
    };
    let replies = Replies {
        findings,
        order,
        station,
    };
    let gathered = station_trace(&replies, digest_key(station, digest), said, hints);
    OrderFacts {
        said,
        digest,
        sends: Some(gathered.sends),
        own: Some(gathered),
    }
}

/// The data about an order that every party's outcome needs.
pub(crate) fn asked_of<'b, L: ExerciseLog>(
    findings: &Register<'_, L>,
    order: &RecordedOrder<'_>,
    hints: &mut Hints,
) -> OrderFacts<'b>
    ensures { IsAsked findings.now (order_of order.now) result }
{
    asked_by(findings, order, None, request_digest(&order.request), hints)
}

/// Digest of the request of an order that a station made, computed from the key of its head.
fn digest_at_head<L: ExerciseLog>(
    findings: &Register<'_, L>,
    order: &RecordedOrder<'_>,
    maker: u16,
) -> Option<u64>
    requires maker { order.now.maker ≡ Some maker }
    requires head { order_at findings.now order.now.head ≡ Some (order_of order.now) }
    ensures { result ≡ request_digest (pdu_of order.now.request) }
{
    match findings.key(order.head) {
        Some(key) => Some(digest_under(maker, key)),
        None => request_digest(&order.request),
    }
}

/// The bytes that a station sent at the head of an order.
fn bytes_at_head<'a, L: ExerciseLog>(
    findings: &Register<'a, L>,
    order: &RecordedOrder<'_>,
    maker: u16,
) -> Option<&'a [u8]>
    requires maker { order.now.maker ≡ Some maker }
    requires head { order_at findings.now order.now.head ≡ Some (order_of order.now) }
    ensures { IsSaid findings.now (order_of order.now).request result }
{
    bytes_sent(findings, maker, order.head)
}

/// As [`asked_of`], for an order found at its head. If no later entry has its key, it was sent
/// once.
pub(crate) fn asked_at_head<'a, L: ExerciseLog>(
    findings: &Register<'a, L>,
    order: &RecordedOrder<'_>,
    hints: &mut Hints,
) -> OrderFacts<'a>
    requires { order_at findings.now order.now.head ≡ Some (order_of order.now) }
    ensures { IsAsked findings.now (order_of order.now) result }
{
    let Some(maker) = order.maker else {
        return asked_of(findings, order, hints);
    };
    let digest = digest_at_head(findings, order, maker);
    let said = bytes_at_head(findings, order, maker);
    if !findings.is_last(order.head) {
        return asked_by(findings, order, said, digest, hints);
    }
    OrderFacts {
        said,
        digest,
        sends: Some(1),
        own: None,
    }
}

/// Everything the logs hold about an order at a recorded station. Reuses the data collected at the
/// maker, if `asked` has them.
fn party_trace<L: ExerciseLog>(
    findings: &Register<'_, L>,
    order: &RecordedOrder<'_>,
    asked: OrderFacts<'_>,
    station: u16,
    hints: &mut Hints,
) -> StationTrace
    requires { IsAsked findings.now (order_of order.now) asked }
    ensures { IsStationTrace findings.now (order_of order.now) station result }
{
    match asked.own {
        Some(gathered) if is_maker(order, station) => gathered,
        _ => {
            let replies = Replies {
                findings,
                order,
                station,
            };
            station_trace(
                &replies,
                digest_key(station, asked.digest),
                asked.said,
                hints,
            )
        }
    }
}

/// The outcome of an order at a recorded station.
#[tactic(auto, unfolding(crate::specs::Word::decisive_entry, crate::specs::Fate::fate_of))]
fn recorded_outcome<L: ExerciseLog>(
    findings: &Register<'_, L>,
    order: &RecordedOrder<'_>,
    asked: OrderFacts<'_>,
    station: u16,
    hints: &mut Hints,
) -> Outcome
    requires { IsAsked findings.now (order_of order.now) asked }
    ensures { result ≡ recorded_outcome findings.now (order_of order.now) station }
{
    let replies = Replies {
        findings,
        order,
        station,
    };
    let gathered = party_trace(findings, order, asked, station, hints);
    let said = gathered.replied.settled.or(gathered.replied.last);
    let heard = gathered.news.settled.or(gathered.news.last);
    Outcome {
        party: Some(Party::Station(station)),
        sends: asked.sends,
        receipts: Some(gathered.copies.count),
        got: gathered.copies.first,
        said: said.word,
        answer: said.entry,
        heard: heard.word,
        news: heard.entry,
        took: took(findings, order, heard.entry),
        change: gathered.replied.change,
        fate: Fate::of(&collected_traces(&replies, gathered)),
    }
}

/// The outcome of an order, sent `sends` times, at an address of no recorded station.
#[tactic(auto, using(crate::proofs::Under::under_steps))]
fn outsider_outcome<L: ExerciseLog>(
    findings: &Register<'_, L>,
    order: &RecordedOrder<'_>,
    sends: Option<usize>,
    address: SiteApplication,
) -> Outcome
    requires { sends ≡ known_sends findings.now (order_of order.now) }
    ensures { result ≡ outsider_outcome findings.now (order_of order.now) address }
{
    let told = HeardFrom {
        findings,
        order,
        from: address,
    };
    let news = decisive_entry(findings, order.maker_key(), &told);
    Outcome {
        party: Some(Party::Outside(address)),
        sends,
        receipts: None,
        got: None,
        said: None,
        answer: None,
        heard: word_of(findings, news),
        news,
        took: took(findings, order, news),
        change: None,
        fate: fate_of(findings, order, Party::Outside(address)),
    }
}

/// The outcome of an order without parties.
pub(crate) fn partyless_outcome<L: ExerciseLog>(
    findings: &Register<'_, L>,
    order: &RecordedOrder<'_>,
    sends: Option<usize>,
) -> Outcome
    requires { sends ≡ known_sends findings.now (order_of order.now) }
    ensures { result ≡ partyless_outcome findings.now (order_of order.now) }
{
    let (_findings, _order) = (findings, order);
    Outcome {
        party: None,
        sends,
        receipts: None,
        got: None,
        said: None,
        answer: None,
        heard: None,
        news: None,
        took: None,
        change: None,
        fate: Fate::Nobody,
    }
}

/// The outcome of an order at a party.
#[tactic(auto, unfolding(crate::specs::Outcome::outcome_at))]
pub(crate) fn outcome_at<L: ExerciseLog>(
    findings: &Register<'_, L>,
    order: &RecordedOrder<'_>,
    asked: OrderFacts<'_>,
    party: Party,
    hints: &mut Hints,
) -> Outcome
    requires { IsAsked findings.now (order_of order.now) asked }
    ensures { result ≡ outcome_at findings.now (order_of order.now) party }
{
    match party {
        Party::Station(station) => recorded_outcome(findings, order, asked, station, hints),
        Party::Outside(address) => outsider_outcome(findings, order, asked.sends, address),
    }
}

/// The outcomes of an order at these parties, in their order.
fn outcomes_at<L: ExerciseLog>(
    alloc: Global,
    findings: &Register<'_, L>,
    order: &RecordedOrder<'_>,
    asked: OrderFacts<'_>,
    parties: &[Party],
) -> Result<Vec<Outcome>, AllocError>
    requires { IsAsked findings.now (order_of order.now) asked }
    ensures { IfOk result (λ outcomes. outcomes.items ≡ map (outcome_at findings.now (order_of order.now)) parties.now) }
{
    let mut outcomes = Vec::with_capacity(alloc, parties.len())?;
    let mut hints = Hints::new();
    for party in parties {
        outcomes.push(outcome_at(findings, order, asked, *party, &mut hints))?;
    }
    Ok(outcomes)
}

/// The outcomes of an order at each of its parties, by rising address; one outcome if it has none.
#[tactic(auto, unfolding(crate::specs::Outcome::outcomes_of))]
pub fn outcomes_of<L: ExerciseLog>(
    alloc: Global,
    findings: &Register<'_, L>,
    order: &RecordedOrder<'_>,
) -> Result<Vec<Outcome>, AllocError>
    ensures { IfOk result (λ outcomes. outcomes.items ≡ outcomes_of findings.now (order_of order.now)) }
{
    let asked = asked_of(findings, order, &mut Hints::new());
    let mut parties = Vec::new(alloc);
    parties_by(&mut parties, findings, order, asked.own)?;
    if parties.is_empty() {
        let mut outcomes = Vec::new(alloc);
        outcomes.push(partyless_outcome(findings, order, asked.sends))?;
        return Ok(outcomes);
    }
    outcomes_at(alloc, findings, order, asked, &parties)
}
