//! The replies of a station that the maker of an order heard.

ghost use Rattle.std.specs.Prelude.{◌≡◌, false, IfSome, if◌then◌else◌};
ghost use Rattle.exercise_review.specs.StationTrace.{settles_in, first_news, last_news, word_in, IsEntryWord};
ghost use Rattle.exercise_review.specs.Heard.{asks_in};
ghost use Rattle.exercise_review.specs.News.{earlier, later};
ghost use Rattle.exercise_review.specs.Sourced.{IsAnswerIn};
ghost use Rattle.exercise_review.specs.Word.{word_at};

use crate::receipt::Receipts;
use crate::register::Register;
use crate::reply::Reply;
use crate::word::{EntryWord, Word};
use exercise_findings::StridePredictor;
use exercise_model::ExerciseLog;

/// The replies of a station that the maker of an order heard.
#[derive(Clone, Copy)]
pub(crate) struct HeardReplies {
    /// The first entry at which it heard one that settles.
    pub settled: EntryWord,
    /// The last entry at which it heard one.
    pub last: EntryWord,
}

/// The earlier of an entry and a second one, either of which may be missing.
fn earlier<L: ExerciseLog>(
    findings: &Register<'_, L>,
    kept: EntryWord,
    entry: Option<usize>,
    word: Option<Word>,
) -> EntryWord
    requires kept { IsEntryWord findings.now kept }
    requires word { IfSome entry (λ i. word ≡ word_at findings.now i) }
    ensures entry { result.entry ≡ earlier kept.entry entry }
    ensures word { IsEntryWord findings.now result }
{
    let _findings = findings;
    match (kept.entry, entry) {
        (_, None) => kept,
        (None, Some(_)) => EntryWord { entry, word },
        (Some(left), Some(right)) => {
            if left <= right {
                kept
            } else {
                EntryWord { entry, word }
            }
        }
    }
}

/// The later of an entry and a second one, either of which may be missing.
fn later<L: ExerciseLog>(
    findings: &Register<'_, L>,
    kept: EntryWord,
    entry: Option<usize>,
    word: Option<Word>,
) -> EntryWord
    requires kept { IsEntryWord findings.now kept }
    requires word { IfSome entry (λ i. word ≡ word_at findings.now i) }
    ensures entry { result.entry ≡ later kept.entry entry }
    ensures word { IsEntryWord findings.now result }
{
    let _findings = findings;
    match (kept.entry, entry) {
        (_, None) => kept,
        (None, Some(_)) => EntryWord { entry, word },
        (Some(left), Some(right)) => {
            if left <= right {
                EntryWord { entry, word }
            } else {
                kept
            }
        }
    }
}

/// First and last entry at which the maker received a reply that `entry` sends.
#[tactic(auto, using(crate::proofs::Replied::first_word, crate::proofs::Replied::last_word))]
fn receipts_of<L: ExerciseLog>(
    findings: &Register<'_, L>,
    maker: Option<u16>,
    entry: usize,
    reply: Reply<'_>,
    hint: &mut StridePredictor,
) -> (Option<usize>, Option<usize>)
    requires word { reply.word ≡ word_in findings.now reply.bytes.now }
    requires answers { asks_in findings.now reply.bytes.now ≡ false }
    requires sent { IsAnswerIn findings.now entry reply.bytes.now }
    ensures first { result.0 ≡ first_news findings.now maker (Some reply.entry) }
    ensures last { result.1 ≡ last_news findings.now maker (Some reply.entry) }
    ensures words { IfSome result.0 (λ i. reply.entry.word ≡ word_at findings.now i) × IfSome result.1 (λ i. reply.entry.word ≡ word_at findings.now i) }
{
    let Some(maker) = maker else {
        return (None, None);
    };
    match findings.receipts(entry, maker, reply.bytes, hint) {
        Some(Receipts { first, last }) => (Some(first as usize), Some(last as usize)),
        None => (None, None),
    }
}

/// The replies heard by an optional maker, from an entry on: those after it are `behind`, and
/// `reply` is the one at the entry, if any.
pub(crate) fn heard_replies<L: ExerciseLog>(
    findings: &Register<'_, L>,
    maker: Option<u16>,
    behind: HeardReplies,
    entry: usize,
    reply: Option<Reply<'_>>,
    hint: &mut StridePredictor,
) -> HeardReplies
    requires settled { IsEntryWord findings.now behind.settled }
    requires last { IsEntryWord findings.now behind.last }
    requires word { IfSome reply (λ x. x.word ≡ word_in findings.now x.bytes.now) }
    requires answers { IfSome reply (λ x. asks_in findings.now x.bytes.now ≡ false) }
    requires sent { IfSome reply (λ x. IsAnswerIn findings.now entry x.bytes.now) }
    ensures settled { result.settled.entry ≡ (if settles_in reply.entry then earlier behind.settled.entry (first_news findings.now maker reply.entry) else behind.settled.entry) }
    ensures last { result.last.entry ≡ later behind.last.entry (last_news findings.now maker reply.entry) }
    ensures words { IsEntryWord findings.now result.settled × IsEntryWord findings.now result.last }
{
    let Some(reply) = reply else {
        return behind;
    };
    let (first, last) = receipts_of(findings, maker, entry, reply, hint);
    let settled = if reply.settles {
        earlier(findings, behind.settled, first, reply.word)
    } else {
        behind.settled
    };
    HeardReplies {
        settled,
        last: later(findings, behind.last, last, reply.word),
    }
}
