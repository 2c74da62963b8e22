//! The replies of a station to an order, collected from the last entry to the first.

ghost use Rattle.std.specs.Prelude.{◌≡◌, ◌&&◌, is_some, IfSome, Some, None, if◌then◌else◌};
ghost use Rattle.std.specs.Option.{option_or};
ghost use Rattle.exercise_model.specs.Account.{change_at};
ghost use Rattle.exercise_review.specs.StationTrace.{settles_in, IsEntryWord};
ghost use Rattle.exercise_review.specs.Word.{word_at};

use crate::register::Register;
use crate::reply::Reply;
use crate::word::EntryWord;
use exercise_model::ExerciseLog;

/// The replies of a station to an order.
#[derive(Clone, Copy)]
pub(crate) struct Replied {
    /// The first reply that settles.
    pub settled: EntryWord,
    /// The last reply.
    pub last: EntryWord,
    /// The first reply that makes a change at the station.
    pub change: Option<usize>,
}

/// The replies from an entry on, given those after it and the reply at the entry, if any.
pub(crate) fn station_replies<L: ExerciseLog>(
    findings: &Register<'_, L>,
    behind: Replied,
    entry: usize,
    reply: Option<Reply<'_>>,
) -> Replied
    requires settled { IsEntryWord findings.now behind.settled }
    requires last { IsEntryWord findings.now behind.last }
    requires word { IfSome reply (λ x. x.word ≡ word_at findings.now entry) }
    ensures settled { result.settled.entry ≡ option_or (if settles_in reply.entry then Some entry else None) behind.settled.entry }
    ensures last { result.last.entry ≡ option_or behind.last.entry (if is_some reply.entry then Some entry else None) }
    ensures change { result.change ≡ option_or (if is_some reply.entry && is_some (change_at findings.now entry) then Some entry else None) behind.change }
    ensures words { IsEntryWord findings.now result.settled × IsEntryWord findings.now result.last }
{
    let Some(reply) = reply else {
        return behind;
    };
    let here = EntryWord {
        entry: Some(entry),
        word: reply.word,
    };
    let settled = if reply.settles { here } else { behind.settled };
    let change = if findings.change(entry).is_some() {
        Some(entry)
    } else {
        behind.change
    };
    Replied {
        settled,
        last: behind.last.or(here),
        change,
    }
}
