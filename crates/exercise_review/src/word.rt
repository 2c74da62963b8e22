//! The words of answers, and which of several answers counts.

ghost use Rattle.std.specs.Prelude.{◌≡◌, ◌<◌, length, option_map, option_and_then, IfSome, None};
ghost use Rattle.std.specs.Option.{option_or};
ghost use Rattle.exercise_model.specs.Recording.{PlainRecording};
ghost use Rattle.siman_pdus.specs.Reading.{body_of};
ghost use Rattle.exercise_review.specs.StationTrace.{IsEntryWord};
ghost use Rattle.exercise_review.specs.Register.{IsUnder};
ghost use Rattle.exercise_review.specs.Word.{response_word, status_word, word_of, settles, word_at, settles_at, is_settling, first_settling, decisive_entry, word_text};

use crate::entries::{pdu_at, pdu_in_log};
use crate::question::Question;
use crate::register::Register;
use crate::walk::{first_entry, last_entry};
use dis_records::Kind;
use exercise_model::ExerciseLog;
use siman_pdus::{BodyView, RequestStatus, ResponseFlag};
use std::fmt;

/// The word of an answer: the response flag of an Acknowledge, the request status of an Action
/// Response, or Data.
#[derive(Clone, Copy, PartialEq, Eq)]
pub enum Word {
    /// Response flag 0, or request status 0.
    Other,
    /// Response flag 1: able to comply.
    Able,
    /// Response flag 2: unable to comply.
    Unable,
    /// Response flag 3, or request status 1: pending.
    Pending,
    /// Request status 2: executing.
    Executing,
    /// Request status 3: partially complete.
    PartiallyComplete,
    /// Request status 4: complete.
    Complete,
    /// Request status 5: request rejected.
    Rejected,
    /// A Data.
    Data,
    /// A flag or a status without a name.
    Number(u32),
}

impl Word {
    /// The word of an Acknowledge with this response flag.
    fn of_response(response: u16) -> Word
        ensures { result ≡ response_word response }
    {
        match response {
            0 => Word::Other,
            1 => Word::Able,
            2 => Word::Unable,
            3 => Word::Pending,
            _ => Word::Number(u32::from(response)),
        }
    }

    /// The word of an Action Response with this request status.
    fn of_status(status: u32) -> Word
        ensures { result ≡ status_word status }
    {
        match status {
            0 => Word::Other,
            1 => Word::Pending,
            2 => Word::Executing,
            3 => Word::PartiallyComplete,
            4 => Word::Complete,
            5 => Word::Rejected,
            _ => Word::Number(status),
        }
    }

    /// Word of an answer with this body; `None` for all kinds but Acknowledge, Action Response and
    /// Data.
    pub fn of(body: &BodyView<'_>) -> Option<Word>
        ensures { result ≡ word_of (body_of body.now) }
    {
        match body {
            BodyView::Acknowledge { response, .. } => Some(Word::of_response(*response)),
            BodyView::ActionResponse { result, .. } => Some(Word::of_status(*result)),
            BodyView::DataPdu { .. } => Some(Word::Data),
            _ => None,
        }
    }
}

/// Written as `able` or `partially-complete`; a number without a name in decimal.
impl fmt::Display for Word {
    ghost use Rattle.std.specs.Prelude.{Some};
    ghost use Rattle.exercise_review.specs.Word.{word_text};

    ghost output = { λ word. Some (word_text word) };

    fn fmt<W: fmt::Write>(&self, f: &mut fmt::Formatter<W>) -> fmt::Result {
        match self {
            Word::Other => f.write_str(ResponseFlag::Other.name()),
            Word::Able => f.write_str(ResponseFlag::Able.name()),
            Word::Unable => f.write_str(ResponseFlag::Unable.name()),
            Word::Pending => f.write_str(ResponseFlag::Pending.name()),
            Word::Executing => f.write_str(RequestStatus::Executing.name()),
            Word::PartiallyComplete => f.write_str(RequestStatus::PartiallyComplete.name()),
            Word::Complete => f.write_str(RequestStatus::Complete.name()),
            Word::Rejected => f.write_str(RequestStatus::Rejected.name()),
            Word::Data => f.write_str(Kind::DataPdu.name()),
            Word::Number(number) => write!(f, "{number}"),
        }
    }
}

/// Whether an answer with this body settles the order that it answers.
pub(crate) fn settles(body: &BodyView<'_>) -> bool
    ensures { result ≡ settles (body_of body.now) }
{
    match body {
        BodyView::Acknowledge { response, .. } => *response == 1 || *response == 2,
        BodyView::ActionResponse { result, .. } => !(*result == 1 || *result == 2 || *result == 3),
        BodyView::DataPdu { .. } => true,
        _ => false,
    }
}

/// Word of the PDU that an entry of a log sends or receives.
#[tactic(auto, unfolding(crate::specs::Word::word_at))]
pub(crate) fn word_in<L: ExerciseLog>(log: &L, entry: usize) -> Option<Word>
    ensures { result ≡ word_at (L.recording log.now) entry }
{
    match pdu_in_log(log, entry) {
        Some(pdu) => Word::of(&pdu.body),
        None => None,
    }
}

/// Word of the PDU that an entry sends or receives; `None` if it is no answer, and past the last
/// entry.
pub fn word_at<L: ExerciseLog>(findings: &Register<'_, L>, entry: usize) -> Option<Word>
    ensures { result ≡ word_at findings.now entry }
{
    word_in(findings.log(), entry)
}

/// Word of an optional entry.
pub(crate) fn word_of<L: ExerciseLog>(
    findings: &Register<'_, L>,
    entry: Option<usize>,
) -> Option<Word>
    ensures { result ≡ option_and_then (word_at findings.now) entry }
{
    match entry {
        Some(entry) => word_at(findings, entry),
        None => None,
    }
}

/// Whether an entry sends or receives an answer that settles its order.
#[tactic(auto, unfolding(crate::specs::Word::settles_at))]
pub(crate) fn settles_at<L: ExerciseLog>(findings: &Register<'_, L>, entry: usize) -> bool
    ensures { result ≡ settles_at findings.now entry }
{
    match pdu_at(findings, entry) {
        Some(pdu) => settles(&pdu.body),
        None => false,
    }
}

/// An optional entry whose word may count, and its word.
#[derive(Clone, Copy)]
pub(crate) struct EntryWord {
    pub entry: Option<usize>,
    pub word: Option<Word>,
}

impl EntryWord {
    /// No entry.
    pub(crate) fn nothing() -> EntryWord
        ensures entry { result.entry ≡ None }
        ensures word { result.word ≡ None }
    {
        EntryWord {
            entry: None,
            word: None,
        }
    }

    /// An optional entry, with its word.
    pub(crate) fn at<L: ExerciseLog>(findings: &Register<'_, L>, entry: Option<usize>) -> EntryWord
        ensures entry { result.entry ≡ entry }
        ensures word { IsEntryWord findings.now result }
    {
        EntryWord {
            entry,
            word: word_of(findings, entry),
        }
    }

    /// This one, or `other` if this has no entry.
    pub(crate) fn or(self, other: EntryWord) -> EntryWord
        ensures entry { result.entry ≡ option_or self.entry other.entry }
        ensures word { (r : PlainRecording) → IsEntryWord r self → IsEntryWord r other → IsEntryWord r result }
    {
        match self.entry {
            Some(_) => self,
            None => other,
        }
    }
}

/// The test whether an entry passes and settles.
#[derive(Drop)]
struct Settling<'a, L: ExerciseLog, Q: Question> {
    findings: &'a Register<'a, L>,
    question: &'a Q,
}

impl<L: ExerciseLog, Q: Question> Question for Settling<'_, L, Q> {
    ghost test = { λ q. is_settling q.findings.now (Q.test q.question.now) };

    fn passes(&self, entry: usize) -> bool {
        self.question.passes(entry) && settles_at(self.findings, entry)
    }
}

/// First entry that passes and settles, where all that pass have this key.
#[tactic(auto, unfolding(crate::specs::Word::first_settling), using(crate::proofs::Under::settling_under))]
pub(crate) fn first_settling<L: ExerciseLog, Q: Question>(
    findings: &Register<'_, L>,
    key: Option<u64>,
    question: &Q,
) -> Option<usize>
    requires { IfSome key (IsUnder findings.now (Q.test question.now)) }
    ensures first { result ≡ first_settling findings.now (Q.test question.now) }
{
    first_entry(findings, key, &Settling { findings, question })
}

/// Entry whose word counts among those that pass, where all that pass have this key: the first that
/// settles, else the last.
#[tactic(auto, unfolding(crate::specs::Word::decisive_entry))]
pub(crate) fn decisive_entry<L: ExerciseLog, Q: Question>(
    findings: &Register<'_, L>,
    key: Option<u64>,
    question: &Q,
) -> Option<usize>
    requires { IfSome key (IsUnder findings.now (Q.test question.now)) }
    ensures { result ≡ decisive_entry findings.now (Q.test question.now) }
{
    match first_settling(findings, key, question) {
        Some(entry) => Some(entry),
        None => last_entry(findings, key, question),
    }
}
