//! The fate of an order at one of its parties.

ghost use Rattle.std.specs.Prelude.{◌≡◌};
ghost use Rattle.exercise_review.specs.Order.{order_of};
ghost use Rattle.exercise_review.specs.StationTrace.{IsStationTrace};
ghost use Rattle.exercise_review.specs.Fate.{fate_heard, fate_of_traces, traces_of, fate_of, fate_text};

use crate::hints::Hints;
use crate::order::RecordedOrder;
use crate::party::Party;
use crate::register::Register;
use crate::reply::Replies;
use crate::station_trace::{StationTrace, station_trace};
use crate::word::Word;
use exercise_model::ExerciseLog;
use std::fmt;

/// The fate of an order at one of its parties. Each case applies only if all the logs it needs are
/// recorded.
#[derive(Clone, Copy, PartialEq, Eq)]
pub enum Fate {
    /// The maker heard an answer of the party that settles, and that says able, complete or data.
    Done,
    /// The maker heard one that settles, with a word other than those of done and refused.
    Answered,
    /// The maker heard one that settles, and that says unable or rejected.
    Refused,
    /// The party replied, and no reply settles.
    Pending,
    /// A reply settles, and the maker heard no answer of the party that settles.
    Unheard,
    /// The party received the order and did not reply.
    Unanswered,
    /// The party did not receive the order.
    Lost,
    /// None of these, since a log is not recorded.
    Unknown,
    /// The order has no party at all.
    Nobody,
}

/// Traces of an order in the logs of its maker and of a recorded party.
#[derive(Clone, Copy)]
pub struct Traces {
    /// Whether the maker is recorded.
    pub made: bool,
    /// The word of the first answer of the party that the maker heard and that settles.
    pub heard: Option<Word>,
    /// Whether the party sent a reply that settles.
    pub settled: bool,
    /// Whether the party sent a reply.
    pub replied: bool,
    /// Whether the party received the order.
    pub got: bool,
}

impl Fate {
    /// The fate of an order whose maker heard this word in an answer that settles.
    fn of_heard(word: Word) -> Fate
        ensures { result ≡ fate_heard word }
    {
        match word {
            Word::Able | Word::Complete | Word::Data => Fate::Done,
            Word::Unable | Word::Rejected => Fate::Refused,
            _ => Fate::Answered,
        }
    }

    /// The fate at a recorded party, given the traces.
    pub fn of(traces: &Traces) -> Fate
        ensures { result ≡ fate_of_traces traces.now }
    {
        match traces.heard {
            Some(word) if traces.made => return Fate::of_heard(word),
            _ => {}
        }
        if traces.made && traces.settled {
            Fate::Unheard
        } else if traces.replied && !traces.settled {
            Fate::Pending
        } else if traces.got && !traces.replied {
            Fate::Unanswered
        } else if !traces.got {
            Fate::Lost
        } else {
            Fate::Unknown
        }
    }

    /// Its name, such as `done`.
    pub fn name(self) -> &'static str
        ensures { result.now ≡ fate_text self }
    {
        match self {
            Fate::Done => "done",
            Fate::Answered => "answered",
            Fate::Refused => "refused",
            Fate::Pending => "pending",
            Fate::Unheard => "unheard",
            Fate::Unanswered => "unanswered",
            Fate::Lost => "lost",
            Fate::Unknown => "unknown",
            Fate::Nobody => "nobody",
        }
    }
}

/// Its name.
impl fmt::Display for Fate {
    ghost use Rattle.std.specs.Prelude.{Some};
    ghost use Rattle.exercise_review.specs.Fate.{fate_text};

    ghost output = { λ fate. Some (fate_text fate) };

    fn fmt<W: fmt::Write>(&self, f: &mut fmt::Formatter<W>) -> fmt::Result {
        f.write_str(self.name())
    }
}

/// Traces of an order at a recorded station, given the data collected there.
#[tactic(auto, unfolding(crate::specs::Fate::traces_of), using(crate::proofs::Walks::found_alike))]
pub(crate) fn collected_traces<L: ExerciseLog>(
    replies: &Replies<'_, L>,
    gathered: StationTrace,
) -> Traces
    requires { let q = replies.now in IsStationTrace q.findings.now (order_of q.order.now) q.station gathered }
    ensures { let q = replies.now in result ≡ traces_of q.findings.now (order_of q.order.now) q.station }
{
    Traces {
        made: replies.order.maker.is_some(),
        heard: gathered.news.settled.word,
        settled: gathered.replied.settled.entry.is_some(),
        replied: gathered.replied.last.entry.is_some(),
        got: gathered.copies.first.is_some(),
    }
}

/// Traces of an order at a recorded station. Allocates no memory.
pub fn traces_of<L: ExerciseLog>(
    findings: &Register<'_, L>,
    order: &RecordedOrder<'_>,
    station: u16,
) -> Traces
    ensures { result ≡ traces_of findings.now (order_of order.now) station }
{
    let replies = Replies {
        findings,
        order,
        station,
    };
    let gathered = station_trace(&replies, replies.key(), None, &mut Hints::new());
    collected_traces(&replies, gathered)
}

/// Fate of an order at one of its parties. Allocates no memory.
#[tactic(auto, unfolding(crate::specs::Fate::fate_of))]
pub fn fate_of<L: ExerciseLog>(
    findings: &Register<'_, L>,
    order: &RecordedOrder<'_>,
    party: Party,
) -> Fate
    ensures { result ≡ fate_of findings.now (order_of order.now) party }
{
    match party {
        Party::Station(station) => Fate::of(&traces_of(findings, order, station)),
        Party::Outside(_) => Fate::Unknown,
    }
}
