//! Colour and arrow head of a datagram.

ghost use Rattle.std.specs.Prelude.{◌≡◌};
ghost use Rattle.exercise_chart.specs.Tone.{word_tone, request_tone, tone_of, tone_if, colour_of, head_of};

use crate::Saying;
use exercise_review::Word;

/// Class of a datagram, which decides its colour and its arrow head.
#[derive(Clone, Copy)]
pub(crate) enum Tone {
    /// A request.
    Request,
    /// An answer that says able or complete, and a Data.
    Able,
    /// An answer that says unable or rejected.
    Unable,
    /// Another answer.
    Other,
    /// An Event Report or a Comment.
    Notice,
}

/// The tone of an answer, by what it says.
fn word_tone(word: Word) -> Tone
    ensures { result ≡ word_tone word }
{
    match word {
        Word::Able | Word::Complete | Word::Data => Tone::Able,
        Word::Unable | Word::Rejected => Tone::Unable,
        _ => Tone::Other,
    }
}

/// The tone of a PDU that is no answer: a request if it has a request identifier, else a notice.
fn request_tone(request: Option<u32>) -> Tone
    ensures { result ≡ request_tone request }
{
    match request {
        Some(_) => Tone::Request,
        None => Tone::Notice,
    }
}

impl Tone {
    /// The tone of a PDU.
    #[tactic(auto, unfolding(crate::specs::Tone::tone_of))]
    pub(crate) fn of(said: &Saying) -> Tone
        ensures { result ≡ tone_of said.now }
    {
        match said.word {
            Some(word) => word_tone(word),
            None => request_tone(said.request),
        }
    }

    /// The tone of a PDU, or `Other` for a datagram that means nothing.
    #[tactic(auto, unfolding(crate::specs::Tone::tone_if))]
    pub(crate) fn of_any(said: &Option<Saying>) -> Tone
        ensures { result ≡ tone_if said.now }
    {
        match said {
            Some(said) => Tone::of(said),
            None => Tone::Other,
        }
    }

    /// The colour, as `#rrggbb`.
    #[tactic(auto, unfolding(crate::specs::Tone::colour_of))]
    pub(crate) fn colour(self) -> &'static str
        ensures { result.now ≡ colour_of self }
    {
        match self {
            Tone::Request => "#1d4ed8",
            Tone::Able => "#15803d",
            Tone::Unable => "#c2410c",
            Tone::Other => "#475569",
            Tone::Notice => "#7c3aed",
        }
    }

    /// The arrow head, as a `url(..)` of a marker.
    #[tactic(auto, unfolding(crate::specs::Tone::head_of))]
    pub(crate) fn head(self) -> &'static str
        ensures { result.now ≡ head_of self }
    {
        match self {
            Tone::Request => "url(#to-request)",
            Tone::Able => "url(#to-able)",
            Tone::Unable => "url(#to-unable)",
            Tone::Other => "url(#to-other)",
            Tone::Notice => "url(#to-notice)",
        }
    }
}
