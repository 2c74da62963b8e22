//! Summary of a PDU, as a picture shows it.

ghost use Rattle.std.specs.Prelude.{◌≡◌};
ghost use Rattle.siman_pdus.specs.Reading.{pdu_of};
ghost use Rattle.exercise_chart.specs.Saying.{pdu_summary};

use dis_records::{EntityId, Kind};
use exercise_review::Word;
use siman_pdus::{Message, PduView, request_id};

/// Summary of a PDU: its kind, sender, receiver, request and answer.
#[derive(Clone, Copy)]
pub struct Saying {
    pub kind: Kind,
    /// The originating identifier.
    pub origin: EntityId,
    /// The receiving identifier.
    pub target: EntityId,
    /// The request identifier; `None` for an Event Report and a Comment.
    pub request: Option<u32>,
    /// What an answer says; `None` for all other kinds.
    pub word: Option<Word>,
}

/// Summary of a PDU.
pub(crate) fn pdu_summary(pdu: &PduView<'_>) -> Saying
    ensures { result ≡ pdu_summary (pdu_of pdu.now) }
{
    Saying {
        kind: pdu.kind(),
        origin: pdu.origin,
        target: pdu.target,
        request: request_id(pdu),
        word: Word::of(&pdu.body),
    }
}
