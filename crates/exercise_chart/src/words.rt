//! What a station did, in words.

ghost use Rattle.std.specs.Prelude.{◌≡◌, ◌++◌, OnOk, string_bytes};
ghost use Rattle.exercise_chart.specs.Words.{answer_words, request_words, repetition_words, kind_words, sent_words, received_words, other_words, told_words, activity_words};

use crate::{Activity, Repetition, Saying};
use dis_records::{Address, EntityId, EntityState};
use exercise_review::Word;
use siman_print::{Field, Spelling, Value, put_fields};
use std::alloc::AllocError;

/// Writes what an answer says. A Data needs no word: its kind says it.
fn put_answer(text: &mut String, word: Option<Word>) -> Result<(), AllocError>
    ensures { OnOk result (string_bytes text.new ≡ string_bytes text.old ++ answer_words word) }
{
    match word {
        None | Some(Word::Data) => Ok(()),
        Some(word) => write!(text, " {word}"),
    }
}

/// Writes the kind of a PDU, and what an answer says.
fn put_kind(text: &mut String, said: &Saying) -> Result<(), AllocError>
    ensures { OnOk result (string_bytes text.new ≡ string_bytes text.old ++ kind_words said.now) }
{
    let kind = [Field::Bare("kind", Value::Kind(said.kind))];
    put_fields(text, Spelling::Text, &kind)?;
    put_answer(text, said.word)
}

/// Writes the request identifier, if the PDU has one.
fn put_request(text: &mut String, request: Option<u32>) -> Result<(), AllocError>
    ensures { OnOk result (string_bytes text.new ≡ string_bytes text.old ++ request_words request) }
{
    match request {
        Some(request) => {
            let fields = [Field::Keyed("request", Value::Number(u64::from(request)))];
            put_fields(text, Spelling::Text, &fields)
        }
        None => Ok(()),
    }
}

/// Writes how a send repeats an earlier one, if it does.
fn put_repetition(text: &mut String, again: Repetition) -> Result<(), AllocError>
    ensures { OnOk result (string_bytes text.new ≡ string_bytes text.old ++ repetition_words again) }
{
    match again {
        Repetition::No => Ok(()),
        Repetition::Repeated => text.push_str(" (repeat)"),
        Repetition::SameBytes => text.push_str(" (same bytes again)"),
    }
}

/// Writes that a PDU was sent, and to whom.
fn put_sent(text: &mut String, said: &Saying, again: Repetition) -> Result<(), AllocError>
    ensures { OnOk result (string_bytes text.new ≡ string_bytes text.old ++ sent_words said.now again) }
{
    text.push_str(" sent")?;
    put_kind(text, said)?;
    let target = [Field::Keyed("to", Value::Entity(&said.target))];
    put_fields(text, Spelling::Text, &target)?;
    put_request(text, said.request)?;
    put_repetition(text, again)
}

/// Writes that a PDU was received, and from whom.
fn put_received(text: &mut String, said: &Saying) -> Result<(), AllocError>
    ensures { OnOk result (string_bytes text.new ≡ string_bytes text.old ++ received_words said.now) }
{
    text.push_str(" received")?;
    put_kind(text, said)?;
    let origin = [Field::Keyed("from", Value::Entity(&said.origin))];
    put_fields(text, Spelling::Text, &origin)?;
    put_request(text, said.request)
}

/// Writes that a datagram which means nothing was sent or received, with its length.
fn put_other(text: &mut String, did: &str, bytes: usize) -> Result<(), AllocError>
    ensures { OnOk result (string_bytes text.new ≡ string_bytes text.old ++ other_words did.now bytes) }
{
    let fields = [
        Field::Bare("did", Value::Word(did)),
        Field::Bare("kind", Value::Word("other")),
        Field::Keyed("bytes", Value::Number(bytes as u64)),
    ];
    put_fields(text, Spelling::Text, &fields)
}

/// Writes the state that a station told of its entity.
fn put_told(
    text: &mut String,
    address: Address,
    entity: u16,
    state: EntityState,
) -> Result<(), AllocError>
    ensures { OnOk result (string_bytes text.new ≡ string_bytes text.old ++ told_words address entity state) }
{
    let entity = EntityId {
        site: address.site(),
        application: address.application(),
        entity,
    };
    let fields = [
        Field::Bare("did", Value::Word("told")),
        Field::Keyed("entity", Value::Entity(&entity)),
        Field::Keyed("state", Value::State(state)),
    ];
    put_fields(text, Spelling::Text, &fields)
}

/// Writes what the station with this address did.
#[tactic(auto, unfolding(crate::specs::Words::activity_words))]
pub(crate) fn put_activity(
    text: &mut String,
    address: Address,
    did: &Activity,
) -> Result<(), AllocError>
    ensures { OnOk result (string_bytes text.new ≡ string_bytes text.old ++ activity_words address did.now) }
{
    match did {
        Activity::Sent(said, again) => put_sent(text, said, *again),
        Activity::Received(said) => put_received(text, said),
        Activity::SentOther(bytes) => put_other(text, "sent", *bytes),
        Activity::ReceivedOther(bytes) => put_other(text, "received", *bytes),
        Activity::Told(entity, state) => put_told(text, address, *entity, *state),
    }
}
