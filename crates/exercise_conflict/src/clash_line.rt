//! Rows of an entry's contradiction.

ghost use Rattle.std.specs.Prelude.{◌≡◌, ◌<◌, ◌∷◌, [], ◌++◌, length, OnOk, IfOk, string_bytes};
ghost use Rattle.dis_records.specs.Entity.{site_application_of, entity_of};
ghost use Rattle.exercise_model.specs.History.{station_at};
ghost use Rattle.siman_print.specs.Lent.{value_of};
ghost use Rattle.siman_print.specs.Spelled.{address_text, fields_spelled, line_spelled};
ghost use Rattle.exercise_conflict.specs.Lines.{state_value, difference_value, mismatch_text, from_field, sender_fields, earlier_fields, differing_fields, request_fields, state_fields, send_fields, clash_fields, clash_line, IsOfStations};

use crate::lines::entry_value;
use crate::{AnswerMismatch, Clash, PduField as Difference};
use dis_records::{EntityId, EntityState};
use exercise_model::ExerciseLog;
use siman_print::{Field, Spelling, Value, put_end, put_fields, put_opening};
use std::alloc::{AllocError, Global};

/// A state, or a missing value.
fn state_value<'a>(state: Option<EntityState>) -> Value<'a>
    ensures { value_of result ≡ state_value state }
{
    match state {
        Some(state) => Value::State(state),
        None => Value::Missing,
    }
}

/// The name of the difference of two datagrams, or a missing value.
fn difference_value<'a>(differs: Option<Difference>) -> Value<'a>
    ensures { value_of result ≡ difference_value differs }
{
    match differs {
        Some(field) => Value::Word(field.name()),
        None => Value::Missing,
    }
}

/// The word for why an answer does not answer a request.
fn mismatch_word(differs: AnswerMismatch) -> &'static str
    ensures { result.now ≡ mismatch_text differs }
{
    match differs {
        AnswerMismatch::Kind => "kind",
        AnswerMismatch::Entity => "entity",
    }
}

/// The identifier of an entity of a station.
fn entity_of<L: ExerciseLog>(log: &L, station: u16, entity: u16) -> EntityId
    requires { station < length (L.recording log.now).setting.stations }
    ensures { result ≡ entity_of (station_at (L.recording log.now) station).address entity }
{
    let address = log.station(usize::from(station)).address();
    address.site_application().entity(entity)
}

/// `SITE:APPLICATION` of an identifier.
fn address_word(alloc: Global, id: EntityId) -> Result<String, AllocError>
    ensures { IfOk result (λ word. string_bytes word ≡ address_text (site_application_of id)) }
{
    let word = format!(in alloc; "{}:{}", id.site, id.application)?;
    Ok(word)
}

/// `from=ADDRESS`.
fn put_from(
    alloc: Global,
    text: &mut String,
    spelling: Spelling,
    from: EntityId,
) -> Result<(), AllocError>
    ensures { OnOk result (string_bytes text.new ≡ string_bytes text.old ++ fields_spelled spelling (from_field from ∷ [])) }
{
    let address = address_word(alloc, from)?;
    put_fields(
        text,
        spelling,
        &[Field::Keyed("from", Value::Word(&address))],
    )
}

/// `from=ADDRESS at=ADDRESS`.
fn put_sender<L: ExerciseLog>(
    alloc: Global,
    text: &mut String,
    spelling: Spelling,
    log: &L,
    from: EntityId,
    station: u16,
) -> Result<(), AllocError>
    requires { station < length (L.recording log.now).setting.stations }
    ensures { OnOk result (string_bytes text.new ≡ string_bytes text.old ++ fields_spelled spelling (sender_fields (L.recording log.now) from station)) }
{
    let address = address_word(alloc, from)?;
    let at = log.station(usize::from(station)).address();
    let fields = [
        Field::Keyed("from", Value::Word(&address)),
        Field::Keyed("at", Value::Address(at)),
    ];
    put_fields(text, spelling, &fields)
}

/// `earlier=ENTRY differs=WORD`.
fn put_differing(
    text: &mut String,
    spelling: Spelling,
    earlier: usize,
    word: &str,
) -> Result<(), AllocError>
    ensures { OnOk result (string_bytes text.new ≡ string_bytes text.old ++ fields_spelled spelling (differing_fields earlier word.now)) }
{
    let fields = [
        Field::Keyed("earlier", Value::Number(earlier as u64)),
        Field::Keyed("differs", Value::Word(word)),
    ];
    put_fields(text, spelling, &fields)
}

/// `later=ENTRY overheard=ENTRY sent=ENTRY`.
fn put_request(
    text: &mut String,
    spelling: Spelling,
    later: Option<usize>,
    overheard: Option<usize>,
    sent: Option<usize>,
) -> Result<(), AllocError>
    ensures { OnOk result (string_bytes text.new ≡ string_bytes text.old ++ fields_spelled spelling (request_fields later overheard sent)) }
{
    let fields = [
        Field::Keyed("later", entry_value(later)),
        Field::Keyed("overheard", entry_value(overheard)),
        Field::Keyed("sent", entry_value(sent)),
    ];
    put_fields(text, spelling, &fields)
}

/// `earlier=ENTRY`.
fn put_earlier(text: &mut String, spelling: Spelling, earlier: usize) -> Result<(), AllocError>
    ensures { OnOk result (string_bytes text.new ≡ string_bytes text.old ++ fields_spelled spelling (earlier_fields earlier)) }
{
    let fields = [Field::Keyed("earlier", Value::Number(earlier as u64))];
    put_fields(text, spelling, &fields)
}

/// `entity=ID state=STATE change=ENTRY`.
fn put_state(
    text: &mut String,
    spelling: Spelling,
    id: EntityId,
    state: Option<EntityState>,
    change: Option<usize>,
) -> Result<(), AllocError>
    ensures { OnOk result (string_bytes text.new ≡ string_bytes text.old ++ fields_spelled spelling (state_fields id state change)) }
{
    let fields = [
        Field::Keyed("entity", Value::Entity(&id)),
        Field::Keyed("state", state_value(state)),
        Field::Keyed("change", entry_value(change)),
    ];
    put_fields(text, spelling, &fields)
}

/// `from=ADDRESS sent=ENTRY near=ENTRY differs=FIELD`.
fn put_send(
    alloc: Global,
    text: &mut String,
    spelling: Spelling,
    from: EntityId,
    sent: Option<usize>,
    near: Option<usize>,
    differs: Option<Difference>,
) -> Result<(), AllocError>
    ensures { OnOk result (string_bytes text.new ≡ string_bytes text.old ++ fields_spelled spelling (send_fields from sent near differs)) }
{
    let address = address_word(alloc, from)?;
    let fields = [
        Field::Keyed("from", Value::Word(&address)),
        Field::Keyed("sent", entry_value(sent)),
        Field::Keyed("near", entry_value(near)),
        Field::Keyed("differs", difference_value(differs)),
    ];
    put_fields(text, spelling, &fields)
}

/// The keys of the other side, which depend on the cause.
pub(crate) fn put_clash_fields<L: ExerciseLog>(
    alloc: Global,
    text: &mut String,
    spelling: Spelling,
    log: &L,
    clash: Clash,
) -> Result<(), AllocError>
    requires { IsOfStations (L.recording log.now) clash }
    ensures { OnOk result (string_bytes text.new ≡ string_bytes text.old ++ fields_spelled spelling (clash_fields (L.recording log.now) clash)) }
{
    match clash {
        Clash::WrongSender { from, station } => put_sender(
            alloc, text, spelling, log, from, station,
        ),
        Clash::ReusedIdentifier { earlier, differs } => {
            put_differing(text, spelling, earlier, differs.name())
        }
        Clash::NoRequest {
            later,
            overheard,
            sent,
        } => put_request(text, spelling, later, overheard, sent),
        Clash::WrongAnswer { earlier, differs } => {
            put_differing(text, spelling, earlier, mismatch_word(differs))
        }
        Clash::ChangedAnswer { earlier } => put_earlier(text, spelling, earlier),
        Clash::Impossible {
            earlier,
            station,
            entity,
            state,
            change,
        } => {
            put_earlier(text, spelling, earlier)?;
            put_state(
                text,
                spelling,
                entity_of(log, station, entity),
                state,
                change,
            )
        }
        Clash::Stranger { from } => put_from(alloc, text, spelling, from),
        Clash::NeverSent {
            from,
            sent,
            near,
            differs,
        } => put_send(alloc, text, spelling, from, sent, near, differs),
        Clash::WrongState {
            station,
            entity,
            state,
            change,
        } => put_state(
            text,
            spelling,
            entity_of(log, station, entity),
            Some(state),
            change,
        ),
    }
}

/// `clash ENTRY ..`: an entry and its contradiction.
pub fn put_clash<L: ExerciseLog>(
    alloc: Global,
    text: &mut String,
    spelling: Spelling,
    log: &L,
    entry: usize,
    clash: Clash,
) -> Result<(), AllocError>
    requires { IsOfStations (L.recording log.now) clash }
    ensures { OnOk result (string_bytes text.new ≡ string_bytes text.old ++ line_spelled spelling (clash_line (L.recording log.now) entry clash)) }
{
    put_opening(text, spelling, "clash", &None)?;
    put_fields(
        text,
        spelling,
        &[Field::Bare("entry", Value::Number(entry as u64))],
    )?;
    put_clash_fields(alloc, text, spelling, log, clash)?;
    put_end(text, spelling)?;
    Ok(())
}
