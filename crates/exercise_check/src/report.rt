//! The report of a recording that a certificate explains, and the row for one that it does not.

ghost use Rattle.std.specs.Prelude.{◌≡◌, ◌≤◌, ◌++◌, length, IfOk, OnOk, string_bytes};
ghost use Rattle.std.specs.List.{flat_map};
ghost use Rattle.exercise_findings.specs.Account.{IsAccount};
ghost use Rattle.siman_print.specs.Spelled.{line_text};
ghost use Rattle.siman_print.specs.Below.{texts_below};
ghost use Rattle.exercise_check.specs.Report.{pair_line, entity_line, yes_line, line_with, answer_at, known_at, entities_at, report_text, no_text};

use crate::Checked;
use dis_records::{Address, EntityId, EntityState};
use exercise_model::{Cause, ExerciseLog};
use siman_print::{
    Field, Spelling, TextLine, Value, add_entity, add_number_behind, add_state, put_named,
};
use std::alloc::{AllocError, Global};

/// The report of a recording, a function of the recording alone: `yes records=N others=N`; then for
/// each entry, from 0, that is an answer, the entry of its request; then for each received Able
/// Acknowledge with a change behind it, the entry of that change; then for each station, from 0,
/// its entities that are not Absent at the end, in rising order.
pub fn report_text<L: ExerciseLog>(
    alloc: Global,
    log: &L,
    checked: &Checked,
) -> Result<String, AllocError>
    requires { IsAccount (L.recording log.now) checked.now }
    ensures { IfOk result (λ text. string_bytes text ≡ report_text (L.recording log.now)) }
{
    let (records, others) = (log.entry_count(), checked.others());
    let mut text = String::with_capacity(alloc, room_for(log, checked))?;
    put_yes(&mut text, records, others)?;
    put_answers(&mut text, log, checked)?;
    put_changes(&mut text, log, checked)?;
    put_states(&mut text, log, checked)?;
    Ok(text)
}

/// Bytes reserved for each row: most rows have at most as many.
const LINE: usize = 32;

/// Number of rows of a report about entries.
fn entry_lines<L: ExerciseLog>(log: &L, checked: &Checked) -> usize {
    let mut lines: usize = 0;
    for entry in 0..log.entry_count() {
        let told = usize::from(checked.pair(entry).is_some());
        let known = usize::from(checked.cause(entry).is_some());
        lines = lines.saturating_add(told + known);
    }
    lines
}

/// Number of rows of a report about entities.
fn entity_lines<L: ExerciseLog>(log: &L, checked: &Checked) -> usize {
    let mut lines: usize = 0;
    for station in 0..log.station_count() {
        lines = lines.saturating_add(checked.states(station).len());
    }
    lines
}

/// Bytes reserved for a report, so that it need not be moved as it grows. The text does not depend
/// on this estimate.
fn room_for<L: ExerciseLog>(log: &L, checked: &Checked) -> usize {
    let lines = entry_lines(log, checked).saturating_add(entity_lines(log, checked));
    lines.saturating_add(1).saturating_mul(LINE)
}

/// Writes the first row of a report.
fn put_yes(text: &mut String, records: usize, others: u32) -> Result<(), AllocError>
    ensures { OnOk result (string_bytes text.new ≡ string_bytes text.old ++ line_text (yes_line records others)) }
{
    let fields = [
        Field::Keyed("records", Value::Number(records as u64)),
        Field::Keyed("others", Value::Number(others as u64)),
    ];
    put_named(text, Spelling::Text, "yes", &fields)
}

fn put_answers<L: ExerciseLog>(
    text: &mut String,
    log: &L,
    checked: &Checked,
) -> Result<(), AllocError>
    requires { IsAccount (L.recording log.now) checked.now }
    ensures { let r = L.recording log.now in OnOk result (string_bytes text.new ≡ string_bytes text.old ++ texts_below (answer_at r) (length r.entries)) }
{
    let mut line = TextLine::new();
    for entry in 0..log.entry_count() {
        let Some(request) = checked.pair(entry) else {
            continue;
        };
        put_pair(text, &mut line, "answer", "request", entry, request)?;
    }
    Ok(())
}

fn put_changes<L: ExerciseLog>(
    text: &mut String,
    log: &L,
    checked: &Checked,
) -> Result<(), AllocError>
    requires { IsAccount (L.recording log.now) checked.now }
    ensures { let r = L.recording log.now in OnOk result (string_bytes text.new ≡ string_bytes text.old ++ texts_below (known_at r) (length r.entries)) }
{
    let mut line = TextLine::new();
    for entry in 0..log.entry_count() {
        let Some(change) = checked.cause(entry) else {
            continue;
        };
        put_pair(text, &mut line, "known", "change", entry, change)?;
    }
    Ok(())
}

/// Writes the row of an entry and another that belongs to it: `NAME ENTRY KEY ENTRY`; `line` is a
/// buffer and is overwritten.
#[inline(always)]
fn put_pair(
    text: &mut String,
    line: &mut TextLine,
    name: &str,
    key: &str,
    entry: usize,
    other: u32,
) -> Result<(), AllocError>
    requires name { length name.now ≤ 16 }
    requires key { length key.now ≤ 16 }
    ensures { OnOk result (string_bytes text.new ≡ string_bytes text.old ++ line_text (pair_line name.now key.now entry other)) }
{
    line.clear();
    line.push_str(name);
    add_number_behind(line, " ", entry as u64);
    line.push(' ');
    line.push_str(key);
    add_number_behind(line, " ", u64::from(other));
    line.push('\n');
    text.push_str(line.as_str())
}

fn put_states<L: ExerciseLog>(
    text: &mut String,
    log: &L,
    checked: &Checked,
) -> Result<(), AllocError>
    requires { IsAccount (L.recording log.now) checked.now }
    ensures { let r = L.recording log.now in OnOk result (string_bytes text.new ≡ string_bytes text.old ++ texts_below (entities_at r) (length r.setting.stations)) }
{
    let mut line = TextLine::new();
    for station in 0..log.station_count() {
        let address = log.station(station).address();
        put_entities(text, &mut line, address, checked.states(station))?;
    }
    Ok(())
}

/// Writes the row of an entity of a station; `line` is a buffer and is overwritten.
fn put_entity(
    text: &mut String,
    line: &mut TextLine,
    address: Address,
    present: (u16, EntityState),
) -> Result<(), AllocError>
    ensures { OnOk result (string_bytes text.new ≡ string_bytes text.old ++ line_text (entity_line address present)) }
{
    let entity = EntityId {
        site: address.site(),
        application: address.application(),
        entity: present.0,
    };
    line.clear();
    add_entity(line, "entity ", &entity);
    line.push(' ');
    add_state(line, present.1);
    line.push('\n');
    text.push_str(line.as_str())
}

/// Writes the rows of the entities of a station.
fn put_entities(
    text: &mut String,
    line: &mut TextLine,
    address: Address,
    entities: &[(u16, EntityState)],
) -> Result<(), AllocError>
    ensures { OnOk result (string_bytes text.new ≡ string_bytes text.old ++ flat_map (λ present. line_text (entity_line address present)) entities.now) }
{
    for present in entities {
        put_entity(text, line, address, *present)?;
    }
    Ok(())
}

/// The row of the first bad step, from 0, and its cause: `no step=N cause=N NAME`.
pub fn no_line(alloc: Global, step: usize, cause: Cause) -> Result<String, AllocError>
    ensures { IfOk result (λ text. string_bytes text ≡ no_text step cause) }
{
    let name = format!(in alloc; "{cause}")?;
    let fields = [
        Field::Keyed("step", Value::Number(step as u64)),
        Field::Keyed("cause", Value::Number(cause.number() as u64)),
        Field::Bare("name", Value::Word(&name)),
    ];
    let mut text = String::new(alloc);
    put_named(&mut text, Spelling::Text, "no", &fields)?;
    Ok(text)
}
