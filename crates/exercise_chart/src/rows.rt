//! The rows of a picture: the number of the step, the clock, and the entry in words; and those of
//! entries that cannot happen next, with the cause against them.

ghost use Rattle.std.specs.Prelude.{◌≡◌, ◌<◌, ◌^◌, ◌++◌, length, All, OnOk, string_bytes};
ghost use Rattle.std.specs.List.{flat_map};
ghost use Rattle.exercise_chart.specs.declared.blocked.BlockedRow.{BlockedRow as BlockedData};
ghost use Rattle.exercise_chart.specs.declared.row.Row.{Row as RowData};
ghost use Rattle.exercise_chart.specs.Rows.{block_begin, rule_text, step_text, clock_words, row_clock_text, row_words, row_text, cause_words, blocked_text, blocked_rows_text, rows_text};

use crate::element::{Attribute, Shown, begin_words, put_element, put_words};
use crate::frame::{BLOCK, Frame};
use crate::words::put_activity;
use crate::{BlockedRow, ClockUnit, Row};
use exercise_model::{Cause, ExerciseLog};
use siman_print::{Field, Spelling, Value, put_fields, put_opening};
use std::alloc::AllocError;

/// Writes the horizontal rule, at height `y`, that leads to the step and the words of a row.
#[tactic(auto, unfolding(crate::specs::Rows::rule_text))]
fn put_rule(text: &mut String, frame: &Frame<'_>, y: u64) -> Result<(), AllocError>
    requires { y < 2 ^ 24 }
    ensures { OnOk result (string_bytes text.new ≡ string_bytes text.old ++ rule_text frame.now y) }
{
    let rule = [
        Attribute("x1", Shown::Number(16)),
        Attribute("y1", Shown::Number(y)),
        Attribute("x2", Shown::Number(frame.rows_x() - 8)),
        Attribute("y2", Shown::Number(y)),
        Attribute("stroke", Shown::Word("#e2e8f0")),
    ];
    put_element(text, "line", &rule)?;
    Ok(())
}

/// Writes the number of a step at height `y`, as `from=` and `to=` count steps.
#[tactic(auto, unfolding(crate::specs::Rows::step_text))]
fn put_step(text: &mut String, frame: &Frame<'_>, y: u64, step: usize) -> Result<(), AllocError>
    ensures { OnOk result (string_bytes text.new ≡ string_bytes text.old ++ step_text frame.now y step) }
{
    let place = [
        Attribute("x", Shown::Number(frame.step_x())),
        Attribute("y", Shown::Number(y)),
        Attribute("text-anchor", Shown::Word("end")),
    ];
    put_words(text, &place, &Shown::Number(step as u64))?;
    Ok(())
}

/// Writes the time of day of an entry.
fn put_clock_words(
    text: &mut String,
    frame: &Frame<'_>,
    y: u64,
    row: &Row,
    unit: ClockUnit,
) -> Result<(), AllocError>
    ensures { OnOk result (string_bytes text.new ≡ string_bytes text.old ++ clock_words frame.now y row.now unit) }
{
    let place = [
        Attribute("x", Shown::Number(frame.clock_x())),
        Attribute("y", Shown::Number(y)),
        Attribute("class", Shown::Word("clock")),
        Attribute("data-entry", Shown::Number(row.at.entry as u64)),
        Attribute("data-stamp", Shown::Number(row.stamp)),
    ];
    put_words(text, &place, &Shown::Clock(unit, row.stamp))?;
    Ok(())
}

/// Writes the time of day of an entry, if the picture has a clock.
#[tactic(auto, unfolding(crate::specs::Rows::row_clock_text))]
fn put_row_clock(text: &mut String, frame: &Frame<'_>, y: u64, row: &Row) -> Result<(), AllocError>
    ensures { OnOk result (string_bytes text.new ≡ string_bytes text.old ++ row_clock_text frame.now y row.now) }
{
    match frame.clock {
        Some(unit) => put_clock_words(text, frame, y, row, unit),
        None => Ok(()),
    }
}

/// Writes the entry of a row, the address of its station, and what the station did.
#[tactic(auto, unfolding(crate::specs::Rows::row_words))]
fn put_row_words<L: ExerciseLog>(text: &mut String, log: &L, row: &Row) -> Result<(), AllocError>
    requires { row.now.at.station < length (L.recording log.now).setting.stations }
    ensures { OnOk result (string_bytes text.new ≡ string_bytes text.old ++ row_words (L.recording log.now) row.now) }
{
    let address = log.station(usize::from(row.at.station)).address();
    let entry = Field::Bare("entry", Value::Number(row.at.entry as u64));
    put_opening(text, Spelling::Text, "", &Some(entry))?;
    let station = [Field::Bare("address", Value::Address(address))];
    put_fields(text, Spelling::Text, &station)?;
    put_activity(text, address, &row.did)
}

/// Begins the group of a block of rows before the first of them, by the number of a row among the
/// drawn ones: a sheet shows it.
#[tactic(auto, unfolding(crate::specs::Rows::block_begin))]
fn begin_block(text: &mut String, number: u64) -> Result<(), AllocError>
    ensures { OnOk result (string_bytes text.new ≡ string_bytes text.old ++ block_begin number) }
{
    if number % BLOCK == 0 {
        write!(
            text,
            "</g>\n<g id=\"rows{}\" fill=\"#1f2933\">\n",
            number / BLOCK
        )
    } else {
        Ok(())
    }
}

/// Writes a row: its rule, its step, its clock and its words.
fn put_row<L: ExerciseLog>(
    text: &mut String,
    frame: &Frame<'_>,
    log: &L,
    row: &Row,
) -> Result<(), AllocError>
    requires { row.now.at.station < length (L.recording log.now).setting.stations }
    ensures { OnOk result (string_bytes text.new ≡ string_bytes text.old ++ row_text frame.now (L.recording log.now) row.now) }
{
    begin_block(text, frame.row_number(row.at.step))?;
    let y = frame.step_y(row.at.step);
    put_rule(text, frame, y)?;
    put_step(text, frame, y + 4, row.at.step)?;
    put_row_clock(text, frame, y + 4, row)?;
    let place = [
        Attribute("x", Shown::Number(frame.words_x())),
        Attribute("y", Shown::Number(y + 4)),
        Attribute("class", Shown::Word("row")),
        Attribute("data-step", Shown::Number(row.at.step as u64)),
        Attribute("data-entry", Shown::Number(row.at.entry as u64)),
    ];
    begin_words(text, &place)?;
    put_row_words(text, log, row)?;
    text.push_str("</text>\n")?;
    Ok(())
}

/// Writes the cause against an entry: its number and its name.
#[tactic(auto, unfolding(crate::specs::Rows::cause_words))]
fn put_cause(text: &mut String, cause: Cause) -> Result<(), AllocError>
    ensures { OnOk result (string_bytes text.new ≡ string_bytes text.old ++ cause_words cause) }
{
    let number = [Field::Keyed("cause", Value::Number(u64::from(cause.number())))];
    put_fields(text, Spelling::Text, &number)?;
    write!(text, " {cause}")
}

/// Writes a blocked row, by its number from 0: its rule, its clock, and its words with the cause.
fn put_blocked<L: ExerciseLog>(
    text: &mut String,
    frame: &Frame<'_>,
    log: &L,
    number: usize,
    blocked: &BlockedRow,
) -> Result<(), AllocError>
    requires station { blocked.now.row.at.station < length (L.recording log.now).setting.stations }
    requires number { number < 2 ^ 63 }
    ensures { OnOk result (string_bytes text.new ≡ string_bytes text.old ++ blocked_text frame.now (L.recording log.now) number blocked.now) }
{
    begin_block(text, frame.rows_shown() + number as u64)?;
    let y = frame.blocked_y(number);
    put_rule(text, frame, y)?;
    put_row_clock(text, frame, y + 4, &blocked.row)?;
    let place = [
        Attribute("x", Shown::Number(frame.words_x())),
        Attribute("y", Shown::Number(y + 4)),
        Attribute("fill", Shown::Word("#dc2626")),
        Attribute("class", Shown::Word("blocked")),
        Attribute("data-entry", Shown::Number(blocked.row.at.entry as u64)),
        Attribute(
            "data-cause",
            Shown::Number(u64::from(blocked.cause.number())),
        ),
    ];
    begin_words(text, &place)?;
    put_row_words(text, log, &blocked.row)?;
    put_cause(text, blocked.cause)?;
    text.push_str("</text>\n")?;
    Ok(())
}

/// Writes all blocked rows.
#[tactic(auto, unfolding(crate::specs::Rows::blocked_rows_text))]
fn put_blocked_rows<L: ExerciseLog>(
    text: &mut String,
    frame: &Frame<'_>,
    log: &L,
    blocked: &[BlockedRow],
) -> Result<(), AllocError>
    requires { All (λ (blocked : BlockedData). blocked.row.at.station < length (L.recording log.now).setting.stations) blocked.now }
    ensures { OnOk result (string_bytes text.new ≡ string_bytes text.old ++ blocked_rows_text frame.now (L.recording log.now) blocked.now) }
{
    for (number, row) in blocked.iter().enumerate() {
        put_blocked(text, frame, log, number, row)?;
    }
    Ok(())
}

/// Writes all rows: those of the shown steps, and behind them the blocked ones.
#[tactic(auto, unfolding(crate::specs::Rows::rows_text))]
pub(crate) fn put_rows<L: ExerciseLog>(
    text: &mut String,
    frame: &Frame<'_>,
    log: &L,
    rows: &[Row],
    blocked: &[BlockedRow],
) -> Result<(), AllocError>
    requires rows { All (λ (row : RowData). row.at.station < length (L.recording log.now).setting.stations) rows.now }
    requires blocked { All (λ (blocked : BlockedData). blocked.row.at.station < length (L.recording log.now).setting.stations) blocked.now }
    ensures { OnOk result (string_bytes text.new ≡ string_bytes text.old ++ rows_text frame.now (L.recording log.now) rows.now blocked.now) }
{
    text.push_str("<g>\n")?;
    for row in rows {
        put_row(text, frame, log, row)?;
    }
    put_blocked_rows(text, frame, log, blocked)?;
    text.push_str("</g>\n")?;
    Ok(())
}
