//! The columns of a picture, one for each station that is kept, and the names above them and above
//! the rows.

ghost use Rattle.std.specs.Prelude.{◌≡◌, ◌<◌, ◌^◌, ◌++◌, length, OnOk, string_bytes};
ghost use Rattle.siman_print.specs.Below.{texts_below};
ghost use Rattle.exercise_chart.specs.Frame.{blocks_of};
ghost use Rattle.exercise_chart.specs.Columns.{column_text, columns_text, name_words, name_text, step_name, clock_name_words, clock_name, entry_name, station_names, names_at, names_begin, names_above, names_text};

use crate::element::{Attribute, Shown, put_element, put_words};
use crate::frame::{Frame, TOP, column_x, names_y};
use exercise_model::ExerciseLog;
use std::alloc::AllocError;

/// Writes the vertical line of a column.
fn put_column(text: &mut String, frame: &Frame<'_>, column: u16) -> Result<(), AllocError>
    ensures { OnOk result (string_bytes text.new ≡ string_bytes text.old ++ column_text frame.now column) }
{
    let x = column_x(column);
    let line = [
        Attribute("x1", Shown::Number(x)),
        Attribute("y1", Shown::Number(TOP)),
        Attribute("x2", Shown::Number(x)),
        Attribute("y2", Shown::Number(frame.bottom_y())),
    ];
    put_element(text, "line", &line)?;
    Ok(())
}

/// Begins the group of all lines, and writes those of the columns.
#[tactic(auto, unfolding(crate::specs::Columns::columns_text))]
pub(crate) fn put_columns(text: &mut String, frame: &Frame<'_>) -> Result<(), AllocError>
    ensures { OnOk result (string_bytes text.new ≡ string_bytes text.old ++ columns_text frame.now) }
{
    text.push_str("<g id=\"lines\">\n<g stroke=\"#94a3b8\">\n")?;
    for column in 0..frame.kept {
        put_column(text, frame, column)?;
    }
    text.push_str("</g>\n")?;
    Ok(())
}

/// Writes the name of a station above its column, at height `y`.
fn put_name_words<L: ExerciseLog>(
    text: &mut String,
    log: &L,
    y: u64,
    station: u16,
    column: u16,
) -> Result<(), AllocError>
    requires { station < length (L.recording log.now).setting.stations }
    ensures { OnOk result (string_bytes text.new ≡ string_bytes text.old ++ name_words (L.recording log.now) y station column) }
{
    let place = [
        Attribute("x", Shown::Number(column_x(column))),
        Attribute("y", Shown::Number(y)),
    ];
    let address = log.station(usize::from(station)).address();
    put_words(text, &place, &Shown::Address(address))?;
    Ok(())
}

/// Writes the name of a station at height `y`, if it is kept.
fn put_name<L: ExerciseLog>(
    text: &mut String,
    frame: &Frame<'_>,
    log: &L,
    y: u64,
    station: u16,
) -> Result<(), AllocError>
    requires { station < length (L.recording log.now).setting.stations }
    ensures { OnOk result (string_bytes text.new ≡ string_bytes text.old ++ name_text frame.now (L.recording log.now) y station) }
{
    match frame.column(station) {
        Some(column) => put_name_words(text, log, y, station, column),
        None => Ok(()),
    }
}

/// Writes the name of the steps at height `y`.
#[tactic(auto, unfolding(crate::specs::Columns::step_name))]
fn put_step_name(text: &mut String, frame: &Frame<'_>, y: u64) -> Result<(), AllocError>
    ensures { OnOk result (string_bytes text.new ≡ string_bytes text.old ++ step_name frame.now y) }
{
    let place = [
        Attribute("x", Shown::Number(frame.step_x())),
        Attribute("y", Shown::Number(y)),
        Attribute("text-anchor", Shown::Word("end")),
    ];
    put_words(text, &place, &Shown::Word("step"))?;
    Ok(())
}

/// Writes the name of the clocks at height `y`.
fn put_clock_words(text: &mut String, frame: &Frame<'_>, y: u64) -> Result<(), AllocError>
    ensures { OnOk result (string_bytes text.new ≡ string_bytes text.old ++ clock_name_words frame.now y) }
{
    let place = [
        Attribute("x", Shown::Number(frame.clock_x())),
        Attribute("y", Shown::Number(y)),
        Attribute("text-anchor", Shown::Word("start")),
    ];
    put_words(text, &place, &Shown::Word("UTC"))?;
    Ok(())
}

/// Writes the name of the clocks at height `y`, if the picture has a clock.
#[tactic(auto, unfolding(crate::specs::Columns::clock_name))]
fn put_clock_name(text: &mut String, frame: &Frame<'_>, y: u64) -> Result<(), AllocError>
    ensures { OnOk result (string_bytes text.new ≡ string_bytes text.old ++ clock_name frame.now y) }
{
    match frame.clock {
        Some(_) => put_clock_words(text, frame, y),
        None => Ok(()),
    }
}

/// Writes the name of the entries at height `y`.
#[tactic(auto, unfolding(crate::specs::Columns::entry_name))]
fn put_entry_name(text: &mut String, frame: &Frame<'_>, y: u64) -> Result<(), AllocError>
    ensures { OnOk result (string_bytes text.new ≡ string_bytes text.old ++ entry_name frame.now y) }
{
    let place = [
        Attribute("x", Shown::Number(frame.words_x())),
        Attribute("y", Shown::Number(y)),
        Attribute("text-anchor", Shown::Word("start")),
    ];
    put_words(text, &place, &Shown::Word("entry"))?;
    Ok(())
}

/// Writes the names of all stations at height `y`.
#[tactic(auto, unfolding(crate::specs::Columns::station_names))]
fn put_station_names<L: ExerciseLog>(
    text: &mut String,
    frame: &Frame<'_>,
    log: &L,
    y: u64,
) -> Result<(), AllocError>
    requires { frame.now.stations ≡ length (L.recording log.now).setting.stations }
    ensures { OnOk result (string_bytes text.new ≡ string_bytes text.old ++ station_names frame.now (L.recording log.now) y) }
{
    for station in 0..frame.stations {
        put_name(text, frame, log, y, station)?;
    }
    Ok(())
}

/// Writes the names of the stations, the steps, the clocks and the entries at height `y`.
fn put_names_at<L: ExerciseLog>(
    text: &mut String,
    frame: &Frame<'_>,
    log: &L,
    y: u64,
) -> Result<(), AllocError>
    requires { frame.now.stations ≡ length (L.recording log.now).setting.stations }
    ensures { OnOk result (string_bytes text.new ≡ string_bytes text.old ++ names_at frame.now (L.recording log.now) y) }
{
    put_station_names(text, frame, log, y)?;
    put_step_name(text, frame, y)?;
    put_clock_name(text, frame, y)?;
    put_entry_name(text, frame, y)
}

/// Begins the group of the names above a block of rows: a sheet shows it.
fn begin_names(text: &mut String, block: u64) -> Result<(), AllocError>
    ensures { OnOk result (string_bytes text.new ≡ string_bytes text.old ++ names_begin block) }
{
    write!(
        text,
        "<g id=\"names{block}\" fill=\"#1f2933\" stroke=\"#ffffff\" stroke-width=\"4\" paint-order=\"stroke\" font-weight=\"bold\" text-anchor=\"middle\">\n"
    )
}

/// Writes the names above a block of rows.
#[tactic(auto, unfolding(crate::specs::Columns::names_above))]
fn put_names_above<L: ExerciseLog>(
    text: &mut String,
    frame: &Frame<'_>,
    log: &L,
    block: u64,
) -> Result<(), AllocError>
    requires stations { frame.now.stations ≡ length (L.recording log.now).setting.stations }
    requires block { block < 2 ^ 16 }
    ensures { OnOk result (string_bytes text.new ≡ string_bytes text.old ++ names_above frame.now (L.recording log.now) block) }
{
    begin_names(text, block)?;
    put_names_at(text, frame, log, names_y(block))?;
    text.push_str("</g>\n")?;
    Ok(())
}

/// Writes the names of the stations, the steps, the clocks and the entries, above each block of rows.
#[tactic(auto, unfolding(crate::specs::Columns::names_text))]
pub(crate) fn put_names<L: ExerciseLog>(
    text: &mut String,
    frame: &Frame<'_>,
    log: &L,
) -> Result<(), AllocError>
    requires { frame.now.stations ≡ length (L.recording log.now).setting.stations }
    ensures { OnOk result (string_bytes text.new ≡ string_bytes text.old ++ names_text frame.now (L.recording log.now)) }
{
    for block in 0..frame.blocks() {
        put_names_above(text, frame, log, block)?;
    }
    Ok(())
}
