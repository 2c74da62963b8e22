//! Bars: the spans of the entities' lives, and how many entities have none, in the columns that are
//! kept.

ghost use Rattle.std.specs.Prelude.{◌≡◌, ◌<◌, ◌++◌, length, OnOk, string_bytes};
ghost use Rattle.std.specs.List.{flat_map};
ghost use Rattle.exercise_chart.specs.Element.{shown_text};
ghost use Rattle.exercise_chart.specs.Bars.{state_colour, change_text, stretch_text, bar_name_text, whole_bar_text, bar_text, bars_begin, undrawn_words, undrawn_text, all_bars_text, all_undrawn_text, bars_text};

use crate::element::{Attribute, Shown, begin_words, put_element, put_words};
use crate::frame::{Frame, TOP, slot_x};
use crate::{Bar, MOST_ENTITIES, Point, Undrawn};
use dis_records::EntityState;
use exercise_model::ExerciseLog;
use std::alloc::AllocError;

/// The colour of a state: green for Running, else amber.
fn state_colour(state: EntityState) -> &'static str
    ensures { result.now ≡ state_colour state }
{
    match state {
        EntityState::Running => "#4ade80",
        _ => "#fbbf24",
    }
}

/// The entry of a change, or the value for none.
fn change_shown<'a>(change: Option<Point>) -> Shown<'a>
    ensures { shown_text result ≡ change_text change }
{
    match change {
        Some(change) => Shown::Number(change.entry as u64),
        None => Shown::Missing,
    }
}

/// Writes the rectangle of a bar in the column of its station.
fn put_stretch(
    text: &mut String,
    frame: &Frame<'_>,
    column: u16,
    bar: &Bar,
) -> Result<(), AllocError>
    ensures { OnOk result (string_bytes text.new ≡ string_bytes text.old ++ stretch_text frame.now column bar.now) }
{
    let left = slot_x(column, bar.slot) - 6;
    let top = frame.since_y(bar.from);
    let height = frame.until_y(bar.to).saturating_sub(top);
    let stretch = [
        Attribute("x", Shown::Number(left)),
        Attribute("y", Shown::Number(top)),
        Attribute("width", Shown::Number(11)),
        Attribute("height", Shown::Number(height)),
        Attribute("fill", Shown::Word(state_colour(bar.state))),
        Attribute("class", Shown::Word("bar")),
        Attribute("data-entity", Shown::Entity(bar.entity)),
        Attribute("data-state", Shown::State(bar.state)),
        Attribute("data-from", change_shown(bar.from)),
        Attribute("data-to", change_shown(bar.to)),
    ];
    put_element(text, "rect", &stretch)?;
    Ok(())
}

/// Writes the number of the bar's entity, at its upper end.
fn put_name(text: &mut String, frame: &Frame<'_>, column: u16, bar: &Bar) -> Result<(), AllocError>
    ensures { OnOk result (string_bytes text.new ≡ string_bytes text.old ++ bar_name_text frame.now column bar.now) }
{
    let place = [
        Attribute("x", Shown::Number(slot_x(column, bar.slot))),
        Attribute("y", Shown::Number(frame.since_y(bar.from) + 7)),
    ];
    let number = Shown::Number(u64::from(bar.entity.entity));
    put_words(text, &place, &number)?;
    Ok(())
}

/// Writes a bar in the column of its station: its rectangle and the number of its entity.
fn put_whole_bar(
    text: &mut String,
    frame: &Frame<'_>,
    bar: &Bar,
    column: u16,
) -> Result<(), AllocError>
    ensures { OnOk result (string_bytes text.new ≡ string_bytes text.old ++ whole_bar_text frame.now bar.now column) }
{
    put_stretch(text, frame, column, bar)?;
    put_name(text, frame, column, bar)
}

/// Writes a bar, if its station is kept.
fn put_bar(text: &mut String, frame: &Frame<'_>, bar: &Bar) -> Result<(), AllocError>
    ensures { OnOk result (string_bytes text.new ≡ string_bytes text.old ++ bar_text frame.now bar.now) }
{
    match frame.column(bar.station) {
        Some(column) => put_whole_bar(text, frame, bar, column),
        None => Ok(()),
    }
}

/// Writes the start tag of the bars. The entity numbers run vertically, since the bars are narrow.
fn begin_bars(text: &mut String) -> Result<(), AllocError>
    ensures { OnOk result (string_bytes text.new ≡ string_bytes text.old ++ bars_begin) }
{
    text.push_str("<g fill=\"#1f2933\" writing-mode=\"vertical-rl\" font-size=\"13\">\n")
}

/// Writes the bars alone.
#[tactic(auto, unfolding(crate::specs::Bars::all_bars_text))]
fn put_all_bars(text: &mut String, frame: &Frame<'_>, bars: &[Bar]) -> Result<(), AllocError>
    ensures { OnOk result (string_bytes text.new ≡ string_bytes text.old ++ all_bars_text frame.now bars.now) }
{
    for bar in bars {
        put_bar(text, frame, bar)?;
    }
    Ok(())
}

/// Writes how many entities of a station have no bar, in its column.
fn put_undrawn_words<L: ExerciseLog>(
    text: &mut String,
    log: &L,
    undrawn: &Undrawn,
    column: u16,
) -> Result<(), AllocError>
    requires { undrawn.now.station < length (L.recording log.now).setting.stations }
    ensures { OnOk result (string_bytes text.new ≡ string_bytes text.old ++ undrawn_words (L.recording log.now) undrawn.now column) }
{
    let address = log.station(usize::from(undrawn.station)).address();
    let place = [
        Attribute("x", Shown::Number(slot_x(column, MOST_ENTITIES))),
        Attribute("y", Shown::Number(TOP + 17)),
        Attribute("class", Shown::Word("undrawn")),
        Attribute("data-at", Shown::Address(address)),
        Attribute("data-entities", Shown::Number(undrawn.entities as u64)),
    ];
    begin_words(text, &place)?;
    let entities = undrawn.entities;
    write!(text, "+{entities} more</text>\n")?;
    Ok(())
}

/// Writes how many entities of a station have no bar, if the station is kept.
fn put_undrawn<L: ExerciseLog>(
    text: &mut String,
    frame: &Frame<'_>,
    log: &L,
    undrawn: &Undrawn,
) -> Result<(), AllocError>
    requires { length frame.now.columns ≡ length (L.recording log.now).setting.stations }
    ensures { OnOk result (string_bytes text.new ≡ string_bytes text.old ++ undrawn_text frame.now (L.recording log.now) undrawn.now) }
{
    match frame.column(undrawn.station) {
        Some(column) => put_undrawn_words(text, log, undrawn, column),
        None => Ok(()),
    }
}

/// Writes how many entities of each station have no bar.
#[tactic(auto, unfolding(crate::specs::Bars::all_undrawn_text))]
fn put_all_undrawn<L: ExerciseLog>(
    text: &mut String,
    frame: &Frame<'_>,
    log: &L,
    undrawn: &[Undrawn],
) -> Result<(), AllocError>
    requires { length frame.now.columns ≡ length (L.recording log.now).setting.stations }
    ensures { OnOk result (string_bytes text.new ≡ string_bytes text.old ++ all_undrawn_text frame.now (L.recording log.now) undrawn.now) }
{
    for more in undrawn {
        put_undrawn(text, frame, log, more)?;
    }
    Ok(())
}

/// Writes all bars, and how many entities of each station have none.
#[tactic(auto, unfolding(crate::specs::Bars::bars_text))]
pub(crate) fn put_bars<L: ExerciseLog>(
    text: &mut String,
    frame: &Frame<'_>,
    log: &L,
    bars: &[Bar],
    undrawn: &[Undrawn],
) -> Result<(), AllocError>
    requires { length frame.now.columns ≡ length (L.recording log.now).setting.stations }
    ensures { OnOk result (string_bytes text.new ≡ string_bytes text.old ++ bars_text frame.now (L.recording log.now) bars.now undrawn.now) }
{
    begin_bars(text)?;
    put_all_bars(text, frame, bars)?;
    put_all_undrawn(text, frame, log, undrawn)?;
    text.push_str("</g>\n")?;
    Ok(())
}
