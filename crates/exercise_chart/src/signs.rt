//! The signs on the columns that are kept: sends, datagrams that mean nothing, state reports,
//! requests that were never answered there, and entries that cannot happen next.

ghost use Rattle.std.specs.Prelude.{◌≡◌, ◌++◌, OnOk, string_bytes};
ghost use Rattle.std.specs.List.{flat_map};
ghost use Rattle.exercise_chart.specs.Signs.{sign_text, column_sign_text, told_sign_text, activity_sign_text, activity_signs_text, unanswered_text, all_unanswered_text, blocked_sign_text, blocked_signs_text};

use crate::element::{Attribute, Shown, put_element};
use crate::frame::{Frame, column_x};
use crate::slot::told_x;
use crate::tone::Tone;
use crate::{Activity, Bar, BlockedRow, Point, Row};
use std::alloc::AllocError;

/// Writes the sign of an entry at `x` and `y`, with a colour and a class.
fn put_sign<'a>(
    text: &mut String,
    x: u64,
    y: u64,
    entry: usize,
    sign: &'a str,
    colour: &'a str,
    class: &'a str,
) -> Result<(), AllocError>
    ensures { OnOk result (string_bytes text.new ≡ string_bytes text.old ++ sign_text x y entry sign.now colour.now class.now) }
{
    let place = [
        Attribute("href", Shown::Word(sign)),
        Attribute("x", Shown::Number(x)),
        Attribute("y", Shown::Number(y)),
        Attribute("fill", Shown::Word(colour)),
        Attribute("class", Shown::Word(class)),
        Attribute("data-entry", Shown::Number(entry as u64)),
    ];
    put_element(text, "use", &place)?;
    Ok(())
}

/// Writes a sign on the column of its station, in the row of its step, if the station is kept.
fn put_column_sign<'a>(
    text: &mut String,
    frame: &Frame<'_>,
    at: &Point,
    sign: &'a str,
    colour: &'a str,
    class: &'a str,
) -> Result<(), AllocError>
    ensures { OnOk result (string_bytes text.new ≡ string_bytes text.old ++ column_sign_text frame.now at.now sign.now colour.now class.now) }
{
    let y = frame.step_y(at.step);
    match frame.column(at.station) {
        Some(column) => put_sign(text, column_x(column), y, at.entry, sign, colour, class),
        None => Ok(()),
    }
}

/// Writes the sign of a told state, on the bars of its entity, if the station is kept.
fn put_told_sign(
    text: &mut String,
    frame: &Frame<'_>,
    bars: &[Bar],
    at: &Point,
    entity: u16,
) -> Result<(), AllocError>
    ensures { OnOk result (string_bytes text.new ≡ string_bytes text.old ++ told_sign_text frame.now bars.now at.now entity) }
{
    let y = frame.step_y(at.step);
    match frame.column(at.station) {
        Some(column) => {
            let x = told_x(column, bars, at.station, entity);
            put_sign(text, x, y, at.entry, "#told", "#ffffff", "told")
        }
        None => Ok(()),
    }
}

/// Writes the sign of what a station did. A receipt that means something has none: its arrow shows
/// it. A told state stands on the bars of its entity.
fn put_activity_sign(
    text: &mut String,
    frame: &Frame<'_>,
    bars: &[Bar],
    row: &Row,
) -> Result<(), AllocError>
    ensures { OnOk result (string_bytes text.new ≡ string_bytes text.old ++ activity_sign_text frame.now bars.now row.now.at row.now.did) }
{
    match &row.did {
        Activity::Sent(said, _) => {
            let colour = Tone::of(said).colour();
            put_column_sign(text, frame, &row.at, "#sent", colour, "sent")
        }
        Activity::Received(_) => Ok(()),
        Activity::SentOther(_) => {
            put_column_sign(text, frame, &row.at, "#other", "#475569", "other")
        }
        Activity::ReceivedOther(_) => {
            put_column_sign(text, frame, &row.at, "#other", "#475569", "other")
        }
        Activity::Told(entity, _) => put_told_sign(text, frame, bars, &row.at, *entity),
    }
}

/// Writes the signs of what the stations did, given the bars.
#[tactic(auto, unfolding(crate::specs::Signs::activity_signs_text))]
pub(crate) fn put_activity_signs(
    text: &mut String,
    frame: &Frame<'_>,
    bars: &[Bar],
    rows: &[Row],
) -> Result<(), AllocError>
    ensures { OnOk result (string_bytes text.new ≡ string_bytes text.old ++ activity_signs_text frame.now bars.now rows.now) }
{
    for row in rows {
        put_activity_sign(text, frame, bars, row)?;
    }
    Ok(())
}

/// Writes the sign of a request that was never answered there.
#[tactic(auto, unfolding(crate::specs::Signs::unanswered_text))]
fn put_unanswered_at(text: &mut String, frame: &Frame<'_>, at: &Point) -> Result<(), AllocError>
    ensures { OnOk result (string_bytes text.new ≡ string_bytes text.old ++ unanswered_text frame.now at.now) }
{
    put_column_sign(text, frame, at, "#unanswered", "#ffffff", "unanswered")
}

/// Writes the signs of all requests that were never answered there.
#[tactic(auto, unfolding(crate::specs::Signs::all_unanswered_text))]
pub(crate) fn put_unanswered(
    text: &mut String,
    frame: &Frame<'_>,
    unanswered: &[Point],
) -> Result<(), AllocError>
    ensures { OnOk result (string_bytes text.new ≡ string_bytes text.old ++ all_unanswered_text frame.now unanswered.now) }
{
    for at in unanswered {
        put_unanswered_at(text, frame, at)?;
    }
    Ok(())
}

/// Writes the sign of a blocked row, by its number from 0, if its station is kept.
fn put_blocked_sign(
    text: &mut String,
    frame: &Frame<'_>,
    number: usize,
    blocked: &BlockedRow,
) -> Result<(), AllocError>
    ensures { OnOk result (string_bytes text.new ≡ string_bytes text.old ++ blocked_sign_text frame.now number blocked.now) }
{
    let y = frame.blocked_y(number);
    let entry = blocked.row.at.entry;
    match frame.column(blocked.row.at.station) {
        Some(column) => {
            let x = column_x(column);
            put_sign(text, x, y, entry, "#blocked", "#dc2626", "blocked")
        }
        None => Ok(()),
    }
}

/// Writes the signs of all blocked rows.
#[tactic(auto, unfolding(crate::specs::Signs::blocked_signs_text))]
pub(crate) fn put_blocked_signs(
    text: &mut String,
    frame: &Frame<'_>,
    blocked: &[BlockedRow],
) -> Result<(), AllocError>
    ensures { OnOk result (string_bytes text.new ≡ string_bytes text.old ++ blocked_signs_text frame.now blocked.now) }
{
    for (number, row) in blocked.iter().enumerate() {
        put_blocked_sign(text, frame, number, row)?;
    }
    Ok(())
}
