//! Arrows, receipts from outside, and losses, in the columns that are kept.

ghost use Rattle.std.specs.Prelude.{◌≡◌, ◌<◌, ◌++◌, length, OnOk, string_bytes};
ghost use Rattle.std.specs.List.{flat_map};
ghost use Rattle.exercise_chart.specs.Lines.{arrow_line, arrow_from, arrow_text, outside_line, outside_text, lost_x, loss_line, loss_text, arrows_text, outsiders_text, losses_text};

use crate::element::{Attribute, Shown, put_element};
use crate::frame::{Frame, column_x};
use crate::tone::Tone;
use crate::{Arrow, Loss, OutsideReceipt};
use exercise_model::ExerciseLog;
use std::alloc::AllocError;

/// Writes the line of an arrow, from one place to another.
fn put_arrow_line(
    text: &mut String,
    arrow: &Arrow,
    x1: u64,
    y1: u64,
    x2: u64,
    y2: u64,
) -> Result<(), AllocError>
    ensures { OnOk result (string_bytes text.new ≡ string_bytes text.old ++ arrow_line arrow.now x1 y1 x2 y2) }
{
    let tone = Tone::of_any(&arrow.said);
    let line = [
        Attribute("x1", Shown::Number(x1)),
        Attribute("y1", Shown::Number(y1)),
        Attribute("x2", Shown::Number(x2)),
        Attribute("y2", Shown::Number(y2)),
        Attribute("stroke", Shown::Word(tone.colour())),
        Attribute("marker-end", Shown::Word(tone.head())),
        Attribute("class", Shown::Word("arrow")),
        Attribute("data-from", Shown::Number(arrow.from.entry as u64)),
        Attribute("data-to", Shown::Number(arrow.to.entry as u64)),
    ];
    put_element(text, "line", &line)?;
    Ok(())
}

/// Writes an arrow to the column of its receiver, from that of its sender; a short horizontal one
/// if the sender is not kept.
fn put_arrow_from(
    text: &mut String,
    frame: &Frame<'_>,
    arrow: &Arrow,
    sender: Option<u16>,
    to: u16,
) -> Result<(), AllocError>
    ensures { OnOk result (string_bytes text.new ≡ string_bytes text.old ++ arrow_from frame.now arrow.now sender to) }
{
    let x = column_x(to);
    let y = frame.step_y(arrow.to.step);
    match sender {
        Some(from) => {
            let begin = frame.step_y(arrow.from.step);
            put_arrow_line(text, arrow, column_x(from), begin, x, y)
        }
        None => put_arrow_line(text, arrow, x - 24, y, x, y),
    }
}

/// Writes an arrow, from the send to the receipt, if the receiver is kept.
fn put_arrow(text: &mut String, frame: &Frame<'_>, arrow: &Arrow) -> Result<(), AllocError>
    ensures { OnOk result (string_bytes text.new ≡ string_bytes text.old ++ arrow_text frame.now arrow.now) }
{
    let sender = frame.column(arrow.from.station);
    match frame.column(arrow.to.station) {
        Some(to) => put_arrow_from(text, frame, arrow, sender, to),
        None => Ok(()),
    }
}

/// Writes a short horizontal arrow from outside to a column.
fn put_outside_line(
    text: &mut String,
    frame: &Frame<'_>,
    outsider: &OutsideReceipt,
    to: u16,
) -> Result<(), AllocError>
    ensures { OnOk result (string_bytes text.new ≡ string_bytes text.old ++ outside_line frame.now outsider.now to) }
{
    let tone = Tone::of(&outsider.said);
    let x = column_x(to);
    let y = frame.step_y(outsider.to.step);
    let line = [
        Attribute("x1", Shown::Number(x - 24)),
        Attribute("y1", Shown::Number(y)),
        Attribute("x2", Shown::Number(x)),
        Attribute("y2", Shown::Number(y)),
        Attribute("stroke", Shown::Word(tone.colour())),
        Attribute("marker-end", Shown::Word(tone.head())),
        Attribute("class", Shown::Word("outside")),
        Attribute("data-by", Shown::SiteApplication(outsider.by)),
        Attribute("data-to", Shown::Number(outsider.to.entry as u64)),
    ];
    put_element(text, "line", &line)?;
    Ok(())
}

/// Writes the arrow of a receipt from outside, if its station is kept.
fn put_outsider(
    text: &mut String,
    frame: &Frame<'_>,
    outsider: &OutsideReceipt,
) -> Result<(), AllocError>
    ensures { OnOk result (string_bytes text.new ≡ string_bytes text.old ++ outside_text frame.now outsider.now) }
{
    match frame.column(outsider.to.station) {
        Some(to) => put_outside_line(text, frame, outsider, to),
        None => Ok(()),
    }
}

/// Horizontal place of the cross of a loss: 16 units before the column that the datagram did not
/// reach.
fn lost_x(from: u16, to: u16) -> u64
    ensures { result ≡ lost_x from to }
{
    if from < to {
        column_x(to) - 16
    } else {
        column_x(to) + 16
    }
}

/// Writes the line of a loss, horizontal from its send to before the column that it did not reach.
fn put_loss_line<L: ExerciseLog>(
    text: &mut String,
    frame: &Frame<'_>,
    log: &L,
    loss: &Loss,
    from: u16,
    to: u16,
) -> Result<(), AllocError>
    requires { loss.now.at < length (L.recording log.now).setting.stations }
    ensures { OnOk result (string_bytes text.new ≡ string_bytes text.old ++ loss_line frame.now (L.recording log.now) loss.now from to) }
{
    let tone = Tone::of(&loss.said);
    let y = frame.step_y(loss.from.step);
    let address = log.station(usize::from(loss.at)).address();
    let line = [
        Attribute("x1", Shown::Number(column_x(from))),
        Attribute("y1", Shown::Number(y)),
        Attribute("x2", Shown::Number(lost_x(from, to))),
        Attribute("y2", Shown::Number(y)),
        Attribute("stroke", Shown::Word(tone.colour())),
        Attribute("class", Shown::Word("lost")),
        Attribute("data-from", Shown::Number(loss.from.entry as u64)),
        Attribute("data-at", Shown::Address(address)),
    ];
    put_element(text, "line", &line)?;
    Ok(())
}

/// Writes a loss, if its sender and the station that it did not reach are kept.
fn put_loss<L: ExerciseLog>(
    text: &mut String,
    frame: &Frame<'_>,
    log: &L,
    loss: &Loss,
) -> Result<(), AllocError>
    requires { length frame.now.columns ≡ length (L.recording log.now).setting.stations }
    ensures { OnOk result (string_bytes text.new ≡ string_bytes text.old ++ loss_text frame.now (L.recording log.now) loss.now) }
{
    let Some(from) = frame.column(loss.from.station) else {
        return Ok(());
    };
    match frame.column(loss.at) {
        Some(to) => put_loss_line(text, frame, log, loss, from, to),
        None => Ok(()),
    }
}

/// Writes all arrows.
#[tactic(auto, unfolding(crate::specs::Lines::arrows_text))]
pub(crate) fn put_arrows(
    text: &mut String,
    frame: &Frame<'_>,
    arrows: &[Arrow],
) -> Result<(), AllocError>
    ensures { OnOk result (string_bytes text.new ≡ string_bytes text.old ++ arrows_text frame.now arrows.now) }
{
    text.push_str("<g stroke-width=\"2\">\n")?;
    for arrow in arrows {
        put_arrow(text, frame, arrow)?;
    }
    text.push_str("</g>\n")?;
    Ok(())
}

/// Writes all receipts from outside.
#[tactic(auto, unfolding(crate::specs::Lines::outsiders_text))]
pub(crate) fn put_outsiders(
    text: &mut String,
    frame: &Frame<'_>,
    outside: &[OutsideReceipt],
) -> Result<(), AllocError>
    ensures { OnOk result (string_bytes text.new ≡ string_bytes text.old ++ outsiders_text frame.now outside.now) }
{
    text.push_str("<g stroke-width=\"2\">\n")?;
    for outsider in outside {
        put_outsider(text, frame, outsider)?;
    }
    text.push_str("</g>\n")?;
    Ok(())
}

/// Writes all losses.
#[tactic(auto, unfolding(crate::specs::Lines::losses_text))]
pub(crate) fn put_losses<L: ExerciseLog>(
    text: &mut String,
    frame: &Frame<'_>,
    log: &L,
    losses: &[Loss],
) -> Result<(), AllocError>
    requires { length frame.now.columns ≡ length (L.recording log.now).setting.stations }
    ensures { OnOk result (string_bytes text.new ≡ string_bytes text.old ++ losses_text frame.now (L.recording log.now) losses.now) }
{
    text.push_str("<g stroke-width=\"2\" stroke-dasharray=\"2 3\" marker-end=\"url(#lost)\">\n")?;
    for loss in losses {
        put_loss(text, frame, log, loss)?;
    }
    text.push_str("</g>\n")?;
    Ok(())
}
