//! The picture of an exercise, as an SVG text.

ghost use Rattle.std.specs.Prelude.{◌≡◌, ◌-◌, ◌≤◌, ◌++◌, length, OnOk, IfOk, string_bytes};
ghost use Rattle.exercise_model.specs.Recording.{IsRecording};
ghost use Rattle.exercise_chart.specs.Marks.{marks_data};
ghost use Rattle.exercise_chart.specs.Kept.{AreKept};
ghost use Rattle.exercise_chart.specs.Drawing.{AreOfStations, frame_of, under_text, over_text, picture_in, Draws};

use crate::bars::put_bars;
use crate::columns::{put_columns, put_names};
use crate::frame::Frame;
use crate::heading::put_heading;
use crate::kept::{KeptColumns, kept_columns};
use crate::lines::{put_arrows, put_losses, put_outsiders};
use crate::rows::put_rows;
use crate::sheets::put_sheets;
use crate::signs::{put_activity_signs, put_blocked_signs, put_unanswered};
use crate::{ChartFault, MOST_ROWS, Marks, Selection, marks_of};
use exercise_check::Step;
use exercise_model::ExerciseLog;
use exercise_review::Register;
use std::alloc::{AllocError, Global};

/// The frame of what is selected of a recording.
fn frame_of<'a, L: ExerciseLog>(
    log: &L,
    selection: &Selection<'_>,
    columns: &'a KeptColumns,
    blocked: usize,
) -> Frame<'a>
    requires { AreKept (L.recording log.now) selection.now.stations.now columns.now }
    ensures frame { result ≡ frame_of (L.recording log.now) selection.now.rows selection.now.stations.now selection.now.clock blocked }
    ensures limits { IsRecording (L.recording log.now) }
{
    Frame {
        rows: selection.rows,
        stations: log.station_count() as u16,
        columns: &columns.columns,
        kept: columns.kept,
        clock: selection.clock,
        blocked,
    }
}

/// Writes what lies below the lines: the heading, the words of the rows, the columns and the bars.
#[tactic(auto, unfolding(crate::specs::Drawing::under_text))]
fn put_under<L: ExerciseLog>(
    text: &mut String,
    frame: &Frame<'_>,
    log: &L,
    marks: &Marks,
) -> Result<(), AllocError>
    requires columns { length frame.now.columns ≡ length (L.recording log.now).setting.stations }
    requires marks { AreOfStations (length (L.recording log.now).setting.stations) (marks_data marks.now) }
    ensures { OnOk result (string_bytes text.new ≡ string_bytes text.old ++ under_text frame.now (L.recording log.now) (marks_data marks.now)) }
{
    put_heading(text, frame, log)?;
    put_rows(text, frame, log, &marks.rows, &marks.blocked)?;
    put_columns(text, frame)?;
    put_bars(text, frame, log, &marks.bars, &marks.undrawn)
}

/// Writes the lines, the signs, the names, the sheets and the end of the text.
#[tactic(auto, unfolding(crate::specs::Drawing::over_text))]
fn put_over<L: ExerciseLog>(
    text: &mut String,
    frame: &Frame<'_>,
    log: &L,
    marks: &Marks,
) -> Result<(), AllocError>
    requires stations { frame.now.stations ≡ length (L.recording log.now).setting.stations }
    requires columns { length frame.now.columns ≡ length (L.recording log.now).setting.stations }
    ensures { OnOk result (string_bytes text.new ≡ string_bytes text.old ++ over_text frame.now (L.recording log.now) (marks_data marks.now)) }
{
    put_arrows(text, frame, &marks.arrows)?;
    put_outsiders(text, frame, &marks.outside)?;
    put_losses(text, frame, log, &marks.losses)?;
    put_activity_signs(text, frame, &marks.bars, &marks.rows)?;
    put_unanswered(text, frame, &marks.unanswered)?;
    put_blocked_signs(text, frame, &marks.blocked)?;
    text.push_str("</g>\n")?;
    put_names(text, frame, log)?;
    text.push_str("</g>\n")?;
    put_sheets(text, frame)?;
    text.push_str("</svg>\n")
}

/// The picture of marks in a frame. The text takes memory.
fn picture_in<L: ExerciseLog>(
    alloc: Global,
    frame: &Frame<'_>,
    log: &L,
    marks: &Marks,
) -> Result<String, AllocError>
    requires stations { frame.now.stations ≡ length (L.recording log.now).setting.stations }
    requires columns { length frame.now.columns ≡ length (L.recording log.now).setting.stations }
    requires marks { AreOfStations (length (L.recording log.now).setting.stations) (marks_data marks.now) }
    ensures { IfOk result (λ text. string_bytes text ≡ picture_in frame.now (L.recording log.now) (marks_data marks.now)) }
{
    let mut text = String::new(alloc);
    put_under(&mut text, frame, log, marks)?;
    put_over(&mut text, frame, log, marks)?;
    Ok(text)
}

/// Draws what is selected of a recording and a certificate of it; the certificate need not be good.
/// `OverLimit` if the range of steps has more than 2,000 rows, or the entities of a station have
/// more than 4,194,304 spans. The text takes memory.
pub fn draw<L: ExerciseLog>(
    alloc: Global,
    register: &Register<'_, L>,
    steps: &[Step],
    selection: &Selection<'_>,
) -> Result<String, ChartFault>
    ensures picture { Draws register.now steps.now selection.now.rows selection.now.entities.now selection.now.stations.now selection.now.clock selection.now.blocked.now result }
    ensures few { OnOk result (selection.now.rows.end - selection.now.rows.first ≤ MOST_ROWS) }
{
    let marks = marks_of(alloc, register, steps, selection)?;
    let log = register.log();
    let columns = kept_columns(alloc, log, selection.stations)?;
    let frame = frame_of(log, selection, &columns, marks.blocked.len());
    let text = picture_in(alloc, &frame, log, &marks)?;
    Ok(text)
}
