//! The marks of a picture.

ghost use Rattle.std.specs.Prelude.{◌≡◌, ◌-◌, ◌≤◌, OnOk};
ghost use Rattle.exercise_chart.specs.Marks.{scene_of, Marked};

use crate::arrow::{Arrow, arrows_of};
use crate::bar::{Bar, EntityBars, Undrawn, bars_of};
use crate::blocked::{BlockedRow, blocked_rows};
use crate::fault::ChartFault;
use crate::loss::{Loss, losses_of};
use crate::outside::{OutsideReceipt, outside_receipts};
use crate::point::Point;
use crate::row::{Row, rows_of};
use crate::scene::Scene;
use crate::selection::Selection;
use crate::unanswered::unanswered_of;
use exercise_check::Step;
use exercise_model::ExerciseLog;
use exercise_review::Register;
use std::alloc::Global;

/// Largest number of rows of steps in a picture.
pub const MOST_ROWS: usize = 2000;

/// The marks of a picture: everything that is drawn.
pub struct Marks {
    /// One row for each shown step, in their order.
    pub rows: Vec<Row>,
    /// Receipts with their sources, in the order of the receipts in the recording.
    pub arrows: Vec<Arrow>,
    /// Receipts from outside, by row.
    pub outside: Vec<OutsideReceipt>,
    /// Losses, by row and station.
    pub losses: Vec<Loss>,
    /// Spans of the entities' lives, by station, entity and time.
    pub bars: Vec<Bar>,
    /// Stations with more entities than bars are drawn for, by station.
    pub undrawn: Vec<Undrawn>,
    /// First receipts of requests that their receiver never answered, in the order of the first
    /// entries of the requests.
    pub unanswered: Vec<Point>,
    /// Rows of entries that cannot happen next, in the order in which these are given.
    pub blocked: Vec<BlockedRow>,
}

// Not derived, so that a drop is one call and its caller need not take the marks apart.
impl Drop for Marks {
    fn drop(self) {
        let Marks {
            rows: _rows,
            arrows: _arrows,
            outside: _outside,
            losses: _losses,
            bars: _bars,
            undrawn: _undrawn,
            unanswered: _unanswered,
            blocked: _blocked,
        } = self;
    }
}

/// The marks of a scene.
fn marks_in<L: ExerciseLog>(alloc: Global, scene: &Scene<'_, L>) -> Result<Marks, ChartFault>
    ensures { Marked scene.now result }
{
    let EntityBars { bars, undrawn } = bars_of(alloc, scene)?;
    let rows = rows_of(alloc, scene)?;
    let arrows = arrows_of(alloc, scene)?;
    let outside = outside_receipts(alloc, scene)?;
    let losses = losses_of(alloc, scene)?;
    let unanswered = unanswered_of(alloc, scene)?;
    let blocked = blocked_rows(alloc, scene)?;
    Ok(Marks {
        rows,
        arrows,
        outside,
        losses,
        bars,
        undrawn,
        unanswered,
        blocked,
    })
}

/// The marks of what is selected of a certificate, which need not be good. `OverLimit` if the range
/// of steps has more than 2,000 rows, or the entities of a station have more than 4,194,304 spans.
/// The marks take memory.
pub fn marks_of<L: ExerciseLog>(
    alloc: Global,
    register: &Register<'_, L>,
    steps: &[Step],
    selection: &Selection<'_>,
) -> Result<Marks, ChartFault>
    ensures marks { Marked (scene_of register.now steps.now selection.now.rows selection.now.entities.now selection.now.blocked.now) result }
    ensures few { OnOk result (selection.now.rows.end - selection.now.rows.first ≤ MOST_ROWS) }
{
    if selection.rows.count() > MOST_ROWS {
        return Err(ChartFault::OverLimit);
    }
    let scene = Scene::of(alloc, register, steps, selection)?;
    marks_in(alloc, &scene)
}
