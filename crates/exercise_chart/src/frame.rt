//! Places of the parts of a picture, as whole numbers (SVG units) from its upper left corner.

ghost use Rattle.std.specs.Prelude.{◌≡◌, ◌<◌, ◌≤◌, ◌-◌, ◌^◌, length, IfSome};
ghost use Rattle.exercise_chart.specs.Frame.{column_at, column_x, rows_x, step_x, clock_x, clock_width, words_x, width_of, slot_x, row_y, rows_shown, rows_drawn, bottom_y, height_of, step_y, blocked_y, since_y, until_y, blocks_of, names_y};

use crate::{ClockUnit, MOST_ENTITIES, MOST_ROWS, Point, Rows};
use exercise_model::MOST_STATIONS;
use std::marker::Model;

/// The middle of the first column.
pub(crate) const LEFT: u64 = 40;
/// The height of the first line of station names.
pub(crate) const TOP: u64 = 128;
/// Distance between two rows.
pub(crate) const ROW: u64 = 20;
/// Rows between two lines of station names.
pub(crate) const BLOCK: u64 = 36;

/// What all places depend on: the shown steps, the stations, of which some are kept, the clock, and
/// the number of blocked rows.
#[derive(Drop)]
pub(crate) struct Frame<'a> {
    pub rows: Rows,
    /// The number of all stations.
    pub stations: u16,
    /// For each station its column, if it is kept.
    pub columns: &'a [Option<u16>],
    /// The number of columns.
    pub kept: u16,
    /// What stamps count, if the picture has a clock.
    pub clock: Option<ClockUnit>,
    /// The number of rows of entries that cannot happen next.
    pub blocked: usize,
}

impl<'a> Model for Frame<'a> {
    ghost use Rattle.exercise_chart.specs.Frame.{FrameData};

    ghost Value = { FrameData };

    ghost view = { λ f. record { rows = f.rows; stations = f.stations; columns = f.columns.now; kept = f.kept; clock = f.clock; blocked = f.blocked } };
}

/// The middle of a column.
#[tactic(auto, unfolding(crate::specs::Frame::column_x))]
pub(crate) fn column_x(column: u16) -> u64
    ensures x { result ≡ column_x column }
    ensures inside { LEFT ≤ result }
    ensures small { result < 2 ^ 24 }
{
    LEFT + 108 * u64::from(column)
}

/// The middle of a bar in a slot of a column.
#[tactic(auto, unfolding(crate::specs::Frame::slot_x))]
pub(crate) fn slot_x(column: u16, slot: usize) -> u64
    ensures x { result ≡ slot_x column slot }
    ensures inside { LEFT ≤ result }
{
    column_x(column) + 12 * slot.min(MOST_ENTITIES) as u64
}

impl<'a> Frame<'a> {
    /// The column of a station, if it is kept.
    pub(crate) fn column(&self, station: u16) -> Option<u16>
        ensures column { result ≡ column_at self.now station }
        ensures within { IfSome result (λ _. station < length self.now.columns) }
    {
        match self.columns.get(usize::from(station)) {
            Some(column) => *column,
            None => None,
        }
    }

    /// Left end of the rows' steps and words.
    pub(crate) fn rows_x(&self) -> u64
        ensures x { result ≡ rows_x self.now }
        ensures inside { LEFT ≤ result }
        ensures small { result < 2 ^ 24 }
    {
        column_x(self.kept)
    }

    /// Right end of the steps' numbers.
    pub(crate) fn step_x(&self) -> u64
        ensures x { result ≡ step_x self.now }
        ensures small { result < 2 ^ 25 }
    {
        self.rows_x() + 48
    }

    /// Left end of the clocks.
    pub(crate) fn clock_x(&self) -> u64
        ensures x { result ≡ clock_x self.now }
        ensures small { result < 2 ^ 26 }
    {
        self.step_x() + 12
    }

    /// Left end of the words of the rows.
    pub(crate) fn words_x(&self) -> u64
        ensures x { result ≡ words_x self.now }
        ensures small { result < 2 ^ 27 }
    {
        self.clock_x() + clock_width(self.clock)
    }

    /// Width of the picture.
    #[tactic(auto, unfolding(crate::specs::Frame::width_of))]
    pub(crate) fn width(&self) -> u64
        ensures { result ≡ width_of self.now }
    {
        self.words_x() + 540
    }

    /// The number of rows of steps.
    pub(crate) fn rows_shown(&self) -> u64
        ensures count { result ≡ rows_shown self.now }
        ensures few { result < 2 ^ 12 }
    {
        self.rows.count().min(MOST_ROWS) as u64
    }

    /// The number of all drawn rows: behind those of steps stand the blocked ones.
    pub(crate) fn rows_drawn(&self) -> u64
        ensures count { result ≡ rows_drawn self.now }
        ensures few { result < 2 ^ 13 }
    {
        self.rows_shown() + self.blocked.min(MOST_STATIONS) as u64
    }

    /// The number of the row of a step, from 0.
    pub(crate) fn row_number(&self, step: usize) -> u64
        ensures { result ≡ step - self.now.rows.first }
    {
        step.saturating_sub(self.rows.first) as u64
    }

    /// How many times the station names are drawn: once above each block of rows.
    pub(crate) fn blocks(&self) -> u64
        ensures { result ≡ blocks_of self.now }
    {
        self.rows_drawn() / BLOCK + 1
    }

    /// The lower end of the columns.
    pub(crate) fn bottom_y(&self) -> u64
        ensures y { result ≡ bottom_y self.now }
        ensures small { result < 2 ^ 24 }
    {
        row_y(self.rows_drawn())
    }

    /// Height of the picture.
    #[tactic(auto, unfolding(crate::specs::Frame::height_of))]
    pub(crate) fn height(&self) -> u64
        ensures { result ≡ height_of self.now }
    {
        self.bottom_y() + 24
    }

    /// The height of a step: of its row, or of the edge beyond which it lies.
    #[tactic(auto, unfolding(crate::specs::Frame::step_y))]
    pub(crate) fn step_y(&self, step: usize) -> u64
        ensures y { result ≡ step_y self.now step }
        ensures small { result < 2 ^ 24 }
    {
        if step < self.rows.first {
            TOP + 10
        } else if step < self.rows.end {
            row_y((step - self.rows.first).min(MOST_ROWS) as u64)
        } else {
            self.bottom_y()
        }
    }

    /// The height of a blocked row, by its number from 0.
    #[tactic(auto, unfolding(crate::specs::Frame::blocked_y))]
    pub(crate) fn blocked_y(&self, number: usize) -> u64
        ensures y { result ≡ blocked_y self.now number }
        ensures small { result < 2 ^ 24 }
    {
        row_y(self.rows_shown() + number.min(MOST_STATIONS) as u64)
    }

    /// The upper end of a bar.
    #[tactic(auto, unfolding(crate::specs::Frame::since_y))]
    pub(crate) fn since_y(&self, from: Option<Point>) -> u64
        ensures y { result ≡ since_y self.now from }
        ensures small { result < 2 ^ 24 }
    {
        match from {
            Some(change) => self.step_y(change.step),
            None => TOP + 10,
        }
    }

    /// The lower end of a bar.
    #[tactic(auto, unfolding(crate::specs::Frame::until_y))]
    pub(crate) fn until_y(&self, to: Option<Point>) -> u64
        ensures { result ≡ until_y self.now to }
    {
        match to {
            Some(change) => self.step_y(change.step),
            None => self.bottom_y(),
        }
    }
}

/// The width of the column of clocks, which only a picture with a clock has.
fn clock_width(clock: Option<ClockUnit>) -> u64
    ensures width { result ≡ clock_width clock }
    ensures small { result < 128 }
{
    match clock {
        Some(ClockUnit::Microsecond) => 116,
        Some(ClockUnit::Millisecond) => 92,
        Some(ClockUnit::Second) => 68,
        None => 0,
    }
}

/// The height of a row, by its number among the drawn rows, from 0.
#[tactic(auto, unfolding(crate::specs::Frame::row_y))]
fn row_y(number: u64) -> u64
    requires { number < 2 ^ 16 }
    ensures y { result ≡ row_y number }
    ensures small { result < 2 ^ 24 }
{
    TOP + ROW * (number + number / BLOCK + 1)
}

/// The height of the station names above a block of rows, by the block's number from 0.
#[tactic(auto, unfolding(crate::specs::Frame::names_y))]
pub(crate) fn names_y(block: u64) -> u64
    requires { block < 2 ^ 16 }
    ensures { result ≡ names_y block }
{
    TOP + 4 + ROW * (BLOCK + 1) * block
}
