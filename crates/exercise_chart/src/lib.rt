//! An exercise as a picture: the marks of a sequence chart, taken from a recording and a
//! certificate of it, and the chart drawn from them as an SVG text. Stations are columns, steps are
//! rows, and each row ends with its entry in words.
//!
//! [`marks_of`] computes the [`Marks`] of a [`Selection`]: a row for each step of a range, an arrow
//! for each receipt with a source, losses, receipts from outside, requests that were never answered,
//! a bar for each span of an entity's life, and behind the steps a row for each of the entries that
//! are said to be blocked. [`draw`] draws them. Neither opens a file or writes to a stream, and
//! neither judges the certificate or the blocked entries: that is for the checker to say.
//!
//! A caller may use the law [`pictures_are_runs`] for the marks of a good certificate: the rows are
//! its steps, no arrow points upwards, and a bar has the state that the entity has after each step
//! that it covers. The contract of [`draw`] gives each byte, by the definition `picture_text` of
//! the page `Drawing`. The pages `Rows`, `Words`, `Lines`, `Signs` and `Bars` define the elements
//! of each mark, `Frame` their places, and `Element` the spelling of elements.
#![tactic(auto)]

mod arrow;
mod bar;
mod bars;
mod blocked;
mod clock;
mod columns;
mod deeds;
mod element;
mod fault;
mod frame;
mod heading;
mod kept;
mod laws;
mod lines;
mod loss;
mod marks;
mod outside;
mod picture;
mod point;
mod row;
mod rows;
mod saying;
mod scene;
mod selection;
mod sheets;
mod signs;
mod slot;
mod taken;
mod tone;
mod unanswered;
mod words;

pub use arrow::Arrow;
pub use bar::{Bar, MOST_ENTITIES, MOST_STRETCHES, Undrawn};
pub use blocked::BlockedRow;
pub use clock::ClockUnit;
pub use fault::ChartFault;
pub use kept::column_count;
pub use laws::pictures_are_runs;
pub use loss::Loss;
pub use marks::{MOST_ROWS, Marks, marks_of};
pub use outside::OutsideReceipt;
pub use picture::draw;
pub use point::{Point, Rows};
pub use row::{Activity, Repetition, Row};
pub use saying::Saying;
pub use selection::{BlockedEntry, Selection};
