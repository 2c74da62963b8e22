//! The commands that show the history of a recording: the [`View`]s `review`, `log` and `count`, the
//! sentences of a review ([`Prose`]), and `chart`, which draws it in the sequence of a certificate. `siman_outside` runs a view on readers and on
//! the names of files; [`chart_named`] takes the names of three. Their rows are those of
//! `exercise_log`, and the picture is that of `exercise_chart`; [`filter_of`] parses a filter.
//!
//! It opens no file itself and ends no process.
//!
//! The layer above may use its contracts on the status and the bytes of the answer: `PrintsView`,
//! `PrintsReview` and `ChartsNamed`.
#![tactic(auto)]

mod chart;
mod chart_words;
mod drawn;
mod filter_words;
mod log;
mod picture;
mod review;
mod view;

pub use chart::chart_named;
pub use filter_words::filter_of;
pub use picture::PictureTexts;
pub use view::{Prose, View};
