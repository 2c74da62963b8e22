//! The call that draws a recording.

use crate::call::{LibraryCall, Said, refused, usual};
use crate::recordings::FOUND;
use exercise_chart::{ChartFault, Rows, Selection, draw};
use exercise_findings::Findings;
use exercise_model::{ExerciseLog, Recording};
use exercise_review::Register;
use std::alloc::Global;

/// Draws a creation; the log of its application is first.
pub(crate) struct Drawing;

/// Whether a picture has the arrow of the answer, and an end.
fn is_of_creation(picture: &str) -> bool {
    picture.contains("data-from=\"1\" data-to=\"3\"") && picture.ends_with("</svg>\n")
}

/// The picture of a log.
fn drawn(alloc: Global, log: &Recording) -> Result<String, ChartFault> {
    let register = Register::of(alloc, Findings::of(alloc, log)?)?;
    let all = Selection {
        rows: Rows { first: 0, end: 4 },
        entities: &[],
        stations: &[],
        clock: None,
        blocked: &[],
    };
    draw(alloc, &register, &FOUND, &all)
}

impl LibraryCall<Recording> for Drawing {
    fn make(alloc: Global, log: &mut Recording) -> Said {
        match drawn(alloc, log) {
            Ok(picture) => usual(is_of_creation(&picture)),
            Err(fault) => refused(fault == ChartFault::Memory && log.entry_count() == 4),
        }
    }
}
