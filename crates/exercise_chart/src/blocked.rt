//! The rows of entries that cannot happen next: they stand behind the shown steps.

ghost use Rattle.std.specs.Prelude.{◌≡◌, IfOk};
ghost use Rattle.exercise_chart.specs.Blocked.{blocked_row, blocked_rows};

use crate::row::{Row, row_taking};
use crate::scene::Scene;
use crate::selection::BlockedEntry;
use exercise_model::{Cause, ExerciseLog};
use std::alloc::{AllocError, Global};

/// A row of an entry that cannot happen next, and the cause against it. The row is as of a step
/// that takes the entry behind all steps.
#[derive(Clone, Copy)]
pub struct BlockedRow {
    pub row: Row,
    pub cause: Cause,
}

/// The row of an entry that cannot happen next, if the recording has the entry.
fn blocked_row<L: ExerciseLog>(scene: &Scene<'_, L>, blocked: &BlockedEntry) -> Option<BlockedRow>
    ensures { result ≡ blocked_row scene.now blocked.now }
{
    match row_taking(scene, scene.step_count(), blocked.entry) {
        Some(row) => Some(BlockedRow {
            row,
            cause: blocked.cause,
        }),
        None => None,
    }
}

/// All rows of entries that cannot happen next, in the order in which these are given. The list
/// takes memory.
#[tactic(auto, unfolding(crate::specs::Blocked::blocked_rows))]
pub(crate) fn blocked_rows<L: ExerciseLog>(
    alloc: Global,
    scene: &Scene<'_, L>,
) -> Result<Vec<BlockedRow>, AllocError>
    ensures { IfOk result (λ rows. rows.items ≡ blocked_rows scene.now) }
{
    let entries = scene.blocked();
    let mut rows = Vec::new(alloc);
    for entry in entries {
        if let Some(row) = blocked_row(scene, entry) {
            rows.push(row)?;
        }
    }
    Ok(rows)
}
