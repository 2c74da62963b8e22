//! Which step of a certificate takes each entry.

ghost use Rattle.std.specs.Prelude.{◌≡◌, ◌<◌, ◌==◌, ◌+◌, ℕ, Some, None, length, slice_index_or, IfOk, if◌then◌else◌};
ghost use Rattle.std.specs.Option.{option_or};
ghost use Rattle.exercise_chart.specs.Point.{AreTaken};

use exercise_check::Step;
use std::alloc::{AllocError, Global};

/// A list with `None` for each of `entries` entries.
fn none_taken(alloc: Global, entries: usize) -> Result<Vec<Option<usize>>, AllocError>
    ensures count { IfOk result (λ taken. length taken.items ≡ entries) }
    ensures each { IfOk result (λ taken. (i : ℕ) → slice_index_or taken.items i None ≡ None) }
{
    let mut taken = Vec::new(alloc);
    for _entry in 0..entries {
        taken.push(None)?;
    }
    Ok(taken)
}

/// Writes a step to the entry that it takes, unless an earlier step takes it. A place past the list
/// is ignored.
fn note_step(taken: &mut Vec<Option<usize>>, place: usize, step: usize)
    ensures count { length taken.new.items ≡ length taken.old.items }
    ensures each { (i : ℕ) → i < length taken.old.items → slice_index_or taken.new.items i None ≡ option_or (slice_index_or taken.old.items i None) (if place == i then Some step else None) }
{
    if place < taken.len() && taken[place].is_none() {
        taken[place] = Some(step);
    }
}

/// For each of `entries` entries, the first step that takes it. The list takes memory.
pub(crate) fn steps_taken(
    alloc: Global,
    steps: &[Step],
    entries: usize,
) -> Result<Vec<Option<usize>>, AllocError>
    ensures { IfOk result (λ taken. AreTaken steps.now (length steps.now) entries taken.items) }
{
    let mut taken = none_taken(alloc, entries)?;
    for (number, step) in steps.iter().enumerate() {
        note_step(&mut taken, step.place as usize, number);
    }
    Ok(taken)
}
