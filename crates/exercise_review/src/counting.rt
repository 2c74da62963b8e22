//! Counts of numbers by place.

ghost use Rattle.std.specs.Prelude.{◌≡◌, ◌<◌, ◌+◌, ℕ, Some, length, slice_index_or, IfOk, if◌then◌else◌};
ghost use Rattle.siman_pdus.specs.Answers.{same_id};
ghost use Rattle.exercise_review.specs.Counted.{count_at};

use std::alloc::{AllocError, Global};

/// An assignment of numbers to places, or to none. Its meaning is `places`; no call allocates
/// memory.
pub(crate) trait Placing {
    ghost use Rattle.std.specs.Prelude.{◌≡◌, ℕ, Option};

    /// The place of each number.
    ghost places: { Self → ℕ → Option ℕ };

    /// The place of a number.
    fn place(&self, number: usize) -> Option<usize>
        ensures { result ≡ places self.now number };
}

/// Increases the counter at a place, if there is such a counter.
pub(crate) fn count_one(counts: &mut Vec<usize>, place: Option<usize>)
    requires { (k : ℕ) → slice_index_or counts.old.items k 0 < 18446744073709551615 }
    ensures count { length counts.new.items ≡ length counts.old.items }
    ensures each { (k : ℕ) → k < length counts.old.items → slice_index_or counts.new.items k 0 ≡ slice_index_or counts.old.items k 0 + (if same_id place (Some k) then 1 else 0) }
{
    let Some(place) = place else {
        return;
    };
    if place < counts.len() {
        counts[place] += 1;
    }
}

/// For each of `places` places, the number of numbers below `end` that are assigned to it.
pub(crate) fn counts_of<P: Placing>(
    alloc: Global,
    placing: &P,
    end: usize,
    places: usize,
) -> Result<Vec<usize>, AllocError>
    ensures count { IfOk result (λ counts. length counts.items ≡ places) }
    ensures each { IfOk result (λ counts. (k : ℕ) → k < places → slice_index_or counts.items k 0 ≡ count_at (P.places placing.now) k end) }
{
    let mut counts = vec![in alloc; 0; places]?;
    for number in 0..end {
        count_one(&mut counts, placing.place(number));
    }
    Ok(counts)
}
