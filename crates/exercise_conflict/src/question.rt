//! Tests of entries for searches.

ghost use Rattle.std.specs.Prelude.{◌≡◌, ◌<◌, ◌≤◌, IfSome};
ghost use Rattle.exercise_model.specs.Place.{first_below};

/// A test of an entry, yes or no. No call takes memory.
pub(crate) trait NumberTest {
    ghost use Rattle.std.specs.Prelude.{◌≡◌, ℕ, Bool};

    /// The specification of the test.
    ghost test: { Self → ℕ → Bool };

    /// Whether an entry passes the test.
    fn passes(&self, entry: usize) -> bool
        ensures { result ≡ test self.now entry };
}

/// The first entry below a bound that passes the test.
#[tactic(auto, using(crate::proofs::Steps::question_steps))]
pub(crate) fn first_below<Q: NumberTest>(question: &Q, end: usize) -> Option<usize>
    ensures { result ≡ first_below (Q.test question.now) end }
{
    for entry in 0..end {
        if question.passes(entry) {
            return Some(entry);
        }
    }
    None
}
