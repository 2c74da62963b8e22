//! Tests on numbers of entries or of stations.

ghost use Rattle.std.specs.Prelude.{◌≡◌, ◌<◌, ◌≤◌, IfSome};
ghost use Rattle.exercise_model.specs.Place.{first_below};
ghost use Rattle.exercise_review.specs.Counted.{last_below, count_below};

/// A test on a number. Its meaning is `test`; no call allocates memory.
pub(crate) trait Question {
    ghost use Rattle.std.specs.Prelude.{◌≡◌, ℕ, Bool};

    /// The test.
    ghost test: { Self → ℕ → Bool };

    /// Whether a number passes.
    fn passes(&self, number: usize) -> bool
        ensures { result ≡ test self.now number };
}

/// First number below a bound that passes.
#[tactic(auto, using(crate::proofs::Numbers::number_steps))]
pub(crate) fn first_below<Q: Question>(question: &Q, end: usize) -> Option<usize>
    ensures first { result ≡ first_below (Q.test question.now) end }
    ensures within { IfSome result (λ number. number < end) }
{
    for number in 0..end {
        if question.passes(number) {
            return Some(number);
        }
    }
    None
}

/// Last number below a bound that passes.
#[tactic(auto, using(crate::proofs::Numbers::number_steps))]
pub(crate) fn last_below<Q: Question>(question: &Q, end: usize) -> Option<usize>
    ensures last { result ≡ last_below (Q.test question.now) end }
    ensures within { IfSome result (λ number. number < end) }
{
    let mut last = None;
    for number in 0..end {
        if question.passes(number) {
            last = Some(number);
        }
    }
    last
}

/// Number of numbers below a bound that pass.
#[tactic(auto, using(crate::proofs::Numbers::number_steps))]
pub(crate) fn count_below<Q: Question>(question: &Q, end: usize) -> usize
    ensures count { result ≡ count_below (Q.test question.now) end }
    ensures within { result ≤ end }
{
    let mut count = 0;
    for number in 0..end {
        if question.passes(number) {
            count += 1;
        }
    }
    count
}
