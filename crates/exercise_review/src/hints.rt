//! Predictors for sequential look-ups.

use exercise_findings::StridePredictor;

/// Predicted places of the next key and the next receipt. They affect only the speed of a look-up,
/// never its result.
#[derive(Clone, Copy)]
pub(crate) struct Hints {
    pub keys: StridePredictor,
    pub receipts: StridePredictor,
}

impl Hints {
    /// No prediction yet.
    pub(crate) const fn new() -> Hints {
        Hints {
            keys: StridePredictor::new(),
            receipts: StridePredictor::new(),
        }
    }
}
