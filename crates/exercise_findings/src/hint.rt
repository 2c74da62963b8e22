//! Stride predictor for sequential look-ups.

/// Stride predictor: the place of the last hit and the expected distance to the next. It affects
/// speed alone, never the result of a look-up.
#[derive(Clone, Copy)]
pub struct StridePredictor {
    /// Place of the last hit.
    place: usize,
    /// Predicted distance to the next hit.
    step: usize,
    /// Distance between the last two hits.
    way: usize,
}

impl StridePredictor {
    /// A predictor without hits: it predicts place 1.
    pub const fn new() -> StridePredictor {
        StridePredictor {
            place: 0,
            step: 1,
            way: 1,
        }
    }

    /// The predicted place of the next look-up.
    pub fn next(&self) -> usize {
        self.place.wrapping_add(self.step)
    }

    /// Records a hit at a place. Its distance to the last hit becomes the predicted distance if it
    /// occurred twice in a row.
    pub fn found(&mut self, place: usize) {
        let way = place.wrapping_sub(self.place);
        let step = if way == self.way { way } else { self.step };
        *self = StridePredictor { place, step, way };
    }
}
