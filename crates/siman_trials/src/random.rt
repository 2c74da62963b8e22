//! Pseudo-random numbers that repeat from run to run: a linear congruential generator.

/// State of the generator.
#[derive(Clone, Copy)]
pub struct Random {
    pub state: u64,
}

impl Random {
    /// The next number below `end`; 0 if `end` is 0.
    pub fn below(&mut self, end: usize) -> usize {
        let state = self.state;
        self.state = state
            .wrapping_mul(6364136223846793005)
            .wrapping_add(1442695040888963407);
        let high = (self.state >> 33) as usize;
        if end == 0 { 0 } else { high % end }
    }

    /// The next byte.
    pub fn byte(&mut self) -> u8 {
        (self.below(256) % 256) as u8
    }

    /// Whether a die with this many sides shows its first.
    pub fn one_in(&mut self, sides: usize) -> bool {
        self.below(sides) == 0
    }
}
