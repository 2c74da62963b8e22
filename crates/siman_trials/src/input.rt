//! Bytes of an input, appended piece by piece.

use crate::random::Random;
use std::alloc::Global;
use std::io::Write;

const BITS: [u8; 8] = [1, 2, 4, 8, 16, 32, 64, 128];

/// The bytes of an input or of an output, and the die that chooses an input.
#[derive(Drop)]
pub struct RandomInput {
    pub random: Random,
    pub bytes: Vec<u8>,
    /// Whether an allocation failed, so that bytes are missing.
    pub is_short: bool,
}

/// An empty input.
pub fn begin_input(alloc: Global, random: Random) -> RandomInput {
    RandomInput {
        random,
        bytes: Vec::new(alloc),
        is_short: false,
    }
}

impl RandomInput {
    /// Appends bytes.
    pub fn put(&mut self, bytes: &[u8]) {
        if self.bytes.extend_from_slice(bytes).is_err() {
            self.is_short = true;
        }
    }

    /// Appends this many random bytes.
    pub(crate) fn put_some(&mut self, count: usize) {
        for _ in 0..count {
            let byte = self.random.byte();
            self.put(&[byte]);
        }
    }

    /// Appends lines, with numbers in place of each `F` (from), `T` (to) and `E` (entity).
    pub fn put_lines(&mut self, form: &str, from: usize, to: usize, entity: usize) {
        for byte in form.as_bytes() {
            let number = match *byte {
                b'F' => from,
                b'T' => to,
                b'E' => entity,
                other => {
                    self.put(&[other]);
                    continue;
                }
            };
            if write!(self.bytes, "{number}").is_err() {
                self.is_short = true;
            }
        }
    }

    /// Inserts a byte at a place, if the input is that long.
    fn insert(&mut self, place: usize, byte: u8) {
        if place <= self.bytes.len() && self.bytes.insert(place, byte).is_err() {
            self.is_short = true;
        }
    }

    /// Changes the byte at a place: to 0 (`way` 4), to 255 (5), to `byte` (6), or else one bit of
    /// it.
    fn change(&mut self, way: usize, place: usize, byte: u8) {
        let bit = if matches!(way, 4..=6) {
            0
        } else {
            self.random.below(8)
        };
        if let Some(there) = self.bytes.get_mut(place) {
            *there = match way {
                4 => 0,
                5 => 255,
                6 => byte,
                _ => *there ^ BITS[bit % 8],
            };
        }
    }

    /// Spoils the input `ways` times: cuts it, appends, removes or inserts a byte, or changes a
    /// byte or one bit.
    pub fn spoil(&mut self, ways: usize) {
        for _ in 0..ways {
            let place = self.random.below(self.bytes.len());
            let byte = self.random.byte();
            match self.random.below(10) {
                0 => self.bytes.truncate(place),
                1 => self.put(&[byte]),
                2 if place < self.bytes.len() => {
                    let _gone = self.bytes.remove(place);
                }
                3 => self.insert(place, byte),
                way => self.change(way, place, byte),
            }
        }
    }
}
