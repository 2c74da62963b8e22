//! Random inputs, spoilt: datagrams, recordings with certificates, scripts and command lines. Each
//! answer is checked against what the pages say of every answer.

mod command_lines;
mod datagrams;
mod recordings;
mod scripts;

use crate::inputs::command_lines::try_command_line;
use crate::inputs::datagrams::try_datagram;
use crate::inputs::recordings::try_recording;
pub(crate) use crate::inputs::scripts::is_tried;
use crate::inputs::scripts::try_script;
use siman_trials::{Random, RandomInput, begin_input};
use std::alloc::Global;
use std::io;
use std::io::Write;

/// Result of an input.
#[derive(Drop)]
pub(crate) struct InputResult {
    pub(crate) status: u8,
    /// Whether the answer passed every check.
    pub(crate) good: bool,
}

/// Result of an input that could not be tried.
const UNTRIED: InputResult = InputResult {
    status: 3,
    good: false,
};

/// Kinds of inputs, in the order of their counts.
const KINDS: [&str; 4] = ["datagrams", "recordings", "scripts", "command lines"];

/// For each kind the number of runs with each status, 0 to 3, and the number of wrong answers.
#[derive(Drop)]
pub(crate) struct Ends {
    counts: [[u32; 4]; 4],
    pub(crate) otherwise: u32,
}

/// Kinds by the throw of a die: half of all inputs are datagrams.
const THROWS: [usize; 8] = [0, 0, 0, 0, 1, 2, 3, 3];

/// Chooses a random input of a kind and tries it.
fn try_kind(alloc: Global, kind: usize, input: &mut RandomInput) -> InputResult {
    match kind {
        0 => try_datagram(alloc, input),
        1 => try_recording(alloc, input),
        2 => try_script(alloc, input),
        _ => try_command_line(alloc, input),
    }
}

/// Prints an input with a wrong answer.
fn put_otherwise<W: Write>(
    alloc: Global,
    number: u64,
    kind: usize,
    status: u8,
    input: &[u8],
    out: &mut W,
) -> io::Result<()> {
    let (kind, input) = (KINDS[kind % 4], hex::encode(alloc, input)?);
    writeln!(
        out,
        "input {number} of {kind}, status {status}, is answered otherwise: {input}"
    )
}

impl Ends {
    /// Counts a run; whether its status is one of 0 to 3.
    fn count(&mut self, kind: usize, status: u8) -> bool {
        let counts = &mut self.counts[kind % 4];
        match counts.get_mut(usize::from(status)) {
            Some(count) => {
                *count = count.saturating_add(1);
                true
            }
            None => false,
        }
    }

    /// Tries the input with this number, and prints it if its answer is wrong.
    fn try_input<W: Write>(&mut self, alloc: Global, number: u64, out: &mut W) -> io::Result<()> {
        let mut random = Random {
            state: number.wrapping_mul(0x9E37_79B9_7F4A_7C15),
        };
        let _first = random.below(2);
        let kind = THROWS[random.below(8) % 8];
        let mut input = begin_input(alloc, random);
        let InputResult { status, good } = try_kind(alloc, kind, &mut input);
        if self.count(kind, status) && good && !input.is_short {
            return Ok(());
        }
        self.otherwise = self.otherwise.saturating_add(1);
        put_otherwise(alloc, number, kind, status, &input.bytes, out)
    }

    /// Prints how often each kind ended with each status.
    pub(crate) fn print<W: Write>(&self, out: &mut W) -> io::Result<()> {
        for (kind, name) in KINDS.iter().enumerate() {
            if let Some([zero, one, two, three]) = self.counts.get(kind) {
                writeln!(out, "{name}: status 0 {zero}, 1 {one}, 2 {two}, 3 {three}")?;
            }
        }
        writeln!(out, "otherwise {}", self.otherwise)
    }
}

/// Tries `count` inputs, numbered from `first` on, and prints those with a wrong answer.
pub(crate) fn try_inputs<W: Write>(
    alloc: Global,
    count: u64,
    first: u64,
    out: &mut W,
) -> io::Result<Ends> {
    let mut ends = Ends {
        counts: [[0; 4]; 4],
        otherwise: 0,
    };
    for more in 0..count {
        ends.try_input(alloc, first.wrapping_add(more), out)?;
    }
    Ok(ends)
}
