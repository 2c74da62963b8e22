//! Random command lines, over a folder with files of every kind.

use crate::inputs::InputResult;
use crate::ran::{Files, Ran, run_words};
use crate::refusals::files::STEPS;
use siman_refusals::RECORDING;
use siman_trials::{RandomInput, random_command_line};
use std::alloc::Global;

/// A recording without entries, with its only certificate.
const EMPTY: [u8; 25] = [
    68, 83, 82, 67, 48, 48, 48, 49, 1, 0, 1, 0, 2, 0, 3, 0, 1, 0, 7, 1, 0, 0, 0, 0, 0,
];

const CERTIFICATE: [u8; 12] = [68, 83, 67, 84, 48, 48, 48, 49, 0, 0, 0, 0];

/// The head of a recording whose end is torn off.
const TORN: [u8; 19] = [
    68, 83, 82, 67, 48, 48, 48, 50, 1, 1, 0, 1, 0, 2, 0, 3, 0, 0, 2,
];

/// The head of a capture of tcpdump.
const CAPTURE: [u8; 24] = [
    0xD4, 0xC3, 0xB2, 0xA1, 2, 0, 4, 0, 0, 0, 0, 0, 0, 0, 0, 0, 0, 0, 4, 0, 1, 0, 0, 0,
];

const SCRIPT: &[u8] = b"exercise 1\nstation 1:1\nstation 2:3\ncreate 2:3 2:3:7\ndeliver 0 2:3\n";

/// Lines of standard input for `station`.
const MOVES: &[u8] =
    b"create 2:3 1:1:4\nat 10\ntick 2:3\n\ntell 2:3 7\nquery 2:3 65535:65535:65535 1\n";

/// Standard inputs.
const INPUTS: [&[u8]; 6] = [b"", SCRIPT, b"0701\n", b"GG\n00\n", b"exercise 1\n", MOVES];

/// The files that the words may name; `-` is there as a file name too.
const FILES: Files<'static> = &[
    ("rec", &EMPTY),
    ("cert", &CERTIFICATE),
    ("done", &RECORDING),
    ("order", &STEPS),
    ("torn", &TORN),
    ("script", SCRIPT),
    ("hex", b"0701\n"),
    ("capture", &CAPTURE),
    ("picture", b"<svg xmlns='http://www.w3.org/2000/svg'/>\n"),
    ("empty", b""),
    ("-", SCRIPT),
];

/// Whether a run ended as the pages say: with output and no fault, or with a fault alone. Only
/// `pdus`, `live` and `station` may print both; without lines `pdus` prints nothing, and `log`
/// prints nothing if no entry passes the filter.
fn is_named(ended: &Ran, command: &str) -> bool {
    match command {
        "pdus" if ended.status <= 2 => (ended.status == 2) == !ended.errors.is_empty(),
        "station" if ended.is_played() => true,
        "log" | "count" if ended.is_answer() => true,
        "live" if ended.is_lived() => true,
        _ => ended.is_fault() || ended.is_answer() && !ended.out.is_empty(),
    }
}

/// Whether no file with bytes in it was replaced without `--force`.
fn spares_files(ended: &Ran, words: &[&str]) -> bool {
    !ended.replaced || words.contains(&"--force")
}

/// Tries a random command line: the run must end as the pages say, and lose no file.
pub(crate) fn try_command_line(alloc: Global, input: &mut RandomInput) -> InputResult {
    let line = random_command_line(input);
    let words = line.words();
    for word in words {
        input.put(word.as_bytes());
        input.put(b"\n");
    }
    let given = INPUTS[input.random.below(6) % 6];
    let ended = run_words(alloc, words, FILES, given);
    let command = match words.first() {
        Some(command) => *command,
        None => "",
    };
    InputResult {
        status: ended.status,
        good: is_named(&ended, command) && spares_files(&ended, words),
    }
}
