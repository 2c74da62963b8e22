//! An exercise of 102,000 entries, from its script to the report.

use crate::inputs::is_tried;
use crate::ran::{checked, run_words, searched};
use siman_trials::{Random, RandomInput, begin_input};
use std::alloc::Global;
use std::io;
use std::io::Write;

/// Number of orders; each is sent, received and answered, and its answer is received.
const EXCHANGES: usize = 12_000;

/// Number of later copies of the first order.
const COPIES: u32 = 27_000;

/// Appends the script of the exercise.
fn put_script(script: &mut RandomInput) {
    script.put(b"exercise 1\nstation 1:1\nstation 2:3\nopening 2:3 7 stopped\n");
    for number in 0..EXCHANGES {
        let sent = number.saturating_mul(2);
        let exchange = "start 1:1 2:3:7\ndeliver F 2:3\ndeliver T 1:1\n";
        script.put_lines(exchange, sent, sent.saturating_add(1), 0);
    }
    for _ in 0..COPIES {
        script.put(b"deliver 0 2:3\n");
    }
}

/// Appends a copy of the recording with one more entry, in which 2:3 tells that its entity 7 is
/// absent while it runs.
fn put_told_wrong(file: &mut RandomInput, recording: &[u8]) {
    file.put(recording);
    file.bytes.truncate(recording.len().saturating_sub(5));
    file.put(&[3, 0, 1, 0, 7, 0, 0, 0, 1, 142, 113]);
}

/// Appends a copy of the certificate with one more step, for that entry.
fn put_with_step(file: &mut RandomInput, certificate: &[u8]) {
    file.put(b"DSCT0001\x00\x01\x8e\x71");
    file.put(certificate.get(12..).unwrap_or(b""));
    file.put(&[0, 1, 142, 112, 255, 255, 255, 255]);
}

/// The last line of a text.
fn last_line(text: &[u8]) -> &[u8] {
    let mut start = 0usize;
    for place in 1..text.len() {
        if text[place - 1] == b'\n' {
            start = place;
        }
    }
    text.get(start..).unwrap_or(text)
}

/// Appends what `check` and `audit` print for the recording with the wrong state.
fn put_wrong(alloc: Global, recording: &[u8], certificate: &[u8], told: &mut RandomInput) {
    let mut wrong = begin_input(alloc, told.random);
    put_told_wrong(&mut wrong, recording);
    let mut longer = begin_input(alloc, told.random);
    put_with_step(&mut longer, certificate);
    told.put(&checked(alloc, &wrong.bytes, &longer.bytes).out);
    told.put(&searched(alloc, &wrong.bytes).out);
}

/// Appends the last lines that `show` and `check` print for a recording, and what is printed for it
/// with the wrong state.
fn put_judged(alloc: Global, recording: &[u8], told: &mut RandomInput) {
    let found = searched(alloc, recording);
    let Some(certificate) = &found.left else {
        return;
    };
    let shown = run_words(alloc, &["show", "rec"], &[("rec", recording)], &[]);
    told.put(last_line(&shown.out));
    told.put(last_line(&checked(alloc, recording, certificate).out));
    put_wrong(alloc, recording, certificate, told);
}

/// Appends what the commands print for a script: the output of `world`, whether its trial agrees,
/// and what is printed for the recording.
fn put_tried(alloc: Global, script: &[u8], told: &mut RandomInput) {
    let files = [("script", script)];
    let made = run_words(alloc, &["world", "script", "rec"], &files, &[]);
    told.put(&made.out);
    if is_tried(alloc, &made, script) {
        told.put(b"explained, and its trial says the same: true\n");
    }
    if let Some(recording) = &made.left {
        put_judged(alloc, recording, told);
    }
}

/// Makes the exercise, and prints the answers of the commands to it.
pub(crate) fn put_exercise<W: Write>(alloc: Global, out: &mut W) -> io::Result<()> {
    let mut script = begin_input(alloc, Random { state: 0 });
    put_script(&mut script);
    let mut told = begin_input(alloc, Random { state: 0 });
    put_tried(alloc, &script.bytes, &mut told);
    out.write_all(&told.bytes)
}
