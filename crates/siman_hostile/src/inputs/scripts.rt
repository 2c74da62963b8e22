//! Random scripts, spoilt.

use crate::inputs::InputResult;
use crate::ran::{Ran, checked, run_words, searched};
use siman_trials::{RandomInput, put_random_script};
use std::alloc::Global;

/// Whether bytes are the concatenation of these parts.
fn is_joined(bytes: &[u8], parts: &[&[u8]]) -> bool {
    let mut rest = bytes;
    for part in parts {
        match rest.strip_prefix(*part) {
            Some(behind) => rest = behind,
            None => return false,
        }
    }
    rest.is_empty()
}

/// Whether `audit` and `check` accept the recording of a world, and a trial prints exactly what
/// `world`, `audit` and `check` print.
fn is_closed(alloc: Global, made: &Ran, recording: &[u8], tried: &Ran) -> bool {
    let found = searched(alloc, recording);
    match &found.left {
        Some(certificate) => {
            let said = checked(alloc, recording, certificate);
            let same = is_joined(&tried.out, &[&made.out, &found.out, &said.out]);
            same && found.ends(0) && said.ends(0) && tried.ends(0)
        }
        None => false,
    }
}

/// Whether the world of a script and its trial end alike.
pub(crate) fn is_tried(alloc: Global, made: &Ran, script: &[u8]) -> bool {
    let tried = run_words(alloc, &[], &[], script);
    match (&made.left, made.status) {
        (Some(recording), 0) if made.is_answer() => is_closed(alloc, made, recording, &tried),
        (None, 2) => {
            let same = made.errors.as_slice() == tried.errors.as_slice();
            made.is_fault() && tried.is_fault() && same
        }
        _ => false,
    }
}

/// Whether `audit` explains what the stations of a script record with `live`, over links that
/// deliver, or `live` ends with a fault and no output.
fn is_lived(alloc: Global, script: &[u8]) -> bool {
    let files = [("script", script)];
    let lived = run_words(alloc, &["live", "script", "rec"], &files, &[]);
    match (&lived.left, lived.status) {
        (Some(recording), 0) if lived.is_answer() => searched(alloc, recording).ends(0),
        (_, 2) => lived.out.is_empty() && !lived.errors.is_empty(),
        _ => false,
    }
}

/// Tries a random script: its world and its trial must end alike, and `audit` must explain the
/// recordings of `world` and `live`.
pub(crate) fn try_script(alloc: Global, input: &mut RandomInput) -> InputResult {
    put_random_script(input);
    let script = input.bytes.as_slice();
    let files = [("script", script)];
    let made = run_words(alloc, &["world", "script", "rec"], &files, &[]);
    InputResult {
        status: made.status,
        good: is_tried(alloc, &made, script) && is_lived(alloc, script),
    }
}
