//! Random recordings, spoilt, and their certificates.

use crate::inputs::InputResult;
use crate::ran::{Ran, checked, run_words, searched};
use plain_check::put_random_recording;
use siman_trials::{
    Random, RandomInput, begin_input, recording_readings, spoil_certificate, with_other_state,
};
use std::alloc::Global;

/// Whether `check` says no to a copy of a recording in which one told state is changed; true if the
/// recording has no told state.
fn is_other_refused(
    alloc: Global,
    random: &mut Random,
    recording: &[u8],
    certificate: &[u8],
) -> bool {
    match with_other_state(alloc, random, recording) {
        Ok(Some(other)) => checked(alloc, &other, certificate).ends(1),
        Ok(None) => true,
        Err(_) => false,
    }
}

/// Whether `check` answers a spoilt certificate with a no, a fault, or exactly this report.
fn is_spoilt_judged(
    alloc: Global,
    random: &mut Random,
    recording: &[u8],
    certificate: &[u8],
    report: &[u8],
) -> bool {
    let mut spoilt = begin_input(alloc, *random);
    spoilt.put(certificate);
    spoil_certificate(&mut spoilt);
    *random = spoilt.random;
    let said = checked(alloc, recording, &spoilt.bytes);
    match said.status {
        0 => said.is_answer() && said.out.as_slice() == report,
        1 => said.is_answer() && said.out.starts_with(b"no step="),
        _ => said.is_fault() && said.errors.starts_with(b"certificate: "),
    }
}

/// Whether `check` says yes to the certificate that `audit` found, prints no other report for a
/// spoilt one, and says no if a told state of the recording is changed.
fn is_judged(alloc: Global, random: &mut Random, recording: &[u8], certificate: &[u8]) -> bool {
    let said = checked(alloc, recording, certificate);
    let report = said.out.as_slice();
    said.ends(0)
        && report.starts_with(b"yes records=")
        && is_spoilt_judged(alloc, random, recording, certificate, report)
        && is_other_refused(alloc, random, recording, certificate)
}

/// Whether `audit` ended as it must: with a certificate that `check` accepts or with blocked
/// entries for a recording, and with a fault for any other file.
fn is_searched(
    alloc: Global,
    random: &mut Random,
    recording: &[u8],
    is_read: bool,
    found: &Ran,
) -> bool {
    match (&found.left, found.status) {
        (Some(certificate), 0) if is_read && found.is_answer() => {
            is_judged(alloc, random, recording, certificate)
        }
        (None, 1) => is_read && found.is_answer() && found.out.starts_with(b"blocked "),
        (None, 2) => !is_read && found.is_fault(),
        _ => false,
    }
}

/// Whether `convert` ended as it must: it copies a recording of the first format byte by byte, with a
/// new magic and with a flag behind the exercise, and refuses any other file.
fn is_carried(bytes: &[u8], is_read: bool, carried: &Ran) -> bool {
    let (Some(rest), true) = (bytes.strip_prefix(b"DSRC0001"), is_read) else {
        let told: &[u8] = if is_read {
            b"recording: already\n"
        } else {
            b"recording: "
        };
        return carried.is_fault() && carried.errors.starts_with(told);
    };
    let (Some((exercise, old)), Some(new)) = (rest.split_first(), &carried.left) else {
        return false;
    };
    let Some(new) = new.strip_prefix(b"DSRC0002") else {
        return false;
    };
    let is_told = carried.out.starts_with(b"converted records=") && carried.ends(0);
    is_told && new.strip_prefix(&[*exercise, 0]) == Some(old)
}

/// Tries a random recording: reading and viewing must agree, `show` and `audit` must refuse a file
/// that is none, `check` must accept the certificate that `audit` finds, and `convert` must convert
/// the first format.
pub(crate) fn try_recording(alloc: Global, input: &mut RandomInput) -> InputResult {
    put_random_recording(alloc, input);
    let recording = input.bytes.as_slice();
    let (agrees, is_read) = recording_readings(alloc, recording);
    let found = searched(alloc, recording);
    let is_searched = is_searched(alloc, &mut input.random, recording, is_read, &found);
    let files = [("rec", recording)];
    let status = if is_read { 0 } else { 2 };
    let is_shown = run_words(alloc, &["show", "rec"], &files, &[]).ends(status);
    let carried = run_words(alloc, &["convert", "rec", "new"], &files, &[]);
    let is_carried = is_carried(recording, is_read, &carried);
    InputResult {
        status: found.status,
        good: agrees && is_searched && is_shown && is_carried,
    }
}
