//! Comparisons of the checker, the search and the review with the plain versions.

use crate::comparison::reviews::is_review_same;
use crate::{
    plain_audit, plain_cause, plain_check, plain_others, plain_pair, plain_review, plain_states,
};
use exercise_audit::{Audit, audit};
use exercise_check::{Certificate, CheckFault, Checked, check, read_certificate};
use exercise_model::{ExerciseLog, LARGEST_ENTITY};
use exercise_recording::RecordingView;
use siman_trials::{Case, WELL, found, read_from};
use std::alloc::{AllocError, Global};

/// Whether two optional entry numbers are equal.
pub(crate) fn is_number(reported: Option<u32>, entry: Option<usize>) -> bool {
    match (reported, entry) {
        (Some(number), Some(entry)) => number as usize == entry,
        (None, None) => true,
        _ => false,
    }
}

/// Whether the pairs, the causes and the number of "other" datagrams equal the plain results.
fn are_entries_same<L: ExerciseLog>(log: &L, checked: &Checked) -> bool {
    for entry in 0..log.entry_count().saturating_add(1) {
        if !is_number(checked.pair(entry), plain_pair(log, entry))
            || !is_number(checked.cause(entry), plain_cause(log, entry))
        {
            return false;
        }
    }
    checked.others() == plain_others(log)
}

/// Whether the states of the entities, with numbers up to `most`, and the results for the entries
/// equal the plain results.
fn is_report_same<L: ExerciseLog>(
    alloc: Global,
    log: &L,
    checked: &Checked,
    most: u16,
) -> Result<bool, AllocError> {
    for station in 0..log.station_count().saturating_add(1) {
        let plain = plain_states(alloc, log, station, most)?;
        if checked.states(station) != plain.as_slice() {
            return Ok(false);
        }
    }
    Ok(are_entries_same(log, checked))
}

/// Whether the checker's answer equals the plain answer, with equal reports; entity numbers are at
/// most `most`.
pub(crate) fn is_check_same<L: ExerciseLog>(
    alloc: Global,
    log: &L,
    certificate: &Certificate,
    plain: Result<(), CheckFault>,
    most: u16,
) -> Result<bool, AllocError> {
    match check(alloc, log, certificate) {
        Ok(checked) if plain.is_ok() => is_report_same(alloc, log, &checked, most),
        Ok(_) => Ok(false),
        Err(fault) => Ok(plain == Err(fault)),
    }
}

/// Whether the checker and the plain one both accept a certificate, with equal reports.
fn is_taken<L: ExerciseLog>(
    alloc: Global,
    log: &L,
    certificate: &Certificate,
    most: u16,
) -> Result<bool, AllocError> {
    match plain_check(log, certificate) {
        Ok(()) => is_check_same(alloc, log, certificate, Ok(()), most),
        Err(_) => Ok(false),
    }
}

/// Whether the search's answer agrees with the plain one: equal blocks, or equal certificates that
/// both checkers accept.
pub(crate) fn is_audit_same<L: ExerciseLog>(
    alloc: Global,
    log: &L,
    found: &Audit,
    most: u16,
) -> Result<bool, AllocError> {
    match (found, &plain_audit(alloc, log)?) {
        (Audit::Explained(fast), Audit::Explained(plain)) => {
            if fast.steps.as_slice() == plain.steps.as_slice() {
                is_taken(alloc, log, fast, most)
            } else {
                Ok(false)
            }
        }
        (Audit::Blocked(fast), Audit::Blocked(plain)) => Ok(fast.as_slice() == plain.as_slice()),
        _ => Ok(false),
    }
}

/// The bytes of the last file with the name that a word of a case gives.
fn file_at(case: &Case, word: usize) -> Option<&[u8]> {
    let word = case.words.get(word)?;
    match found(&case.files, &word.bytes) {
        Some(file) => Some(&file.stream.bytes),
        None => None,
    }
}

/// Whether the answer to a case of `check`, `audit` or `review` equals the plain answer; `None` for
/// every other case, for an unreadable recording or certificate, and for a review of more than 64
/// entries.
pub fn compare_case(alloc: Global, case: &Case) -> Result<Option<bool>, AllocError> {
    let (Some(command), Some(bytes)) = (case.words.first(), file_at(case, 1)) else {
        return Ok(None);
    };
    match RecordingView::over(alloc, bytes) {
        Ok(log) => compare_command(alloc, &log, &command.bytes, case),
        Err(_) => Ok(None),
    }
}

/// Whether the search's answer agrees with the plain one.
fn is_audit_plain<L: ExerciseLog>(alloc: Global, log: &L) -> Result<bool, AllocError> {
    let found = audit(alloc, log)?;
    is_audit_same(alloc, log, &found, LARGEST_ENTITY)
}

/// Whether the review equals the plain one.
fn is_review_plain<L: ExerciseLog>(alloc: Global, log: &L) -> Result<bool, AllocError> {
    let plain = plain_review(alloc, log, LARGEST_ENTITY)?;
    is_review_same(alloc, log, &plain)
}

/// As [`compare_case`], given the command and the recording of the case.
fn compare_command<L: ExerciseLog>(
    alloc: Global,
    log: &L,
    command: &[u8],
    case: &Case,
) -> Result<Option<bool>, AllocError> {
    let same = match command {
        b"audit" => is_audit_plain(alloc, log)?,
        b"review" if log.entry_count() <= 64 => is_review_plain(alloc, log)?,
        b"check" => return compare_certificate(alloc, log, case),
        _ => return Ok(None),
    };
    Ok(Some(same))
}

/// Whether the answer to the certificate of a case equals the plain checker's answer; `None` if the
/// certificate cannot be read.
fn compare_certificate<L: ExerciseLog>(
    alloc: Global,
    log: &L,
    case: &Case,
) -> Result<Option<bool>, AllocError> {
    let Some(bytes) = file_at(case, 2) else {
        return Ok(None);
    };
    let Ok(certificate) = read_certificate(alloc, read_from(bytes, WELL), 1024) else {
        return Ok(None);
    };
    let plain = plain_check(log, &certificate);
    match is_check_same(alloc, log, &certificate, plain, LARGEST_ENTITY) {
        Ok(same) => Ok(Some(same)),
        Err(error) => Err(error),
    }
}
