//! Calls that read, convert, check and search recordings and certificates.

use crate::call::{LibraryCall, Said, refused, usual};
use dis_records::{Address, EntityState};
use exercise_audit::{Audit, Explanation, LongestRun, audit, explanation_of, longest_run};
use exercise_check::{
    Certificate, CertificateFault, CheckFault, Checked, NO_LINK, Step, check, fetch_certificate,
    read_certificate,
};
use exercise_findings::Findings;
use exercise_model::{EntryView, ExerciseLog, LogEntry, LogFault, Recording, Stamps, Station};
use exercise_recording::{ConvertFault, RecordingFault, RecordingView, convert, read_recording};
use std::alloc::{AllocError, Global};
use std::io;
use std::io::ErrorKind;

/// A Create Entity of 1:1 for 2:3:7, with request identifier 1.
pub(crate) const CREATE: [u8; 28] = [
    7, 1, 11, 5, 0, 0, 0, 0, 0, 28, 0, 0, 0, 1, 0, 1, 0, 0, 0, 2, 0, 3, 0, 7, 0, 0, 0, 1,
];

/// Its answer: able.
pub(crate) const ABLE: [u8; 32] = [
    7, 1, 15, 5, 0, 0, 0, 0, 0, 32, 0, 0, 0, 2, 0, 3, 0, 7, 0, 1, 0, 1, 0, 0, 0, 1, 0, 1, 0, 0, 0,
    1,
];

/// The file of a recording of that creation, at 1:1 and 2:3, with the entries in order of time.
pub const RECORDING: [u8; 200] = [
    68, 83, 82, 67, 48, 48, 48, 49, 1, 0, 2, 0, 1, 0, 1, 0, 0, 0, 2, 0, 3, 0, 0, 1, 0, 0, 0, 0, 0,
    0, 0, 0, 0, 0, 0, 28, 7, 1, 11, 5, 0, 0, 0, 0, 0, 28, 0, 0, 0, 1, 0, 1, 0, 0, 0, 2, 0, 3, 0, 7,
    0, 0, 0, 1, 2, 0, 1, 0, 0, 0, 0, 0, 0, 0, 0, 0, 28, 7, 1, 11, 5, 0, 0, 0, 0, 0, 28, 0, 0, 0, 1,
    0, 1, 0, 0, 0, 2, 0, 3, 0, 7, 0, 0, 0, 1, 1, 0, 1, 0, 0, 0, 0, 0, 0, 0, 0, 0, 32, 7, 1, 15, 5,
    0, 0, 0, 0, 0, 32, 0, 0, 0, 2, 0, 3, 0, 7, 0, 1, 0, 1, 0, 0, 0, 1, 0, 1, 0, 0, 0, 1, 2, 0, 0,
    0, 0, 0, 0, 0, 0, 0, 0, 0, 32, 7, 1, 15, 5, 0, 0, 0, 0, 0, 32, 0, 0, 0, 2, 0, 3, 0, 7, 0, 1, 0,
    1, 0, 0, 0, 1, 0, 1, 0, 0, 0, 1, 0, 0, 0, 0, 4,
];

/// A recording with those entries in which the log of 2:3 is first.
pub(crate) const APART: [u8; 200] = [
    68, 83, 82, 67, 48, 48, 48, 49, 1, 0, 2, 0, 1, 0, 1, 0, 0, 0, 2, 0, 3, 0, 0, 2, 0, 1, 0, 0, 0,
    0, 0, 0, 0, 0, 0, 28, 7, 1, 11, 5, 0, 0, 0, 0, 0, 28, 0, 0, 0, 1, 0, 1, 0, 0, 0, 2, 0, 3, 0, 7,
    0, 0, 0, 1, 1, 0, 1, 0, 0, 0, 0, 0, 0, 0, 0, 0, 32, 7, 1, 15, 5, 0, 0, 0, 0, 0, 32, 0, 0, 0, 2,
    0, 3, 0, 7, 0, 1, 0, 1, 0, 0, 0, 1, 0, 1, 0, 0, 0, 1, 1, 0, 0, 0, 0, 0, 0, 0, 0, 0, 0, 0, 28,
    7, 1, 11, 5, 0, 0, 0, 0, 0, 28, 0, 0, 0, 1, 0, 1, 0, 0, 0, 2, 0, 3, 0, 7, 0, 0, 0, 1, 2, 0, 0,
    0, 0, 0, 0, 0, 0, 0, 0, 0, 32, 7, 1, 15, 5, 0, 0, 0, 0, 0, 32, 0, 0, 0, 2, 0, 3, 0, 7, 0, 1, 0,
    1, 0, 0, 0, 1, 0, 1, 0, 0, 0, 1, 0, 0, 0, 0, 4,
];

/// The certificate of the sequence [`FOUND`].
const STEPS: [u8; 44] = [
    68, 83, 67, 84, 48, 48, 48, 49, 0, 0, 0, 4, 0, 0, 0, 2, 255, 255, 255, 255, 0, 0, 0, 0, 0, 0,
    0, 2, 0, 0, 0, 1, 0, 0, 0, 0, 0, 0, 0, 3, 0, 0, 0, 1,
];

/// The only sequence that explains [`APART`].
pub(crate) const FOUND: [Step; 4] = [
    Step {
        place: 2,
        link: NO_LINK,
    },
    Step { place: 0, link: 2 },
    Step { place: 1, link: 0 },
    Step { place: 3, link: 1 },
];

/// The only sequence that explains [`RECORDING`].
const TAKEN: [Step; 4] = [
    Step {
        place: 0,
        link: NO_LINK,
    },
    Step { place: 1, link: 0 },
    Step { place: 2, link: 1 },
    Step { place: 3, link: 2 },
];

/// The error of an input that could not be made.
pub(crate) fn unmade() -> io::Error {
    io::Error::from(ErrorKind::Other)
}

/// A station without entities.
pub(crate) fn station(alloc: Global, site: u16, application: u16) -> io::Result<Station> {
    let Some(address) = Address::new(site, application) else {
        return Err(unmade());
    };
    match Station::new(address, Vec::new(alloc)) {
        Some(station) => Ok(station),
        None => Err(unmade()),
    }
}

/// Room for 1,024 bytes of output.
pub fn room(alloc: Global) -> io::Result<Vec<u8>> {
    Ok(Vec::with_capacity(alloc, 1024)?)
}

/// The recording of a file, as the input of a call.
pub(crate) fn recording_of(alloc: Global, file: &[u8]) -> io::Result<Recording> {
    match read_recording(alloc, file, 1000) {
        Ok(log) => Ok(log),
        Err(_) => Err(unmade()),
    }
}

/// Whether a log is that of the creation in [`RECORDING`].
fn is_creation<L: ExerciseLog>(log: &L) -> bool {
    let sent = EntryView::Sent {
        station: 1,
        stamp: 0,
        bytes: &ABLE,
    };
    log.entry_count() == 4 && log.entry(2) == sent
}

/// Reads a recording.
pub(crate) struct Reading;

impl LibraryCall<()> for Reading {
    fn make(alloc: Global, _lent: &mut ()) -> Said {
        match read_recording(alloc, RECORDING.as_slice(), 1000) {
            Ok(log) => usual(is_creation(&log)),
            Err(fault) => refused(fault == RecordingFault::Memory),
        }
    }
}

/// Views a recording in place.
pub(crate) struct Seeing;

impl LibraryCall<()> for Seeing {
    fn make(alloc: Global, _lent: &mut ()) -> Said {
        match RecordingView::over(alloc, &RECORDING) {
            Ok(log) => usual(is_creation(&log)),
            Err(fault) => refused(fault == RecordingFault::Memory),
        }
    }
}

/// Pushes an entry.
pub(crate) struct Pushing;

impl LibraryCall<Recording> for Pushing {
    fn make(_alloc: Global, log: &mut Recording) -> Said {
        let entry = LogEntry::Told {
            station: 1,
            entity: 7,
            state: EntityState::Stopped,
        };
        match log.push(entry) {
            Ok(()) => usual(log.entry_count() == 5),
            Err(fault) => refused(fault == LogFault::Memory && is_creation(log)),
        }
    }
}

/// Checks a certificate.
pub(crate) struct Checking;

/// The recording of a creation, and its certificate.
pub(crate) fn to_check(alloc: Global) -> io::Result<(Recording, Certificate)> {
    let steps = Vec::from_slice(alloc, &TAKEN)?;
    Ok((recording_of(alloc, &RECORDING)?, Certificate { steps }))
}

/// Whether a yes has the states, links and counts of the creation.
fn is_created(checked: &Checked) -> bool {
    let states = checked.states(1) == [(7, EntityState::Stopped)].as_slice();
    let entries = checked.pair(2) == Some(1) && checked.cause(3) == Some(2);
    states && entries && checked.others() == 0
}

impl LibraryCall<(Recording, Certificate)> for Checking {
    fn make(alloc: Global, lent: &mut (Recording, Certificate)) -> Said {
        let (log, certificate) = lent;
        match check(alloc, log, certificate) {
            Ok(checked) => usual(is_created(&checked)),
            Err(fault) => refused(fault == CheckFault::Memory && is_creation(log)),
        }
    }
}

/// Searches for a sequence.
pub(crate) struct Searching;

impl LibraryCall<Recording> for Searching {
    fn make(alloc: Global, log: &mut Recording) -> Said {
        match audit(alloc, log) {
            Ok(Audit::Explained(found)) => usual(found.steps.as_slice() == FOUND.as_slice()),
            Ok(Audit::Blocked(_)) => Said::Otherwise,
            Err(_) => Said::Memory,
        }
    }
}

/// Finds the longest run.
pub(crate) struct FindingLongest;

impl LibraryCall<Recording> for FindingLongest {
    fn make(alloc: Global, log: &mut Recording) -> Said {
        match longest_run(alloc, log) {
            Ok(
                LongestRun {
                    certificate,
                    blocks,
                },
            ) => usual(certificate.steps.as_slice() == FOUND.as_slice() && blocks.is_empty()),
            Err(_) => refused(log.entry_count() == 4),
        }
    }
}

/// Makes the table of stamps.
pub(crate) struct Stamping;

/// The recording [`APART`], with the stamp 7 at its entry 1.
pub(crate) fn stamped(alloc: Global) -> io::Result<Recording> {
    let mut file = APART;
    file[74] = 7;
    recording_of(alloc, &file)
}

impl LibraryCall<Recording> for Stamping {
    fn make(alloc: Global, log: &mut Recording) -> Said {
        match Stamps::of(alloc, log) {
            Ok(stamps) => usual(stamps.at(0) == 0 && stamps.at(1) == 7 && stamps.at(2) == 0),
            Err(_) => refused(log.entry_count() == 4),
        }
    }
}

/// Decides whether a sequence explains a recording.
pub(crate) struct Explaining;

/// Whether a sequence explains a log.
fn is_explained(alloc: Global, log: &Recording) -> Result<bool, AllocError> {
    let Explanation { is_explained, .. } = explanation_of(alloc, Findings::of(alloc, log)?)?;
    Ok(is_explained)
}

impl LibraryCall<Recording> for Explaining {
    fn make(alloc: Global, log: &mut Recording) -> Said {
        match is_explained(alloc, log) {
            Ok(explained) => usual(explained),
            Err(_) => refused(log.entry_count() == 4),
        }
    }
}

/// Reads a certificate.
pub(crate) struct ReadingSteps;

impl LibraryCall<()> for ReadingSteps {
    fn make(alloc: Global, _lent: &mut ()) -> Said {
        steps_said(read_certificate(alloc, STEPS.as_slice(), 4))
    }
}

/// Fetches all bytes of a reader, and reads a certificate from them.
pub(crate) struct FetchingSteps;

impl LibraryCall<()> for FetchingSteps {
    fn make(alloc: Global, _lent: &mut ()) -> Said {
        steps_said(fetch_certificate(alloc, STEPS.as_slice(), 4))
    }
}

/// Outcome of reading the certificate.
fn steps_said(read: Result<Certificate, CertificateFault>) -> Said {
    match read {
        Ok(read) => usual(read.steps.as_slice() == FOUND.as_slice()),
        Err(fault) => refused(fault == CertificateFault::Memory),
    }
}

/// Converts a recording to the second format, and writes it.
pub(crate) struct Carrying;

/// Whether a file is that of this recording of the first format, converted to the second one,
/// closed.
pub(crate) fn is_carried(file: &[u8], recording: &[u8]) -> bool {
    match file.strip_prefix(b"DSRC0002\x01\x00") {
        Some(rest) => recording.strip_prefix(b"DSRC0001\x01") == Some(rest),
        None => false,
    }
}

impl LibraryCall<Vec<u8>> for Carrying {
    fn make(alloc: Global, out: &mut Vec<u8>) -> Said {
        match convert(alloc, RECORDING.as_slice(), 1000, out) {
            Ok(entries) => usual(entries == 4 && is_carried(out, &RECORDING)),
            Err(fault) => refused(fault == ConvertFault::Memory && out.is_empty()),
        }
    }
}
