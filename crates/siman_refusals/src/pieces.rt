//! Calls that join pieces of a recording.

use crate::call::{LibraryCall, Said, refused, usual};
use crate::recordings::{APART, is_carried, room, unmade};
use exercise_model::Form;
use exercise_recording::{FormWord, JoinFault, Joined, Joining, Joint, join};
use std::alloc::Global;
use std::io;

/// The log of 1:1 for the creation, alone.
const MANAGER: [u8; 108] = [
    68, 83, 82, 67, 48, 48, 48, 49, 1, 0, 1, 0, 1, 0, 1, 0, 0, 1, 0, 0, 0, 0, 0, 0, 0, 0, 0, 0, 0,
    28, 7, 1, 11, 5, 0, 0, 0, 0, 0, 28, 0, 0, 0, 1, 0, 1, 0, 0, 0, 2, 0, 3, 0, 7, 0, 0, 0, 1, 2, 0,
    0, 0, 0, 0, 0, 0, 0, 0, 0, 0, 32, 7, 1, 15, 5, 0, 0, 0, 0, 0, 32, 0, 0, 0, 2, 0, 3, 0, 7, 0, 1,
    0, 1, 0, 0, 0, 1, 0, 1, 0, 0, 0, 1, 0, 0, 0, 0, 2,
];

/// The log of 2:3 for the creation, alone.
const SIMULATOR: [u8; 108] = [
    68, 83, 82, 67, 48, 48, 48, 49, 1, 0, 1, 0, 2, 0, 3, 0, 0, 2, 0, 0, 0, 0, 0, 0, 0, 0, 0, 0, 0,
    28, 7, 1, 11, 5, 0, 0, 0, 0, 0, 28, 0, 0, 0, 1, 0, 1, 0, 0, 0, 2, 0, 3, 0, 7, 0, 0, 0, 1, 1, 0,
    0, 0, 0, 0, 0, 0, 0, 0, 0, 0, 32, 7, 1, 15, 5, 0, 0, 0, 0, 0, 32, 0, 0, 0, 2, 0, 3, 0, 7, 0, 1,
    0, 1, 0, 0, 0, 1, 0, 1, 0, 0, 0, 1, 0, 0, 0, 0, 2,
];

/// The result of joining the two.
const TOLD: Joined = Joined {
    pieces: 2,
    stations: 2,
    entries: 4,
    form: Form::Closed,
};

/// Whether a file has both logs in the second format, closed, with that of 2:3 first.
fn is_joined(file: &[u8]) -> bool {
    is_carried(file, &APART)
}

/// Reads both logs, joins them, and writes the recording.
pub(crate) struct Bringing;

/// Readers of both logs.
fn readers(alloc: Global) -> io::Result<Vec<&'static [u8]>> {
    let mut readers: Vec<&'static [u8]> = Vec::with_capacity(alloc, 2)?;
    readers.push(&SIMULATOR)?;
    readers.push(&MANAGER)?;
    Ok(readers)
}

impl LibraryCall<Vec<u8>> for Bringing {
    fn make(alloc: Global, out: &mut Vec<u8>) -> Said {
        let Ok(readers) = readers(alloc) else {
            return refused(out.is_empty());
        };
        match join(alloc, FormWord::Unsaid, readers, 1000, out) {
            Ok(told) => usual(told == TOLD && is_joined(out)),
            Err(fault) => refused(fault == JoinFault::Memory && out.is_empty()),
        }
    }
}

/// Adds a second log to a joining.
pub(crate) struct Adding;

/// A joining of pieces without any.
pub(crate) fn no_pieces(alloc: Global) -> Joining {
    Joining::start(alloc, FormWord::Unsaid)
}

/// A joining with the log of 2:3, given one without pieces.
pub(crate) fn to_add(none: Joining, alloc: Global) -> io::Result<Joining> {
    let mut joining = none;
    match joining.add(alloc, SIMULATOR.as_slice(), 1000) {
        Ok(()) => Ok(joining),
        Err(_) => Err(unmade()),
    }
}

impl LibraryCall<Joining> for Adding {
    fn make(alloc: Global, joining: &mut Joining) -> Said {
        match joining.add(alloc, MANAGER.as_slice(), 1000) {
            Ok(()) => usual(joining.add(alloc, MANAGER.as_slice(), 1000).is_err()),
            Err(fault) => refused(fault == JoinFault::Memory),
        }
    }
}

/// Adds both logs, and ends the joining.
pub(crate) struct EndingJoin;

/// Whether the joined recording is written as expected; true if there was no memory to write it.
fn is_written(alloc: Global, joint: &Joint) -> bool {
    match room(alloc) {
        Ok(mut out) => joint.write(&mut out).is_ok() && is_joined(&out),
        Err(_) => true,
    }
}

impl LibraryCall<()> for EndingJoin {
    fn make(alloc: Global, _lent: &mut ()) -> Said {
        let mut joining = match to_add(no_pieces(alloc), alloc) {
            Ok(joining) => joining,
            Err(_) => return Said::Memory,
        };
        if let Err(fault) = joining.add(alloc, MANAGER.as_slice(), 1000) {
            return refused(fault == JoinFault::Memory);
        }
        match joining.end(alloc, 1000) {
            Ok(joint) => usual(joint.told() == TOLD && is_written(alloc, &joint)),
            Err(fault) => refused(fault == JoinFault::Memory),
        }
    }
}
