//! Calls that make a recording of a capture, and join the parts of a log.

use crate::call::{LibraryCall, Said, refused, usual};
use crate::pieces::to_add;
use crate::recordings::station;
use dis_records::{EntityState, SiteApplication};
use exercise_findings::{Findings, StatesBefore};
use exercise_model::{ExerciseLog, Recording};
use exercise_recording::{
    FormWord, Import, ImportFault, JoinFault, Joining, PacketRule, RecordingFault, import_log,
};
use packet_captures::{Capture, Host};
use std::alloc::{AllocError, Global};

/// A capture on the host of 1:1, 10.77.0.1, in little-endian pcap of IPv4 alone: a Create of 1:1 for
/// 2:3:7, in two fragments.
const CAPTURE: [u8; 132] = [
    212, 195, 178, 161, 2, 0, 4, 0, 0, 0, 0, 0, 0, 0, 0, 0, 255, 255, 0, 0, 228, 0, 0, 0, 1, 0, 0,
    0, 2, 0, 0, 0, 44, 0, 0, 0, 44, 0, 0, 0, 69, 0, 0, 44, 0, 9, 32, 0, 64, 17, 0, 0, 10, 77, 0, 1,
    10, 77, 0, 3, 11, 184, 11, 184, 0, 36, 0, 0, 7, 1, 11, 5, 0, 0, 0, 0, 0, 28, 0, 0, 0, 1, 0, 1,
    1, 0, 0, 0, 3, 0, 0, 0, 32, 0, 0, 0, 32, 0, 0, 0, 69, 0, 0, 32, 0, 9, 0, 3, 64, 17, 0, 0, 10,
    77, 0, 1, 10, 77, 0, 3, 0, 0, 0, 2, 0, 3, 0, 7, 0, 0, 0, 1,
];

/// The open recording of 1:1 that it gives.
const SENT: [u8; 64] = [
    68, 83, 82, 67, 48, 48, 48, 50, 1, 1, 0, 1, 0, 1, 0, 1, 0, 0, 1, 0, 0, 0, 0, 0, 0, 0, 15, 66,
    67, 0, 28, 7, 1, 11, 5, 0, 0, 0, 0, 0, 28, 0, 0, 0, 1, 0, 1, 0, 0, 0, 2, 0, 3, 0, 7, 0, 0, 0,
    1, 0, 0, 0, 0, 1,
];

/// The rule of 1:1 at 10.77.0.1.
const RULE: PacketRule = PacketRule {
    host: Host::V4(0x0A4D_0001),
    port: 3000,
    exercise: 1,
    address: SiteApplication {
        site: 1,
        application: 1,
    },
    keeps_cut: false,
    is_shared: false,
    hears_itself: false,
};

/// Reads the capture, and makes the recording.
pub(crate) struct Importing;

/// What is made of the capture.
fn imported(alloc: Global) -> Result<Import, ImportFault> {
    let Ok(station) = station(alloc, 1, 1) else {
        return Err(ImportFault::Memory);
    };
    match Capture::new(alloc, CAPTURE.as_slice(), None) {
        Ok(mut capture) => import_log(alloc, &RULE, 1000, &station, &mut capture),
        Err(_) => Err(ImportFault::Memory),
    }
}

impl LibraryCall<()> for Importing {
    fn make(alloc: Global, _lent: &mut ()) -> Said {
        match imported(alloc) {
            Ok(made) => usual(made.bytes.as_slice() == SENT.as_slice() && made.counts.sent == 1),
            Err(fault) => refused(fault == ImportFault::Memory),
        }
    }
}

/// A later part of the log of 2:3, open, without entries: it opens with entity 7, which is stopped.
const LATER: [u8; 26] = [
    68, 83, 82, 67, 48, 48, 48, 50, 1, 1, 0, 1, 0, 2, 0, 3, 0, 1, 0, 7, 1, 0, 0, 0, 0, 0,
];

/// Joins the log of 2:3 and a later part of it.
pub(crate) struct EndingParts;

/// Whether the one opening list of a later part is that of [`LATER`], behind two entries.
fn is_behind_two(joining: Joining, alloc: Global) -> Said {
    match joining.end(alloc, 1000) {
        Ok(joint) => match joint.later() {
            [later] => usual(
                later.piece() == 1
                    && later.entry() == 2
                    && later.opening() == [(7, EntityState::Stopped)].as_slice(),
            ),
            _ => Said::Otherwise,
        },
        Err(fault) => refused(fault == JoinFault::Memory),
    }
}

impl LibraryCall<()> for EndingParts {
    fn make(alloc: Global, _lent: &mut ()) -> Said {
        let mut joining = match to_add(Joining::of_parts(alloc, FormWord::Unsaid), alloc) {
            Ok(joining) => joining,
            Err(_) => return Said::Memory,
        };
        match joining.add(alloc, LATER.as_slice(), 1000) {
            Ok(()) => is_behind_two(joining, alloc),
            Err(JoinFault::Recording(RecordingFault::Memory) | JoinFault::Memory) => Said::Memory,
            Err(_) => Said::Otherwise,
        }
    }
}

/// Finds the states of entities before one entry after the other.
pub(crate) struct FollowingStates;

/// Whether station 1 has no entity before the entry in which it answers the creation, and entity 7
/// behind it, stopped; also where the earlier entry is looked at once more.
fn are_states(alloc: Global, log: &Recording) -> Result<bool, AllocError> {
    if log.entry_count() < 4 || log.station_count() < 2 {
        return Ok(false);
    }
    let findings = Findings::of(alloc, log)?;
    let states = StatesBefore::start(alloc, &findings)?.at(alloc, 2)?;
    let none = states.entities(alloc, 1)?;
    let states = states.at(alloc, 3)?;
    let created = states.entities(alloc, 1)?;
    let states = states.at(alloc, 2)?;
    let again = states.entities(alloc, 1)?;
    let is_created = created.as_slice() == [(7, EntityState::Stopped)].as_slice();
    Ok(none.is_empty() && again.is_empty() && is_created)
}

impl LibraryCall<Recording> for FollowingStates {
    fn make(alloc: Global, log: &mut Recording) -> Said {
        match are_states(alloc, log) {
            Ok(hold) => usual(hold),
            Err(_) => Said::Memory,
        }
    }
}
