//! Calls of the library that take memory, each with the inputs of a worked example, calls of a
//! manager, an application and a station that are made 100,000 times, and a recording that is
//! filled; `siman_hostile` runs them. It never calls a command, opens a file or uses a socket. The
//! layer above may use no contract of it, only the outcomes that [`put_library_calls`],
//! [`put_full_recording`], [`put_halves`] and [`put_station`] print, and those of [`ReadingScript`],
//! [`ReadingSource`], [`RunningWorld`] and [`SayingPlan`].
#![tactic(auto)]

mod call;
mod captures;
mod conflicts;
mod datagrams;
mod full;
mod load;
mod machines;
mod pictures;
mod pieces;
mod recordings;
mod reviews;
mod scripts;
mod stations;

use crate::captures::{EndingParts, FollowingStates, Importing};
use crate::conflicts::{Contradicting, FindingConflict, FindingRefusal, RING};
use crate::datagrams::{COMMENT, Copying, Decoding, Encoding, Showing, pdu_of, to_encode};
use crate::machines::{Beginning, CREATION, FIXED, Ordering, Taking, VARIABLE, manager, to_take};
use crate::pictures::Drawing;
use crate::pieces::{Adding, Bringing, EndingJoin, no_pieces, to_add};
use crate::recordings::{
    APART, Carrying, Checking, Explaining, FetchingSteps, FindingLongest, Pushing, Reading,
    ReadingSteps, Searching, Seeing, Stamping, recording_of, stamped, station, to_check,
};
use crate::reviews::{Putting, Reviewing, Telling};
use crate::stations::{Issuing, Nudging, Serving, to_issue, to_nudge, to_serve};
pub use call::{LibraryCall, Said, refused, result_of, usual};
pub use full::put_full_recording;
pub use load::{put_halves, put_station};
pub use recordings::{RECORDING, room};
pub use scripts::{ReadingScript, ReadingSource, RunningWorld, SCRIPT, SayingPlan};
use std::alloc::Global;
use std::io;
use std::io::Write;

/// Names of the calls, in order.
static CALLS: [&str; 36] = [
    "decode",
    "encode",
    "to_pdu",
    "copy",
    "read_recording",
    "over",
    "push",
    "check",
    "Stamps::of",
    "audit",
    "longest_run",
    "explanation_of",
    "review_of",
    "Reviewed::of",
    "put_number",
    "draw",
    "lacks_of",
    "conflict_found",
    "refusal_found",
    "read_certificate",
    "fetch_certificate",
    "convert",
    "join",
    "add",
    "end",
    "end, of parts",
    "import_log",
    "entities",
    "begin",
    "take, of fixed datums",
    "take, of variable datums",
    "take, of a creation",
    "request",
    "serve",
    "issue",
    "nudge",
];

/// Outcome of each call, in the order of [`CALLS`].
fn call_outcomes(alloc: Global) -> [&'static str; 36] {
    [
        result_of::<Decoding, _>(alloc, Ok(())),
        result_of::<Encoding, _>(alloc, to_encode(alloc)),
        result_of::<Showing, _>(alloc, Ok(())),
        result_of::<Copying, _>(alloc, pdu_of(alloc, &COMMENT)),
        result_of::<Reading, _>(alloc, Ok(())),
        result_of::<Seeing, _>(alloc, Ok(())),
        result_of::<Pushing, _>(alloc, recording_of(alloc, &RECORDING)),
        result_of::<Checking, _>(alloc, to_check(alloc)),
        result_of::<Stamping, _>(alloc, stamped(alloc)),
        result_of::<Searching, _>(alloc, recording_of(alloc, &APART)),
        result_of::<FindingLongest, _>(alloc, recording_of(alloc, &APART)),
        result_of::<Explaining, _>(alloc, recording_of(alloc, &APART)),
        result_of::<Reviewing, _>(alloc, recording_of(alloc, &APART)),
        result_of::<Telling, _>(alloc, recording_of(alloc, &APART)),
        result_of::<Putting, _>(alloc, Ok(())),
        result_of::<Drawing, _>(alloc, recording_of(alloc, &APART)),
        result_of::<Contradicting, _>(alloc, recording_of(alloc, &RING)),
        result_of::<FindingConflict, _>(alloc, recording_of(alloc, &RING)),
        result_of::<FindingRefusal, _>(alloc, recording_of(alloc, &RING)),
        result_of::<ReadingSteps, _>(alloc, Ok(())),
        result_of::<FetchingSteps, _>(alloc, Ok(())),
        result_of::<Carrying, _>(alloc, room(alloc)),
        result_of::<Bringing, _>(alloc, room(alloc)),
        result_of::<Adding, _>(alloc, to_add(no_pieces(alloc), alloc)),
        result_of::<EndingJoin, _>(alloc, Ok(())),
        result_of::<EndingParts, _>(alloc, Ok(())),
        result_of::<Importing, _>(alloc, Ok(())),
        result_of::<FollowingStates, _>(alloc, recording_of(alloc, &RECORDING)),
        result_of::<Beginning, _>(alloc, station(alloc, 2, 3)),
        result_of::<Taking, _>(alloc, to_take(alloc, FIXED)),
        result_of::<Taking, _>(alloc, to_take(alloc, VARIABLE)),
        result_of::<Taking, _>(alloc, to_take(alloc, CREATION)),
        result_of::<Ordering, _>(alloc, manager(alloc)),
        result_of::<Serving, _>(alloc, to_serve(alloc)),
        result_of::<Issuing, _>(alloc, to_issue(alloc)),
        result_of::<Nudging, _>(alloc, to_nudge(alloc)),
    ]
}

/// Makes each call, and prints its outcome.
pub fn put_library_calls<W: Write>(alloc: Global, out: &mut W) -> io::Result<()> {
    let told = call_outcomes(alloc);
    for place in 0..36 {
        writeln!(out, "{}: {}", CALLS[place], told[place])?;
    }
    Ok(())
}
