//! Calls that take memory, each with the inputs of a worked example: their outcome, and, if memory
//! ran out, their outcome when they are made again. Those of the crates below the commands are in
//! `siman_refusals`.
//!
//! With ample memory each line ends with `usual`. `tools/hostile.py` runs it with each allocation
//! refused in turn; then a line may also end with `memory, then usual`, with `send, then usual` if
//! the link in memory had no room, or with `not begun` if the inputs of the call could not be made.

pub(crate) mod files;
mod reasons;
mod reviews;
mod scripts;

use crate::refusals::files::Judging;
use crate::refusals::reasons::{Asking, AskingOfSteps};
use crate::refusals::reviews::{WritingReview, make_streams};
use crate::refusals::scripts::{Performing, Trying};
use siman_refusals::{
    ReadingScript, ReadingSource, RunningWorld, SayingPlan, put_library_calls, result_of, room,
};
use std::alloc::Global;
use std::io;
use std::io::Write;

/// Names of the calls, in order.
static CALLS: [&str; 10] = [
    "check_files",
    "review",
    "why",
    "why of a certificate",
    "read_script",
    "run_world",
    "reason_of_source",
    "say_plan",
    "perform",
    "trial",
];

/// Makes each call, and prints its outcome.
pub(crate) fn put_calls<W: Write>(alloc: Global, out: &mut W) -> io::Result<()> {
    put_library_calls(alloc, out)?;
    let told = [
        result_of::<Judging, _>(alloc, room(alloc)),
        result_of::<WritingReview, _>(alloc, make_streams(alloc)),
        result_of::<Asking, _>(alloc, make_streams(alloc)),
        result_of::<AskingOfSteps, _>(alloc, make_streams(alloc)),
        result_of::<ReadingScript, _>(alloc, Ok(())),
        result_of::<RunningWorld, _>(alloc, Ok(())),
        result_of::<ReadingSource, _>(alloc, Ok(())),
        result_of::<SayingPlan, _>(alloc, Ok(())),
        result_of::<Performing, _>(alloc, room(alloc)),
        result_of::<Trying, _>(alloc, room(alloc)),
    ];
    for place in 0..10usize {
        writeln!(out, "{}: {}", CALLS[place], told[place])?;
    }
    Ok(())
}
