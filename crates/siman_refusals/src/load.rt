//! A manager, an application and a station that are called 100,000 times.

use crate::machines::{application, creation_under, manager, ordered};
use crate::recordings::unmade;
use crate::stations::{ActionResult, RecordedStation, StationAction, carry_out, creations};
use exercise_recording::RecordingWriter;
use siman_application::Application;
use siman_lines::MemoryLine;
use siman_manager::Manager;
use siman_stations::Node;
use std::alloc::Global;
use std::io::Write;
use std::{io, slice};

/// Number of calls of each.
const MOST: u32 = 100_000;

/// Number of orders that a manager makes before one is refused.
fn orders(manager: &mut Manager) -> u32 {
    for number in 0..MOST {
        if ordered(manager).is_err() {
            return number;
        }
    }
    MOST
}

/// Whether an application takes and answers a creation with this identifier.
fn is_answered(application: &mut Application, id: u32) -> bool {
    matches!(application.take(&creation_under(id), 0), Ok(Some(_)))
}

/// Number of requests that an application takes and answers before one is refused.
fn requests(application: &mut Application) -> u32 {
    for id in 0..MOST {
        if !is_answered(application, id) {
            return id;
        }
    }
    MOST
}

// Values that are alive where a call may refuse are expensive to prove, so machines are made apart.
fn order_count(alloc: Global) -> io::Result<u32> {
    Ok(orders(&mut manager(alloc)?))
}

fn request_count(alloc: Global) -> io::Result<u32> {
    Ok(requests(&mut application(alloc)?))
}

/// Calls a manager and an application, and prints how many calls succeeded.
pub fn put_halves<W: Write>(alloc: Global, out: &mut W) -> io::Result<()> {
    let (orders, requests) = (order_count(alloc)?, request_count(alloc)?);
    writeln!(out, "orders: {orders}\nrequests: {requests}")
}

/// Number of times that a station does something before it fails or does nothing.
fn times<W: Write>(
    alloc: Global,
    line: &mut MemoryLine,
    node: &mut Node,
    recorder: &mut RecordingWriter<'_, W>,
    deed: StationAction,
) -> u32 {
    for number in 0..MOST {
        match carry_out(alloc, line, node, recorder, deed) {
            ActionResult::Done(done) if done > 0 => {}
            _ => return number,
        }
    }
    MOST
}

/// Number of datagrams that a station answers in one call, of orders that it issues before one is
/// refused, and of repeats that it sends; and number of datagrams on the link after that.
type LoadCounts = (u32, u32, u32, usize);

fn counts(alloc: Global, recorded: &mut RecordedStation) -> io::Result<LoadCounts> {
    let RecordedStation {
        station,
        node,
        line,
        text,
        ..
    } = recorded;
    let Ok(mut recorder) = RecordingWriter::start(text, 1, slice::from_ref(station)) else {
        return Err(unmade());
    };
    let served = match carry_out(alloc, line, node, &mut recorder, StationAction::Serve(MOST)) {
        ActionResult::Done(sent) => sent,
        _ => 0,
    };
    let issued = times(alloc, line, node, &mut recorder, StationAction::Issue);
    let nudged = times(alloc, line, node, &mut recorder, StationAction::Nudge(10));
    Ok((served, issued, nudged, line.sent().len()))
}

fn station_counts(alloc: Global) -> io::Result<LoadCounts> {
    let coming = creations(alloc, MOST, 0, 1)?;
    counts(alloc, &mut RecordedStation::begin(alloc, 2, 3, coming)?)
}

/// Calls a station at its link, and prints how many calls succeeded.
pub fn put_station<W: Write>(alloc: Global, out: &mut W) -> io::Result<()> {
    let (served, issued, nudged, sent) = station_counts(alloc)?;
    writeln!(
        out,
        "served: {served}, issued: {issued}, nudged: {nudged}\non the line: {sent}"
    )
}
