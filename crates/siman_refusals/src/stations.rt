//! Calls of stations that serve, issue and nudge at a link in memory.

use crate::call::{LibraryCall, Said, refused, usual};
use crate::machines::{creation, ordered};
use crate::recordings::{ABLE, CREATE, room, station, unmade};
use dis_records::EntityState;
use exercise_model::Station;
use exercise_recording::RecordingWriter;
use siman_application::Application;
use siman_lines::{IssueFault, MemoryLine, ServeFault, Served, issue, nudge, serve};
use siman_manager::{Manager, OrderFault, OrderStatus};
use siman_stations::Node;
use siman_trials::entries_of;
use std::alloc::Global;
use std::io::Write;
use std::{io, slice};

/// An action of a station.
#[derive(Clone, Copy)]
pub(crate) enum StationAction {
    /// Serves its link for this many turns.
    Serve(u32),
    /// Issues a creation.
    Issue,
    /// Sends the repeat that is due at this time.
    Nudge(u64),
}

/// Result of an action.
#[derive(Drop)]
pub(crate) enum ActionResult {
    /// Success, with the number of datagrams taken and answered, the identifier of the order
    /// issued, or the number of repeats sent.
    Done(u32),
    /// Memory ran out before the order was made.
    Unmade,
    Memory,
    Send,
    Otherwise,
}

fn came_of(fault: IssueFault) -> ActionResult {
    match fault {
        IssueFault::Order(OrderFault::Memory) => ActionResult::Unmade,
        IssueFault::Memory => ActionResult::Memory,
        IssueFault::Send => ActionResult::Send,
        _ => ActionResult::Otherwise,
    }
}

/// Makes a station carry out an action at its link.
pub(crate) fn carry_out<W: Write>(
    alloc: Global,
    line: &mut MemoryLine,
    node: &mut Node,
    recorder: &mut RecordingWriter<'_, W>,
    deed: StationAction,
) -> ActionResult {
    match deed {
        StationAction::Serve(turns) => match serve(alloc, line, node, recorder, 0, 0, turns) {
            Ok(
                Served {
                    taken,
                    sent,
                    dropped: 0,
                    idle: false,
                },
            ) if taken == sent => ActionResult::Done(sent),
            Err(ServeFault::Memory) => ActionResult::Memory,
            Err(ServeFault::Send) => ActionResult::Send,
            _ => ActionResult::Otherwise,
        },
        StationAction::Issue => match issue(alloc, line, node, recorder, 0, creation(), 0) {
            Ok(id) => ActionResult::Done(id),
            Err(fault) => came_of(fault),
        },
        StationAction::Nudge(now) => match nudge(alloc, line, node, recorder, 0, now) {
            Ok(due) => ActionResult::Done(u32::from(due)),
            Err(fault) => came_of(fault),
        },
    }
}

/// A station at a link, and the text of its recording.
#[derive(Drop)]
pub(crate) struct RecordedStation {
    pub(crate) station: Station,
    pub(crate) node: Node,
    pub(crate) line: MemoryLine,
    pub(crate) text: Vec<u8>,
    /// The identifier of the next order, or the number of the next sending of the first order.
    next: u8,
}

/// Datagrams of `count` creations, with identifiers from `first` on, `step` apart.
pub(crate) fn creations(
    alloc: Global,
    count: u32,
    first: u32,
    step: u32,
) -> io::Result<Vec<Vec<u8>>> {
    let mut creations = Vec::new(alloc);
    let (mut id, mut bytes) = (first, CREATE);
    for _ in 0..count {
        bytes[24..].copy_from_slice(&id.to_be_bytes());
        creations.push(Vec::from_slice(alloc, &bytes)?)?;
        id = id.wrapping_add(step);
    }
    Ok(creations)
}

impl RecordedStation {
    /// A station without entities and datums, on whose link these datagrams arrive. Its manager has
    /// made no order, and `text` has room for a small recording.
    pub(crate) fn begin(
        alloc: Global,
        site: u16,
        application: u16,
        coming: Vec<Vec<u8>>,
    ) -> io::Result<RecordedStation> {
        let text = room(alloc)?;
        let station = station(alloc, site, application)?;
        match Application::begin(alloc, 1, &station, &[], Vec::new(alloc), &[]) {
            Ok(application) => Ok(RecordedStation {
                node: Node {
                    application,
                    manager: Manager::begin(alloc, 1, station.address(), 1, 3, 10),
                },
                station,
                line: MemoryLine::new(alloc, coming, None),
                text,
                next: 1,
            }),
            Err(_) => Err(unmade()),
        }
    }

    /// Carries out an action, and records it alone.
    fn record(&mut self, alloc: Global, deed: StationAction) -> ActionResult {
        self.text.clear();
        match RecordingWriter::start(&mut self.text, 1, slice::from_ref(&self.station)) {
            Ok(mut recorder) => {
                carry_out(alloc, &mut self.line, &mut self.node, &mut recorder, deed)
            }
            Err(_) => ActionResult::Otherwise,
        }
    }

    /// Whether nothing is on the link, and this many entries are written.
    fn is_silent(&self, entries: usize) -> bool {
        self.line.sent().is_empty() && entries_of(&self.text).count() == entries
    }

    /// [`Said::Send`] if nothing is on the link and this many entries are written.
    fn failed(&self, entries: usize) -> Said {
        if self.is_silent(entries) {
            Said::Send
        } else {
            Said::Otherwise
        }
    }

    /// Whether the last datagram on the link is this one, and all datagrams there are recorded as
    /// sent.
    fn has_sent(&self, datagram: &[u8]) -> bool {
        let is_recorded = entries_of(&self.text).have_all(0, self.line.sent());
        match self.line.sent().last() {
            Some(last) => is_recorded && last.as_slice() == datagram,
            None => false,
        }
    }

    /// Whether the order with this identifier waits after this many sends. Advances `next`.
    fn waits(&mut self, id: u8, sends: u8) -> bool {
        self.next = self.next.saturating_add(1);
        let status = self.node.manager.status(u32::from(id));
        status == Some(OrderStatus::Waiting(u32::from(sends)))
    }
}

/// Serves one datagram.
pub(crate) struct Serving;

/// A station with two copies of a creation on its link.
pub(crate) fn to_serve(alloc: Global) -> io::Result<RecordedStation> {
    RecordedStation::begin(alloc, 2, 3, creations(alloc, 2, 1, 0)?)
}

impl LibraryCall<RecordedStation> for Serving {
    fn make(alloc: Global, recorded: &mut RecordedStation) -> Said {
        match recorded.record(alloc, StationAction::Serve(1)) {
            ActionResult::Done(sent) => {
                let is_created = recorded.node.application.state(7) == EntityState::Stopped;
                usual(sent == 1 && is_created && recorded.has_sent(&ABLE))
            }
            ActionResult::Memory => refused(recorded.is_silent(0) || recorded.is_silent(1)),
            ActionResult::Send => recorded.failed(2),
            _ => Said::Otherwise,
        }
    }
}

/// Issues an order.
pub(crate) struct Issuing;

/// A station with nothing on its link.
pub(crate) fn to_issue(alloc: Global) -> io::Result<RecordedStation> {
    RecordedStation::begin(alloc, 1, 1, Vec::new(alloc))
}

impl LibraryCall<RecordedStation> for Issuing {
    fn make(alloc: Global, recorded: &mut RecordedStation) -> Said {
        let next = recorded.next;
        let mut created = CREATE;
        created[27] = next;
        match recorded.record(alloc, StationAction::Issue) {
            ActionResult::Done(id) => {
                usual(
                    id == u32::from(next) && recorded.waits(next, 1) && recorded.has_sent(&created),
                )
            }
            ActionResult::Unmade => {
                let status = recorded.node.manager.status(u32::from(next));
                refused(status.is_none() && recorded.is_silent(0))
            }
            ActionResult::Memory => refused(recorded.waits(next, 1) && recorded.is_silent(0)),
            ActionResult::Send if recorded.waits(next, 1) => recorded.failed(1),
            _ => Said::Otherwise,
        }
    }
}

/// Repeats an order that is due.
pub(crate) struct Nudging;

/// A station that has sent an order once.
pub(crate) fn to_nudge(alloc: Global) -> io::Result<RecordedStation> {
    let mut recorded = to_issue(alloc)?;
    recorded.next = 2;
    match ordered(&mut recorded.node.manager) {
        Ok(_) => Ok(recorded),
        Err(_) => Err(unmade()),
    }
}

impl LibraryCall<RecordedStation> for Nudging {
    fn make(alloc: Global, recorded: &mut RecordedStation) -> Said {
        let next = recorded.next;
        let now = next.saturating_sub(1).saturating_mul(10);
        let mut repeated = CREATE;
        repeated[7] = now.saturating_mul(2);
        let came = recorded.record(alloc, StationAction::Nudge(u64::from(now)));
        if !recorded.waits(1, next) {
            return Said::Otherwise;
        }
        match came {
            ActionResult::Done(sent) => usual(sent == 1 && recorded.has_sent(&repeated)),
            ActionResult::Memory => refused(recorded.is_silent(0)),
            ActionResult::Send => recorded.failed(1),
            _ => Said::Otherwise,
        }
    }
}
