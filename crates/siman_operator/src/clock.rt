//! The clock of a session: what sets it, when it ticks by itself, and how long it waits.

ghost use Rattle.std.specs.Prelude.{◌≡◌, ◌&&◌};
ghost use Rattle.siman_manager.specs.Viewed.{viewed};
ghost use Rattle.siman_operator.specs.Clocks.{clock_at, is_system, has_due, is_waiting, due_time_of, due_time, earlier, next_due, wait_end, wait_by, source_by, unit_by};

use siman_lines::Moment;
use siman_manager::{Manager, OrderStatus, OrderView};

/// Microseconds of a second.
const SECOND: u64 = 1_000_000;

/// What sets the clock of a session.
#[derive(Clone, Copy, Debug, PartialEq, Eq)]
pub enum ClockSource {
    /// Lines set it.
    Lines,
    /// It is the system's, in microseconds since 1970; an order is due so many of them after it was
    /// last sent.
    System(u64),
}

/// What the wait of a script's station counts.
#[derive(Clone, Copy, Debug, PartialEq, Eq)]
pub enum WaitUnit {
    /// Units of the clock that lines set.
    AsSaid,
    /// Milliseconds, by the system's clock.
    Milliseconds,
    /// Nothing, since the script does not say it: by the system's clock it is a second.
    OneSecond,
}

impl WaitUnit {
    /// What the wait of a station counts, if the clock is the system's (`by_system`), and if the
    /// script has the station in the short form.
    pub fn of(by_system: bool, is_short: bool) -> WaitUnit
        ensures { result ≡ unit_by by_system is_short }
    {
        if !by_system {
            WaitUnit::AsSaid
        } else if is_short {
            WaitUnit::OneSecond
        } else {
            WaitUnit::Milliseconds
        }
    }

    /// The wait of a station's orders, given that of its script.
    pub(crate) fn wait(self, said: u64) -> u64
        ensures { result ≡ wait_by self said }
    {
        match self {
            WaitUnit::AsSaid => said,
            WaitUnit::Milliseconds => said.saturating_mul(1000),
            WaitUnit::OneSecond => SECOND,
        }
    }
}

impl ClockSource {
    /// The system, if `by_system`, with this wait of orders; otherwise lines.
    pub fn of(by_system: bool, wait: u64) -> ClockSource
        ensures { result ≡ source_by by_system wait }
    {
        if by_system {
            ClockSource::System(wait)
        } else {
            ClockSource::Lines
        }
    }

    /// Whether it is the system's.
    pub(crate) fn is_system(self) -> bool
        ensures { result ≡ is_system self }
    {
        match self {
            ClockSource::Lines => false,
            ClockSource::System(_) => true,
        }
    }

    /// The clock where something is taken, given what the system's clock shows and what the clock
    /// showed before.
    pub(crate) fn at(self, time: u64, before: Moment) -> Moment
        ensures { result ≡ clock_at self time before }
    {
        match self {
            ClockSource::Lines => before,
            ClockSource::System(_) => {
                Moment::absolute(if before.now < time { time } else { before.now })
            }
        }
    }

    /// Whether a session ticks, given what its clock shows, and until when it waits otherwise.
    pub(crate) fn pace(self, manager: &Manager, now: u64) -> Pace
        ensures ticks { result.ticks ≡ (is_system self && has_due manager.now now) }
        ensures until { result.until ≡ wait_end self manager.now }
    {
        match self {
            ClockSource::Lines => Pace {
                ticks: false,
                until: None,
            },
            ClockSource::System(wait) => order_pace(manager, wait, now),
        }
    }
}

/// How a session goes on where no line comes.
#[derive(Clone, Copy, Debug)]
pub(crate) struct Pace {
    /// Whether it ticks at once, since an order is due.
    pub ticks: bool,
    /// Until when it waits otherwise. `None`: for ever.
    pub until: Option<u64>,
}

/// Whether an order waits.
fn is_waiting(status: OrderStatus) -> bool
    ensures { result ≡ is_waiting status }
{
    match status {
        OrderStatus::Waiting(_) => true,
        OrderStatus::Answered | OrderStatus::GivenUp => false,
    }
}

/// Time at which an order is due. `None` if it does not wait, or at no time of 64 bits.
fn due_time_of(wait: u64, order: OrderView<'_>) -> Option<u64>
    ensures { result ≡ due_time_of wait (viewed order.entry) }
{
    if is_waiting(order.status) {
        order.last.checked_add(wait)
    } else {
        None
    }
}

/// Time at which the order at a place is due.
fn due_time(manager: &Manager, wait: u64, place: usize) -> Option<u64>
    ensures { result ≡ due_time manager.now wait place }
{
    match manager.order(place) {
        Some(order) => due_time_of(wait, order),
        None => None,
    }
}

/// The earlier of two times, of which either may be missing.
fn earlier(a: Option<u64>, b: Option<u64>) -> Option<u64>
    ensures { result ≡ earlier a b }
{
    match (a, b) {
        (None, b) => b,
        (Some(a), None) => Some(a),
        (Some(a), Some(b)) => Some(if a < b { a } else { b }),
    }
}

/// Whether an order is due now, and the time at which the next one is, `wait` after it was sent. It
/// looks at each order once.
#[tactic(auto, unfolding(crate::specs::Clocks::has_due))]
fn order_pace(manager: &Manager, wait: u64, now: u64) -> Pace
    ensures ticks { result.ticks ≡ has_due manager.now now }
    ensures until { result.until ≡ next_due manager.now wait }
{
    let mut ticks = false;
    let mut until = None;
    for place in 0..manager.order_count() {
        until = earlier(until, due_time(manager, wait, place));
        if manager.is_due(place, now) {
            ticks = true;
        }
    }
    Pace { ticks, until }
}
