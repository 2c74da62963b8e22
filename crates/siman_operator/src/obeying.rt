//! The effect of a line of text at a post.

ghost use Rattle.std.specs.Bool.{MatchBool};
ghost use Rattle.std.specs.Prelude.{◌≡◌, Some};
ghost use Rattle.siman_scripts.specs.Command.{command_of};
ghost use Rattle.siman_scripts.specs.declared.command.Command.TheVariants as commands;
ghost use Rattle.siman_scripts.specs.declared.command.StationTask.TheVariants as tasks;
ghost use Rattle.siman_operator.specs.Noting.{telling};
ghost use Rattle.siman_operator.specs.Deeds.{data_of, printed, IsAtSameTime, GoesOn};
ghost use Rattle.siman_operator.specs.Obeying.{rejection_of, reported_as, DoesTask, DoesAsked, SetsClock, Obeys};
ghost use Rattle.siman_operator.specs.Posts.{is_unrecorded, is_over, no_trouble, worst, TakesLine};
ghost use Rattle.siman_operator.specs.Turns.{TakesTurns};

use crate::clock::ClockSource;
use crate::post::Post;
use crate::turns::Trouble;
use dis_records::Address;
use siman_lines::{AtLineFault, Line};
use siman_scripts::{Command, StationTask, read_command};
use siman_stations::StationFault;
use std::alloc::Global;
use std::io::Write;

/// Why a post did not do what a line asks for.
#[derive(Clone, Copy, Debug, PartialEq, Eq)]
pub enum Rejection {
    /// The line has no valid form.
    BadLine,
    /// It names another station.
    UnknownStation,
    /// It sets the clock, which is the system's.
    SystemClock,
    /// The station refuses it, and is unchanged.
    Station(StationFault),
    /// A call of the link failed.
    Line,
    /// An entry was not recorded, and no further one will be.
    Record,
    /// Memory ran out.
    Memory,
}

/// Result of a line of text.
#[derive(Clone, Copy)]
pub struct LineResult {
    /// Whether the line was done, or why not.
    pub done: Result<(), Rejection>,
    /// What failed in the turns after it. There are no turns if an entry was not recorded before.
    pub trouble: Trouble,
}

impl LineResult {
    /// Whether an entry was not recorded, so that no further line is to be taken.
    pub fn is_over(self) -> bool
        ensures { result ≡ is_over self }
    {
        self.done == Err(Rejection::Record) || self.trouble.recorder
    }

    /// Exit status of the line: 3 if memory ran out, else 2 if anything failed or was not done,
    /// else 0.
    pub fn status(self) -> u8
        ensures { result ≡ worst self }
    {
        if self.done == Err(Rejection::Memory) || self.trouble.memory {
            return 3;
        }
        let trouble = self.trouble.line || self.trouble.recorder;
        if self.done.is_err() || trouble { 2 } else { 0 }
    }
}

/// Whether an entry was not recorded.
fn is_unrecorded(done: Result<(), Rejection>) -> bool
    ensures { result ≡ is_unrecorded done }
{
    matches!(done, Err(Rejection::Record))
}

/// Reason of a fault at a station.
fn rejection_of(fault: AtLineFault) -> Rejection
    ensures { result ≡ rejection_of fault }
{
    match fault {
        AtLineFault::Station(fault) => Rejection::Station(fault),
        AtLineFault::Line => Rejection::Line,
        AtLineFault::Record(_) => Rejection::Record,
        AtLineFault::Memory => Rejection::Memory,
    }
}

/// Result of a call at a station, with the reason of its fault.
fn reported_as(done: Result<(), AtLineFault>) -> Result<(), Rejection>
    ensures { result ≡ reported_as done }
{
    match done {
        Ok(()) => Ok(()),
        Err(fault) => Err(rejection_of(fault)),
    }
}

impl<'s, L: Line + Drop, W: Write> Post<'s, L, W> {
    /// Makes the station do a task, and prints the row of what it recorded.
    fn do_task<O: Write>(
        &mut self,
        alloc: Global,
        out: &mut O,
        task: StationTask,
    ) -> Result<(), AtLineFault>
        ensures ends { DoesTask (telling L.passed) self.old.clock task self.old.station self.old.recorder self.new.station self.new.recorder result }
        ensures time { IsAtSameTime (data_of self.old) (data_of self.new) }
        ensures goes { GoesOn (printed (data_of self.old) (O.contents out.old)) (printed (data_of self.new) (O.contents out.new)) }
    {
        match task {
            StationTask::Order(order) => self.order(alloc, out, order),
            StationTask::Repeat => self.repeat(alloc, out),
            StationTask::Tell(entity) => self.tell(out, entity),
        }
    }

    /// Makes the station do a task, if the line names its address.
    fn do_asked<O: Write>(
        &mut self,
        alloc: Global,
        out: &mut O,
        named: Address,
        task: StationTask,
    ) -> Result<(), Rejection>
        ensures ends { DoesAsked (telling L.passed) self.old.address self.old.clock named task self.old.station self.old.recorder self.new.station self.new.recorder result }
        ensures time { IsAtSameTime (data_of self.old) (data_of self.new) }
        ensures goes { GoesOn (printed (data_of self.old) (O.contents out.old)) (printed (data_of self.new) (O.contents out.new)) }
    {
        if named != self.address() {
            return Err(Rejection::UnknownStation);
        }
        reported_as(self.do_task(alloc, out, task))
    }

    /// Sets the clock to the time that a line says, if lines set it.
    fn obey_at<O: Write>(&mut self, alloc: Global, out: &mut O, now: u64) -> Result<(), Rejection>
        ensures sets { SetsClock self.old.source now self.old.clock self.new.clock result }
        ensures station { self.new.station ≡ self.old.station }
        ensures recorder { self.new.recorder ≡ self.old.recorder }
        ensures address { self.new.address ≡ self.old.address }
        ensures source { self.new.source ≡ self.old.source }
        ensures goes { GoesOn (printed (data_of self.old) (O.contents out.old)) (printed (data_of self.new) (O.contents out.new)) }
    {
        match self.source {
            ClockSource::Lines => {
                self.set_clock(alloc, out, now);
                Ok(())
            }
            ClockSource::System(_) => Err(Rejection::SystemClock),
        }
    }

    /// Serves the station behind what was done, unless an entry was not recorded.
    fn serve_behind<O: Write>(
        &mut self,
        alloc: Global,
        out: &mut O,
        done: Result<(), Rejection>,
    ) -> LineResult
        ensures done { result.done ≡ done }
        ensures serves { MatchBool (is_unrecorded done) ((result.trouble ≡ no_trouble) × (self.new.station ≡ self.old.station) × (self.new.recorder ≡ self.old.recorder)) (TakesTurns (telling L.passed) self.old.clock self.old.station self.old.recorder self.new.station self.new.recorder result.trouble) }
        ensures time { IsAtSameTime (data_of self.old) (data_of self.new) }
        ensures goes { GoesOn (printed (data_of self.old) (O.contents out.old)) (printed (data_of self.new) (O.contents out.new)) }
    {
        if is_unrecorded(done) {
            return LineResult {
                done,
                trouble: Trouble::none(),
            };
        }
        let trouble = self.take_turns(alloc, out);
        LineResult { done, trouble }
    }

    /// Does what a line asks for, given without its line feed: a task of the station, a new time of
    /// its clock, or nothing.
    fn obey<O: Write>(&mut self, alloc: Global, out: &mut O, line: &[u8]) -> Result<(), Rejection>
        ensures ends { Obeys (telling L.passed) self.old.source self.old.address (command_of line.now) self.old.clock self.new.clock self.old.station self.old.recorder self.new.station self.new.recorder result }
        ensures address { self.new.address ≡ self.old.address }
        ensures source { self.new.source ≡ self.old.source }
        ensures goes { GoesOn (printed (data_of self.old) (O.contents out.old)) (printed (data_of self.new) (O.contents out.new)) }
    {
        let command = match read_command(alloc, line) {
            Ok(Some(command)) => command,
            Ok(None) => return Err(Rejection::BadLine),
            Err(_) => return Err(Rejection::Memory),
        };
        match command {
            Command::Nothing => Ok(()),
            Command::At(now) => self.obey_at(alloc, out, now),
            Command::Asks { address, task } => self.do_asked(alloc, out, address, task),
        }
    }

    /// Takes a line of text, without its line feed: does what it asks for, and then serves the
    /// station until a receive finds nothing or fails, with at most 65,536 receives. A line does
    /// nothing, sets the clock (`at`), or asks this station for an order, a repeat or a state, in
    /// the forms of the moves of a script; the station is served after a bad line too. Each entry
    /// is recorded before its datagram is sent, and its row is printed after that. If an entry is
    /// not recorded, nothing more is done, and no further line is to be taken.
    pub fn take_line<O: Write>(&mut self, alloc: Global, out: &mut O, line: &[u8]) -> LineResult
        ensures ends { TakesLine (telling L.passed) (command_of line.now) (data_of self.old) (data_of self.new) result }
        ensures goes { GoesOn (printed (data_of self.old) (O.contents out.old)) (printed (data_of self.new) (O.contents out.new)) }
    {
        let done = self.obey(alloc, out, line);
        self.serve_behind(alloc, out, done)
    }

    /// Ticks by itself: sends the repeat that is due, as a line `tick` does.
    pub(crate) fn take_tick<O: Write>(&mut self, alloc: Global, out: &mut O) -> LineResult
        ensures ends { TakesLine (telling L.passed) (Some (commands.Asks self.old.address tasks.Repeat)) (data_of self.old) (data_of self.new) result }
        ensures goes { GoesOn (printed (data_of self.old) (O.contents out.old)) (printed (data_of self.new) (O.contents out.new)) }
    {
        let own = self.address();
        let done = self.do_asked(alloc, out, own, StationTask::Repeat);
        self.serve_behind(alloc, out, done)
    }
}
