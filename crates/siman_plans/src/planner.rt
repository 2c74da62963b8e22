//! A plan as it is made, line by line.

ghost use Rattle.std.specs.Prelude.{◌≡◌, IfOk};
ghost use Rattle.siman_stations.specs.World.{WorldData};
ghost use Rattle.siman_plans.specs.Plan.{PlanData, move_at, made, brings, loses, does_after, line_after, lines_after};
ghost use Rattle.siman_plans.specs.SoFar.{refused_as, IsSoFar, Leaves, LeavesAll};

use crate::notes::Notes;
use crate::plan_fault::{LineFault, Refusal, Stop, Unnamed};
use crate::plan_move::{completed, deed_before, last_told, make_move, plain_line};
use crate::source::{SourceLine, SourceMove, Which};
use siman_scripts::{Act, Move};
use siman_stations::{StepFault, World};
use std::alloc::Global;

/// A plan after some lines: the world of its stations, and the notes.
#[derive(Drop)]
pub(crate) struct Planner {
    pub world: World,
    pub notes: Notes,
}

/// The fault of a line in which a word names nothing.
fn unnamed(line: usize, column: usize, why: Unnamed) -> LineFault
    ensures { result ≡ LineFault.Stop (Stop.Unnamed line column why) }
{
    LineFault::Stop(Stop::Unnamed { line, column, why })
}

impl Planner {
    /// The fault of a line whose move was not made.
    fn refused(&self, line: usize, fault: StepFault) -> LineFault
        ensures { result ≡ refused_as line self.now.notes.made fault }
    {
        match fault {
            StepFault::Move(fault) => LineFault::Stop(Stop::Refused(Refusal {
                line,
                number: self.notes.made(),
                fault,
            })),
            StepFault::Memory => LineFault::Memory,
        }
    }

    /// Makes the move of a line, and notes what it did.
    fn make(
        &mut self,
        alloc: Global,
        line: usize,
        is_labelled: bool,
        station: u16,
        act: Act,
    ) -> Result<(), LineFault>
        requires { (w : WorldData) × (d : PlanData) × IsSoFar w d self.old }
        ensures { (w : WorldData) → (d : PlanData) → IsSoFar w d self.old → Leaves w d (made w line is_labelled (move_at d.notes station act) d) result self.new }
    {
        let text = plain_line(alloc, self.world.recording(), station, &act)?;
        let label = self.notes.label_of(is_labelled);
        let did = deed_before(&act, station, self.world.sent_count() as u32, label);
        let now = self.notes.clock();
        match make_move(alloc, &mut self.world, Move { now, station, act }) {
            Ok(sends) => {
                let did = completed(did, sends, last_told(self.world.recording()));
                self.notes
                    .note(alloc, line, is_labelled, sends, did, &text)?;
                Ok(())
            }
            Err(fault) => Err(self.refused(line, fault)),
        }
    }

    /// Delivers a datagram to a station, or to that to which it was delivered last.
    fn bring(
        &mut self,
        alloc: Global,
        line: usize,
        column: usize,
        which: Which,
        to: Option<u16>,
    ) -> Result<(), LineFault>
        requires { (w : WorldData) × (d : PlanData) × IsSoFar w d self.old }
        ensures { (w : WorldData) → (d : PlanData) → IsSoFar w d self.old → Leaves w d (brings w line column which to d) result self.new }
    {
        let number = match self.notes.named(which) {
            Ok(number) => number,
            Err(why) => return Err(unnamed(line, column, why)),
        };
        match self.notes.place_of(number, to) {
            Ok(station) => self.make(alloc, line, false, station, Act::Deliver(number)),
            Err(why) => Err(unnamed(line, column, why)),
        }
    }

    /// Notes that a datagram is meant to reach nobody.
    fn lose(&mut self, line: usize, column: usize, which: Which) -> Result<(), LineFault>
        ensures { (w : WorldData) → (d : PlanData) → IsSoFar w d self.old → Leaves w d (loses line column which d) result self.new }
    {
        let number = match self.notes.named(which) {
            Ok(number) => number,
            Err(why) => return Err(unnamed(line, column, why)),
        };
        match self.notes.sent_before(number) {
            Ok(number) => {
                self.notes.lose(line, number)?;
                Ok(())
            }
            Err(why) => Err(unnamed(line, column, why)),
        }
    }

    /// Sets the clocks.
    fn set_clock(&mut self, line: usize, now: u64) -> Result<(), LineFault>
        ensures { (w : WorldData) → (d : PlanData) → IsSoFar w d self.old → Leaves w d (does_after w line 1 (SourceMove.At now) d) result self.new }
    {
        self.notes.set_clock(line, now)?;
        Ok(())
    }

    /// Does a line.
    fn take(&mut self, alloc: Global, line: SourceLine) -> Result<(), LineFault>
        requires { (w : WorldData) × (d : PlanData) × IsSoFar w d self.old }
        ensures { (w : WorldData) → (d : PlanData) → IsSoFar w d self.old → Leaves w d (line_after w line d) result self.new }
    {
        let SourceLine { line, column, does } = line;
        match does {
            SourceMove::At(now) => self.set_clock(line, now),
            SourceMove::Acts {
                station,
                act,
                is_labelled,
            } => self.make(alloc, line, is_labelled, station, act),
            SourceMove::Brings { which, to } => self.bring(alloc, line, column, which, to),
            SourceMove::Loses(which) => self.lose(line, column, which),
        }
    }

    /// Does lines in their order, as far as the first that stops the plan.
    pub fn run(&mut self, alloc: Global, lines: Vec<SourceLine>) -> Result<(), LineFault>
        requires { (w : WorldData) × (d : PlanData) × IsSoFar w d self.old }
        ensures { (w : WorldData) → (d : PlanData) → IsSoFar w d self.old → LeavesAll w (lines_after w d lines.items) result self.new }
    {
        for line in lines {
            if let Err(fault) = self.take(alloc, line) {
                return Err(fault);
            }
        }
        Ok(())
    }
}
