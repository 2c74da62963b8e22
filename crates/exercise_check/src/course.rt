//! Takes the entries of a log as steps, each judged by the steps before it.

ghost use Rattle.std.specs.Prelude.{◌≡◌, ◌<◌, ◌==◌, length, slice_index_or, slice_get, IfOk, IfSome, IfNone, OnErr};
ghost use Rattle.exercise_model.specs.Cause.{IsAllowed};
ghost use Rattle.exercise_model.specs.History.{event_of, station_of, log_at, log_of};
ghost use Rattle.exercise_check.specs.Sequence.{is_next};
ghost use Rattle.exercise_findings.specs.Account.{IsAccount};
ghost use Rattle.exercise_findings.specs.Source.{source_of};
ghost use Rattle.exercise_check.specs.Course.{CourseData, IsCourse, begun, so_far, IsNext, GoesOn};
ghost use Rattle.exercise_check.specs.Judging.{Keeps};

use crate::certificate::{Certificate, Step};
use crate::cursors::{Cursors, first_cursors, is_next, next_entry, pass_at};
use crate::judgement::{Judgement, judge};
use crate::number::link_number;
use exercise_findings::{Account, Findings};
use exercise_model::{Cause, ExerciseLog};
use std::alloc::{AllocError, Global};
use std::marker::Model;

/// Good steps taken so far over a log. The search takes its entries with it. Contracts see the
/// recording and the steps; how the next event is judged is private to this crate. One pass over
/// the log at the start finds out everything that a station's log says about its own entries.
#[derive(Drop)]
pub struct Course<'a, L: ExerciseLog> {
    found: Findings<'a, L>,
    steps: Vec<Step>,
    cursors: Cursors,
}

impl<'a, L: ExerciseLog> Model for Course<'a, L> {
    ghost Value = { CourseData };

    ghost view = { λ c. record { recording = c.found; steps = c.steps.items } };

    ghost invariant = { λ c. Keeps c.found c.steps.items c.cursors };
}

/// Result of trying to take an entry.
#[derive(Clone, Copy)]
pub enum Progress {
    /// The entry was taken: its event is allowed. The number is the link of its step, as a
    /// certificate has it.
    Taken(u32),
    /// The event may not happen next; this is the first cause that holds.
    Barred(Cause),
}

impl<'a, L: ExerciseLog> Course<'a, L> {
    /// Starts a course over a log, before its first step.
    pub fn begin(alloc: Global, log: &'a L) -> Result<Course<'a, L>, AllocError>
        ensures { IfOk result (λ course. course ≡ begun (L.recording log.now)) }
    {
        Course::over(alloc, Findings::of(alloc, log)?)
    }

    /// Starts a course, before its first step, with findings that were made before.
    pub fn over(alloc: Global, found: Findings<'a, L>) -> Result<Course<'a, L>, AllocError>
        ensures { IfOk result (λ course. course ≡ begun found.entry) }
    {
        let log = found.log();
        let cursors = first_cursors(alloc, log)?;
        let steps = Vec::with_capacity(alloc, log.entry_count())?;
        Ok(Course {
            found,
            steps,
            cursors,
        })
    }

    /// Number of steps taken; each is good after those before it.
    pub fn len(&self) -> usize
        ensures steps { result ≡ length self.now.steps }
        ensures course { IsCourse self.now }
    {
        self.steps.len()
    }

    /// Whether an entry is its station's next one: the steps have taken exactly the entries of its
    /// station before it.
    pub fn is_next(&self, place: usize) -> bool
        requires { place < length self.now.recording.entries }
        ensures { IfSome (slice_get self.now.recording.entries place) (λ e. result ≡ is_next self.now.recording self.now.steps place (event_of e)) }
    {
        is_next(self.found.log(), &self.cursors, place)
    }

    /// Next entry of a station; `None` if all its entries are taken.
    pub fn next_entry(&self, station: usize) -> Option<usize>
        ensures within { IfSome result (λ place. place < length self.now.recording.entries) }
        ensures own { IfSome result (λ place. IfSome (slice_get self.now.recording.entries place) (λ e. station_of (event_of e) ≡ station)) }
        ensures at { IfSome result (λ place. station < length self.now.recording.setting.stations) }
        ensures next { IfSome result (λ place. IsNext self.now place) }
        ensures done { IfNone result (log_at station (so_far self.now) ≡ log_of self.now.recording station) }
        ensures course { IsCourse self.now }
    {
        next_entry(self.found.log(), &self.cursors, station)
    }

    /// Entry that sent the datagram received in this one, by the logs; see [`Findings::source`].
    pub fn source(&self, place: usize) -> Option<u32>
        ensures { result ≡ source_of self.now.recording place }
    {
        self.found.source(place)
    }

    /// Tries to take the next entry of a station. If its event is allowed after the steps so far,
    /// the entry is taken, with the correct link; otherwise the first cause that holds is returned,
    /// and the course is unchanged. It is also unchanged if there is no memory for the step;
    /// judging the event takes none.
    pub fn go_on_at(
        &mut self,
        alloc: Global,
        station: usize,
        place: usize,
    ) -> Result<Progress, AllocError>
        requires within { place < length self.old.recording.entries }
        requires at { station < length self.old.recording.setting.stations }
        requires own { IfSome (slice_get self.old.recording.entries place) (λ e. station_of (event_of e) ≡ station) }
        requires next { IsNext self.old place }
        ensures judged { IfOk result (λ progress. IfSome (slice_get self.old.recording.entries place) (GoesOn self.old self.new place progress)) }
        ensures course { IfOk result (λ progress. IsCourse self.new) }
        ensures memory { OnErr result (self.new ≡ self.old) }
        // Want of memory is possible only where the event is allowed.
        ensures allowed { OnErr result (IfSome (slice_get self.old.recording.entries place) (λ e. IsAllowed self.old.recording.setting (so_far self.old) (event_of e))) }
    {
        self.found.settle_source(place);
        match judge(&self.found, &self.cursors, place) {
            Judgement::Forbidden(cause) => Ok(Progress::Barred(cause)),
            Judgement::Allowed(link) => {
                let link = link_number(link);
                self.steps.reserve(1)?;
                self.steps.push(Step {
                    place: place as u32,
                    link,
                })?;
                pass_at(&mut self.cursors, self.found.log(), station, place);
                Ok(Progress::Taken(link))
            }
        }
    }

    /// Like [`Course::go_on_at`], with the station read from the log.
    pub fn go_on(&mut self, alloc: Global, place: usize) -> Result<Progress, AllocError>
        requires within { place < length self.old.recording.entries }
        requires next { IsNext self.old place }
        ensures judged { IfOk result (λ progress. IfSome (slice_get self.old.recording.entries place) (GoesOn self.old self.new place progress)) }
        ensures course { IfOk result (λ progress. IsCourse self.new) }
        ensures memory { OnErr result (self.new ≡ self.old) }
        // Want of memory is possible only where the event is allowed.
        ensures allowed { OnErr result (IfSome (slice_get self.old.recording.entries place) (λ e. IsAllowed self.old.recording.setting (so_far self.old) (event_of e))) }
    {
        let station = usize::from(self.found.log().entry(place).station());
        self.go_on_at(alloc, station, place)
    }

    /// Findings in the log; drops the steps.
    pub fn into_found(self) -> Findings<'a, L>
        ensures { result ≡ self.entry.recording }
    {
        let Course { found, .. } = self;
        found
    }

    /// Account of the recording.
    pub fn into_account(self, alloc: Global) -> Result<Account, AllocError>
        ensures { IfOk result (λ account. IsAccount self.entry.recording account) }
    {
        let found = self.into_found();
        found.into_account(alloc)
    }

    /// Steps taken, as a certificate.
    pub fn into_certificate(self) -> Certificate
        ensures { result.steps.items ≡ self.entry.steps }
    {
        let Course { steps, .. } = self;
        Certificate { steps }
    }

    /// Findings in the log, and the steps taken.
    pub fn apart(self) -> (Findings<'a, L>, Certificate)
        ensures found { result.0 ≡ self.entry.recording }
        ensures steps { result.1.steps.items ≡ self.entry.steps }
    {
        let Course { found, steps, .. } = self;
        (found, Certificate { steps })
    }
}
