//! Walks over the logs of single stations.

ghost use Rattle.std.specs.Prelude.{◌≡◌, ◌<◌, ◌≤◌, ◌+◌, ℕ, length, IfOk, IfSome, None, false};
ghost use Rattle.exercise_model.specs.Place.{own_event, first_below};
ghost use Rattle.siman_pdus.specs.Reading.{pdu_of};
ghost use Rattle.exercise_conflict.specs.Clash.{sends_near_at};
ghost use Rattle.exercise_conflict.specs.Own.{LeavesOutNone};

use crate::nears::{Nears, first_near, near_key, nears_of};
use crate::own::{StationChains, first_in, follower_in, own_of};
use crate::question::NumberTest;
use exercise_findings::Findings;
use exercise_model::ExerciseLog;
use siman_pdus::PduView;
use std::alloc::{AllocError, Global};
use std::marker::Model;

/// Findings of a recording, with optional tables: chained entries, so that a walk over one station
/// visits no other entries, and an index of first sends. Contracts see only the recording.
pub(crate) struct Logs<'f, 'a, L: ExerciseLog> {
    findings: &'f Findings<'a, L>,
    own: Option<StationChains>,
    nears: Option<Nears>,
}

// Not derived, so that a caller that drops it makes one call instead of dropping the tables inline.
impl<'f, 'a, L: ExerciseLog> Drop for Logs<'f, 'a, L> {
    fn drop(self) {
        let Logs {
            findings: _findings,
            own: _own,
            nears: _nears,
        } = self;
    }
}

impl<'f, 'a, L: ExerciseLog> Model for Logs<'f, 'a, L> {
    ghost use Rattle.exercise_model.specs.Recording.{PlainRecording};
    ghost use Rattle.exercise_conflict.specs.Own.{AreKept};

    ghost Value = { PlainRecording };

    ghost view = { λ x. x.findings.now };

    ghost invariant = { λ x. AreKept x.findings.now x.own x.nears };
}

impl<'f, 'a, L: ExerciseLog> Logs<'f, 'a, L> {
    /// Without tables: a walk visits every entry. It takes no memory.
    pub fn unwritten(findings: &'f Findings<'a, L>) -> Logs<'f, 'a, L>
        ensures { result ≡ findings.now }
    {
        Logs {
            findings,
            own: None,
            nears: None,
        }
    }

    /// With chained entries, and with the index of first sends if `with_nears`.
    pub fn written(
        alloc: Global,
        findings: &'f Findings<'a, L>,
        with_nears: bool,
    ) -> Result<Logs<'f, 'a, L>, AllocError>
        ensures { IfOk result (λ logs. logs ≡ findings.now) }
    {
        let own = own_of(alloc, findings.log())?;
        let nears = if with_nears {
            Some(nears_of(alloc, findings)?)
        } else {
            None
        };
        Ok(Logs {
            findings,
            own: Some(own),
            nears,
        })
    }

    /// The findings of the recording.
    pub fn findings(&self) -> &'f Findings<'a, L>
        ensures { result.now ≡ self.now }
    {
        self.findings
    }

    /// The first entry by which a station sends a PDU similar to this one, looked up in the index;
    /// `None` if there is no index or the PDU has no request identifier.
    #[tactic(auto, using(crate::proofs::Likeness::found_near))]
    pub fn first_near(&self, station: u16, pdu: &PduView<'_>) -> Option<Option<usize>>
        ensures { IfSome result (λ found. found ≡ first_below (sends_near_at self.now station (pdu_of pdu.now)) (length self.now.entries)) }
    {
        match (&self.nears, near_key(station, pdu)) {
            (Some(nears), Some(near)) => Some(first_near(nears, near)),
            _ => None,
        }
    }

    /// First entry, up to `end`, of a walk over the entries of a station; no entry of the station
    /// precedes it.
    pub fn first(&self, station: u16, end: usize) -> usize
        ensures within { result ≤ end }
        ensures first { LeavesOutNone self.now station 0 result }
    {
        first_in(&self.own, self.findings.log(), station, end)
    }

    /// Next entry, up to `end`, of a walk over the entries of a station.
    pub fn follower(&self, station: u16, entry: usize, end: usize) -> usize
        requires entry { entry < end }
        requires within { end ≤ length self.now.entries }
        ensures within { result ≤ end }
        ensures follows { LeavesOutNone self.now station (entry + 1) result }
    {
        follower_in(&self.own, self.findings.log(), station, entry, end)
    }

    /// The first entry below a bound that passes a test which only entries of this station can
    /// pass.
    pub fn first_own<Q: NumberTest>(&self, question: &Q, station: u16, end: usize) -> Option<usize>
        requires within { end ≤ length self.now.entries }
        requires own { (i : ℕ) → own_event self.now station i ≡ None → Q.test question.now i ≡ false }
        ensures { result ≡ first_below (Q.test question.now) end }
    {
        let mut next = self.first(station, end);
        while next < end {
            if question.passes(next) {
                return Some(next);
            }
            next = self.follower(station, next, end);
        }
        None
    }
}
