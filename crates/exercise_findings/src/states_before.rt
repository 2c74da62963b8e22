//! The states of all entities before an entry, taken from one entry of a log to later ones.

ghost use Rattle.std.specs.Prelude.{◌≡◌, ◌<◌, ◌≤◌, length, IfOk, OnOk};
ghost use Rattle.exercise_findings.specs.State.{PlaceBefore, entities_before};
ghost use Rattle.exercise_findings.specs.States.{AreStates};

use crate::findings::Findings;
use crate::state::present;
use crate::states::{States, no_changes, note_change};
use dis_records::EntityState;
use exercise_model::ExerciseLog;
use std::alloc::{AllocError, Global};
use std::marker::Model;

/// The states of the entities of each station before an entry. Contracts see the recording and the
/// entry.
#[derive(Drop)]
pub struct StatesBefore<'a, 'b, L: ExerciseLog> {
    findings: &'b Findings<'a, L>,
    states: Vec<States>,
    entry: usize,
}

impl<'a, 'b, L: ExerciseLog> Model for StatesBefore<'a, 'b, L> {
    ghost Value = { PlaceBefore };

    ghost view = { λ s. record { recording = s.findings.now; index = s.entry } };

    ghost invariant = { λ s. AreStates s.findings.now s.entry s.states.items };
}

/// Makes the changes of the entries from one on and before another.
fn make_changes<L: ExerciseLog>(
    states: &mut Vec<States>,
    findings: &Findings<'_, L>,
    from: usize,
    before: usize,
) -> Result<(), AllocError>
    requires order { from ≤ before }
    requires within { before ≤ length findings.now.entries }
    requires tied { AreStates findings.now from states.old.items }
    ensures { OnOk result (AreStates findings.now before states.new.items) }
{
    let log = findings.log();
    for entry in from..before {
        note_change(states, log, findings.change(entry), entry)?;
    }
    Ok(())
}

impl<'a, 'b, L: ExerciseLog> StatesBefore<'a, 'b, L> {
    /// The states before the first entry.
    pub fn start(
        alloc: Global,
        findings: &'b Findings<'a, L>,
    ) -> Result<StatesBefore<'a, 'b, L>, AllocError>
        ensures { let start : PlaceBefore = record { recording = findings.now; index = 0 } in IfOk result (λ states. states ≡ start) }
    {
        let states = no_changes(alloc, findings.log())?;
        Ok(StatesBefore {
            findings,
            states,
            entry: 0,
        })
    }

    /// The states before another entry. The changes between are made where it is a later one; else
    /// all are made again from the first entry on.
    pub fn at(self, alloc: Global, entry: usize) -> Result<StatesBefore<'a, 'b, L>, AllocError>
        requires within { entry ≤ length self.recording.entries }
        ensures { let there : PlaceBefore = record { recording = self.entry.recording; index = entry } in IfOk result (λ states. states ≡ there) }
    {
        let before = if entry < self.entry {
            StatesBefore::start(alloc, self.findings)?
        } else {
            self
        };
        let StatesBefore {
            findings,
            states,
            entry: from,
        } = before;
        let mut states = states;
        make_changes(&mut states, findings, from, entry)?;
        Ok(StatesBefore {
            findings,
            states,
            entry,
        })
    }

    /// The entities of a station that are not Absent, by rising numbers, with their states.
    pub fn entities(
        &self,
        alloc: Global,
        station: u16,
    ) -> Result<Vec<(u16, EntityState)>, AllocError>
        requires at { station < length self.now.recording.setting.stations }
        ensures { IfOk result (λ entities. entities.items ≡ entities_before self.now.recording station self.now.index) }
    {
        present(alloc, &self.states[usize::from(station)])
    }
}
