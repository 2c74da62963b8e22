//! Findings from each station's log about its own entries.

ghost use Rattle.std.specs.Prelude.{◌≡◌, ◌<◌, ◌≤◌, Some, length, map, IfOk, OnOk, IfSome};
ghost use Rattle.exercise_model.specs.Recording.{PlainRecording, IsRecording};
ghost use Rattle.exercise_model.specs.History.{station_at};
ghost use Rattle.exercise_model.specs.State.{state_after};
ghost use Rattle.exercise_model.specs.Place.{log_before};
ghost use Rattle.exercise_model.specs.Account.{pair_of, change_at, entities_of, values_below, others_of};
ghost use Rattle.exercise_findings.specs.Account.{IsAccount};
ghost use Rattle.exercise_findings.specs.Source.{source_of};
ghost use Rattle.exercise_findings.specs.Tables.{AreFindings, own_cause};

use crate::account::Account;
use crate::accounting::{account, states};
use crate::change_number::{NO_CHANGE, change_in};
use crate::column::number_at;
use crate::earlier::{column_source, request_in, source_in};
use crate::made::state_made_before;
use crate::number::NO_ENTRY;
use crate::pass::{PassResult, find, settle};
use dis_records::EntityState;
use exercise_model::{Cause, Change, ExerciseLog};
use std::alloc::{AllocError, Global};
use std::marker::Model;

/// Findings from each station's log about its own entries, made in one pass over a recording.
/// Contracts see only the recording; the tables are private.
#[derive(Drop)]
pub struct Findings<'a, L: ExerciseLog> {
    log: &'a L,
    found: PassResult,
}

impl<'a, L: ExerciseLog> Model for Findings<'a, L> {
    ghost Value = { PlainRecording };

    ghost view = { λ f. L.recording f.log.now };

    ghost invariant = { λ f. AreFindings (L.recording f.log.now) f.found };
}

impl<'a, L: ExerciseLog> Findings<'a, L> {
    /// Finds all in one pass. Datagrams are read in place; the tables take memory.
    pub fn of(alloc: Global, log: &'a L) -> Result<Findings<'a, L>, AllocError>
        ensures findings { IfOk result (λ findings. findings ≡ L.recording log.now) }
        ensures limits { OnOk result (IsRecording (L.recording log.now)) }
    {
        let found = find(alloc, log)?;
        Ok(Findings { log, found })
    }

    /// The log that was passed over.
    pub fn log(&self) -> &'a L
        ensures { L.recording result.now ≡ self.now }
    {
        self.log
    }

    /// The first cause that its station's log shows against an entry: one of the causes 5 to 13,
    /// where a receipt is judged as if nothing had been sent before. `None` past the last entry. It
    /// takes no memory.
    pub fn cause(&self, entry: usize) -> Option<Cause>
        ensures { result ≡ own_cause self.now entry }
    {
        match self.found.causes.get(entry) {
            Some(cause) => *cause,
            None => None,
        }
    }

    /// For a sent answer, the entry of the request that it takes up; `None` for any other entry and
    /// past the last entry. It takes no memory.
    pub fn pair(&self, entry: usize) -> Option<u32>
        ensures { result ≡ pair_of self.now entry }
    {
        request_in(number_at(&self.found.earlier, NO_ENTRY, entry))
    }

    /// For a receipt from a recorded station, the first entry of that station that sends equal
    /// bytes; `None` for any other entry and past the last entry. It takes no memory.
    pub fn source(&self, entry: usize) -> Option<u32>
        ensures source { result ≡ source_of self.now entry }
        ensures within { IfSome result (λ source. source < length self.now.entries) }
    {
        if entry >= self.log.entry_count() {
            return None;
        }
        let earlier = number_at(&self.found.earlier, NO_ENTRY, entry);
        column_source(&self.found.senders, self.log, entry, earlier)
    }

    /// As [`Findings::source`], but also `None` if the source is not looked up yet. It takes no
    /// memory.
    pub fn source_at_hand(&self, entry: usize) -> Option<u32>
        ensures { IfSome result (λ source. source_of self.now entry ≡ Some source) }
    {
        source_in(number_at(&self.found.earlier, NO_ENTRY, entry))
    }

    /// Looks up the source of an entry if it is still open, so that [`Findings::source`] then
    /// answers at once. It changes no answer, and takes no memory.
    pub fn settle_source(&mut self, entry: usize)
        ensures { self.new ≡ self.old }
    {
        if entry < self.log.entry_count() {
            settle(&mut self.found, self.log, entry);
        }
    }

    /// The change that an entry makes at its station, if it is the first Able under its key and
    /// answers the request that it takes up. `None` for any other entry and past the last entry. It
    /// takes no memory.
    pub fn change(&self, entry: usize) -> Option<Change>
        ensures { result ≡ change_at self.now entry }
    {
        change_in(number_at(&self.found.changes, NO_CHANGE, entry))
    }

    /// The state of an entity of a station before an entry; Absent for a number that no entity has.
    /// It scans all entries before. It takes no memory.
    pub fn state_before(&self, station: u16, entity: u16, entry: usize) -> EntityState
        requires at { station < length self.now.setting.stations }
        requires within { entry ≤ length self.now.entries }
        ensures { result ≡ state_after self.now.setting.exercise (station_at self.now station) (log_before self.now station entry) entity }
    {
        state_made_before(self.log, &self.found.changes, station, entity, entry)
    }

    /// For each station, by rising indices, its entities that are not Absent after its log, by
    /// rising entity numbers, with their states.
    pub fn states(&self, alloc: Global) -> Result<Vec<Vec<(u16, EntityState)>>, AllocError>
        ensures { IfOk result (λ states. map (λ v. v.items) states.items ≡ values_below (entities_of self.now) (length self.now.setting.stations)) }
    {
        states(alloc, self.log, &self.found.tables)
    }

    /// Number of "other" datagrams. It takes no memory.
    #[tactic(auto, using(crate::proofs::Looks::others_whole))]
    pub fn others(&self) -> u32
        ensures { result ≡ others_of self.now }
    {
        self.found.others
    }

    /// Turns the findings into the account of the recording.
    pub fn into_account(self, alloc: Global) -> Result<Account, AllocError>
        ensures { IfOk result (λ account. IsAccount self.entry account) }
    {
        let Findings { log, found } = self;
        account(alloc, log, found)
    }
}
