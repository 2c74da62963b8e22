//! The entities of an application.

ghost use Rattle.std.specs.Prelude.{◌≡◌, ◌≤◌, true, IfOk, IsTrue, OnOk, OnErr, length};
ghost use Rattle.siman_application.specs.declared.entity_list.TheConstants.{MOST_ENTITIES};
ghost use Rattle.siman_pdus.specs.Answers.{is_answer_to};
ghost use Rattle.exercise_model.specs.Change.{able, responds};
ghost use Rattle.exercise_model.specs.Station.{is_opening, listed_state};
ghost use Rattle.exercise_model.specs.State.{changed, change_of};
ghost use Rattle.siman_application.specs.Answer.{chosen, is_meant};
ghost use Rattle.siman_application.specs.Listed.{states_in, IsPossible, after};

use crate::entity_list::{carry_out, choose};
use dis_records::{EntityState, Kind, is_open};
use exercise_model::{Change, listed_state, responds};
use siman_pdus::{ABLE, Pdu};
use std::alloc::{AllocError, Global};
use std::marker::Model;

/// The present entities, by rising numbers in 1..=0xFFFD, with their states. Contracts see a list.
#[derive(Drop)]
pub(crate) struct Entities {
    list: Vec<(u16, EntityState)>,
}

impl Model for Entities {
    ghost use Rattle.std.specs.Prelude.{◌≡◌, ◌≤◌, true, length};
    ghost use Rattle.siman_application.specs.declared.entity_list.TheConstants.{MOST_ENTITIES};
    ghost use Rattle.exercise_model.specs.Station.{is_opening};
    ghost use Rattle.siman_application.specs.Listed.{Entities};

    ghost Value = { Entities };

    ghost view = { λ s. s.list.items };

    ghost invariant = { λ s. (is_opening s.list.items ≡ true) × (length s.list.items ≤ MOST_ENTITIES) };
}

impl Entities {
    /// The entities that a station opens with.
    pub(crate) fn open(
        alloc: Global,
        opening: &[(u16, EntityState)],
    ) -> Result<Entities, AllocError>
        requires opening { IsTrue (is_opening opening.now) }
        requires few { length opening.now ≤ MOST_ENTITIES }
        ensures { IfOk result (λ entities. entities ≡ opening.now) }
    {
        let list = Vec::from_slice(alloc, opening)?;
        Ok(Entities { list })
    }

    /// State of an entity: Absent if there is no such entity.
    pub(crate) fn state(&self, entity: u16) -> EntityState
        ensures { result ≡ listed_state self.now entity }
    {
        listed_state(&self.list, entity)
    }

    /// Number that a Create Entity for this number creates, if any.
    pub(crate) fn choose(&self, number: u16) -> Option<u16>
        ensures { result ≡ chosen (states_in self.now) number }
    {
        choose(&self.list, number)
    }

    /// Whether a request of this kind for this number means a present entity, or no single one.
    pub(crate) fn is_meant(&self, kind: Kind, number: u16) -> bool
        ensures { result ≡ is_meant kind (states_in self.now) number }
    {
        is_open(kind, number) || self.state(number) != EntityState::Absent
    }

    /// Makes a change that the entities permit. Only a Create Entity takes memory.
    fn change(&mut self, change: Change) -> Result<(), AllocError>
        requires { IsPossible change (states_in self.old) }
        ensures ok { OnOk result (states_in self.new ≡ (λ e. changed e (listed_state self.old e) change)) }
        ensures err { OnErr result (self.new ≡ self.old) }
    {
        carry_out(&mut self.list, change)
    }

    /// Does what the answer to a request says: for an Able what the request wants, and nothing for
    /// any other.
    pub(crate) fn obey(&mut self, answer: &Pdu, request: &Pdu) -> Result<(), AllocError>
        requires answers { IsTrue (is_answer_to answer.now request.now) }
        requires possible { responds able answer.now ≡ true → IsPossible (change_of answer.now request.now) (states_in self.old) }
        ensures ok { OnOk result (states_in self.new ≡ after answer.now request.now (states_in self.old)) }
        ensures err { OnErr result (self.new ≡ self.old) }
    {
        if !responds(ABLE, answer) {
            return Ok(());
        }
        self.change(Change::of(answer, request))
    }
}
