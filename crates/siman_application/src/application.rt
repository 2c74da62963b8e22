//! The application of a station.

ghost use Rattle.std.specs.Prelude.{◌≡◌, ◌<◌, ◌≤◌, ◌↔◌, true, false, [], length, Err, IsOk, IfOk, IfErr, IfSome, slice_get};
ghost use Rattle.std.specs.Option.{option_map, option_copied, option_and_then};
ghost use Rattle.std.specs.Borrow.{sem};
ghost use Rattle.siman_application.specs.declared.entity_list.TheConstants.{MOST_ENTITIES};
ghost use Rattle.dis_records.specs.declared.header.TheConstants.{LARGEST_DATAGRAM};
ghost use Rattle.exercise_model.specs.Station.{is_station};
ghost use Rattle.siman_pdus.specs.Ranges.{IsInRange};
ghost use Rattle.siman_pdus.specs.Spelling.{HasCarriedStatus, pdu_size};
ghost use Rattle.siman_application.specs.Lending.{EndsTaken};
ghost use Rattle.siman_application.specs.Play.{state_over, fixed_after, variable_after, reply_after};
ghost use Rattle.siman_application.specs.Ranges.{IsProfileInRange};
ghost use Rattle.siman_application.specs.Application.{ApplicationData, Leaves, came, is_new};

use crate::entities::Entities;
use crate::entity_list::MOST_ENTITIES;
use crate::fault::AppFault;
use crate::held::Held;
use crate::kept::RequestTable;
use crate::outfit::AppProfile;
use crate::taking::take;
use dis_records::{EntityState, FixedDatum, VariableDatum};
use exercise_model::Station;
use siman_pdus::{Datums, Pdu, datums_are_in_range, numbers_are_in_range};
use std::alloc::{AllocError, Global};
use std::marker::Model;

/// The application of a station: its entities and datums, and each distinct request that it took,
/// with its answer. Contracts see it as its configuration and these requests, in order of arrival.
///
/// Only [`begin`](Application::begin) and a [`take`](Application::take) that makes a new answer
/// take memory.
pub struct Application {
    alloc: Global,
    outfit: AppProfile,
    entities: Entities,
    held: Held,
    kept: RequestTable,
}

// Not derived: a caller that drops it makes one call, and does not drop each table.
impl Drop for Application {
    fn drop(self) {
        let Application {
            alloc: _alloc,
            outfit: _outfit,
            entities: _entities,
            held: _held,
            kept: _kept,
        } = self;
    }
}

impl Model for Application {
    ghost use Rattle.siman_application.specs.Application.{ApplicationData};

    ghost Value = { ApplicationData };

    ghost use Rattle.indexmap.specs.IndexMap.{values};
    ghost use Rattle.siman_application.specs.Holding.{held_in};
    ghost use Rattle.siman_application.specs.KeptRequests.{AreRight};

    ghost view = { λ a. record { outfit = a.outfit; kept = values a.kept } };

    ghost invariant = { λ a. AreRight a.outfit a.kept a.entities (held_in a.held) };
}

/// Copy of a station.
fn copy_station(alloc: Global, station: &Station) -> Result<Station, AllocError>
    ensures copy { IfOk result (λ copy. copy ≡ station.now) }
    ensures station { IfOk result (λ copy. is_station copy ≡ true) }
{
    let opening = Vec::from_slice(alloc, station.opening())?;
    Ok(Station::new(station.address(), opening).unwrap())
}

impl Application {
    /// Begins an application that has taken nothing, for an exercise and a station with its
    /// entities. It holds these datums, and knows these actions; of a repeated datum identifier the
    /// last counts. Fails with [`AppFault::TooMany`] exactly if the station opens with more than
    /// 4,096 entities.
    pub fn begin(
        alloc: Global,
        exercise: u8,
        station: &Station,
        fixed: &[FixedDatum],
        variable: Vec<VariableDatum>,
        actions: &[u32],
    ) -> Result<Application, AppFault>
        ensures too_many { (result ≡ Err AppFault.TooMany) ↔ (MOST_ENTITIES < length station.now.opening) }
        ensures outfit { IfOk result (λ app. app.outfit ≡ record { exercise = exercise; station = station.now; datums = record { fixed = fixed.now; variable = variable.items }; actions = actions.now }) }
        ensures ranges { IfOk result (λ app. IsProfileInRange app.outfit) }
        ensures kept { IfOk result (λ app. app.kept ≡ []) }
    {
        if station.opening().len() > MOST_ENTITIES {
            return Err(AppFault::TooMany);
        }
        let entities = Entities::open(alloc, station.opening())?;
        let station = copy_station(alloc, station)?;
        let datums = Datums {
            fixed: Vec::from_slice(alloc, fixed)?,
            variable,
        };
        let held = Held::of(alloc, &datums)?;
        datums_are_in_range(&datums);
        let actions = Vec::from_slice(alloc, actions)?;
        Ok(Application {
            alloc,
            outfit: AppProfile {
                exercise,
                station,
                datums,
                actions,
            },
            entities,
            held,
            kept: RequestTable::new(alloc),
        })
    }

    /// Takes a PDU, and returns the answer to send, with this timestamp: `None` for a PDU of
    /// another exercise, one that is no request, one that does not address the station, and another
    /// order under a known key (originating site and application, request identifier); for a repeat
    /// of an order the stored answer; otherwise a new answer, which is stored (profile, over IEEE
    /// 1278.1-2012, 5.6.5). The answer fits a datagram. After a fault, which only that last case
    /// can have, everything is unchanged, and the PDU counts as not taken.
    pub fn take(&mut self, pdu: &Pdu, stamp: u32) -> Result<Option<&Pdu>, AppFault>
        ensures* ends { sem 𝓛 (EndsTaken self.entry pdu.now result) }
        ensures reply { IfOk result (λ answer. option_copied answer ≡ reply_after self.old.outfit (came self.old) pdu.now stamp) }
        ensures in_range { IfOk result (λ answer. IfSome (option_copied answer) IsInRange) }
        ensures size { IfOk result (λ answer. IfSome (option_copied answer) (λ p. pdu_size p ≤ LARGEST_DATAGRAM)) }
        ensures status { IfOk result (λ answer. IfSome (option_copied answer) HasCarriedStatus) }
        ensures fault { IfErr result (λ fault. fault ≡ AppFault.Memory) }
        ensures no_memory { is_new self.old pdu.now ≡ false → IsOk result }
    {
        match self.take_up(pdu, stamp)? {
            Some(place) => {
                let answer = &self.kept[place].answer;
                numbers_are_in_range(answer);
                Ok(Some(answer))
            }
            None => Ok(None),
        }
    }

    fn take_up(&mut self, pdu: &Pdu, stamp: u32) -> Result<Option<usize>, AppFault>
        ensures leaves { Leaves self.old pdu.now result self.new }
        ensures reply { IfOk result (λ place. option_and_then (λ i. option_map (λ k. k.answer) (slice_get self.new.kept i)) place ≡ reply_after self.old.outfit (came self.old) pdu.now stamp) }
        ensures size { IfSome (reply_after self.old.outfit (came self.old) pdu.now stamp) (λ p. pdu_size p ≤ LARGEST_DATAGRAM) }
        ensures status { IfSome (reply_after self.old.outfit (came self.old) pdu.now stamp) HasCarriedStatus }
        ensures within { IfOk result (λ place. IfSome place (λ i. i < length self.new.kept)) }
        ensures fault { IfErr result (λ fault. fault ≡ AppFault.Memory) }
        ensures no_memory { is_new self.old pdu.now ≡ false → IsOk result }
    {
        take(
            self.alloc,
            &self.outfit,
            &mut self.kept,
            &mut self.entities,
            &mut self.held,
            pdu,
            stamp,
        )
    }

    /// State of an entity.
    pub fn state(&self, entity: u16) -> EntityState
        ensures { result ≡ state_over self.now.outfit (came self.now) entity }
    {
        self.entities.state(entity)
    }

    /// Value of the fixed datum with this identifier, if it is held.
    pub fn datum(&self, id: u32) -> Option<u32>
        ensures { result ≡ option_map (λ d. d.value) (fixed_after self.now.outfit (came self.now) id) }
    {
        self.held.value(id)
    }

    /// Variable datum with this identifier, if it is held.
    pub fn variable(&self, id: u32) -> Option<&VariableDatum>
        ensures { option_copied result ≡ variable_after self.now.outfit (came self.now) id }
    {
        self.held.variable(id)
    }
}
