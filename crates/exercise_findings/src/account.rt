//! The account of a recording: its summary, read from the logs alone.

use crate::earlier::request_in;
use crate::number::entry_of;
use dis_records::EntityState;
use std::marker::Model;

/// The account of a recording. It is read from each station's log alone, so every run that explains
/// the recording, and every good certificate, gives an equal account.
#[derive(Drop)]
pub struct Account {
    states: Vec<Vec<(u16, EntityState)>>,
    earlier: Vec<u32>,
    causes: Vec<u32>,
    others: u32,
}

impl Model for Account {
    ghost use Rattle.std.specs.Prelude.{map};
    ghost use Rattle.exercise_findings.specs.Account.{AccountData};
    ghost use Rattle.exercise_findings.specs.Number.{entry_of};
    ghost use Rattle.exercise_findings.specs.Earlier.{request_in};

    ghost Value = { AccountData };

    ghost view = { λ c. record { states = map (λ v. v.items) c.states.items; pairs = map request_in c.earlier.items; causes = map entry_of c.causes.items; others = c.others } };
}

impl Account {
    ghost use Rattle.std.specs.Prelude.{◌≡◌, map, slice_index_or, [], None};
    ghost use Rattle.exercise_findings.specs.Account.{AccountData};
    ghost use Rattle.exercise_findings.specs.Number.{entry_of};
    ghost use Rattle.exercise_findings.specs.Earlier.{request_in};

    /// An account of these parts, with entries as numbers.
    pub(crate) fn of(
        states: Vec<Vec<(u16, EntityState)>>,
        earlier: Vec<u32>,
        causes: Vec<u32>,
        others: u32,
    ) -> Account
        ensures { let c : AccountData = record { states = map (λ v. v.items) states.items; pairs = map request_in earlier.items; causes = map entry_of causes.items; others = others } in result ≡ c }
    {
        Account {
            states,
            earlier,
            causes,
            others,
        }
    }

    /// The entities of a station (an index from 0) that are not Absent at the end, by rising entity
    /// numbers, with their states; empty past the last station. It takes no memory.
    pub fn states(&self, station: usize) -> &[(u16, EntityState)]
        ensures { result.now ≡ slice_index_or self.now.states station [] }
    {
        match self.states.get(station) {
            Some(entities) => entities.as_slice(),
            None => &[],
        }
    }

    /// For a sent answer, the entry of the request that it takes up; `None` for any other entry and
    /// past the last entry. It takes no memory.
    pub fn pair(&self, entry: usize) -> Option<u32>
        ensures { result ≡ slice_index_or self.now.pairs entry None }
    {
        match self.earlier.get(entry) {
            Some(earlier) => request_in(*earlier),
            None => None,
        }
    }

    /// For a received Able Acknowledge, the entry of the first Able that its originator's station
    /// sent under its key: the change that it reports. `None` for any other entry and past the last
    /// entry. It takes no memory.
    pub fn cause(&self, entry: usize) -> Option<u32>
        ensures { result ≡ slice_index_or self.now.causes entry None }
    {
        match self.causes.get(entry) {
            Some(cause) => entry_of(*cause),
            None => None,
        }
    }

    /// Number of "other" datagrams. It takes no memory.
    pub fn others(&self) -> u32
        ensures { result ≡ self.now.others }
    {
        self.others
    }
}
