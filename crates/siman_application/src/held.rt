//! The datums of an application.

ghost use Rattle.std.specs.Prelude.{◌≡◌, [], IfOk};
ghost use Rattle.std.specs.Option.{option_copied, option_map};
ghost use Rattle.siman_application.specs.Answer.{held_records};
ghost use Rattle.siman_application.specs.Holding.{nothing, held_by, held_in, stored_in};
ghost use Rattle.siman_application.specs.Knows.{knows};
ghost use Rattle.siman_application.specs.Records.{cut_records};

use crate::records::{ROOM, find_fixed, find_variable};
use crate::tables::{
    FixedTable, VariableTable, fixed_table, store_fixed, store_variable, variable_table,
};
use dis_records::VariableDatum;
use siman_pdus::{DatumIds, Datums};
use std::alloc::{AllocError, Global};

/// Record of each datum identifier.
#[derive(Drop)]
pub(crate) struct Held {
    fixed: FixedTable,
    variable: VariableTable,
}

impl Held {
    /// No records. Takes no memory.
    pub(crate) fn new(alloc: Global) -> Held
        ensures { held_in result ≡ nothing }
    {
        Held {
            fixed: FixedTable::new(alloc),
            variable: VariableTable::new(alloc),
        }
    }

    /// These records. Of a repeated identifier the last counts.
    pub(crate) fn of(alloc: Global, records: &Datums) -> Result<Held, AllocError>
        ensures { IfOk result (λ held. held_in held ≡ held_by records.now) }
    {
        let fixed = fixed_table(alloc, &records.fixed)?;
        let variable = variable_table(alloc, &records.variable)?;
        Ok(Held { fixed, variable })
    }

    /// Value of the fixed datum with this identifier, if it is held.
    pub(crate) fn value(&self, id: u32) -> Option<u32>
        ensures { result ≡ option_map (λ d. d.value) ((held_in self.now).fixed id) }
    {
        let record = self.fixed.get(&id)?;
        Some(record.value)
    }

    /// Variable datum with this identifier, if it is held.
    pub(crate) fn variable(&self, id: u32) -> Option<&VariableDatum>
        ensures { option_copied result ≡ (held_in self.now).variable id }
    {
        self.variable.get(&id)
    }

    /// Records held under these identifiers after `came` is stored, as many as a Data holds.
    pub(crate) fn find(
        &self,
        alloc: Global,
        came: &Held,
        ids: &DatumIds,
    ) -> Result<Datums, AllocError>
        ensures { IfOk result (λ records. records ≡ cut_records (held_records (knows [] (stored_in (held_in came.now) (held_in self.now))) ids.now)) }
    {
        let fixed = find_fixed(alloc, &self.fixed, &came.fixed, &ids.fixed)?;
        let room = ROOM - 8 * fixed.len();
        let variable = find_variable(alloc, &self.variable, &came.variable, &ids.variable, room)?;
        Ok(Datums { fixed, variable })
    }

    /// Stores records, but only those whose identifiers are held. Takes no memory.
    pub(crate) fn store(&mut self, came: Datums)
        ensures { held_in self.new ≡ stored_in (held_by came) (held_in self.old) }
    {
        store_fixed(&mut self.fixed, &came.fixed);
        store_variable(&mut self.variable, came.variable);
    }
}
