//! Tables of datum records by identifier.

ghost use Rattle.std.specs.Prelude.{◌≡◌, ℕ, IfOk, nat_eq};
ghost use Rattle.std.specs.Option.{option_copied};
ghost use Rattle.indexmap.specs.IndexMap.{get};
ghost use Rattle.siman_application.specs.Records.{fixed_id, variable_id, last_under, stored};

use dis_records::{FixedDatum, VariableDatum};
use indexmap::IndexMap;
use std::alloc::{AllocError, Global};

/// Fixed datums by identifier.
pub(crate) type FixedTable = IndexMap<u32, FixedDatum>;

/// Variable datums by identifier.
pub(crate) type VariableTable = IndexMap<u32, VariableDatum>;

/// Table of these records. Of a repeated identifier the last counts.
pub(crate) fn fixed_table(alloc: Global, records: &[FixedDatum]) -> Result<FixedTable, AllocError>
    ensures { IfOk result (λ table. (id : ℕ) → get nat_eq table id ≡ last_under fixed_id id records.now) }
{
    let mut table = FixedTable::new(alloc);
    for record in records {
        table.insert(record.id, *record)?;
    }
    Ok(table)
}

/// Table of these records. Of a repeated identifier the last counts.
pub(crate) fn variable_table(
    alloc: Global,
    records: &[VariableDatum],
) -> Result<VariableTable, AllocError>
    ensures { IfOk result (λ table. (id : ℕ) → get nat_eq table id ≡ last_under variable_id id records.now) }
{
    let mut table = VariableTable::new(alloc);
    for record in records {
        table.insert(record.id(), record.copy(alloc)?)?;
    }
    Ok(table)
}

/// Replaces held records by those with their identifiers; ignores all others.
pub(crate) fn store_fixed(held: &mut FixedTable, came: &[FixedDatum])
    ensures { (id : ℕ) → get nat_eq held.new id ≡ stored (last_under fixed_id id came.now) (get nat_eq held.old id) }
{
    for record in came {
        if held.contains_key(&record.id) {
            let _old = held.insert(record.id, *record).unwrap();
        }
    }
}

/// Replaces held records by those with their identifiers; ignores all others.
pub(crate) fn store_variable(held: &mut VariableTable, came: Vec<VariableDatum>)
    ensures { (id : ℕ) → get nat_eq held.new id ≡ stored (last_under variable_id id came.items) (get nat_eq held.old id) }
{
    for record in came {
        let id = record.id();
        if held.contains_key(&id) {
            let _old = held.insert(id, record).unwrap();
        }
    }
}

/// Record held under this identifier after `came` is stored.
pub(crate) fn fixed_under(held: &FixedTable, came: &FixedTable, id: u32) -> Option<FixedDatum>
    ensures { result ≡ stored (get nat_eq came.now id) (get nat_eq held.now id) }
{
    let held = held.get(&id)?;
    match came.get(&id) {
        Some(record) => Some(*record),
        None => Some(*held),
    }
}

/// Record held under this identifier after `came` is stored.
pub(crate) fn variable_under<'a>(
    held: &'a VariableTable,
    came: &'a VariableTable,
    id: u32,
) -> Option<&'a VariableDatum>
    ensures { option_copied result ≡ stored (get nat_eq came.now id) (get nat_eq held.now id) }
{
    let held = held.get(&id)?;
    match came.get(&id) {
        Some(record) => Some(record),
        None => Some(held),
    }
}
