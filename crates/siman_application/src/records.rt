//! Datum records under identifiers.

ghost use Rattle.std.specs.Prelude.{◌≡◌, IfOk, map, nat_eq, take};
ghost use Rattle.indexmap.specs.IndexMap.{get};
ghost use Rattle.siman_application.specs.Answer.{ids_of};
ghost use Rattle.siman_application.specs.Records.{fixed_id, variable_id, stored, found, fitting};

use crate::tables::{FixedTable, VariableTable, fixed_under, variable_under};
use dis_records::{FixedDatum, VariableDatum, padded_size};
use siman_pdus::{DatumIds, Datums};
use std::alloc::{AllocError, Global};

/// Number of fixed records that a Data of at most 8192 bytes holds; 40 of its bytes are no records
/// (profile).
const MOST_FIXED: usize = 1019;

/// Most bytes of the records of a Data.
pub(crate) const ROOM: usize = 8152;

/// Records held under these identifiers after `came` is stored, at most [`MOST_FIXED`].
pub(crate) fn find_fixed(
    alloc: Global,
    held: &FixedTable,
    came: &FixedTable,
    ids: &[u32],
) -> Result<Vec<FixedDatum>, AllocError>
    ensures { IfOk result (λ records. records.items ≡ take 1019 (found (λ id. stored (get nat_eq came.now id) (get nat_eq held.now id)) ids.now)) }
{
    let mut records = Vec::new(alloc);
    for id in ids {
        if records.len() >= MOST_FIXED {
            return Ok(records);
        }
        if let Some(record) = fixed_under(held, came, *id) {
            records.push(record)?;
        }
    }
    Ok(records)
}

/// Records held under these identifiers after `came` is stored, as many as fit `room` bytes.
pub(crate) fn find_variable(
    alloc: Global,
    held: &VariableTable,
    came: &VariableTable,
    ids: &[u32],
    room: usize,
) -> Result<Vec<VariableDatum>, AllocError>
    ensures { IfOk result (λ records. records.items ≡ fitting room (found (λ id. stored (get nat_eq came.now id) (get nat_eq held.now id)) ids.now)) }
{
    let mut records = Vec::new(alloc);
    let mut left = room;
    for id in ids {
        if let Some(record) = variable_under(held, came, *id) {
            let size = padded_size(record.bits()) as usize;
            if size > left {
                return Ok(records);
            }
            records.push(record.copy(alloc)?)?;
            left -= size;
        }
    }
    Ok(records)
}

fn ids_of_fixed(alloc: Global, records: &[FixedDatum]) -> Result<Vec<u32>, AllocError>
    ensures { IfOk result (λ ids. ids.items ≡ map fixed_id records.now) }
{
    let mut ids = Vec::new(alloc);
    for record in records {
        ids.push(record.id)?;
    }
    Ok(ids)
}

fn ids_of_variable(alloc: Global, records: &[VariableDatum]) -> Result<Vec<u32>, AllocError>
    ensures { IfOk result (λ ids. ids.items ≡ map variable_id records.now) }
{
    let mut ids = Vec::new(alloc);
    for record in records {
        ids.push(record.id())?;
    }
    Ok(ids)
}

/// Identifiers of records.
pub(crate) fn ids_of(alloc: Global, records: &Datums) -> Result<DatumIds, AllocError>
    ensures { IfOk result (λ ids. ids ≡ ids_of records.now) }
{
    let fixed = ids_of_fixed(alloc, &records.fixed)?;
    let variable = ids_of_variable(alloc, &records.variable)?;
    Ok(DatumIds { fixed, variable })
}
