//! Datum records of a body, and datum identifiers of a query.

ghost use Rattle.std.specs.Prelude.{◌≡◌, ◌↔◌, IfOk, IsTrue};

use dis_records::{FixedDatum, VariableDatum};
use std::alloc::{AllocError, Global};
use std::marker::Model;

/// A datum specification (IEEE 1278.1-2012, 6.2.18): fixed datum records, then variable datum
/// records, each in order. Contracts see it as two lists.
#[derive(Drop)]
pub struct Datums {
    pub fixed: Vec<FixedDatum>,
    pub variable: Vec<VariableDatum>,
}

impl Model for Datums {
    ghost use Rattle.siman_pdus.specs.DatumLists.{DatumLists};

    ghost Value = { DatumLists };

    ghost view = { λ d. record { fixed = d.fixed.items; variable = d.variable.items } };
}

/// Datum identifiers of a query (IEEE 1278.1-2012, 6.2.17): those of fixed datums, then those of
/// variable datums, each in order. Contracts see it as two lists.
#[derive(Drop)]
pub struct DatumIds {
    pub fixed: Vec<u32>,
    pub variable: Vec<u32>,
}

impl Model for DatumIds {
    ghost use Rattle.siman_pdus.specs.DatumLists.{IdLists};

    ghost Value = { IdLists };

    ghost view = { λ d. record { fixed = d.fixed.items; variable = d.variable.items } };
}

impl Datums {
    /// An owned copy of the datums.
    pub fn copy(&self, alloc: Global) -> Result<Datums, AllocError>
        ensures { IfOk result (λ datums. datums ≡ self.now) }
    {
        let fixed = Vec::from_slice(alloc, &self.fixed)?;
        let variable = copy_variable(alloc, &self.variable)?;
        Ok(Datums { fixed, variable })
    }
}

fn copy_variable(alloc: Global, datums: &[VariableDatum]) -> Result<Vec<VariableDatum>, AllocError>
    ensures { IfOk result (λ copied. copied.items ≡ datums.now) }
{
    let mut copied = Vec::new(alloc);
    for datum in datums {
        copied.push(datum.copy(alloc)?)?;
    }
    Ok(copied)
}

impl DatumIds {
    /// An owned copy of the identifiers.
    pub fn copy(&self, alloc: Global) -> Result<DatumIds, AllocError>
        ensures { IfOk result (λ ids. ids ≡ self.now) }
    {
        let fixed = Vec::from_slice(alloc, &self.fixed)?;
        let variable = Vec::from_slice(alloc, &self.variable)?;
        Ok(DatumIds { fixed, variable })
    }
}

impl PartialEq for Datums {
    ghost use Rattle.siman_pdus.specs.Equality.{datums_partial};
    ghost use Rattle.siman_pdus.specs.DatumLists.{same_datums};

    ghost eq = { same_datums };

    ghost laws = { datums_partial };

    /// Equal is identical.
    #[tactic(auto, using(crate::specs::Equality::datums_decide))]
    fn eq(&self, other: &Datums) -> bool
        ensures value { result ≡ same_datums self.now other.now }
        ensures exact { IsTrue result ↔ (self.now ≡ other.now) }
    {
        self.fixed == other.fixed && self.variable == other.variable
    }
}

impl Eq for Datums {
    ghost use Rattle.siman_pdus.specs.Equality.{datums_equivalence};

    ghost laws = { datums_equivalence };
}

impl PartialEq for DatumIds {
    ghost use Rattle.siman_pdus.specs.Equality.{ids_partial};
    ghost use Rattle.siman_pdus.specs.DatumLists.{same_ids};

    ghost eq = { same_ids };

    ghost laws = { ids_partial };

    /// Equal is identical.
    #[tactic(auto, using(crate::specs::Equality::ids_decide))]
    fn eq(&self, other: &DatumIds) -> bool
        ensures value { result ≡ same_ids self.now other.now }
        ensures exact { IsTrue result ↔ (self.now ≡ other.now) }
    {
        self.fixed == other.fixed && self.variable == other.variable
    }
}

impl Eq for DatumIds {
    ghost use Rattle.siman_pdus.specs.Equality.{ids_equivalence};

    ghost laws = { ids_equivalence };
}
