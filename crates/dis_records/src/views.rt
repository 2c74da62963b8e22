//! Datums of a body, and identifiers of a query, in place in a datagram.

ghost use Rattle.std.specs.Prelude.{◌≡◌, length};
ghost use Rattle.dis_records.specs.Views.{DatumsFit, IdsFit, shown_datums, shown_ids};

use crate::field::u32_at;
use crate::records::{DatumIdRecords, FixedRecords, VariableRecords};
use std::marker::Model;

/// A datum specification (IEEE 1278.1-2012, 6.2.18) in a datagram: fixed datum records, then
/// variable datum records, read in order and not copied. Contracts see it as two lists, with the
/// bytes of a variable record unchanged.
#[derive(Drop)]
pub struct DatumsView<'a> {
    bytes: &'a [u8],
    counts: usize,
}

impl<'a> Model for DatumsView<'a> {
    ghost use Rattle.dis_records.specs.Views.{ShownDatums, DatumsFit, shown_datums};

    ghost Value = { ShownDatums };

    ghost view = { λ s. shown_datums s.counts s.bytes.now };

    ghost invariant = { λ s. DatumsFit s.counts s.bytes.now };
}

impl<'a> DatumsView<'a> {
    /// Datums whose two counts are at this offset in bytes, from 0, and which are all complete.
    pub fn over(bytes: &'a [u8], counts: usize) -> DatumsView<'a>
        requires { DatumsFit counts bytes.now }
        ensures { result ≡ shown_datums counts bytes.now }
    {
        DatumsView { bytes, counts }
    }

    /// Number of fixed datum records.
    #[tactic(auto, using(crate::proofs::Lists::fixed_count))]
    pub fn fixed_count(&self) -> u32
        ensures { result ≡ length self.now.fixed }
    {
        u32_at(self.bytes, self.counts)
    }

    /// Number of variable datum records.
    #[tactic(auto, using(crate::proofs::Lists::variable_count))]
    pub fn variable_count(&self) -> u32
        ensures { result ≡ length self.now.variable }
    {
        u32_at(self.bytes, self.counts + 4)
    }

    /// Fixed datum records, in order.
    #[tactic(auto, unfolding(crate::specs::Views::shown_datums))]
    pub fn fixed(&self) -> FixedRecords<'a>
        ensures { result ≡ self.now.fixed }
    {
        let count = u32_at(self.bytes, self.counts);
        FixedRecords::over(self.bytes, self.counts + 8, count)
    }

    /// Variable datum records, in order.
    #[tactic(auto, unfolding(crate::specs::Views::shown_datums))]
    pub fn variable(&self) -> VariableRecords<'a>
        ensures { result ≡ self.now.variable }
    {
        let fixed_count = u32_at(self.bytes, self.counts);
        let count = u32_at(self.bytes, self.counts + 4);
        let start = self.counts + 8 + 8 * fixed_count as usize;
        VariableRecords::over(self.bytes, start, count)
    }
}

/// Datum identifiers of a query (IEEE 1278.1-2012, 6.2.17) in a datagram: those of fixed datums,
/// then those of variable datums, read in order and not copied. Contracts see it as two lists.
#[derive(Drop)]
pub struct IdsView<'a> {
    bytes: &'a [u8],
    counts: usize,
}

impl<'a> Model for IdsView<'a> {
    ghost use Rattle.dis_records.specs.Views.{ShownIds, IdsFit, shown_ids};

    ghost Value = { ShownIds };

    ghost view = { λ s. shown_ids s.counts s.bytes.now };

    ghost invariant = { λ s. IdsFit s.counts s.bytes.now };
}

impl<'a> IdsView<'a> {
    /// Identifiers whose two counts are at this offset in bytes, from 0, and which are all
    /// complete.
    pub fn over(bytes: &'a [u8], counts: usize) -> IdsView<'a>
        requires { IdsFit counts bytes.now }
        ensures { result ≡ shown_ids counts bytes.now }
    {
        IdsView { bytes, counts }
    }

    /// Number of identifiers of fixed datums.
    #[tactic(auto, using(crate::proofs::Lists::fixed_id_count))]
    pub fn fixed_count(&self) -> u32
        ensures { result ≡ length self.now.fixed }
    {
        u32_at(self.bytes, self.counts)
    }

    /// Number of identifiers of variable datums.
    #[tactic(auto, using(crate::proofs::Lists::variable_id_count))]
    pub fn variable_count(&self) -> u32
        ensures { result ≡ length self.now.variable }
    {
        u32_at(self.bytes, self.counts + 4)
    }

    /// Identifiers of fixed datums, in order.
    #[tactic(auto, unfolding(crate::specs::Views::shown_ids))]
    pub fn fixed(&self) -> DatumIdRecords<'a>
        ensures { result ≡ self.now.fixed }
    {
        let count = u32_at(self.bytes, self.counts);
        DatumIdRecords::over(self.bytes, self.counts + 8, count)
    }

    /// Identifiers of variable datums, in order.
    #[tactic(auto, unfolding(crate::specs::Views::shown_ids))]
    pub fn variable(&self) -> DatumIdRecords<'a>
        ensures { result ≡ self.now.variable }
    {
        let fixed_count = u32_at(self.bytes, self.counts);
        let count = u32_at(self.bytes, self.counts + 4);
        let start = self.counts + 8 + 4 * fixed_count as usize;
        DatumIdRecords::over(self.bytes, start, count)
    }
}
