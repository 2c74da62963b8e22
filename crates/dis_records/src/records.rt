//! Iterators over the datum records and identifiers in a datagram.

ghost use Rattle.std.specs.Prelude.{◌≡◌, ◌+◌, ◌*◌, ◌≤◌, length};
ghost use Rattle.std.specs.Iterator.{YieldsFirst, YieldsFirstBy, item_count};
ghost use Rattle.dis_records.specs.Layout.{total};
ghost use Rattle.dis_records.specs.Records.{fixed_at, ids_at, variable_at, variable_sizes, shown};

use crate::datum::{FixedDatum, VariableView, padded_size};
use crate::field::u32_at;
use std::marker::Model;

/// Iterator over fixed datum records of a datagram; contracts see the list of the remaining ones.
#[derive(Drop)]
pub struct FixedRecords<'a> {
    bytes: &'a [u8],
    at: usize,
    left: u32,
}

impl<'a> Model for FixedRecords<'a> {
    ghost use Rattle.std.specs.Prelude.{List, ◌+◌, ◌*◌, ◌≤◌, length};
    ghost use Rattle.dis_records.specs.declared.datum.FixedDatum.{FixedDatum};
    ghost use Rattle.dis_records.specs.Records.{fixed_at};

    ghost Value = { List FixedDatum };

    ghost view = { λ s. fixed_at s.left s.at s.bytes.now };

    ghost invariant = { λ s. s.at + 8 * s.left ≤ length s.bytes.now };
}

impl<'a> FixedRecords<'a> {
    /// Iterator over `count` records from an offset on, which are all complete.
    pub fn over(bytes: &'a [u8], at: usize, count: u32) -> FixedRecords<'a>
        requires { at + 8 * count ≤ length bytes.now }
        ensures { result ≡ fixed_at count at bytes.now }
    {
        FixedRecords {
            bytes,
            at,
            left: count,
        }
    }
}

impl<'a> Iterator for FixedRecords<'a> {
    type Item = FixedDatum;

    ghost next_gives = { YieldsFirst (λ rest. rest) };

    ghost remaining = { item_count (λ rest. rest) };

    #[tactic(auto, using(crate::proofs::Lists::fixed_none, crate::proofs::Lists::fixed_more))]
    fn next(&mut self) -> Option<FixedDatum> {
        if self.left == 0 {
            return None;
        }
        let datum = FixedDatum {
            id: u32_at(self.bytes, self.at),
            value: u32_at(self.bytes, self.at + 4),
        };
        self.left -= 1;
        self.at += 8;
        Some(datum)
    }
}

/// Iterator over datum identifiers of a datagram; contracts see the list of the remaining ones.
#[derive(Drop)]
pub struct DatumIdRecords<'a> {
    bytes: &'a [u8],
    at: usize,
    left: u32,
}

impl<'a> Model for DatumIdRecords<'a> {
    ghost use Rattle.std.specs.Prelude.{List, ℕ, ◌+◌, ◌*◌, ◌≤◌, length};
    ghost use Rattle.dis_records.specs.Records.{ids_at};

    ghost Value = { List ℕ };

    ghost view = { λ s. ids_at s.left s.at s.bytes.now };

    ghost invariant = { λ s. s.at + 4 * s.left ≤ length s.bytes.now };
}

impl<'a> DatumIdRecords<'a> {
    /// Iterator over `count` identifiers from an offset on, which are all complete.
    pub fn over(bytes: &'a [u8], at: usize, count: u32) -> DatumIdRecords<'a>
        requires { at + 4 * count ≤ length bytes.now }
        ensures { result ≡ ids_at count at bytes.now }
    {
        DatumIdRecords {
            bytes,
            at,
            left: count,
        }
    }
}

impl<'a> Iterator for DatumIdRecords<'a> {
    type Item = u32;

    ghost next_gives = { YieldsFirst (λ rest. rest) };

    ghost remaining = { item_count (λ rest. rest) };

    #[tactic(auto, using(crate::proofs::Lists::ids_none, crate::proofs::Lists::ids_more))]
    fn next(&mut self) -> Option<u32> {
        if self.left == 0 {
            return None;
        }
        let id = u32_at(self.bytes, self.at);
        self.left -= 1;
        self.at += 4;
        Some(id)
    }
}

/// Iterator over variable datum records of a datagram; contracts see the list of the remaining
/// ones.
#[derive(Drop)]
pub struct VariableRecords<'a> {
    bytes: &'a [u8],
    at: usize,
    left: u32,
}

impl<'a> Model for VariableRecords<'a> {
    ghost use Rattle.std.specs.Prelude.{List, ◌+◌, ◌≤◌, length};
    ghost use Rattle.dis_records.specs.Datum.{Datum};
    ghost use Rattle.dis_records.specs.Layout.{total};
    ghost use Rattle.dis_records.specs.Records.{variable_at, variable_sizes};

    ghost Value = { List Datum };

    ghost view = { λ s. variable_at s.left s.at s.bytes.now };

    ghost invariant = { λ s. s.at + total (variable_sizes s.left s.at s.bytes.now) ≤ length s.bytes.now };
}

impl<'a> VariableRecords<'a> {
    /// Iterator over `count` records from an offset on, which are all complete.
    pub fn over(bytes: &'a [u8], at: usize, count: u32) -> VariableRecords<'a>
        requires { at + total (variable_sizes count at bytes.now) ≤ length bytes.now }
        ensures { result ≡ variable_at count at bytes.now }
    {
        VariableRecords {
            bytes,
            at,
            left: count,
        }
    }
}

impl<'a> Iterator for VariableRecords<'a> {
    type Item = VariableView<'a>;

    ghost next_gives = { YieldsFirstBy shown (λ rest. rest) };

    ghost remaining = { item_count (λ rest. rest) };

    #[tactic(auto, using(crate::proofs::Lists::variable_none, crate::proofs::Lists::variable_more, crate::proofs::Lists::sizes_more))]
    fn next(&mut self) -> Option<VariableView<'a>> {
        if self.left == 0 {
            return None;
        }
        let id = u32_at(self.bytes, self.at);
        let bits = u32_at(self.bytes, self.at + 4);
        let value = self.at + 8;
        let size = bits.div_ceil(8) as usize;
        let bytes = &self.bytes[value..value + size];
        self.left -= 1;
        self.at += padded_size(bits) as usize;
        Some(VariableView { id, bits, bytes })
    }
}
