//! Datum records: a value under an identifier.

ghost use Rattle.std.specs.Prelude.{◌≡◌, ◌+◌, ◌*◌, ◌/◌, IfOk, IfErr, IsOk, IsTrue, ◌↔◌, length, slice_get, ◌-◌};
ghost use Rattle.dis_records.specs.Layout.{bytes_for, cleared, last_cleared};
ghost use Rattle.dis_records.specs.Datum.{Datum, IsDatum, padded};

use std::alloc::{AllocError, Global};
use std::marker::Model;
use thiserror::Error;

/// A fixed datum record (IEEE 1278.1-2012, 6.2.37): a 32-bit value under a datum identifier.
#[derive(Clone, Copy, PartialEq, Eq)]
pub struct FixedDatum {
    pub id: u32,
    pub value: u32,
}

/// Size in bytes of a variable datum record with a value of `bits` bits: identifier and length (8
/// bytes), and the value padded to a multiple of 64 bits.
pub fn padded_size(bits: u32) -> u64
    ensures { result ≡ padded bits }
{
    8 + 8 * u64::from(bits.div_ceil(64))
}

/// Why bytes are not the value of a datum; holds these bytes.
#[derive(Debug, Drop, Error)]
pub enum DatumFault {
    /// The number of bytes is not `ceil(bits / 8)`.
    #[error("wrong size")]
    WrongSize(Vec<u8>),
    /// An unused low bit of the last byte is not zero.
    #[error("unused bits")]
    UnusedBits(Vec<u8>),
}

/// A variable datum record (IEEE 1278.1-2012, 6.2.93): a value of `bits` bits under a datum
/// identifier. The bits fill `ceil(bits / 8)` bytes from the most significant bit on; unused low
/// bits of the last byte are zero (profile).
#[derive(Drop)]
pub struct VariableDatum {
    id: u32,
    bits: u32,
    bytes: Vec<u8>,
}

impl Model for VariableDatum {
    ghost use Rattle.dis_records.specs.Datum.{Datum, IsDatum};

    ghost Value = { Datum };

    ghost view = { λ d. record { id = d.id; bits = d.bits; bytes = d.bytes.items } };

    ghost invariant = { λ d. IsDatum (record { id = d.id; bits = d.bits; bytes = d.bytes.items }) };
}

impl VariableDatum {
    ghost use Rattle.dis_records.specs.Refusals.{RefusesBytes};

    /// Datum with this value. Returns WrongSize if there are not `ceil(bits / 8)` bytes, else
    /// UnusedBits if an unused bit of the last byte is not zero; the fault has the bytes.
    pub fn new(id: u32, bits: u32, bytes: Vec<u8>) -> Result<VariableDatum, DatumFault>
        ensures value { let d : Datum = record { id = id; bits = bits; bytes = bytes.items } in IfOk result (λ datum. datum ≡ d) }
        ensures succeeds { let d : Datum = record { id = id; bits = bits; bytes = bytes.items } in IsDatum d → IsOk result }
        ensures refused { IfErr result (λ fault. RefusesBytes bits bytes.items fault) }
    {
        if bytes.len() != bits.div_ceil(8) as usize {
            return Err(DatumFault::WrongSize(bytes));
        }
        if has_unused(bits, &bytes) {
            return Err(DatumFault::UnusedBits(bytes));
        }
        Ok(VariableDatum { id, bits, bytes })
    }

    /// Datum identifier.
    pub fn id(&self) -> u32
        ensures { result ≡ self.now.id }
    {
        self.id
    }

    /// Number of bits of the value.
    pub fn bits(&self) -> u32
        ensures { result ≡ self.now.bits }
    {
        self.bits
    }

    /// Bytes of the value, from the most significant bit on.
    pub fn bytes(&self) -> &[u8]
        ensures bytes { result.now ≡ self.now.bytes }
        ensures size { length result.now ≡ bytes_for self.now.bits }
        ensures unused { cleared self.now.bits result.now ≡ result.now }
    {
        &self.bytes
    }

    /// An owned copy of the datum.
    pub fn copy(&self, alloc: Global) -> Result<VariableDatum, AllocError>
        ensures { IfOk result (λ datum. datum ≡ self.now) }
    {
        let bytes = Vec::from_slice(alloc, &self.bytes)?;
        Ok(VariableDatum {
            id: self.id,
            bits: self.bits,
            bytes,
        })
    }
}

impl PartialEq for VariableDatum {
    ghost use Rattle.std.proofs.Common.{rules};
    ghost use Rattle.std.specs.Cmp.Rules.{comparing};
    ghost use Rattle.dis_records.specs.Datum.{same_datum};

    ghost eq = { same_datum };

    ghost laws = { Prim.search (comparing, rules) };

    /// Equal is identical.
    #[tactic(auto, using(crate::proofs::Equality::datum_decides))]
    fn eq(&self, other: &VariableDatum) -> bool
        ensures value { result ≡ same_datum self.now other.now }
        ensures exact { IsTrue result ↔ (self.now ≡ other.now) }
    {
        self.id == other.id
            && (self.bits == other.bits && self.bytes.as_slice() == other.bytes.as_slice())
    }
}

impl Eq for VariableDatum {
    ghost use Rattle.std.proofs.Common.{rules};
    ghost use Rattle.std.specs.Cmp.Rules.{comparing};

    ghost laws = { Prim.search (comparing, rules) };
}

/// Last byte of a value of `bits` bits, its unused low bits set to zero.
fn cleared_last(bits: u32, last: u8) -> u8
    ensures { result ≡ last_cleared bits last }
{
    let used = bits % 8;
    if used == 0 {
        return last;
    }
    let step = 1u8 << (8 - used);
    last / step * step
}

/// Whether an unused low bit of the last byte is not zero.
fn has_unused(bits: u32, bytes: &[u8]) -> bool
    requires { length bytes.now ≡ bytes_for bits }
    ensures { IsTrue result ↔ ¬ (cleared bits bytes.now ≡ bytes.now) }
{
    match bytes.last() {
        None => false,
        Some(last) => cleared_last(bits, *last) != *last,
    }
}

/// A variable datum record in a datagram: its unused bits and its padding may have any value.
#[derive(Clone, Copy)]
pub struct VariableView<'a> {
    pub id: u32,
    pub bits: u32,
    pub bytes: &'a [u8],
    pub ghost whole: { length bytes.now ≡ bytes_for bits },
}

impl<'a> VariableView<'a> {
    /// Last byte with its unused low bits cleared, or `None` for a value of 0 bits.
    pub fn last(&self) -> Option<u8>
        ensures { result ≡ slice_get (cleared self.now.bits self.now.bytes.now) (length self.now.bytes.now - 1) }
    {
        let last = self.bytes.last()?;
        Some(cleared_last(self.bits, *last))
    }
}
