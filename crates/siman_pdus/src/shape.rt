//! Checks that all parts of a body are complete, before any of them is read.

ghost use Rattle.std.specs.Prelude.{◌≡◌, ◌+◌, ◌*◌, ◌≤◌, ◌<◌, length, replicate, IfOk, MatchResult, OnOk, Some, None, [], ◌∷◌};
ghost use Rattle.dis_records.specs.Records.{variable_sizes};
ghost use Rattle.siman_pdus.specs.Shape.{ends, fixed_part, datum_sizes, id_sizes, part_sizes, body_refusal, IsWhole};

use crate::fault::ViewFault;
use dis_records::field::u32_at;
use dis_records::{HEADER_SIZE, Kind, padded_size};

/// Sizes in bytes of a fixed datum record and of a datum identifier.
const FIXED_SIZE: usize = 8;

const ID_SIZE: usize = 4;

/// Offsets of the two record counts: in a Comment, and in all other kinds that have records.
const COMMENT_COUNTS: usize = 24;

const COUNTS: usize = 32;

/// End of a part, if it is complete.
fn part_end(bytes: &[u8], at: usize, size: usize) -> Result<usize, ViewFault>
    requires { at ≤ length bytes.now }
    ensures ends { result ≡ ends at (size ∷ []) (length bytes.now) }
    ensures within { IfOk result (λ end. (end ≡ at + size) × (end ≤ length bytes.now)) }
{
    if bytes.len() - at < size {
        return Err(ViewFault::BodyShort(at));
    }
    Ok(at + size)
}

/// End of `count` parts of equal size. It is computed from the number of bytes left, without a walk
/// over the parts.
#[tactic(auto, using(crate::proofs::Ends::parts_there, crate::proofs::Ends::parts_short))]
fn parts_end(bytes: &[u8], start: usize, count: u32, size: usize) -> Result<usize, ViewFault>
    requires room { start ≤ length bytes.now }
    requires some { 0 < size }
    ensures ends { result ≡ ends start (replicate count size) (length bytes.now) }
    ensures within { IfOk result (λ end. (end ≡ start + size * count) × (end ≤ length bytes.now)) }
{
    let there = (bytes.len() - start) / size;
    let count = count as usize;
    if there < count {
        return Err(ViewFault::BodyShort(start + size * there));
    }
    Ok(start + size * count)
}

/// End of `count` variable datum records.
fn variable_end(bytes: &[u8], start: usize, count: u32) -> Result<usize, ViewFault>
    requires { start ≤ length bytes.now }
    ensures ends { result ≡ ends start (variable_sizes count start bytes.now) (length bytes.now) }
{
    let mut at = start;
    for _ in 0..count {
        part_end(bytes, at, 8)?;
        let size = padded_size(u32_at(bytes, at + 4)) as usize;
        at = part_end(bytes, at, size)?;
    }
    Ok(at)
}

/// End of the datums whose two counts are at offset `counts`.
fn datums_end(bytes: &[u8], counts: usize) -> Result<usize, ViewFault>
    requires { counts + 8 ≤ length bytes.now }
    ensures { result ≡ ends (counts + 8) (datum_sizes counts bytes.now) (length bytes.now) }
{
    let fixed = parts_end(bytes, counts + 8, u32_at(bytes, counts), FIXED_SIZE)?;
    variable_end(bytes, fixed, u32_at(bytes, counts + 4))
}

/// End of the identifiers whose two counts are at offset `counts`.
fn ids_end(bytes: &[u8], counts: usize) -> Result<usize, ViewFault>
    requires { counts + 8 ≤ length bytes.now }
    ensures { result ≡ ends (counts + 8) (id_sizes counts bytes.now) (length bytes.now) }
{
    let fixed = parts_end(bytes, counts + 8, u32_at(bytes, counts), ID_SIZE)?;
    parts_end(bytes, fixed, u32_at(bytes, counts + 4), ID_SIZE)
}

/// Size in bytes of the fixed part of a body, from offset 12 on.
fn fixed_size(kind: Kind) -> usize
    ensures { result ≡ fixed_part kind }
{
    match kind {
        Kind::CreateEntity | Kind::RemoveEntity => 16,
        Kind::Acknowledge | Kind::Comment => 20,
        Kind::StopFreeze
        | Kind::ActionRequest
        | Kind::ActionResponse
        | Kind::DataQuery
        | Kind::SetData
        | Kind::DataPdu
        | Kind::EventReport => 28,
        Kind::StartResume => 32,
    }
}

fn body_end(kind: Kind, bytes: &[u8]) -> Result<usize, ViewFault>
    requires { 12 ≤ length bytes.now }
    ensures { result ≡ ends 12 (part_sizes kind bytes.now) (length bytes.now) }
{
    let end = part_end(bytes, HEADER_SIZE, fixed_size(kind))?;
    match kind {
        Kind::CreateEntity
        | Kind::RemoveEntity
        | Kind::StartResume
        | Kind::StopFreeze
        | Kind::Acknowledge => Ok(end),
        Kind::ActionRequest
        | Kind::ActionResponse
        | Kind::SetData
        | Kind::DataPdu
        | Kind::EventReport => datums_end(bytes, COUNTS),
        Kind::DataQuery => ids_end(bytes, COUNTS),
        Kind::Comment => datums_end(bytes, COMMENT_COUNTS),
    }
}

/// Checks that all parts of a body are complete and no bytes follow the last. Returns BodyShort or
/// BodyLong.
#[tactic(auto, using(crate::proofs::Ends::refused_whole))]
pub fn check_body(kind: Kind, bytes: &[u8]) -> Result<(), ViewFault>
    requires { 12 ≤ length bytes.now }
    ensures refusal { MatchResult result (λ _. body_refusal kind bytes.now ≡ None) (λ fault. body_refusal kind bytes.now ≡ Some fault) }
    ensures whole { OnOk result (IsWhole kind bytes.now) }
{
    let end = body_end(kind, bytes)?;
    if end < bytes.len() {
        return Err(ViewFault::BodyLong(end));
    }
    Ok(())
}
