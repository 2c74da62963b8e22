//! Datagrams of which fragments are held.

ghost use Rattle.std.specs.Prelude.{◌≡◌, ◌+◌, ◌<◌, ◌≤◌, ◌^◌, length, insert, not, IfOk, IfSome};
ghost use Rattle.std.specs.Option.{option_map};
ghost use Rattle.packet_captures.specs.Pending.{PlainPart, PlainPending, all_within, begun_at, cover, end_of, extended, goes_on, has_wrong_end, has_wrong_length, index_from, is_complete, is_wrong, joined, same_key};

use crate::fragment::Key;
use std::alloc::{AllocError, Global};
use std::marker::Model;

/// Time in microseconds after which a datagram that is not whole is forgotten (profile; RFC 791
/// says at least 15 seconds, RFC 8200 says 60).
const LIFETIME: u64 = 30_000_000;

/// Place behind which no byte of a datagram stands.
const LARGEST_END: usize = 65_535;

/// A part of a datagram: where it begins there, in bytes, and its bytes.
#[derive(Drop)]
pub(crate) struct Part {
    offset: u16,
    bytes: Vec<u8>,
}

impl Model for Part {
    ghost use Rattle.packet_captures.specs.Pending.{PlainPart};

    ghost Value = { PlainPart };

    ghost view = { λ p. record { offset = p.offset; bytes = p.bytes.items } };
}

/// A datagram of which parts are held, in the order of their places.
#[derive(Drop)]
pub(crate) struct Pending {
    key: Key,
    /// Stamp of the part that came first, in microseconds.
    begun: u64,
    /// Size of the datagram, if its last part told it.
    end: Option<usize>,
    parts: Vec<Part>,
}

impl Model for Pending {
    ghost use Rattle.packet_captures.specs.Pending.{PlainPending};

    ghost Value = { PlainPending };

    ghost view = { λ d. record { key = d.key; begun = d.begun; end = d.end; parts = d.parts.items } };
}

impl Pending {
    /// A datagram of which nothing is held yet.
    pub(crate) fn begun_at(alloc: Global, key: Key, stamp: u64) -> Pending
        ensures { result ≡ begun_at key stamp }
    {
        Pending {
            key,
            begun: stamp,
            end: None,
            parts: Vec::new(alloc),
        }
    }

    /// Whether fragments with this key are parts of the datagram.
    pub(crate) fn is_of(&self, key: &Key) -> bool
        ensures { result ≡ same_key key.now self.now.key }
    {
        *key == self.key
    }

    /// Whether a part that comes at this stamp goes on with the datagram.
    pub(crate) fn goes_on(&self, stamp: u64) -> bool
        ensures { result ≡ goes_on stamp self.now }
    {
        self.begun <= stamp && stamp - self.begun < LIFETIME
    }

    /// Whether a part with this end, behind which more follow or not, disagrees with the end of the
    /// datagram: the end is told already, or the part stands behind it, or tells one behind which a
    /// part stands.
    fn has_wrong_end(&self, end: usize, more: bool) -> bool
        ensures { result ≡ has_wrong_end self.now end more }
    {
        let told = match self.end {
            Some(told) => !more || told < end,
            None => false,
        };
        told || !more && !all_within(&self.parts, end)
    }

    /// Whether a part has a wrong length, reaches beyond 65,535, or disagrees with the end.
    #[tactic(auto, unfolding(crate::specs::Pending::is_wrong))]
    fn is_wrong(&self, offset: u16, bytes: &[u8], more: bool) -> bool
        ensures { let p : PlainPart = record { offset = offset; bytes = bytes.now } in result ≡ is_wrong self.now p more }
    {
        let end = usize::from(offset) + bytes.len();
        has_wrong_length(bytes.len(), more) || end > LARGEST_END || self.has_wrong_end(end, more)
    }

    /// The datagram with one more part, behind which more follow or not; `None` if the part is
    /// wrong or overlaps another.
    #[tactic(auto, unfolding(crate::specs::Pending::extended))]
    pub(crate) fn extended(
        self,
        alloc: Global,
        offset: u16,
        bytes: &[u8],
        more: bool,
    ) -> Result<Option<Pending>, AllocError>
        ensures { let p : PlainPart = record { offset = offset; bytes = bytes.now } in IfOk result (λ extension. extension ≡ extended self p more) }
    {
        if self.is_wrong(offset, bytes, more) {
            return Ok(None);
        }
        let start = usize::from(offset);
        let end = start + bytes.len();
        let Some(index) = index_among(&self.parts, start, end) else {
            return Ok(None);
        };
        let bytes = Vec::from_slice(alloc, bytes)?;
        let Pending {
            key,
            begun,
            end: told,
            mut parts,
        } = self;
        parts.insert(index, Part { offset, bytes })?;
        let end = if more { told } else { Some(end) };
        Ok(Some(Pending {
            key,
            begun,
            end,
            parts,
        }))
    }

    /// The bytes of the parts, one after the other.
    pub(crate) fn joined(&self, alloc: Global) -> Result<Vec<u8>, AllocError>
        ensures { IfOk result (λ bytes. bytes.items ≡ joined self.now.parts) }
    {
        joined(alloc, &self.parts)
    }

    /// Whether its end is told and its parts cover it.
    pub(crate) fn is_complete(&self) -> bool
        ensures { result ≡ is_complete self.now }
    {
        match self.end {
            Some(end) => cover(&self.parts, end),
            None => false,
        }
    }
}

/// Whether a part of `size` bytes, behind which more follow or not, has a wrong length.
fn has_wrong_length(size: usize, more: bool) -> bool
    ensures { result ≡ has_wrong_length size more }
{
    more && (size == 0 || size % 8 != 0)
}

/// Whether no part reaches behind this place.
fn all_within(parts: &[Part], end: usize) -> bool
    ensures { result ≡ all_within end parts.now }
{
    for part in parts {
        if part_end(part) > end {
            return false;
        }
    }
    true
}

/// Place behind a part.
fn part_end(part: &Part) -> usize
    ensures { result ≡ end_of part.now }
{
    usize::from(part.offset) + part.bytes.len()
}

/// Whether the parts follow one another from the front to this place.
fn cover(parts: &[Part], end: usize) -> bool
    ensures { result ≡ cover 0 end parts.now }
{
    let mut at = 0;
    for part in parts {
        if usize::from(part.offset) != at {
            return false;
        }
        at = part_end(part);
    }
    at == end
}

/// Index at which a part from `offset` to `end` stands among these; `None` if it overlaps one.
fn index_among(parts: &[Part], offset: usize, end: usize) -> Option<usize>
    ensures index { result ≡ index_from 0 offset end parts.now }
    ensures within { IfSome result (λ i. i ≤ length parts.now) }
{
    for (i, part) in parts.iter().enumerate() {
        if end <= usize::from(part.offset) {
            return Some(i);
        }
        if part_end(part) > offset {
            return None;
        }
    }
    Some(parts.len())
}

/// The bytes of parts, one after the other.
fn joined(alloc: Global, parts: &[Part]) -> Result<Vec<u8>, AllocError>
    ensures { IfOk result (λ bytes. bytes.items ≡ joined parts.now) }
{
    let mut bytes = Vec::new(alloc);
    for part in parts {
        bytes.extend_from_slice(&part.bytes)?;
    }
    Ok(bytes)
}
