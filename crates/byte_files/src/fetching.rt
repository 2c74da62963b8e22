//! Fetches all bytes of a reader, up to one byte past a limit.

ghost use Rattle.std.specs.Prelude.{◌≤◌, ◌<◌, ◌≡◌, ◌+◌, ◌++◌, length, take, vec_len, IfSome, IfOk, OnErr};
ghost use Rattle.std.specs.Io.KnownBytes.{Consumes, IsAtEnd};
ghost use Rattle.byte_files.specs.Fetching.{fetched, LosesAtMost};

use crate::filling::{ReadFailed, fill};
use std::alloc::{AllocError, Global};
use std::io::Read;

/// Number of bytes requested at a time.
const CHUNK: usize = 65_536;

/// Why the bytes of a reader were not fetched.
#[derive(Clone, Copy, Debug, PartialEq, Eq)]
pub enum FetchFault {
    /// A read failed.
    Read,
    /// There is no memory for the bytes.
    Memory,
}

impl From<AllocError> for FetchFault {
    ghost use Rattle.byte_files.specs.declared.fetching.FetchFault.TheVariants.{Memory};

    ghost from_gives = { λ _ e. e ≡ Memory };

    fn from(_e: AllocError) -> FetchFault {
        FetchFault::Memory
    }
}

impl From<ReadFailed> for FetchFault {
    ghost use Rattle.byte_files.specs.declared.fetching.FetchFault.TheVariants.{Read};

    ghost from_gives = { λ _ e. e ≡ Read };

    fn from(_e: ReadFailed) -> FetchFault {
        FetchFault::Read
    }
}

/// Appends the next bytes of a reader, as many as the chunk holds; returns their number, which is
/// smaller than the chunk only at the end of the reader.
fn fetch_more<R: Read>(
    reader: &mut R,
    chunk: &mut [u8],
    bytes: &mut Vec<u8>,
) -> Result<usize, FetchFault>
    ensures within { IfOk result (λ n. n ≤ length chunk.new) }
    ensures added { IfOk result (λ n. bytes.new.items ≡ bytes.old.items ++ take n chunk.new) }
    ensures grown { IfOk result (λ n. vec_len bytes.new ≡ vec_len bytes.old + n) }
    ensures taken { IfOk result (λ n. Consumes (R.remaining reader.old) (R.remaining reader.new) (take n chunk.new)) }
    ensures end { IfOk result (λ n. n < length chunk.new → IsAtEnd (R.remaining reader.new)) }
    ensures failed { OnErr result (LosesAtMost (length chunk.new) (R.remaining reader.old) (R.remaining reader.new)) }
{
    let filled = fill(reader, chunk)?;
    bytes.extend_from_slice(&chunk[..filled])?;
    Ok(filled)
}

/// Number of bytes to fetch next, after `fetched` bytes, which are at most `most`: a whole chunk,
/// or fewer if that reaches one byte past `most`.
fn room(chunk: usize, most: u64, fetched: usize) -> usize
    requires few { fetched ≤ most }
    requires chunk { 0 < chunk }
    ensures some { 0 < result }
    ensures chunk { result ≤ chunk }
    ensures most { fetched + result ≤ most + 1 }
    ensures whole { result < chunk → fetched + result ≡ most + 1 }
{
    let left = most - fetched as u64;
    if left < chunk as u64 {
        left as usize + 1
    } else {
        chunk
    }
}

/// Like [`fetch`], with a chunk as buffer.
fn fetch_chunks<R: Read>(
    alloc: Global,
    reader: &mut R,
    chunk: &mut [u8],
    most: u64,
) -> Result<Vec<u8>, FetchFault>
    requires { 0 < length chunk.old }
    ensures text { IfOk result (λ bytes. IfSome (R.remaining reader.old) (λ there. bytes.items ≡ fetched most there)) }
    ensures taken { IfOk result (λ bytes. Consumes (R.remaining reader.old) (R.remaining reader.new) bytes.items) }
    ensures limit { IfOk result (λ bytes. vec_len bytes ≤ most + 1) }
    ensures failed { OnErr result (LosesAtMost (most + 1) (R.remaining reader.old) (R.remaining reader.new)) }
{
    let mut bytes = Vec::new(alloc);
    for _ in 0..u64::MAX {
        if bytes.len() as u64 > most {
            return Ok(bytes);
        }
        let room = room(chunk.len(), most, bytes.len());
        let filled = fetch_more(reader, &mut chunk[..room], &mut bytes)?;
        if filled < room {
            return Ok(bytes);
        }
    }
    Err(FetchFault::Read)
}

/// Fetches all bytes of a reader, up to one byte past `most`; takes no more from the reader, even
/// if it fails. The memory grows with the bytes that arrive.
pub fn fetch<R: Read>(alloc: Global, reader: &mut R, most: u64) -> Result<Vec<u8>, FetchFault>
    ensures text { IfOk result (λ bytes. IfSome (R.remaining reader.old) (λ there. bytes.items ≡ fetched most there)) }
    ensures taken { IfOk result (λ bytes. Consumes (R.remaining reader.old) (R.remaining reader.new) bytes.items) }
    ensures limit { IfOk result (λ bytes. vec_len bytes ≤ most + 1) }
    ensures failed { OnErr result (LosesAtMost (most + 1) (R.remaining reader.old) (R.remaining reader.new)) }
{
    let mut chunk = vec![in alloc; 0u8; CHUNK]?;
    fetch_chunks(alloc, reader, &mut chunk, most)
}
