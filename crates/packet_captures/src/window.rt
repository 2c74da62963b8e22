//! A reader through a buffer, in which a whole block can be held.

ghost use Rattle.std.specs.Prelude.{◌≡◌, ◌≤◌, ◌<◌, ◌+◌, ◌++◌, ℕ, List, [], length, take, drop, true, false, vec_len, IfOk, OnOk, OnErr};
ghost use Rattle.std.specs.Io.KnownBytes.{Consumes, IsAtEnd};
ghost use Rattle.packet_captures.specs.Window.{SameAhead, IsAllHeld, Passes, PassesAll, passed};

use byte_files::{FetchFault, fill};
use std::alloc::{AllocError, Global};
use std::io::Read;
use std::marker::Model;

/// Size in bytes of the buffer, and by how much it grows where a block is larger.
const CHUNK: usize = 131_072;

/// A reader and its buffer: which part of it holds the bytes ahead, the offset of the first of these,
/// and which part holds the bytes of the last packet.
#[derive(Drop)]
pub(crate) struct Window<R: Read> {
    reader: R,
    buffer: Vec<u8>,
    start: usize,
    end: usize,
    at: u64,
    kept_start: usize,
    kept_end: usize,
}

impl<R: Read> Model for Window<R> {
    ghost use Rattle.std.specs.Prelude.{vec_len};
    ghost use Rattle.packet_captures.specs.Window.{Ahead, held_in, IsPlaced};

    ghost Value = { Ahead };

    ghost view = { λ w. record { at = w.at; held = held_in w.start w.end w.buffer.items; rest = R.remaining w.reader; kept = held_in w.kept_start w.kept_end w.buffer.items } };

    ghost invariant = { λ w. IsPlaced w.start w.end w.kept_start w.kept_end w.at (vec_len w.buffer) };
}

/// Fills a buffer behind a front that is in use; returns the number of bytes read, which is smaller
/// than the room only at the end of the reader.
fn fill_behind<R: Read>(
    reader: &mut R,
    buffer: &mut [u8],
    front: usize,
) -> Result<usize, FetchFault>
    requires { front ≤ length buffer.old }
    ensures within { IfOk result (λ n. front + n ≤ length buffer.new) }
    ensures front { take front buffer.new ≡ take front buffer.old }
    ensures taken { IfOk result (λ n. Consumes (R.remaining reader.old) (R.remaining reader.new) (take n (drop front buffer.new))) }
    ensures end { IfOk result (λ n. front + n < length buffer.new → IsAtEnd (R.remaining reader.new)) }
{
    Ok(fill(reader, &mut buffer[front..])?)
}

/// Appends room to a buffer.
fn grow(buffer: &mut Vec<u8>) -> Result<(), FetchFault>
    ensures len { OnOk result (vec_len buffer.new ≡ vec_len buffer.old + CHUNK) }
    ensures front { OnOk result ((rest : List ℕ) × (buffer.new.items ≡ buffer.old.items ++ rest)) }
    ensures failed { OnErr result (vec_len buffer.new ≡ vec_len buffer.old) }
{
    let size = buffer.len() + CHUNK;
    buffer.resize(size, 0)?;
    Ok(())
}

impl<R: Read + Drop> Window<R> {
    /// Window over a whole reader. Takes memory for the buffer.
    pub(crate) fn new(alloc: Global, reader: R) -> Result<Window<R>, AllocError>
        ensures { IfOk result (λ w. w ≡ record { at = 0; held = []; rest = R.remaining reader; kept = [] }) }
    {
        let buffer = vec![in alloc; 0u8; CHUNK]?;
        Ok(Window {
            reader,
            buffer,
            start: 0,
            end: 0,
            at: 0,
            kept_start: 0,
            kept_end: 0,
        })
    }
}

impl<R: Read> Window<R> {
    /// The bytes that are held.
    pub(crate) fn held(&self) -> &[u8]
        ensures { result.now ≡ self.now.held }
    {
        &self.buffer[self.start..self.end]
    }

    /// The bytes of the last packet.
    pub(crate) fn kept(&self) -> &[u8]
        ensures { result.now ≡ self.now.kept }
    {
        &self.buffer[self.kept_start..self.kept_end]
    }

    /// Number of bytes that are held.
    fn count(&self) -> usize
        ensures { result ≡ length self.now.held }
    {
        self.end - self.start
    }

    /// Offset of a byte that is held, or of the one behind them, by its index.
    pub(crate) fn offset(&self, index: usize) -> u64
        requires { index ≤ length self.now.held }
        ensures { result ≡ self.now.at + index }
    {
        self.at + index as u64
    }

    /// Passes over bytes that are held.
    pub(crate) fn pass(&mut self, size: usize)
        requires { size ≤ length self.old.held }
        ensures { self.new ≡ passed size self.old [] }
    {
        self.start += size;
        self.at += size as u64;
        self.kept_start = 0;
        self.kept_end = 0;
    }

    /// Passes over bytes that are held; a part of them, the bytes of a packet, stays readable.
    pub(crate) fn pass_keeping(&mut self, size: usize, from: usize, count: usize)
        requires within { from + count ≤ size }
        requires held { size ≤ length self.old.held }
        ensures { self.new ≡ passed size self.old (take count (drop from self.old.held)) }
    {
        self.kept_start = self.start + from;
        self.kept_end = self.start + from + count;
        self.start += size;
        self.at += size as u64;
    }

    /// Moves the bytes that are held to the front of the buffer.
    fn to_front(&mut self)
        ensures { self.new ≡ record self.old { kept = [] } }
    {
        self.buffer.copy_within(self.start..self.end, 0);
        self.end -= self.start;
        self.start = 0;
        self.kept_start = 0;
        self.kept_end = 0;
    }

    /// Makes room behind the bytes that are held, if there is none.
    fn make_room(&mut self) -> Result<(), FetchFault>
        ensures { OnOk result (self.new ≡ self.old) }
    {
        if self.end == self.buffer.len() {
            grow(&mut self.buffer)?;
        }
        Ok(())
    }

    /// Fills the room behind the bytes that are held; false at the end of the reader.
    fn fill_room(&mut self) -> Result<bool, FetchFault>
        ensures same { OnOk result (SameAhead self.old self.new) }
        ensures end { IfOk result (λ more. more ≡ false → IsAtEnd self.new.rest) }
    {
        let count = fill_behind(&mut self.reader, &mut self.buffer, self.end)?;
        let held = self.end - self.start + count;
        if self.at.checked_add(held as u64).is_none() {
            return Err(FetchFault::Read);
        }
        self.end += count;
        Ok(self.end == self.buffer.len())
    }

    /// Fetches more bytes; false at the end of the reader.
    fn fetch(&mut self) -> Result<bool, FetchFault>
        ensures same { OnOk result (SameAhead self.old self.new) }
        ensures end { IfOk result (λ more. more ≡ false → IsAtEnd self.new.rest) }
    {
        self.make_room()?;
        self.fill_room()
    }

    /// Fetches bytes until this many are held; false if there are not as many.
    fn fetch_to(&mut self, size: usize) -> Result<bool, FetchFault>
        ensures same { OnOk result (SameAhead self.old self.new) }
        ensures whole { IfOk result (λ whole. whole ≡ true → size ≤ length self.new.held) }
        ensures end { IfOk result (λ whole. whole ≡ false → (length self.new.held < size) × IsAllHeld self.new) }
    {
        for _ in 0..u64::MAX {
            if size <= self.count() {
                return Ok(true);
            }
            if !self.fetch()? {
                return Ok(size <= self.count());
            }
        }
        Err(FetchFault::Read)
    }

    /// Holds at least this many bytes, more than are held now.
    #[cold]
    #[inline(never)]
    fn refill(&mut self, size: usize) -> Result<bool, FetchFault>
        ensures same { OnOk result (SameAhead self.old self.new) }
        ensures whole { IfOk result (λ whole. whole ≡ true → size ≤ length self.new.held) }
        ensures end { IfOk result (λ whole. whole ≡ false → (length self.new.held < size) × IsAllHeld self.new) }
    {
        self.to_front();
        self.fetch_to(size)
    }

    /// Holds at least this many bytes; false if there are not as many, and then all are held. The
    /// memory grows with the bytes that arrive.
    #[inline]
    pub(crate) fn hold(&mut self, size: usize) -> Result<bool, FetchFault>
        ensures same { OnOk result (SameAhead self.old self.new) }
        ensures whole { IfOk result (λ whole. whole ≡ true → size ≤ length self.new.held) }
        ensures end { IfOk result (λ whole. whole ≡ false → (length self.new.held < size) × IsAllHeld self.new) }
    {
        if size <= self.count() {
            return Ok(true);
        }
        self.refill(size)
    }

    /// Passes over this many bytes, which are not held at once; false if there are not as many, and
    /// then all are passed.
    pub(crate) fn pass_over(&mut self, size: usize) -> Result<bool, FetchFault>
        ensures whole { IfOk result (λ whole. whole ≡ true → Passes size self.old self.new) }
        ensures end { IfOk result (λ whole. whole ≡ false → PassesAll size self.old self.new) }
    {
        let mut left = size;
        for _ in 0..u64::MAX {
            let count = self.count();
            if left <= count {
                self.pass(left);
                return Ok(true);
            }
            self.pass(count);
            left -= count;
            if !self.hold(1)? {
                return Ok(false);
            }
        }
        Err(FetchFault::Read)
    }
}
