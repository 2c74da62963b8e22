//! What comes to a session next: a line of its text, or before the line is whole datagrams or a tick.

ghost use Rattle.std.specs.Prelude.{◌≡◌, ◌<◌, ◌-◌, ◌^◌, ◌&&◌, false, true, length, IfOk, IfSome, Some};
ghost use Rattle.siman_operator.specs.Clocks.{is_reached, wait_end};
ghost use Rattle.siman_operator.specs.Coming.{GoesOnBy, size_of, number_by, is_tick, is_of_text, ends_wait, come_of, ComesTo};
ghost use Rattle.siman_operator.specs.Deeds.{data_of, ticks_at};

use crate::post::Post;
use byte_files::{ReadFailed, fill};
use siman_lines::{Input, Line, Ready};
use std::io::{Read, Write};

/// What comes next.
#[derive(Clone, Copy, Debug)]
pub(crate) enum Coming {
    /// The station ticks by itself; the line of the text is not whole yet.
    Tick,
    /// Datagrams may have come to the link, or the wait has ended; the line of the text is not whole
    /// yet.
    Datagrams,
    /// A line of the text: so many bytes of it are in the buffer, all of it or as many as fit.
    Line(usize),
    /// The end of the text.
    End,
}

impl Coming {
    /// How many bytes of the buffer are to be taken: those of the line, or else none. `None` at the
    /// end of the text.
    pub(crate) fn size(self) -> Option<usize>
        ensures { result ≡ size_of self }
    {
        match self {
            Coming::Tick | Coming::Datagrams => Some(0),
            Coming::Line(size) => Some(size),
            Coming::End => None,
        }
    }

    /// How many lines have come, given how many came before.
    pub(crate) fn number(self, before: u64) -> u64
        requires { before < 2 ^ 64 - 1 }
        ensures { result ≡ number_by before self }
    {
        match self {
            Coming::Line(_) => before + 1,
            Coming::Tick | Coming::Datagrams | Coming::End => before,
        }
    }

    /// Whether it is a tick.
    pub(crate) fn is_tick(self) -> bool
        ensures { result ≡ is_tick self }
    {
        match self {
            Coming::Tick => true,
            Coming::Datagrams | Coming::Line(_) | Coming::End => false,
        }
    }
}

/// What comes next, and what the last wait for it found.
#[derive(Clone, Copy, Debug)]
pub(crate) struct Come {
    pub coming: Coming,
    /// Until when the wait lasts at most. `None`: for ever.
    pub until: Option<u64>,
    /// Nothing waits for a tick: then it has neither text nor datagrams, and the time of the clock.
    pub found: Ready,
}

/// Reads one byte of a text, if it is ready. `held` is how much the buffer has of the line that has
/// begun. Returns what comes if the byte ends the line or the text has ended; the next line then
/// has not begun.
fn read_on<R: Read>(
    ready: bool,
    reader: &mut R,
    buffer: &mut [u8],
    held: &mut usize,
) -> Result<Option<Coming>, ReadFailed>
    requires { 0 < length buffer.old }
    ensures goes { IfOk result (GoesOnBy (R.remaining reader.old) (R.remaining reader.new) buffer.old buffer.new held.old held.new) }
    ensures no_tick { IfOk result (λ step. IfSome step (λ coming. is_tick coming ≡ false)) }
    ensures text { IfOk result (λ step. IfSome step (λ coming. (ready && is_of_text coming) ≡ true)) }
{
    if !ready {
        return Ok(None);
    }
    let mut byte = [0; 1];
    let size = *held;
    if fill(reader, &mut byte)? == 0 {
        *held = 0;
        let coming = if size == 0 {
            Coming::End
        } else {
            Coming::Line(size)
        };
        return Ok(Some(coming));
    }
    if byte[0] == b'\n' {
        *held = 0;
        return Ok(Some(Coming::Line(size)));
    }
    if size < buffer.len() {
        buffer[size] = byte[0];
        *held = size + 1;
    }
    Ok(None)
}

/// Whether a time has come.
fn is_reached(time: Option<u64>, now: u64) -> bool
    ensures { result ≡ is_reached time now }
{
    match time {
        Some(time) => time <= now,
        None => false,
    }
}

/// What comes after a wait until a time, by what it found and what the text says then, if its line
/// is whole or it has ended. `None`: nothing yet, and the wait goes on.
fn come_of(until: Option<u64>, found: Ready, said: Option<Coming>) -> Option<Come>
    ensures { result ≡ come_of until found said }
{
    if let Some(coming) = said {
        return Some(Come {
            coming,
            until,
            found,
        });
    }
    if found.datagrams || is_reached(until, found.time) {
        let coming = Coming::Datagrams;
        return Some(Come {
            coming,
            until,
            found,
        });
    }
    None
}

/// Waits for the next line of a text, for datagrams at a link, or until the system's clock shows
/// `until`, whichever comes first. Of a line that is not whole the buffer has the first `held`
/// bytes, and the next call goes on there.
fn next_coming<L, R: Input<L>>(
    input: &mut R,
    line: &L,
    until: Option<u64>,
    buffer: &mut [u8],
    held: &mut usize,
) -> Result<Come, ReadFailed>
    requires { 0 < length buffer.old }
    ensures goes { IfOk result (λ come. GoesOnBy (R.remaining input.old) (R.remaining input.new) buffer.old buffer.new held.old held.new (Some come.coming)) }
    ensures no_tick { IfOk result (λ come. is_tick come.coming ≡ false) }
    ensures until { IfOk result (λ come. come.until ≡ until) }
    ensures ends { IfOk result (λ come. ends_wait until come.found come.coming ≡ true) }
{
    for _ in 0..u64::MAX {
        let found = input.wait(line, until);
        let said = read_on(found.text, input, buffer, held)?;
        if let Some(come) = come_of(until, found, said) {
            return Ok(come);
        }
    }
    Err(ReadFailed)
}

/// What comes next to a post: a tick, if an order is due by the system's clock; or else what it
/// waits for.
pub(crate) fn next_step<L: Line + Drop, R: Input<L>, W: Write>(
    input: &mut R,
    post: &Post<'_, L, W>,
    buffer: &mut [u8],
    held: &mut usize,
) -> Result<Come, ReadFailed>
    requires { 0 < length buffer.old }
    ensures goes { IfOk result (λ come. GoesOnBy (R.remaining input.old) (R.remaining input.new) buffer.old buffer.new held.old held.new (Some come.coming)) }
    ensures ticks { IfOk result (λ come. is_tick come.coming ≡ ticks_at (data_of post.now)) }
    ensures until { IfOk result (λ come. come.until ≡ wait_end post.now.source post.now.station.node.manager) }
    ensures comes { IfOk result (ComesTo (data_of post.now)) }
{
    let pace = post.pace();
    let until = pace.until;
    if pace.ticks {
        let found = Ready {
            text: false,
            datagrams: false,
            time: post.time(),
        };
        let coming = Coming::Tick;
        return Ok(Come {
            coming,
            until,
            found,
        });
    }
    next_coming(input, post.link(), until, buffer, held)
}
