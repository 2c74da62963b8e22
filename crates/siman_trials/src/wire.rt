//! A network in memory: what one link sends, all others receive, whole, once and in order.

ghost use Rattle.std.specs.Prelude.{◌≡◌, IfOk, length};

use crate::Stream;
use http_server::Log;
use siman_lines::{Line, LineFault, PassedOver};
use std::alloc::{AllocError, Global};
use std::cell::RefCell;
use std::rc::Rc;

/// A datagram, with the number of the link that sent it. `None`: a receive finds nothing.
#[derive(Drop)]
struct Sent {
    line: usize,
    datagram: Option<Vec<u8>>,
}

/// All that was sent on the network, oldest first.
#[derive(Drop)]
struct Wire {
    alloc: Global,
    sent: Vec<Sent>,
    /// Number of calls that its links made.
    calls: u64,
    /// Number of the call that fails, from 1.
    fails_at: Option<u64>,
}

/// The link of one station to the network.
#[derive(Drop)]
pub struct WireLine {
    wire: Rc<RefCell<Wire>>,
    line: usize,
    /// Number of items of the network that this link has passed.
    passed: usize,
    failures: Log<(), ()>,
}

/// The links of one network; of all their calls the one numbered `fails_at`, from 1, fails.
pub fn lines_of(
    alloc: Global,
    count: usize,
    fails_at: Option<u64>,
) -> Result<Vec<WireLine>, AllocError>
    ensures { IfOk result (λ lines. length lines.items ≡ count) }
{
    let wire = Rc::new(
        alloc,
        RefCell::new(Wire {
            alloc,
            sent: Vec::new(alloc),
            calls: 0,
            fails_at,
        }),
    )?;
    let mut lines = Vec::new(alloc);
    for line in 0..count {
        lines.push(WireLine {
            wire: wire.clone()?,
            line,
            passed: 0,
            failures: Log::new(),
        })?;
    }
    Ok(lines)
}

impl Wire {
    /// Counts a call; whether it is the one that fails.
    fn is_failing(&mut self) -> bool {
        self.calls = self.calls.saturating_add(1);
        self.fails_at == Some(self.calls)
    }

    /// Appends a copy of a datagram that this link sends.
    fn take(&mut self, line: usize, datagram: &[u8]) -> Result<(), AllocError> {
        let datagram = Some(Vec::from_slice(self.alloc, datagram)?);
        self.sent.push(Sent { line, datagram })?;
        Ok(())
    }

    /// Makes one receive of each other link find nothing.
    fn pause(&mut self, line: usize) -> Result<(), AllocError> {
        self.sent.push(Sent {
            line,
            datagram: None,
        })?;
        Ok(())
    }

    /// Index of the first item, from `from` on, that another link sent.
    fn next_for(&self, line: usize, from: usize) -> Option<usize> {
        for place in from..self.sent.len() {
            if self.sent[place].line != line {
                return Some(place);
            }
        }
        None
    }
}

impl WireLine {
    ghost use Rattle.std.specs.Prelude.{◌≡◌, ◌+◌, ◌≤◌, length, IfOk, IfSome};

    fn fail(&mut self) -> LineFault
        ensures { length self.new.failures.items ≡ length self.old.failures.items + 1 }
    {
        self.failures = self.failures.and(&(), &());
        LineFault::Failed
    }

    /// Sends a datagram on the network.
    fn put(&self, datagram: &[u8]) -> Result<(), LineFault> {
        let Ok(mut wire) = self.wire.try_borrow_mut() else {
            return Err(LineFault::Failed);
        };
        if wire.is_failing() {
            return Err(LineFault::Failed);
        }
        match wire.take(self.line, datagram) {
            Ok(()) => Ok(()),
            Err(_) => Err(LineFault::Failed),
        }
    }

    /// Copies the next datagram for this link to the front of the buffer, cut off where the buffer
    /// ends, and returns the number of bytes. `None`: there is no datagram, or a pause was next.
    fn get(&mut self, buffer: &mut [u8]) -> Result<Option<usize>, LineFault>
        ensures within { IfOk result (λ r. IfSome r (λ n. n ≤ length buffer.new)) }
        ensures failures { self.new.failures ≡ self.old.failures }
    {
        let Ok(mut wire) = self.wire.try_borrow_mut() else {
            return Err(LineFault::Failed);
        };
        if wire.is_failing() {
            return Err(LineFault::Failed);
        }
        let Some(place) = wire.next_for(self.line, self.passed) else {
            return Ok(None);
        };
        self.passed = place.saturating_add(1);
        let Some(next) = wire.sent.get(place) else {
            return Ok(None);
        };
        let Some(datagram) = &next.datagram else {
            return Ok(None);
        };
        let taken = datagram.len().min(buffer.len());
        buffer[..taken].copy_from_slice(&datagram[..taken]);
        Ok(Some(taken))
    }

    /// Puts datagrams for the other links on the network, without counting a call. Each occurrence
    /// of a number in `pauses` makes one receive before the datagram with this number, from 0, find
    /// nothing.
    fn begin_with(&self, coming: &[Stream], pauses: &[usize]) -> Result<(), AllocError> {
        let Ok(mut wire) = self.wire.try_borrow_mut() else {
            return Ok(());
        };
        for (number, datagram) in coming.iter().enumerate() {
            for pause in pauses {
                if *pause == number {
                    wire.pause(self.line)?;
                }
            }
            wire.take(self.line, &datagram.bytes)?;
        }
        Ok(())
    }

    /// Copies of all datagrams that the other links of the network sent.
    pub fn heard(&self, alloc: Global) -> Result<Vec<Vec<u8>>, AllocError> {
        let mut heard = Vec::new(alloc);
        let Ok(wire) = self.wire.try_borrow_mut() else {
            return Ok(heard);
        };
        for sent in &wire.sent {
            if let Some(datagram) = &sent.datagram
                && sent.line != self.line
            {
                heard.push(Vec::from_slice(alloc, datagram)?)?;
            }
        }
        Ok(heard)
    }
}

/// The link of a station on which these datagrams arrive, and the link of its peer, which sent
/// them. Of the calls of both the one numbered `fails_at`, from 1, fails. Each occurrence of a
/// number in `pauses` makes one receive before the datagram with this number, from 0, find nothing.
pub fn line_with(
    alloc: Global,
    coming: &[Stream],
    pauses: &[usize],
    fails_at: Option<u64>,
) -> Result<Option<(WireLine, WireLine)>, AllocError> {
    let mut lines = lines_of(alloc, 2, fails_at)?;
    match (lines.pop(), lines.pop()) {
        (Some(peer), Some(own)) => {
            peer.begin_with(coming, pauses)?;
            Ok(Some((own, peer)))
        }
        _ => Ok(None),
    }
}

/// Its contract does not expose the datagrams, only the number of failed calls.
impl Line for WireLine {
    ghost use Rattle.std.specs.Prelude.{◌≡◌, length};
    ghost use Rattle.siman_lines.specs.Passed.{passed_nothing};

    ghost failures = { λ l. length l.failures.items };

    ghost finds_nothing = { λ old new. new.failures ≡ old.failures };

    // No datagram arrives from a stranger.
    ghost passed = { λ _. passed_nothing };

    fn send(&mut self, datagram: &[u8]) -> Result<(), LineFault> {
        match self.put(datagram) {
            Ok(()) => Ok(()),
            Err(_) => Err(self.fail()),
        }
    }

    fn receive(&mut self, buffer: &mut [u8]) -> Result<Option<usize>, LineFault> {
        match self.get(buffer) {
            Ok(taken) => Ok(taken),
            Err(_) => Err(self.fail()),
        }
    }

    fn passed(&self) -> PassedOver {
        PassedOver::nothing()
    }
}
