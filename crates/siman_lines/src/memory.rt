//! A link in memory, with one failing call that the test chooses.

use crate::line::{Line, LineFault, PassedOver};
use http_server::Log;
use std::alloc::Global;

/// A link in memory: datagrams to receive, datagrams sent, and which call fails.
#[derive(Drop)]
pub struct MemoryLine {
    coming: Vec<Vec<u8>>,
    given: usize,
    sent: Vec<Vec<u8>>,
    calls: u64,
    fails_at: Option<u64>,
    failures: Log<(), ()>,
}

impl MemoryLine {
    ghost use Rattle.std.specs.Prelude.{◌≡◌, ◌+◌, length};
    ghost use Rattle.siman_lines.specs.Memory.{SameDatagrams, IsMade, Counts, bytes_of, is_chosen};

    /// Makes a link that returns the datagrams of `coming`, in this order. Of its calls, counted
    /// from 1, sends and receives together, the one whose number is `fails_at` fails and moves no
    /// datagram; a call after more than 2^64 - 1 others has no number. A send also fails if memory
    /// for the datagram is refused.
    pub fn new(alloc: Global, coming: Vec<Vec<u8>>, fails_at: Option<u64>) -> MemoryLine
        ensures { IsMade (bytes_of coming.items) fails_at result }
    {
        MemoryLine {
            coming,
            given: 0,
            sent: Vec::new(alloc),
            calls: 0,
            fails_at,
            failures: Log::new(),
        }
    }

    /// Datagrams that it has sent, oldest first.
    pub fn sent(&self) -> &[Vec<u8>]
        ensures { result.now ≡ self.now.sent.items }
    {
        &self.sent
    }

    fn fail(&mut self) -> LineFault
        ensures same { SameDatagrams self.old self.new }
        ensures calls { self.new.calls ≡ self.old.calls }
        ensures fails_at { self.new.fails_at ≡ self.old.fails_at }
        ensures counted { length self.new.failures.items ≡ length self.old.failures.items + 1 }
    {
        self.failures = self.failures.and(&(), &());
        LineFault::Failed
    }

    // Counts the call, and returns whether it is the one that fails.
    fn is_failing(&mut self) -> bool
        ensures same { SameDatagrams self.old self.new }
        ensures failures { self.new.failures ≡ self.old.failures }
        ensures counts { Counts self.old self.new }
        ensures chosen { result ≡ is_chosen self.old }
    {
        match self.calls.checked_add(1) {
            None => false,
            Some(number) => {
                self.calls = number;
                self.fails_at == Some(number)
            }
        }
    }
}

impl Line for MemoryLine {
    ghost use Rattle.std.specs.Prelude.{Some, length};
    ghost use Rattle.siman_lines.specs.Passed.{passed_nothing};
    ghost use Rattle.siman_lines.specs.Memory.{sent_of, received_of, FoundNothing, SendEnds, ReceiveEnds};

    ghost received = { λ l. Some (received_of l) };

    ghost sent = { λ l. Some (sent_of l) };

    ghost failures = { λ l. length l.failures.items };

    ghost finds_nothing = { FoundNothing };

    ghost passed = { λ _. passed_nothing };

    ghost sends = { SendEnds };

    ghost receives = { ReceiveEnds };

    fn send(&mut self, datagram: &[u8]) -> Result<(), LineFault> {
        if self.is_failing() {
            return Err(self.fail());
        }
        let Ok(copy) = Vec::from_slice(*self.sent.allocator(), datagram) else {
            return Err(self.fail());
        };
        if self.sent.push(copy).is_err() {
            return Err(self.fail());
        }
        Ok(())
    }

    fn receive(&mut self, buffer: &mut [u8]) -> Result<Option<usize>, LineFault> {
        if self.is_failing() {
            return Err(self.fail());
        }
        let Some(datagram) = self.coming.get(self.given) else {
            return Ok(None);
        };
        let taken = datagram.len().min(buffer.len());
        buffer[..taken].copy_from_slice(&datagram[..taken]);
        self.given += 1;
        Ok(Some(taken))
    }

    fn passed(&self) -> PassedOver {
        PassedOver::nothing()
    }
}
