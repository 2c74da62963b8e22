//! Readers and writers whose calls move few bytes, or fail.

use siman_lines::{Input, Ready};
use siman_outside::Settle;
use std::alloc::Global;
use std::io;
use std::io::{ErrorKind, Read, Write};

/// Limits and the failure of the calls of a reader or writer.
#[derive(Clone, Copy)]
pub struct Calls {
    /// Largest number of bytes that one call moves.
    pub most: usize,
    /// Number of the call that fails, from 1; 0 if none fails.
    pub fails_at: u64,
    /// Error of the failing call. `None`: that call moves no byte and succeeds.
    pub kind: Option<ErrorKind>,
}

/// Calls without a limit that never fail.
pub const WELL: Calls = Calls {
    most: usize::MAX,
    fails_at: 0,
    kind: None,
};

/// Reader of bytes in memory, with limited calls.
#[derive(Drop)]
pub struct Given<'a> {
    left: &'a [u8],
    calls: Calls,
    made: u64,
    /// Number of bytes that it has given.
    given: usize,
    /// Numbers of bytes behind which datagrams come before the next byte, rising.
    pauses: &'a [usize],
    /// Numbers of bytes behind which the clock shows another time, rising, each with that time.
    times: &'a [(usize, u64)],
}

/// Reader of these bytes, with limited calls.
pub fn read_from(left: &[u8], calls: Calls) -> Given<'_> {
    read_with_waits(left, calls, &[], &[])
}

/// Reader of these bytes, with limited calls. A wait behind a number of bytes that is in `pauses`,
/// in rising order, finds datagrams first, once for each time that it is there. The clock shows the
/// time of the last number in `times`, in rising order, of which so many bytes were given, and 0
/// before the first.
pub fn read_with_waits<'a>(
    left: &'a [u8],
    calls: Calls,
    pauses: &'a [usize],
    times: &'a [(usize, u64)],
) -> Given<'a> {
    Given {
        left,
        calls,
        made: 0,
        given: 0,
        pauses,
        times,
    }
}

impl Read for Given<'_> {
    fn read(&mut self, buf: &mut [u8]) -> io::Result<usize> {
        self.made = self.made.wrapping_add(1);
        if self.made == self.calls.fails_at {
            return match self.calls.kind {
                Some(kind) => Err(io::Error::from(kind)),
                None => Ok(0),
            };
        }
        let size = buf.len().min(self.calls.most).min(self.left.len());
        let (front, rest) = self.left.split_at(size);
        buf[..size].copy_from_slice(front);
        self.left = rest;
        self.given = self.given.saturating_add(size);
        Ok(size)
    }
}

impl Given<'_> {
    /// What the clock shows.
    fn time(&self) -> u64 {
        let mut time = 0;
        for (behind, shown) in self.times {
            if *behind <= self.given {
                time = *shown;
            }
        }
        time
    }
}

impl<L> Input<L> for Given<'_> {
    fn wait(&mut self, _line: &L, _until: Option<u64>) -> Ready {
        let time = self.time();
        if let [first, rest @ ..] = self.pauses {
            if *first <= self.given {
                self.pauses = rest;
                return Ready {
                    text: false,
                    datagrams: true,
                    time,
                };
            }
        }
        Ready {
            text: true,
            datagrams: false,
            time,
        }
    }
}

/// Writer into memory, with limited calls.
#[derive(Drop)]
pub struct Written {
    pub bytes: Vec<u8>,
    calls: Calls,
    made: u64,
    /// Whether it can be settled.
    settles: bool,
}

/// Empty writer into memory, with limited calls.
pub fn write_to(alloc: Global, calls: Calls) -> Written {
    Written {
        bytes: Vec::new(alloc),
        calls,
        made: 0,
        settles: true,
    }
}

/// Empty writer into memory, with limited calls, that cannot be settled.
pub fn write_unsettled(alloc: Global, calls: Calls) -> Written {
    Written {
        bytes: Vec::new(alloc),
        calls,
        made: 0,
        settles: false,
    }
}

impl Write for Written {
    fn write(&mut self, buf: &[u8]) -> io::Result<usize> {
        self.made = self.made.wrapping_add(1);
        if self.made == self.calls.fails_at {
            return match self.calls.kind {
                Some(kind) => Err(io::Error::from(kind)),
                None => Ok(0),
            };
        }
        let size = buf.len().min(self.calls.most);
        self.bytes.extend_from_slice(&buf[..size])?;
        Ok(size)
    }

    fn flush(&mut self) -> io::Result<()> {
        Ok(())
    }
}

impl Settle for Written {
    fn settle(&mut self) -> io::Result<()> {
        if self.settles {
            return Ok(());
        }
        Err(io::Error::from(ErrorKind::Other))
    }
}
