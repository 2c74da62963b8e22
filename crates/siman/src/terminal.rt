//! Standard input, for which a station waits together with its socket.

use crate::host_line::HostLine;
use libc::net::{POLLIN, poll};
use libc::types::{pollfd, timespec};
use siman_lines::{Input, Ready};
use std::io;
use std::io::{Read, Stdin};

/// Number of bytes that are read at a time.
const PIECE: usize = 4096;

/// Refused waits, one after the other, behind which the text is read.
const MOST_UNWAITED: u32 = 16;

/// Longest wait, in milliseconds.
const LONGEST_WAIT: u64 = 1_000_000_000;

/// Standard input, and the piece of it that was read and not yet given.
#[derive(Drop)]
pub(crate) struct Terminal {
    input: Stdin,
    piece: [u8; PIECE],
    next: usize,
    end: usize,
    /// Waits that the system refused one after the other.
    unwaited: u32,
}

/// Standard input, of which nothing was read.
pub(crate) fn terminal_of(input: Stdin) -> Terminal {
    Terminal {
        input,
        piece: [0; PIECE],
        next: 0,
        end: 0,
        unwaited: 0,
    }
}

impl Read for Terminal {
    fn read(&mut self, buf: &mut [u8]) -> io::Result<usize> {
        if self.next >= self.end {
            self.end = self.input.read(&mut self.piece)?;
            self.next = 0;
        }
        let piece = self.piece.get(self.next..self.end).unwrap_or(&[]);
        let size = piece.len().min(buf.len());
        buf[..size].copy_from_slice(&piece[..size]);
        self.next = self.next.saturating_add(size);
        Ok(size)
    }
}

/// What to wait for on a descriptor: that it can be read.
fn readable(descriptor: i32) -> pollfd {
    pollfd {
        fd: descriptor,
        events: POLLIN,
        revents: 0,
    }
}

/// Microseconds since 1970 by the system's clock; 0 where it cannot be read.
fn system_time() -> u64 {
    let mut time = timespec {
        tv_sec: 0,
        tv_nsec: 0,
    };
    if libc::clock_gettime(libc::CLOCK_REALTIME, &mut time) != 0 || time.tv_sec < 0 {
        return 0;
    }
    let seconds = time.tv_sec.unsigned_abs().saturating_mul(1_000_000);
    seconds.saturating_add(time.tv_nsec.unsigned_abs() / 1000)
}

/// The limit of a wait in milliseconds, rounded up: until the system's clock shows so many
/// microseconds since 1970; -1, which is none, without such a time.
fn limit_of(until: Option<u64>) -> i32 {
    match until {
        Some(until) => {
            let left = until.saturating_sub(system_time());
            left.div_ceil(1000).min(LONGEST_WAIT) as i32
        }
        None => -1,
    }
}

impl Terminal {
    /// What is ready if the system did not wait. A signal may have interrupted it, and then the next
    /// wait finds what there is; after several such waits the text, whose read waits by itself.
    fn unwaited(&mut self) -> Ready {
        self.unwaited = self.unwaited.saturating_add(1);
        Ready {
            text: self.unwaited > MOST_UNWAITED,
            datagrams: true,
            time: system_time(),
        }
    }
}

impl Input<HostLine<'_>> for Terminal {
    fn wait(&mut self, line: &HostLine<'_>, until: Option<u64>) -> Ready {
        if self.next < self.end {
            return Ready {
                text: true,
                datagrams: false,
                time: system_time(),
            };
        }
        let mut asked = [readable(libc::STDIN_FILENO), readable(line.descriptor())];
        if poll(&mut asked, limit_of(until)) < 0 {
            return self.unwaited();
        }
        self.unwaited = 0;
        let [text, datagrams] = &asked;
        Ready {
            text: text.revents != 0,
            datagrams: datagrams.revents != 0,
            time: system_time(),
        }
    }
}
