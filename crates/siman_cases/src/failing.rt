//! A station that the program plays, with calls of its link and writes of its recording failing in
//! turn.

use crate::trial::run_case;
use siman_trials::{Calls, Case, entries_of};
use std::alloc::Global;
use std::io;
use std::io::{ErrorKind, Write};

/// Whether the run is right if this byte, from 0, is the first that is not written: the fault is
/// printed, the file has the bytes before it, and the datagrams on the link are those of its whole
/// entries.
fn is_right_before(alloc: Global, case: &Case, byte: usize) -> io::Result<bool> {
    let calls = Calls {
        most: 1,
        fails_at: (byte as u64).saturating_add(1),
        kind: Some(ErrorKind::Other),
    };
    let left = run_case(alloc, case, calls, None);
    let sent = left.shelf.sent(alloc)?;
    let Some(written) = &left.shelf.left else {
        return Ok(false);
    };
    Ok(
        left.ended.status == 2
            && left.errors.bytes.ends_with(b"output: write\n")
            && case.left.bytes.get(..byte) == Some(written.as_slice())
            && entries_of(written).are_all(0, &sent),
    )
}

/// Whether the run is right if the call of the link with this number, from 1, fails: the fault is
/// printed, the recording has its end, and each datagram on the link is in a sent entry of its own.
fn is_right_without(alloc: Global, case: &Case, call: u64) -> io::Result<bool> {
    let left = run_case(alloc, case, case.left.calls, Some(call));
    let sent = left.shelf.sent(alloc)?;
    let Some(written) = &left.shelf.left else {
        return Ok(false);
    };
    let entries = entries_of(written);
    let Ok(count) = u32::try_from(entries.count()) else {
        return Ok(false);
    };
    Ok(
        left.ended.status == 2
            && left.errors.bytes.ends_with(b": live: line\n")
            && written.ends_with(&count.to_be_bytes())
            && entries.have_all(0, &sent),
    )
}

/// Repeats the run with the write of each byte of `left` failing in turn, if the case asks for
/// that; prints each byte for which the run is wrong. Whether all runs are right.
fn fail_each_byte<W: Write>(alloc: Global, case: &Case, out: &mut W) -> io::Result<bool> {
    let mut good = true;
    if !case.each_byte {
        return Ok(good);
    }
    for byte in 0..case.left.bytes.len() {
        if !is_right_before(alloc, case, byte)? {
            writeln!(out, "{}: otherwise where byte {byte} fails", case.name)?;
            good = false;
        }
    }
    Ok(good)
}

/// Repeats the run with each of the first calls of the link failing in turn, as many as the case
/// asks for; prints each call for which the run is wrong. Whether all runs are right.
fn fail_each_call<W: Write>(alloc: Global, case: &Case, out: &mut W) -> io::Result<bool> {
    let mut good = true;
    for call in 1..=case.each_call {
        if !is_right_without(alloc, case, call)? {
            writeln!(out, "{}: otherwise where call {call} fails", case.name)?;
            good = false;
        }
    }
    Ok(good)
}

/// Repeats the run with bytes and calls failing in turn, as the case asks for. Whether all runs are
/// right.
pub(crate) fn try_failing<W: Write>(alloc: Global, case: &Case, out: &mut W) -> io::Result<bool> {
    let bytes = fail_each_byte(alloc, case, out)?;
    let calls = fail_each_call(alloc, case, out)?;
    Ok(bytes && calls)
}
