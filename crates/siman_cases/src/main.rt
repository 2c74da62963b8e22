//! Tries `siman` on cases: files that say what the program is given, and what it must leave. It
//! prints what differs, and for each file the number of its cases. It never opens a file or a
//! socket for the program, since each run gets its files and links from memory. Nothing is built on
//! it: it has no contract to use.
//!
//! A file of cases is a text of lines. `#` begins a comment, and empty lines are skipped. What is
//! filled by a line gets its bytes from the filling lines behind it.
//!
//! What the program is given:
//!
//! - `case NAME`: begins a case; files stay for later cases, all else begins anew
//! - `words WORD..`: words of the command line behind the program's name, with one space between
//!   two
//! - `word`: one more word, which is filled
//! - `unread-utf8`, `unread-memory`: the words can't be read: they are not UTF-8, or memory is
//!   refused
//! - `file NAME`: a file with this name, which is filled
//! - `file NAME.later`: a file that appears under NAME while the program makes one there
//! - `file NAME.unsettled`: a file that is made or created under NAME cannot be settled on the disk
//! - `shut NAME`, `folder NAME`, `odd NAME`, `full NAME`: a file that can't be opened or made: no
//!   permission, a directory, a file in place of a directory in its path, no memory
//! - `input`: standard input, which is filled; a `pause` in it: datagrams come to the station before
//!   its next bytes do; a `time N` in it: the clock of the system shows N microseconds since 1970
//!   behind the bytes so far, and 0 before the first one
//! - `comes`: one more datagram that arrives on the link of a station, which is filled
//! - `pause`: before the next datagram one receive finds nothing
//! - `line-fails N`: the N-th call of links fails, from 1; 0: no link can be made
//!
//! What it must leave:
//!
//! - `out`, `errors`, `left`: standard output, the faults on standard error without their reasons,
//!   and the file that is made; each is filled
//! - `reason`: the text behind the first line of the fault, which is filled. Without it that text
//!   must be nothing or one line that begins with two blanks, and nothing or a warning if there is
//!   no fault
//! - `behind`: the text behind such a line that the case does not give, which is filled
//! - `discarded`: as `left`, for a file that is made and must be discarded in the end
//! - `asked NAME`, `asked make NAME`: the next file that must be opened, or made
//! - `asked-nothing`: no file may be opened or made
//! - `keep NAME`: a file must be made, whatever it holds; later cases find it under this name
//! - `status N`: the exit status
//! - `half-told`: the fault can't be written whole
//! - `sent`: the datagrams on the link of the command `station`, which are filled: a text of hex
//!   digits for each
//! - `each-call-fails N`: the run is repeated with each of the first N calls of that link failing;
//!   the fault must be printed, the recording must have its end, and each datagram on the link must
//!   be in a sent entry of its own
//! - `each-byte-fails`: the run is repeated with the write of each byte of `left` failing; the
//!   fault must be printed, the bytes before it must be left, and the datagrams on the link must be
//!   those of its whole entries
//!
//! Filling lines:
//!
//! - `text TEXT`, `piece TEXT`: a text with a line end, or without
//! - `times N TEXT`: a text N times
//! - `each FIRST LAST TEXT`: a line for each number from FIRST to LAST, with the number in place of
//!   each `%`
//! - `hex HEX..`: bytes as pairs of hex digits
//! - `calls MOST AT KIND`: each call reads or writes at most MOST bytes, and the call numbered AT,
//!   from 1, fails: `other`, `interrupted`, or `nothing` for a call that takes no byte
//!
//! A case may run a station at a link in memory instead of the program. The file `script` has its
//! stations and orders. `out` has the answers of the calls, a line each, and behind them the number
//! of datagrams on the link, whether each is in a sent entry of its own that is written whole, and
//! the number of entries. `left` is the recording.
//!
//! - `station N`: runs the station numbered N, from 0
//! - `sent`: the datagrams on its link, which are filled: a text of hex digits for each
//! - `line-fails N`: the call of its link that fails, from 1
//! - `serve NOW TURNS`, `issue NOW`, `nudge NOW`: the next call; `issue` issues the order of the
//!   script's next move
//! - `order N`, `entity N`: asks for the status of the order with this request identifier, or for
//!   the state of an entity
//! - `datum N`, `given-up`: asks for the value of a fixed datum, or for the number of orders given
//!   up
//! - `each-call-fails N`: the run is repeated with each of the first N calls of the link failing;
//!   `out` has a line for the call, and then the answers
//! - `each-byte-fails`: the run is repeated with the write of each byte of `left` failing; the
//!   bytes before it must be left, and the datagrams on the link must be those of its whole
//!   entries; `out` has a line that counts the bytes for which that is so
//!
//! A word of the command line may be a COUNT instead of a file: that many random recordings are
//! tried by the checker and the search and compared with the plain ones, and a quarter of that many
//! of each form by the review and the plain one.
#![tactic(auto)]

mod done;
mod failing;
mod shelf;
mod trial;
mod uses;

use crate::trial::{Tally, try_cases};
use exercise_model::Form;
use plain_check::{try_generated, try_reviews};
use std::alloc::Global;
use std::io::Write;
use std::process::ExitCode;
use std::{env, fs, io};

/// Tries the cases of a file, and prints their number. Whether all went as expected.
fn try_file(rt: &HostRuntime, alloc: Global, name: &str) -> io::Result<bool> {
    let mut out = rt.stdout();
    let Tally {
        tried,
        otherwise,
        compared,
        unread,
    } = try_cases(alloc, &fs::read_to_string(rt, name)?, &mut out)?;
    match unread {
        None if compared > 0 => writeln!(
            out,
            "{name}: {tried} tried, {otherwise} otherwise, {compared} compared"
        )?,
        None => writeln!(out, "{name}: {tried} tried, {otherwise} otherwise")?,
        Some(line) => writeln!(out, "{name}: line {line} can't be read")?,
    }
    Ok(otherwise == 0 && unread.is_none())
}

/// Reviews random recordings of each form, and prints how often each fate occurred. Whether all
/// reviews are right.
fn try_fates(rt: &HostRuntime, alloc: Global, count: u32) -> io::Result<bool> {
    let mut out = rt.stdout();
    let mut good = true;
    for (form, name) in [
        (Form::First, "of the first format"),
        (Form::Closed, "closed"),
        (Form::Open, "open"),
    ] {
        let reviews = try_reviews(alloc, form, count)?;
        write!(out, "{count} reviews, {name}: ")?;
        reviews.print(&mut out)?;
        good = reviews.are_good(form) && good;
    }
    Ok(good)
}

/// Tries `count` random recordings, and then as many open ones, of those scenes without the log of
/// their last station; prints how often each answer occurred. Whether all answers are right.
fn try_made_up(rt: &HostRuntime, alloc: Global, count: u32) -> io::Result<bool> {
    let mut out = rt.stdout();
    let closed = try_generated(alloc, Form::First, count)?;
    writeln!(out, "{count} recordings made up")?;
    closed.print(&mut out)?;
    let open = try_generated(alloc, Form::Open, count)?;
    writeln!(out, "{count} open recordings made up")?;
    open.print(&mut out)?;
    Ok(closed.are_good(Form::First) && open.are_good(Form::Open))
}

/// Tries what each word of the command line names: a number of random recordings, or a file.
/// Whether all went as expected.
fn try_words(rt: &HostRuntime, alloc: Global) -> io::Result<bool> {
    let mut good = true;
    for word in env::args(rt)?.skip(1) {
        let tried = match word.parse::<u32>() {
            Ok(count) => {
                let answered = try_made_up(rt, alloc, count)?;
                try_fates(rt, alloc, count / 4)? && answered
            }
            Err(_) => try_file(rt, alloc, &word)?,
        };
        good = tried && good;
    }
    Ok(good)
}

fn main(rt: HostRuntime) -> ExitCode {
    match try_words(&rt, rt.alloc()) {
        Ok(true) => ExitCode::from(0),
        Ok(false) => ExitCode::from(1),
        Err(_) => ExitCode::from(2),
    }
}
