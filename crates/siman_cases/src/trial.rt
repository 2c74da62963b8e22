//! Runs cases, and prints what differs from them.

ghost use Rattle.std.specs.Prelude.{ℕ, List, Option, Result, None};
ghost use Rattle.siman_outside.specs.declared.fault.Fault.{Fault};
ghost use Rattle.std.specs.declared.io.ErrorKind.{ErrorKind};
ghost use Rattle.siman_console.specs.Program.{EndsProgram};
ghost use Rattle.siman_cases.specs.Done.{deeds_of, untold};
ghost use Rattle.siman_lines.specs.AtLines.{Telling};
ghost use Rattle.siman_trials.specs.declared.wire.WireLine.{WireLine};

use crate::failing::try_failing;
use crate::shelf::{Shelf, filled};
use plain_check::compare_case;
use siman_console::{Ended, run};
use siman_trials::{
    Calls, Case, Stream, WELL, Written, begin_case, compare, read_with_waits, sent_text,
    try_at_line, write_to,
};
use std::alloc::Global;
use std::io;
use std::io::Write;

/// Counts of the cases of a file: all, those that went wrong, and those that were compared with a
/// plain program; and the number of the first line that can't be read, from 1.
#[derive(Drop)]
pub(crate) struct Tally {
    pub(crate) tried: u32,
    pub(crate) otherwise: u32,
    pub(crate) compared: u32,
    pub(crate) unread: Option<usize>,
}

/// The words of a case, as the program gets them, or the error in their place.
fn words(alloc: Global, case: &Case) -> io::Result<Vec<String>> {
    if let Some(kind) = case.unread {
        return Err(io::Error::from(kind));
    }
    let mut words = Vec::new(alloc);
    words.push(String::from_str(alloc, "siman")?)?;
    for word in &case.words {
        words.push(String::from_utf8_lossy(alloc, &word.bytes)?)?;
    }
    Ok(words)
}

/// Results of a run.
#[derive(Drop)]
pub(crate) struct RunResults<'a> {
    pub(crate) ended: Ended,
    pub(crate) shelf: Shelf<'a>,
    out: Written,
    pub(crate) errors: Written,
    reasons: Written,
}

/// Runs the program on a case. The calls that write the file have the limits `makes`, and the call
/// `line_fails` of links fails. By contract, the actions on the shelf are those of the program on
/// some words, in order, and no others.
pub(crate) fn run_case(
    alloc: Global,
    case: &Case,
    makes: Calls,
    line_fails: Option<u64>,
) -> RunResults<'_>
    ensures { (told : Telling WireLine) × (words : Result (List (List ℕ)) ErrorKind) × (fault : Option Fault) × (begun : Option (List ℕ)) × EndsProgram told words (deeds_of result.shelf.done) None (record { ended = result.ended; fault = fault; begun = begun; out = untold; errors = untold }) }
{
    let mut shelf = filled(alloc, case, makes, line_fails);
    let mut out = write_to(alloc, case.out.calls);
    let mut errors = write_to(alloc, case.errors.calls);
    let input = read_with_waits(
        &case.input.bytes,
        case.input.calls,
        &case.input_pauses,
        &case.input_times,
    );
    let words = words(alloc, case);
    let mut reasons = write_to(alloc, WELL);
    let ended = run(
        alloc,
        words,
        &mut shelf,
        input,
        &mut out,
        &mut errors,
        &mut reasons,
    );
    RunResults {
        ended,
        shelf,
        out,
        errors,
        reasons,
    }
}

/// Compares a file that was made with the expected one, and prints it if it differs.
fn compare_made<W: Write>(
    name: &str,
    what: &str,
    made: &Option<Vec<u8>>,
    wanted: Option<&Stream>,
    out: &mut W,
) -> io::Result<bool> {
    match (made, wanted) {
        (Some(made), Some(wanted)) => compare(name, what, made, &wanted.bytes, out),
        (None, None) => Ok(true),
        (Some(made), None) => compare(name, what, made, b"no file", out),
        (None, Some(wanted)) => compare(name, what, b"no file\n", &wanted.bytes, out),
    }
}

/// Whether bytes are one line that begins with two blanks, with exactly `behind` following it.
fn is_second_line(bytes: &[u8], behind: &[u8]) -> bool {
    let Some(first_end) = bytes.iter().position(|byte| *byte == b'\n') else {
        return false;
    };
    bytes.starts_with(b"  ") && bytes.get(first_end.saturating_add(1)..) == Some(behind)
}

/// Compares the text behind the first line of a fault with the case, and prints it if it differs.
/// If the case does not give that text, a fault may have one line that begins with two blanks, with
/// the text `behind` of the case following it; any other answer may have a warning.
fn compare_reason<W: Write>(case: &Case, left: &RunResults<'_>, out: &mut W) -> io::Result<bool> {
    let (name, told, behind) = (&case.name, &left.reasons.bytes, &case.behind.bytes);
    if case.is_reason {
        return compare(name, "reason", told, &case.reason.bytes, out);
    }
    let fits = match left.ended.status {
        0 | 1 => behind.is_empty() && (told.is_empty() || told.starts_with(b"warning: ")),
        _ => (told.is_empty() && behind.is_empty()) || is_second_line(told, behind),
    };
    if fits {
        return Ok(true);
    }
    compare(name, "reason", told, b"nothing, or one line\n", out)
}

/// Compares the requested files and the file that was left or discarded with the case, and prints
/// what differs.
fn compare_files<W: Write>(case: &Case, shelf: &Shelf<'_>, out: &mut W) -> io::Result<bool> {
    let name = &case.name;
    let asked = if case.is_asked {
        compare(name, "asked", shelf.asked.as_bytes(), &case.asked, out)?
    } else {
        true
    };
    if case.keep.is_some() {
        return match &shelf.left {
            Some(_) => Ok(asked),
            None => compare(name, "left", b"no file\n", b"a file", out),
        };
    }
    let left = compare_made(
        name,
        "left",
        &shelf.left,
        case.is_left.then_some(&case.left),
        out,
    )?;
    let discarded = case.is_discarded.then_some(&case.left);
    let dropped = compare_made(name, "discarded", &shelf.discarded, discarded, out)?;
    Ok(asked && left && dropped)
}

/// Compares the datagrams on the link of a station with the case, and prints them if they differ.
fn compare_sent<W: Write>(
    alloc: Global,
    case: &Case,
    shelf: &Shelf<'_>,
    out: &mut W,
) -> io::Result<bool> {
    let sent = sent_text(alloc, &shelf.sent(alloc)?)?;
    compare(&case.name, "sent", sent.as_bytes(), &case.sent.bytes, out)
}

/// Compares all results of a run with the case, and prints what differs. Whether nothing does.
fn compare_all<W: Write>(
    alloc: Global,
    case: &Case,
    left: &RunResults<'_>,
    out: &mut W,
) -> io::Result<bool> {
    let (name, status, half) = (&case.name, left.ended.status, left.ended.written.is_err());
    let ended = u64::from(status) == case.status && half == case.half_told;
    if !ended {
        writeln!(out, "{name}: status {status}, half-told {half}")?;
    }
    let answered = compare(name, "out", &left.out.bytes, &case.out.bytes, out)?;
    let told = compare(name, "errors", &left.errors.bytes, &case.errors.bytes, out)?;
    let files = compare_files(case, &left.shelf, out)?;
    let sent = compare_sent(alloc, case, &left.shelf, out)?;
    let reason = compare_reason(case, left, out)?;
    Ok(ended && answered && told && files && sent && reason)
}

/// Runs the program or the station of a case, and prints what differs. Returns whether nothing
/// does, and the file that was left; a station at its link leaves none.
fn try_case<W: Write>(
    alloc: Global,
    case: &Case,
    out: &mut W,
) -> io::Result<(bool, Option<Vec<u8>>)> {
    if let Some(station) = case.station {
        let station = station.min(0xFFFF) as u16;
        return Ok((try_at_line(alloc, case, station, out)?, None));
    }
    let left = run_case(alloc, case, case.left.calls, case.fails_at);
    let good = compare_all(alloc, case, &left, out)? && try_failing(alloc, case, out)?;
    let RunResults { shelf, .. } = left;
    let Shelf { left, .. } = shelf;
    Ok((good, left))
}

impl Tally {
    /// Compares the answer to a case with that of a plain program, and prints the case if they
    /// differ. Whether they agree.
    fn compare<W: Write>(&mut self, alloc: Global, case: &Case, out: &mut W) -> io::Result<bool> {
        let Some(same) = compare_case(alloc, case)? else {
            return Ok(true);
        };
        self.compared = self.compared.saturating_add(1);
        if !same {
            writeln!(out, "{}: the plain answer is otherwise", case.name)?;
        }
        Ok(same)
    }

    /// Tries a case whose lines are complete. The case before the first is skipped.
    fn add<W: Write>(&mut self, alloc: Global, case: &mut Case, out: &mut W) -> io::Result<()> {
        if case.name.is_empty() {
            return Ok(());
        }
        let same = self.compare(alloc, case, out)?;
        let (good, left) = try_case(alloc, case, out)?;
        case.keep_left(left)?;
        self.tried = self.tried.saturating_add(1);
        if !(good && same) {
            self.otherwise = self.otherwise.saturating_add(1);
        }
        Ok(())
    }

    /// Takes a line; a `case` line first tries the case that it ends.
    fn take<W: Write>(
        &mut self,
        alloc: Global,
        case: &mut Case,
        line: &str,
        out: &mut W,
    ) -> io::Result<bool> {
        if line.starts_with("case ") {
            self.add(alloc, case, out)?;
        }
        case.take(line)
    }
}

/// Takes the lines of a text, and tries its cases.
fn try_lines<W: Write>(
    alloc: Global,
    case: &mut Case,
    text: &str,
    out: &mut W,
) -> io::Result<Tally> {
    let mut tally = Tally {
        tried: 0,
        otherwise: 0,
        compared: 0,
        unread: None,
    };
    for (i, line) in text.lines().enumerate() {
        if !tally.take(alloc, case, line, out)? {
            tally.unread = Some(i.saturating_add(1));
            return Ok(tally);
        }
    }
    tally.add(alloc, case, out)?;
    Ok(tally)
}

/// Tries the cases of a text, and prints what differs.
pub(crate) fn try_cases<W: Write>(alloc: Global, text: &str, out: &mut W) -> io::Result<Tally> {
    let mut case = begin_case(alloc, String::new(alloc), Vec::new(alloc));
    try_lines(alloc, &mut case, text, out)
}
