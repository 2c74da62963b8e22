//! Sources as texts spell them.

ghost use Rattle.std.specs.Prelude.{◌≡◌, ◌≤◌, ◌+◌, length, IfOk, MatchResult, Ok};
ghost use Rattle.std.specs.Result.{result_err};
ghost use Rattle.std.specs.Str.{is_utf8};
ghost use Rattle.byte_files.specs.Text.{lines_of};
ghost use Rattle.siman_scripts.specs.declared.script.TheConstants.{LARGEST_SCRIPT};
ghost use Rattle.siman_plans.specs.Source.{nothing_read, wide_after, line_after, lines_after, read_at, source_at, source_reason_at, utf8_of, printable_of};
ghost use Rattle.siman_plans.specs.SourceFault.{Gives, Leaves, RefusesText, GivesText, GivesSource};

use crate::source::Source;
use crate::source_fault::{LineFault, SourceFault, SourceReason, SourceWhy, TextFault, fault_at};
use crate::source_reading::Reading;
use crate::source_word::{source_words, unprintable_in, without_mark, words_end};
use byte_files::first_line;
use siman_scripts::{LARGEST_SCRIPT, Why, placed_words, statement_of};
use std::alloc::{AllocError, Global};
use std::str;

/// Refuses a line that is not UTF-8.
fn check_utf8(line: &[u8]) -> Result<(), LineFault>
    ensures { Gives (λ u. u) result (utf8_of line.now) }
{
    match str::from_utf8(line) {
        Ok(_) => Ok(()),
        Err(e) => Err(LineFault::Refused(e.valid_up_to() + 1, SourceWhy::NotUtf8)),
    }
}

/// Refuses a line that outside of a comment is not printable ASCII, blanks and tabs.
fn check_printable(alloc: Global, line: &[u8]) -> Result<(), LineFault>
    ensures { Gives (λ u. u) result (printable_of line.now) }
{
    match unprintable_in(alloc, line)? {
        None => Ok(()),
        Some(column) => Err(LineFault::Refused(column, SourceWhy::NotPrintable)),
    }
}

/// Takes one more line, of this number, that has no form of scripts.
fn take_wide<'t>(
    alloc: Global,
    reading: &mut Reading<'t>,
    number: usize,
    line: &'t [u8],
) -> Result<(), LineFault>
    ensures { Leaves result reading.new (wide_after reading.old number line.now) }
{
    check_utf8(line)?;
    check_printable(alloc, line)?;
    let end = words_end(alloc, line)?;
    let words = source_words(alloc, line)?;
    reading.take_words(alloc, number, end, words.as_slice())
}

/// Takes one more line, of this number.
fn take_line<'t>(
    alloc: Global,
    reading: &mut Reading<'t>,
    number: usize,
    line: &'t [u8],
) -> Result<(), LineFault>
    ensures { Leaves result reading.new (line_after reading.old number line.now) }
{
    let Some(statement) = statement_of(alloc, line)? else {
        return take_wide(alloc, reading, number, line);
    };
    let words = placed_words(alloc, line)?;
    reading.take_statement(alloc, number, words.as_slice(), statement, None)
}

/// The lines of a text, and their number.
fn take_lines(alloc: Global, text: &[u8]) -> Result<(Reading<'_>, usize), TextFault>
    requires { length text.now ≤ LARGEST_SCRIPT }
    ensures lines { MatchResult result (λ r. lines_after nothing_read 0 (lines_of text.now) ≡ Ok r.0) (λ fault. RefusesText fault (lines_after nothing_read 0 (lines_of text.now))) }
    ensures count { IfOk result (λ r. r.1 ≡ length (lines_of text.now)) }
    ensures few { IfOk result (λ r. r.1 ≤ LARGEST_SCRIPT) }
{
    let mut reading = Reading::begin(alloc);
    let mut count = 0;
    let mut rest = text;
    while !rest.is_empty() {
        let (line, others) = first_line(rest);
        count += 1;
        if let Err(fault) = take_line(alloc, &mut reading, count, line) {
            return Err(fault_at(count, fault));
        }
        rest = others;
    }
    Ok((reading, count))
}

/// The source that a text spells, or its first line that cannot be read, with the reason.
pub(crate) fn read(alloc: Global, text: &[u8]) -> Result<Source<'_>, TextFault>
    ensures { GivesText result (read_at text.now) }
{
    if text.len() > LARGEST_SCRIPT {
        return Err(TextFault::Refused(SourceReason {
            line: 0,
            column: 0,
            why: SourceWhy::Script(Why::TooLong),
        }));
    }
    let (reading, count) = take_lines(alloc, without_mark(text))?;
    if let Some(reason) = reading.end_reason(count) {
        return Err(TextFault::Refused(SourceReason {
            line: reason.line,
            column: reason.column,
            why: SourceWhy::Script(reason.why),
        }));
    }
    Ok(reading.finish(alloc)?)
}

/// The source that a text spells, or its first line that cannot be read. The last line may lack its
/// line feed.
pub fn read_source(alloc: Global, text: &[u8]) -> Result<Source<'_>, SourceFault>
    ensures { GivesSource result (source_at text.now) }
{
    match read(alloc, text) {
        Ok(source) => Ok(source),
        Err(TextFault::Refused(reason)) => Err(SourceFault::BadLine(reason.line)),
        Err(TextFault::Memory) => Err(SourceFault::Memory),
    }
}

/// Why a text is no source: its first line that cannot be read, by the order of lines; `None` if it
/// is one.
pub fn reason_of_source(alloc: Global, text: &[u8]) -> Result<Option<SourceReason>, AllocError>
    ensures { IfOk result (λ reason. reason ≡ source_reason_at text.now) }
{
    match read(alloc, text) {
        Ok(_) => Ok(None),
        Err(TextFault::Refused(reason)) => Ok(Some(reason)),
        Err(TextFault::Memory) => Err(AllocError),
    }
}
