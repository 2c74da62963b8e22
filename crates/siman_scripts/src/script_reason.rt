//! Why a text is no script: its first refused line, the column, and the reason.

ghost use Rattle.std.specs.Prelude.{◌≡◌, ◌≤◌, length, IfOk, Ok, None};
ghost use Rattle.siman_scripts.specs.declared.script.TheConstants.{LARGEST_SCRIPT};
ghost use Rattle.byte_files.specs.Text.{lines_of};
ghost use Rattle.siman_scripts.specs.declared.statement.Statement.{Statement as StatementSaid};
ghost use Rattle.siman_scripts.specs.Draft.{DraftData, blank};
ghost use Rattle.siman_scripts.specs.HoldsAfter.{HoldsAfter};
ghost use Rattle.siman_scripts.specs.Script.{line_after};
ghost use Rattle.siman_scripts.specs.Reason.{column_of, by_itself, refusal_of, lines_reason, reason_at, Explains};

use crate::draft::Draft;
use crate::forms::statement_of;
use crate::line_reason::line_reason;
use crate::placed_word::placed_words;
use crate::script::{LARGEST_SCRIPT, take_line};
use crate::why::{LineReason, LineWhy, Why};
use byte_files::first_line;
use std::alloc::{AllocError, Global};

/// Column of a word of a line; words are counted from 0.
fn column_of(alloc: Global, line: &[u8], place: usize) -> Result<usize, AllocError>
    ensures { IfOk result (λ column. column ≡ column_of line.now place) }
{
    let words = placed_words(alloc, line)?;
    match words.as_slice().get(place) {
        Some(word) => Ok(word.column),
        None => Ok(1),
    }
}

/// Reason of a line that is refused by itself.
fn by_itself(told: Option<(usize, LineWhy)>) -> Option<(usize, Why)>
    ensures { result ≡ by_itself told }
{
    match told {
        Some((column, why)) => Some((column, Why::Line(why))),
        None => None,
    }
}

/// Why a line is refused after the lines before it, and in which column.
fn refusal_of(alloc: Global, draft: &Draft, line: &[u8]) -> Result<Option<(usize, Why)>, AllocError>
    ensures { IfOk result (λ reason. reason ≡ refusal_of draft.now line.now) }
{
    let reason = match statement_of(alloc, line)? {
        Some(statement) => draft.reason(&statement),
        None => return Ok(by_itself(line_reason(alloc, line)?)),
    };
    match reason {
        Some((place, why)) => Ok(Some((column_of(alloc, line, place)?, why))),
        None => Ok(None),
    }
}

/// Takes one more line, or returns why it is refused, and in which column.
fn take_or_refuse(
    alloc: Global,
    draft: &mut Draft,
    line: &[u8],
) -> Result<Option<(usize, Why)>, AllocError>
    ensures told { IfOk result (λ reason. reason ≡ refusal_of draft.old line.now) }
    ensures taken { result ≡ Ok None → line_after draft.old line.now ≡ Ok draft.new }
{
    let reason = refusal_of(alloc, draft, line)?;
    if reason.is_some() {
        return Ok(reason);
    }
    match take_line(alloc, draft, line) {
        Ok(()) => Ok(None),
        Err(_) => Err(AllocError),
    }
}

/// The first reason of the lines of a text.
fn reason_of_lines(alloc: Global, text: &[u8]) -> Result<Option<LineReason>, AllocError>
    requires { length text.now ≤ LARGEST_SCRIPT }
    ensures { IfOk result (λ reason. reason ≡ lines_reason blank 0 (lines_of text.now)) }
{
    let mut draft = Draft::begin(alloc);
    let mut count = 0;
    let mut rest = text;
    while !rest.is_empty() {
        let (line, others) = first_line(rest);
        count += 1;
        if let Some((column, why)) = take_or_refuse(alloc, &mut draft, line)? {
            return Ok(Some(LineReason {
                line: count,
                column,
                why,
            }));
        }
        rest = others;
    }
    Ok(draft.end_reason(count))
}

/// The first reason, by the order of lines, by which a text is no script; `None` if it is one
/// ([`a_text_has_a_reason_or_is_a_script`]).
pub fn reason_of_script(alloc: Global, text: &[u8]) -> Result<Option<LineReason>, AllocError>
    ensures { IfOk result (λ reason. reason ≡ reason_at text.now) }
{
    if text.len() > LARGEST_SCRIPT {
        return Ok(Some(LineReason {
            line: 0,
            column: 0,
            why: Why::TooLong,
        }));
    }
    reason_of_lines(alloc, text)
}

/// A law of texts: each has a first reason or is a script, and the reason is of the line of its
/// fault: of an unknown station if the fault is that, else of a bad line. The call does nothing at
/// run time.
pub fn a_text_has_a_reason_or_is_a_script(text: &[u8])
    ensures { Explains text.now }
{}

/// A law of lines with a valid form: a reason about the lines before is true. There was an
/// `exercise` line before or not, no station has an address that it calls unknown, and the station
/// or the entity before is the one that it names, and not below. The call does nothing at run time.
pub fn reasons_hold_of_the_lines_before()
    ensures { (d : DraftData) (s : StatementSaid) → HoldsAfter d s }
{}
