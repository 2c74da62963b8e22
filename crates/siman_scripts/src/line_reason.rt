//! Why a line by itself is refused.

ghost use Rattle.std.specs.Prelude.{◌≡◌, ◌<◌, map, length, position, nat_le, IfOk, IfSome, is_some, is_none};
ghost use Rattle.siman_scripts.specs.Statement.{statement_of};
ghost use Rattle.siman_scripts.specs.Holds.{Holds};
ghost use Rattle.siman_scripts.specs.LineReason.{foreign_why, foreign_reason, blank_why, byte_why, spacing_reason, is_comment, extra_why, optional_why, word_reason, end_reason, words_reason, form_reason, ascii_reason, line_reason};

use crate::form::{LineForm, Next, form_named, next_word};
use crate::forms::is_passed_over;
use crate::nearest::nearest;
use crate::placed_word::{PlacedWord, placed_words};
use crate::why::LineWhy;
use crate::word_kind::{WordKind, fits};
use std::alloc::{AllocError, Global};

/// Reason of bytes that begin with one that is not ASCII.
fn foreign_why(bytes: &[u8]) -> LineWhy
    ensures { result ≡ foreign_why bytes.now }
{
    match bytes {
        [0xEF, 0xBB, 0xBF, ..] => LineWhy::ByteOrderMark,
        _ => LineWhy::NotAscii,
    }
}

/// Index of the first byte that is not ASCII, if any.
fn foreign_place(line: &[u8]) -> Option<usize>
    ensures place { result ≡ position (λ b. nat_le 128 b) line.now }
    ensures within { IfSome result (λ i. i < length line.now) }
{
    line.iter().position(|b| *b >= 128)
}

/// Column and reason of the first byte that is not ASCII, if any.
fn foreign_reason(line: &[u8]) -> Option<(usize, LineWhy)>
    ensures { result ≡ foreign_reason line.now }
{
    match foreign_place(line) {
        Some(place) => Some((place + 1, foreign_why(&line[place..]))),
        None => None,
    }
}

/// Reason of a blank in this column, behind this byte, if it is one too many.
fn blank_why(column: usize, before: u8, is_last: bool) -> Option<LineWhy>
    ensures { result ≡ blank_why column before is_last }
{
    if column == 1 {
        return Some(LineWhy::BlankAtBegin);
    }
    if before == b' ' {
        return Some(LineWhy::TwoBlanks);
    }
    if is_last {
        Some(LineWhy::BlankAtEnd)
    } else {
        None
    }
}

/// Reason of a byte in this column, behind another one, if it is a wrong blank, tab or carriage
/// return.
fn byte_why(column: usize, before: u8, byte: u8, is_last: bool) -> Option<LineWhy>
    ensures { result ≡ byte_why column before byte is_last }
{
    match byte {
        b'\t' => Some(LineWhy::Tab),
        b'\r' if is_last => Some(LineWhy::CarriageReturnAtEnd),
        b'\r' => Some(LineWhy::CarriageReturn),
        b' ' => blank_why(column, before, is_last),
        _ => None,
    }
}

/// Column and reason of the first tab, carriage return or blank too many, if any.
fn spacing_reason(line: &[u8]) -> Option<(usize, LineWhy)>
    ensures { result ≡ spacing_reason line.now }
{
    let (mut before, mut column, mut rest) = (0, 1, line);
    while let [byte, others @ ..] = rest {
        if let Some(why) = byte_why(column, before, *byte, others.is_empty()) {
            return Some((column, why));
        }
        (before, column, rest) = (*byte, column + 1, others);
    }
    None
}

fn is_comment(word: &[u8]) -> bool
    ensures { result ≡ is_comment word.now }
{
    match word {
        [] => false,
        [first, ..] => *first == b'#',
    }
}

/// Reason of a word too many.
fn extra_why(form: LineForm, word: &[u8]) -> LineWhy
    ensures { result ≡ extra_why form word.now }
{
    if is_comment(word) {
        LineWhy::Comment(form)
    } else {
        LineWhy::TooMany(form)
    }
}

/// Reason of a word of another kind, at a place where the line may end.
fn optional_why(form: LineForm, kind: WordKind, word: &[u8]) -> LineWhy
    ensures { result ≡ optional_why form kind word.now }
{
    if is_comment(word) {
        LineWhy::Comment(form)
    } else {
        LineWhy::Wrong(form, kind)
    }
}

/// Column and reason of a word that is not as `next` requires.
fn word_reason(form: LineForm, next: Next, placed: &PlacedWord<'_>) -> Option<(usize, LineWhy)>
    ensures { result ≡ word_reason form next (placed.now.column, placed.now.word.now) }
{
    let (column, word) = (placed.column, placed.word);
    match next {
        Next::Needed(kind) if fits(kind, word) => None,
        Next::Optional(kind) if fits(kind, word) => None,
        Next::Needed(kind) => Some((column, LineWhy::Wrong(form, kind))),
        Next::Optional(kind) => Some((column, optional_why(form, kind, word))),
        Next::End => Some((column, extra_why(form, word))),
    }
}

/// Column and reason of a line that ends too early, given the column of its end.
fn end_reason(form: LineForm, next: Next, column: usize) -> Option<(usize, LineWhy)>
    ensures { result ≡ end_reason form next column }
{
    match next {
        Next::Needed(kind) => Some((column, LineWhy::Missing(form, kind))),
        Next::Optional(_) | Next::End => None,
    }
}

/// Column and reason of the words behind the name of a form, if they do not have it; the line ends
/// before this column.
fn words_reason(form: LineForm, column: usize, words: &[PlacedWord<'_>]) -> Option<(usize, LineWhy)>
    ensures { result ≡ words_reason form 0 column (map (λ p. (p.column, p.word.now)) words.now) }
{
    for (place, placed) in words.iter().enumerate() {
        let reason = word_reason(form, next_word(form, place), placed);
        if reason.is_some() {
            return reason;
        }
    }
    end_reason(form, next_word(form, words.len()), column)
}

/// Column and reason of the words of a line, if they have no form; the line ends before this
/// column.
pub fn form_reason(
    alloc: Global,
    column: usize,
    words: &[PlacedWord<'_>],
) -> Result<Option<(usize, LineWhy)>, AllocError>
    ensures { IfOk result (λ reason. reason ≡ form_reason column (map (λ p. (p.column, p.word.now)) words.now)) }
{
    match words {
        [] => Ok(Some((column, LineWhy::UnknownName(None)))),
        [name, rest @ ..] => match form_named(name.word) {
            Some(form) => Ok(words_reason(form, column, rest)),
            None => Ok(Some((
                name.column,
                LineWhy::UnknownName(nearest(alloc, name.word)?),
            ))),
        },
    }
}

/// Column and reason of a line of ASCII, if it has no form.
fn ascii_reason(alloc: Global, line: &[u8]) -> Result<Option<(usize, LineWhy)>, AllocError>
    ensures { IfOk result (λ reason. reason ≡ ascii_reason line.now) }
{
    if is_passed_over(line) {
        return Ok(None);
    }
    let words = placed_words(alloc, line)?;
    match form_reason(alloc, line.len() + 1, words.as_slice())? {
        Some(reason) => Ok(Some(spacing_reason(line).unwrap_or(reason))),
        None => Ok(None),
    }
}

/// Why a line by itself is refused, and in which column: first a byte that is not ASCII, then its
/// spaces, then its words.
pub(crate) fn line_reason(
    alloc: Global,
    line: &[u8],
) -> Result<Option<(usize, LineWhy)>, AllocError>
    ensures { IfOk result (λ reason. reason ≡ line_reason line.now) }
{
    match foreign_reason(line) {
        Some(reason) => Ok(Some(reason)),
        None => ascii_reason(alloc, line),
    }
}

/// Laws of lines: one by itself has a reason to be refused, or is a statement; and its reason is
/// true: the byte or the word is in that column, a word that it calls wrong is not of its kind, and
/// a name that it calls unknown is none. The call does nothing at run time.
pub fn a_line_is_refused_for_a_reason(line: &[u8])
    ensures reason { is_none (line_reason line.now) ≡ is_some (statement_of line.now) }
    ensures holds { IfSome (line_reason line.now) (Holds line.now) }
{}
