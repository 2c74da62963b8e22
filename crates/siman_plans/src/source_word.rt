//! The words of a line of a source, each with its column.

ghost use Rattle.std.specs.Prelude.{◌≡◌, ◌<◌, not, map, length, position, IfOk, IfSome};
ghost use Rattle.std.specs.List.{list_all};
ghost use Rattle.std.specs.Option.{option_map};
ghost use Rattle.siman_scripts.specs.LineReason.{is_mark, is_comment};
ghost use Rattle.siman_plans.specs.SourceWords.{without_mark, cut_end, without_return, is_gap, parts_of, source_words, words_end, is_printable, unprintable_in, is_letter, is_label_byte, begins_with_letter, is_reserved, is_label, answer_name};

use byte_files::split_once;
use siman_scripts::PlacedWord;
use std::alloc::{AllocError, Global};

/// A text without a byte order mark at its start.
pub(crate) fn without_mark(text: &[u8]) -> &[u8]
    ensures { result.now ≡ without_mark text.now }
{
    match text {
        [0xEF, 0xBB, 0xBF, rest @ ..] => rest,
        _ => text,
    }
}

/// The bytes before the last, if that is this byte.
fn cut_end(bytes: &[u8], last: u8) -> Option<&[u8]>
    ensures { option_map (λ b. b.now) result ≡ cut_end last bytes.now }
{
    match bytes {
        [before @ .., end] if *end == last => Some(before),
        _ => None,
    }
}

/// A line without a carriage return at its end.
fn without_return(line: &[u8]) -> &[u8]
    ensures { result.now ≡ without_return line.now }
{
    match cut_end(line, b'\r') {
        Some(before) => before,
        None => line,
    }
}

fn is_gap(byte: u8) -> bool
    ensures { result ≡ is_gap byte }
{
    byte == b' ' || byte == b'\t'
}

fn is_comment(part: &[u8]) -> bool
    ensures { result ≡ is_comment part.now }
{
    match part {
        [] => false,
        [first, ..] => *first == b'#',
    }
}

/// The parts of a line between gaps; a part may be empty.
fn parts_of(alloc: Global, line: &[u8]) -> Result<Vec<&[u8]>, AllocError>
    ensures { IfOk result (λ parts. map (λ p. p.now) parts.items ≡ parts_of line.now) }
{
    line.split(|b| is_gap(*b)).collect(alloc)
}

/// The words of a line with their columns; blanks and tabs part them, and a comment is passed over.
pub(crate) fn source_words(alloc: Global, line: &[u8]) -> Result<Vec<PlacedWord<'_>>, AllocError>
    ensures { IfOk result (λ words. map (λ p. (p.column, p.word.now)) words.items ≡ source_words line.now) }
{
    let mut placed = Vec::new(alloc);
    let mut column = 1;
    let parts = parts_of(alloc, without_return(line))?;
    for part in parts.as_slice() {
        if is_comment(*part) {
            break;
        }
        if !part.is_empty() {
            placed.push(PlacedWord {
                column,
                word: *part,
            })?;
        }
        column += part.len() + 1;
    }
    Ok(placed)
}

/// The column behind the last word of a line.
pub(crate) fn words_end(alloc: Global, line: &[u8]) -> Result<usize, AllocError>
    ensures { IfOk result (λ column. column ≡ words_end line.now) }
{
    let (mut last, mut column) = (1, 1);
    let parts = parts_of(alloc, without_return(line))?;
    for part in parts.as_slice() {
        if is_comment(*part) {
            break;
        }
        if !part.is_empty() {
            last = column + part.len();
        }
        column += part.len() + 1;
    }
    Ok(last)
}

/// Index of the first byte of a word that is no printable ASCII.
fn unprintable_place(word: &[u8]) -> Option<usize>
    ensures place { result ≡ position (λ b. not (is_printable b)) word.now }
    ensures within { IfSome result (λ i. i < length word.now) }
{
    word.iter().position(|b| *b < 33 || *b > 126)
}

/// The column of the first byte of a line that is no printable ASCII and in no comment.
pub(crate) fn unprintable_in(alloc: Global, line: &[u8]) -> Result<Option<usize>, AllocError>
    ensures { IfOk result (λ column. column ≡ unprintable_in line.now) }
{
    let mut column = 1;
    let parts = parts_of(alloc, without_return(line))?;
    for part in parts.as_slice() {
        if is_comment(*part) {
            return Ok(None);
        }
        if let Some(place) = unprintable_place(*part) {
            return Ok(Some(column + place));
        }
        column += part.len() + 1;
    }
    Ok(None)
}

fn is_letter(byte: u8) -> bool
    ensures { result ≡ is_letter byte }
{
    matches!(byte, b'A'..=b'Z' | b'a'..=b'z')
}

/// Whether a byte is a letter, a digit, `-` or `_`.
fn is_label_byte(byte: u8) -> bool
    ensures { result ≡ is_label_byte byte }
{
    is_letter(byte) || matches!(byte, b'0'..=b'9' | b'-' | b'_')
}

fn begins_with_letter(word: &[u8]) -> bool
    ensures { result ≡ begins_with_letter word.now }
{
    match word {
        [] => false,
        [first, ..] => is_letter(*first),
    }
}

/// Whether a word is no label, since it has another meaning.
fn is_reserved(word: &[u8]) -> bool
    ensures { result ≡ is_reserved word.now }
{
    word == b"answer".as_slice()
        || word == b"again".as_slice()
        || word == b"as".as_slice()
        || word == b"all".as_slice()
}

fn are_label_bytes(word: &[u8]) -> bool
    ensures { result ≡ list_all is_label_byte word.now }
{
    word.iter().all(|b| is_label_byte(*b))
}

/// Whether a word may be a label: a letter, then letters, digits, `-` and `_`, at most 64 in all.
pub(crate) fn is_label(word: &[u8]) -> bool
    ensures { result ≡ is_label word.now }
{
    begins_with_letter(word) && are_label_bytes(word) && word.len() <= 64 && !is_reserved(word)
}

/// The label of a word `answer(LABEL)`.
pub(crate) fn answer_name(word: &[u8]) -> Option<&[u8]>
    ensures { option_map (λ w. w.now) result ≡ answer_name word.now }
{
    let (before, rest) = split_once(word, b'(')?;
    if before == b"answer".as_slice() {
        cut_end(rest, b')')
    } else {
        None
    }
}
