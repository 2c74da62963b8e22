//! The words of a line, each with its column.

ghost use Rattle.std.specs.Prelude.{◌≡◌, map, All, IfOk};
ghost use Rattle.byte_files.specs.Text.{words_of};
ghost use Rattle.siman_scripts.specs.Words.{placed_words_of, IsPlacedAt};

use byte_files::words;
use std::alloc::{AllocError, Global};

/// A word of a line, and the column of its first byte, which is counted in bytes from 1.
#[derive(Clone, Copy)]
pub struct PlacedWord<'a> {
    pub column: usize,
    pub word: &'a [u8],
}

/// The words of a line with their columns; single spaces separate them.
pub fn placed_words(alloc: Global, line: &[u8]) -> Result<Vec<PlacedWord<'_>>, AllocError>
    ensures { IfOk result (λ words. map (λ p. (p.column, p.word.now)) words.items ≡ placed_words_of line.now) }
{
    let mut placed = Vec::new(alloc);
    let mut column = 1;
    let words = words(alloc, line)?;
    for word in words.as_slice() {
        placed.push(PlacedWord {
            column,
            word: *word,
        })?;
        column += word.len() + 1;
    }
    Ok(placed)
}

/// A law of the words of a line with their columns: they are the words of the line, each at its
/// column. The call does nothing at run time.
pub fn words_have_their_columns(line: &[u8])
    ensures words { map (λ p. p.1) (placed_words_of line.now) ≡ words_of line.now }
    ensures columns { All (IsPlacedAt line.now) (placed_words_of line.now) }
{}
