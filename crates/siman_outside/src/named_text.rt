//! Texts with names in them.

ghost use Rattle.std.specs.Prelude.{◌≡◌, []};
ghost use Rattle.byte_files.specs.Pieces.{pieces_text, five};

use byte_files::{TextPiece, TextPieces, three_pieces};

/// The text of a name and the words behind it.
pub(crate) fn named<'a>(name: &'a str, words: &'static str) -> TextPieces<'a> {
    three_pieces(
        TextPiece::Words(name),
        TextPiece::Words(words),
        TextPiece::Nothing,
    )
}

/// The text of a name and two groups of words behind it.
pub(crate) fn named_twice<'a>(
    name: &'a str,
    first: &'static str,
    second: &'static str,
) -> TextPieces<'a>
    ensures { pieces_text result ≡ five name.entry.now first.now second.now [] [] }
{
    three_pieces(
        TextPiece::Words(name),
        TextPiece::Words(first),
        TextPiece::Words(second),
    )
}

/// The text of a name, words, and another name.
pub(crate) fn two_named<'a>(
    first: &'a str,
    words: &'static str,
    second: &'a str,
) -> TextPieces<'a> {
    three_pieces(
        TextPiece::Words(first),
        TextPiece::Words(words),
        TextPiece::Words(second),
    )
}
