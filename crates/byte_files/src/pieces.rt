//! Texts of five pieces: words, numbers and addresses, one after another.

ghost use Rattle.std.specs.Prelude.{◌≡◌, ◌++◌, [], codes, decimal, Some};
ghost use Rattle.byte_files.specs.Pieces.{behind, endpoint_text, piece_text, pieces_text, placed_text, pieces, five as texts};
ghost use Rattle.byte_files.specs.Writing.{Writes};

use crate::output::{WriteFailed, put, put_both};
use itoa::Buffer;
use std::fmt;
use std::io::Write;

/// A piece of a text.
#[derive(Clone, Copy)]
pub enum TextPiece<'a> {
    /// Words, or a name.
    Words(&'a str),
    Number(u64),
    /// A site and an application, `S:A`.
    Address(u16, u16),
    /// The four octets of an IP version 4 address, and a port, `N.N.N.N:P`.
    Endpoint(u8, u8, u8, u8, u16),
    Nothing,
}

/// A text of five pieces.
#[derive(Clone, Copy)]
pub struct TextPieces<'a> {
    pub first: TextPiece<'a>,
    pub second: TextPiece<'a>,
    pub third: TextPiece<'a>,
    pub fourth: TextPiece<'a>,
    pub fifth: TextPiece<'a>,
}

/// A place, and a text about what is there.
#[derive(Clone, Copy)]
pub struct PlacedText<'a> {
    /// The words of the place; no pieces for a text that has none.
    pub place: TextPieces<'a>,
    pub text: TextPieces<'a>,
}

/// A text of five pieces.
pub fn five_pieces<'a>(
    first: TextPiece<'a>,
    second: TextPiece<'a>,
    third: TextPiece<'a>,
    fourth: TextPiece<'a>,
    fifth: TextPiece<'a>,
) -> TextPieces<'a>
    ensures { result ≡ pieces first.entry second.entry third.entry fourth.entry fifth.entry }
{
    TextPieces {
        first,
        second,
        third,
        fourth,
        fifth,
    }
}

/// A text of three pieces.
pub fn three_pieces<'a>(
    first: TextPiece<'a>,
    second: TextPiece<'a>,
    third: TextPiece<'a>,
) -> TextPieces<'a>
    ensures { result ≡ pieces first.entry second.entry third.entry TextPiece.Nothing TextPiece.Nothing }
{
    five_pieces(first, second, third, TextPiece::Nothing, TextPiece::Nothing)
}

/// The text of `words` alone.
pub fn words_alone(words: &'static str) -> TextPieces<'static>
    ensures { pieces_text result ≡ texts words.now [] [] [] [] }
{
    three_pieces(
        TextPiece::Words(words),
        TextPiece::Nothing,
        TextPiece::Nothing,
    )
}

/// A text without a place.
pub fn unplaced(text: TextPieces<'_>) -> PlacedText<'_>
    ensures { placed_text result ≡ pieces_text text.entry }
{
    let nothing = TextPiece::Nothing;
    PlacedText {
        place: three_pieces(nothing, nothing, nothing),
        text,
    }
}

impl fmt::Display for TextPiece<'_> {
    ghost output = { λ piece. Some (piece_text piece) };

    fn fmt<W: fmt::Write>(&self, f: &mut fmt::Formatter<W>) -> fmt::Result {
        match self {
            TextPiece::Words(words) => write!(f, "{words}"),
            TextPiece::Number(number) => write!(f, "{number}"),
            TextPiece::Address(site, application) => write!(f, "{site}:{application}"),
            TextPiece::Endpoint(first, second, third, last, port) => {
                write!(f, "{first}.{second}.{third}.{last}:{port}")
            }
            TextPiece::Nothing => Ok(()),
        }
    }
}

impl fmt::Display for TextPieces<'_> {
    ghost output = { λ pieces. Some (pieces_text pieces) };

    fn fmt<W: fmt::Write>(&self, f: &mut fmt::Formatter<W>) -> fmt::Result {
        let TextPieces {
            first,
            second,
            third,
            fourth,
            fifth,
        } = self;
        write!(f, "{first}{second}{third}{fourth}{fifth}")
    }
}

fn put_number<W: Write>(writer: &mut W, number: u64) -> Result<(), WriteFailed>
    ensures { Writes result (W.contents writer.old) (W.contents writer.new) (decimal number) }
{
    let mut buffer = Buffer::new();
    put(writer, buffer.format(number).as_bytes())
}

/// Writes a text and a number.
fn put_behind<W: Write>(writer: &mut W, text: &str, number: u16) -> Result<(), WriteFailed>
    ensures { Writes result (W.contents writer.old) (W.contents writer.new) (behind text.now number) }
{
    let mut buffer = Buffer::new();
    put_both(writer, text.as_bytes(), buffer.format(number).as_bytes())
}

/// Writes a site and an application.
fn put_address<W: Write>(writer: &mut W, site: u16, application: u16) -> Result<(), WriteFailed>
    ensures { Writes result (W.contents writer.old) (W.contents writer.new) (decimal site ++ behind (codes ":") application) }
{
    put_number(writer, u64::from(site))?;
    put_behind(writer, ":", application)
}

/// Writes an endpoint from its last octet on.
fn put_port<W: Write>(writer: &mut W, last: u8, port: u16) -> Result<(), WriteFailed>
    ensures { Writes result (W.contents writer.old) (W.contents writer.new) (behind (codes ".") last ++ behind (codes ":") port) }
{
    put_behind(writer, ".", u16::from(last))?;
    put_behind(writer, ":", port)
}

/// Writes an endpoint from its third octet on.
fn put_third<W: Write>(writer: &mut W, third: u8, last: u8, port: u16) -> Result<(), WriteFailed>
    ensures { Writes result (W.contents writer.old) (W.contents writer.new) (behind (codes ".") third ++ (behind (codes ".") last ++ behind (codes ":") port)) }
{
    put_behind(writer, ".", u16::from(third))?;
    put_port(writer, last, port)
}

/// Writes an endpoint from its second octet on.
fn put_second<W: Write>(
    writer: &mut W,
    second: u8,
    third: u8,
    last: u8,
    port: u16,
) -> Result<(), WriteFailed>
    ensures { Writes result (W.contents writer.old) (W.contents writer.new) (behind (codes ".") second ++ (behind (codes ".") third ++ (behind (codes ".") last ++ behind (codes ":") port))) }
{
    put_behind(writer, ".", u16::from(second))?;
    put_third(writer, third, last, port)
}

/// Writes an endpoint.
fn put_endpoint<W: Write>(
    writer: &mut W,
    first: u8,
    second: u8,
    third: u8,
    last: u8,
    port: u16,
) -> Result<(), WriteFailed>
    ensures { Writes result (W.contents writer.old) (W.contents writer.new) (endpoint_text first second third last port) }
{
    put_behind(writer, "", u16::from(first))?;
    put_second(writer, second, third, last, port)
}

fn put_piece<W: Write>(writer: &mut W, piece: TextPiece<'_>) -> Result<(), WriteFailed>
    ensures { Writes result (W.contents writer.old) (W.contents writer.new) (piece_text piece.entry) }
{
    match piece {
        TextPiece::Words(words) => put(writer, words.as_bytes()),
        TextPiece::Number(number) => put_number(writer, number),
        TextPiece::Address(site, application) => put_address(writer, site, application),
        TextPiece::Endpoint(first, second, third, last, port) => {
            put_endpoint(writer, first, second, third, last, port)
        }
        TextPiece::Nothing => put(writer, b""),
    }
}

/// Writes two pieces.
fn put_two<W: Write>(
    writer: &mut W,
    first: TextPiece<'_>,
    second: TextPiece<'_>,
) -> Result<(), WriteFailed>
    ensures { Writes result (W.contents writer.old) (W.contents writer.new) (piece_text first.entry ++ piece_text second.entry) }
{
    put_piece(writer, first)?;
    put_piece(writer, second)
}

/// Writes three pieces.
fn put_three<W: Write>(
    writer: &mut W,
    first: TextPiece<'_>,
    second: TextPiece<'_>,
    third: TextPiece<'_>,
) -> Result<(), WriteFailed>
    ensures { Writes result (W.contents writer.old) (W.contents writer.new) (piece_text first.entry ++ (piece_text second.entry ++ piece_text third.entry)) }
{
    put_piece(writer, first)?;
    put_two(writer, second, third)
}

/// Writes four pieces.
fn put_four<W: Write>(
    writer: &mut W,
    first: TextPiece<'_>,
    second: TextPiece<'_>,
    third: TextPiece<'_>,
    fourth: TextPiece<'_>,
) -> Result<(), WriteFailed>
    ensures { Writes result (W.contents writer.old) (W.contents writer.new) (piece_text first.entry ++ (piece_text second.entry ++ (piece_text third.entry ++ piece_text fourth.entry))) }
{
    put_piece(writer, first)?;
    put_three(writer, second, third, fourth)
}

/// Writes a text in pieces.
pub fn put_pieces<W: Write>(writer: &mut W, pieces: TextPieces<'_>) -> Result<(), WriteFailed>
    ensures { Writes result (W.contents writer.old) (W.contents writer.new) (pieces_text pieces.entry) }
{
    put_piece(writer, pieces.first)?;
    put_four(
        writer,
        pieces.second,
        pieces.third,
        pieces.fourth,
        pieces.fifth,
    )
}

/// Writes a place, and the text about it.
pub fn put_placed<W: Write>(writer: &mut W, placed: PlacedText<'_>) -> Result<(), WriteFailed>
    ensures { Writes result (W.contents writer.old) (W.contents writer.new) (placed_text placed.entry) }
{
    put_pieces(writer, placed.place)?;
    put_pieces(writer, placed.text)
}
