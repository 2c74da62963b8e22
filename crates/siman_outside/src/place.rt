//! The end of a fault's line: a place in what was read, or why a file was not opened.

ghost use Rattle.std.specs.Prelude.{◌++◌, decimal, Some};
ghost use Rattle.byte_files.specs.Writing.{Writes};
ghost use Rattle.siman_outside.specs.Ending.{piece_words, station_words, words_under_site, entity_words, place_words};

use crate::unopened::OpenFault;
use byte_files::{WriteFailed, put_both};
use itoa::Buffer;
use std::fmt;
use std::io::Write;

/// A place in what was read, or why a file was not opened.
#[derive(Clone, Copy)]
pub(crate) enum Place<'a> {
    /// An offset in bytes, from 0.
    Offset(u64),
    /// A line, from 1.
    Line(usize),
    /// A move, from 0.
    Move(usize),
    /// A piece, by its name.
    Piece(&'a str),
    /// An offset in bytes, from 0, in the piece of this name.
    PieceOffset(u64, &'a str),
    /// The station of this site and application, in the piece of this name.
    PieceStation(u16, u16, &'a str),
    /// The entity of this site, application and number, in the piece of this name.
    PieceEntity(u16, u16, u16, &'a str),
    /// No place, but the reason why a file could not be opened.
    Unopened(OpenFault),
}

/// ` at OFFSET`, ` at line N` or ` at move N`; of a piece ` in NAME`, ` at OFFSET in NAME` or
/// ` SITE:APPLICATION in NAME`, with `:ENTITY` behind the application; of a file that could not be
/// opened `: REASON`.
impl fmt::Display for Place<'_> {
    ghost output = { λ place. Some (place_words place) };

    fn fmt<W: fmt::Write>(&self, f: &mut fmt::Formatter<W>) -> fmt::Result {
        match self {
            Place::Offset(at) => write!(f, " at {at}"),
            Place::Line(number) => write!(f, " at line {number}"),
            Place::Move(number) => write!(f, " at move {number}"),
            Place::Piece(name) => write!(f, " in {name}"),
            Place::PieceOffset(at, name) => write!(f, " at {at} in {name}"),
            Place::PieceStation(site, application, name) => {
                write!(f, " {site}:{application} in {name}")
            }
            Place::PieceEntity(site, application, entity, name) => {
                write!(f, " {site}:{application}:{entity} in {name}")
            }
            Place::Unopened(reason) => {
                let reason = reason.name();
                write!(f, ": {reason}")
            }
        }
    }
}

/// Writes words and a number.
fn put_number<W: Write>(writer: &mut W, words: &str, number: u64) -> Result<(), WriteFailed>
    ensures { Writes result (W.contents writer.old) (W.contents writer.new) (words.now ++ decimal number) }
{
    let mut buffer = Buffer::new();
    put_both(writer, words.as_bytes(), buffer.format(number).as_bytes())
}

/// Writes words and a number, and ` in ` with the name of the piece.
fn put_in_piece<W: Write>(
    writer: &mut W,
    words: &str,
    number: u64,
    name: &str,
) -> Result<(), WriteFailed>
    ensures { Writes result (W.contents writer.old) (W.contents writer.new) ((words.now ++ decimal number) ++ piece_words name.now) }
{
    put_number(writer, words, number)?;
    put_both(writer, b" in ", name.as_bytes())
}

/// Writes the address of a station, and ` in ` with the name of the piece.
fn put_station<W: Write>(
    writer: &mut W,
    site: u16,
    application: u16,
    name: &str,
) -> Result<(), WriteFailed>
    ensures { Writes result (W.contents writer.old) (W.contents writer.new) (station_words site application name.now) }
{
    put_number(writer, " ", site as u64)?;
    put_in_piece(writer, ":", application as u64, name)
}

/// Writes an application and an entity of it, and ` in ` with the name of the piece.
fn put_under_site<W: Write>(
    writer: &mut W,
    application: u16,
    entity: u16,
    name: &str,
) -> Result<(), WriteFailed>
    ensures { Writes result (W.contents writer.old) (W.contents writer.new) (words_under_site application entity name.now) }
{
    put_number(writer, ":", application as u64)?;
    put_in_piece(writer, ":", entity as u64, name)
}

/// Writes an entity of a station, and ` in ` with the name of the piece.
fn put_entity<W: Write>(
    writer: &mut W,
    site: u16,
    application: u16,
    entity: u16,
    name: &str,
) -> Result<(), WriteFailed>
    ensures { Writes result (W.contents writer.old) (W.contents writer.new) (entity_words site application entity name.now) }
{
    put_number(writer, " ", site as u64)?;
    put_under_site(writer, application, entity, name)
}

/// Writes a place, as its `Display` does.
pub(crate) fn put_place<W: Write>(writer: &mut W, place: Place<'_>) -> Result<(), WriteFailed>
    ensures { Writes result (W.contents writer.old) (W.contents writer.new) (place_words place.entry) }
{
    match place {
        Place::Offset(at) => put_number(writer, " at ", at),
        Place::Line(number) => put_number(writer, " at line ", number as u64),
        Place::Move(number) => put_number(writer, " at move ", number as u64),
        Place::Piece(name) => put_both(writer, b" in ", name.as_bytes()),
        Place::PieceOffset(at, name) => put_in_piece(writer, " at ", at, name),
        Place::PieceStation(site, application, name) => {
            put_station(writer, site, application, name)
        }
        Place::PieceEntity(site, application, entity, name) => {
            put_entity(writer, site, application, entity, name)
        }
        Place::Unopened(reason) => put_both(writer, b": ", reason.name().as_bytes()),
    }
}
