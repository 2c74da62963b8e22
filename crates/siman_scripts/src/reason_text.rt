//! The text of a reason, in pieces.

ghost use Rattle.std.specs.Prelude.{◌≡◌, ◌++◌, decimal, Some};
ghost use Rattle.byte_files.specs.Pieces.{piece_text, pieces_text, placed_text};
ghost use Rattle.byte_files.specs.Writing.{Writes};
ghost use Rattle.siman_scripts.specs.ReasonText.{form_text, kind_words, kind_largest, plain_line_text, unknown_name_text, line_text, plain_text, why_text, place_text, reason_text, command_why_text, column_text, command_text};

use crate::form::{LineForm, form_name};
use crate::why::{CommandReason, CommandWhy, LineReason, LineWhy, Why};
use crate::word_kind::WordKind;
use byte_files::TextPiece::{Nothing, Number, Words};
use byte_files::{PlacedText, TextPiece, TextPieces, WriteFailed, put_placed, three_pieces};
use std::fmt;
use std::io::Write;

/// Form of a line, as it is written.
fn form_text(form: LineForm) -> &'static str
    ensures { result.now ≡ form_text form }
{
    match form {
        LineForm::Exercise => "exercise X",
        LineForm::Station => "station S:A, or station S:A first=F tries=T wait=W",
        LineForm::At => "at N",
        LineForm::Opening => "opening S:A E stopped|running",
        LineForm::Fixed => "fixed S:A ID VALUE",
        LineForm::Action => "action S:A ID",
        LineForm::Deliver => "deliver K S:A",
        LineForm::Tick => "tick S:A",
        LineForm::Tell => "tell S:A E",
        LineForm::Do => "do S:A S:A:E ACTION",
        LineForm::Query => "query S:A S:A:E ID ..",
        LineForm::Set => "set S:A S:A:E ID VALUE",
        LineForm::Create => "create S:A S:A:E",
        LineForm::Remove => "remove S:A S:A:E",
        LineForm::Start => "start S:A S:A:E",
        LineForm::Stop => "stop S:A S:A:E",
    }
}

/// What is expected instead of a word that is not of this kind; for a number the largest follows.
fn kind_words(kind: WordKind) -> &'static str
    ensures { result.now ≡ kind_words kind }
{
    match kind {
        WordKind::Number(_) => "a number is expected, from 0 to ",
        WordKind::Address => "a station address S:A is expected, each from 1 to 65534",
        WordKind::Receiver => "an entity S:A:E is expected, each from 0 to 65535",
        WordKind::Entity => "an entity number is expected, from 1 to 65533",
        WordKind::State => "stopped or running is expected",
        WordKind::FirstId => "first=F is expected, F from 0 to 4294967295",
        WordKind::Tries => "tries=T is expected, T from 1 to 4294967295",
        WordKind::Wait => "wait=W is expected, W from 0 to 18446744073709551615",
    }
}

fn kind_largest(kind: WordKind) -> TextPiece<'static>
    ensures { piece_text result ≡ kind_largest kind }
{
    match kind {
        WordKind::Number(largest) => Number(largest),
        _ => Nothing,
    }
}

/// Fixed words for a reason of a line by itself; empty if the words vary.
fn plain_line_text(why: LineWhy) -> &'static str
    ensures { result.now ≡ plain_line_text why }
{
    match why {
        LineWhy::ByteOrderMark => "a byte order mark: save the file as plain ASCII, without one",
        LineWhy::NotAscii => "a character that is not ASCII: write plain letters, digits and signs",
        LineWhy::Tab => "a tab: write one blank between two words",
        LineWhy::CarriageReturn => "a carriage return inside the line: remove it",
        LineWhy::CarriageReturnAtEnd => {
            "the line ends with a carriage return: save the file with Unix line ends"
        }
        LineWhy::BlankAtBegin => "the line begins with a blank: remove it",
        LineWhy::BlankAtEnd => "the line ends with a blank: remove it",
        LineWhy::TwoBlanks => "two blanks in a row: write one",
        LineWhy::Comment(_) => "a comment behind a line: put it on a line of its own",
        LineWhy::UnknownName(_) => "no line begins with this word",
        LineWhy::Missing(..) | LineWhy::TooMany(_) | LineWhy::Wrong(..) => "",
    }
}

/// Text of a reason of a line by itself.
pub fn line_pieces(why: LineWhy) -> TextPieces<'static>
    ensures { pieces_text result ≡ line_text why }
{
    match why {
        LineWhy::UnknownName(Some(form)) => three_pieces(
            Words("no line begins with this word: is "),
            Words(form_name(form)),
            Words(" meant?"),
        ),
        LineWhy::Missing(form, kind) => TextPieces {
            first: Words("the line ends, and "),
            second: Words(kind_words(kind)),
            third: kind_largest(kind),
            fourth: Words(": "),
            fifth: Words(form_text(form)),
        },
        LineWhy::TooMany(form) => three_pieces(
            Words("a word too many: the line is "),
            Words(form_text(form)),
            Nothing,
        ),
        LineWhy::Wrong(_, kind) => three_pieces(
            Words(kind_words(kind)),
            kind_largest(kind),
            Nothing,
        ),
        _ => three_pieces(Words(plain_line_text(why)), Nothing, Nothing),
    }
}

/// Fixed words for a reason of a line; empty if the words vary.
fn plain_text(why: Why) -> &'static str
    ensures { result.now ≡ plain_text why }
{
    match why {
        Why::SecondExercise => "a second exercise line: a script has one, the first",
        Why::BeforeExercise => "the exercise line has to come before this one",
        Why::LateStation => {
            "a station line has to come before all lines of other kinds but the exercise line"
        }
        Why::LateOutfit => {
            "opening, fixed and action lines have to come before all at lines and moves"
        }
        Why::TooManyStations => "a script has at most 256 stations",
        Why::NoExercise => "the script ends without an exercise line",
        Why::NoStation => "the script ends without a station line",
        Why::TooLong => "the script has more than 1048576 bytes",
        Why::Line(_)
        | Why::StationNotAbove(..)
        | Why::EntityNotAbove(_)
        | Why::UnknownStation(..) => "",
    }
}

/// Text of a reason of a line.
pub fn why_pieces(why: Why) -> TextPieces<'static>
    ensures { pieces_text result ≡ why_text why }
{
    match why {
        Why::Line(line_why) => line_pieces(line_why),
        Why::StationNotAbove(site, application) => TextPieces {
            first: Words("the address has to be above "),
            second: Number(site as u64),
            third: Words(":"),
            fourth: Number(application as u64),
            fifth: Words(", that of the station before: sort the station lines"),
        },
        Why::EntityNotAbove(number) => three_pieces(
            Words("the entity has to be above "),
            Number(number as u64),
            Words(", the one before at this station: sort the opening lines"),
        ),
        Why::UnknownStation(site, application) => TextPieces {
            first: Words("no line says station "),
            second: Number(site as u64),
            third: Words(":"),
            fourth: Number(application as u64),
            fifth: Words(": add one"),
        },
        _ => three_pieces(Words(plain_text(why)), Nothing, Nothing),
    }
}

/// Text of a place; empty if the reason is about the whole text.
pub fn place_pieces(line: usize, column: usize) -> TextPieces<'static>
    ensures { pieces_text result ≡ place_text line column }
{
    if column == 0 {
        return three_pieces(Nothing, Nothing, Nothing);
    }
    TextPieces {
        first: Words("line "),
        second: Number(line as u64),
        third: Words(", column "),
        fourth: Number(column as u64),
        fifth: Words(": "),
    }
}

/// Text of a reason of a typed line.
fn command_pieces(why: CommandWhy) -> TextPieces<'static>
    ensures { pieces_text result ≡ command_why_text why }
{
    match why {
        CommandWhy::Line(line_why) => line_pieces(line_why),
        CommandWhy::NotForStation(form) => three_pieces(
            Words(form_name(form)),
            Words(" is no order for a station"),
            Nothing,
        ),
    }
}

fn column_pieces(column: usize) -> TextPieces<'static>
    ensures { pieces_text result ≡ column_text column }
{
    three_pieces(Words("column "), Number(column as u64), Words(": "))
}

/// Writes the line, the column and the reason, without a line end; only the reason if it is about
/// the whole text.
impl fmt::Display for LineReason {
    ghost output = { λ reason. Some (reason_text reason) };

    fn fmt<W: fmt::Write>(&self, f: &mut fmt::Formatter<W>) -> fmt::Result {
        let place = place_pieces(self.line, self.column);
        let why = why_pieces(self.why);
        write!(f, "{place}{why}")
    }
}

/// Writes the column and the reason, without a line end.
impl fmt::Display for CommandReason {
    ghost output = { λ reason. Some (command_text reason) };

    fn fmt<W: fmt::Write>(&self, f: &mut fmt::Formatter<W>) -> fmt::Result {
        let place = column_pieces(self.column);
        let why = command_pieces(self.why);
        write!(f, "{place}{why}")
    }
}

/// Place and text of a reason.
pub fn placed_reason(reason: LineReason) -> PlacedText<'static>
    ensures { placed_text result ≡ reason_text reason }
{
    PlacedText {
        place: place_pieces(reason.line, reason.column),
        text: why_pieces(reason.why),
    }
}

/// Place and text of the reason of a typed line.
pub fn placed_command_reason(reason: CommandReason) -> PlacedText<'static>
    ensures { placed_text result ≡ command_text reason }
{
    PlacedText {
        place: column_pieces(reason.column),
        text: command_pieces(reason.why),
    }
}

/// Writes a reason as it displays, without a line end.
pub fn put_reason<W: Write>(writer: &mut W, reason: LineReason) -> Result<(), WriteFailed>
    ensures { Writes result (W.contents writer.old) (W.contents writer.new) (reason_text reason) }
{
    put_placed(writer, placed_reason(reason))
}

/// Writes the reason of a typed line as it displays, without a line end.
pub fn put_command_reason<W: Write>(
    writer: &mut W,
    reason: CommandReason,
) -> Result<(), WriteFailed>
    ensures { Writes result (W.contents writer.old) (W.contents writer.new) (command_text reason) }
{
    put_placed(writer, placed_command_reason(reason))
}
