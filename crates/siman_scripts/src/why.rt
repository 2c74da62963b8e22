//! Why a line of a script is refused.

use crate::form::LineForm;
use crate::word_kind::WordKind;

/// Why a line by itself is refused, whatever is before it.
#[derive(Clone, Copy)]
pub enum LineWhy {
    /// A byte order mark (EF BB BF).
    ByteOrderMark,
    /// A byte that is not ASCII.
    NotAscii,
    Tab,
    /// A carriage return in the middle of the line.
    CarriageReturn,
    CarriageReturnAtEnd,
    BlankAtBegin,
    BlankAtEnd,
    /// A blank behind another one.
    TwoBlanks,
    /// A word that begins with `#`, behind a line of this form.
    Comment(LineForm),
    /// The first word is no name of a form; this one is near, if any is.
    UnknownName(Option<LineForm>),
    /// A line of this form ends before a required word of this kind.
    Missing(LineForm, WordKind),
    /// A line of this form has a word too many.
    TooMany(LineForm),
    /// A word of a line of this form is not of this kind.
    Wrong(LineForm, WordKind),
}

/// Why a line of a script is refused, or the whole text.
#[derive(Clone, Copy)]
pub enum Why {
    /// The line by itself is refused.
    Line(LineWhy),
    /// It is a second `exercise` line.
    SecondExercise,
    /// It is before the `exercise` line.
    BeforeExercise,
    /// It is a `station` line, behind lines of a later part.
    LateStation,
    /// It is a line of a station's entities, datums or actions, behind moves.
    LateOutfit,
    /// It is the 257th `station` line.
    TooManyStations,
    /// Its station is not above the one before, which has this site and application.
    StationNotAbove(u16, u16),
    /// Its entity is not above this one, the one before at its station.
    EntityNotAbove(u16),
    /// The station of this site and application has no line.
    UnknownStation(u16, u16),
    /// The text ends with no `exercise` line.
    NoExercise,
    /// The text ends with no `station` line.
    NoStation,
    /// The text has more than 1,048,576 bytes.
    TooLong,
}

/// Why a text is no script: its first refused line, the column, and the reason.
#[derive(Clone, Copy)]
pub struct LineReason {
    /// The line, from 1; the line after the last if the text ends too early, 0 if it is too long.
    pub line: usize,
    /// The column, in bytes from 1; 0 if the text ends too early or is too long.
    pub column: usize,
    pub why: Why,
}

/// Why a typed line is refused, and in which column.
#[derive(Clone, Copy)]
pub struct CommandReason {
    /// The column, in bytes from 1.
    pub column: usize,
    pub why: CommandWhy,
}

/// Why a typed line is refused.
#[derive(Clone, Copy)]
pub enum CommandWhy {
    /// The line by itself is refused.
    Line(LineWhy),
    /// Lines of this form are no orders for a station.
    NotForStation(LineForm),
}
