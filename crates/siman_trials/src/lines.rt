//! The lines of a file of cases.

use std::io::ErrorKind;

/// The part of a case that the following lines fill.
#[derive(Clone, Copy)]
pub(crate) enum CasePart {
    Word,
    File,
    Input,
    Out,
    Errors,
    Reason,
    Behind,
    Left,
    Discarded,
    Coming,
    Sent,
}

/// A call of a station, or a question to it.
#[derive(Clone, Copy)]
pub enum Asked {
    /// Serves the link at a time, for a number of turns.
    Serve,
    /// Issues the next order of the script at a time.
    Issue,
    /// Sends the repeat that is due at a time.
    Nudge,
    /// Asks for the status of the order with a request identifier.
    Order,
    /// Asks for the state of an entity.
    Entity,
    /// Asks for the value of the fixed datum with an identifier.
    Datum,
    /// Asks how many orders are given up.
    GivenUp,
}

/// Meaning of the first word of a line.
#[derive(Clone, Copy)]
pub(crate) enum Says {
    Case,
    Words,
    Unread(ErrorKind),
    File(Option<ErrorKind>),
    Begin(CasePart),
    Text,
    Piece,
    Times,
    Each,
    Hex,
    Calls,
    Asked,
    AskedNothing,
    Keep,
    Status,
    HalfTold,
    Station,
    LineFails,
    Call(Asked),
    Pause,
    Time,
    EachCallFails,
    EachByteFails,
}

/// A parsed line: the meaning of its word, the first and the last number behind the word, and the
/// text behind the numbers.
#[derive(Clone, Copy)]
pub(crate) struct CaseLine<'a> {
    pub(crate) says: Says,
    pub(crate) first: u64,
    pub(crate) last: u64,
    pub(crate) text: &'a str,
}

/// Each word with its meaning, the count of its numbers, and whether a text may follow them.
static WORDS: [(&str, Says, usize, bool); 43] = [
    ("case", Says::Case, 0, true),
    ("words", Says::Words, 0, true),
    (
        "unread-utf8",
        Says::Unread(ErrorKind::InvalidData),
        0,
        false,
    ),
    (
        "unread-memory",
        Says::Unread(ErrorKind::OutOfMemory),
        0,
        false,
    ),
    ("file", Says::File(None), 0, true),
    (
        "shut",
        Says::File(Some(ErrorKind::PermissionDenied)),
        0,
        true,
    ),
    ("folder", Says::File(Some(ErrorKind::IsADirectory)), 0, true),
    ("odd", Says::File(Some(ErrorKind::NotADirectory)), 0, true),
    ("full", Says::File(Some(ErrorKind::OutOfMemory)), 0, true),
    ("word", Says::Begin(CasePart::Word), 0, false),
    ("input", Says::Begin(CasePart::Input), 0, false),
    ("out", Says::Begin(CasePart::Out), 0, false),
    ("errors", Says::Begin(CasePart::Errors), 0, false),
    ("reason", Says::Begin(CasePart::Reason), 0, false),
    ("behind", Says::Begin(CasePart::Behind), 0, false),
    ("left", Says::Begin(CasePart::Left), 0, false),
    ("discarded", Says::Begin(CasePart::Discarded), 0, false),
    ("comes", Says::Begin(CasePart::Coming), 0, false),
    ("sent", Says::Begin(CasePart::Sent), 0, false),
    ("text", Says::Text, 0, true),
    ("piece", Says::Piece, 0, true),
    ("times", Says::Times, 1, true),
    ("each", Says::Each, 2, true),
    ("hex", Says::Hex, 0, true),
    ("calls", Says::Calls, 2, true),
    ("asked", Says::Asked, 0, true),
    ("asked-nothing", Says::AskedNothing, 0, false),
    ("keep", Says::Keep, 0, true),
    ("status", Says::Status, 1, false),
    ("half-told", Says::HalfTold, 0, false),
    ("station", Says::Station, 1, false),
    ("line-fails", Says::LineFails, 1, false),
    ("serve", Says::Call(Asked::Serve), 2, false),
    ("issue", Says::Call(Asked::Issue), 1, false),
    ("nudge", Says::Call(Asked::Nudge), 1, false),
    ("order", Says::Call(Asked::Order), 1, false),
    ("entity", Says::Call(Asked::Entity), 1, false),
    ("datum", Says::Call(Asked::Datum), 1, false),
    ("given-up", Says::Call(Asked::GivenUp), 0, false),
    ("pause", Says::Pause, 0, false),
    ("time", Says::Time, 1, false),
    ("each-call-fails", Says::EachCallFails, 1, false),
    ("each-byte-fails", Says::EachByteFails, 0, false),
];

/// Splits a text at its first space; without a space the second part is empty.
fn split(text: &str) -> (&str, &str) {
    match text.split_once(' ') {
        Some(parts) => parts,
        None => (text, ""),
    }
}

/// Largest value of the last number behind a word.
fn largest(says: Says) -> u64 {
    match says {
        Says::Status => 255,
        Says::Station | Says::Call(Asked::Entity) => 65_535,
        Says::Times | Says::Each | Says::Call(Asked::Serve | Asked::Order | Asked::Datum) => {
            4_294_967_295
        }
        _ => u64::MAX,
    }
}

/// The line of a word, with `numbers` numbers before its text. `None` if a number is missing or too
/// large, or if there is a text where none is allowed.
fn with_numbers<'a>(
    says: Says,
    numbers: usize,
    has_text: bool,
    text: &'a str,
) -> Option<CaseLine<'a>> {
    let (mut first, mut last, mut text) = (0, 0, text);
    for place in 0..numbers {
        let (number, rest) = split(text);
        text = rest;
        match number.parse::<u64>() {
            Ok(number) => last = number,
            Err(_) => return None,
        }
        if place == 0 {
            first = last;
        }
    }
    if last > largest(says) || (!has_text && !text.is_empty()) {
        return None;
    }
    Some(CaseLine {
        says,
        first,
        last,
        text,
    })
}

/// The parsed line; `None` if its word is unknown or what follows it is invalid.
pub(crate) fn read_line(line: &str) -> Option<CaseLine<'_>> {
    let (word, text) = split(line);
    for (known, says, numbers, has_text) in &WORDS {
        if *known == word {
            return with_numbers(*says, *numbers, *has_text, text);
        }
    }
    None
}
