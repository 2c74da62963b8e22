//! Second line of a report: what a person needs to correct a line of text.

ghost use Rattle.std.specs.Prelude.{◌≡◌, ◌++◌, codes};
ghost use Rattle.byte_files.specs.Pieces.{placed_text};
ghost use Rattle.byte_files.specs.Writing.{Writes};
ghost use Rattle.siman_print.specs.Records.{line_end};
ghost use Rattle.siman_operator.specs.Explanation.{station_words, second_line, bad_text, alone_text, system_clock_text, station_text, lost_text};

use crate::reason::BadReason;
use byte_files::{
    PlacedText, TextPiece, WriteFailed, put, put_placed, three_pieces, unplaced, words_alone,
};
use siman_lines::{LineTrouble, trouble_pieces};
use siman_manager::OrderFault;
use siman_scripts::placed_command_reason;
use siman_stations::StationFault;
use std::io::Write;

/// Explanation of a bad line, if the reason is known.
pub(crate) fn of_bad(reason: Option<BadReason>) -> Option<PlacedText<'static>>
    ensures { second_line result ≡ bad_text reason }
{
    match reason {
        None => None,
        Some(BadReason::TooLong) => {
            Some(unplaced(words_alone("the line has more than 65536 bytes")))
        }
        Some(BadReason::NoOrder(reason)) => Some(placed_command_reason(reason)),
    }
}

/// Explanation that the session plays only the station of this site and application.
pub(crate) fn of_other(site: u16, application: u16) -> Option<PlacedText<'static>>
    ensures { second_line result ≡ alone_text site application }
{
    Some(unplaced(three_pieces(
        TextPiece::Words("this session plays station "),
        TextPiece::Address(site, application),
        TextPiece::Words(" alone"),
    )))
}

/// Explanation that no line sets the system's clock.
pub(crate) fn of_clock() -> Option<PlacedText<'static>>
    ensures { second_line result ≡ system_clock_text }
{
    Some(unplaced(words_alone("the clock is the system's (clock=system), and no line sets it")))
}

/// Remedy for a station fault, in words.
fn station_words(fault: StationFault) -> &'static str
    ensures { result.now ≡ station_words fault }
{
    match fault {
        StationFault::NoSuchEntity => "the number of an entity is from 1 to 65533",
        StationFault::NotARequest =>
            "an order is one of do, query, set, create, remove, start and stop",
        StationFault::Order(OrderFault::IdsSpent) => {
            "no request identifier is left after 4294967295: begin a new exercise with a lower first=F"
        }
        StationFault::Order(OrderFault::TooLong) => {
            "the order would have more than 8192 bytes: query fewer data in one line"
        }
        StationFault::Order(OrderFault::Memory) => {
            "memory ran out and the order was not made: type it again"
        }
    }
}

/// Explanation of a station fault.
pub(crate) fn of_station(fault: StationFault) -> Option<PlacedText<'static>>
    ensures { second_line result ≡ station_text fault }
{
    Some(unplaced(words_alone(station_words(fault))))
}

/// Explanation of a failed call of a link, if it is known.
pub(crate) fn of_lost(trouble: Option<LineTrouble>) -> Option<PlacedText<'static>>
    ensures { second_line result ≡ lost_text trouble }
{
    match trouble {
        Some(trouble) => Some(unplaced(trouble_pieces(trouble))),
        None => None,
    }
}

/// Writes an explanation and a line end.
fn put_ended<E: Write>(errors: &mut E, explanation: PlacedText<'_>) -> Result<(), WriteFailed>
    ensures { Writes result (E.contents errors.old) (E.contents errors.new) (placed_text explanation.entry ++ line_end) }
{
    put_placed(errors, explanation)?;
    put(errors, b"\n")
}

/// Writes an explanation on a line of its own, indented by two blanks.
fn put_line<E: Write>(errors: &mut E, explanation: PlacedText<'_>) -> Result<(), WriteFailed>
    ensures { Writes result (E.contents errors.old) (E.contents errors.new) (codes "  " ++ (placed_text explanation.entry ++ line_end)) }
{
    put(errors, b"  ")?;
    put_ended(errors, explanation)
}

/// Writes the second line, if any.
pub(crate) fn put_second<E: Write>(
    errors: &mut E,
    explanation: Option<PlacedText<'_>>,
) -> Result<(), WriteFailed>
    ensures { Writes result (E.contents errors.old) (E.contents errors.new) (second_line explanation.entry) }
{
    match explanation {
        Some(explanation) => put_line(errors, explanation),
        None => Ok(()),
    }
}
