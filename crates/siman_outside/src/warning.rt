//! Texts of warnings.

ghost use Rattle.std.specs.Prelude.{◌≡◌};
ghost use Rattle.byte_files.specs.Pieces.{pieces_text};
ghost use Rattle.siman_outside.specs.Reasons.{meant_text, nobody_text, words_if, lacking_text, torn_text, kept_text, reason_words, warning_text};

use crate::notes::Warning;
use crate::reason::Reason;
use byte_files::{TextPiece, TextPieces, five_pieces, three_pieces};
use exercise_recording::FormatFault;

/// The warning about a recording with datagrams none of which means anything in this exercise.
fn meant_pieces(datagrams: u64, exercise: u8) -> TextPieces<'static>
    ensures { pieces_text result ≡ meant_text datagrams exercise }
{
    five_pieces(
        TextPiece::Words("none of the "),
        TextPiece::Number(datagrams),
        TextPiece::Words(" datagrams is a management PDU of exercise "),
        TextPiece::Number(u64::from(exercise)),
        TextPiece::Words(": see why= of siman log"),
    )
}

/// The warning about the order in a line for a station that its script does not have.
fn nobody_pieces(line: usize, site: u16, application: u16) -> TextPieces<'static>
    ensures { pieces_text result ≡ nobody_text line site application }
{
    five_pieces(
        TextPiece::Words("line "),
        TextPiece::Number(line as u64),
        TextPiece::Words(": the script has no station "),
        TextPiece::Address(site, application),
        TextPiece::Words(", so nobody gets this order"),
    )
}

/// These words where they hold, else none.
fn words_if(holds: bool, words: &'static str) -> &'static str
    ensures { result.now ≡ words_if holds words.now }
{
    if holds { words } else { "" }
}

/// The warning about a log that may not be whole.
fn lacking_pieces(dropped: bool, fragments: bool, bundled: bool) -> TextPieces<'static>
    ensures { pieces_text result ≡ lacking_text dropped fragments bundled }
{
    five_pieces(
        TextPiece::Words("the log may not be whole:"),
        TextPiece::Words(words_if(dropped, " the capturing system lost packets (dropped);")),
        TextPiece::Words(words_if(fragments, " parts of datagrams are missing (fragments);")),
        TextPiece::Words(words_if(
            bundled,
            " datagrams of several PDUs are not read (bundled);",
        )),
        TextPiece::Words(" the counts say how many"),
    )
}

/// The fault of a torn recording.
fn torn_pieces(fault: FormatFault) -> TextPieces<'static>
    ensures { pieces_text result ≡ torn_text fault }
{
    five_pieces(
        TextPiece::Words("the recording is torn, "),
        TextPiece::Words(fault.name()),
        TextPiece::Words(" at "),
        TextPiece::Number(fault.place()),
        TextPiece::Words(": "),
    )
}

/// The number of entries that are read of a torn recording.
fn kept_pieces(entries: u32) -> TextPieces<'static>
    ensures { pieces_text result ≡ kept_text entries }
{
    three_pieces(
        TextPiece::Words("its entries that stand whole before that are read, "),
        TextPiece::Number(u64::from(entries)),
        TextPiece::Words(" in all"),
    )
}

/// The text of a warning.
pub(crate) fn warning_reason(warning: Warning) -> Reason<'static>
    ensures { reason_words result ≡ warning_text warning }
{
    match warning {
        Warning::NothingMeant {
            datagrams,
            exercise,
        } => Reason::Text(meant_pieces(datagrams, exercise)),
        Warning::NoSuchStation {
            line,
            site,
            application,
        } => Reason::Text(nobody_pieces(line, site, application)),
        Warning::Torn { fault, entries } => {
            Reason::Both(torn_pieces(fault), kept_pieces(entries))
        }
        Warning::NotWhole {
            dropped,
            fragments,
            bundled,
        } => Reason::Text(lacking_pieces(dropped, fragments, bundled)),
        Warning::Unopened(text) => Reason::Short(text),
    }
}
