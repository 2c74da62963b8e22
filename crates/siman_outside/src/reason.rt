//! The reason of a fault: the line behind its first line that explains it to a person.

ghost use Rattle.std.specs.Prelude.{◌≡◌, ℕ, List, None, IfSome};
ghost use Rattle.byte_files.specs.Pieces.{pieces_text};
ghost use Rattle.siman_outside.specs.Reasons.{IsForeign, line_text, known_text, sent_text, refusal_words, move_text, step_text, reason_words, IsReason};

use crate::fault::Fault;
use crate::file_kind::FileKind;
use crate::file_reason::{
    certificate_pieces, file_pieces, kind_words, output_pieces, piece_pieces, recording_pieces,
};
use crate::filter_reason::filter_pieces;
use crate::import_reason::import_pieces;
use crate::join_limit::JoinLimit;
use crate::known::{Known, SystemCall, SystemFault};
use crate::limits::LARGEST_RECORDING;
use crate::move_refusal::{MovePlace, MoveRefusal};
use crate::named::Named;
use crate::named_text::{named, named_twice, two_named};
use crate::short_texts::ShortText;
use byte_files::{TextPiece, TextPieces, five_pieces, system_words, words_alone};

/// The reason of a fault.
#[derive(Clone, Copy)]
pub(crate) enum Reason<'a> {
    /// A text that came with the fault.
    Short(ShortText),
    /// A text in pieces.
    Text(TextPieces<'a>),
    /// Two texts in pieces, one behind the other.
    Both(TextPieces<'a>, TextPieces<'a>),
}

/// The number of a script's line, and words behind it.
fn line_pieces(line: usize, told: &'static str) -> TextPieces<'static>
    ensures { pieces_text result ≡ line_text line told.now }
{
    five_pieces(
        TextPiece::Words("line "),
        TextPiece::Number(line as u64),
        TextPiece::Words(told),
        TextPiece::Nothing,
        TextPiece::Nothing,
    )
}

/// The datagrams that a delivery may name, after `sends` datagrams were sent.
fn known_pieces(line: usize, sends: usize) -> TextPieces<'static>
    ensures { pieces_text result ≡ known_text line sends }
{
    if sends == 0 {
        return line_pieces(line, ": no datagram was sent before it");
    }
    five_pieces(
        TextPiece::Words("line "),
        TextPiece::Number(line as u64),
        TextPiece::Words(": only the datagrams 0 to "),
        TextPiece::Number(sends as u64 - 1),
        TextPiece::Words(" were sent before it"),
    )
}

/// The datagrams that a delivery may name, if it is known how many were sent before it.
fn sent_pieces(line: usize, sends: Option<usize>) -> TextPieces<'static>
    ensures { pieces_text result ≡ sent_text line sends }
{
    match sends {
        None => line_pieces(line, ": that datagram was not sent before it"),
        Some(sends) => known_pieces(line, sends),
    }
}

/// Why a move is refused, in words.
fn refusal_words(refusal: MoveRefusal) -> &'static str
    ensures { result.now ≡ refusal_words refusal }
{
    match refusal {
        MoveRefusal::Records => ": a recording has at most 1048576 entries",
        MoveRefusal::NoSuchStation => ": the script has no such station",
        MoveRefusal::NoSuchSend => ": that datagram was not sent before it",
        MoveRefusal::NoSuchEntity => ": the number of an entity is from 1 to 65533",
        MoveRefusal::NotARequest => ": only requests are ordered",
        MoveRefusal::IdsSpent => ": no request identifier is left: begin with a smaller first=",
        MoveRefusal::TooLong => ": its PDU would have more than 8192 bytes: ask for fewer data",
        MoveRefusal::Memory => ": memory ran out",
    }
}

/// The line of a move in its script, and why the move is refused, or which would do.
fn move_pieces(place: MovePlace, refusal: MoveRefusal) -> TextPieces<'static>
    ensures { pieces_text result ≡ move_text place refusal }
{
    if let MoveRefusal::NoSuchSend = refusal {
        return sent_pieces(place.line, place.sends);
    }
    line_pieces(place.line, refusal_words(refusal))
}

/// The number of steps, and the last step.
fn step_pieces(steps: usize) -> TextPieces<'static>
    ensures { pieces_text result ≡ step_text steps }
{
    if steps == 0 {
        return words_alone("there are no steps");
    }
    five_pieces(
        TextPiece::Words("the number of steps is "),
        TextPiece::Number(steps as u64),
        TextPiece::Words(": the last is "),
        TextPiece::Number(steps as u64 - 1),
        TextPiece::Nothing,
    )
}

/// The limit that pieces pass together.
fn limit_pieces(limit: JoinLimit) -> TextPieces<'static> {
    match limit {
        JoinLimit::Stations => words_alone("a recording has at most 256 stations"),
        JoinLimit::Records => words_alone("a recording has at most 1048576 entries"),
        JoinLimit::Size => five_pieces(
            TextPiece::Words("a recording has at most "),
            TextPiece::Number(LARGEST_RECORDING),
            TextPiece::Words(" bytes"),
            TextPiece::Nothing,
            TextPiece::Nothing,
        ),
    }
}

/// The reason for a station that an earlier piece has too.
fn twice_pieces(site: u16, application: u16) -> TextPieces<'static> {
    five_pieces(
        TextPiece::Words("an earlier piece has station "),
        TextPiece::Address(site, application),
        TextPiece::Words(" too: leave one of the two out"),
        TextPiece::Nothing,
        TextPiece::Nothing,
    )
}

/// The reason for a station whose log begins in a piece before its end in the earlier ones.
fn back_pieces(site: u16, application: u16) -> TextPieces<'static> {
    five_pieces(
        TextPiece::Words("the log of "),
        TextPiece::Address(site, application),
        TextPiece::Words(
            " begins there before its end in an earlier piece: give its parts in the order of time, each once",
        ),
        TextPiece::Nothing,
        TextPiece::Nothing,
    )
}

/// The reason for a part whose station opens otherwise than its log ends in the earlier pieces.
fn opening_pieces(site: u16, application: u16, entity: u16) -> TextPieces<'static> {
    five_pieces(
        TextPiece::Words("the log of "),
        TextPiece::Address(site, application),
        TextPiece::Words(" ends in the earlier pieces with another state of entity "),
        TextPiece::Number(u64::from(entity)),
        TextPiece::Words(" than it opens with there"),
    )
}

/// Name of the socket on which a call failed: as the command line has it, or one of the loopback.
fn socket_name<'a>(names: Named<'a>, known: Known) -> &'a str {
    match known.failed {
        Some(
            SystemFault {
                call: SystemCall::Bind(_),
                ..
            },
        ) => names.other,
        _ => "a socket of 127.0.0.1",
    }
}

/// The system's error on a socket, in words.
fn socket_words(known: Known) -> &'static str {
    match known.failed {
        Some(failed) => system_words(failed.kind),
        None => "failed",
    }
}

/// The reason for a socket that was not bound.
fn socket_pieces<'a>(names: Named<'a>, known: Known) -> TextPieces<'a> {
    five_pieces(
        TextPiece::Words("binding "),
        TextPiece::Words(socket_name(names, known)),
        TextPiece::Words(": "),
        TextPiece::Words(socket_words(known)),
        TextPiece::Nothing,
    )
}

/// The reason for an existing file under the name of the one to be made.
fn standing_pieces(names: Named<'_>) -> TextPieces<'_> {
    if names.may_force {
        return named(
            names.made,
            " is there already: give another name, or --force to replace it",
        );
    }
    named(names.made, " is there already: give another name")
}

/// The reason for a fault, a text that no contract specifies; it may depend on the system's errors.
fn other_pieces<'a>(fault: Fault<'a>, names: Named<'a>, known: Known) -> TextPieces<'a> {
    match fault {
        Fault::NotBytePairs | Fault::HexLine(_) => {
            words_alone("pairs of hex digits are expected, of at most 65536 bytes")
        }
        Fault::Input => words_alone("standard input could not be read to its end"),
        Fault::File(name, reason) => file_pieces(name, reason, known),
        Fault::Words => words_alone("a word of the command line is not UTF-8"),
        Fault::Recording(fault) => recording_pieces(fault, names, known),
        Fault::Already => named(names.first, " is of the second format already"),
        Fault::Piece(fault, name) => piece_pieces(fault, name),
        Fault::OtherExercise(name) => {
            two_named(name, " is of another exercise than ", names.first)
        }
        Fault::StationTwice(site, application, _) => twice_pieces(site, application),
        Fault::BackInTime(site, application, _) => back_pieces(site, application),
        Fault::OtherOpening(site, application, entity, _) => {
            opening_pieces(site, application, entity)
        }
        Fault::Joined(limit) => limit_pieces(limit),
        Fault::Certificate(fault) => certificate_pieces(fault, names, known),
        Fault::BadLine(..) | Fault::UnknownStation(..) => words_alone("the text is no script"),
        Fault::SourceLine(..) => words_alone("the text is no source of a plan"),
        Fault::PlanTooLong => words_alone("the plain script would have more than 1048576 bytes"),
        Fault::ScriptRead(_) => named(names.first, " could not be read to its end"),
        Fault::WorldStations => words_alone("a station opens with at most 4096 entities"),
        Fault::Move(..) => words_alone("the move cannot be made"),
        Fault::LineFailed => socket_pieces(names, known),
        Fault::StationWord(word) => named(
            word,
            ": a station is S:A, each from 1 to 65534; a socket is IP:PORT, as 10.0.0.1:3000",
        ),
        Fault::NotInSetup => two_named(names.first, " has no line station ", names.second),
        Fault::ImportAddress(word) => named(word, ": a station is S:A, each from 1 to 65534"),
        Fault::ImportHost(word) => named(
            word,
            ": a host is an address of IPv4 or IPv6, as 10.0.0.3, without a zone",
        ),
        Fault::NotInImport => two_named(names.first, " has no line station ", names.second),
        Fault::Import(fault) => import_pieces(fault, names, known),
        Fault::Filter(word) => filter_pieces(word, names.view),
        Fault::Step(_, steps) => step_pieces(steps),
        Fault::OverLimit => words_alone("a view has at most 4194304 lines"),
        Fault::ChartOverLimit => {
            words_alone("a picture has at most 2000 rows: choose some by from=STEP and to=STEP")
        }
        Fault::Output => output_pieces(names.made, known),
        Fault::SameAs(name) => named(name, " is read: give the new file another name"),
        Fault::Exists => standing_pieces(names),
        Fault::Memory => words_alone("there is not enough memory for it"),
    }
}

/// The reason for a fault that the input does not determine.
fn other_reason<'a>(
    fault: Fault<'a>,
    names: Named<'a>,
    known: Known,
    trouble: Option<ShortText>,
) -> Reason<'a> {
    match trouble {
        Some(trouble) if matches!(fault, Fault::LineFailed) => Reason::Short(trouble),
        _ => Reason::Text(other_pieces(fault, names, known)),
    }
}

/// The reason for a fault, if the input determines it.
fn read_reason<'a>(fault: Fault<'a>) -> Option<Reason<'a>>
    ensures some { IfSome result (λ reason. IsReason fault.entry (reason_words reason)) }
    ensures none { result ≡ None → (text : List ℕ) → IsReason fault.entry text }
{
    match fault {
        Fault::BadLine(_, Some(why))
        | Fault::UnknownStation(_, Some(why))
        | Fault::SourceLine(_, Some(why)) => Some(Reason::Short(why)),
        Fault::Move(_, refusal, Some(place)) => Some(Reason::Text(move_pieces(place, refusal))),
        Fault::Step(_, steps) => Some(Reason::Text(step_pieces(steps))),
        _ => None,
    }
}

/// The reason for a script that is a file of another kind, if it looks like such a file.
fn foreign_script<'a>(name: &'a str, kind: FileKind) -> Option<Reason<'a>>
    ensures { IfSome result (λ reason. IsForeign (reason_words reason)) }
{
    match kind {
        FileKind::Recording | FileKind::Certificate | FileKind::Capture => {
            let text = named_twice(name, " is no script: it looks like ", kind_words(kind));
            Some(Reason::Text(text))
        }
        FileKind::Script | FileKind::Empty | FileKind::Unknown => None,
    }
}

/// The reason for a refused script that looks like a file of another kind.
fn foreign_reason<'a>(fault: Fault<'a>, names: Named<'a>, known: Known) -> Option<Reason<'a>>
    ensures { IfSome result (λ reason. IsReason fault.entry (reason_words reason)) }
{
    match fault {
        Fault::BadLine(_, Some(_))
        | Fault::UnknownStation(_, Some(_))
        | Fault::SourceLine(_, Some(_)) => { foreign_script(names.first, known.first) }
        _ => None,
    }
}

/// The reason of a fault.
pub(crate) fn reason_of<'a>(
    fault: Fault<'a>,
    names: Named<'a>,
    known: Known,
    trouble: Option<ShortText>,
) -> Reason<'a>
    ensures { IsReason fault.entry (reason_words result) }
{
    if let Some(reason) = foreign_reason(fault, names, known) {
        return reason;
    }
    if let Some(reason) = read_reason(fault) {
        return reason;
    }
    other_reason(fault, names, known, trouble)
}
