//! Reasons why no recording is made of a capture.

use crate::file_kind::FileKind;
use crate::file_reason::kind_words;
use crate::known::Known;
use crate::limits::LARGEST_RECORDING;
use crate::named::Named;
use crate::named_text::{named, named_twice};
use byte_files::{TextPiece, TextPieces, five_pieces, words_alone};
use exercise_recording::ImportFault;
use packet_captures::FormatFault;

/// The reason for a file that does not begin as a capture.
fn no_capture<'a>(name: &'a str, kind: FileKind) -> TextPieces<'a> {
    match kind {
        FileKind::Capture => named(
            name,
            ": the byte order of one of its sections is none: it is not a whole pcapng",
        ),
        FileKind::Unknown => named(
            name,
            " is no capture: neither pcap nor pcapng begins so; one that gzip wrote is unpacked first",
        ),
        _ => named_twice(name, " is no capture: it looks like ", kind_words(kind)),
    }
}

/// The reason for a fault of the bytes of a capture.
fn format_pieces<'a>(name: &'a str, fault: FormatFault, kind: FileKind) -> TextPieces<'a> {
    match fault {
        FormatFault::Magic(_) => no_capture(name, kind),
        FormatFault::Version(_) => named(
            name,
            ": only pcap of version 2 and pcapng of version 1 are read",
        ),
        FormatFault::Block(_) => named(name, ": the lengths of a block of it do not agree"),
        FormatFault::Interface(_) => named(
            name,
            ": a packet of it is of an interface that it does not describe",
        ),
        FormatFault::Time(_) => named(
            name,
            ": a packet of it is from before 1970, or past all time",
        ),
        FormatFault::Truncated { head: true, .. } => named(name, " ends within its head"),
        FormatFault::Truncated { head: false, .. } => {
            named(name, " ends within a packet: cut=keep leaves that one out")
        }
    }
}

/// The reason for a capture of which no recording is made.
pub(crate) fn import_pieces<'a>(
    fault: ImportFault,
    names: Named<'a>,
    known: Known,
) -> TextPieces<'a> {
    let capture = names.other;
    match fault {
        ImportFault::Capture(fault) => format_pieces(capture, fault, known.second),
        ImportFault::LinkType(_) => named(
            capture,
            ": the link of a packet is none of those that are read: Ethernet, loopback, raw IP, Linux cooked",
        ),
        ImportFault::Cut(_) => named(
            capture,
            " has a packet that was cut: capture whole packets (tcpdump -s 0), or cut=keep leaves them out",
        ),
        ImportFault::Records => words_alone(
            "a recording has at most 1048576 entries: cut the capture into parts (editcap -c)",
        ),
        ImportFault::Size => five_pieces(
            TextPiece::Words("a recording has at most "),
            TextPiece::Number(LARGEST_RECORDING),
            TextPiece::Words(" bytes: cut the capture into parts (editcap -c)"),
            TextPiece::Nothing,
            TextPiece::Nothing,
        ),
        ImportFault::Read => named(capture, " could not be read to its end"),
        ImportFault::Memory => words_alone("there is not enough memory for it"),
    }
}
