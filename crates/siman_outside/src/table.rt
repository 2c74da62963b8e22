//! The table of commands, from which the reading of words, the usage and the help follow.

ghost use Rattle.std.specs.Prelude.{ℕ, List, ◌≡◌, map};
ghost use Rattle.siman_outside.specs.Words.{takes_of, takes_first, takes_further};

use crate::commands::{NoWord, OneWord, Takes, TwoWords, ViewWord};
use crate::rows::{CommandRow, CommandWord, Often};

/// The file of a recording.
const REC: CommandWord = CommandWord {
    name: "REC",
    often: Often::Once,
    about: "The file of the recording",
};

/// The file of a recording that is begun.
const NEW_REC: CommandWord = CommandWord {
    name: "REC",
    often: Often::Once,
    about: "The file of the recording, which must not be there yet",
};

/// The file of a certificate.
const CERT: CommandWord = CommandWord {
    name: "CERT",
    often: Often::Once,
    about: "The file of the certificate",
};

/// The file of a script.
const SCRIPT: CommandWord = CommandWord {
    name: "SCRIPT",
    often: Often::Once,
    about: "The file of the script",
};

/// The first rows of the table of the commands, in the order of the help. All rows in one constant
/// are too much for one proof.
const ROWS: [CommandRow; 9] = [
    CommandRow {
        name: "pdu",
        takes: Takes::One(OneWord::Pdu),
        usage: "siman pdu <HEX>",
        about: "Shows the PDU of a datagram",
        example: "Example:\n  siman pdu 07010B0500000000001C000000010001000000020003000700000001",
        words: &[CommandWord {
            name: "HEX",
            often: Often::Once,
            about: "The bytes of the datagram, as pairs of hex digits",
        }],
    },
    CommandRow {
        name: "pdus",
        takes: Takes::Nothing(NoWord::Pdus),
        usage: "siman pdus",
        about: "Shows the PDUs of many datagrams, whose hex texts are read from standard input, one a line",
        example: "Example:\n  siman pdus < datagrams.hex",
        words: &[],
    },
    CommandRow {
        name: "show",
        takes: Takes::One(OneWord::Show),
        usage: "siman show <REC> [--torn]",
        about: "Shows a recording, a line for each entry",
        example: "Example:\n  siman show exercise.dsrc",
        words: &[REC],
    },
    CommandRow {
        name: "check",
        takes: Takes::Two(TwoWords::Check),
        usage: "siman check <REC> <CERT> [--torn]",
        about: "Checks whether a certificate explains a recording, and reports what it says",
        example: "Example:\n  siman check exercise.dsrc exercise.dsct",
        words: &[REC, CERT],
    },
    CommandRow {
        name: "audit",
        takes: Takes::Two(TwoWords::Audit),
        usage: "siman audit <REC> <CERT> [--torn] [--force]",
        about: "Searches a recording for a sequence that explains it, and writes its certificate",
        example: "Example:\n  siman audit exercise.dsrc exercise.dsct",
        words: &[
            REC,
            CommandWord {
                name: "CERT",
                often: Often::Once,
                about: "The file of the certificate; it must not be there yet, or be empty",
            },
        ],
    },
    CommandRow {
        name: "world",
        takes: Takes::Two(TwoWords::World),
        usage: "siman world <SCRIPT> <REC> [--force]",
        about: "Runs the exercise that a script describes, and writes its recording",
        example: "Example:\n  siman world exercise.script exercise.dsrc",
        words: &[
            SCRIPT,
            CommandWord {
                name: "REC",
                often: Often::Once,
                about: "The file of the recording; it must not be there yet, or be empty",
            },
        ],
    },
    CommandRow {
        name: "plan",
        takes: Takes::Source,
        usage: "siman plan <SOURCE> [SCRIPT] [--json] [--force]",
        about: "Says what each line of a script does, and writes the plain script of one with labels and comments",
        example: "Example:\n  siman plan convoy.plan convoy.script",
        words: &[
            CommandWord {
                name: "SOURCE",
                often: Often::Once,
                about: "The file of the source: a script, or one with labels, comments and short words",
            },
            CommandWord {
                name: "SCRIPT",
                often: Often::AtMostOnce,
                about: "The file of the plain script; it must not be there yet, or be empty",
            },
        ],
    },
    CommandRow {
        name: "live",
        takes: Takes::Two(TwoWords::Live),
        usage: "siman live <SCRIPT> <REC>",
        about: "Makes the moves of a script over UDP sockets of the loopback, one a station, and writes their recording",
        example: "Example:\n  siman live exercise.script exercise.dsrc",
        words: &[SCRIPT, NEW_REC],
    },
    CommandRow {
        name: "station",
        takes: Takes::Station,
        usage: "siman station <SETUP> <ADDRESS> <REC> <BIND> <PEER>... [from=any] [keep=all] [clock=system]",
        about: "Plays a station of a script over UDP, by the lines of standard input, and writes what it sends, receives and tells",
        example: "Example:\n  siman station exercise.script 1:1 manager.dsrc 10.0.0.1:3000 10.0.0.2:3000 < orders",
        words: &[
            CommandWord {
                name: "SETUP",
                often: Often::Once,
                about: "The file of the script that sets the station up; its moves are passed over",
            },
            CommandWord {
                name: "ADDRESS",
                often: Often::Once,
                about: "The address of the station, S:A",
            },
            NEW_REC,
            CommandWord {
                name: "BIND",
                often: Often::Once,
                about: "Where its socket is, IP:PORT; 0.0.0.0:PORT hears broadcasts",
            },
            CommandWord {
                name: "PEER",
                often: Often::OnceOrMore,
                about: "Where a peer is, or those of a network, IP:PORT. Behind the last one may stand from=any: then others are heard, too; keep=all: then PDUs of every protocol family are kept; and clock=system: then the clock is the system's, and orders are repeated by themselves",
            },
        ],
    },
];

/// The rows behind them, in the order of the help.
const FURTHER_ROWS: [CommandRow; 10] = [
    CommandRow {
        name: "convert",
        takes: Takes::Two(TwoWords::Convert),
        usage: "siman convert <OLD> <NEW> [--force]",
        about: "Carries a recording of the first format over to the second, closed",
        example: "Example:\n  siman convert old.dsrc new.dsrc",
        words: &[
            CommandWord {
                name: "OLD",
                often: Often::Once,
                about: "The file of the recording, of the first format",
            },
            CommandWord {
                name: "NEW",
                often: Often::Once,
                about: "The file of the same recording in the second format; it must not be there yet, or be empty",
            },
        ],
    },
    CommandRow {
        name: "mend",
        takes: Takes::Two(TwoWords::Mend),
        usage: "siman mend <OLD> <NEW> [--force]",
        about: "Keeps the entries of a torn recording that stand whole, and writes them with an end",
        example: "Example:\n  siman mend torn.dsrc mended.dsrc",
        words: &[
            CommandWord {
                name: "OLD",
                often: Often::Once,
                about: "The file of the recording, whose end may be torn",
            },
            CommandWord {
                name: "NEW",
                often: Often::Once,
                about: "The file for its whole entries; it must not be there yet, or be empty",
            },
        ],
    },
    CommandRow {
        name: "join",
        takes: Takes::Pieces,
        usage: "siman join <PIECE>... <NEW> [form=open|form=closed] [parts=yes] [--force]",
        about: "Joins the recordings of one exercise that several recorders made",
        example: "Example:\n  siman join manager.dsrc simulator.dsrc exercise.dsrc",
        words: &[
            CommandWord {
                name: "PIECE",
                often: Often::OnceOrMore,
                about: "The file of a recording, of stations that no other piece has",
            },
            CommandWord {
                name: "NEW",
                often: Often::Once,
                about: "The file of the joined recording; it must not be there yet, or be empty. Behind it form=open or form=closed may stand: the form that it is to have. Of one piece a recording is made in such a form alone. With parts=yes, too, pieces may be parts of one log, in the order of time",
            },
        ],
    },
    CommandRow {
        name: "import",
        takes: Takes::Capture,
        usage: "siman import <SETUP> <ADDRESS> <HOST> <CAPTURE> <NEW> [WORD]... [--force]",
        about: "Makes the recording of a station of a capture that tcpdump or Wireshark took on its host",
        example: "Example:\n  siman import exercise.script 2:3 10.0.0.3 host3.pcap 2_3.dsrc",
        words: &[
            CommandWord {
                name: "SETUP",
                often: Often::Once,
                about: "The file of the script that says what the station opens with; its moves are passed over",
            },
            CommandWord {
                name: "ADDRESS",
                often: Often::Once,
                about: "The address of the station, S:A",
            },
            CommandWord {
                name: "HOST",
                often: Often::Once,
                about: "The address of its host, of IPv4 or IPv6",
            },
            CommandWord {
                name: "CAPTURE",
                often: Often::Once,
                about: "The file of the capture, pcap or pcapng, which was taken on that host",
            },
            CommandWord {
                name: "NEW",
                often: Often::Once,
                about: "The file of the recording; it must not be there yet, or be empty",
            },
            CommandWord {
                name: "WORD",
                often: Often::AnyTimes,
                about: "How the capture is read: port=N (else 3000), on=INTERFACE, cut=keep, shared, echo, opening=none, opening=assumed; each key once",
            },
        ],
    },
    CommandRow {
        name: "export",
        takes: Takes::Two(TwoWords::Export),
        usage: "siman export <REC> <NEW> [--torn] [--force]",
        about: "Writes the datagrams of a recording as a capture, which Wireshark and tshark show as DIS",
        example: "Example:\n  siman export exercise.dsrc exercise.pcapng",
        words: &[
            REC,
            CommandWord {
                name: "NEW",
                often: Often::Once,
                about: "The file of the capture, in pcapng; it must not be there yet, or be empty",
            },
        ],
    },
    CommandRow {
        name: "review",
        takes: Takes::View(ViewWord::Review),
        usage: "siman review <REC> [FILTER]... [--json|--prose] [--torn]",
        about: "Prints what became of each order of a recording, and how each entity lived",
        example: "Example:\n  siman review exercise.dsrc fate=lost",
        words: &[
            REC,
            CommandWord {
                name: "FILTER",
                often: Often::AnyTimes,
                about: "Which rows are printed: station=S:A, entity=S:A:E, request=S:A/N or fate=WORD; words of one key add to each other",
            },
        ],
    },
    CommandRow {
        name: "log",
        takes: Takes::View(ViewWord::Log),
        usage: "siman log <REC> [FILTER]... [--json] [--torn]",
        about: "Prints each entry of a recording in names, with every datum and what goes with it",
        example: "Example:\n  siman log exercise.dsrc request=1:1/104 station=2:4",
        words: &[
            REC,
            CommandWord {
                name: "FILTER",
                often: Often::AnyTimes,
                about: "Which entries are printed: station=S:A, entity=S:A:E, request=S:A/N or kind=NAME; words of one key add to each other",
            },
        ],
    },
    CommandRow {
        name: "count",
        takes: Takes::View(ViewWord::Count),
        usage: "siman count <REC> [FILTER]... [--json] [--torn]",
        about: "Prints how many entries each station of a recording sent, received and told, by kind",
        example: "Example:\n  siman count exercise.dsrc station=2:4",
        words: &[
            REC,
            CommandWord {
                name: "FILTER",
                often: Often::AnyTimes,
                about: "Which entries are counted: station=S:A, entity=S:A:E, request=S:A/N or kind=NAME; words of one key add to each other",
            },
        ],
    },
    CommandRow {
        name: "why",
        takes: Takes::PerhapsTwo,
        usage: "siman why <REC> [CERT] [--json] [--torn]",
        about: "Prints what contradicts what: in a certificate that is not good, or in a recording that no sequence explains",
        example: "Example:\n  siman why exercise.dsrc",
        words: &[
            REC,
            CommandWord {
                name: "CERT",
                often: Often::AtMostOnce,
                about: "The file of the certificate; without it the recording is asked alone",
            },
        ],
    },
    CommandRow {
        name: "chart",
        takes: Takes::Picture,
        usage: "siman chart <REC> <CERT> <SVG> [CHOICE]... [--torn] [--force]",
        about: "Draws an exercise in the sequence of its certificate, or up to where it is contradicted, and writes the picture",
        example: "Example:\n  siman chart exercise.dsrc exercise.dsct exercise.svg",
        words: &[
            REC,
            CommandWord {
                name: "CERT",
                often: Often::Once,
                about: "The file of the certificate; - draws the sequence that audit finds, or what comes before its blocked list",
            },
            CommandWord {
                name: "SVG",
                often: Often::Once,
                about: "The file of the picture, in SVG; it must not be there yet, or be empty",
            },
            CommandWord {
                name: "CHOICE",
                often: Often::AnyTimes,
                about: "What is shown: from=STEP the first step, to=STEP the last, counted from 0; clock=us, clock=ms or clock=s the time of day, of stamps in that unit; each may stand once; entity=S:A:E bars of this entity, station=S:A the column of this station, and of no other than those named",
            },
        ],
    },
];

/// The first rows of the table of commands, with the contract that callers use.
#[tactic(auto, unfolding(crate::specs::Words::takes_first))]
pub(crate) fn rows() -> &'static [CommandRow]
    ensures { (name : List ℕ) → takes_of (map (λ row. (row.name.now, row.takes)) result.now) name ≡ takes_first name }
{
    &ROWS
}

/// The rows behind them, with the contract that callers use.
#[tactic(auto, unfolding(crate::specs::Words::takes_further))]
pub(crate) fn further_rows() -> &'static [CommandRow]
    ensures { (name : List ℕ) → takes_of (map (λ row. (row.name.now, row.takes)) result.now) name ≡ takes_further name }
{
    &FURTHER_ROWS
}
