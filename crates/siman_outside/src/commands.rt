//! The commands, and the tasks that words ask for.

ghost use Rattle.std.specs.Prelude.{◌≡◌};
ghost use Rattle.siman_outside.specs.Options.{makes_file, takes_json, takes_prose, takes_force, shows_recording, tells_of_recording, takes_torn};

use crate::import_words::ImportChoices;
use siman_print::Spelling;

/// A command that takes no words.
#[derive(Clone, Copy)]
pub enum NoWord {
    /// Shows the datagrams in hex text on standard input, one a line.
    Pdus,
}

/// A command that takes one word.
#[derive(Clone, Copy)]
pub enum OneWord {
    /// Shows the datagram of this hex text.
    Pdu,
    /// Shows the recording in this file.
    Show,
}

/// A command that takes two words.
#[derive(Clone, Copy)]
pub enum TwoWords {
    /// Judges the recording in the first file by the certificate in the second.
    Check,
    /// Searches the recording in the first file for a sequence that explains it, and writes its
    /// certificate to the second.
    Audit,
    /// Runs the script in the first file, and writes its recording to the second.
    World,
    /// Makes the moves of the script in the first file over sockets, and writes their recording to
    /// the second.
    Live,
    /// Converts the recording in the first file to the second format, and writes it to the second
    /// file.
    Convert,
    /// Writes the whole entries of the torn recording in the first file to the second.
    Mend,
    /// Writes the capture of the recording in the first file to the second.
    Export,
}

/// A view of a recording: a command that takes its file, and words that choose among its rows.
#[derive(Clone, Copy)]
pub enum ViewWord {
    /// The fate of each order, and the life of each entity.
    Review,
    /// Each entry, with every datum and the entries that it belongs to.
    Log,
    /// How many entries each station sent, received and told, by kind.
    Count,
}

/// How a recording is read.
#[derive(Clone, Copy)]
pub enum Reading {
    /// Whole: bytes that are no whole recording are refused.
    Whole,
    /// As `mend` keeps it: what stands whole of one that is torn.
    Torn,
}

/// The form that words ask for, for a joined recording.
#[derive(Clone, Copy)]
pub enum JoinForm {
    /// Stations may have taken part that nobody recorded.
    Open,
    /// Every station that took part is recorded.
    Closed,
}

/// How pieces are joined, as the words behind them say.
#[derive(Clone, Copy)]
pub struct JoinChoices {
    /// The form of the joined recording, if a word gives one.
    pub form: Option<JoinForm>,
    /// Whether pieces may be parts of one log.
    pub parts: bool,
}

/// Whom a station hears, and what, as the words behind its peers say.
#[derive(Clone, Copy)]
pub struct Listening {
    /// Whether it hears strangers too, and not its peers alone.
    pub anyone: bool,
    /// Whether it keeps datagrams of every protocol family, and not of Simulation Management alone.
    pub all: bool,
}

/// What the words behind the peers of a station say.
#[derive(Clone, Copy)]
pub struct StationChoices {
    /// Whom it hears, and what.
    pub listening: Listening,
    /// Whether the clock is the system's; otherwise lines set it.
    pub by_system: bool,
}

/// The words of `station`.
#[derive(Drop)]
pub struct StationWords<'a, S> {
    /// The file of the script that configures the station.
    pub setup: &'a str,
    /// Its address in the exercise.
    pub address: &'a str,
    /// The file of the recording that it writes.
    pub recording: &'a str,
    /// The address and port of its socket.
    pub bind: &'a str,
    /// The addresses and ports of its peers, at least one.
    pub peers: &'a [S],
    /// Whom it hears, and what.
    pub listening: Listening,
    /// Whether the clock is the system's (`clock=system`); otherwise lines set it.
    pub by_system: bool,
}

/// The words of `import`.
#[derive(Clone, Copy)]
pub struct ImportWords<'a> {
    /// The file of the script that sets the station up.
    pub setup: &'a str,
    /// The address of the station in the exercise.
    pub address: &'a str,
    /// The address of its host.
    pub host: &'a str,
    /// The file of the capture.
    pub capture: &'a str,
    /// The file of the recording that is made.
    pub recording: &'a str,
    /// What the words behind it say.
    pub choices: ImportChoices<'a>,
}

/// The task that the words of a command line ask for.
#[derive(Drop)]
pub enum Task<'a, S> {
    /// No words: run the script on standard input, search the recording of its world for a
    /// sequence, and judge it.
    Trial,
    /// A command alone.
    Bare(NoWord),
    /// A command, its word, and how it is read where it is a recording.
    One(OneWord, &'a str, Reading),
    /// A command, its two words, whether an existing file with the second name is replaced, for a
    /// command that makes one, and how the first is read where it is a recording.
    Two(TwoWords, &'a str, &'a str, bool, Reading),
    /// Joins the pieces of an exercise: their files, the file to make, how they are joined, and
    /// whether an existing file is replaced.
    Join(&'a [S], &'a str, JoinChoices, bool),
    /// Makes the recording of a station of a capture of its host, and whether an existing file is
    /// replaced.
    Import(ImportWords<'a>, bool),
    /// Runs a station of a script over the network, by the lines of standard input.
    Station(StationWords<'a, S>),
    /// A view: the file of the recording, the words that choose among the rows, their spelling, and
    /// how the recording is read.
    View(ViewWord, &'a str, &'a [S], Spelling, Reading),
    /// The sentences of a review: the file of the recording, the words that choose among the rows,
    /// and how the recording is read.
    Prose(&'a str, &'a [S], Reading),
    /// What contradicts what: the file of the recording, that of a certificate, if the words name
    /// one, the spelling of the rows, and how the recording is read.
    Why(&'a str, Option<&'a str>, Spelling, Reading),
    /// Says what each line of a source does: its file, that of the plain script to make, if the words
    /// name one, the spelling of the rows, and whether an existing file is replaced.
    Plan(&'a str, Option<&'a str>, Spelling, bool),
    /// Draws the picture of an exercise: the file of the recording, that of its certificate, the
    /// file to make, the words that choose the shown steps, whether an existing file is replaced,
    /// and how the recording is read.
    Chart(&'a str, &'a str, &'a str, &'a [S], bool, Reading),
}

/// The words that a command takes, and so the kind of the command.
#[derive(Clone, Copy)]
pub enum Takes {
    Nothing(NoWord),
    One(OneWord),
    Two(TwoWords),
    /// Files of pieces, the file to make, and perhaps a form.
    Pieces,
    /// A script, an address, a host, a capture, the file to make, and words that say how the capture
    /// is read.
    Capture,
    /// A script, an address, a recording, a socket's address, at least one peer, and perhaps
    /// `from=any`, `keep=all` and `clock=system`.
    Station,
    /// The file of a recording, and words that choose among the rows.
    View(ViewWord),
    /// The file of a recording, and perhaps that of a certificate.
    PerhapsTwo,
    /// The file of a source, and perhaps the file to make.
    Source,
    /// The file of a recording, that of a certificate, the file to make, and words that choose the
    /// shown steps.
    Picture,
}

impl OneWord {
    /// Whether the word of the command is a recording.
    fn shows_recording(self) -> bool
        ensures { result ≡ shows_recording self }
    {
        matches!(self, OneWord::Show)
    }
}

impl TwoWords {
    /// Whether the command says something of the recording in its first word.
    fn tells_of_recording(self) -> bool
        ensures { result ≡ tells_of_recording self }
    {
        match self {
            TwoWords::Check | TwoWords::Audit | TwoWords::Export => true,
            TwoWords::World | TwoWords::Live | TwoWords::Convert | TwoWords::Mend => false,
        }
    }

    /// Whether the command makes the file of its second word and can replace an existing one.
    fn makes_file(self) -> bool
        ensures { result ≡ makes_file self }
    {
        match self {
            TwoWords::Check | TwoWords::Live => false,
            TwoWords::Audit
            | TwoWords::World
            | TwoWords::Convert
            | TwoWords::Mend
            | TwoWords::Export => true,
        }
    }
}

impl Takes {
    /// Whether the command takes `--json`.
    pub(crate) fn json(self) -> bool
        ensures { result ≡ takes_json self }
    {
        matches!(self, Takes::View(_) | Takes::PerhapsTwo | Takes::Source)
    }

    /// Whether the command takes `--prose`.
    pub(crate) fn prose(self) -> bool
        ensures { result ≡ takes_prose self }
    {
        matches!(self, Takes::View(ViewWord::Review))
    }

    /// Whether the command takes `--torn`.
    pub(crate) fn torn(self) -> bool
        ensures { result ≡ takes_torn self }
    {
        match self {
            Takes::One(command) => command.shows_recording(),
            Takes::Two(command) => command.tells_of_recording(),
            Takes::View(_) | Takes::PerhapsTwo | Takes::Picture => true,
            _ => false,
        }
    }

    /// Whether the command takes `--force`.
    pub(crate) fn force(self) -> bool
        ensures { result ≡ takes_force self }
    {
        match self {
            Takes::Two(command) => command.makes_file(),
            Takes::Pieces | Takes::Capture | Takes::Picture | Takes::Source => true,
            _ => false,
        }
    }
}
