//! The faults of commands, and the ending of a command.

ghost use Rattle.std.specs.Prelude.{◌≡◌, Some};
ghost use Rattle.std.specs.IoError.{error_kind};
ghost use Rattle.byte_files.specs.Writing.{Writes};
ghost use Rattle.siman_outside.specs.declared.fault.Fault.TheVariants.{Memory};
ghost use Rattle.siman_outside.specs.Ending.{reported_as, place_text, fault_text, fault_line, fault_status, IsFaultOf, of_recording, of_convert, of_import, of_mend, of_files, of_unread_script, of_certificate, Ends};

use crate::files_fault::FilesFault;
use crate::input::{InputFault, Unread};
use crate::join_limit::JoinLimit;
use crate::move_refusal::{MovePlace, MoveRefusal};
use crate::place::{Place, put_place};
use crate::short_texts::ShortText;
use crate::unopened::OpenFault;
use byte_files::{WriteFailed, put, put_both};
use exercise_check::CertificateFault;
use exercise_recording::{ConvertFault, ImportFault, MendFault, RecordingFault};
use std::alloc::{AllocError, AllocFailed};
use std::io::{ErrorKind, Write};
use std::{fmt, io};

/// Why a command gave no answer, or only a part of it.
#[derive(Clone, Copy)]
pub enum Fault<'a> {
    /// The hex text is more than 65,536 bytes, or is not pairs of hex digits.
    NotBytePairs,
    /// The line of this number, from 1, is more than 65,536 bytes, or is not pairs of hex digits.
    HexLine(usize),
    /// Standard input could not be read.
    Input,
    /// The file of this name could not be opened, for this reason.
    File(&'a str, OpenFault),
    /// A word of the command line is not UTF-8.
    Words,
    /// The recording could not be read. Lack of memory is `Memory`.
    Recording(RecordingFault),
    /// The recording to convert already has the second format.
    Already,
    /// The piece of this name could not be read. Lack of memory is `Memory`.
    Piece(RecordingFault, &'a str),
    /// The piece of this name is of another exercise than the first.
    OtherExercise(&'a str),
    /// The piece of this name has the station of this site and application, which an earlier piece
    /// has too.
    StationTwice(u16, u16, &'a str),
    /// The log of the station of this site and application begins in the piece of this name before
    /// its last stamp in the earlier pieces.
    BackInTime(u16, u16, &'a str),
    /// The station of this site and application opens in the piece of this name with another state
    /// of this entity than its log ends with in the earlier pieces.
    OtherOpening(u16, u16, u16, &'a str),
    /// The recording joined from the pieces passes a limit.
    Joined(JoinLimit),
    /// The certificate could not be read. Lack of memory is `Memory`.
    Certificate(CertificateFault),
    /// The line of this number, from 1, of the script has no form of a script's line; why, if it is
    /// known.
    BadLine(usize, Option<ShortText>),
    /// The line of this number, from 1, names a station that the script does not have; why, if it
    /// is known.
    UnknownStation(usize, Option<ShortText>),
    /// The script could not be read.
    ScriptRead(Unread),
    /// A station of the script opens with more entities than one may have.
    WorldStations,
    /// The move of this number, from 0, of the script is refused; its place, if it is known.
    Move(usize, MoveRefusal, Option<MovePlace>),
    /// The link of a station could not be opened, or a call of it failed.
    LineFailed,
    /// This word is no address of a station, or no endpoint of a socket.
    StationWord(&'a str),
    /// The script has no station at the address.
    NotInSetup,
    /// This word of `import` is no address of a station.
    ImportAddress(&'a str),
    /// This word of `import` is no address of a host.
    ImportHost(&'a str),
    /// The script of `import` has no station at the address.
    NotInImport,
    /// No recording is made of the capture. Lack of memory is `Memory`.
    Import(ImportFault),
    /// This word is no filter.
    Filter(&'a str),
    /// This word names a step past the last one; the number of steps.
    Step(&'a str, usize),
    /// The view would have more than 4,194,304 rows.
    OverLimit,
    /// The line of this number, from 1, of the source of a plan cannot be read, or names a datagram
    /// that there is not; why, if it is known.
    SourceLine(usize, Option<ShortText>),
    /// The plain script of a plan would have more than 1,048,576 bytes.
    PlanTooLong,
    /// The picture would have more than 2,000 rows, or the entities of a station more than
    /// 4,194,304 spans.
    ChartOverLimit,
    /// The answer could not be written whole.
    Output,
    /// The file to be made is the input file; the name of the input, as it was given.
    SameAs(&'a str),
    /// A file exists under the name of the one to be created.
    Exists,
    /// Memory ran out.
    Memory,
}

impl<'a> Fault<'a> {
    /// Subject, name and place of a fault. For a file that could not be opened, the reason takes
    /// the position of the place.
    fn told(self) -> (&'static str, &'a str, Option<Place<'a>>)
        ensures subject { result.0.now ≡ (reported_as self.entry).0 }
        ensures name { result.1.now ≡ (reported_as self.entry).1 }
        ensures place { result.2 ≡ (reported_as self.entry).2 }
    {
        match self {
            Fault::NotBytePairs => ("hex: ", "not byte pairs", None),
            Fault::HexLine(line) => ("hex: ", "not byte pairs", Some(Place::Line(line))),
            Fault::Input => ("file: ", "-", None),
            Fault::File(name, reason) => ("file: ", name, Some(Place::Unopened(reason))),
            Fault::Words => ("words: ", "not UTF-8", None),
            Fault::Recording(RecordingFault::Format(fault)) => (
                "recording: ",
                fault.name(),
                Some(Place::Offset(fault.place())),
            ),
            Fault::Recording(RecordingFault::Read) => ("recording: ", "read", None),
            Fault::Recording(RecordingFault::Memory) => ("recording: ", "memory", None),
            Fault::Already => ("recording: ", "already", None),
            Fault::Piece(RecordingFault::Format(fault), piece) => (
                "recording: ",
                fault.name(),
                Some(Place::PieceOffset(fault.place(), piece)),
            ),
            Fault::Piece(RecordingFault::Read, piece) => {
                ("recording: ", "read", Some(Place::Piece(piece)))
            }
            Fault::Piece(RecordingFault::Memory, piece) => {
                ("recording: ", "memory", Some(Place::Piece(piece)))
            }
            Fault::OtherExercise(piece) => ("join: ", "exercise", Some(Place::Piece(piece))),
            Fault::StationTwice(site, application, piece) => (
                "join: ",
                "station",
                Some(Place::PieceStation(site, application, piece)),
            ),
            Fault::BackInTime(site, application, piece) => (
                "join: ",
                "time",
                Some(Place::PieceStation(site, application, piece)),
            ),
            Fault::OtherOpening(site, application, entity, piece) => (
                "join: ",
                "opening",
                Some(Place::PieceEntity(site, application, entity, piece)),
            ),
            Fault::Joined(limit) => ("join: ", limit.name(), None),
            Fault::Certificate(CertificateFault::Format(fault)) => (
                "certificate: ",
                fault.name(),
                Some(Place::Offset(fault.place())),
            ),
            Fault::Certificate(CertificateFault::Read) => ("certificate: ", "read", None),
            Fault::Certificate(CertificateFault::Memory) => ("certificate: ", "memory", None),
            Fault::BadLine(line, _) => ("script: ", "bad-line", Some(Place::Line(line))),
            Fault::UnknownStation(line, _) => {
                ("script: ", "unknown-station", Some(Place::Line(line)))
            }
            Fault::ScriptRead(_) => ("script: ", "read", None),
            Fault::WorldStations => ("world: ", "stations", None),
            Fault::Move(number, refusal, _) => {
                ("world: ", refusal.name(), Some(Place::Move(number)))
            }
            Fault::LineFailed => ("live: ", "line", None),
            Fault::StationWord(word) => ("station: address ", word, None),
            Fault::NotInSetup => ("station: ", "not-in-setup", None),
            Fault::ImportAddress(word) => ("import: address ", word, None),
            Fault::ImportHost(word) => ("import: host ", word, None),
            Fault::NotInImport => ("import: ", "not-in-setup", None),
            Fault::Import(ImportFault::Capture(fault)) => (
                "capture: ",
                fault.name(),
                Some(Place::Offset(fault.place())),
            ),
            Fault::Import(ImportFault::LinkType(at)) => {
                ("capture: ", "link-type", Some(Place::Offset(at)))
            }
            Fault::Import(ImportFault::Cut(at)) => ("capture: ", "cut", Some(Place::Offset(at))),
            Fault::Import(ImportFault::Records) => ("import: ", "records", None),
            Fault::Import(ImportFault::Size) => ("import: ", "size", None),
            Fault::Import(ImportFault::Read) => ("capture: ", "read", None),
            Fault::Import(ImportFault::Memory) => ("capture: ", "memory", None),
            Fault::Filter(word) | Fault::Step(word, _) => ("filter: ", word, None),
            Fault::OverLimit => ("view: ", "over-limit", None),
            Fault::ChartOverLimit => ("chart: ", "over-limit", None),
            Fault::SourceLine(line, _) => ("plan: ", "bad-line", Some(Place::Line(line))),
            Fault::PlanTooLong => ("plan: ", "too-long", None),
            Fault::Output => ("output: ", "write", None),
            Fault::SameAs(name) => ("output: same as ", name, None),
            Fault::Exists => ("output: ", "exists", None),
            Fault::Memory => ("", "memory", None),
        }
    }

    /// The exit status of a fault: 3 for lack of memory, else 2.
    pub fn status(self) -> u8
        ensures { result ≡ fault_status self.entry }
    {
        match self {
            Fault::Memory => 3,
            _ => 2,
        }
    }
}

/// The line of a fault without its line end: `SUBJECT: NAME`, then the place or the reason, if it
/// has one.
impl fmt::Display for Fault<'_> {
    ghost output = { λ f. Some (fault_text f) };

    fn fmt<W: fmt::Write>(&self, f: &mut fmt::Formatter<W>) -> fmt::Result {
        let (subject, name, place) = self.told();
        match place {
            None => write!(f, "{subject}{name}"),
            Some(place) => write!(f, "{subject}{name}{place}"),
        }
    }
}

impl From<AllocError> for Fault<'_> {
    ghost from_gives = { λ _ fault. fault ≡ Memory };

    fn from(_e: AllocError) -> Self {
        Fault::Memory
    }
}

impl<T: Drop> From<AllocFailed<T>> for Fault<'_> {
    ghost from_gives = { λ _ fault. fault ≡ Memory };

    fn from(_e: AllocFailed<T>) -> Self {
        Fault::Memory
    }
}

/// For a script, which is read whole.
impl From<InputFault> for Fault<'_> {
    ghost from_gives = { λ fault e. e ≡ of_unread_script fault };

    fn from(fault: InputFault) -> Self {
        match fault {
            InputFault::Unread(failed) => Fault::ScriptRead(failed),
            InputFault::Memory => Fault::Memory,
        }
    }
}

impl From<RecordingFault> for Fault<'_> {
    ghost from_gives = { λ fault e. e ≡ of_recording fault };

    fn from(fault: RecordingFault) -> Self {
        match fault {
            RecordingFault::Memory => Fault::Memory,
            RecordingFault::Format(_) | RecordingFault::Read => Fault::Recording(fault),
        }
    }
}

impl From<CertificateFault> for Fault<'_> {
    ghost from_gives = { λ fault e. e ≡ of_certificate fault };

    fn from(fault: CertificateFault) -> Self {
        match fault {
            CertificateFault::Memory => Fault::Memory,
            CertificateFault::Format(_) | CertificateFault::Read => Fault::Certificate(fault),
        }
    }
}

impl From<ConvertFault> for Fault<'_> {
    ghost from_gives = { λ fault e. e ≡ of_convert fault };

    fn from(fault: ConvertFault) -> Self {
        match fault {
            ConvertFault::Recording(fault) => Fault::from(fault),
            ConvertFault::Already => Fault::Already,
            ConvertFault::Write => Fault::Output,
            ConvertFault::Memory => Fault::Memory,
        }
    }
}

impl From<MendFault> for Fault<'_> {
    ghost from_gives = { λ fault e. e ≡ of_mend fault };

    fn from(fault: MendFault) -> Self {
        match fault {
            MendFault::Recording(fault) => Fault::from(fault),
            MendFault::Write => Fault::Output,
            MendFault::Memory => Fault::Memory,
        }
    }
}

impl From<ImportFault> for Fault<'_> {
    ghost from_gives = { λ fault e. e ≡ of_import fault };

    fn from(fault: ImportFault) -> Self {
        match fault {
            ImportFault::Memory => Fault::Memory,
            _ => Fault::Import(fault),
        }
    }
}

impl From<FilesFault> for Fault<'_> {
    ghost from_gives = { λ fault e. e ≡ of_files fault };

    fn from(fault: FilesFault) -> Self {
        match fault {
            FilesFault::Recording(fault) => Fault::Recording(fault),
            FilesFault::Certificate(fault) => Fault::Certificate(fault),
            FilesFault::Write => Fault::Output,
            FilesFault::Memory => Fault::Memory,
        }
    }
}

/// The fault of an error: `Memory` for lack of memory, else `fault`.
pub fn of_error<'a>(error: &io::Error, fault: Fault<'a>) -> Fault<'a>
    ensures { IsFaultOf (error_kind error.now) fault.entry result }
{
    if error.kind() == ErrorKind::OutOfMemory {
        return Fault::Memory;
    }
    fault
}

/// Exit status of a command, and whether the line of its fault was written.
#[derive(Clone, Copy)]
pub struct Ended {
    /// The exit status.
    pub status: u8,
    /// Whether all that is written to the writer of faults was written; after a failed write a
    /// prefix of it was.
    pub written: Result<(), WriteFailed>,
}

/// Writes a place, if there is a place.
fn put_any_place<E: Write>(place: Option<Place<'_>>, errors: &mut E) -> Result<(), WriteFailed>
    ensures { Writes result (E.contents errors.old) (E.contents errors.new) (place_text place.entry) }
{
    match place {
        None => Ok(()),
        Some(place) => put_place(errors, place),
    }
}

/// Writes the line of a fault without its line end.
fn put_fault_text<E: Write>(fault: Fault<'_>, errors: &mut E) -> Result<(), WriteFailed>
    ensures { Writes result (E.contents errors.old) (E.contents errors.new) (fault_text fault.entry) }
{
    let (subject, name, place) = fault.told();
    put_both(errors, subject.as_bytes(), name.as_bytes())?;
    put_any_place(place, errors)
}

/// Writes the line of a fault.
pub fn tell<E: Write>(fault: Fault<'_>, errors: &mut E) -> Result<(), WriteFailed>
    ensures { Writes result (E.contents errors.old) (E.contents errors.new) (fault_line fault.entry) }
{
    put_fault_text(fault, errors)?;
    put(errors, b"\n")
}

/// Ends a command: writes the line of its fault, if it has one, and returns its exit status.
pub fn end<E: Write>(answered: Result<u8, Fault<'_>>, errors: &mut E) -> Ended
    ensures { Ends answered.entry result (E.contents errors.old) (E.contents errors.new) }
{
    match answered {
        Ok(status) => Ended {
            status,
            written: Ok(()),
        },
        Err(fault) => Ended {
            status: fault.status(),
            written: tell(fault, errors),
        },
    }
}
