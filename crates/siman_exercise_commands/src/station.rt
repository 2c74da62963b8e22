//! The command `station`: plays one station of a script over the network, by the lines of standard
//! input.

ghost use Rattle.std.specs.Prelude.{◌≡◌, ◌+◌, length, None, Ok, map};
ghost use Rattle.siman_outside.specs.Outside.{outcome_of, Did, DidMake, save_result, stream};
ghost use Rattle.siman_scripts.specs.Script.{script_at};
ghost use Rattle.siman_operator.specs.declared.reading.TheConstants.{LONGEST_LINE};
ghost use Rattle.siman_operator.specs.Clocks.{unit_by};
ghost use Rattle.siman_operator.specs.Recorded.{IsReady};
ghost use Rattle.siman_operator.specs.ShortForm.{is_short_form};
ghost use Rattle.siman_outside.specs.Words.{named_by};
ghost use Rattle.siman_exercise_commands.specs.Explained.{TextRead, text_read, GivesReason};
ghost use Rattle.siman_exercise_commands.specs.Station.{of_set_up, Streams, FindsAddress, FindsEndpoint, FindsEndpoints, Places, SetsUpText, SetsUpFile, IsOfScript, closed_by, CreatesPlayed, of_print, GreetsAndCreates, IsAttached, HasLine, PlaysSetUp, PlaysFile, EndsPlayed, EndsStation};

use crate::explained::refused;
use crate::links::Links;
use crate::live::creation_fault;
use dis_records::Address;
use siman_lines::{Input, Line};
use siman_operator::{
    LONGEST_LINE, PrintFault, ReadyStation, SessionRecording, SessionReport, SetUp, SetUpFault,
    WaitUnit, attach_station, greet, is_short_form, record_session, set_up,
};
use siman_outside::{
    Ended, Ending, Endpoint, Fault, Listening, StationWords, conclude, end, endpoint_of, of_error,
    open_fault, read_text,
};
use siman_scripts::{LARGEST_SCRIPT, Script, address_of, read_script};
use std::alloc::Global;
use std::io;
use std::io::{Read, Write};

/// Address of a station, endpoint of its socket, endpoints of its peers, name of its recording, and
/// a buffer for a line of text.
#[derive(Drop)]
struct Placed<'a> {
    address: Address,
    bind: Endpoint,
    peers: Vec<Endpoint>,
    /// Whom it hears, and what.
    listening: Listening,
    /// Whether its clock is the system's.
    by_system: bool,
    name: &'a str,
    room: Vec<u8>,
}

/// Address that a word spells.
fn station_address(word: &str) -> Result<Address, Fault<'_>>
    ensures { FindsAddress word.now result }
{
    match address_of(word.as_bytes()) {
        Some(address) => Ok(address),
        None => Err(Fault::StationWord(word)),
    }
}

/// Endpoint that a word spells.
fn endpoint(word: &str) -> Result<Endpoint, Fault<'_>>
    ensures { FindsEndpoint word.now result }
{
    match endpoint_of(word.as_bytes()) {
        Some(endpoint) => Ok(endpoint),
        None => Err(Fault::StationWord(word)),
    }
}

/// Endpoints that words spell.
fn endpoints<'a>(alloc: Global, words: &'a [&'a str]) -> Result<Vec<Endpoint>, Fault<'a>>
    ensures { FindsEndpoints (map (λ word. word.now) words.now) result }
{
    let mut endpoints = Vec::new(alloc);
    let mut others = words;
    while let [word, rest @ ..] = others {
        match endpoint(word) {
            Ok(endpoint) => endpoints.push(endpoint)?,
            Err(fault) => return Err(fault),
        }
        others = rest;
    }
    Ok(endpoints)
}

/// Address, endpoints, recording and line buffer of a station, from its words.
fn place<'a>(alloc: Global, words: &StationWords<'a, &'a str>) -> Result<Placed<'a>, Fault<'a>>
    ensures { Places (named_by (λ word. word.now) words.now) result }
{
    let address = station_address(words.address)?;
    let bind = endpoint(words.bind)?;
    let peers = endpoints(alloc, words.peers)?;
    let room = vec![in alloc; 0u8; LONGEST_LINE + 1]?;
    Ok(Placed {
        address,
        bind,
        peers,
        listening: words.listening,
        by_system: words.by_system,
        name: words.recording,
        room,
    })
}

/// Fault of a station that was not set up.
fn of_set_up(fault: SetUpFault) -> Fault<'static>
    ensures { result ≡ of_set_up fault }
{
    match fault {
        SetUpFault::NotInSetup => Fault::NotInSetup,
        SetUpFault::Stations => Fault::WorldStations,
        SetUpFault::Memory => Fault::Memory,
    }
}

/// Sets up the station of a script with this address, whose wait counts `unit`.
fn set_up_script(
    alloc: Global,
    script: Script,
    address: Address,
    unit: WaitUnit,
) -> Result<SetUp, Fault<'static>>
    ensures sets_up { SetsUpText (Ok script) address unit result }
    ensures why { (t : TextRead) → GivesReason t result }
{
    match set_up(alloc, script, address, unit) {
        Ok(set_up) => Ok(set_up),
        Err(fault) => Err(of_set_up(fault)),
    }
}

/// Sets up the station with this address of the script that a text spells; its clock is the
/// system's, if `by_system`.
fn set_up_text(
    alloc: Global,
    text: &[u8],
    address: Address,
    by_system: bool,
) -> Result<SetUp, Fault<'static>>
    ensures sets_up { SetsUpText (script_at text.now) address (unit_by by_system (is_short_form address text.now)) result }
    ensures why { GivesReason (text_read text.now) result }
{
    match read_script(alloc, text) {
        Ok(script) => {
            let unit = WaitUnit::of(by_system, is_short_form(text, address));
            set_up_script(alloc, script, address, unit)
        }
        Err(fault) => Err(refused(alloc, text, fault)),
    }
}

/// Sets up the station with this address of the script of a reader.
fn set_up_file<R: Read + Drop>(
    alloc: Global,
    script: R,
    address: Address,
    by_system: bool,
) -> Result<SetUp, Fault<'static>>
    ensures { SetsUpFile (R.remaining script) address by_system result }
{
    let mut script = script;
    let text = read_text(alloc, &mut script, LARGEST_SCRIPT)?;
    set_up_text(alloc, &text, address, by_system)
}

/// A file that was not settled on the disk, as a failed write.
fn closed_by(closed: &io::Result<()>) -> Result<(), PrintFault>
    ensures { result ≡ closed_by (save_result closed.now) }
{
    match closed {
        Ok(()) => Ok(()),
        Err(_) => Err(PrintFault::Write),
    }
}

/// Creates the file of a recording, and plays a station at its link by the lines of a reader,
/// recorded in that file.
fn create_played<O: Links, R: Input<O::Line>, W: Write, E: Write>(
    alloc: Global,
    ready: ReadyStation<O::Line>,
    placed: Placed<'_>,
    outside: &mut O,
    input: &mut R,
    out: &mut W,
    errors: &mut E,
) -> Result<SessionReport, Fault<'static>>
    requires room { length placed.room.items ≡ LONGEST_LINE + 1 }
    requires ready { IsReady ready }
    ensures { let s : Streams = record { out = record { old = W.contents out.old; new = W.contents out.new }; errors = record { old = E.contents errors.old; new = E.contents errors.new } } in
        DidMake O.deeds outside.old outside.new (λ deeds. CreatesPlayed O.Line.passed ready placed.entry.name.now (R.remaining input.old) deeds result s) }
{
    let mut placed = placed;
    match outside.create(placed.name) {
        Ok(file) => {
            let room = &mut placed.room;
            let recorded = record_session(alloc, ready, file, input, room, out, errors);
            let SessionRecording { told, file } = recorded;
            let closed = closed_by(&outside.close(file));
            Ok(told.and_closed(errors, closed))
        }
        Err(error) => {
            drop(ready);
            Err(creation_fault(&error))
        }
    }
}

/// Fault of a session that could not be greeted.
fn of_print(fault: PrintFault) -> Fault<'static>
    ensures { result ≡ of_print fault }
{
    match fault {
        PrintFault::Write => Fault::Output,
        PrintFault::Memory => Fault::Memory,
    }
}

/// Prints the first notes of a session, and then creates its file and plays it.
fn greet_and_create<O: Links, R: Input<O::Line>, W: Write, E: Write>(
    alloc: Global,
    ready: ReadyStation<O::Line>,
    placed: Placed<'_>,
    outside: &mut O,
    input: &mut R,
    out: &mut W,
    errors: &mut E,
) -> Result<SessionReport, Fault<'static>>
    requires room { length placed.room.items ≡ LONGEST_LINE + 1 }
    requires ready { IsReady ready }
    ensures { let s : Streams = record { out = record { old = W.contents out.old; new = W.contents out.new }; errors = record { old = E.contents errors.old; new = E.contents errors.new } } in
        DidMake O.deeds outside.old outside.new (λ deeds. GreetsAndCreates O.Line.passed ready placed.entry.name.now (R.remaining input.old) deeds result s) }
{
    match greet(alloc, &ready, out) {
        Ok(()) => create_played(alloc, ready, placed, outside, input, out, errors),
        Err(fault) => {
            drop(ready);
            drop(placed);
            Err(of_print(fault))
        }
    }
}

/// Requests the link of a configured station, attaches the station, and plays it there.
fn open_and_play<O: Links, R: Input<O::Line>, W: Write, E: Write>(
    alloc: Global,
    set_up: SetUp,
    placed: Placed<'_>,
    outside: &mut O,
    input: &mut R,
    out: &mut W,
    errors: &mut E,
) -> Result<SessionReport, Fault<'static>>
    requires room { length placed.room.items ≡ LONGEST_LINE + 1 }
    requires set_up { IsOfScript set_up }
    ensures { let s : Streams = record { out = record { old = W.contents out.old; new = W.contents out.new }; errors = record { old = E.contents errors.old; new = E.contents errors.new } } in
        DidMake O.deeds outside.old outside.new (λ deeds. HasLine O.Line.passed set_up placed.entry placed.entry.name.now (R.remaining input.old) deeds result s) }
{
    let line = match outside.line_at(alloc, placed.bind, &placed.peers, placed.listening) {
        Ok(line) => line,
        Err(error) => {
            drop(set_up);
            drop(placed);
            return Err(of_error(&error, Fault::LineFailed));
        }
    };
    match attach_station(alloc, set_up, placed.address, line, placed.by_system) {
        Ok(ready) => greet_and_create(alloc, ready, placed, outside, input, out, errors),
        Err(_) => {
            drop(placed);
            Err(Fault::Memory)
        }
    }
}

/// Plays a configured station, with a new recording file. Refuses if a file of this name exists.
fn play_set_up<O: Links, R: Input<O::Line>, W: Write, E: Write>(
    alloc: Global,
    set_up: SetUp,
    placed: Placed<'_>,
    outside: &mut O,
    input: &mut R,
    out: &mut W,
    errors: &mut E,
) -> Result<SessionReport, Fault<'static>>
    requires room { length placed.room.items ≡ LONGEST_LINE + 1 }
    requires set_up { IsOfScript set_up }
    ensures { let s : Streams = record { out = record { old = W.contents out.old; new = W.contents out.new }; errors = record { old = E.contents errors.old; new = E.contents errors.new } } in
        DidMake O.deeds outside.old outside.new (λ deeds. PlaysSetUp O.Line.passed set_up placed.entry placed.entry.name.now (R.remaining input.old) deeds result s) }
{
    if outside.is_taken(placed.name) {
        drop(set_up);
        drop(placed);
        return Err(Fault::Exists);
    }
    open_and_play(alloc, set_up, placed, outside, input, out, errors)
}

/// Opens the script that the words name, and plays its station.
fn play_file<'a, O: Links, R: Input<O::Line>, W: Write, E: Write>(
    alloc: Global,
    words: &StationWords<'a, &'a str>,
    placed: Placed<'a>,
    outside: &mut O,
    input: &mut R,
    out: &mut W,
    errors: &mut E,
) -> Result<SessionReport, Fault<'a>>
    requires room { length placed.room.items ≡ LONGEST_LINE + 1 }
    requires name { placed.name.now ≡ words.now.recording.now }
    ensures { let s : Streams = record { out = record { old = W.contents out.old; new = W.contents out.new }; errors = record { old = E.contents errors.old; new = E.contents errors.new } } in
        Did O.deeds O.holds outside.old outside.new (λ deeds. PlaysFile O.Line.passed (named_by (λ word. word.now) words.now) placed.entry (R.remaining input.old) deeds result s) }
{
    let opened = match outside.open(words.setup) {
        Ok(opened) => opened,
        Err(error) => return Err(open_fault(words.setup, &error)),
    };
    match set_up_file(
        alloc,
        outside.read(opened),
        placed.address,
        placed.by_system,
    ) {
        Ok(set_up) => play_set_up(alloc, set_up, placed, outside, input, out, errors),
        Err(fault) => Err(fault),
    }
}

/// Ends with the result of a session, or reports the fault that prevented it.
fn end_played<E: Write>(played: Result<SessionReport, Fault<'_>>, errors: &mut E) -> Ended
    ensures { EndsPlayed played.entry result (E.contents errors.old) (E.contents errors.new) }
{
    match played {
        Ok(told) => Ended {
            status: told.status,
            written: told.written,
        },
        Err(fault) => end(Err(fault), errors),
    }
}

/// Plays a station of a script with these words, by the lines of a reader, and returns its ending,
/// with a fault reported on `errors`.
pub fn end_station<'a, O: Links, R: Input<O::Line> + Drop, W: Write, E: Write>(
    alloc: Global,
    words: StationWords<'a, &'a str>,
    outside: &mut O,
    input: R,
    out: &mut W,
    errors: &mut E,
) -> Ending<'a>
    ensures { Did O.deeds O.holds outside.old outside.new (λ deeds. EndsStation O.Line.passed (named_by (λ word. word.now) words.entry) deeds (R.remaining input) (outcome_of result (stream (W.contents out.old) (W.contents out.new)) (stream (E.contents errors.old) (E.contents errors.new)))) }
{
    let placed = match place(alloc, &words) {
        Ok(placed) => placed,
        Err(fault) => return conclude(Err(fault), errors),
    };
    let mut input = input;
    let played = play_file(alloc, &words, placed, outside, &mut input, out, errors);
    Ending {
        ended: end_played(played, errors),
        fault: played.err(),
        begun: None,
        trouble: None,
        warning: None,
        further: None,
    }
}
