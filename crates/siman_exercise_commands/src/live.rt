//! The command `live`: makes the moves of a script by stations that each have their own link.

ghost use Rattle.std.specs.Prelude.{◌≡◌, ℕ, List, Option, option_map, Ok, Err, true, false};
ghost use Rattle.siman_scripts.specs.Script.{script_at};
ghost use Rattle.std.specs.IoError.{error_kind};
ghost use Rattle.exercise_model.specs.Setting.{IsSetting};
ghost use Rattle.siman_lines.specs.AtLines.{Telling, AreFresh};
ghost use Rattle.siman_outside.specs.Opening.{WorksOn};
ghost use Rattle.siman_exercise_commands.specs.Explained.{text_read, GivesReason};
ghost use Rattle.siman_exercise_commands.specs.Live.{Begins, BeginsText, BeginsFile, IsCreationFault, settled_as, CreatesLived, LivesAtLines, LivesBegun, IsPlaced, LivesText, is_created, incomplete_recording, EndsLive};
ghost use Rattle.siman_exercise_commands.specs.Live.Lived.{AreNew};
ghost use Rattle.siman_outside.specs.Outside.{outcome_of, Adds, Has, Did, DidMake, save_result, stream};

mod moves;
mod recorded;

use crate::explained::{refused, stopped};
use crate::links::Links;
use crate::live::moves::{attach_stations, trouble_of};
use crate::live::recorded::{LiveRecording, put_live_row, record_moves};
use crate::warned::no_such_station;
use exercise_model::Recording;
use siman_lines::{StationAtLine, left_out};
use siman_outside::{
    Ending, Fault, MovePlace, Notes, ShortText, conclude, of_error, open_input, read_text,
};
use siman_scripts::{LARGEST_SCRIPT, Move, Script, line_of_move, read_script};
use siman_stations::{InitialWorld, Node, begin_world};
use std::alloc::Global;
use std::io;
use std::io::{ErrorKind, Read, Write};

/// The stations of a script in their initial state, and its moves.
#[derive(Drop)]
pub(crate) struct Begun {
    /// Recording of the stations, without entries.
    pub(crate) recording: Recording,
    /// Manager and application of each station.
    pub(crate) nodes: Vec<Node>,
    pub(crate) moves: Vec<Move>,
}

/// The stations and moves of a script, with its text.
#[derive(Drop)]
struct BegunText {
    begun: Begun,
    text: Vec<u8>,
}

/// Reads a script, and sets up its stations and moves.
fn begin_script<R: Read + Drop>(
    alloc: Global,
    script: R,
    notes: &mut Notes,
) -> Result<BegunText, Fault<'static>>
    ensures { (text : List ℕ) × Has (R.remaining script) text × BeginsText (text_read text) result }
{
    let mut script = script;
    let text = read_text(alloc, &mut script, LARGEST_SCRIPT)?;
    match begin_text(alloc, &text, notes) {
        Ok(begun) => Ok(BegunText { begun, text }),
        Err(fault) => Err(fault),
    }
}

/// Stations and moves of the script that a text spells. Notes the warning of its first order for a
/// station that it lacks.
fn begin_text(alloc: Global, text: &[u8], notes: &mut Notes) -> Result<Begun, Fault<'static>>
    ensures begins { Begins (script_at text.now) result }
    ensures why { GivesReason (text_read text.now) result }
{
    match read_script(alloc, text) {
        Ok(script) => {
            notes.note(no_such_station(alloc, text, &script));
            begin_read(alloc, text, script)
        }
        Err(fault) => Err(refused(alloc, text, fault)),
    }
}

/// Stations and moves of a script, given its text.
fn begin_read(alloc: Global, text: &[u8], script: Script) -> Result<Begun, Fault<'static>>
    requires { script_at text.now ≡ Ok script }
    ensures begins { Begins (script_at text.now) result }
    ensures why { GivesReason (text_read text.now) result }
{
    let Script {
        exercise,
        stations,
        moves,
    } = script;
    match begin_world(alloc, exercise, stations) {
        Ok(InitialWorld { recording, nodes }) => Ok(Begun {
            recording,
            nodes,
            moves,
        }),
        Err(fault) => {
            drop(moves);
            Err(stopped(alloc, text, fault))
        }
    }
}

/// Fault of a file that could not be created.
pub(crate) fn creation_fault(error: &io::Error) -> Fault<'static>
    ensures { IsCreationFault (error_kind error.now) result }
{
    match error.kind() {
        ErrorKind::OutOfMemory => Fault::Memory,
        ErrorKind::AlreadyExists => Fault::Exists,
        _ => Fault::Output,
    }
}

/// Result of `live`: its status or fault, whether it created its file, and the last failed call of
/// a link in words, if a link reports one.
#[derive(Clone, Copy)]
struct Lived<'a> {
    answered: Result<u8, Fault<'a>>,
    created: bool,
    trouble: Option<ShortText>,
}

/// Result of a fault before a file was created.
fn fault_before_file(fault: Fault<'_>) -> Lived<'_>
    ensures answered { result.answered ≡ Err fault.entry }
    ensures created { result.created ≡ false }
{
    Lived {
        answered: Err(fault),
        created: false,
        trouble: None,
    }
}

/// The answer, if the file was settled on the disk; else a failed write, unless there was a fault
/// before.
fn settled_as(
    closed: &io::Result<()>,
    answered: Result<u8, Fault<'static>>,
) -> Result<u8, Fault<'static>>
    ensures { result ≡ settled_as (save_result closed.now) answered.entry }
{
    match answered {
        Ok(_) if closed.is_err() => Err(Fault::Output),
        answered => answered,
    }
}

/// Creates the file of a recording, makes the moves, records them in it, and prints the row of
/// counts. The stations are in their initial state.
fn create_live<O: Links, W: Write>(
    alloc: Global,
    head: &Recording,
    stations: Vec<StationAtLine<O::Line>>,
    moves: Vec<Move>,
    name: &str,
    outside: &mut O,
    out: &mut W,
) -> Lived<'static>
    requires { let told : Telling O.Line = record { received = O.Line.received; sent = O.Line.sent; failures = O.Line.failures; passed = O.Line.passed } in
        IsSetting head.now.setting → AreFresh told head.now.setting stations.items }
    ensures { let told : Telling O.Line = record { received = O.Line.received; sent = O.Line.sent; failures = O.Line.failures; passed = O.Line.passed } in
        DidMake O.deeds outside.old outside.new (λ deeds. CreatesLived told head.now.setting moves.items stations.items name.now deeds result.answered (stream (W.contents out.old) (W.contents out.new)) × (result.created ≡ is_created deeds)) }
{
    match outside.create(name) {
        Ok(file) => {
            let mut stations = stations;
            let recorded = record_moves(alloc, head, &mut stations, moves, file);
            let LiveRecording { entries, file } = recorded;
            let answered = put_live_row(alloc, entries, left_out(&stations), out);
            Lived {
                answered: settled_as(&outside.close(file), answered),
                created: true,
                trouble: trouble_of(alloc, &stations),
            }
        }
        Err(error) => fault_before_file(creation_fault(&error)),
    }
}

/// Requests a link for each station, then creates the file and makes the moves.
fn live_at_lines<O: Links, W: Write>(
    alloc: Global,
    begun: Begun,
    name: &str,
    outside: &mut O,
    out: &mut W,
) -> Lived<'static>
    requires { AreNew begun.recording.setting begun.nodes.items }
    ensures { let told : Telling O.Line = record { received = O.Line.received; sent = O.Line.sent; failures = O.Line.failures; passed = O.Line.passed } in
        DidMake O.deeds outside.old outside.new (λ deeds. LivesAtLines told begun name.now deeds result.answered (stream (W.contents out.old) (W.contents out.new)) × (result.created ≡ is_created deeds)) }
{
    let Begun {
        recording,
        nodes,
        moves,
    } = begun;
    let lines = match outside.lines(alloc, nodes.len()) {
        Ok(lines) => lines,
        Err(error) => {
            return fault_before_file(of_error(&error, Fault::LineFailed));
        }
    };
    match attach_stations(alloc, nodes, lines) {
        Ok(stations) => create_live(alloc, &recording, stations, moves, name, outside, out),
        Err(fault) => fault_before_file(fault),
    }
}

/// Makes the moves of a script over links, into a new file. Refuses if a file of this name exists.
fn live_begun<O: Links, W: Write>(
    alloc: Global,
    begun: Begun,
    name: &str,
    outside: &mut O,
    out: &mut W,
) -> Lived<'static>
    requires { AreNew begun.recording.setting begun.nodes.items }
    ensures { let told : Telling O.Line = record { received = O.Line.received; sent = O.Line.sent; failures = O.Line.failures; passed = O.Line.passed } in
        DidMake O.deeds outside.old outside.new (λ deeds. LivesBegun told begun name.now deeds result.answered (stream (W.contents out.old) (W.contents out.new)) × (result.created ≡ is_created deeds)) }
{
    if outside.is_taken(name) {
        return fault_before_file(Fault::Exists);
    }
    live_at_lines(alloc, begun, name, outside, out)
}

/// Adds the line of the script to the fault of a move that was not made. Leaves the fault as it is
/// if memory runs out.
fn placed<'a>(alloc: Global, text: &[u8], answered: Result<u8, Fault<'a>>) -> Result<u8, Fault<'a>>
    ensures { IsPlaced text.now answered.entry result }
{
    let (number, refusal) = match answered {
        Err(Fault::Move(number, refusal, None)) => (number, refusal),
        _ => return answered,
    };
    match line_of_move(alloc, text, number) {
        Ok(Some(line)) => {
            let place = MovePlace { line, sends: None };
            Err(Fault::Move(number, refusal, Some(place)))
        }
        _ => answered,
    }
}

/// As [`live_begun`], and adds the line of the script to the fault of a move that was not made.
fn live_text<O: Links, W: Write>(
    alloc: Global,
    script: BegunText,
    name: &str,
    outside: &mut O,
    out: &mut W,
) -> Lived<'static>
    requires { AreNew script.begun.recording.setting script.begun.nodes.items }
    ensures { let told : Telling O.Line = record { received = O.Line.received; sent = O.Line.sent; failures = O.Line.failures; passed = O.Line.passed } in
        DidMake O.deeds outside.old outside.new (λ deeds. LivesText told script name.now deeds result.answered (stream (W.contents out.old) (W.contents out.new)) × (result.created ≡ is_created deeds)) }
{
    let BegunText { begun, text } = script;
    let lived = live_begun(alloc, begun, name, outside, out);
    Lived {
        answered: placed(alloc, &text, lived.answered),
        created: lived.created,
        trouble: lived.trouble,
    }
}

/// Opens the script of the first name, and makes its moves, with a recording in the file of the
/// second.
fn live_of_file<'a, O: Links, W: Write>(
    alloc: Global,
    names: (&'a str, &'a str),
    outside: &mut O,
    out: &mut W,
    notes: &mut Notes,
) -> Lived<'a>
    ensures { let told : Telling O.Line = record { received = O.Line.received; sent = O.Line.sent; failures = O.Line.failures; passed = O.Line.passed } in
        Did O.deeds O.holds outside.old outside.new (λ deeds. WorksOn BeginsFile (LivesText told) names.entry.0.now names.entry.1.now deeds result.answered (stream (W.contents out.old) (W.contents out.new)) × (result.created ≡ is_created deeds)) }
{
    match open_input(names, outside) {
        Ok(opened) => match begin_script(alloc, outside.read(opened), notes) {
            Ok(script) => live_text(alloc, script, names.1, outside, out),
            Err(fault) => fault_before_file(fault),
        },
        Err(fault) => fault_before_file(fault),
    }
}

/// Name of the incomplete recording that a fault leaves, if its file was created.
fn incomplete_recording<'a>(lived: Lived<'_>, name: &'a str) -> Option<&'a str>
    ensures { option_map (λ name. name.now) result ≡ incomplete_recording lived.entry.created name.now lived.entry.answered }
{
    if !lived.created {
        return None;
    }
    match lived.answered {
        Ok(_) => None,
        Err(_) => Some(name),
    }
}

/// Runs `live` with these words, and returns its ending, with a fault reported on `errors`.
pub fn end_live<'a, O: Links, W: Write, E: Write>(
    alloc: Global,
    words: (&'a str, &'a str),
    outside: &mut O,
    out: &mut W,
    errors: &mut E,
) -> Ending<'a>
    ensures { let told : Telling O.Line = record { received = O.Line.received; sent = O.Line.sent; failures = O.Line.failures; passed = O.Line.passed } in
        Did O.deeds O.holds outside.old outside.new (λ deeds. EndsLive told words.entry.0.now words.entry.1.now deeds (outcome_of result (stream (W.contents out.old) (W.contents out.new)) (stream (E.contents errors.old) (E.contents errors.new)))) }
{
    let mut notes = Notes::nothing();
    let lived = live_of_file(alloc, words, outside, out, &mut notes);
    Ending {
        begun: incomplete_recording(lived, words.1),
        trouble: lived.trouble,
        warning: notes.warning,
        further: notes.further,
        ..conclude(lived.answered, errors)
    }
}
