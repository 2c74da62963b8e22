//! The command `world`: writes the recording of the world that a script describes.

ghost use Rattle.std.specs.Prelude.{◌≡◌, ◌⊎◌, ℕ, List, length, map, Ok, IfOk, string_bytes};
ghost use Rattle.std.specs.Io.KnownBytes.{Keeps};
ghost use Rattle.exercise_model.specs.Held.{kept};
ghost use Rattle.siman_scripts.specs.Script.{script_at};
ghost use Rattle.siman_stations.specs.World.{sent_in};
ghost use Rattle.siman_outside.specs.Outside.{Has, Stream};
ghost use Rattle.siman_exercise_commands.specs.Explained.{text_read};
ghost use Rattle.siman_exercise_commands.specs.World.{RunsText, is_sent, world_text, EndsWorld};

use crate::explained::{refused, stopped};
use crate::recording_file::put_recording;
use crate::warned::no_such_station;
use exercise_model::{EntryView, LogEntry, Recording};
use siman_outside::{
    Fault, Making, Notes, OfFile, Product, Settling, end, put_of_file, put_settled, read_text,
};
use siman_print::{Field, Value, named_line};
use siman_scripts::{LARGEST_SCRIPT, Script, read_script};
use siman_stations::run_world;
use std::alloc::{AllocError, Global};
use std::io::{Read, Write};
use std::marker::Model;

/// Runs the world that a script describes, writes its recording, and then the row with the number
/// of its entries and of those that were sent, with status 0. The row is written only after the
/// whole recording.
///
/// Status 2 with a line on `errors` means: a refused line of the script
/// (`script: bad-line at line N`, `script: unknown-station at line N`), a failed read of it
/// (`script: read`), or a world that does not run (`world: stations`, `world: NAME at move N`), all
/// with nothing written; or a failed write (`output: write`), after which a prefix of the recording
/// is written and no row, or the recording and a prefix of the row. Status 3 means that memory ran
/// out (`memory`); a prefix of the recording may be written, and no row. At most 1,048,577 bytes of
/// the script are read.
pub fn world_command<R: Read + Drop, F: Write, W: Write, E: Write>(
    alloc: Global,
    script: R,
    recording: &mut F,
    out: &mut W,
    errors: &mut E,
) -> u8
    ensures ends { let file : Stream = record { old = F.contents recording.old; new = F.contents recording.new } in
        let out : Stream = record { old = W.contents out.old; new = W.contents out.new } in
        let errors : Stream = record { old = E.contents errors.old; new = E.contents errors.new } in
        (text : List ℕ) × Has (R.remaining script) text × EndsWorld (script_at text) result file out errors }
    ensures status { (result ≡ 0) ⊎ (result ≡ 2) ⊎ (result ≡ 3) }
    ensures silent { result ≡ 0 → Keeps (E.contents errors.old) (E.contents errors.new) }
{
    let made = put_of_file(alloc, WorldCommand, script, recording, out);
    end(made, errors).status
}

/// The command `world`, which makes the recording of the world of a script.
#[derive(Drop)]
pub struct WorldCommand;

impl OfFile for WorldCommand {
    ghost use Rattle.siman_exercise_commands.specs.World.{RunsFile};

    type Made = WorldFile;

    ghost reads = { λ _. RunsFile };

    fn read<R: Read + Drop>(
        self,
        alloc: Global,
        file: R,
        notes: &mut Notes,
    ) -> Result<Product<WorldFile>, Fault<'static>> {
        match run_script(alloc, file, notes) {
            Ok(recording) => Ok(Product::File(WorldFile { recording })),
            Err(fault) => Err(fault),
        }
    }
}

/// Reads a script, and runs its world. Returns the recording.
fn run_script<R: Read + Drop>(
    alloc: Global,
    script: R,
    notes: &mut Notes,
) -> Result<Recording, Fault<'static>>
    ensures { (text : List ℕ) × Has (R.remaining script) text × RunsText (text_read text) result }
{
    let mut script = script;
    let text = read_text(alloc, &mut script, LARGEST_SCRIPT)?;
    run_text(alloc, &text, notes)
}

/// Recording of the world of the script that a text spells. Notes the warning of its first order
/// for a station that it lacks.
fn run_text(alloc: Global, text: &[u8], notes: &mut Notes) -> Result<Recording, Fault<'static>>
    ensures { RunsText (text_read text.now) result }
{
    match read_script(alloc, text) {
        Ok(script) => {
            notes.note(no_such_station(alloc, text, &script));
            run_read(alloc, text, script)
        }
        Err(fault) => Err(refused(alloc, text, fault)),
    }
}

/// Recording of the world of a script, given its text.
fn run_read(alloc: Global, text: &[u8], script: Script) -> Result<Recording, Fault<'static>>
    requires { script_at text.now ≡ Ok script }
    ensures { RunsText (text_read text.now) result }
{
    let Script {
        exercise,
        stations,
        moves,
    } = script;
    match run_world(alloc, exercise, stations, moves) {
        Ok(recording) => Ok(recording),
        Err(fault) => Err(stopped(alloc, text, fault)),
    }
}

/// Recording of a script's world, to be written to a file.
#[derive(Drop)]
pub struct WorldFile {
    recording: Recording,
}

impl Model for WorldFile {
    ghost use Rattle.exercise_model.specs.Recording.{PlainRecording};

    ghost Value = { PlainRecording };

    ghost view = { λ file. file.recording };
}

/// Writes the recording, and then its row.
impl Making for WorldFile {
    ghost use Rattle.siman_exercise_commands.specs.World.{PutsWorld};

    ghost puts = { PutsWorld };

    fn put<S: Settling<F>, F: Write, W: Write>(
        &self,
        alloc: Global,
        settling: &S,
        file: &mut F,
        out: &mut W,
    ) -> Result<u8, Fault<'static>> {
        let line = world_line(alloc, &self.recording)?;
        put_recording(alloc, &self.recording, file)?;
        put_settled(settling, file, &line, out)
    }
}

/// Row of a world: number of entries of its recording, and of those that were sent.
pub(crate) fn world_line(alloc: Global, recording: &Recording) -> Result<String, AllocError>
    ensures { IfOk result (λ line. string_bytes line ≡ world_text recording.now) }
{
    let entries = recording.entries();
    let fields = [
        Field::Keyed("records", Value::Number(entries.len() as u64)),
        Field::Keyed("sent", Value::Number(sent_count(entries) as u64)),
    ];
    named_line(alloc, "world", &fields)
}

fn is_sent(entry: &LogEntry) -> bool
    ensures { result ≡ is_sent (kept entry.now) }
{
    matches!(entry.view(), EntryView::Sent { .. })
}

/// Number of entries that say that a datagram was sent.
pub(crate) fn sent_count(entries: &[LogEntry]) -> usize
    ensures { result ≡ length (sent_in (map kept entries.now)) }
{
    let mut count = 0;
    for entry in entries {
        if is_sent(entry) {
            count += 1;
        }
    }
    count
}
