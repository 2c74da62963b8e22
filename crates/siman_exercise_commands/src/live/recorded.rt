//! The recording of the moves of a script, and its row of counts.

ghost use Rattle.std.specs.Prelude.{◌≡◌, IfOk, string_bytes};
ghost use Rattle.exercise_model.specs.Setting.{IsSetting};
ghost use Rattle.siman_lines.specs.AtLines.{Telling, AtLines, AreFresh};
ghost use Rattle.siman_outside.specs.Outside.{Stream, stream};
ghost use Rattle.siman_exercise_commands.specs.Live.Lived.{live_text, PutsLiveRow, Records, IsRecorded, Performs};

use crate::live::moves::make_moves;
use byte_files::put;
use exercise_model::{ExerciseLog, Recording};
use exercise_recording::RecordingWriter;
use siman_lines::{LeftOut, Line, StationAtLine};
use siman_outside::Fault;
use siman_print::{Field, Value, counted, named_line};
use siman_scripts::Move;
use std::alloc::{AllocError, Global};
use std::io::Write;

/// The result of a recording: how many entries it has, or why it has no end; and its file.
#[derive(Drop)]
pub(crate) struct LiveRecording<F: Drop> {
    pub(crate) entries: Result<u32, Fault<'static>>,
    pub(crate) file: F,
}

/// Row of a recording with `entries` entries, and of what its stations left out, if anything.
fn live_line(alloc: Global, entries: u32, left: LeftOut) -> Result<String, AllocError>
    ensures { IfOk result (λ line. string_bytes line ≡ live_text entries left) }
{
    if left.is_nothing() {
        return counted(alloc, "live", "records", entries as usize);
    }
    let fields = [
        Field::Keyed("records", Value::Number(u64::from(entries))),
        Field::Keyed("busy", Value::Number(left.busy as u64)),
        Field::Keyed("dropped", Value::Number(left.dropped)),
        Field::Keyed("strangers", Value::Number(left.strangers)),
    ];
    named_line(alloc, "live", &fields)
}

/// Prints the row of a recording, or returns why it has no end.
pub(crate) fn put_live_row<W: Write>(
    alloc: Global,
    entries: Result<u32, Fault<'static>>,
    left: LeftOut,
    out: &mut W,
) -> Result<u8, Fault<'static>>
    ensures { PutsLiveRow entries.entry left result (stream (W.contents out.old) (W.contents out.new)) }
{
    let entries = match entries {
        Ok(entries) => entries,
        Err(fault) => return Err(fault),
    };
    let line = live_line(alloc, entries, left)?;
    match put(out, line.as_bytes()) {
        Ok(()) => Ok(0),
        Err(_) => Err(Fault::Output),
    }
}

/// Makes moves in their order, and ends the recording. Returns the number of its entries.
fn end_moves<L: Line + Drop, W: Write>(
    alloc: Global,
    stations: &mut Vec<StationAtLine<L>>,
    recorder: &mut RecordingWriter<'_, W>,
    moves: Vec<Move>,
) -> Result<u32, Fault<'static>>
    ensures { let told : Telling L = record { received = L.received; sent = L.sent; failures = L.failures; passed = L.passed } in
        let old : AtLines L = record { stations = stations.old.items; recorder = recorder.old } in
        let new : AtLines L = record { stations = stations.new.items; recorder = recorder.new } in
        Performs told moves.items old new result }
{
    make_moves(alloc, stations, recorder, moves)?;
    match recorder.finish() {
        Ok(()) => Ok(recorder.entry_count()),
        Err(_) => Err(Fault::Output),
    }
}

/// Makes moves in their order, each station at its link, and writes the recording: one entry for
/// each datagram that a station sent or received and for each state that it told, and then the end.
/// Returns the number of entries.
///
/// A Tick sends the repeat that is due, if any; a Tell records the state of the entity; a Deliver
/// does nothing, since the links deliver. After each other move four rounds serve each station in
/// turn, with at most 64 receives each. After a fault the recording has no end. The stations are in
/// their initial state.
pub(crate) fn record_moves<L: Line + Drop, F: Write + Drop>(
    alloc: Global,
    head: &Recording,
    stations: &mut Vec<StationAtLine<L>>,
    moves: Vec<Move>,
    file: F,
) -> LiveRecording<F>
    requires { let told : Telling L = record { received = L.received; sent = L.sent; failures = L.failures; passed = L.passed } in
        IsSetting head.now.setting → AreFresh told head.now.setting stations.old.items }
    ensures records { let told : Telling L = record { received = L.received; sent = L.sent; failures = L.failures; passed = L.passed } in
        let kept : Stream = record { old = F.contents file; new = F.contents result.file } in
        Records told head.now.setting moves.items stations.old.items stations.new.items kept result.entries }
    // The file has the text of a recording, whole or a prefix of it.
    ensures recorded { let kept : Stream = record { old = F.contents file; new = F.contents result.file } in
        IsRecorded head.now.setting result.entries kept }
{
    let setting = head.setting();
    let begun = RecordingWriter::begin(
        file,
        setting.form(),
        setting.exercise(),
        setting.stations(),
    );
    let mut recorder = match begun {
        Ok(recorder) => recorder,
        Err(unstarted) => {
            return LiveRecording {
                entries: Err(Fault::Output),
                file: unstarted.writer,
            };
        }
    };
    let entries = end_moves(alloc, stations, &mut recorder, moves);
    let file = recorder.into_inner();
    LiveRecording { entries, file }
}
