//! The recording of an exercise, from its first station to the end of its file.

ghost use Rattle.std.specs.Prelude.{◌≡◌, ℕ, List, Option};
ghost use Rattle.exercise_model.specs.Recording.{opened};
ghost use Rattle.exercise_model.specs.Setting.{SettingData, IsSetting};
ghost use Rattle.exercise_recording.specs.Writer.{Starts};
ghost use Rattle.siman_lines.specs.AtLines.{Telling, AtLines, AreFresh};
ghost use Rattle.siman_stations.specs.Holds.{AreNewNodes};
ghost use Rattle.siman_stations.specs.World.{WorldData, setting_of};
ghost use Rattle.siman_trials.specs.Recorded.{Leaves, AreUnused};
ghost use Rattle.siman_trials.specs.Ended.{Performs, Records, AttachesAndRecords, ComesToEnd};

use crate::performed::{LinkMoveFault, make_moves};
use exercise_model::Recording;
use exercise_recording::{RecordingWriter, WriterFault};
use siman_lines::{AtLineFault, Line, StationAtLine, lines_make_a_run, stations_at_lines};
use siman_scripts::{Move, WorldStation};
use siman_stations::{InitialWorld, WorldFault, begin_world};
use std::alloc::Global;
use std::io::Write;

/// Why the recording of an exercise was not completed.
#[derive(Clone, Copy, Debug, PartialEq, Eq)]
pub enum ExerciseFault {
    /// The stations make no world, or memory ran out.
    World(WorldFault),
    /// There are not as many links as stations, or memory ran out.
    Lines(AtLineFault),
    /// A move was not made, or the stations were not served behind it.
    Move(LinkMoveFault),
    /// The head or the end of the recording was not written.
    Record(WriterFault),
}

impl From<LinkMoveFault> for ExerciseFault {
    ghost use Rattle.std.specs.Prelude.{◌≡◌};
    ghost use Rattle.siman_trials.specs.declared.recorded.ExerciseFault.TheVariants as faults;

    ghost from_gives = { λ halt fault. fault ≡ faults.Move halt };

    fn from(halt: LinkMoveFault) -> ExerciseFault {
        ExerciseFault::Move(halt)
    }
}

/// The recording of an exercise.
#[derive(Drop)]
pub struct TrialRecording<W: Drop> {
    /// Whether the recording is complete, or why not.
    pub ended: Result<(), ExerciseFault>,
    /// The file that was written.
    pub file: W,
}

/// Makes moves in order, and ends the recording. For newly begun stations and a recorder that was
/// just started, all that is written explains itself.
fn end_moves<L: Line + Drop, W: Write>(
    alloc: Global,
    stations: &mut Vec<StationAtLine<L>>,
    recorder: &mut RecordingWriter<'_, W>,
    moves: Vec<Move>,
) -> Result<(), ExerciseFault>
    ensures performs { let told : Telling L = record { received = L.received; sent = L.sent; failures = L.failures; passed = L.passed } in
        let old : AtLines L = record { stations = stations.old.items; recorder = recorder.old } in
        let new : AtLines L = record { stations = stations.new.items; recorder = recorder.new } in
        Performs told moves.items old new result }
    ensures leaves { let told : Telling L = record { received = L.received; sent = L.sent; failures = L.failures; passed = L.passed } in
        (before : Option (List ℕ)) (w : SettingData) → AreFresh told w stations.old.items → Starts before w recorder.old
        → Leaves w before recorder.new.contents result }
{
    lines_make_a_run::<L>();
    make_moves(alloc, stations, recorder, moves)?;
    match recorder.finish() {
        Ok(()) => Ok(()),
        Err(fault) => Err(ExerciseFault::Record(fault)),
    }
}

/// Starts the recording of stations at their links, makes their moves, and ends the recording.
fn record_at_lines<L: Line + Drop, W: Write + Drop>(
    alloc: Global,
    head: &Recording,
    stations: Vec<StationAtLine<L>>,
    moves: Vec<Move>,
    file: W,
) -> TrialRecording<W>
    ensures records { let told : Telling L = record { received = L.received; sent = L.sent; failures = L.failures; passed = L.passed } in
        Records told head.now.setting moves.items stations.items (W.contents file) (W.contents result.file) result.ended }
    ensures leaves { let told : Telling L = record { received = L.received; sent = L.sent; failures = L.failures; passed = L.passed } in
        (IsSetting head.now.setting → AreFresh told head.now.setting stations.items)
        → Leaves head.now.setting (W.contents file) (W.contents result.file) result.ended }
{
    let setting = head.setting();
    let begun = RecordingWriter::begin(
        file,
        setting.form(),
        setting.exercise(),
        setting.stations(),
    );
    let mut recorder = match begun {
        Ok(recorder) => recorder,
        Err(unstarted) => {
            return TrialRecording {
                ended: Err(ExerciseFault::Record(unstarted.fault)),
                file: unstarted.writer,
            };
        }
    };
    let mut stations = stations;
    let ended = end_moves(alloc, &mut stations, &mut recorder, moves);
    let file = recorder.into_inner();
    TrialRecording { ended, file }
}

/// Attaches the stations of a world to their links, and records their moves.
fn record_begun<L: Line + Drop, W: Write + Drop>(
    alloc: Global,
    begun: InitialWorld,
    lines: Vec<L>,
    moves: Vec<Move>,
    file: W,
) -> TrialRecording<W>
    ensures comes { let told : Telling L = record { received = L.received; sent = L.sent; failures = L.failures; passed = L.passed } in
        AttachesAndRecords told begun.recording.setting begun.nodes.items lines.items moves.items (W.contents file) (W.contents result.file) result.ended }
    ensures leaves { (w : WorldData) → begun.recording ≡ opened (setting_of w) → AreNewNodes w.exercise w.stations begun.nodes.items → AreUnused L.sent lines.items
        → Leaves (setting_of w) (W.contents file) (W.contents result.file) result.ended }
{
    let InitialWorld { recording, nodes } = begun;
    match stations_at_lines(alloc, nodes, lines) {
        Ok(stations) => record_at_lines(alloc, &recording, stations, moves, file),
        Err(fault) => TrialRecording {
            ended: Err(ExerciseFault::Lines(fault)),
            file,
        },
    }
}

/// Records an exercise from its beginning to its end: begins the stations of a world, attaches each
/// to its link, starts a recording, makes the moves in order and serves the stations behind each
/// ([`make_moves`]), and ends the recording. Its setting is that of the stations, in the first
/// form. No datagram may have been sent through any of the links before.
///
/// Whatever the links lose, copy, delay or swap, the recording explains itself: its entries, in the
/// order of the file, are a run that explains it. This needs only that each datagram received was
/// sent before. After a fault the file has nothing new, or the beginning of such a recording, whose
/// entries explain themselves too.
///
/// Errors: World if the stations make no world, Lines if there are not as many links, Move for the
/// first move that was not made, with the fault at its link, and Record if the head or the end was
/// not written. World and Lines also report that memory ran out. Without a fault all moves were
/// made.
pub fn record_exercise<L: Line + Drop, W: Write + Drop>(
    alloc: Global,
    exercise: u8,
    stations: Vec<WorldStation>,
    lines: Vec<L>,
    moves: Vec<Move>,
    file: W,
) -> TrialRecording<W>
    requires unused { AreUnused L.sent lines.items }
    ensures comes { let told : Telling L = record { received = L.received; sent = L.sent; failures = L.failures; passed = L.passed } in
        let w : WorldData = record { exercise = exercise; stations = stations.items } in
        ComesToEnd told w lines.items moves.items (W.contents file) (W.contents result.file) result.ended }
    ensures leaves { let w : WorldData = record { exercise = exercise; stations = stations.items } in
        Leaves (setting_of w) (W.contents file) (W.contents result.file) result.ended }
{
    match begin_world(alloc, exercise, stations) {
        Ok(begun) => record_begun(alloc, begun, lines, moves, file),
        Err(fault) => TrialRecording {
            ended: Err(ExerciseFault::World(fault)),
            file,
        },
    }
}
