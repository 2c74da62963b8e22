//! Writers of recordings.

ghost use Rattle.std.specs.Io.KnownBytes.{Appends};
ghost use Rattle.std.specs.Prelude.{IfOk, [], ◌∷◌};
ghost use Rattle.exercise_model.specs.Entry.{Sent};
ghost use Rattle.exercise_model.specs.Recording.{PlainRecording};
ghost use Rattle.exercise_model.specs.Setting.{SettingData};
ghost use Rattle.exercise_model.specs.declared.form.Form.TheVariants.{First};
ghost use Rattle.exercise_recording.specs.Text.{recording_text};

use exercise_model::Station;
use exercise_recording::{RecordingWriter, WriterFault, calls_write_the_text};
use std::io::Write;

/// Writes a recording of one datagram, which the first station sends, by three calls. They append
/// exactly the text of that recording.
pub fn record_one_datagram<W: Write + Drop>(
    file: W,
    exercise: u8,
    stations: &[Station],
    stamp: u64,
    datagram: &[u8],
) -> Result<W, WriterFault>
    ensures { let w : SettingData = record { form = First; exercise = exercise; stations = stations.now } in
        let r : PlainRecording = record { setting = w; entries = Sent 0 stamp datagram.now ∷ [] } in
        IfOk result (λ written. Appends (W.contents file) (W.contents written) (recording_text r)) }
{
    calls_write_the_text();
    let mut recorder = RecordingWriter::start(file, exercise, stations)?;
    recorder.sent(0, stamp, datagram)?;
    recorder.finish()?;
    Ok(recorder.into_inner())
}
