//! Recordings whose recorder stopped.

ghost use Rattle.std.specs.Prelude.{None, Ok, length, slice_index, ℕ, ◌+◌, ◌<◌, ◌≡◌, ◌≤◌};
ghost use Rattle.exercise_model.specs.Recording.{IsRecording};
ghost use Rattle.exercise_recording.specs.Mending.{Whole, mended_at};
ghost use Rattle.exercise_recording.specs.Refusal.{entries_text};
ghost use Rattle.exercise_recording.specs.Text.{recording_text};

use byte_files::are_bytes;
use exercise_recording::{Recording, mended_is_whole, served_is_mended};

/// A recorder that stopped between two entries lost nothing: mending returns the recording that it
/// had written so far, if the text is bytes and fits the limit.
pub fn lose_nothing_that_was_written(recording: &Recording)
    ensures { (limit : ℕ) (m : Whole) → IsRecording recording.now → ((i : ℕ) → slice_index (entries_text recording.now) i < 256)
        → length (recording_text recording.now) ≤ limit → mended_at limit (entries_text recording.now) ≡ Ok m → m.recording ≡ recording.now }
{
    served_is_mended();
}

/// A mended recording needs no second mending: within a limit with room for its end, mending
/// returns it unchanged and without a fault.
pub fn are_mended_once(bytes: &[u8])
    ensures { (limit : ℕ) (m : Whole) → mended_at limit bytes.now ≡ Ok m
        → mended_at (limit + 5) (recording_text m.recording) ≡ Ok (record { recording = m.recording; fault = None }) }
{
    are_bytes(bytes);
    mended_is_whole();
}
