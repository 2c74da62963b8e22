//! The file of a recording.

ghost use Rattle.std.specs.Prelude.{Err, Ok, length, ℕ, ◌≡◌, ◌≤◌};
ghost use Rattle.exercise_model.specs.Recording.{PlainRecording};
ghost use Rattle.exercise_recording.specs.Reading.{recording_at};
ghost use Rattle.exercise_recording.specs.declared.format_fault.FormatFault.{FormatFault};

use byte_files::are_bytes;
use exercise_recording::{refusals_hold, text_and_reading_agree};

/// The content of a file does not depend on its reader: what is read within one limit is read
/// within every limit that has room for the file (`same`); and a file that is refused within a
/// limit that has room for it is the text of no recording, so that no other reader reads it
/// (`never`).
pub fn says_one_thing(bytes: &[u8])
    ensures same { (limit other : ℕ) (r : PlainRecording) → recording_at limit bytes.now ≡ Ok r → length bytes.now ≤ other → recording_at other bytes.now ≡ Ok r }
    ensures never { (limit other : ℕ) (fault : FormatFault) (r : PlainRecording) → recording_at limit bytes.now ≡ Err fault → length bytes.now ≤ limit
        → recording_at other bytes.now ≡ Ok r → ⊥ }
{
    are_bytes(bytes);
    text_and_reading_agree();
    refusals_hold();
}
