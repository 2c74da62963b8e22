//! Recordings of the first format that are archived in the second.

ghost use Rattle.std.specs.Prelude.{Ok, length, ℕ, ◌+◌, ◌↔◌, ◌≡◌, ◌≤◌};
ghost use Rattle.exercise_model.specs.Account.{change_behind, pair_of};
ghost use Rattle.exercise_model.specs.Conversion.{converted};
ghost use Rattle.exercise_model.specs.History.{History};
ghost use Rattle.exercise_model.specs.Recording.{IsRecording};
ghost use Rattle.exercise_model.specs.Run.{Explains};
ghost use Rattle.exercise_model.specs.declared.form.Form.TheVariants.{First};
ghost use Rattle.exercise_recording.specs.Reading.{recording_at};
ghost use Rattle.exercise_recording.specs.Text.{recording_text};

use exercise_model::{Recording, conversion_keeps_runs};
use exercise_recording::conversions_are_read;

/// Conversion loses nothing: a run explains the recording exactly if it explains its conversion
/// (`explained`), and the request of each answer (`pairs`) and the change behind each Able
/// (`changes`) are unchanged.
pub fn may_be_converted(recording: &Recording)
    ensures explained { recording.now.setting.form ≡ First → (h : History) → Explains recording.now h ↔ Explains (converted recording.now) h }
    ensures pairs { (i : ℕ) → pair_of recording.now i ≡ pair_of (converted recording.now) i }
    ensures changes { (i : ℕ) → change_behind recording.now i ≡ change_behind (converted recording.now) i }
{
    conversion_keeps_runs();
}

/// A limit of one byte more than the old file is large enough for the new one, which is then read.
pub fn need_one_byte_more(recording: &Recording)
    ensures { (limit : ℕ) → recording.now.setting.form ≡ First → IsRecording recording.now → length (recording_text recording.now) + 1 ≤ limit
        → (length (recording_text (converted recording.now)) ≤ limit) × (recording_at limit (recording_text (converted recording.now)) ≡ Ok (converted recording.now)) }
{
    conversions_are_read();
}
