//! Stations at their links, after any results of their calls.

ghost use Rattle.std.specs.List.{AllByRecursion};
ghost use Rattle.std.specs.Prelude.{List, Option, Some, ℕ, ◌++◌};
ghost use Rattle.exercise_model.specs.Entry.{Entry};
ghost use Rattle.exercise_model.specs.History.{past};
ghost use Rattle.exercise_model.specs.Recording.{PlainRecording};
ghost use Rattle.exercise_model.specs.Run.{Explains};
ghost use Rattle.exercise_model.specs.Setting.{SettingData};
ghost use Rattle.siman_lines.specs.Calls.{Stations};
ghost use Rattle.siman_lines.specs.Calls.{AreBegun, AreCalls, AreKept, HasStation, IsBeginningOf};
ghost use Rattle.siman_stations.specs.Deeds.{ReceivesSent};

use siman_lines::{calls_are_kept, calls_make_a_run, what_is_kept_stands};

/// Whenever stations stop, even in the middle of a call, what they wrote so far is the beginning of
/// a recording.
pub fn leave_a_recording()
    ensures { (before : List ℕ) (stations calls : List ℕ) (old new : Stations) (es : List Entry) → AllByRecursion (λ s. HasStation s stations) calls
        → AreKept (Some before) stations old es → AreCalls calls old new → (more : List Entry) × IsBeginningOf before new.recorder (es ++ more) }
{
    calls_are_kept();
    what_is_kept_stands();
}

/// From the start of their recording on, the whole entries that stations of siman wrote explain
/// themselves, if each datagram that was received was sent before.
pub fn explain_what_they_wrote()
    ensures { (before : Option (List ℕ)) (w : SettingData) (stations calls : List ℕ) (old new : Stations) → AreBegun before w stations old
        → AllByRecursion (λ s. HasStation s stations) calls → AreCalls calls old new
        → (es : List Entry) × (let r : PlainRecording = record { setting = w; entries = es } in ReceivesSent w (past es) → Explains r (past es)) }
{
    calls_make_a_run();
}
