//! One station at its post, after any lines of text.

ghost use Rattle.std.specs.Prelude.{◌≡◌, List, Option, Some, ℕ, length, true};
ghost use Rattle.exercise_model.specs.Entry.{Entry};
ghost use Rattle.exercise_model.specs.History.{past, log_at};
ghost use Rattle.exercise_model.specs.Recording.{PlainRecording};
ghost use Rattle.exercise_model.specs.Run.{Explains};
ghost use Rattle.exercise_model.specs.Setting.{SettingData, is_open};
ghost use Rattle.siman_application.specs.OwnLog.{AreOneOrder};
ghost use Rattle.siman_lines.specs.Calls.{IsBeginningOf};
ghost use Rattle.siman_operator.specs.Deeds.{PostState};
ghost use Rattle.siman_operator.specs.Explained.{GoOn, HearsOwnSent, IsStarted};

use siman_lines::what_is_kept_stands;
use siman_operator::{own_recordings_are_explained, posts_keep_their_recordings};

/// Whenever a post stops, even in the middle of a line, what it wrote so far is the beginning of a
/// recording.
pub fn leaves_what_can_be_mended<L: Drop>()
    ensures { (before : List ℕ) (start : Option (List ℕ)) (w : SettingData) (a : PostState L) (bs : List (PostState L)) (c : PostState L)
        → IsStarted (Some before) start w a → GoOn a bs c → (es : List Entry) × IsBeginningOf before c.recorder es }
{
    posts_keep_their_recordings::<L>();
    what_is_kept_stands();
}

/// The whole entries that a post wrote to an open recording of its own explain themselves, whoever
/// else recorded, if nobody wrote in its name, and no site and application used one request
/// identifier for two orders.
pub fn is_judged_alone<L: Drop>()
    ensures { (before start : Option (List ℕ)) (w : SettingData) (a : PostState L) (bs : List (PostState L)) (c : PostState L)
        → is_open w.form ≡ true → length w.stations ≡ 1 → a.station.index ≡ 0 → IsStarted before start w a → GoOn a bs c
        → (es : List Entry) × (let r : PlainRecording = record { setting = w; entries = es } in
        AreOneOrder c.station.node.application.outfit (log_at 0 (past es)) → HearsOwnSent w (past es) → Explains r (past es)) }
{
    posts_keep_their_recordings::<L>();
    own_recordings_are_explained();
}
