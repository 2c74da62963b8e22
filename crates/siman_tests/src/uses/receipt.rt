//! Receipts of a station.

ghost use Rattle.std.specs.Prelude.{◌≡◌, ℕ, List, ◌∷◌, ◌++◌};
ghost use Rattle.exercise_model.specs.History.{Get, History, Send, log_at};
ghost use Rattle.exercise_model.specs.OwnLog.{IsSoundLog};
ghost use Rattle.exercise_model.specs.Run.{IsRun};
ghost use Rattle.exercise_model.specs.Setting.{SettingData, station_in};

use exercise_model::early_receipts_are_allowed;

/// Who noted a receipt before the datagram that the station sent right before it, as a capture does,
/// keeps a log against which nothing in it speaks, if the station took part in a run.
pub fn may_be_noted_early()
    ensures { (w : SettingData) (h later before : History) (s : ℕ) (b c : List ℕ) → IsRun w h → log_at s h ≡ later ++ Get s c ∷ Send s b ∷ before
        → IsSoundLog w.exercise (station_in w s) (later ++ Send s b ∷ Get s c ∷ before) }
{
    early_receipts_are_allowed();
}
