//! Laws of posts. Each function is a theorem: it has no body, and its contract is the law.

ghost use Rattle.std.specs.Prelude.{◌≡◌, ◌++◌, ℕ, List, length, true, false, Option, Some};
ghost use Rattle.exercise_model.specs.Entry.{Entry};
ghost use Rattle.exercise_model.specs.History.{past, log_at};
ghost use Rattle.exercise_model.specs.Run.{Explains};
ghost use Rattle.exercise_model.specs.Setting.{SettingData, is_open};
ghost use Rattle.exercise_recording.specs.Writer.{WriterState};
ghost use Rattle.siman_application.specs.OwnLog.{AreOneOrder};
ghost use Rattle.siman_stations.specs.declared.turn.Node.{Node};
ghost use Rattle.siman_lines.specs.KeptAtLine.{IsWritten, IsKept};
ghost use Rattle.siman_lines.specs.LineDatagrams.{Datagrams};
ghost use Rattle.siman_operator.specs.Deeds.{PostState, GoesOn};
ghost use Rattle.siman_operator.specs.Explained.{IsStarted, Leaves, HearsOwnSent, GoOn};

use exercise_recording::text_and_reading_agree;

/// A post with its recorder, from the start of its recording on, after every list of lines, with
/// faults too: some entries are written whole, and the invariant of the station holds, so each
/// datagram that its link was passed is that of an entry which is written whole. The rows of some
/// entries that are written whole are printed, all of them, or a prefix if a row could not be
/// printed.
pub fn posts_keep_their_recordings<L: Drop>()
    // The effect of a list of lines is that of each of them, one after the other
    // ([`Post::take_line`](crate::Post::take_line)),
    ensures lines { (a : PostState L) (bs : List (PostState L)) (c : PostState L) → GoOn a bs c → GoesOn a c }
    // and it has this result.
    ensures leaves { (before start : Option (List ℕ)) (w : SettingData) (old new : PostState L) → IsStarted before start w old → GoesOn old new → Leaves before start w new }
    // The entries of the invariant and the printed ones are equal, if it is known what the recorder
    // wrote and no write failed: a text has one meaning.
    ensures one { (before : List ℕ) (w : WriterState) (es fs : List Entry) → w.spent ≡ false → IsWritten (Some before) w es → IsWritten (Some before) w fs → es ≡ fs }
{
    text_and_reading_agree();
}

/// The recording of one station is explained, whatever its peers and the network do. Of an open
/// recording with this one station, each prefix of the entries is a run in the order of the file,
/// if no received datagram in it names the station as its originator except what it had sent
/// before. This requires that no site and application used one request identifier for two orders,
/// as far as the station received them.
pub fn own_recordings_are_explained()
    ensures { (before : Option (List ℕ)) (n : Node) (w : WriterState) (handed : Option Datagrams) (front back : List Entry)
        → is_open w.setting.form ≡ true → length w.setting.stations ≡ 1 → IsWritten before w (front ++ back) → IsKept 0 n w (front ++ back) handed
        → AreOneOrder n.application.outfit (log_at 0 (past (front ++ back))) → HearsOwnSent w.setting (past front)
        → Explains (record { setting = w.setting; entries = front }) (past front) }
{}
