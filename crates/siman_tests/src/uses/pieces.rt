//! Pieces of one exercise, recorded at different places and joined.

ghost use Rattle.std.specs.Prelude.{Some, [], length, slice_get, ℕ, ◌<◌, ◌↔◌, ◌∷◌, ◌≡◌};
ghost use Rattle.exercise_model.specs.History.{History};
ghost use Rattle.exercise_model.specs.Part.{read_open};
ghost use Rattle.exercise_model.specs.Recording.{IsRecording, PlainRecording};
ghost use Rattle.exercise_model.specs.Run.{Explains};
ghost use Rattle.exercise_model.specs.declared.form.Form.TheVariants.{First};
ghost use Rattle.exercise_recording.specs.Joining.{ArePieces, entries_at, index_among, joined, joined_parts, stations_of};
ghost use Rattle.exercise_recording.specs.JoiningOrder.{AreSamePieces};
ghost use Rattle.exercise_recording.specs.JoiningParts.{AreRecordings, AreParts, AreSameParts, AreWholeLogs, AreCutFrom};
ghost use Rattle.exercise_recording.specs.Totals.{entry_total};
ghost use Rattle.exercise_recording.specs.declared.joined.FormWord.{FormWord};
ghost use Rattle.exercise_recording.specs.declared.joined.FormWord.TheVariants.{Open, Unsaid};

use exercise_model::{Recording, conversion_keeps_runs};
use exercise_recording::{
    cut_logs_go_on, logs_are_kept, one_piece_is_converted, order_among_stations_says_nothing,
    order_of_pieces_says_nothing, parts_are_kept, pieces_are_explained, whole_logs_are_explained,
};

/// It does not matter which piece is joined first: the runs that explain one arrangement of the
/// pieces are those that explain any other.
pub fn come_in_any_order(pieces: &[Recording], again: &[Recording])
    ensures { (word : FormWord) (h : History) → ArePieces pieces.now → ArePieces again.now → AreSamePieces pieces.now again.now
        → Explains (joined word pieces.now) h ↔ Explains (joined word again.now) h }
{
    order_of_pieces_says_nothing();
}

/// Joining loses no entry: the joined recording has as many entries as all pieces together
/// (`count`), and each station has as many there as in its piece (`logs`).
pub fn lose_no_entry(pieces: &[Recording])
    ensures count { (word : FormWord) → length (joined word pieces.now).entries ≡ entry_total pieces.now }
    ensures logs { (word : FormWord) (k s : ℕ) (r : PlainRecording) → let i = index_among (stations_of pieces.now) r.setting s in
        ArePieces pieces.now → slice_get pieces.now k ≡ Some r → s < length r.setting.stations
        → length (entries_at i (joined word pieces.now).entries) ≡ length (entries_at s r.entries) }
{
    logs_are_kept();
}

/// Parts of logs lose no entry either (`count`), and where each station is in one of them, it does
/// not matter whether they are joined as parts (`same`).
pub fn may_be_parts(parts: &[Recording])
    ensures count { (word : FormWord) → length (joined_parts word parts.now).entries ≡ entry_total parts.now }
    ensures same { (word : FormWord) → ArePieces parts.now → joined_parts word parts.now ≡ joined word parts.now }
{
    parts_are_kept();
}

/// The parts of one station have their order, and it does not matter what of other stations is between
/// them: the runs that explain one arrangement are those that explain any other.
pub fn come_station_by_station(parts: &[Recording], again: &[Recording])
    ensures { (word : FormWord) (h : History) → AreParts parts.now → AreParts again.now → AreSameParts parts.now again.now
        → Explains (joined_parts word parts.now) h ↔ Explains (joined_parts word again.now) h }
{
    order_among_stations_says_nothing();
}

/// A log may be cut anywhere: the runs that explain it, read as open, are those that explain its
/// parts together.
pub fn may_be_cut(log: &Recording, first: &Recording, later: &[Recording])
    ensures { (h : History) → IsRecording log.now → AreRecordings (first.now ∷ later.now) → AreCutFrom log.now first.now later.now
        → Explains (read_open log.now) h ↔ Explains (joined_parts Open (first.now ∷ later.now)) h }
{
    cut_logs_go_on();
}

/// A contradiction in a whole log is final: if no run explains all parts of some stations together,
/// read as open, then none explains them with the parts of any others.
pub fn are_blamed_log_by_log(parts: &[Recording], log: &[Recording])
    ensures { (word other : FormWord) → AreParts log.now → AreParts parts.now → AreWholeLogs log.now parts.now → IsRecording (joined_parts word log.now)
        → ((g : History) → Explains (read_open (joined_parts word log.now)) g → ⊥) → (h : History) → Explains (joined_parts other parts.now) h → ⊥ }
{
    whole_logs_are_explained();
}

/// Joining a single piece changes nothing: exactly the runs that explain the piece explain the
/// result.
pub fn may_be_one(piece: &Recording)
    ensures { (h : History) → IsRecording piece.now → piece.now.setting.form ≡ First → Explains piece.now h ↔ Explains (joined Unsaid (piece.now ∷ [])) h }
{
    one_piece_is_converted();
    conversion_keeps_runs();
}

/// A contradiction in one piece is final: if no run explains that piece, joined alone as open, then
/// none explains it joined with any others.
pub fn are_blamed_one_by_one(pieces: &[Recording])
    ensures { (word : FormWord) (k : ℕ) (r : PlainRecording) → ArePieces pieces.now → slice_get pieces.now k ≡ Some r → IsRecording r
        → ((g : History) → Explains (joined Open (r ∷ [])) g → ⊥) → (h : History) → Explains (joined word pieces.now) h → ⊥ }
{
    pieces_are_explained();
}
