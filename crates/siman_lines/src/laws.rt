//! Laws of the calls of stations over one recorder. Each function is a theorem: it has no body, and
//! its contract is the law.

ghost use Rattle.std.specs.Prelude.{◌≡◌, ◌<◌, ◌++◌, [], ℕ, List, length, true, Option, Some};
ghost use Rattle.std.specs.List.{AllByRecursion};
ghost use Rattle.exercise_model.specs.Entry.{Entry};
ghost use Rattle.exercise_model.specs.History.{past, log_at, station_of};
ghost use Rattle.exercise_model.specs.Run.{IsRun};
ghost use Rattle.exercise_model.specs.Setting.{SettingData, IsSetting, station_in};
ghost use Rattle.exercise_recording.specs.Writer.{WriterState, Starts};
ghost use Rattle.siman_application.specs.OwnLog.{AreOneOrder};
ghost use Rattle.siman_stations.specs.declared.turn.Node.{Node};
ghost use Rattle.siman_stations.specs.Deeds.{DeedsHaveNoCause, ReceivesSent, RequestsAreOrdered};
ghost use Rattle.siman_lines.specs.LineDatagrams.{Datagrams};
ghost use Rattle.siman_lines.specs.KeptAtLine.{IsWritten, IsKept};
ghost use Rattle.siman_lines.specs.declared.station_at_line.StationAtLine.{StationAtLine};
ghost use Rattle.siman_lines.specs.AtLines.{Telling, AtLines, Follows, AreFresh, HasRecorded};
ghost use Rattle.siman_lines.specs.Calls.{IsFresh, Stations, HasStation, AreAll, AreBegun, AreCalls, AreKept, IsBeginningOf, ComesOfCalls};

/// The invariant of stations over one recorder holds in their initial state, and after every list
/// of calls of [`serve_stamped`](crate::serve_stamped), [`issue_stamped`](crate::issue_stamped),
/// [`nudge_stamped`](crate::nudge_stamped) and [`tell`](crate::tell), at any moments, with faults
/// too, and so of [`serve`](crate::serve), [`issue`](crate::issue) and [`nudge`](crate::nudge). The
/// clause `keeps` of these calls is what the law requires of a call.
pub fn calls_are_kept()
    // A recorder that has begun has written the head of a recording,
    ensures started { (before : Option (List ℕ)) (w : SettingData) (recorder : WriterState) → IsSetting w → Starts before w recorder → IsWritten before recorder [] }
    // and the invariant holds of a station in its initial state.
    ensures fresh { (s : ℕ) (n : Node) (recorder : WriterState) (handed : Option Datagrams) → IsFresh s n recorder.setting handed → IsKept s n recorder [] handed }
    // Calls at such stations, in any order, add entries and preserve the invariant.
    ensures calls { (before : Option (List ℕ)) (stations calls : List ℕ) (old new : Stations) (es : List Entry)
        → AllByRecursion (λ s. HasStation s stations) calls → AreKept before stations old es
        → AreCalls calls old new → (more : List Entry) × AreKept before stations new (es ++ more) }
{}

/// What a recorder has written while the invariant holds, and what its entries say.
pub fn what_is_kept_stands()
    // It is a prefix of the text of a recording.
    ensures text { (before : List ℕ) (recorder : WriterState) (es : List Entry) → IsWritten (Some before) recorder es → IsBeginningOf before recorder es }
    // Each request that the station sent is one of its manager's orders.
    ensures requests { (s : ℕ) (n : Node) (recorder : WriterState) (es : List Entry) (handed : Option Datagrams) → IsKept s n recorder es handed
        → RequestsAreOrdered recorder.setting.exercise n.manager (log_at s (past es)) }
    // If no site and application used one request identifier for two orders, nothing that the
    // station sent or told has a cause against it,
    ensures deeds { (s : ℕ) (n : Node) (recorder : WriterState) (es : List Entry) (handed : Option Datagrams) → IsKept s n recorder es handed
        → AreOneOrder n.application.outfit (log_at s (past es)) → DeedsHaveNoCause recorder.setting.exercise (station_in recorder.setting s) (log_at s (past es)) }
    // and if, besides, each received datagram that is not other was sent before, the entries are a
    // run in the order of the file.
    ensures run { (w : SettingData) (es : List Entry) → ((s : ℕ) → s < length w.stations → DeedsHaveNoCause w.exercise (station_in w s) (log_at s (past es)))
        → AllByRecursion (λ v. station_of v < length w.stations) (past es) → ReceivesSent w (past es) → IsRun w (past es) }
    // If the invariant holds of all stations of the recording, and each received datagram that is
    // not other was sent before, no site and application used one request identifier for two
    // orders, since each manager's identifiers are distinct,
    ensures one_order { (before : Option (List ℕ)) (stations : List ℕ) (x : Stations) (es : List Entry) → AreAll x.recorder.setting stations → AreKept before stations x es
        → ReceivesSent x.recorder.setting (past es) → (s : ℕ) → s < length x.recorder.setting.stations → AreOneOrder (x.node s).application.outfit (log_at s (past es)) }
    // and the entries are a run in the order of the file.
    ensures own_run { (before : Option (List ℕ)) (stations : List ℕ) (x : Stations) (es : List Entry) → AreAll x.recorder.setting stations → AreKept before stations x es
        → ReceivesSent x.recorder.setting (past es) → IsRun x.recorder.setting (past es) }
{}

/// All stations of a recording over one recorder, from its start on, after every list of calls of
/// [`serve_stamped`](crate::serve_stamped), [`issue_stamped`](crate::issue_stamped),
/// [`nudge_stamped`](crate::nudge_stamped) and [`tell`](crate::tell), at any moments, with faults
/// too, and so of [`serve`](crate::serve), [`issue`](crate::issue) and [`nudge`](crate::nudge): if
/// each received datagram that is not other was sent before, the entries that are written whole are
/// a run in the order of the file.
pub fn calls_make_a_run()
    ensures { (before : Option (List ℕ)) (w : SettingData) (stations calls : List ℕ) (old new : Stations) → AreBegun before w stations old
        → AllByRecursion (λ s. HasStation s stations) calls → AreCalls calls old new → ComesOfCalls before w stations new }
{}

/// The recording of stations at links of any kind, from its start on, initially and after any calls
/// at them, as of [`serve_rounds`](crate::serve_rounds), with faults too: some entries are written
/// whole, and if each received datagram that is not other was sent before, they are a run in the
/// order of the file.
pub fn lines_make_a_run<L: Drop>()
    ensures { (told : Telling L) (before : Option (List ℕ)) (w : SettingData) (recorder : WriterState) (ps : List (StationAtLine L)) (new : AtLines L)
        → AreFresh told w ps → Starts before w recorder → (let old : AtLines L = record { stations = ps; recorder = recorder } in Follows told old new)
        → (es : List Entry) × HasRecorded before w new.recorder es }
{}
