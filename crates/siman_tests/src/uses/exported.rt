//! Exported captures.

ghost use Rattle.std.specs.Prelude.{◌≡◌, ◌<◌, ℕ, List, None, Ok, Option, Some, length};
ghost use Rattle.std.specs.List.{AllByRecursion};
ghost use Rattle.exercise_recording.specs.declared.captures.packet_rule.PacketRule.{PacketRule};
ghost use Rattle.exercise_recording.specs.Captures.Blocks.{name_text};
ghost use Rattle.exercise_recording.specs.Captures.Export.{exported_text};
ghost use Rattle.exercise_recording.specs.Captures.Import.{ImportData, import_of};
ghost use Rattle.exercise_recording.specs.Captures.LogBack.{HasBytes, IsRuleFor};
ghost use Rattle.exercise_model.specs.Recording.{IsRecording, PlainRecording};
ghost use Rattle.exercise_model.specs.Setting.{station_in};
ghost use Rattle.exercise_model.specs.Station.{StationData};
ghost use Rattle.packet_captures.specs.Capture.{capture_of};

use exercise_recording::{exported_logs_come_back, exports_are_read_back};

/// Who reads the capture of a recording meets no fault, whichever interface is asked for.
pub fn ends_whole()
    ensures { (name : Option (List ℕ)) (r : PlainRecording) → IsRecording r → (capture_of name (exported_text r)).fault ≡ None }
{
    exports_are_read_back();
}

/// Who imports the log of a station from the capture of its recording is told of no lost packet.
pub fn loses_no_packet()
    ensures { (r : PlainRecording) (s room : ℕ) (rule : PacketRule) (station : StationData) (i : ImportData) → IsRecording r → AllByRecursion HasBytes r.entries
        → s < length r.setting.stations → IsRuleFor (station_in r.setting s).address rule
        → import_of rule room station (capture_of (Some (name_text (station_in r.setting s).address)) (exported_text r)) ≡ Ok i → i.dropped ≡ 0 }
{
    exported_logs_come_back();
}
