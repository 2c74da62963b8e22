//! What the recording of a station says of the packets of a capture.

ghost use Rattle.std.specs.Prelude.{◌≡◌, ◌++◌, ℕ, [], Ok};
ghost use Rattle.exercise_model.specs.Station.{StationData};
ghost use Rattle.exercise_recording.specs.Text.{end_text, recording_text};
ghost use Rattle.packet_captures.specs.Capture.{PlainCapture};
ghost use Rattle.exercise_recording.specs.declared.captures.packet_rule.PacketRule.{PacketRule};
ghost use Rattle.exercise_recording.specs.Captures.Entries.{entries_from, recording_with};
ghost use Rattle.exercise_recording.specs.Captures.Import.{head_of};
ghost use Rattle.exercise_recording.specs.Captures.Log.{LogState, log_of};

/// Law: every kept packet is an entry, and every entry is of a kept packet. What is written of a
/// capture is the text of the recording whose entries are those of its packets, in their order.
pub fn kept_packets_are_entries()
    ensures { (rule : PacketRule) (room : ℕ) (station : StationData) (c : PlainCapture) (s : LogState) → log_of rule room (head_of rule station) c ≡ Ok s
        → s.written.text ++ end_text s.written.records ≡ recording_text (recording_with rule.exercise station (entries_from rule [] c.packets)) }
{}
