//! Recordings that are made of captures.

ghost use Rattle.std.specs.Prelude.{◌≡◌, ◌++◌, ℕ, Ok};
ghost use Rattle.exercise_recording.specs.Captures.Import.{head_of};
ghost use Rattle.exercise_recording.specs.Captures.Log.{LogState, log_of};
ghost use Rattle.exercise_recording.specs.declared.captures.packet_rule.PacketRule.{PacketRule};
ghost use Rattle.exercise_model.specs.Station.{StationData};
ghost use Rattle.exercise_recording.specs.Text.{end_text};
ghost use Rattle.packet_captures.specs.Capture.{PlainCapture};

use exercise_recording::kept_packets_are_entries;

/// Captures with the same packets give the same recording, whatever else they say: how they end,
/// and how many packets were lost.
pub fn is_of_the_packets_alone()
    ensures { (rule : PacketRule) (room : ℕ) (station : StationData) (c d : PlainCapture) (s t : LogState) → c.packets ≡ d.packets
        → log_of rule room (head_of rule station) c ≡ Ok s → log_of rule room (head_of rule station) d ≡ Ok t
        → s.written.text ++ end_text s.written.records ≡ t.written.text ++ end_text t.written.records }
{
    kept_packets_are_entries();
}
