//! Laws of exported captures: what is written is read back. They are about the definitions alone.

ghost use Rattle.std.specs.Prelude.{◌≡◌, ◌≤◌, ◌<◌, ℕ, List, Option, Some, None, length};
ghost use Rattle.std.specs.List.{AllByRecursion};
ghost use Rattle.dis_records.specs.declared.address.SiteApplication.{SiteApplication};
ghost use Rattle.dis_records.specs.declared.header.TheConstants.{LARGEST_DATAGRAM};
ghost use Rattle.exercise_model.specs.Recording.{PlainRecording, IsRecording};
ghost use Rattle.exercise_model.specs.Setting.{station_in};
ghost use Rattle.exercise_model.specs.Station.{StationData};
ghost use Rattle.packet_captures.specs.declared.link.Link.TheVariants.{Raw4};
ghost use Rattle.packet_captures.specs.Capture.{capture_of};
ghost use Rattle.packet_captures.specs.Frame.{contents};
ghost use Rattle.exercise_recording.specs.declared.captures.packet_rule.PacketRule.{PacketRule};
ghost use Rattle.exercise_recording.specs.Captures.Blocks.{name_text};
ghost use Rattle.exercise_recording.specs.Captures.Datagram.{internet_text};
ghost use Rattle.exercise_recording.specs.Captures.Export.{exported_text};
ghost use Rattle.exercise_recording.specs.Captures.LogBack.{ComesBack, HasBytes, IsRuleFor};
ghost use Rattle.exercise_recording.specs.Captures.ReadBack.{FitsAddress, carried_datagram, exported_capture};

/// What [`export`](crate::export) writes is read back. The capture that is in its file has, in
/// order, the packets of the entries that were sent and received, each whole, with the interface of
/// its station, its stamp and its direction; it ends whole, and no packet was lost. The interface of
/// a name may be asked for: then the packets of that station are wanted (`packets`). And each packet
/// carries the datagram of its entry, whole, in UDP from and to port 3000, between the addresses
/// that it was given (`datagrams`).
pub fn exports_are_read_back()
    ensures packets { (name : Option (List ℕ)) (r : PlainRecording) → IsRecording r → capture_of name (exported_text r) ≡ exported_capture name r }
    ensures datagrams { (source target : SiteApplication) (b : List ℕ) → FitsAddress source → FitsAddress target → length b ≤ LARGEST_DATAGRAM
        → contents Raw4 (length (internet_text source target b)) (internet_text source target b) ≡ carried_datagram source target b }
{}

/// The log of a station comes back from the capture that [`export`](crate::export) writes of its
/// recording. [`import_log`](crate::import_log) is asked for the interface with the name of the
/// station (`named`), or for none where there is one station (`alone`), with the IPv4 address that
/// stands for the station's, port 3000, and no word about other stations on its host. What it
/// makes has all that the station sent and received of Simulation Management in the exercise,
/// in order, with its stamps, and nothing else (`ComesBack`); no packet was lost. Where head and
/// entries have room, it makes it. States told have no packet, and so do not come back.
pub fn exported_logs_come_back()
    ensures named { (r : PlainRecording) (s room : ℕ) (rule : PacketRule) (station : StationData) → IsRecording r → AllByRecursion HasBytes r.entries
        → s < length r.setting.stations → IsRuleFor (station_in r.setting s).address rule
        → ComesBack rule room station s r (capture_of (Some (name_text (station_in r.setting s).address)) (exported_text r)) }
    ensures alone { (r : PlainRecording) (room : ℕ) (rule : PacketRule) (station : StationData) → IsRecording r → AllByRecursion HasBytes r.entries
        → length r.setting.stations ≡ 1 → IsRuleFor (station_in r.setting 0).address rule
        → ComesBack rule room station 0 r (capture_of None (exported_text r)) }
{}
