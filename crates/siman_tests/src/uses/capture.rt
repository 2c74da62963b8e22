//! Files of captures.

ghost use Rattle.std.specs.Prelude.{◌≡◌, ℕ, ◌+◌, ◌%◌, ◌^◌, ◌<◌, List, ◌++◌, None, Ok, length, drop};
ghost use Rattle.std.specs.List.{AllByRecursion};
ghost use Rattle.packet_captures.specs.declared.byte_order.ByteOrder.{ByteOrder};
ghost use Rattle.packet_captures.specs.declared.pcap.PcapHead.{PcapHead};
ghost use Rattle.packet_captures.specs.Capture.{capture_of};
ghost use Rattle.packet_captures.specs.Spelling.{FitsRecord, PlainRecord, block_text, packets_of, pcap_text};

use packet_captures::{blocks_are_read, pcap_files_are_read};

/// Who writes records behind a head of pcap has each of them read as a packet, and no other.
pub fn has_a_packet_for_each_record()
    ensures { (p : PcapHead) (snapshot : ℕ) (rs : List PlainRecord) → p.link < 2 ^ 16 → AllByRecursion FitsRecord rs → (capture_of None (pcap_text p snapshot rs)).packets ≡ packets_of p 24 rs }
{
    pcap_files_are_read();
}

/// Who passes over a block by its length stands at the next one, whatever is in it.
pub fn is_passed_over_by_its_length()
    ensures { (order : ByteOrder) (kind : ℕ) (body rest : List ℕ) → kind < 2 ^ 32 → 12 + length body < 2 ^ 32 → length body % 4 ≡ 0 → drop (12 + length body) (block_text order kind body ++ rest) ≡ rest }
{
    blocks_are_read();
}
