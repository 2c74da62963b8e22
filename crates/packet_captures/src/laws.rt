//! Laws of the formats: a file that is written by the page is read as it was written. They are about
//! the definitions alone, to which the contracts of [`Capture`](crate::Capture) tie the reader.

ghost use Rattle.std.specs.Prelude.{◌≡◌, ℕ, ◌+◌, ◌%◌, ◌^◌, ◌<◌, List, ◌++◌, None, Bool, Ok, length, take, drop};
ghost use Rattle.std.specs.Int.{w32};
ghost use Rattle.std.specs.List.{AllByRecursion};
ghost use Rattle.packet_captures.specs.declared.byte_order.ByteOrder.{ByteOrder};
ghost use Rattle.packet_captures.specs.declared.pcap.PcapHead.{PcapHead};
ghost use Rattle.packet_captures.specs.Capture.{capture_of};
ghost use Rattle.packet_captures.specs.Numbers.{number_at};
ghost use Rattle.packet_captures.specs.Pcapng.{sized_at};
ghost use Rattle.packet_captures.specs.Spelling.{FitsRecord, PlainRecord, block_text, pcap_text, records_capture};

/// A file of pcap, in any of its four forms, holds the packets of its records, and ends whole.
pub fn pcap_files_are_read()
    ensures { (p : PcapHead) (snapshot : ℕ) (rs : List PlainRecord) → p.link < 2 ^ 16 → AllByRecursion FitsRecord rs
        → capture_of None (pcap_text p snapshot rs) ≡ records_capture p 24 rs }
{}

/// A block of pcapng is taken as it is spelled, whatever follows it: its kind, its size, and no byte
/// of another.
pub fn blocks_are_read()
    ensures { (order : ByteOrder) (head : Bool) (at kind : ℕ) (body rest : List ℕ) → kind < 2 ^ 32 → 12 + length body < 2 ^ 32 → length body % 4 ≡ 0
        → (number_at order w32 0 (take 8 (block_text order kind body ++ rest)) ≡ kind)
        × (sized_at order head at (block_text order kind body ++ rest) ≡ Ok (12 + length body))
        × (take (12 + length body) (block_text order kind body ++ rest) ≡ block_text order kind body)
        × (drop (12 + length body) (block_text order kind body ++ rest) ≡ rest) }
{}
