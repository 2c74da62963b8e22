//! Captures of an exercise, in and out: the log of a station out of a capture of its host, and a
//! recording as a file of pcapng, which Wireshark and tshark show as DIS. It opens no file, and never
//! decides about a recording.
//!
//! [`import_log`] reads a capture to its end, and makes the open recording of one station of its
//! packets, by a [`PacketRule`]: what a packet is to the station is a function of its bytes, of the
//! rule and of the fragments before it (`specs/Captures/Kind.antt`, `specs/Captures/Log.antt`). Each kept packet is an
//! entry, and each entry is of a kept packet ([`kept_packets_are_entries`]); how many packets were
//! what is counted ([`PacketCounts`]).
//!
//! [`export`] writes the file of a recording, whose text is a function of the recording
//! (`specs/Captures/Export.antt`, over the blocks of `specs/Captures/Blocks.antt` and the datagrams of
//! `specs/Captures/Datagram.antt`): an interface for each station, and a packet for each datagram that one
//! sent or received. [`put_capture_head`] and [`put_entry_packet`] write its parts, for callers that
//! assemble it. What is written is read back as it was ([`exports_are_read_back`]), the log of each
//! station is imported of it again ([`exported_logs_come_back`]), and the checksum of each IPv4
//! header is right ([`headers_add_up`]).
//!
//! Only [`import_log`] takes memory: for the recording, and for the fragments that are held. It does
//! not grow with what is passed over.

mod block;
mod checksum;
mod entry_texts;
mod exported_capture;
mod import;
mod import_fault;
mod import_laws;
mod internet;
mod judgement;
mod laws;
mod packet_counts;
mod packet_kind;
mod packet_rule;
mod station_log;

pub use checksum::headers_add_up;
pub use exported_capture::{export, put_capture_head, put_entry_packet, told_count};
pub use import::{Import, import_log};
pub use import_fault::ImportFault;
pub use import_laws::kept_packets_are_entries;
pub use laws::{exported_logs_come_back, exports_are_read_back};
pub use packet_counts::PacketCounts;
pub use packet_rule::PacketRule;
