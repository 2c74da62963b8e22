//! Packet captures: their files, pcap and pcapng, packet after packet as they come, and what a packet
//! carries, as far as the bytes that the capture kept say it: a UDP datagram over IPv4 or IPv6, a
//! fragment of one, or nothing that is read. It knows nothing of what is in a datagram, and reads no
//! checksum.
//!
//! A caller may use the contract of [`Capture`], whose value in contracts is what is still to be
//! read, over the definitions of the two formats (`specs/Capture.antt`, over `Pcap.antt` and
//! `Pcapng.antt`); of [`contents`], which says what a frame carries ([`Carried`]), over those of the
//! links and of both IPs (`specs/Frame.antt`); and of [`Assembly`], which puts fragments together
//! (`specs/Assembly.antt`), so that [`datagram_of`] reads the whole. Each answer is a function of the
//! bytes. The laws say that files are read as they are spelled ([`pcap_files_are_read`],
//! [`blocks_are_read`]), that a cut frame says nothing that the whole one does not say
//! ([`cut_frames_say_what_is_so`]), and that fragments may come in any order
//! ([`fragments_may_come_in_any_order`]).
//!
//! Memory is taken for the buffer of [`Capture`], for what the interfaces of a section are, and for
//! the fragments that are held; it does not grow with the file.
#![tactic(auto)]

mod assembly;
mod block;
mod byte_order;
mod capture;
mod capture_fault;
mod carried;
mod cooked;
mod ethernet;
mod form;
mod fragment;
mod front;
mod host;
mod interface;
mod internet;
mod internet_4;
mod internet_6;
mod laws;
mod limits;
mod link;
mod loopback;
mod network_order;
mod options;
mod packet;
mod pcap;
mod pcapng;
mod pending;
mod reading;
mod stamp;
mod state;
mod user_datagram;
mod window;

pub use assembly::{
    Assembly, fragments_may_come_in_any_order, overlaps_are_found, what_is_held_is_held_well,
    wholes_are_their_parts,
};
pub use byte_order::ByteOrder;
pub use capture::Capture;
pub use capture_fault::{CaptureFault, FormatFault};
pub use carried::{
    Addresses, Carried, contents, cut_frames_say_what_is_so, whole_frames_carry_wholes,
};
pub use form::Form;
pub use fragment::{Fragment, Key};
pub use host::Host;
pub use interface::Interface;
pub use laws::{blocks_are_read, pcap_files_are_read};
pub use limits::LARGEST_BLOCK;
pub use link::Link;
pub use packet::{Direction, PacketHead};
pub use pcap::PcapHead;
pub use user_datagram::{Datagram, datagram_of};
