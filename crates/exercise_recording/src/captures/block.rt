//! Blocks of pcapng, little-endian.

ghost use Rattle.std.specs.Prelude.{◌≡◌, ◌≤◌, ◌<◌, ◌+◌, ◌-◌, ◌^◌, ◌++◌, ◌∷◌, [], ℕ, List, length, take};
ghost use Rattle.std.specs.Int.{w16, w32};
ghost use Rattle.dis_records.specs.declared.header.TheConstants.{LARGEST_DATAGRAM};
ghost use Rattle.byte_files.specs.Writing.{Writes};
ghost use Rattle.packet_captures.specs.declared.byte_order.ByteOrder.TheVariants.{Little};
ghost use Rattle.packet_captures.specs.Options.{padded};
ghost use Rattle.packet_captures.specs.Spelling.{number_text};
ghost use Rattle.exercise_recording.specs.Captures.Datagram.{datagram_headers, internet_text};
ghost use Rattle.exercise_recording.specs.Captures.Blocks.{padding_text, section_text, name_text, interface_text, packet_text, interface_front, interface_end, packet_front, packet_end};

use crate::captures::internet::{HEADERS_SIZE, headers};
use byte_files::{WriteFailed, put, put_both};
use dis_records::{Address, SiteApplication};
use itoa::Buffer;
use std::io::Write;

/// Section header block: version 1.0, a length that is not said, no options.
pub(crate) const SECTION: [u8; 28] = [
    0x0A, 0x0D, 0x0D, 0x0A, 28, 0, 0, 0, 0x4D, 0x3C, 0x2B, 0x1A, 1, 0, 0, 0, 0xFF, 0xFF, 0xFF,
    0xFF, 0xFF, 0xFF, 0xFF, 0xFF, 28, 0, 0, 0,
];

/// Bytes that pad to a multiple of four.
const ZEROS: [u8; 3] = [0; 3];

/// A length with its padding to a multiple of four bytes.
fn padded(size: usize) -> usize
    requires { size < 2 ^ 32 }
    ensures { result ≡ padded size }
{
    (size + 3) / 4 * 4
}

/// Writes bytes, padded to a multiple of four as behind `before` bytes, a multiple of four, and
/// what follows.
fn put_padded<W: Write>(
    writer: &mut W,
    bytes: &[u8],
    size: usize,
    behind: &[u8],
) -> Result<(), WriteFailed>
    requires { size < 2 ^ 32 }
    ensures { Writes result (W.contents writer.old) (W.contents writer.new) (bytes.now ++ (padding_text size ++ behind.now)) }
{
    put(writer, bytes)?;
    put_both(writer, &ZEROS[..padded(size) - size], behind)
}

/// Front of an interface description block up to the value of its first option, the name: kind,
/// total length, link type, no snapshot length, code and length of the option.
fn interface_front(total: u32, name: u16) -> [u8; 20]
    ensures { result ≡ interface_front total name }
{
    let [t0, t1, t2, t3] = total.to_le_bytes();
    let [n0, n1] = name.to_le_bytes();
    [
        1, 0, 0, 0, t0, t1, t2, t3, 228, 0, 0, 0, 0, 0, 0, 0, 2, 0, n0, n1,
    ]
}

/// End of an interface description block behind the name: the stamps are in microseconds; total
/// length.
fn interface_end(total: u32) -> [u8; 16]
    ensures { result ≡ interface_end total }
{
    let [t0, t1, t2, t3] = total.to_le_bytes();
    [9, 0, 1, 0, 6, 0, 0, 0, 0, 0, 0, 0, t0, t1, t2, t3]
}

/// Writes the interface description block of a station.
pub(crate) fn put_interface<W: Write>(writer: &mut W, address: Address) -> Result<(), WriteFailed>
    ensures { Writes result (W.contents writer.old) (W.contents writer.new) (interface_text address) }
{
    let mut digits = Buffer::new();
    let site = digits.format(address.site()).as_bytes();
    let mut digits = Buffer::new();
    let application = digits.format(address.application()).as_bytes();
    let name = site.len() + 1 + application.len();
    let total = (36 + padded(name)) as u32;
    put_both(writer, &interface_front(total, name as u16), site)?;
    put_both(writer, b":", application)?;
    put_padded(writer, b"", name, &interface_end(total))
}

/// Front of an enhanced packet block up to its bytes: kind, total length, interface, stamp, and
/// twice the number of bytes.
fn packet_front(total: u32, interface: u16, stamp: u64, size: u32) -> [u8; 28]
    ensures { result ≡ packet_front total interface stamp size }
{
    let [t0, t1, t2, t3] = total.to_le_bytes();
    let [i0, i1, i2, i3] = u32::from(interface).to_le_bytes();
    let [u0, u1, u2, u3] = ((stamp / 0x1_0000_0000) as u32).to_le_bytes();
    let [l0, l1, l2, l3] = ((stamp % 0x1_0000_0000) as u32).to_le_bytes();
    let [s0, s1, s2, s3] = size.to_le_bytes();
    [
        6, 0, 0, 0, t0, t1, t2, t3, i0, i1, i2, i3, u0, u1, u2, u3, l0, l1, l2, l3, s0, s1, s2, s3,
        s0, s1, s2, s3,
    ]
}

/// End of an enhanced packet block behind its padded bytes: the direction, and the total length.
fn packet_end(direction: u8, total: u32) -> [u8; 16]
    ensures { result ≡ packet_end direction total }
{
    let [t0, t1, t2, t3] = total.to_le_bytes();
    [2, 0, 4, 0, direction, 0, 0, 0, 0, 0, 0, 0, t0, t1, t2, t3]
}

/// From where a datagram goes to whom.
#[derive(Clone, Copy)]
pub(crate) struct Way {
    pub source: SiteApplication,
    pub target: SiteApplication,
}

/// When an interface saw a packet, and in which direction it went: 1 in, 2 out.
#[derive(Clone, Copy)]
pub(crate) struct Sighting {
    pub interface: u16,
    pub stamp: u64,
    pub direction: u8,
}

/// Writes the enhanced packet block of a datagram in UDP in IPv4.
pub(crate) fn put_packet<W: Write>(
    writer: &mut W,
    seen: Sighting,
    way: Way,
    bytes: &[u8],
) -> Result<(), WriteFailed>
    requires { length bytes.now ≤ LARGEST_DATAGRAM }
    ensures { Writes result (W.contents writer.old) (W.contents writer.new) (packet_text seen.interface seen.stamp seen.direction (internet_text way.source way.target bytes.now)) }
{
    let size = HEADERS_SIZE + bytes.len();
    let total = (44 + padded(size)) as u32;
    let front = packet_front(total, seen.interface, seen.stamp, size as u32);
    let headers = headers(bytes.len() as u16, way.source, way.target);
    put_both(writer, &front, &headers)?;
    put_padded(writer, bytes, size, &packet_end(seen.direction, total))
}
