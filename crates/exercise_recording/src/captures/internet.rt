//! Datagrams in UDP in IPv4.

ghost use Rattle.std.specs.Prelude.{◌≡◌, ◌≤◌, ◌+◌, length, sum};
ghost use Rattle.dis_records.specs.declared.header.TheConstants.{LARGEST_DATAGRAM};
ghost use Rattle.std.specs.Int.{w16};
ghost use Rattle.std.specs.Prelude.{sum};
ghost use Rattle.packet_captures.specs.NetworkOrder.{number_at};
ghost use Rattle.exercise_recording.specs.Captures.Checksum.{checksum_of};
ghost use Rattle.exercise_recording.specs.Captures.Datagram.{header_words, datagram_headers, source_of, target_of};

use crate::captures::checksum::checksum;
use dis_records::SiteApplication;

/// Number of bytes of an IPv4 and a UDP header.
pub(crate) const HEADERS_SIZE: usize = 28;

/// Port from which and to which datagrams of an exercise go.
const PORT: u16 = 3000;

/// Version 4, a header of five words of 32 bits, and type of service 0.
const VERSION: u16 = 0x4500;

/// Time to live 64, and the protocol UDP.
const PROTOCOL: u16 = 0x4011;

/// Nobody: the source of a datagram that is too short to say its own.
pub(crate) const NOBODY: SiteApplication = SiteApplication {
    site: 0,
    application: 0,
};

/// Everybody: the target of a datagram that is too short to say its own.
pub(crate) const EVERYBODY: SiteApplication = SiteApplication {
    site: 0xFFFF,
    application: 0xFFFF,
};

/// Checksum of an IPv4 header of this total length.
fn header_checksum(total: u16, source: SiteApplication, target: SiteApplication) -> u16
    ensures { result ≡ checksum_of (sum (header_words total 0 source target)) }
{
    let own = u32::from(VERSION) + u32::from(total) + u32::from(PROTOCOL);
    let from = u32::from(source.site) + u32::from(source.application);
    let to = u32::from(target.site) + u32::from(target.application);
    checksum(own + from + to)
}

/// Headers of IPv4 and UDP, 28 bytes, for a datagram of so many bytes, at most 8192.
pub(crate) fn headers(size: u16, source: SiteApplication, target: SiteApplication) -> [u8; 28]
    requires { size ≤ LARGEST_DATAGRAM }
    ensures { result ≡ datagram_headers size source target }
{
    let [v0, v1] = VERSION.to_be_bytes();
    let [t0, t1] = (28 + size).to_be_bytes();
    let [p0, p1] = PROTOCOL.to_be_bytes();
    let [c0, c1] = header_checksum(28 + size, source, target).to_be_bytes();
    let [s0, s1] = source.site.to_be_bytes();
    let [s2, s3] = source.application.to_be_bytes();
    let [d0, d1] = target.site.to_be_bytes();
    let [d2, d3] = target.application.to_be_bytes();
    let [u0, u1] = PORT.to_be_bytes();
    let [l0, l1] = (8 + size).to_be_bytes();
    [
        v0, v1, t0, t1, 0, 0, 0, 0, p0, p1, c0, c1, s0, s1, s2, s3, d0, d1, d2, d3, u0, u1, u0, u1,
        l0, l1, 0, 0,
    ]
}

/// Number in the two bytes at an offset.
#[tactic(auto, unfolding(packet_captures::specs::NetworkOrder::number_at))]
fn u16_at(bytes: &[u8], at: usize) -> u16
    requires { at + 2 ≤ length bytes.now }
    ensures { result ≡ number_at w16 at bytes.now }
{
    u16::from_be_bytes([bytes[at], bytes[at + 1]])
}

/// Originating address of a datagram; nobody, if it has less than 24 bytes.
pub(crate) fn source_of(bytes: &[u8]) -> SiteApplication
    ensures { result ≡ source_of bytes.now }
{
    if bytes.len() < 24 {
        return NOBODY;
    }
    SiteApplication {
        site: u16_at(bytes, 12),
        application: u16_at(bytes, 14),
    }
}

/// Receiving address of a datagram; everybody, if it has less than 24 bytes.
pub(crate) fn target_of(bytes: &[u8]) -> SiteApplication
    ensures { result ≡ target_of bytes.now }
{
    if bytes.len() < 24 {
        return EVERYBODY;
    }
    SiteApplication {
        site: u16_at(bytes, 18),
        application: u16_at(bytes, 20),
    }
}
