//! Header of a PDU, at the front of each datagram.

ghost use Rattle.std.specs.Prelude.{◌≡◌, ◌↔◌, ◌⊎◌, ℕ, nat_le, length, not, IfOk, IfErr, IfSome, IsNone, IsTrue, Some, None, Ok};
ghost use Rattle.dis_records.specs.Layout.{Fit, text};
ghost use Rattle.dis_records.specs.declared.header.Version.{Version};
ghost use Rattle.dis_records.specs.Header.{IsHeader, header_layout, header_at, header_refusal, version_row, version_code, is_version, has_status, carried_status};

use crate::field::{u8_at, u16_at, u32_at};
use crate::kind::Kind;
use std::error::Error;
use std::fmt;

/// Size of a header in bytes.
pub const HEADER_SIZE: usize = 12;

/// Size in bytes of the largest datagram (profile).
pub const LARGEST_DATAGRAM: usize = 8192;

/// Protocol family Simulation Management.
const FAMILY: u8 = 5;

/// A supported protocol version.
#[derive(Clone, Copy, PartialEq, Eq)]
pub enum Version {
    /// IEEE 1278.1A-1998.
    V6,
    /// IEEE 1278.1-2012.
    V7,
}

/// Properties of the headers of a protocol version.
#[derive(Clone, Copy)]
pub struct VersionRow {
    /// Version number in the header.
    pub number: u8,
    pub version: Version,
    /// Whether byte 10 of the header is the PDU status. Otherwise it is padding, as byte 11 is in
    /// every version.
    pub has_status: bool,
}

/// Supported protocol versions, a row each. A datagram of any other is refused.
pub const VERSIONS: [VersionRow; 2] = [
    VersionRow {
        number: 6,
        version: Version::V6,
        has_status: false,
    },
    VersionRow {
        number: 7,
        version: Version::V7,
        has_status: true,
    },
];

impl Version {
    fn row(self) -> VersionRow
        ensures { result ≡ version_row self }
    {
        VERSIONS[self as usize]
    }

    /// Version number in the header.
    pub fn code(self) -> u8
        ensures { result ≡ version_code self }
    {
        self.row().number
    }

    /// Version with this number, if it is supported.
    pub fn from_code(code: u8) -> Option<Version>
        ensures version { IfSome result (λ version. version_code version ≡ code) }
        ensures none { IsNone result ↔ IsTrue (not (is_version code)) }
    {
        for row in VERSIONS {
            if row.number == code {
                return Some(row.version);
            }
        }
        None
    }

    /// PDU status that a header of this version carries: `status`, or 0 if it carries none.
    pub fn carried_status(self, status: u8) -> u8
        ensures { result ≡ carried_status self status }
    {
        if self.row().has_status { status } else { 0 }
    }
}

/// Laws of the table of versions: the supported ones are 6 and 7, under these names, and headers
/// have a PDU status from version 7 on.
pub fn versions_are_known()
    ensures names { (version_code Version.V6 ≡ 6) × (version_code Version.V7 ≡ 7) }
    ensures read { (n : ℕ) → IsTrue (is_version n) ↔ ((n ≡ 6) ⊎ (n ≡ 7)) }
    ensures status { (version : Version) → has_status version ≡ nat_le 7 (version_code version) }
{}

/// The header of a PDU (IEEE 1278.1-2012, 6.2.66). Its numbers are big-endian in a datagram.
#[derive(Clone, Copy, PartialEq, Eq)]
pub struct Header {
    pub version: Version,
    pub exercise: u8,
    pub kind: Kind,
    /// Timestamp: the upper 31 bits are the time past the hour, the lowest bit is 1 if it is
    /// absolute. No rule depends on it (profile).
    pub stamp: u32,
    /// Length of the whole PDU in bytes, header included.
    pub length: u16,
    /// PDU status, carried as a number; 0 in a version whose headers have none.
    pub status: u8,
}

/// Why a datagram does not begin with a header: the first of these, in this order, that holds.
#[derive(Clone, Copy, Debug, PartialEq, Eq)]
pub enum HeaderFault {
    /// The datagram has fewer than 12 bytes.
    Truncated,
    /// The protocol version is this number, which is not supported.
    Version(u8),
    /// The protocol family is this number instead of 5.
    Family(u8),
    /// The PDU type is this number, which is not in 11..=22.
    Kind(u8),
    /// The datagram has more than 8192 bytes.
    Long,
    /// The length field has this number, which is not the length of the datagram.
    LengthField(u16),
}

/// Prints the name of the fault, with the bad number.
impl fmt::Display for HeaderFault {
    ghost use Rattle.std.specs.Prelude.{Some};
    ghost use Rattle.dis_records.specs.Texts.{header_fault_text};

    ghost output = { λ fault. Some (header_fault_text fault) };

    fn fmt<W: fmt::Write>(&self, f: &mut fmt::Formatter<W>) -> fmt::Result {
        match self {
            HeaderFault::Truncated => write!(f, "truncated"),
            HeaderFault::Version(version) => write!(f, "version {version}"),
            HeaderFault::Family(family) => write!(f, "family {family}"),
            HeaderFault::Kind(kind) => write!(f, "kind {kind}"),
            HeaderFault::Long => write!(f, "long"),
            HeaderFault::LengthField(length) => write!(f, "length-field {length}"),
        }
    }
}

impl Error for HeaderFault {}

/// Reads the header of a datagram, whose length field must be its number of bytes, at most 8192.
pub fn read_header(bytes: &[u8]) -> Result<Header, HeaderFault>
    // The result is the header.
    ensures header { IfOk result (λ header. IsHeader header bytes.now) }
    // A header is accepted.
    ensures only { (header : Header) → IsHeader header bytes.now → result ≡ Ok header }
    // The bytes are not refused, and the result is the header at their front.
    ensures at { IfOk result (λ header. (header_refusal bytes.now ≡ None) × (header ≡ header_at bytes.now)) }
    // A fault is the first in order that holds.
    ensures refused { IfErr result (λ fault. header_refusal bytes.now ≡ Some fault) }
{
    read_fields(bytes)
}

fn read_fields(bytes: &[u8]) -> Result<Header, HeaderFault>
    ensures header { IfOk result (λ header. IsHeader header bytes.now) }
    ensures refused { IfErr result (λ fault. header_refusal bytes.now ≡ Some fault) }
{
    if bytes.len() < HEADER_SIZE {
        return Err(HeaderFault::Truncated);
    }
    let number = u8_at(bytes, 0);
    let Some(version) = Version::from_code(number) else {
        return Err(HeaderFault::Version(number));
    };
    let family = u8_at(bytes, 3);
    if family != FAMILY {
        return Err(HeaderFault::Family(family));
    }
    let code = u8_at(bytes, 2);
    let Some(kind) = Kind::from_code(code) else {
        return Err(HeaderFault::Kind(code));
    };
    if bytes.len() > LARGEST_DATAGRAM {
        return Err(HeaderFault::Long);
    }
    let length = u16_at(bytes, 8);
    if usize::from(length) != bytes.len() {
        return Err(HeaderFault::LengthField(length));
    }
    Ok(Header {
        version,
        exercise: u8_at(bytes, 1),
        kind,
        stamp: u32_at(bytes, 4),
        length,
        status: version.carried_status(u8_at(bytes, 10)),
    })
}

/// Reads the header of a datagram that is known to begin with one: equals [`read_header`], but
/// checks nothing again.
#[tactic(auto, using(crate::proofs::Headers::header_known))]
pub fn header_again(bytes: &[u8]) -> Header
    requires { header_refusal bytes.now ≡ None }
    ensures { result ≡ header_at bytes.now }
{
    let version = Version::from_code(u8_at(bytes, 0)).unwrap();
    let kind = Kind::from_code(u8_at(bytes, 2)).unwrap();
    let status = u8_at(bytes, 10);
    Header {
        version,
        exercise: u8_at(bytes, 1),
        kind,
        stamp: u32_at(bytes, 4),
        length: u16_at(bytes, 8),
        status: version.carried_status(status),
    }
}

/// Text of a header, with zero padding; so the status is not written for a version whose headers
/// have none.
pub fn write_header(header: &Header) -> [u8; 12]
    ensures text { result ≡ text (header_layout header.now) }
    ensures fits { Fit (header_layout header.now) }
{
    text_of(*header)
}

fn text_of(header: Header) -> [u8; 12]
    ensures text { result ≡ text (header_layout header) }
    ensures fits { Fit (header_layout header) }
{
    let [s0, s1, s2, s3] = header.stamp.to_be_bytes();
    let [l0, l1] = header.length.to_be_bytes();
    [
        header.version.code(),
        header.exercise,
        header.kind.code(),
        FAMILY,
        s0,
        s1,
        s2,
        s3,
        l0,
        l1,
        header.version.carried_status(header.status),
        0,
    ]
}
