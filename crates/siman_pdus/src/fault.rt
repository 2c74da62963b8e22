//! Faults of decoding and encoding PDUs.

ghost use Rattle.std.specs.Prelude.{◌≡◌};
ghost use Rattle.siman_pdus.specs.Texts.{refusal_number};
ghost use Rattle.siman_pdus.specs.declared.fault.PduFault.TheVariants.{Memory};
ghost use Rattle.siman_pdus.specs.Reading.{pdu_fault};

use dis_records::HeaderFault;
use std::alloc::{AllocError, AllocFailed};
use std::error::Error;
use std::fmt;

/// Why a datagram is no PDU, if decoding takes no memory: the first of these, in this order, that
/// holds.
#[derive(Clone, Copy, Debug, PartialEq, Eq)]
pub enum ViewFault {
    /// The header is refused.
    Header(HeaderFault),
    /// The first missing or incomplete part of the body begins at this offset, as in
    /// [`PduFault::BodyShort`].
    BodyShort(usize),
    /// Bytes follow the last part of the body, from this offset on.
    BodyLong(usize),
}

/// Prints the text of the corresponding [`PduFault`].
impl fmt::Display for ViewFault {
    ghost use Rattle.std.specs.Prelude.{Some};
    ghost use Rattle.siman_pdus.specs.Reading.{pdu_fault};
    ghost use Rattle.siman_pdus.specs.Texts.{pdu_fault_text};

    ghost output = { λ fault. Some (pdu_fault_text (pdu_fault fault)) };

    fn fmt<W: fmt::Write>(&self, f: &mut fmt::Formatter<W>) -> fmt::Result {
        match self {
            ViewFault::Header(fault) => write!(f, "{fault}"),
            ViewFault::BodyShort(offset) => write!(f, "body-short at {offset}"),
            ViewFault::BodyLong(offset) => write!(f, "body-long at {offset}"),
        }
    }
}

impl Error for ViewFault {}

/// Why a datagram is no PDU: the first of these, in this order, that holds.
#[derive(Clone, Copy, Debug, PartialEq, Eq)]
pub enum PduFault {
    /// The header is refused.
    Header(HeaderFault),
    /// The first missing or incomplete part of the body begins at this offset, in bytes from 0. The
    /// parts are the fixed part from offset 12, then each datum record or identifier.
    BodyShort(usize),
    /// Bytes follow the last part of the body, from this offset on.
    BodyLong(usize),
    /// Memory ran out.
    Memory,
}

impl PduFault {
    /// Number of the fault, from 1, in the order in which the faults are checked. Memory, which
    /// refuses no datagram, has the last number.
    pub fn number(self) -> u8
        ensures { result ≡ refusal_number self }
    {
        match self {
            PduFault::Header(HeaderFault::Truncated) => 1,
            PduFault::Header(HeaderFault::Version(_)) => 2,
            PduFault::Header(HeaderFault::Family(_)) => 3,
            PduFault::Header(HeaderFault::Kind(_)) => 4,
            PduFault::Header(HeaderFault::Long) => 5,
            PduFault::Header(HeaderFault::LengthField(_)) => 6,
            PduFault::BodyShort(_) => 7,
            PduFault::BodyLong(_) => 8,
            PduFault::Memory => 9,
        }
    }
}

/// Prints the name of the fault, with the bad number or its offset.
impl fmt::Display for PduFault {
    ghost use Rattle.std.specs.Prelude.{Some};
    ghost use Rattle.siman_pdus.specs.Texts.{pdu_fault_text};

    ghost output = { λ fault. Some (pdu_fault_text fault) };

    fn fmt<W: fmt::Write>(&self, f: &mut fmt::Formatter<W>) -> fmt::Result {
        match self {
            PduFault::Header(fault) => write!(f, "{fault}"),
            PduFault::BodyShort(offset) => write!(f, "body-short at {offset}"),
            PduFault::BodyLong(offset) => write!(f, "body-long at {offset}"),
            PduFault::Memory => write!(f, "memory"),
        }
    }
}

impl Error for PduFault {}

impl From<ViewFault> for PduFault {
    ghost from_gives = { λ fault e. e ≡ pdu_fault fault };

    fn from(fault: ViewFault) -> PduFault {
        match fault {
            ViewFault::Header(fault) => PduFault::Header(fault),
            ViewFault::BodyShort(offset) => PduFault::BodyShort(offset),
            ViewFault::BodyLong(offset) => PduFault::BodyLong(offset),
        }
    }
}

impl From<AllocError> for PduFault {
    ghost from_gives = { λ _ e. e ≡ Memory };

    fn from(_e: AllocError) -> PduFault {
        PduFault::Memory
    }
}

impl<T: Drop> From<AllocFailed<T>> for PduFault {
    ghost from_gives = { λ _ e. e ≡ Memory };

    fn from(_e: AllocFailed<T>) -> PduFault {
        PduFault::Memory
    }
}

/// Why a PDU was not written.
#[derive(Clone, Copy, Debug, PartialEq, Eq, thiserror::Error)]
pub enum EncodeFault {
    /// The text would have more than 8192 bytes.
    #[error("too long")]
    TooLong,
    /// Memory ran out.
    #[error("memory")]
    Memory,
}
