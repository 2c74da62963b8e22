//! Faults of reading and writing a certificate.

ghost use Rattle.std.specs.Prelude.{◌≡◌, Some};
ghost use Rattle.exercise_check.specs.FaultText.{name_of, place_of, format_fault_text, certificate_fault_text};
ghost use Rattle.exercise_check.specs.declared.certificate_fault.CertificateFault.TheVariants.{Memory};

use byte_files::FileFault;
use std::alloc::{AllocError, AllocFailed};
use std::error::Error;
use std::fmt;

/// First field of a certificate's file that is bad, missing or past the limit, in the order of the
/// format, with its offset in bytes, from 0. Truncated has the length of the input instead.
#[derive(Clone, Copy, Debug, PartialEq, Eq)]
pub enum CertificateFormatFault {
    /// The first eight bytes are not the ASCII text `DSCT0001`.
    Magic(u64),
    /// A field is missing or incomplete.
    Truncated(u64),
    /// There is a byte behind the last step.
    Trailing(u64),
    /// The number of steps is above the limit.
    OverLimit(u64),
}

impl CertificateFormatFault {
    /// Name of the fault.
    pub fn name(self) -> &'static str
        ensures { result.now ≡ name_of self }
    {
        match self {
            CertificateFormatFault::Magic(_) => "magic",
            CertificateFormatFault::Truncated(_) => "truncated",
            CertificateFormatFault::Trailing(_) => "trailing",
            CertificateFormatFault::OverLimit(_) => "over-limit",
        }
    }

    /// Offset of the fault in bytes, from 0.
    pub fn place(self) -> u64
        ensures { result ≡ place_of self }
    {
        match self {
            CertificateFormatFault::Magic(at)
            | CertificateFormatFault::Truncated(at)
            | CertificateFormatFault::Trailing(at)
            | CertificateFormatFault::OverLimit(at) => at,
        }
    }
}

/// `NAME at OFFSET`.
impl fmt::Display for CertificateFormatFault {
    ghost output = { λ f. Some (format_fault_text f) };

    fn fmt<W: fmt::Write>(&self, f: &mut fmt::Formatter<W>) -> fmt::Result {
        write!(f, "{} at {}", self.name(), self.place())
    }
}

impl Error for CertificateFormatFault {}

/// Why a certificate was not read.
#[derive(Clone, Copy, Debug, Drop, PartialEq, Eq)]
pub enum CertificateFault {
    /// The bytes are no certificate within the limit.
    Format(CertificateFormatFault),
    /// A read failed.
    Read,
    /// There is no memory for the certificate.
    Memory,
}

/// The format's fault, `read` or `memory`.
impl fmt::Display for CertificateFault {
    ghost output = { λ f. Some (certificate_fault_text f) };

    fn fmt<W: fmt::Write>(&self, f: &mut fmt::Formatter<W>) -> fmt::Result {
        match self {
            CertificateFault::Format(fault) => write!(f, "{fault}"),
            CertificateFault::Read => write!(f, "read"),
            CertificateFault::Memory => write!(f, "memory"),
        }
    }
}

impl Error for CertificateFault {}

impl FileFault for CertificateFault {
    ghost use Rattle.exercise_check.specs.Certificate.{names, format_of};

    type Format = CertificateFormatFault;

    ghost names = { names };

    ghost format_of = { format_of };

    fn truncated(length: u64) -> CertificateFault {
        CertificateFault::Format(CertificateFormatFault::Truncated(length))
    }

    fn over_limit(offset: u64) -> CertificateFault {
        CertificateFault::Format(CertificateFormatFault::OverLimit(offset))
    }

    fn read_failed() -> CertificateFault {
        CertificateFault::Read
    }
}

impl From<AllocError> for CertificateFault {
    ghost from_gives = { λ _ e. e ≡ Memory };

    fn from(_e: AllocError) -> CertificateFault {
        CertificateFault::Memory
    }
}

impl<T: Drop> From<AllocFailed<T>> for CertificateFault {
    ghost from_gives = { λ _ e. e ≡ Memory };

    fn from(_e: AllocFailed<T>) -> CertificateFault {
        CertificateFault::Memory
    }
}

/// Why a certificate was not written.
#[derive(Clone, Copy, Debug, PartialEq, Eq, thiserror::Error)]
pub enum CertificateWriterFault {
    /// A write failed or took no byte; a prefix of the text is out.
    #[error("write")]
    Write,
}
