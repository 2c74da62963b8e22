//! Faults of a packet capture.

ghost use Rattle.std.specs.Prelude.{◌≡◌, Some, None};
ghost use Rattle.packet_captures.specs.FaultText.{format_fault_text, capture_fault_text, name_of, place_of};
ghost use Rattle.packet_captures.specs.Faults.{fault_of, format_of};
ghost use Rattle.packet_captures.specs.declared.capture_fault.CaptureFault.TheVariants.{Format, Memory};

use byte_files::FetchFault;
use std::alloc::AllocError;
use std::error::Error;
use std::fmt;

/// What is wrong with the bytes of a capture, with its offset in bytes, from 0.
#[derive(Clone, Copy, Debug, PartialEq, Eq)]
pub enum FormatFault {
    /// The file does not begin as pcap or pcapng, or a section's byte-order magic is none.
    Magic(u64),
    /// The format's major version is neither 2 (pcap) nor 1 (pcapng).
    Version(u64),
    /// A block's total length is below 12, not a multiple of 4 or unlike the one at its end; the
    /// block is too short for its kind, or for its packet.
    Block(u64),
    /// A packet is of an interface that its section has not described.
    Interface(u64),
    /// A stamp is before 1970 or above 64 bits, in microseconds (at its upper half).
    Time(u64),
    /// The file ends in the middle of a record or block: its length, and whether that is the head
    /// of the file, which is pcap's or the first section's.
    Truncated { at: u64, head: bool },
}

impl FormatFault {
    /// Name of the fault.
    pub fn name(self) -> &'static str
        ensures { result.now ≡ name_of self }
    {
        match self {
            FormatFault::Magic(_) => "magic",
            FormatFault::Version(_) => "version",
            FormatFault::Block(_) => "block",
            FormatFault::Interface(_) => "interface",
            FormatFault::Time(_) => "time",
            FormatFault::Truncated { at: _, head: _ } => "truncated",
        }
    }

    /// Offset of the fault in bytes, from 0.
    pub fn place(self) -> u64
        ensures { result ≡ place_of self }
    {
        match self {
            FormatFault::Magic(at)
            | FormatFault::Version(at)
            | FormatFault::Block(at)
            | FormatFault::Interface(at)
            | FormatFault::Time(at)
            | FormatFault::Truncated { at, head: _ } => at,
        }
    }
}

/// `NAME at OFFSET`.
impl fmt::Display for FormatFault {
    ghost output = { λ f. Some (format_fault_text f) };

    fn fmt<W: fmt::Write>(&self, f: &mut fmt::Formatter<W>) -> fmt::Result {
        write!(f, "{} at {}", self.name(), self.place())
    }
}

impl Error for FormatFault {}

/// Why a capture was not read on.
#[derive(Clone, Copy, Debug, Drop, PartialEq, Eq)]
pub enum CaptureFault {
    /// The bytes are no capture.
    Format(FormatFault),
    /// A read failed.
    Read,
    /// There is no memory.
    Memory,
}

/// The format's fault, `read` or `memory`.
impl fmt::Display for CaptureFault {
    ghost output = { λ f. Some (capture_fault_text f) };

    fn fmt<W: fmt::Write>(&self, f: &mut fmt::Formatter<W>) -> fmt::Result {
        match self {
            CaptureFault::Format(fault) => write!(f, "{fault}"),
            CaptureFault::Read => write!(f, "read"),
            CaptureFault::Memory => write!(f, "memory"),
        }
    }
}

impl Error for CaptureFault {}

impl From<FormatFault> for CaptureFault {
    ghost from_gives = { λ f e. e ≡ Format f };

    fn from(fault: FormatFault) -> CaptureFault {
        CaptureFault::Format(fault)
    }
}

impl From<AllocError> for CaptureFault {
    ghost from_gives = { λ _ e. e ≡ Memory };

    fn from(_e: AllocError) -> CaptureFault {
        CaptureFault::Memory
    }
}

impl From<FetchFault> for CaptureFault {
    ghost from_gives = { λ f e. (e ≡ fault_of f) × (format_of e ≡ None) };

    fn from(fault: FetchFault) -> CaptureFault {
        match fault {
            FetchFault::Read => CaptureFault::Read,
            FetchFault::Memory => CaptureFault::Memory,
        }
    }
}
