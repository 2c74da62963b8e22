//! Why no log is made of a capture.

use packet_captures::{CaptureFault, FormatFault};
use std::alloc::AllocError;

/// Why no log is made of a capture.
#[derive(Clone, Copy, Debug, Drop, PartialEq, Eq)]
pub enum ImportFault {
    /// The bytes are no capture.
    Capture(FormatFault),
    /// A packet has a link type that is not read: the offset of its record or block.
    LinkType(u64),
    /// The capture did not keep all of a packet: the offset of its record or block.
    Cut(u64),
    /// There are more than 1,048,576 entries.
    Records,
    /// The recording is longer than the limit.
    Size,
    /// A read failed.
    Read,
    /// There is no memory.
    Memory,
}

impl From<CaptureFault> for ImportFault {
    ghost use Rattle.std.specs.Prelude.{◌≡◌};
    ghost use Rattle.exercise_recording.specs.Captures.Faults.{of_capture};

    ghost from_gives = { λ f e. e ≡ of_capture f };

    fn from(fault: CaptureFault) -> ImportFault {
        match fault {
            CaptureFault::Format(fault) => ImportFault::Capture(fault),
            CaptureFault::Read => ImportFault::Read,
            CaptureFault::Memory => ImportFault::Memory,
        }
    }
}

impl From<AllocError> for ImportFault {
    ghost use Rattle.std.specs.Prelude.{◌≡◌};
    ghost use Rattle.exercise_recording.specs.declared.captures.import_fault.ImportFault.TheVariants.{Memory};

    ghost from_gives = { λ _ e. e ≡ Memory };

    fn from(_e: AllocError) -> ImportFault {
        ImportFault::Memory
    }
}
