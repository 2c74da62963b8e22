//! Why a certificate was not judged.

ghost use Rattle.std.specs.Prelude.{◌≡◌, Some};
ghost use Rattle.siman_outside.specs.declared.files_fault.FilesFault.TheVariants.{Memory};
ghost use Rattle.siman_outside.specs.FilesFaults.{of_recording, of_certificate, files_fault_status};
ghost use Rattle.siman_outside.specs.Ending.{of_files, fault_text};

use crate::fault::Fault;
use exercise_check::CertificateFault;
use exercise_recording::RecordingFault;
use std::alloc::AllocError;
use std::error::Error;
use std::fmt;

/// Why a certificate was not judged, or the answer not written whole. Its `Display` is the line of
/// the fault.
#[derive(Clone, Copy, Debug, PartialEq, Eq)]
pub enum FilesFault {
    /// The recording could not be read. Lack of memory is `Memory`.
    Recording(RecordingFault),
    /// The certificate could not be read. Lack of memory is `Memory`.
    Certificate(CertificateFault),
    /// The answer could not be written whole; a prefix of it was written.
    Write,
    /// Memory ran out; nothing was written.
    Memory,
}

impl FilesFault {
    /// The exit status of the fault: 3 for lack of memory, else 2.
    pub fn status(self) -> u8
        ensures { result ≡ files_fault_status self }
    {
        Fault::from(self).status()
    }
}

impl fmt::Display for FilesFault {
    ghost output = { λ f. Some (fault_text (of_files f)) };

    fn fmt<W: fmt::Write>(&self, f: &mut fmt::Formatter<W>) -> fmt::Result {
        write!(f, "{}", Fault::from(*self))
    }
}

impl Error for FilesFault {}

impl From<RecordingFault> for FilesFault {
    ghost from_gives = { λ fault e. e ≡ of_recording fault };

    fn from(fault: RecordingFault) -> FilesFault {
        match fault {
            RecordingFault::Memory => FilesFault::Memory,
            RecordingFault::Format(_) | RecordingFault::Read => FilesFault::Recording(fault),
        }
    }
}

impl From<CertificateFault> for FilesFault {
    ghost from_gives = { λ fault e. e ≡ of_certificate fault };

    fn from(fault: CertificateFault) -> FilesFault {
        match fault {
            CertificateFault::Memory => FilesFault::Memory,
            CertificateFault::Format(_) | CertificateFault::Read => FilesFault::Certificate(fault),
        }
    }
}

impl From<AllocError> for FilesFault {
    ghost from_gives = { λ _ e. e ≡ Memory };

    fn from(_e: AllocError) -> FilesFault {
        FilesFault::Memory
    }
}
