//! Why a file could not be opened.

ghost use Rattle.std.specs.Prelude.{◌≡◌};
ghost use Rattle.siman_outside.specs.Ending.{reason_of, reason_text};

use std::io::ErrorKind;

/// Why a file could not be opened.
#[derive(Clone, Copy)]
pub enum OpenFault {
    /// No file has the name.
    Missing,
    /// The user may not read it.
    Denied,
    /// It is a directory.
    Directory,
    /// Something else.
    Other,
}

impl OpenFault {
    /// The text of the reason, as the line of the fault has it.
    pub(crate) fn name(self) -> &'static str
        ensures { result.now ≡ reason_text self }
    {
        match self {
            OpenFault::Missing => "no such file",
            OpenFault::Denied => "permission denied",
            OpenFault::Directory => "is a directory",
            OpenFault::Other => "cannot be opened",
        }
    }
}

/// The reason for a kind of error.
pub(crate) fn reason_of(kind: ErrorKind) -> OpenFault
    ensures { result ≡ reason_of kind }
{
    match kind {
        ErrorKind::NotFound => OpenFault::Missing,
        ErrorKind::PermissionDenied => OpenFault::Denied,
        ErrorKind::IsADirectory => OpenFault::Directory,
        _ => OpenFault::Other,
    }
}
