//! The system's reasons for failed calls, in words.

ghost use Rattle.std.specs.Prelude.{◌≡◌};
ghost use Rattle.byte_files.specs.System.{system_words};

use std::io::ErrorKind;

/// The system's reason for a failed call, in words.
pub fn system_words(kind: ErrorKind) -> &'static str
    ensures { result.now ≡ system_words kind }
{
    match kind {
        ErrorKind::NotFound => "no such file or folder",
        ErrorKind::PermissionDenied => "permission denied",
        ErrorKind::ConnectionRefused => "refused by the other side",
        ErrorKind::ConnectionReset => "reset by the other side",
        ErrorKind::HostUnreachable | ErrorKind::NetworkUnreachable => "no route",
        ErrorKind::AddrInUse => "the address is in use",
        ErrorKind::AddrNotAvailable => "not an address of this machine",
        ErrorKind::NetworkDown => "the network is down",
        ErrorKind::BrokenPipe => "the reader is gone",
        ErrorKind::AlreadyExists => "exists already",
        ErrorKind::WouldBlock => "busy",
        ErrorKind::NotADirectory => "not a folder",
        ErrorKind::IsADirectory => "is a directory",
        ErrorKind::ReadOnlyFilesystem => "read-only file system",
        ErrorKind::FilesystemLoop => "too many links on the way",
        ErrorKind::InvalidInput | ErrorKind::Unsupported => "not possible here",
        ErrorKind::TimedOut => "timed out",
        ErrorKind::StorageFull => "no space left",
        ErrorKind::QuotaExceeded => "the disk quota is used up",
        ErrorKind::FileTooLarge => "file too large",
        ErrorKind::ResourceBusy => "in use",
        ErrorKind::InvalidFilename => "the name is too long",
        ErrorKind::OutOfMemory => "no memory left",
        _ => "failed",
    }
}
