//! Details of the system's calls that explain a fault: the call that failed last, and the kinds of
//! the opened files.

use crate::endpoint::Endpoint;
use crate::file_kind::FileKind;
use std::io::ErrorKind;

/// A call of the system.
#[derive(Clone, Copy)]
pub enum SystemCall {
    /// Opening a file to read it.
    Open,
    /// Making a file that is to take a name.
    Make,
    /// Writing a made file.
    Write,
    /// Letting a made file take its name.
    Save,
    /// Binding a socket to an endpoint.
    Bind(Endpoint),
    /// Binding sockets of the loopback.
    BindLoopback,
}

/// A failed call, with the kind of its error.
#[derive(Clone, Copy)]
pub struct SystemFault {
    pub call: SystemCall,
    pub kind: ErrorKind,
}

/// Details of the system's calls that explain a fault.
#[derive(Clone, Copy)]
pub struct Known {
    /// The call that failed last.
    pub failed: Option<SystemFault>,
    /// The kind of the file that was opened first.
    pub first: FileKind,
    /// The kind of the file that was opened second.
    pub second: FileKind,
}

impl Known {
    /// No failed call, and files of unknown kind.
    pub fn nothing() -> Known {
        Known {
            failed: None,
            first: FileKind::Unknown,
            second: FileKind::Unknown,
        }
    }
}
