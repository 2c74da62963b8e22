//! Bytes, and named files.

use crate::calls::{Calls, WELL};
use std::alloc::Global;
use std::io::ErrorKind;

/// Bytes of an input or an expected output, with the limits of the calls that read or write them.
#[derive(Drop)]
pub struct Stream {
    pub bytes: Vec<u8>,
    pub calls: Calls,
}

/// No bytes, with unlimited calls.
pub(crate) fn empty(alloc: Global) -> Stream {
    Stream {
        bytes: Vec::new(alloc),
        calls: WELL,
    }
}

/// A named file.
#[derive(Drop)]
pub struct File {
    pub name: String,
    pub stream: Stream,
    /// The error of opening or making it. `None`: both succeed.
    pub shut: Option<ErrorKind>,
}

/// The last file with this name.
pub fn found<'a>(files: &'a [File], name: &[u8]) -> Option<&'a File> {
    let mut last = None;
    for file in files {
        if file.name.as_bytes() == name {
            last = Some(file);
        }
    }
    last
}
