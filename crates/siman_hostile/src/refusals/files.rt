//! The call that checks files.

use siman_console::{FilesFault, check_files};
use siman_refusals::{LibraryCall, RECORDING, Said, refused, usual};
use std::alloc::Global;

/// The certificate of [`RECORDING`] in the order of its entries.
pub(crate) const STEPS: [u8; 44] = [
    68, 83, 67, 84, 48, 48, 48, 49, 0, 0, 0, 4, 0, 0, 0, 0, 255, 255, 255, 255, 0, 0, 0, 1, 0, 0,
    0, 0, 0, 0, 0, 2, 0, 0, 0, 1, 0, 0, 0, 3, 0, 0, 0, 2,
];

/// The report on it.
const REPORT: &str = "yes records=4 others=0
answer 2 request 1
known 3 change 2
entity 2:3:7 stopped
";

/// Checks a recording with its certificate, and writes the report.
pub(crate) struct Judging;

impl LibraryCall<Vec<u8>> for Judging {
    fn make(alloc: Global, out: &mut Vec<u8>) -> Said {
        match check_files(alloc, RECORDING.as_slice(), STEPS.as_slice(), out) {
            Ok(yes) => usual(yes && out.as_slice() == REPORT.as_bytes()),
            Err(fault) => refused(fault == FilesFault::Memory && out.is_empty()),
        }
    }
}
