//! Calls that perform and try scripts.

use siman_console::{TrialFault, perform, read_script, trial};
use siman_refusals::{LibraryCall, SCRIPT, Said, refused, usual};
use std::alloc::Global;

/// The output for [`SCRIPT`].
const TOLD: &str = "world records=16 sent=8
explained steps=16
yes records=16 others=0
answer 3 request 2
answer 7 request 6
answer 9 request 8
answer 11 request 6
known 13 change 3
known 14 change 9
known 15 change 7
entity 2:3:7 running
";

/// The outcome of a trial: a yes with the full output, or no output if memory ran out.
fn said(ended: Result<bool, TrialFault>, out: &[u8]) -> Said {
    match ended {
        Ok(yes) => usual(yes && out == TOLD.as_bytes()),
        Err(fault) => refused(fault == TrialFault::Memory && out.is_empty()),
    }
}

/// Performs a script that was read.
pub(crate) struct Performing;

impl LibraryCall<Vec<u8>> for Performing {
    fn make(alloc: Global, out: &mut Vec<u8>) -> Said {
        match read_script(alloc, SCRIPT.as_bytes()) {
            Ok(script) => said(perform(alloc, script, out), out),
            Err(_) => Said::Memory,
        }
    }
}

/// Tries a script.
pub(crate) struct Trying;

impl LibraryCall<Vec<u8>> for Trying {
    fn make(alloc: Global, out: &mut Vec<u8>) -> Said {
        let mut input = SCRIPT.as_bytes();
        let ended = trial(alloc, &mut input, out);
        if input.is_empty() || ended.is_err() {
            said(ended, out)
        } else {
            Said::Otherwise
        }
    }
}
