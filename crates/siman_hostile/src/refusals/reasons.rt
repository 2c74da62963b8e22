//! The calls that say why a recording or a certificate is refused.

use crate::refusals::reviews::Streams;
use siman_console::{
    Notes, Reading, Spelling, WhyCommand, end, say_of_certificate, say_of_recording,
};
use siman_refusals::{LibraryCall, Said, refused, usual};
use std::alloc::Global;

/// A recording in which 2:3 tells that its entity 7 runs, which is absent.
const WRONG: [u8; 28] = [
    68, 83, 82, 67, 48, 48, 48, 49, 1, 0, 1, 0, 2, 0, 3, 0, 0, 3, 0, 0, 0, 7, 2, 0, 0, 0, 0, 1,
];

/// The certificate of the only possible sequence of its entries.
const STEP: [u8; 20] = [
    68, 83, 67, 84, 48, 48, 48, 49, 0, 0, 0, 1, 0, 0, 0, 0, 255, 255, 255, 255,
];

/// The output of `why` for the recording.
const BLOCKED: &str = "blocked stations=1
blocked 2:3 record=0 cause=13 wrong-state
rule 13 a station tells the state that its entity has
clash 0 entity=2:3:7 state=absent change=-
repair sends=0 enough=no
entry 0 2:3 told entity=2:3:7 state=running
";

/// The output of `why` for the recording and the certificate.
const NO: &str = "no step=0 cause=13 wrong-state
rule 13 a station tells the state that its entity has
clash 0 entity=2:3:7 state=absent change=-
fault recording
entry 0 2:3 told entity=2:3:7 state=running
";

const WHY: WhyCommand = WhyCommand {
    spelling: Spelling::Text,
};

/// The outcome of a call that must write this text, with status 1.
fn said(status: u8, streams: &Streams, text: &str) -> Said {
    match status {
        1 => usual(streams.out.as_slice() == text.as_bytes() && streams.errors.is_empty()),
        3 => refused(streams.out.is_empty() && streams.errors.as_slice() == b"memory\n".as_slice()),
        _ => Said::Otherwise,
    }
}

/// Writes why no sequence explains a recording.
pub(crate) struct Asking;

impl LibraryCall<Streams> for Asking {
    fn make(alloc: Global, lent: &mut Streams) -> Said {
        lent.errors.clear();
        let (out, errors) = (&mut lent.out, &mut lent.errors);
        let answered = say_of_recording(
            alloc,
            WHY,
            Reading::Whole,
            WRONG.as_slice(),
            out,
            &mut Notes::nothing(),
        );
        said(end(answered, errors).status, lent, BLOCKED)
    }
}

/// Writes why a certificate is wrong.
pub(crate) struct AskingOfSteps;

impl LibraryCall<Streams> for AskingOfSteps {
    fn make(alloc: Global, lent: &mut Streams) -> Said {
        lent.errors.clear();
        let (out, errors) = (&mut lent.out, &mut lent.errors);
        let (recording, certificate) = (WRONG.as_slice(), STEP.as_slice());
        let notes = &mut Notes::nothing();
        let answered = say_of_certificate(
            alloc,
            WHY,
            Reading::Whole,
            recording,
            certificate,
            out,
            notes,
        );
        said(end(answered, errors).status, lent, NO)
    }
}
