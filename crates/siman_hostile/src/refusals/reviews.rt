//! The call that reviews files.

use siman_console::{Notes, Reading, Spelling, View, ViewWord, end, say_of_recording};
use siman_refusals::{LibraryCall, RECORDING, Said, refused, room, usual};
use std::alloc::Global;
use std::io;

/// The review of the order that is done.
const DONE: &str =
    "review exercise=1 stations=2 records=4 others=0 explained=yes orders=1 done=1 answered=0 refused=0 pending=0 unheard=0 unanswered=0 lost=0 unknown=0 nobody=0
order 0 from=1:1 request=1 create-entity to=2:3:7 at=2:3 sends=1 receipts=1 got=1 said=able answer=2 heard=able news=3 took=0 change=2 fate=done
";

/// Outputs of a call: its answer and its fault.
#[derive(Drop)]
pub(crate) struct Streams {
    pub out: Vec<u8>,
    pub errors: Vec<u8>,
}

/// Room for an answer and a fault.
pub(crate) fn make_streams(alloc: Global) -> io::Result<Streams> {
    Ok(Streams {
        out: room(alloc)?,
        errors: room(alloc)?,
    })
}

/// Reviews a recording with a filter, and writes the rows.
pub(crate) struct WritingReview;

impl LibraryCall<Streams> for WritingReview {
    fn make(alloc: Global, lent: &mut Streams) -> Said {
        let (recording, words) = (RECORDING.as_slice(), ["fate=done"]);
        lent.errors.clear();
        let (out, errors) = (&mut lent.out, &mut lent.errors);
        let notes = &mut Notes::nothing();
        let reviewed = match View::of(alloc, ViewWord::Review, &words, Spelling::Text) {
            Ok(view) => say_of_recording(alloc, view, Reading::Whole, recording, out, notes),
            Err(fault) => Err(fault),
        };
        match end(reviewed, errors).status {
            0 => usual(lent.out.as_slice() == DONE.as_bytes() && lent.errors.is_empty()),
            3 => refused(lent.out.is_empty() && lent.errors.as_slice() == b"memory\n".as_slice()),
            _ => Said::Otherwise,
        }
    }
}
