//! The text of an answer, made whole before any of it is written.

ghost use Rattle.std.specs.Prelude.{string_bytes};
ghost use Rattle.siman_outside.specs.Outside.{stream};
ghost use Rattle.siman_outside.specs.AnswerText.{PutsAnswer};

use crate::fault::Fault;
use byte_files::put;
use std::io::Write;

/// The text of an answer, and its exit status.
#[derive(Drop)]
pub struct AnswerText {
    pub text: String,
    pub status: u8,
}

impl AnswerText {
    /// Writes the text, and returns the status; `Output` after a failed write.
    pub fn put<W: Write>(&self, out: &mut W) -> Result<u8, Fault<'static>>
        ensures { PutsAnswer (string_bytes self.now.text) self.now.status result (stream (W.contents out.old) (W.contents out.new)) }
    {
        match put(out, self.text.as_bytes()) {
            Ok(()) => Ok(self.status),
            Err(_) => Err(Fault::Output),
        }
    }
}
