//! The command `pdu`: shows a datagram given as hex text.

ghost use Rattle.std.specs.Prelude.{◌≡◌, ◌≤◌};
ghost use Rattle.std.specs.Io.KnownBytes.{Keeps};
ghost use Rattle.siman_file_commands.specs.Answer.{said_of_hex, IsSaid, EndsPdu};

use crate::answer::Answer;
use crate::hex_text::hex_bytes;
use byte_files::put;
use siman_outside::{Fault, end};
use std::alloc::Global;
use std::io::Write;

/// Shows the datagram that a word spells in hex: prints the PDU, one line for its head and one for
/// each record, with status 0, or `refused NUMBER NAME` with status 1.
///
/// Status 2 with a line on `errors` reports a word that is not pairs of hex digits (`hex: not byte
/// pairs`), or a failed write to `out` (`output: write`), after which a prefix of the text is
/// written. Status 3 is lack of memory (`memory`), with nothing written.
pub fn pdu_command<W: Write, E: Write>(alloc: Global, hex: &str, out: &mut W, errors: &mut E) -> u8
    ensures ends { EndsPdu (said_of_hex hex.now) result (W.contents out.old) (W.contents out.new) (E.contents errors.old) (E.contents errors.new) }
    ensures silent { result ≤ 1 → Keeps (E.contents errors.old) (E.contents errors.new) }
{
    end(show_word(alloc, hex, out), errors).status
}

/// Writes the answer for a word, and returns its status.
pub fn show_word<W: Write>(alloc: Global, hex: &str, out: &mut W) -> Result<u8, Fault<'static>>
    ensures { IsSaid (said_of_hex hex.now) result (W.contents out.old) (W.contents out.new) }
{
    tell(alloc, hex.as_bytes(), out)
}

/// Writes the answer for hex text, and returns its status.
pub(crate) fn tell<W: Write>(alloc: Global, hex: &[u8], out: &mut W) -> Result<u8, Fault<'static>>
    ensures { IsSaid (said_of_hex hex.now) result (W.contents out.old) (W.contents out.new) }
{
    let datagram = hex_bytes(alloc, hex)?;
    let answer = Answer::to(alloc, &datagram)?;
    match put(out, answer.text().as_bytes()) {
        Ok(()) => Ok(answer.status()),
        Err(_) => Err(Fault::Output),
    }
}
