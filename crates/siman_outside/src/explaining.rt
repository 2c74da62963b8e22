//! Writing the reason of a fault behind its first line, and warnings.

ghost use Rattle.std.specs.Prelude.{◌≡◌, ◌++◌, Some, option_map};
ghost use Rattle.byte_files.specs.Pieces.{pieces_text};
ghost use Rattle.byte_files.specs.Writing.{Writes};
ghost use Rattle.siman_print.specs.Records.{line_end};
ghost use Rattle.siman_outside.specs.Reasons.{reason_words, second_line, mend_line, warning_line, Warns, Explains};
ghost use Rattle.siman_outside.specs.Outside.{begun_by};

use crate::ending::Ending;
use crate::fault::Ended;
use crate::known::Known;
use crate::named::Named;
use crate::notes::Warning;
use crate::reason::{Reason, reason_of};
use crate::warning::warning_reason;
use byte_files::{TextPieces, WriteFailed, put, put_both, put_pieces};
use std::io::Write;

/// Writes two texts, one behind the other.
fn put_two<W: Write>(
    writer: &mut W,
    first: TextPieces<'_>,
    second: TextPieces<'_>,
) -> Result<(), WriteFailed>
    ensures { Writes result (W.contents writer.old) (W.contents writer.new) (pieces_text first.entry ++ pieces_text second.entry) }
{
    put_pieces(writer, first)?;
    put_pieces(writer, second)
}

/// Writes a reason, without a line end.
fn put_words<W: Write>(writer: &mut W, reason: Reason<'_>) -> Result<(), WriteFailed>
    ensures { Writes result (W.contents writer.old) (W.contents writer.new) (reason_words reason.entry) }
{
    match reason {
        Reason::Short(text) => put(writer, text.bytes()),
        Reason::Text(pieces) => put_pieces(writer, pieces),
        Reason::Both(first, second) => put_two(writer, first, second),
    }
}

/// Writes a reason, and a line end.
fn put_ended<W: Write>(writer: &mut W, reason: Reason<'_>) -> Result<(), WriteFailed>
    ensures { Writes result (W.contents writer.old) (W.contents writer.new) (reason_words reason.entry ++ line_end) }
{
    put_words(writer, reason)?;
    put(writer, b"\n")
}

/// Writes the second line of a fault.
fn put_second<W: Write>(writer: &mut W, reason: Reason<'_>) -> Result<(), WriteFailed>
    ensures { Writes result (W.contents writer.old) (W.contents writer.new) (second_line (reason_words reason.entry)) }
{
    put(writer, b"  ")?;
    put_ended(writer, reason)
}

/// Writes the line `mend NAME NEW`, the command that mends the recording of a name.
fn put_mend<W: Write>(writer: &mut W, name: &str) -> Result<(), WriteFailed>
    ensures { Writes result (W.contents writer.old) (W.contents writer.new) (mend_line (Some name.now)) }
{
    put_both(writer, b"mend ", name.as_bytes())?;
    put(writer, b" NEW\n")
}

/// Writes the second line of a fault, and the line that mends the recording begun before it, if
/// there was such a recording.
fn put_explained<W: Write>(
    writer: &mut W,
    reason: Reason<'_>,
    begun: Option<&str>,
) -> Result<(), WriteFailed>
    ensures { Writes result (W.contents writer.old) (W.contents writer.new) (second_line (reason_words reason.entry) ++ mend_line (option_map (λ name. name.now) begun.entry)) }
{
    put_second(writer, reason)?;
    match begun {
        Some(name) => put_mend(writer, name),
        None => Ok(()),
    }
}

/// Writes the line of a warning.
fn put_warning<W: Write>(writer: &mut W, warning: Warning) -> Result<(), WriteFailed>
    ensures { Writes result (W.contents writer.old) (W.contents writer.new) (warning_line warning) }
{
    put(writer, b"warning: ")?;
    put_ended(writer, warning_reason(warning))
}

/// Writes a warning, if there is a warning; a failed write is ignored.
fn warn<W: Write>(warning: Option<Warning>, reasons: &mut W)
    ensures { Warns warning (W.contents reasons.old) (W.contents reasons.new) }
{
    if let Some(warning) = warning {
        let _ = put_warning(reasons, warning);
    }
}

/// Writes the reason of a command's fault, if it has a fault whose first line was written, and the
/// line that mends the recording that it began; for a command without a fault writes its warnings.
/// Failed writes are ignored. Returns the exit status and whether the first line was written, as
/// they are in `ending`.
pub fn explained<'a, E: Write>(
    ending: Ending<'a>,
    named: Named<'a>,
    known: Known,
    reasons: &mut E,
) -> Ended
    ensures ended { result ≡ ending.entry.ended }
    ensures explains { Explains result.written ending.entry.fault (begun_by ending.entry) ending.entry.warning ending.entry.further (E.contents reasons.old) (E.contents reasons.new) }
{
    let fault = match ending.fault {
        Some(fault) => fault,
        None => {
            warn(ending.warning, reasons);
            warn(ending.further, reasons);
            return ending.ended;
        }
    };
    if ending.ended.written.is_err() {
        return ending.ended;
    }
    let reason = reason_of(fault, named, known, ending.trouble);
    let _ = put_explained(reasons, reason, ending.begun);
    ending.ended
}
