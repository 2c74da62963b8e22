//! The row of counts at the end of a session.

ghost use Rattle.std.specs.Prelude.{◌≡◌, ◌++◌, IfErr, IfOk, OnOk, string_bytes};
ghost use Rattle.std.specs.Io.KnownBytes.{Keeps};
ghost use Rattle.siman_print.specs.Spelled.{line_text};
ghost use Rattle.siman_print.specs.Fields.{option_value};
ghost use Rattle.siman_print.specs.Line.{Number};
ghost use Rattle.siman_print.specs.Lent.{value_of};
ghost use Rattle.siman_operator.specs.Closing.{session_line, session_text, PrintsCounts};

use crate::PrintFault;
use byte_files::put;
use siman_lines::PassedOver;
use siman_print::{Field, PrintedRow as Said, Spelling, Value, put_line};
use std::alloc::{AllocError, Global};
use std::io::Write;

/// What the system says of the socket of a link, where it is known.
#[derive(Clone, Copy)]
pub(crate) struct SocketCounts {
    /// Datagrams that it dropped before they could be received.
    pub lost: Option<u64>,
    /// Bytes of datagrams that it keeps until they are received.
    pub buffer: Option<u64>,
}

/// A number, or a missing value.
pub(crate) fn number_value(number: Option<u64>) -> Value<'static>
    ensures { value_of result ≡ option_value Number number }
{
    match number {
        Some(number) => Value::Number(number),
        None => Value::Missing,
    }
}

/// Appends the row of counts: recorded entries, and datagrams that the station dropped and passed
/// over, and what the system says of the socket.
fn put_session(
    text: &mut String,
    records: u32,
    dropped: u64,
    passed: PassedOver,
    counts: SocketCounts,
) -> Result<(), AllocError>
    ensures { OnOk result (string_bytes text.new ≡ string_bytes text.old ++ line_text (session_line records dropped passed counts)) }
{
    let lost = number_value(counts.lost);
    let buffer = number_value(counts.buffer);
    let fields = [
        Field::Keyed("records", Value::Number(u64::from(records))),
        Field::Keyed("dropped", Value::Number(dropped)),
        Field::Keyed("strangers", Value::Number(passed.strangers)),
        Field::Keyed("other", Value::Number(passed.others)),
        Field::Keyed("lost", lost),
        Field::Keyed("buffer", buffer),
    ];
    put_line(text, Spelling::Text, &Said::named("station", &fields))
}

/// The row of counts.
fn session_line(
    alloc: Global,
    records: u32,
    dropped: u64,
    passed: PassedOver,
    counts: SocketCounts,
) -> Result<String, AllocError>
    ensures { IfOk result (λ line. string_bytes line ≡ session_text records dropped passed counts) }
{
    let mut line = String::new(alloc);
    put_session(&mut line, records, dropped, passed, counts)?;
    Ok(line)
}

/// Prints the row of counts.
pub(crate) fn print_counts<O: Write>(
    alloc: Global,
    records: u32,
    dropped: u64,
    passed: PassedOver,
    counts: SocketCounts,
    out: &mut O,
) -> Result<(), PrintFault>
    ensures { PrintsCounts (session_text records dropped passed counts) (O.contents out.old) (O.contents out.new) result }
{
    let Ok(line) = session_line(alloc, records, dropped, passed, counts) else {
        return Err(PrintFault::Memory);
    };
    print_text(out, &line)
}

/// Prints a text, and flushes the output.
pub(crate) fn print_text<O: Write>(out: &mut O, text: &str) -> Result<(), PrintFault>
    ensures { PrintsCounts text.now (O.contents out.old) (O.contents out.new) result }
{
    match put(out, text.as_bytes()) {
        Ok(()) => flush(out),
        Err(_) => Err(PrintFault::Write),
    }
}

/// Flushes the output.
fn flush<O: Write>(out: &mut O) -> Result<(), PrintFault>
    ensures kept { Keeps (O.contents out.old) (O.contents out.new) }
    ensures fault { IfErr result (λ fault. fault ≡ PrintFault.Write) }
{
    match out.flush() {
        Ok(()) => Ok(()),
        Err(_) => Err(PrintFault::Write),
    }
}
