//! The command `pdus`: shows datagrams given as hex text, one in each line.

ghost use Rattle.std.specs.Prelude.{◌≡◌, ◌+◌, List, ℕ, None, length, IfOk};
ghost use Rattle.std.specs.Io.Buffered.{reader_remaining};
ghost use Rattle.byte_files.specs.Text.{lines_of};
ghost use Rattle.siman_file_commands.specs.declared.hex_text.TheConstants.{LONGEST_HEX};
ghost use Rattle.siman_outside.specs.declared.fault.Fault.TheVariants.{Memory};
ghost use Rattle.siman_file_commands.specs.declared.pdus.PdusFault.TheVariants as stops;
ghost use Rattle.siman_outside.specs.Ending.{Wrote};
ghost use Rattle.siman_outside.specs.Outside.{Given, Has, Outcome, begun_by, outcome_of, stream};
ghost use Rattle.siman_file_commands.specs.Pdus.{result_of_line, PutsBadLine, ShowsLine, ShowsLines, EndsAt, EndsLines};

use crate::hex_text::LONGEST_HEX;
use crate::input::{Count, UnreadLine, read_line};
use crate::pdu::tell;
use byte_files::WriteFailed;
use siman_outside::{Ended, Ending, Fault, conclude, end, tell as tell_fault};
use std::alloc::{AllocError, Global};
use std::io::{BufReader, Read, Write};

/// Why `pdus` stopped before the end of its input.
#[derive(Clone, Copy)]
pub(crate) enum PdusFault {
    /// Memory ran out, or an answer could not be written whole.
    Fault(Fault<'static>),
    /// A read failed.
    Unread(UnreadLine),
    /// The fault of a bad line could not be written whole.
    Unreported(WriteFailed),
}

impl From<AllocError> for PdusFault {
    ghost from_gives = { λ _ stop. stop ≡ stops.Fault Memory };

    fn from(_e: AllocError) -> PdusFault {
        PdusFault::Fault(Fault::Memory)
    }
}

impl From<UnreadLine> for PdusFault {
    ghost from_gives = { λ failed stop. stop ≡ stops.Unread failed };

    fn from(failed: UnreadLine) -> PdusFault {
        PdusFault::Unread(failed)
    }
}

/// Shows the datagrams of an input in hex text, one in each line, each as
/// [`pdu_command`](crate::pdu_command) does; empty lines are skipped. A line that is not pairs of
/// hex digits, or has more than 65,536 bytes, is reported on `errors` with its number, from 1
/// (`hex: not byte pairs at line N`), and the rest is still shown. A line ends with a line feed,
/// which the last may lack; a carriage return is no hex digit.
///
/// The status is the worst of the lines: 0, 1 if a datagram was refused, 2 if a line was bad. A
/// failed read (`file: -`) or write (`output: write`) ends the command with status 2, lack of
/// memory (`memory`) with status 3; the output for the lines before is complete. At most 65,537
/// bytes of a line are buffered.
pub fn pdus_command<R: Read + Drop, W: Write, E: Write>(
    alloc: Global,
    input: R,
    out: &mut W,
    errors: &mut E,
) -> u8
    ensures { (bytes : List ℕ) × Has (R.remaining input) bytes × ((wrote : Wrote) × (let o : Outcome = record { ended = record { status = result; written = wrote }; fault = None; begun = None; out = record { old = W.contents out.old; new = W.contents out.new }; errors = record { old = E.contents errors.old; new = E.contents errors.new } } in
        EndsLines (lines_of bytes) o)) }
{
    end_lines(alloc, input, out, errors).ended.status
}

/// As [`pdus_command`], but returns the whole ending.
pub fn end_lines<R: Read + Drop, W: Write, E: Write>(
    alloc: Global,
    input: R,
    out: &mut W,
    errors: &mut E,
) -> Ending<'static>
    ensures ends { Given (R.remaining input) (λ bytes. EndsLines (lines_of bytes) (outcome_of result (stream (W.contents out.old) (W.contents out.new)) (stream (E.contents errors.old) (E.contents errors.new)))) }
    ensures begun { begun_by result ≡ None }
{
    end_at(show_input(alloc, input, out, errors), errors)
}

/// Ends the command, at the end of its input or where it stopped.
fn end_at<E: Write>(answered: Result<u8, PdusFault>, errors: &mut E) -> Ending<'static>
    ensures ends { EndsAt answered result.ended (E.contents errors.old) (E.contents errors.new) }
    ensures begun { begun_by result ≡ None }
{
    match answered {
        Ok(status) => Ending {
            ended: end(Ok(status), errors),
            // The reason for bad lines is printed once.
            fault: (status == 2).then_some(Fault::NotBytePairs),
            begun: None,
            trouble: None,
            warning: None,
            further: None,
        },
        Err(PdusFault::Fault(fault)) => conclude(Err(fault), errors),
        Err(PdusFault::Unread(_)) => conclude(Err(Fault::Input), errors),
        Err(PdusFault::Unreported(failed)) => Ending {
            ended: Ended {
                status: 2,
                written: Err(failed),
            },
            fault: None,
            begun: None,
            trouble: None,
            warning: None,
            further: None,
        },
    }
}

/// Shows all lines of an input, and returns the worst status.
fn show_input<R: Read + Drop, W: Write, E: Write>(
    alloc: Global,
    input: R,
    out: &mut W,
    errors: &mut E,
) -> Result<u8, PdusFault>
    ensures { Given (R.remaining input) (λ bytes. ShowsLines (lines_of bytes) result (stream (W.contents out.old) (W.contents out.new)) (stream (E.contents errors.old) (E.contents errors.new))) }
{
    let mut reader = buffered(alloc, input)?;
    let mut line = vec![in alloc; 0u8; LONGEST_HEX + 1]?;
    show_lines(alloc, &mut reader, &mut line, out, errors)
}

/// A reader with a buffer of its own.
fn buffered<R: Read + Drop>(alloc: Global, input: R) -> Result<BufReader<R>, AllocError>
    ensures { IfOk result (λ reader. reader_remaining R.remaining reader ≡ R.remaining input) }
{
    match BufReader::new(alloc, input) {
        Ok(reader) => Ok(reader),
        Err(_) => Err(AllocError),
    }
}

/// Shows the rest of the lines, each read into `buffer`, and returns the worst status.
fn show_lines<R: Read, W: Write, E: Write>(
    alloc: Global,
    reader: &mut R,
    buffer: &mut [u8],
    out: &mut W,
    errors: &mut E,
) -> Result<u8, PdusFault>
    requires { length buffer.old ≡ LONGEST_HEX + 1 }
    ensures { Given (R.remaining reader.old) (λ bytes. ShowsLines (lines_of bytes) result (stream (W.contents out.old) (W.contents out.new)) (stream (E.contents errors.old) (E.contents errors.new))) }
{
    let mut worst = 0;
    let mut count = Count::new();
    loop {
        let number = count.one_more()?;
        let Some(held) = read_line(reader, buffer)? else {
            return Ok(worst);
        };
        let status = show_line(alloc, number, &buffer[..held], out, errors)?;
        worst = worst.max(status);
    }
}

/// Shows a line, and returns its status: 0 for an empty one.
fn show_line<W: Write, E: Write>(
    alloc: Global,
    number: usize,
    line: &[u8],
    out: &mut W,
    errors: &mut E,
) -> Result<u8, PdusFault>
    ensures { ShowsLine (result_of_line number line.now) result (stream (W.contents out.old) (W.contents out.new)) (stream (E.contents errors.old) (E.contents errors.new)) }
{
    if line.is_empty() {
        return Ok(0);
    }
    match tell(alloc, line, out) {
        Ok(status) => Ok(status),
        Err(fault) => match fault {
            Fault::NotBytePairs => put_bad_line(number, errors),
            _ => Err(PdusFault::Fault(fault)),
        },
    }
}

/// Reports a bad line by its number, and returns its status, 2.
fn put_bad_line<E: Write>(number: usize, errors: &mut E) -> Result<u8, PdusFault>
    ensures { PutsBadLine number result (stream (E.contents errors.old) (E.contents errors.new)) }
{
    match tell_fault(Fault::HexLine(number), errors) {
        Ok(()) => Ok(2),
        Err(failed) => Err(PdusFault::Unreported(failed)),
    }
}
