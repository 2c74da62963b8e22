//! Result of one line of text in a session, and its report.

ghost use Rattle.std.specs.Prelude.{◌≡◌, ◌++◌, decimal};
ghost use Rattle.byte_files.specs.Writing.{Writes};
ghost use Rattle.siman_operator.specs.Explanation.{second_line};
ghost use Rattle.siman_operator.specs.Receiver.{nobody_text};
ghost use Rattle.siman_operator.specs.Came.{station_fault_name, at_line, named, result_line, why_text, refused_text, line_text, memory_text, output_text, shortage_text, rejection_text, failed_text, warned_line, warning_text, result_of, is_lost, is_out_of_memory, is_unwritten, status_of};

use crate::explanation::{of_bad, of_clock, of_lost, of_other, of_station, put_second};
use crate::reason::BadReason;
use crate::receiver::put_nobody;
use crate::{LineResult, PrintFault, Rejection};
use byte_files::{PlacedText, WriteFailed, put, put_both};
use dis_records::SiteApplication;
use itoa::Buffer;
use siman_lines::LineTrouble;
use siman_manager::OrderFault;
use siman_stations::StationFault;
use std::io::Write;

/// Result of one line of text.
#[derive(Clone, Copy)]
pub struct Came {
    /// Result from the post.
    pub line: LineResult,
    /// Why printing of entries stopped, on the first line affected; later lines have `None`.
    pub print_stop: Option<PrintFault>,
    /// Site of the station that the session plays.
    pub site: u16,
    /// Application of that station.
    pub application: u16,
    /// Why the line is bad. `None` if it was not refused as bad, or if memory ran out.
    pub reason: Option<BadReason>,
    /// Last failed call of the station's link up to this line. `None` if no call failed or the link
    /// does not say.
    pub trouble: Option<LineTrouble>,
    /// Site and application of the line's order, if the line was done and no station of the script
    /// receives it. `None` also if memory ran out.
    pub nobody: Option<SiteApplication>,
}

impl Came {
    /// Whether a send or a receive failed.
    fn is_lost(self) -> bool
        ensures { result ≡ is_lost self }
    {
        self.line.done == Err(Rejection::Line) || self.line.trouble.line
    }

    /// Whether memory ran out.
    fn is_out_of_memory(self) -> bool
        ensures { result ≡ is_out_of_memory self }
    {
        let memory = self.line.done == Err(Rejection::Memory) || self.line.trouble.memory;
        memory || self.print_stop == Some(PrintFault::Memory)
    }

    /// Whether an entry was not recorded, or not printed since a write failed.
    fn is_unwritten(self) -> bool
        ensures { result ≡ is_unwritten self }
    {
        self.line.is_over() || self.print_stop == Some(PrintFault::Write)
    }

    /// Exit status of the line: 3 if memory ran out, else 2 if anything failed or was not done,
    /// else 0.
    pub fn status(self) -> u8
        ensures { result ≡ status_of self }
    {
        if self.is_out_of_memory() {
            return 3;
        }
        let failed = self.is_lost() || self.is_unwritten();
        if self.line.done.is_err() || failed {
            2
        } else {
            0
        }
    }
}

/// Name of a station fault, as printed.
fn station_fault_name(fault: StationFault) -> &'static str
    ensures { result.now ≡ station_fault_name fault }
{
    match fault {
        StationFault::NoSuchEntity => "no-such-entity",
        StationFault::NotARequest => "not-a-request",
        StationFault::Order(OrderFault::IdsSpent) => "ids-spent",
        StationFault::Order(OrderFault::TooLong) => "too-long",
        StationFault::Order(OrderFault::Memory) => "memory",
    }
}

/// Writes `line` and a number.
fn put_number<E: Write>(errors: &mut E, number: u64) -> Result<(), WriteFailed>
    ensures { Writes result (E.contents errors.old) (E.contents errors.new) (at_line number) }
{
    let mut buffer = Buffer::new();
    put_both(errors, b"line ", buffer.format(number).as_bytes())
}

/// Writes a colon, a name and a line end.
fn put_name<E: Write>(errors: &mut E, name: &str) -> Result<(), WriteFailed>
    ensures { Writes result (E.contents errors.old) (E.contents errors.new) (named name.now) }
{
    put_both(errors, b": ", name.as_bytes())?;
    put(errors, b"\n")
}

/// Writes the fault of a line of text: `line N: NAME`.
fn put_at_line<E: Write>(errors: &mut E, number: u64, name: &str) -> Result<(), WriteFailed>
    ensures { Writes result (E.contents errors.old) (E.contents errors.new) (result_line number name.now) }
{
    put_number(errors, number)?;
    put_name(errors, name)
}

/// Writes the fault of a line of text, and the second line that explains it, if any.
fn put_told<E: Write>(
    errors: &mut E,
    number: u64,
    name: &str,
    explanation: Option<PlacedText<'_>>,
) -> Result<(), WriteFailed>
    ensures { Writes result (E.contents errors.old) (E.contents errors.new) (result_line number name.now ++ second_line explanation.entry) }
{
    put_at_line(errors, number, name)?;
    put_second(errors, explanation)
}

/// Reports why a line was refused. Writes nothing for failures of the link, the recorder or memory,
/// which have reports of their own.
fn put_why_refused<E: Write>(
    errors: &mut E,
    number: u64,
    came: Came,
    why: Rejection,
) -> Result<(), WriteFailed>
    ensures { Writes result (E.contents errors.old) (E.contents errors.new) (why_text number came why) }
{
    let (site, application) = (came.site, came.application);
    match why {
        Rejection::BadLine => put_told(errors, number, "bad-line", of_bad(came.reason)),
        Rejection::UnknownStation => {
            put_told(
                errors,
                number,
                "unknown-station",
                of_other(site, application),
            )
        }
        Rejection::SystemClock => put_told(errors, number, "system-clock", of_clock()),
        Rejection::Station(fault) => {
            put_told(errors, number, station_fault_name(fault), of_station(fault))
        }
        Rejection::Line | Rejection::Record | Rejection::Memory => Ok(()),
    }
}

/// Reports why a line was not done, if it was not.
fn put_refused<E: Write>(errors: &mut E, number: u64, came: Came) -> Result<(), WriteFailed>
    ensures { Writes result (E.contents errors.old) (E.contents errors.new) (refused_text number came came.line.done) }
{
    match came.line.done {
        Ok(()) => Ok(()),
        Err(why) => put_why_refused(errors, number, came, why),
    }
}

/// Reports a failed send or receive at a line of text, if `lost`.
fn put_lost<E: Write>(
    errors: &mut E,
    number: u64,
    lost: bool,
    trouble: Option<LineTrouble>,
) -> Result<(), WriteFailed>
    ensures { Writes result (E.contents errors.old) (E.contents errors.new) (line_text number lost trouble) }
{
    if lost {
        return put_told(errors, number, "live: line", of_lost(trouble));
    }
    Ok(())
}

/// Reports that memory ran out, if it did.
fn put_memory<E: Write>(errors: &mut E, memory: bool) -> Result<(), WriteFailed>
    ensures { Writes result (E.contents errors.old) (E.contents errors.new) (memory_text memory) }
{
    if memory {
        return put(errors, b"memory\n");
    }
    Ok(())
}

/// Reports a failure to record or to print, if `failed`.
fn put_output<E: Write>(errors: &mut E, failed: bool) -> Result<(), WriteFailed>
    ensures { Writes result (E.contents errors.old) (E.contents errors.new) (output_text failed) }
{
    if failed {
        return put(errors, b"output: write\n");
    }
    Ok(())
}

/// Reports that memory ran out, and a failure to record or to print, where these happened.
fn put_wants<E: Write>(errors: &mut E, memory: bool, failed: bool) -> Result<(), WriteFailed>
    ensures { Writes result (E.contents errors.old) (E.contents errors.new) (shortage_text memory failed) }
{
    put_memory(errors, memory)?;
    put_output(errors, failed)
}

/// Reports why a line of text was not done, and a failed send or receive.
fn put_undone<E: Write>(errors: &mut E, number: u64, came: Came) -> Result<(), WriteFailed>
    ensures { Writes result (E.contents errors.old) (E.contents errors.new) (rejection_text number came) }
{
    put_refused(errors, number, came)?;
    put_lost(errors, number, came.is_lost(), came.trouble)
}

/// Reports all faults of a line of text.
fn put_failed<E: Write>(errors: &mut E, number: u64, came: Came) -> Result<(), WriteFailed>
    ensures { Writes result (E.contents errors.old) (E.contents errors.new) (failed_text number came) }
{
    put_undone(errors, number, came)?;
    put_wants(errors, came.is_out_of_memory(), came.is_unwritten())
}

/// Writes the number of a line whose order is for a station that the script lacks, and the address.
fn put_nobody_at<E: Write>(
    errors: &mut E,
    number: u64,
    site: u16,
    application: u16,
) -> Result<(), WriteFailed>
    ensures { Writes result (E.contents errors.old) (E.contents errors.new) (at_line number ++ nobody_text site application) }
{
    put_number(errors, number)?;
    put_nobody(errors, site, application)
}

/// Writes the warning of an order for a station that the script lacks.
fn put_warning<E: Write>(
    errors: &mut E,
    number: u64,
    site: u16,
    application: u16,
) -> Result<(), WriteFailed>
    ensures { Writes result (E.contents errors.old) (E.contents errors.new) (warned_line number site application) }
{
    put(errors, b"warning: ")?;
    put_nobody_at(errors, number, site, application)
}

/// Writes a warning if the order of a line is for a station that the script lacks.
fn put_any_warning<E: Write>(
    errors: &mut E,
    number: u64,
    nobody: Option<SiteApplication>,
) -> Result<(), WriteFailed>
    ensures { Writes result (E.contents errors.old) (E.contents errors.new) (warning_text number nobody) }
{
    match nobody {
        Some(nobody) => put_warning(errors, number, nobody.site, nobody.application),
        None => Ok(()),
    }
}

/// Reports all faults and warnings of a line of text.
pub(crate) fn put_report<E: Write>(
    errors: &mut E,
    number: u64,
    came: Came,
) -> Result<(), WriteFailed>
    ensures { Writes result (E.contents errors.old) (E.contents errors.new) (result_of number came) }
{
    put_failed(errors, number, came)?;
    put_any_warning(errors, number, came.nobody)
}
