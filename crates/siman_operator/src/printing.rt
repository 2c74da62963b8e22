//! Rows of entries, printed as they are recorded.

ghost use Rattle.std.specs.Prelude.{◌≡◌, Some, None, MatchOption};
ghost use Rattle.std.specs.Io.KnownBytes.{Appends, Keeps};
ghost use Rattle.byte_files.specs.Writing.{WritesPart};
ghost use Rattle.exercise_model.specs.Held.{shown};

use byte_files::put;
use exercise_log::GrowingLog;
use exercise_model::EntryView;
use siman_print::{Spelling, TextLine};
use std::alloc::Global;
use std::io::Write;

/// Why no further entry is printed.
#[derive(Clone, Copy, Debug, PartialEq, Eq)]
pub enum PrintFault {
    /// A write or a flush failed.
    Write,
    /// Memory ran out.
    Memory,
}

/// Prints the rows of each entry of a recording, up to the first that it cannot print.
#[derive(Drop)]
pub(crate) struct EntryPrinter {
    alloc: Global,
    /// Recording of the entries whose rows were made.
    log: GrowingLog,
    rows: String,
    line: TextLine,
    fault: Option<PrintFault>,
}

/// Flushes the output.
fn flush<O: Write>(out: &mut O) -> Option<PrintFault>
    ensures { Keeps (O.contents out.old) (O.contents out.new) }
{
    match out.flush() {
        Ok(()) => None,
        Err(_) => Some(PrintFault::Write),
    }
}

/// Writes rows, and flushes the output.
fn print_rows<O: Write>(out: &mut O, rows: &[u8]) -> Option<PrintFault>
    ensures { MatchOption result (Appends (O.contents out.old) (O.contents out.new) rows.now) (λ fault. WritesPart (O.contents out.old) (O.contents out.new) rows.now) }
{
    match put(out, rows) {
        Ok(()) => flush(out),
        Err(_) => Some(PrintFault::Write),
    }
}

impl EntryPrinter {
    ghost use Rattle.siman_operator.specs.Printing.{printing_of, PrintsEntry, PrintsText};

    /// A printer for the entries that follow those of a log.
    pub(crate) fn new(alloc: Global, log: GrowingLog) -> EntryPrinter
        ensures log { result.log ≡ log }
        ensures fault { result.fault ≡ None }
    {
        EntryPrinter {
            alloc,
            log,
            rows: String::new(alloc),
            line: TextLine::new(),
            fault: None,
        }
    }

    /// Why it prints no further entry. `None` if it goes on.
    pub(crate) fn fault(&self) -> Option<PrintFault>
        ensures { result ≡ self.now.fault }
    {
        self.fault
    }

    /// Prints the rows of the next entry, and flushes the output. Prints nothing if earlier rows
    /// were not printed whole.
    pub(crate) fn print<O: Write>(&mut self, out: &mut O, entry: EntryView<'_>)
        ensures { PrintsEntry (shown entry.entry) (printing_of self.old (O.contents out.old)) (printing_of self.new (O.contents out.new)) }
    {
        if self.fault.is_some() {
            return;
        }
        self.rows.clear();
        let made = self.log.put_next(
            self.alloc,
            &mut self.rows,
            &mut self.line,
            Spelling::Text,
            entry,
        );
        self.fault = match made {
            Ok(()) => print_rows(out, self.rows.as_bytes()),
            Err(_) => Some(PrintFault::Memory),
        };
    }

    /// Prints the text of notes, and flushes the output. Prints nothing if earlier rows were not
    /// printed whole.
    pub(crate) fn print_notes<O: Write>(&mut self, out: &mut O, text: &str)
        ensures log { self.new.log ≡ self.old.log }
        ensures printed { PrintsText text.now (printing_of self.old (O.contents out.old)) (printing_of self.new (O.contents out.new)) }
    {
        if self.fault.is_some() {
            return;
        }
        self.fault = print_rows(out, text.as_bytes());
    }

    /// Stops the printing, since an entry is unknown.
    pub(crate) fn stop_printing(&mut self)
        ensures log { self.new.log ≡ self.old.log }
        ensures fault { MatchOption self.old.fault (self.new.fault ≡ Some PrintFault.Memory) (λ fault. self.new.fault ≡ Some fault) }
    {
        if self.fault.is_none() {
            self.fault = Some(PrintFault::Memory);
        }
    }
}
