//! Reports of a session: worst exit status, and whether all of them were written.

ghost use Rattle.std.specs.Prelude.{◌≡◌, max, Ok};
ghost use Rattle.siman_operator.specs.Came.{status_of, result_of};
ghost use Rattle.siman_operator.specs.Told.{WritesMore, closed_status, closed_text, unread_text};

use crate::PrintFault;
use crate::came::{Came, put_report};
use byte_files::{WriteFailed, put};
use std::io::Write;

/// Reports of a session so far.
#[derive(Clone, Copy, PartialEq, Eq)]
pub struct SessionReport {
    /// Worst status: 3 if memory ran out, else 2 if anything failed or was not done, else 0.
    pub status: u8,
    /// Whether all reports were written to the writer of faults. After a failed write it has a
    /// prefix of them, and nothing further is written.
    pub written: Result<(), WriteFailed>,
}

impl SessionReport {
    /// No reports.
    pub(crate) fn nothing() -> SessionReport
        ensures { result ≡ record { status = 0; written = Ok tt } }
    {
        SessionReport {
            status: 0,
            written: Ok(()),
        }
    }

    /// Reports the result of the line with this number.
    pub(crate) fn and_line<E: Write>(self, errors: &mut E, number: u64, came: Came) -> SessionReport
        ensures status { result.status ≡ max self.status (status_of came) }
        ensures told { WritesMore self.written result.written (E.contents errors.old) (E.contents errors.new) (result_of number came) }
    {
        let status = self.status.max(came.status());
        SessionReport {
            status,
            written: put_more_report(self.written, errors, number, came),
        }
    }

    /// Reports that the text could not be read to its end.
    pub(crate) fn and_unread<E: Write>(self, errors: &mut E) -> SessionReport
        ensures status { result.status ≡ max self.status 2 }
        ensures told { WritesMore self.written result.written (E.contents errors.old) (E.contents errors.new) unread_text }
    {
        let status = self.status.max(2);
        SessionReport {
            status,
            written: put_more(self.written, errors, b"file: -\n"),
        }
    }

    /// Reports a recording without an end or not settled on the disk, or counts that were not
    /// printed.
    pub fn and_closed<E: Write>(
        self,
        errors: &mut E,
        closed: Result<(), PrintFault>,
    ) -> SessionReport
        ensures status { result.status ≡ max self.status (closed_status closed) }
        ensures told { WritesMore self.written result.written (E.contents errors.old) (E.contents errors.new) (closed_text closed) }
    {
        let status = self.status.max(closed_status(closed));
        SessionReport {
            status,
            written: put_more(self.written, errors, closed_text(closed)),
        }
    }
}

/// Reports the result of a line, unless an earlier report was not written whole.
fn put_more_report<E: Write>(
    written: Result<(), WriteFailed>,
    errors: &mut E,
    number: u64,
    came: Came,
) -> Result<(), WriteFailed>
    ensures { WritesMore written result (E.contents errors.old) (E.contents errors.new) (result_of number came) }
{
    match written {
        Ok(()) => put_report(errors, number, came),
        Err(failed) => Err(failed),
    }
}

/// Writes the text of a report, unless an earlier report was not written whole.
fn put_more<E: Write>(
    written: Result<(), WriteFailed>,
    errors: &mut E,
    text: &[u8],
) -> Result<(), WriteFailed>
    ensures { WritesMore written result (E.contents errors.old) (E.contents errors.new) text.now }
{
    match written {
        Ok(()) => put(errors, text),
        Err(failed) => Err(failed),
    }
}

/// Report of a fault at the end of a session.
fn closed_text(closed: Result<(), PrintFault>) -> &'static [u8]
    ensures { result.now ≡ closed_text closed }
{
    match closed {
        Ok(()) => b"",
        Err(PrintFault::Write) => b"output: write\n",
        Err(PrintFault::Memory) => b"memory\n",
    }
}

/// Exit status of a fault at the end of a session.
fn closed_status(closed: Result<(), PrintFault>) -> u8
    ensures { result ≡ closed_status closed }
{
    match closed {
        Ok(()) => 0,
        Err(PrintFault::Write) => 2,
        Err(PrintFault::Memory) => 3,
    }
}
