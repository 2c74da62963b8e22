//! The rows of the entries of a call at a station, printed after it.

ghost use Rattle.std.specs.Prelude.{◌≡◌, ◌≤◌};
ghost use Rattle.exercise_model.specs.declared.recording.TheConstants.{MOST_ENTRIES};
ghost use Rattle.siman_operator.specs.Printing.{printing_of};
ghost use Rattle.siman_operator.specs.Deeds.{PrintsSent, PrintsTurn};

use crate::printing::EntryPrinter;
use crate::tracing_line::TracingLine;
use exercise_model::EntryView;
use exercise_recording::RecordingWriter;
use siman_lines::{Line, StationAtLine};
use std::io::Write;

/// Prints the entry of a sent datagram, if one was recorded since the recording had `entries`
/// entries and the link had sent `sent` datagrams. If the link has sent none since, the datagram is
/// unknown, and nothing further is printed.
pub(crate) fn print_sent<L: Line + Drop, W: Write, O: Write>(
    station: &StationAtLine<TracingLine<L>>,
    printer: &mut EntryPrinter,
    recorder: &RecordingWriter<'_, W>,
    out: &mut O,
    now: u64,
    entries: u32,
    sent: u64,
)
    ensures { PrintsSent station.now recorder.now.entries now entries sent (printing_of printer.old (O.contents out.old)) (printing_of printer.new (O.contents out.new)) }
{
    if recorder.entry_count() == entries {
        return;
    }
    if station.line.sent_count() == sent {
        printer.stop_printing();
        return;
    }
    let entry = EntryView::Sent {
        station: station.index,
        stamp: now,
        bytes: station.line.last_sent(),
    };
    printer.print(out, entry);
}

/// What a recording and a link had before a turn.
#[derive(Clone, Copy)]
pub(crate) struct TurnCounts {
    /// Entries of the recording.
    pub entries: u32,
    /// Datagrams that the link had returned.
    pub received: u64,
    /// Datagrams that the link had sent.
    pub sent: u64,
}

/// Prints the entries of a turn: that of the received datagram and that of the answer, if they were
/// recorded since these counts. If the link has not returned exactly one datagram since, nothing
/// further is printed.
pub(crate) fn print_turn<L: Line + Drop, W: Write, O: Write>(
    station: &StationAtLine<TracingLine<L>>,
    printer: &mut EntryPrinter,
    recorder: &RecordingWriter<'_, W>,
    out: &mut O,
    now: u64,
    before: TurnCounts,
)
    requires { before.entries ≤ MOST_ENTRIES }
    ensures { PrintsTurn station.now recorder.now.entries now before.entries before.received before.sent (printing_of printer.old (O.contents out.old)) (printing_of printer.new (O.contents out.new)) }
{
    let TurnCounts {
        entries,
        received,
        sent,
    } = before;
    if recorder.entry_count() == entries {
        return;
    }
    if station.line.received_count().saturating_sub(received) != 1 {
        printer.stop_printing();
        return;
    }
    let entry = EntryView::Received {
        station: station.index,
        stamp: now,
        bytes: station.line.last_received(),
    };
    printer.print(out, entry);
    print_sent(station, printer, recorder, out, now, entries + 1, sent);
}
