//! A post: one station at its link, with the recorder of its entries and the printer of their rows.

ghost use Rattle.std.specs.Prelude.{◌≡◌, Some};
ghost use Rattle.siman_lines.specs.AtLines.{OrdersAt, RepeatsAt, TellsAt};
ghost use Rattle.siman_lines.specs.KeptAtLine.{Keeps};
ghost use Rattle.siman_operator.specs.Noting.{telling, datagrams_sent};
ghost use Rattle.siman_operator.specs.Deeds.{data_of, printed, ServesOnce, IsAtSameTime, PrintsCall, GoesOn, at_time, ticks_at};
ghost use Rattle.siman_operator.specs.Posts.{begun_post};
ghost use Rattle.siman_operator.specs.Printing.{printing_of};
ghost use Rattle.siman_operator.specs.Clocks.{wait_end};
ghost use Rattle.siman_operator.specs.Closing.{session_text, PrintsEnd, Closes};

use crate::clock::{ClockSource, Pace};
use crate::closing::{SocketCounts, print_counts};
use crate::printing::{EntryPrinter, PrintFault};
use crate::tracing_line::TracingLine;
use crate::turn_printing::{TurnCounts, print_sent, print_turn};
use dis_records::Address;
use exercise_log::GrowingLog;
use exercise_model::EntryView;
use exercise_recording::RecordingWriter;
use siman_lines::{
    AtLineFault, Line, LineTrouble, Moment, ServeFault, Served, StationAtLine, moment_is_in_range,
    order_at, repeat_at, serve_stamped, tell_at,
};
use siman_manager::Order;
use std::alloc::Global;
use std::io::Write;

/// One station at its link, which is the only one of its recording, with its recorder, the printer
/// of its entries, its address in the exercise, its clock, and what sets it.
#[derive(Drop)]
pub struct Post<'s, L: Line + Drop, W: Write> {
    pub(crate) station: StationAtLine<TracingLine<L>>,
    pub(crate) recorder: RecordingWriter<'s, W>,
    pub(crate) printer: EntryPrinter,
    pub(crate) address: Address,
    pub(crate) clock: Moment,
    pub(crate) source: ClockSource,
}

/// Serves a station for one receive, as [`serve`] does, and counts a datagram that it dropped.
fn serve_counting<L: Line + Drop, W: Write>(
    alloc: Global,
    station: &mut StationAtLine<TracingLine<L>>,
    recorder: &mut RecordingWriter<'_, W>,
    moment: Moment,
) -> Result<Served, ServeFault>
    ensures ends { ServesOnce (telling L.passed) moment station.old recorder.old station.new recorder.new result }
    ensures keeps { Keeps station.old.index station.old.node recorder.old (Some (datagrams_sent station.old.line)) station.new.node recorder.new (Some (datagrams_sent station.new.line)) }
{
    let StationAtLine {
        index,
        node,
        line,
        dropped,
        ..
    } = station;
    match serve_stamped(alloc, line, node, recorder, *index, moment, 1) {
        Ok(served) => {
            *dropped = dropped.saturating_add(u64::from(served.dropped));
            Ok(served)
        }
        Err(fault) => Err(fault),
    }
}

impl<'s, L: Line + Drop, W: Write> Post<'s, L, W> {
    /// A post in its initial state: a station at its link, with its address in an exercise, a
    /// recorder, and the log whose rows it prints. Its clock shows 0.
    pub fn begin(
        alloc: Global,
        log: GrowingLog,
        address: Address,
        station: StationAtLine<TracingLine<L>>,
        recorder: RecordingWriter<'s, W>,
        source: ClockSource,
    ) -> Post<'s, L, W>
        ensures { data_of result ≡ begun_post log address station recorder.entry source }
    {
        Post {
            station,
            recorder,
            printer: EntryPrinter::new(alloc, log),
            address,
            clock: Moment::relative(0),
            source,
        }
    }

    /// Records and sends a new order, as [`order_at`] does, and prints the rows of its entry.
    pub(crate) fn order<O: Write>(
        &mut self,
        alloc: Global,
        out: &mut O,
        order: Order,
    ) -> Result<(), AtLineFault>
        ensures ends { OrdersAt (telling L.passed) self.old.clock order self.old.station self.old.recorder self.new.station self.new.recorder result }
        ensures time { IsAtSameTime (data_of self.old) (data_of self.new) }
        ensures prints { PrintsCall self.old.clock.now self.old.station self.old.recorder self.new.station self.new.recorder (printing_of self.old.printer (O.contents out.old)) (printing_of self.new.printer (O.contents out.new)) }
        ensures goes { GoesOn (printed (data_of self.old) (O.contents out.old)) (printed (data_of self.new) (O.contents out.new)) }
    {
        let Post {
            station,
            recorder,
            printer,
            clock,
            ..
        } = self;
        let moment = *clock;
        moment_is_in_range(moment);
        let entries = recorder.entry_count();
        let sent = station.line.sent_count();
        let done = order_at(alloc, station, recorder, moment, order);
        print_sent(station, printer, recorder, out, moment.now, entries, sent);
        done
    }

    /// Records and sends the repeat that is due, if any, as [`repeat_at`] does, and prints the row
    /// of its entry.
    pub(crate) fn send_repeat<O: Write>(
        &mut self,
        alloc: Global,
        out: &mut O,
    ) -> Result<(), AtLineFault>
        ensures ends { RepeatsAt (telling L.passed) self.old.clock self.old.station self.old.recorder self.new.station self.new.recorder result }
        ensures time { IsAtSameTime (data_of self.old) (data_of self.new) }
        ensures prints { PrintsCall self.old.clock.now self.old.station self.old.recorder self.new.station self.new.recorder (printing_of self.old.printer (O.contents out.old)) (printing_of self.new.printer (O.contents out.new)) }
        ensures goes { GoesOn (printed (data_of self.old) (O.contents out.old)) (printed (data_of self.new) (O.contents out.new)) }
    {
        let Post {
            station,
            recorder,
            printer,
            clock,
            ..
        } = self;
        let moment = *clock;
        moment_is_in_range(moment);
        let entries = recorder.entry_count();
        let sent = station.line.sent_count();
        let done = repeat_at(alloc, station, recorder, moment);
        print_sent(station, printer, recorder, out, moment.now, entries, sent);
        done
    }

    /// Records the state of an entity as told, as [`tell_at`] does, and prints the row of its
    /// entry.
    pub(crate) fn tell<O: Write>(&mut self, out: &mut O, entity: u16) -> Result<(), AtLineFault>
        ensures ends { TellsAt entity self.old.station self.old.recorder self.new.recorder result }
        ensures station { self.new.station ≡ self.old.station }
        ensures time { IsAtSameTime (data_of self.old) (data_of self.new) }
        ensures goes { GoesOn (printed (data_of self.old) (O.contents out.old)) (printed (data_of self.new) (O.contents out.new)) }
    {
        let Post {
            station,
            recorder,
            printer,
            ..
        } = self;
        if let Err(fault) = tell_at(station, recorder, entity) {
            return Err(fault);
        }
        let told = EntryView::Told {
            station: station.index,
            entity,
            state: station.node.application.state(entity),
        };
        printer.print(out, told);
        Ok(())
    }

    /// Serves the station for one receive, as [`serve`] does, counts a datagram that it dropped,
    /// and prints the rows of what it recorded.
    pub(crate) fn serve_once<O: Write>(
        &mut self,
        alloc: Global,
        out: &mut O,
    ) -> Result<Served, ServeFault>
        ensures ends { ServesOnce (telling L.passed) self.old.clock self.old.station self.old.recorder self.new.station self.new.recorder result }
        ensures time { IsAtSameTime (data_of self.old) (data_of self.new) }
        ensures goes { GoesOn (printed (data_of self.old) (O.contents out.old)) (printed (data_of self.new) (O.contents out.new)) }
    {
        let Post {
            station,
            recorder,
            printer,
            clock,
            ..
        } = self;
        let moment = *clock;
        moment_is_in_range(moment);
        let before = TurnCounts {
            entries: recorder.entry_count(),
            received: station.line.received_count(),
            sent: station.line.sent_count(),
        };
        let served = serve_counting(alloc, station, recorder, moment);
        print_turn(station, printer, recorder, out, moment.now, before);
        served
    }

    /// What the system says of the socket of its link.
    fn socket_counts(&self) -> SocketCounts {
        let line = &self.station.line;
        SocketCounts {
            lost: line.lost(),
            buffer: line.buffer(),
        }
    }

    /// Prints the counts of its recording, if every entry was printed.
    fn print_end<O: Write>(
        &self,
        alloc: Global,
        counts: SocketCounts,
        out: &mut O,
    ) -> Result<(), PrintFault>
        ensures { PrintsEnd self.now.printer.fault (session_text self.now.recorder.entries self.now.station.dropped (L.passed self.now.station.line.line) counts) (O.contents out.old) (O.contents out.new) result }
    {
        if self.printer.fault().is_some() {
            return Ok(());
        }
        let records = self.recorder.entry_count();
        let passed = self.station.line.passed();
        print_counts(alloc, records, self.station.dropped, passed, counts, out)
    }

    /// Ends the recording, and prints its counts if every entry was printed.
    pub(crate) fn close<O: Write>(&mut self, alloc: Global, out: &mut O) -> Result<(), PrintFault>
        ensures { Closes L.passed (data_of self.old) (data_of self.new) (O.contents out.old) (O.contents out.new) result }
    {
        match self.recorder.finish() {
            Ok(()) => {
                let counts = self.socket_counts();
                self.print_end(alloc, counts, out)
            }
            Err(_) => Err(PrintFault::Write),
        }
    }

    /// Its link.
    pub(crate) fn link(&self) -> &L
        ensures { result.now ≡ self.now.station.line.line }
    {
        self.station.line.inner()
    }

    /// Last failed call of its link, if there was any and the link records it.
    pub(crate) fn line_trouble(&self) -> Option<LineTrouble> {
        self.station.line.trouble()
    }

    /// Address of its station.
    pub(crate) fn address(&self) -> Address
        ensures { result ≡ self.now.address }
    {
        self.address
    }

    /// Time of its clock.
    pub(crate) fn time(&self) -> u64
        ensures { result ≡ self.now.clock.now }
    {
        self.clock.now
    }

    /// Whether it ticks by itself, since an order is due by the system's clock, and until when it
    /// waits otherwise for what comes next.
    pub(crate) fn pace(&self) -> Pace
        ensures ticks { result.ticks ≡ ticks_at (data_of self.now) }
        ensures until { result.until ≡ wait_end self.now.source self.now.station.node.manager }
    {
        let manager = &self.station.node.manager;
        self.source.pace(manager, self.clock.now)
    }

    /// Sets its clock, given what the system's clock shows.
    pub(crate) fn see_time(&mut self, time: u64)
        ensures { data_of self.new ≡ at_time time (data_of self.old) }
    {
        self.clock = self.source.at(time, self.clock);
    }

    /// Why no further entry is printed. `None` if printing goes on.
    pub(crate) fn print_fault(&self) -> Option<PrintFault>
        ensures { result ≡ self.now.printer.fault }
    {
        self.printer.fault()
    }

    /// The writer of its recording.
    pub(crate) fn into_file(self) -> W
        ensures { W.contents result ≡ self.entry.recorder.contents }
    {
        let Post { recorder, .. } = self;
        recorder.into_inner()
    }
}
