//! The lines of a text and the datagrams between them, taken by a post as they come.

ghost use Rattle.std.specs.Prelude.{◌≡◌, ◌≢◌, ◌+◌, length, true, false};
ghost use Rattle.siman_operator.specs.Coming.{is_tick};
ghost use Rattle.siman_operator.specs.Deeds.{data_of, printed, GoesOn, at_time};
ghost use Rattle.siman_operator.specs.Noting.{telling};
ghost use Rattle.siman_operator.specs.Posts.{TakesLine};
ghost use Rattle.siman_operator.specs.declared.reading.TheConstants.{LONGEST_LINE};
ghost use Rattle.siman_operator.specs.Reading.{said_by};
ghost use Rattle.siman_operator.specs.Reason.{Reasons};
ghost use Rattle.siman_operator.specs.Receiver.{WarnsOf};
ghost use Rattle.siman_operator.specs.Sessions.{print_stop_at, command_taken, quit_line, PlaysLines};

use crate::came::Came;
use crate::coming::{Come, next_step};
use crate::reading::{LONGEST_LINE, line_or_placeholder, question_of};
use crate::reason::reason_of;
use crate::receiver::warned_receiver;
use crate::session_notes::LinkNoted;
use crate::session_report::SessionReport;
use crate::{LineResult, Post, PrintFault};
use dis_records::Address;
use siman_lines::{Input, Line};
use std::alloc::Global;
use std::io::Write;

/// Why no further line of a text is taken.
#[derive(Clone, Copy, Debug)]
pub enum Stop {
    /// The text has ended.
    End,
    /// A line said `quit`.
    Quit,
    /// A read failed.
    Unread,
    /// An entry was not recorded.
    Unrecorded,
}

/// Result of the lines of a text.
#[derive(Clone, Copy)]
pub(crate) struct Played {
    pub(crate) told: SessionReport,
    pub(crate) stop: Stop,
}

/// Why printing stopped at this line; `None` if it goes on or had stopped before.
fn print_stop_at(before: Option<PrintFault>, after: Option<PrintFault>) -> Option<PrintFault>
    ensures { result ≡ print_stop_at before after }
{
    if before.is_some() { None } else { after }
}

/// Takes a line, or a tick, at the time that the system's clock shows, if it is the post's.
fn take_come<L: Line + Drop, W: Write, O: Write>(
    alloc: Global,
    post: &mut Post<'_, L, W>,
    out: &mut O,
    held: &[u8],
    come: Come,
) -> LineResult
    ensures ends { TakesLine (telling L.passed) (command_taken post.old.address (is_tick come.coming) held.now) (at_time come.found.time (data_of post.old)) (data_of post.new) result }
    ensures goes { GoesOn (printed (data_of post.old) (O.contents out.old)) (printed (data_of post.new) (O.contents out.new)) }
{
    post.see_time(come.found.time);
    if come.coming.is_tick() {
        return post.take_tick(alloc, out);
    }
    post.take_line(alloc, out, line_or_placeholder(held))
}

/// Takes a line in a session of a script with these stations, or a tick, answers what it asks of the
/// session, and notes what is new at the link. `held` is the line, or its beginning if it is longer
/// than the buffer.
fn take_coming<L: Line + Drop, W: Write, O: Write>(
    alloc: Global,
    stations: &[Address],
    post: &mut Post<'_, L, W>,
    out: &mut O,
    noted: &mut LinkNoted,
    held: &[u8],
    come: Come,
) -> Came
    ensures takes { TakesLine (telling L.passed) (command_taken post.old.address (is_tick come.coming) held.now) (at_time come.found.time (data_of post.old)) (data_of post.new) result.line }
    ensures print_stop { result.print_stop ≡ print_stop_at post.old.printer.fault post.new.printer.fault }
    ensures site { result.site ≡ post.old.address.site }
    ensures application { result.application ≡ post.old.address.application }
    ensures reason { Reasons held.now result.line.done result.reason }
    ensures nobody { WarnsOf stations.now (said_by held.now) result.line.done result.nobody }
    ensures goes { GoesOn (printed (data_of post.old) (O.contents out.old)) (printed (data_of post.new) (O.contents out.new)) }
{
    let before = post.print_fault();
    let own = post.address();
    let line = take_come(alloc, post, out, held, come);
    post.answer(alloc, out, question_of(held));
    *noted = post.note_link(alloc, out, *noted);
    Came {
        line,
        print_stop: print_stop_at(before, post.print_fault()),
        site: own.site(),
        application: own.application(),
        reason: reason_of(alloc, held, line.done),
        trouble: post.line_trouble(),
        nobody: warned_receiver(alloc, stations, held, line.done),
    }
}

/// Whether a line ends the session.
fn is_quit(held: &[u8]) -> bool
    ensures quits { result ≡ true → held.now ≡ quit_line }
    ensures goes_on { result ≡ false → held.now ≢ quit_line }
{
    held == b"quit".as_slice()
}

/// Takes the rest of the lines of a text, each through the buffer, and between them the datagrams
/// that come and the ticks by the system's clock. Reports what was not done, and a warning if no
/// station of the script receives an order. Stops at a line `quit`, and where an entry was not
/// recorded.
pub(crate) fn play_lines<L: Line + Drop, R: Input<L>, W: Write, O: Write, E: Write>(
    alloc: Global,
    stations: &[Address],
    post: &mut Post<'_, L, W>,
    input: &mut R,
    buffer: &mut [u8],
    out: &mut O,
    errors: &mut E,
) -> Played
    requires { length buffer.old ≡ LONGEST_LINE + 1 }
    ensures plays { PlaysLines stations.now (telling L.passed) (R.remaining input.old) (data_of post.old) (data_of post.new) (E.contents errors.old) (E.contents errors.new) result }
    ensures goes { GoesOn (printed (data_of post.old) (O.contents out.old)) (printed (data_of post.new) (O.contents out.new)) }
{
    let mut told = SessionReport::nothing();
    let mut number: u64 = 0;
    let mut held = 0;
    let mut noted = LinkNoted::nothing();
    for _ in 0..u64::MAX {
        let Ok(come) = next_step(input, post, buffer, &mut held) else {
            return Played {
                told,
                stop: Stop::Unread,
            };
        };
        let Some(size) = come.coming.size() else {
            return Played {
                told,
                stop: Stop::End,
            };
        };
        let said = &buffer[..size];
        if is_quit(said) {
            return Played {
                told,
                stop: Stop::Quit,
            };
        }
        let came = take_coming(alloc, stations, post, out, &mut noted, said, come);
        number = come.coming.number(number);
        told = told.and_line(errors, number, came);
        if came.line.is_over() {
            return Played {
                told,
                stop: Stop::Unrecorded,
            };
        }
    }
    Played {
        told,
        stop: Stop::Unread,
    }
}
