//! A session: one post, played by the lines of a text until its end.

ghost use Rattle.std.specs.Prelude.{◌≡◌, ◌+◌, length};
ghost use Rattle.siman_operator.specs.Deeds.{data_of};
ghost use Rattle.siman_operator.specs.declared.reading.TheConstants.{LONGEST_LINE};
ghost use Rattle.siman_operator.specs.Sessions.{ClosesAt, EndsSession, Plays};

use crate::Post;
use crate::playing::{Played, Stop, play_lines};
use crate::reading::LONGEST_LINE;
use crate::session_report::SessionReport;
use dis_records::Address;
use siman_lines::{Input, Line};
use std::alloc::Global;
use std::io::Write;

/// Ends the recording, prints its counts, and reports a failure of either.
fn close_session<L: Line + Drop, W: Write, O: Write, E: Write>(
    alloc: Global,
    post: &mut Post<'_, L, W>,
    told: SessionReport,
    out: &mut O,
    errors: &mut E,
) -> SessionReport
    ensures { ClosesAt L.passed (data_of post.old) (data_of post.new) (O.contents out.old) (O.contents out.new) told result (E.contents errors.old) (E.contents errors.new) }
{
    let closed = post.close(alloc, out);
    told.and_closed(errors, closed)
}

/// Ends a session whose lines stopped for this reason. Ends the recording, unless an entry was not
/// recorded.
fn end_session<L: Line + Drop, W: Write, O: Write, E: Write>(
    alloc: Global,
    post: &mut Post<'_, L, W>,
    played: Played,
    out: &mut O,
    errors: &mut E,
) -> SessionReport
    ensures { EndsSession L.passed played.stop (data_of post.old) (data_of post.new) (O.contents out.old) (O.contents out.new) played.told result (E.contents errors.old) (E.contents errors.new) }
{
    let told = played.told;
    match played.stop {
        Stop::End | Stop::Quit => close_session(alloc, post, told, out, errors),
        Stop::Unread => {
            let told = told.and_unread(errors);
            close_session(alloc, post, told, out, errors)
        }
        Stop::Unrecorded => told,
    }
}

/// Plays a post by the lines of a reader, to the end. Each line is read into the buffer of 65,537
/// bytes and taken ([`Post::take_line`]); a line of more than 65,536 bytes is refused.
///
/// Reports, with the number of the line, from 1: a line that was not done, and a failed send or
/// receive, each with a second line that explains it. Reports that memory ran out, and that an
/// entry was not printed. Then warns of an order that none of `stations`, the stations of the
/// script, receives. After all of these the session goes on. It ends at once when an entry was not
/// recorded: this is reported, and no further line is read.
///
/// At the end of the text, or at a line `quit`, the recording is ended, and its counts are printed:
/// `station records=N dropped=N strangers=N other=N lost=N buffer=N`. A failed is reported (`file: -`) and also ends the
/// text.
///
/// Returns the worst status: 3 if memory ran out, else 2 if anything failed or was not done, else
/// 0.
pub fn play<L: Line + Drop, R: Input<L>, W: Write, O: Write, E: Write>(
    alloc: Global,
    stations: &[Address],
    post: &mut Post<'_, L, W>,
    input: &mut R,
    buffer: &mut [u8],
    out: &mut O,
    errors: &mut E,
) -> SessionReport
    requires { length buffer.old ≡ LONGEST_LINE + 1 }
    ensures { Plays stations.now L.passed (R.remaining input.old) (data_of post.old) (data_of post.new) (O.contents out.old) (O.contents out.new) (E.contents errors.old) (E.contents errors.new) result }
{
    let played = play_lines(alloc, stations, post, input, buffer, out, errors);
    end_session(alloc, post, played, out, errors)
}
