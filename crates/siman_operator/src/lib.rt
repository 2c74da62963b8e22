//! One station, commanded by lines of text, from the start of its recording to the end: a [`Post`]
//! is the station at its link, and [`play`] is its session.
//!
//! A post has the station, its recorder and its clock, which lines set or the system
//! ([`ClockSource`]); by the system's clock it repeats orders by itself. It takes one line of text
//! after the other
//! ([`Post::take_line`]), in the forms of the moves of a script: the station does what the line asks
//! for, and is then served until no datagram is waiting. Each entry is recorded before its datagram
//! is sent, and its rows are printed then, as `log` has them but for what only later entries show. [`play`] reads a text line by line, passes each
//! line to a post, reports every line that failed with its number, and at the end of the text ends
//! the recording and prints the counts. [`record_session`] is all of it, from the start of the
//! recording. The crate opens no file and no socket and reads no clock: the caller passes in the
//! link, the file, the text, whose waits say the time, and both writers.
//!
//! The contract for the layer above: the effect of a line is `TakesLine` (`specs/Posts.antt`,
//! `Obeying.antt`, `Turns.antt`), of a text `Plays` (`specs/Sessions.antt`, `Came.antt`,
//! `Explanation.antt`, `Reason.antt`, `Receiver.antt`, `Reading.antt`); the laws say what every
//! list of lines leaves ([`posts_keep_their_recordings`]), and that the recording of one station is
//! explained ([`own_recordings_are_explained`]).
#![tactic(auto)]

mod came;
mod clock;
mod closing;
mod coming;
mod explanation;
mod laws;
mod notes;
mod noting;
mod obeying;
mod playing;
mod post;
mod printing;
mod reading;
mod reason;
mod receiver;
mod recorded;
mod scripted;
mod session;
mod session_notes;
mod session_report;
mod setting;
mod short_form;
mod tracing_line;
mod turn_printing;
mod turns;

pub use came::Came;
pub use clock::{ClockSource, WaitUnit};
pub use laws::{own_recordings_are_explained, posts_keep_their_recordings};
pub use obeying::{LineResult, Rejection};
pub use playing::Stop;
pub use post::Post;
pub use printing::PrintFault;
pub use reading::LONGEST_LINE;
pub use reason::BadReason;
pub use receiver::gets;
pub use recorded::{ReadyStation, SessionRecording, attach_station, greet, record_session};
pub use scripted::{SetUp, SetUpFault, set_up, station_at};
pub use session::play;
pub use session_report::SessionReport;
pub use short_form::is_short_form;
pub use tracing_line::TracingLine;
pub use turns::Trouble;
