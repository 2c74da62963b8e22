//! Links, and stations that serve them: a station records, takes and answers the datagrams that it
//! receives through its link, and records every datagram before it sends it.
//! A call never waits, no clock is read, and nothing is sent that is not recorded; the caller
//! passes in the links, the recorder and the [`Moment`]: the time, which stamps the entries, and the
//! timestamp of what is sent. [`serve`], [`issue`] and [`nudge`] take the time alone, and are
//! [`serve_stamped`], [`issue_stamped`] and [`nudge_stamped`] at the moment of a world at this time.
//! The contract for the layer above: what each call records, sends and changes (`ServeEndsAt`,
//! `IssueEndsAt`, `NudgeEndsAt`, `RoundsEnd`), that calls preserve the invariant of their stations
//! (`Keeps`, `Follows`), and that their entries are a run ([`calls_make_a_run`]).
#![tactic(auto)]

mod fault;
mod input;
mod laws;
mod left;
mod line;
mod memory;
mod ordering;
mod ranges;
mod served;
mod serving;
mod socket;
mod station_at_line;
mod telling;
mod trouble;
mod udp;

pub use fault::{AtLineFault, IssueFault, ServeFault};
pub use input::{Input, Ready};
pub use laws::{calls_are_kept, calls_make_a_run, lines_make_a_run, what_is_kept_stands};
pub use left::{LeftOut, left_out};
pub use line::{Line, LineFault, PassedOver};
pub use memory::MemoryLine;
pub use ordering::{issue, issue_stamped, nudge, nudge_stamped};
pub use ranges::moment_is_in_range;
pub use served::Served;
pub use serving::{serve, serve_stamped};
pub use siman_stations::{Moment, Node};
pub use socket::{Hearing, Socket};
pub use station_at_line::{
    StationAtLine, order_at, repeat_at, serve_rounds, stations_at_lines, tell_at,
};
pub use telling::tell;
pub use trouble::{LineCall, LineTrouble, put_line_trouble, trouble_pieces};
pub use udp::UdpLine;
