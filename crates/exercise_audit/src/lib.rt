//! Searches for a sequence of the entries that explains a recording. It is never trusted: its
//! result is a certificate, which the checker judges. The layer above may rely on the contract of
//! [`audit`]: it finds a sequence exactly if one explains the recording, and otherwise returns the
//! next entry and its cause for each station that cannot go on. Of the sequences that explain the
//! recording it finds the sequence of time: of the entries that may happen next, the one with the
//! least stamp, and among equal stamps with the least number, happens.
//!
//! [`longest_run`] hands out the steps of a run that cannot go on, too. [`audit_found`] searches with
//! findings that were made before, and returns them. Where stamps never fall, entries are taken as
//! the recording has them, as long as each may happen. Then the stations have turns, by the stamps
//! and numbers of their next entries. A station whose next entry received a datagram that was not
//! sent so far has no turn until the send is taken. The laws are [`time_determines_sequences`], and
//! [`conversion_keeps_searches`] of a recording converted to the second format.
#![tactic(auto)]

mod blocks;
mod explained;
mod first_entries;
mod laws;
mod longest;
mod search;
mod searched;
mod turns;
mod waiting;

pub use blocks::{Audit, Block};
pub use explained::{Explanation, explanation_of};
pub use laws::{conversion_keeps_searches, time_determines_sequences};
pub use longest::{LongestRun, longest_run};
pub use searched::{Searched, audit, audit_found};
