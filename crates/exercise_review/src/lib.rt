//! Reviews a recording from its logs alone: what became of each order ([`order_at`]) at each of its
//! parties ([`is_party`], [`is_party_outside`], [`traces_of`], [`fate_of`]), the states of each
//! entity over time ([`lives_of`]), datagrams that a log received and no log sent ([`missing_at`]),
//! and counts of all these ([`review_of`] within a limit of rows, [`Reviewed`] row by row without
//! memory, [`keeps`] for filters, [`receipt_counts`] for how often each sent datagram was
//! received).
//!
//! It never needs a certificate or an order of time between stations, and never writes anything. It
//! reads entries through a [`Register`], an index of the entries by order and of the receipts of
//! each datagram: questions about an order at a station read only the entries under its key there,
//! other questions the whole log.
//!
//! The layer above may use the laws: [`fates_hold`], what each fate means in every run that
//! explains the recording; [`one_side_is_not_enough`], the fates that no single log determines;
//! [`lives_are_states`], the stretches of a life are the states of the entity at each place;
//! [`changes_are_made`], each reported change was carried out; [`managers_know`], the maker of an
//! order can know the answers that count as heard; [`conversion_keeps_views`], a converted
//! recording has an equal review.
#![tactic(auto)]

mod answer_receipts;
mod answered;
mod change_laws;
mod changes;
mod conversion_laws;
mod counting;
mod course;
mod digest;
mod entries;
mod entry_chains;
mod entry_number;
mod fate;
mod fault;
mod filter;
mod hints;
mod keys;
mod laws;
mod life;
mod living;
mod manager_laws;
mod missing;
mod news;
mod order;
mod order_keys;
mod outcome;
mod parties;
mod party;
mod question;
mod receipt;
mod receipts;
mod recent;
mod register;
mod reply;
mod resent;
mod review;
mod reviewed;
mod row;
mod sources;
mod span;
mod station_trace;
mod stations;
mod stay;
mod stays;
mod tally;
mod told;
mod walk;
mod word;

pub use change_laws::changes_are_made;
pub use conversion_laws::conversion_keeps_views;
pub use exercise_findings::Missing;
pub use fate::{Fate, Traces, fate_of, traces_of};
pub use fault::ReviewFault;
pub use filter::{EntryName, Filter, Filtered, keeps};
pub use laws::{fates_hold, lives_are_states, one_side_is_not_enough};
pub use life::{Stretch, lives_of};
pub use manager_laws::managers_know;
pub use missing::missing_at;
pub use order::{RecordedOrder, head_of, order_at};
pub use outcome::{Outcome, outcomes_of};
pub use parties::parties_of;
pub use party::{Party, is_party, is_party_outside};
pub use receipts::receipt_counts;
pub use register::Register;
pub use reply::change_of_order;
pub use review::{MOST_LINES, Review, review_of};
pub use reviewed::Reviewed;
pub use span::{Span, spans_of};
pub use tally::{FateCounts, StationCounts};
pub use told::OrderAt;
pub use word::{Word, word_at};
