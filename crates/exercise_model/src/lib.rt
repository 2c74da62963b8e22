//! Model of a recorded exercise: stations, their entries, the meaning of datagrams, the states of
//! entities, and which histories of events are possible. It never reads or writes files or
//! certificates, and decides nothing about a recording. The layer above may rely on
//! [`ExerciseLog`], whose value in contracts is one plain recording (a setting and its entries), on
//! the definitions in `specs/`, and on these laws.
//!
//! Runs: [`what_explains_holds`], [`logs_suffice`], [`accounts_are_whole`], [`entries_have_one_place`],
//! [`changes_are_known`], [`allowed_stays_allowed`] and [`ends_are_one`]. First answers:
//! [`first_answers_change_states`]. Forms: [`forms_decide_who_is_heard`]. Some of the stations
//! alone: [`parts_are_explained`]. Receipts that stand earlier: [`early_receipts_are_allowed`]. Conversion to the second format: [`conversion_keeps_runs`].
//!
//! Only [`Recording::push`], [`meaning_of`] and [`Stamps::of`] take memory.
#![tactic(auto)]

mod acknowledge;
mod cause;
mod entry;
mod exchange;
mod fault;
mod form;
mod laws;
mod log;
mod meaning;
mod recording;
mod setting;
mod stamps;
mod state;
mod station;

pub use acknowledge::{AcknowledgeKey, key_of, responds, responds_under};
pub use cause::Cause;
pub use entry::{EntryView, LogEntry};
pub use exchange::{is_answer, is_asked, is_from};
pub use fault::LogFault;
pub use form::Form;
pub use laws::{
    accounts_are_whole, allowed_stays_allowed, changes_are_known, conversion_keeps_runs,
    early_receipts_are_allowed, ends_are_one, entries_have_one_place, first_answers_change_states,
    forms_decide_who_is_heard, logs_suffice, parts_are_explained, what_explains_holds,
};
pub use log::ExerciseLog;
pub use meaning::{meaning_again, meaning_of, meaning_view};
pub use recording::{MOST_ENTRIES, Recording};
pub use setting::Setting;
pub use stamps::Stamps;
pub use state::{Change, is_entity, scope_has, state_made};
pub use station::{LARGEST_ENTITY, MOST_STATIONS, Station, are_stations, is_above, listed_state};
