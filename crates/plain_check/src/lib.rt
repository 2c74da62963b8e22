//! Plain versions of the checker, the search and the review, written as the definitions say: each
//! question searches the steps and the entries from the start. The tests compare the fast versions
//! with these: [`plain_check`] with `exercise_check::check`, [`plain_audit`] with
//! `exercise_audit::audit`, the reports with `Checked`, [`plain_review`] with
//! `exercise_review::review_of`, and [`plain_head`], [`plain_source`], [`plain_receipts`],
//! [`plain_missing`] and [`plain_lives`] with what that crate and `exercise_findings` compute for
//! single entries and entities.
//!
//! They never store results between questions, and their time is at least cubic in the number of
//! entries, so they are for small recordings. They are compared on cases and on random recordings;
//! [`put_random_recording`] writes the file of a random recording, spoilt.
//!
//! No theorem depends on them; the layer above may use only that each function is proved to be safe
//! and to end for every number, where past the last entry or station there is nothing.
#![tactic(auto)]

mod change;
mod check;
mod entries;
mod exchange;
mod judge;
mod lives;
mod missing;
mod orders;
mod outcomes;
mod parties;
mod replies;
mod report;
mod review;
mod search;
mod state;

pub use check::plain_check;
pub use lives::plain_lives;
pub use missing::{plain_missing, plain_receipts, plain_source};
pub use orders::plain_head;
pub use report::{plain_cause, plain_others, plain_pair, plain_states};
pub use review::plain_review;
pub use search::{plain_audit, plain_steps};

mod comparison;

pub use comparison::{
    Answers, Reviews, compare_case, put_random_recording, try_generated, try_reviews,
};
