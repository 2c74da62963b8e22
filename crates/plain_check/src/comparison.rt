//! Compares the checker, the search and the review with the plain versions in `plain_check`, on
//! cases and on random recordings. It never judges a recording itself and writes no file. Its
//! functions have no contracts for the layer above; they return whether the answers agree, or
//! counts of those that differ.

mod agreement;
mod generated;
mod recordings;
mod reviews;

pub use agreement::compare_case;
pub use generated::{Answers, try_generated};
pub use recordings::put_random_recording;
pub use reviews::{Reviews, try_reviews};
