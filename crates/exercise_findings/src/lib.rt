//! Findings of a recording, from one pass over it: for each entry the first cause that its own
//! station's log shows against it, the request that it takes up, the state change that it makes and
//! the send that it was received from; the state of an entity at any entry; and the [`Account`] of
//! the whole recording ([`Findings`]). [`StatesBefore`] gives the entities of each station before one
//! entry after the other.
//!
//! The crate never uses a certificate or an order between stations: each log is read by itself,
//! logs are joined only where bytes are equal, and so no certificate can change a finding. Its
//! tables refer to the bytes of the log and are safe against keys that an attacker has chosen.
//!
//! The crates above rely on the contracts of [`Findings`] and [`Account`], and on [`Missing`], the
//! description of a send that a log lacks; [`number_at`], [`put_number`], [`replace`] and [`StridePredictor`]
//! are shared helpers for columns and sequential look-ups of their own.
#![tactic(auto)]

mod account;
mod accounting;
mod answered;
mod behind;
mod cause;
mod change;
mod change_number;
mod column;
mod earlier;
mod exchange;
mod findings;
mod first_sends;
mod firsts;
mod found;
mod hashed;
mod hint;
mod kept;
mod key;
mod made;
mod missing;
mod number;
mod pass;
mod requests;
mod rising;
mod sender;
mod senders;
mod slots;
mod state;
mod states;
mod states_before;
mod table;
mod tables;
mod tagged;

pub use account::Account;
pub use column::{number_at, put_number, replace};
pub use findings::Findings;
pub use hint::StridePredictor;
pub use missing::Missing;
pub use states_before::StatesBefore;
