//! The commands over datagrams in hex text, `pdu` and `pdus`, and those over files of recordings:
//! `show`, `check`, `convert`, `mend`, `join`, `export`, which makes a capture of a recording,
//! `audit`, which searches for a sequence that explains a recording, and `why`, which says what
//! contradicts what. Over readers and writers there are [`pdu_command`], [`pdus_command`],
//! [`show_command`], [`check_command`], [`check_files`] and [`audit_command`]. `siman_outside` runs
//! [`ShowCommand`], [`CheckCommand`], [`ConvertCommand`], [`MendCommand`], [`ExportCommand`],
//! [`AuditCommand`] and [`WhyCommand`] on readers and on the names of files; [`join_pieces`] makes
//! the file of `join`, and [`why_named`] takes the names of one file or of two.
//!
//! It opens no file itself and ends no process.
//!
//! The layer above may use its contracts on the status and the bytes of the answer: `EndsPdu`,
//! `EndsLines`, `EndsShow`, `EndsCheck`, `CarriesFile`, `MendsFile`, `JoinsPieces`, `ExportsFile`,
//! `EndsAudit` and `WhyNamed`.
#![tactic(auto)]

mod answer;
mod audit;
mod check;
mod convert;
mod export;
mod hex_text;
mod input;
mod join;
mod mend;
mod openings;
mod pdu;
mod pdus;
mod show;
mod why;

pub use answer::answers_follow_the_grammar;
pub use audit::{AuditCommand, SequenceTexts, audit_command};
pub use check::{CheckCommand, check_command, check_files};
pub use convert::{Carried, ConvertCommand, LARGEST_OLD_RECORDING};
pub use export::{ExportCommand, ExportedFile};
pub use join::join_pieces;
pub use mend::{MendCommand, MendedFile};
pub use pdu::{pdu_command, show_word};
pub use pdus::{end_lines, pdus_command};
pub use show::{ShowCommand, show_command};
pub use why::{WhyCommand, why_named};
