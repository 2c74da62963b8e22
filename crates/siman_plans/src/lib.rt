//! Plans: scripts in a wider language, with labels for datagrams, and what each of their lines does.
//! [`say_plan`] reads a text of this language, makes the moves of its lines in a world, and returns the
//! rows that say what each did, and the plain script; [`reason_of_source`] says why a text is no
//! source, and [`placed_source_reason`] in which words. The crate opens no file, prints nothing and
//! sends nothing.
//!
//! The contract for the layer above is one function of the text (`specs/PlanText.antt`): what the
//! words of a line are and what it says (`SourceWords`, `SourceForms`, `Source`), what it does in the
//! world of its stations (`Plan`, `Notes`, `Sent`), the rows (`MoveLines`, `ClosingLines`) and the
//! plain lines (`Plain`). The laws of texts: each has a reason or is a source
//! ([`a_text_has_a_reason_or_is_a_source`]), and a script is a source that means the same
//! ([`a_script_is_a_source`]). The laws of plans: the recording of the moves has what the lines did
//! ([`recordings_have_what_lines_did`]), and the plain script is the script of these moves
//! ([`plain_scripts_are_scripts`]).
#![tactic(auto)]

mod background;
mod closing_rows;
mod deed;
mod label_name;
mod move_rows;
mod notes;
mod plain;
mod plain_law;
mod plan;
mod plan_fault;
mod plan_law;
mod plan_move;
mod plan_rows;
mod plan_text;
mod planner;
mod source;
mod source_fault;
mod source_form;
mod source_label;
mod source_law;
mod source_read;
mod source_reading;
mod source_reason_text;
mod source_which;
mod source_word;
mod values;

pub use plain_law::plain_scripts_are_scripts;
pub use plan_fault::Refusal;
pub use plan_law::recordings_have_what_lines_did;
pub use plan_text::{PlanText, PlanTextFault, say_plan};
pub use source::{Source, SourceLine, SourceMove, Which};
pub use source_fault::{SourceFault, SourceReason, SourceWhy};
pub use source_law::{a_script_is_a_source, a_text_has_a_reason_or_is_a_source};
pub use source_read::{read_source, reason_of_source};
pub use source_reason_text::placed_source_reason;
