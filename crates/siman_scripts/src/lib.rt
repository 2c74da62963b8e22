//! Scripts, the text in which the staff of an exercise write a whole exercise: its stations, what
//! their managers order, and what the network loses, copies and swaps.
//! [`read_script`] returns the script that a text spells, or its first refusal by the order of
//! lines. The crate opens no file and makes no move.
//! The contract for the layer above is one function of the text (`specs/Script.antt`, `Draft.antt`,
//! `Statement.antt`, `Text.antt`). [`split_once`], [`number_16`], [`number_32`] and [`target_of`]
//! are public for words of a command line, which have the forms of a script's words. A text in a wider
//! language takes its lines with [`Draft`], one [`Statement`] at a time.
#![tactic(auto)]

mod act;
mod command;
mod command_reason;
mod draft;
mod form;
mod forms;
mod line_fault;
mod line_reason;
mod move_line;
mod moves;
mod nearest;
mod part;
mod placed_word;
mod reason_text;
mod script;
mod script_fault;
mod script_reason;
mod statement;
mod station_draft;
mod why;
mod word_kind;
mod world_station;

pub use act::{Act, Move};
pub use command::{Command, StationTask, read_command};
pub use command_reason::{a_line_has_a_reason_or_is_an_order, reason_of_command};
pub use draft::Draft;
pub use form::{LineForm, form_name, form_named};
pub use forms::{address_of, form_of, number_named, statement_of, value_of};
pub use line_fault::ScriptLineFault;
pub use line_reason::{a_line_is_refused_for_a_reason, form_reason};
pub use move_line::line_of_move;
pub use moves::target_of;
pub use part::ScriptPart;
pub use placed_word::{PlacedWord, placed_words, words_have_their_columns};
pub use reason_text::{
    line_pieces, place_pieces, placed_command_reason, placed_reason, put_command_reason,
    put_reason, why_pieces,
};
pub use script::{LARGEST_SCRIPT, Script, read_script};
pub use script_fault::ScriptFault;
pub use script_reason::{
    a_text_has_a_reason_or_is_a_script, reason_of_script, reasons_hold_of_the_lines_before,
};
pub use statement::{ManagerRules, Statement};
pub use why::{CommandReason, CommandWhy, LineReason, LineWhy, Why};
pub use word_kind::WordKind;
pub use world_station::WorldStation;
