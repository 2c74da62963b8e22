//! Printed lines as values (rows): a name and fields in order, with two spellings: text for people,
//! and JSON, one object a line, for programs.
//!
//! It opens no file, judges nothing and writes to no stream: a command above asks for the rows and
//! prints them. A row is a name and a list of fields, each a key and a value. A caller makes the
//! list of [`keyed!`](keyed), [`bare!`](bare) and [`called!`](called) fields in tuples, or of its own
//! [`RowFields`], and may use the contract of [`put_row`] and its kin: they give the bytes in either
//! spelling, as functions of the list. The type of a list says how much room it takes at most, so
//! nothing is refused but the text behind which a row is put. A value of its own is a
//! [`PrintedValue`].
//!
//! A row of borrowed values of any length is a [`PrintedRow`], which goes field by field into the
//! text ([`put_line`], and the three calls that it consists of).
//!
//! The rows of datagrams, PDUs, recordings and their entries stand here too, as functions of these.
//! A caller may use their contracts, which give the text to the byte by the definitions of the
//! pages `Head`, `Records` and `EntryLines`: of [`pdu_lines`] for a PDU; of [`counts_line`],
//! [`put_station`] and [`put_entry`] for a recording, or [`put_entry_text`], which reuses one line
//! buffer. [`why_other`] gives the reason why a datagram means nothing in an exercise, exactly if it
//! means nothing ([`others_have_reasons`]). The law [`keys_come_once`] says that no row has a key
//! twice.
#![tactic(auto)]

mod count_line;
mod counts;
mod entry_fields;
mod entry_lines;
mod field;
mod head;
mod json;
mod key;
mod keys;
mod line;
mod printed_value;
mod reason;
mod record_value;
mod records;
mod row;
mod row_fields;
mod spelling;
mod text;
mod text_line;
mod value;

pub use count_line::counted;
pub use counts::{FormField, counts_line};
pub use entry_lines::{put_entry, put_entry_text, put_station};
pub use field::Field;
pub use head::kind_of;
pub use key::Key;
pub use keys::keys_come_once;
pub use line::{
    PrintedRow, named_line, put_end, put_field, put_fields, put_line, put_named, put_opening,
};
pub use printed_value::{Clock, ClockOption, Named, PrintedValue, Word, add_missing, add_quote};
pub use reason::{
    NumberedReason, OtherReason, others_have_reasons, reasons_are_refusals, why_other,
};
pub use records::pdu_lines;
pub use row::{RowOpening, make_row, put_front, put_opened_row, put_row};
pub use row_fields::{RowFields, WithKey, WithWord, WithoutKey};
pub use spelling::Spelling;
pub use text_line::{TextLine, add_address, add_entity, add_number, add_number_behind, add_state};
pub use value::Value;
