//! Reads files field by field up to a limit, and writes bytes of which a failed write leaves a
//! prefix. It never knows a format: a field is a number of bytes, refused at its offset if it is
//! incomplete or would end past the limit, and each format names these faults. The crates of the
//! formats may rely on [`Source`], whose value in contracts is the input that is still to be read
//! (`specs/Fields.antt`), on [`fill`] and [`fetch`], and on [`put`] (`specs/Writing.antt`). A text that
//! is written for a person is one of [`TextPieces`] (`specs/Pieces.antt`), and the system's reason for
//! a failed call has its words here ([`system_words`]).
//!
//! Only [`Source::buffered`] and [`fetch`] take memory. The laws that tie reading and text are
//! proved once for fields and whatever is composed of them (`proofs/Codec.antt`), and so is which
//! field is wrong when reading fails (`proofs/Wrong.antt`).
#![tactic(auto)]

mod fetching;
mod file_fault;
mod filling;
mod lines;
mod output;
mod pieces;
mod source;
mod system;
mod text;

pub use fetching::{FetchFault, fetch};
pub use file_fault::FileFault;
pub use filling::{ReadFailed, fill};
pub use lines::read_line;
pub use output::{WriteFailed, put, put_both, put_shown};
pub use pieces::{
    PlacedText, TextPiece, TextPieces, five_pieces, put_pieces, put_placed, three_pieces, unplaced,
    words_alone,
};
pub use source::{Source, are_bytes};
pub use system::system_words;
pub use text::{first_line, is_ascii, number_16, number_32, number_to, split_once, words};
