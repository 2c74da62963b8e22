//! What a program of siman gets from outside and leaves there. The words of its command line ask for
//! a task, by the table of commands, or for help, or they are a fault of usage. The files that it
//! opens, makes and saves are those of the trait [`Outside`], and a command that fails has a
//! [`Fault`] with its first line, and a second one that explains it.
//!
//! A caller reads the words ([`read_words`]); if they ask for no task, it prints [`usage_text`], as
//! help if [`asks_help`], else as a fault. A command about a recording is an
//! [`OfRecording`], one about a certificate an [`OfCertificate`], and one that makes a file of another
//! an [`OfFile`], which gives a [`Product`]; it runs on readers ([`say_of_recording`],
//! [`say_of_certificate`]) or on the names of files ([`say_of_file`], [`say_of_files`],
//! [`make_of_file`]), and returns a status or a [`Fault`], which [`end`] turns into an exit status
//! and [`explained`] explains.
//!
//! The crate has no command of its own, opens no file or socket itself, and ends no process.
//!
//! The layer above may use the contract of [`CommandLine::task`], which gives the task of the words,
//! and those on which files are opened and made, in which order (`SaysOfFile`, `MakesOfFile`,
//! `MakesFile`), and on the lines of each fault (`fault_line`, `Ends`, `Explains`); what a command
//! makes of its input is in the contracts of the command's crate.
#![tactic(auto)]

mod answer_text;
mod asking;
mod command_line;
mod commands;
mod ending;
mod endpoint;
mod explaining;
mod fault;
mod file_kind;
mod file_reason;
mod files_fault;
mod filter_reason;
mod helping;
mod host;
mod import_reason;
mod import_words;
mod input;
mod join_limit;
mod known;
mod limits;
mod making;
mod move_refusal;
mod named;
mod named_text;
mod notes;
mod opening;
mod outside;
mod passing;
mod place;
mod product;
mod reason;
mod recording_bytes;
mod recording_command;
mod rows;
mod saying;
mod settle;
mod short_texts;
mod station_words;
mod table;
mod unopened;
mod usage;
mod warning;

pub use answer_text::AnswerText;
pub use command_line::{CommandLine, read_words};
pub use commands::{
    ImportWords, JoinChoices, JoinForm, Listening, NoWord, OneWord, Reading, StationWords, Task,
    TwoWords, ViewWord,
};
pub use ending::{Ending, conclude};
pub use endpoint::{Endpoint, endpoint_of};
pub use explaining::explained;
pub use fault::{Ended, Fault, end, of_error, tell};
pub use file_kind::{FileKind, file_kind_of};
pub use files_fault::FilesFault;
pub use helping::asks_help;
pub use host::host_of;
pub use import_words::{ImportChoices, ImportOpening};
pub use input::{InputFault, Unread, read_text};
pub use join_limit::JoinLimit;
pub use known::{Known, SystemCall, SystemFault};
pub use limits::{LARGEST_CERTIFICATE, LARGEST_RECORDING, LARGEST_TORN_RECORDING};
pub use making::{Making, make_file, put_settled};
pub use move_refusal::{MovePlace, MoveRefusal};
pub use named::{Named, named_by, nothing_named};
pub use notes::{Notes, Warning};
pub use opening::{if_free, open_fault, open_input, open_inputs};
pub use outside::Outside;
pub use passing::{HELD, pass_on, status_of};
pub use product::{OfFile, Product, make_of_file, put_of_file};
pub use recording_bytes::read_bytes;
pub use recording_command::{OfCertificate, OfRecording, say_of_certificate, say_of_recording};
pub use saying::{say_of_file, say_of_files};
pub use settle::{ByFlush, OnDisk, Settle, Settling};
pub use short_texts::{ShortText, short_of, short_text};
pub use unopened::OpenFault;
pub use usage::{terminal_text, usage_text};
