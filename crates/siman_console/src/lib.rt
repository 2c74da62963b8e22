//! The program `siman` as functions over readers and writers that return an exit status, with the
//! texts that they print. [`run`] leads from the words of a command line to the status, over the
//! files of an [`Outside`] with [`Links`]. Over readers and writers there are [`pdu_command`] and
//! [`pdus_command`] for datagrams in hex text, [`show_command`] for recordings, [`check_command`]
//! for a recording and its certificate, [`audit_command`] for the search of a recording,
//! [`world_command`] for a script and the recording of its world, and [`trial`] for a script and
//! the report of its world; the [`View`]s of a recording and [`WhyCommand`] run by
//! [`say_of_recording`] and [`say_of_certificate`]. The commands are in
//! `siman_file_commands`, `siman_exercise_commands` and `siman_analysis_commands`, their common
//! parts and the reasons of faults in `siman_outside`; this crate leads from words to commands.
//!
//! It opens no file itself and ends no process.
//!
//! The layer above may use the contract of [`run`] (`EndsExplained`, `EndsProgram`) and those of
//! the commands on the exit status and the bytes on the writer of the answer; the writer of faults
//! gets bytes only with status 2 or 3.
#![tactic(auto)]

mod laws;
mod program;
mod usage;

pub use laws::conversion_keeps_answers;
pub use program::run;
pub use siman_analysis_commands::{View, filter_of};
pub use siman_exercise_commands::{Links, TrialFault, perform, trial, world_command};
pub use siman_file_commands::{
    AuditCommand, CheckCommand, LARGEST_OLD_RECORDING, ShowCommand, WhyCommand,
    answers_follow_the_grammar, audit_command, check_command, check_files, pdu_command,
    pdus_command, show_command,
};
pub use siman_outside::{
    CommandLine, Ended, Endpoint, FileKind, FilesFault, JoinForm, Known, LARGEST_CERTIFICATE,
    LARGEST_RECORDING, Listening, NoWord, Notes, OneWord, Outside, Reading, Settle, SystemCall,
    SystemFault, Task, TwoWords, Unread, ViewWord, asks_help, end, file_kind_of, read_words,
    say_of_certificate, say_of_recording,
};
pub use siman_print::Spelling;
pub use siman_scripts::{
    Act, LARGEST_SCRIPT, Move, Script, ScriptFault, WorldStation, read_script,
};
pub use siman_stations::{MoveFault, WorldFault, run_world};
pub use usage::end_at_terminal;
