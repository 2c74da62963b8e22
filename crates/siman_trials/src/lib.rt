//! What the programs and the tests that try siman share: cases read from lines of text, readers and
//! writers that fail, random scenes of stations, and stations at links in memory, as a case asks
//! for them, and a socket in memory. It also makes random datagrams, scripts and command lines, spoils bytes, and says
//! whether all ways to read a datagram or a recording agree. It never opens a file or a socket, and
//! never runs a command.
//!
//! The layers above may use the contracts of [`record_exercise`] and [`record_on_network`]
//! (`specs/TrialRecording.antt`, `specs/Ended.antt`), which record whole exercises from their first
//! station to the end of their file, over any links and over a network in memory, and of
//! [`make_moves`] (`specs/Moves.antt`). The other functions have no contracts.
#![tactic(auto)]

mod calls;
mod case;
mod entries;
mod file;
mod input;
mod letter;
mod lines;
mod memory_socket;
mod network;
mod performed;
mod random;
mod random_command_lines;
mod random_datagram;
mod random_script;
mod readings;
mod recorded;
mod scene;
mod spoilt_recording;
mod station_call;
mod station_trial;
mod wire;

pub use calls::{
    Calls, Given, WELL, Written, read_from, read_with_waits, write_to, write_unsettled,
};
pub use case::{Call, Case, begin_case};
pub use entries::{TextEntries, entries_of};
pub use file::{File, Stream, found};
pub use input::{RandomInput, begin_input};
pub use lines::Asked;
pub use memory_socket::{AddressedDatagram, MemorySocket};
pub use network::record_on_network;
pub use performed::{LinkMoveFault, make_moves};
pub use random::Random;
pub use random_command_lines::{RandomCommandLine, random_command_line};
pub use random_datagram::put_random_datagram;
pub use random_script::put_random_script;
pub use readings::{datagram_readings, recording_readings};
pub use recorded::{ExerciseFault, TrialRecording, record_exercise};
pub use scene::{ENTITIES, RandomEvent, RandomExercise, begin, place_of, station_of};
pub use spoilt_recording::{spoil_certificate, with_other_state};
pub use station_trial::{compare, sent_text, try_at_line};
pub use wire::{WireLine, line_with, lines_of};
