//! The commands that play a script: `world`, which runs its world in memory, `live`, which makes
//! its moves over links, `station`, which plays one of its stations by lines of text, `import`, which
//! makes the recording of one of them of a capture, and the trial of a script, which no words of the
//! command line name.
//! The crate opens no file and no socket itself and ends no process: [`world_command`], [`perform`]
//! and [`trial`] are functions over readers and writers, and [`end_live`] and [`end_station`] reach
//! files and links only through the caller's [`Links`], whose files are those of
//! `siman_outside::Outside`.
//! The contract for the layer above: what is written for each script, to the byte (`EndsWorld`,
//! `EndsLive`, `EndsStation`, `ImportsNamed`, `Tries`).
#![tactic(auto)]

mod assumed;
mod explained;
mod import;
mod imported_file;
mod links;
mod live;
mod plan;
mod recording_file;
mod refusal;
mod script_trial;
mod station;
mod trial_fault;
mod warned;
mod world;

pub use import::import_named;
pub use imported_file::ImportedFile;
pub use links::Links;
pub use live::end_live;
pub use plan::plan_named;
pub use script_trial::{perform, trial, try_input};
pub use station::end_station;
pub use trial_fault::TrialFault;
pub use world::{WorldCommand, WorldFile, world_command};
