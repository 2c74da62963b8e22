//! The tests of all crates: calls that no command makes, on literal datagrams, files and PDUs. They
//! never reach into a crate, but use its public functions, and have a crate of their own since a
//! crate with tests is proved twice. Nothing is built on this crate: it has no contract to use.
//! What a reader can conclude from the laws of siman stands in [`uses`].
#![tactic(auto)]

#[cfg(test)]
mod applications;
#[cfg(test)]
mod captures;
#[cfg(test)]
mod certificates;
#[cfg(test)]
mod conflicts;
#[cfg(test)]
mod crowds;
#[cfg(test)]
mod exercises;
#[cfg(test)]
mod faults;
#[cfg(test)]
mod fragments;
#[cfg(test)]
mod frames;
#[cfg(test)]
mod growing;
#[cfg(test)]
mod imports;
#[cfg(test)]
mod joining;
#[cfg(test)]
mod lines;
#[cfg(test)]
mod losses;
#[cfg(test)]
mod managers;
#[cfg(test)]
mod mending;
#[cfg(test)]
mod moments;
#[cfg(test)]
mod pdus;
#[cfg(test)]
mod reasons;
#[cfg(test)]
mod recordings;
#[cfg(test)]
mod records;
#[cfg(test)]
mod reviews;
#[cfg(test)]
mod scripts;
#[cfg(test)]
mod sockets;
#[cfg(test)]
mod sources;
#[cfg(test)]
mod troubles;
pub mod uses;
#[cfg(test)]
mod worlds;
