//! The rows of the table of commands.

use crate::commands::Takes;

/// How many times a word of a command may occur.
#[derive(Clone, Copy)]
pub(crate) enum Often {
    Once,
    AtMostOnce,
    OnceOrMore,
    AnyTimes,
}

/// A word that a command takes: its name in the usage, how many times it may occur, and its
/// description.
#[derive(Clone, Copy)]
pub(crate) struct CommandWord {
    pub name: &'static str,
    pub often: Often,
    pub about: &'static str,
}

/// A command of the table.
#[derive(Clone, Copy)]
pub(crate) struct CommandRow {
    pub name: &'static str,
    pub takes: Takes,
    /// Its words as usage has them, with the program's name.
    pub usage: &'static str,
    /// Its description.
    pub about: &'static str,
    pub example: &'static str,
    pub words: &'static [CommandWord],
}
