//! A source: a script in the wider language, as its lines say it.

use siman_scripts::{Act, WorldStation};
use std::marker::Model;

/// Which of the sent datagrams a line names.
#[derive(Clone, Copy)]
pub enum Which {
    /// That of this number, from 0.
    Number(u32),
    /// That which the line with this label sent; labels are counted from 0, in the order of lines.
    Labelled(usize),
    /// The last answer that a delivery of the datagram with this label got.
    Answer(usize),
}

/// What a line behind those of the exercise and its stations does.
#[derive(Drop)]
pub enum SourceMove {
    /// It sets the clocks.
    At(u64),
    /// The station of this index makes an order, a repeat or tells a state. The line has a label or
    /// not: the labels are counted from 0, in the order of lines.
    Acts {
        station: u16,
        act: Act,
        is_labelled: bool,
    },
    /// A datagram is delivered to the station of this index; without one, to that to which it was
    /// delivered last.
    Brings {
        which: Which,
        to: Option<u16>,
    },
    /// It is meant that a datagram reaches nobody: no move.
    Loses(Which),
}

/// A line of a source behind those of the exercise and its stations.
#[derive(Drop)]
pub struct SourceLine {
    /// The number of the line, from 1.
    pub line: usize,
    /// The column of the word that names a datagram, in bytes from 1; 1 where none does.
    pub column: usize,
    pub does: SourceMove,
}

/// A source: the exercise and its stations, and the lines behind theirs. Contracts see its lists.
#[derive(Drop)]
pub struct Source<'t> {
    /// The identifier of the exercise.
    pub exercise: u8,
    pub stations: Vec<WorldStation>,
    /// The plain lines of the exercise and its stations, each with its line feed.
    pub setup: Vec<u8>,
    pub lines: Vec<SourceLine>,
    /// The labels, in the order of their lines.
    pub labels: Vec<&'t [u8]>,
}

impl<'t> Model for Source<'t> {
    ghost use Rattle.std.specs.Prelude.{map};
    ghost use Rattle.siman_plans.specs.Source.{SourceData};

    ghost Value = { SourceData };

    ghost view = { λ s. record { exercise = s.exercise; stations = s.stations.items; setup = s.setup.items; lines = s.lines.items; labels = map (λ l. l.now) s.labels.items } };
}
