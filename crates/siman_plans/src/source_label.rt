//! The labels of the lines of a source so far.

ghost use Rattle.std.specs.Prelude.{◌≡◌, [], not, map, IfOk, OnOk};
ghost use Rattle.std.specs.Option.{option_map};
ghost use Rattle.siman_plans.specs.Source.{labels_with};
ghost use Rattle.siman_plans.specs.SourceFault.{Leaves};
ghost use Rattle.siman_plans.specs.SourceForms.{seen};
ghost use Rattle.siman_plans.specs.SourceLabels.{label_at, is_given, given};

use crate::source_fault::{LineFault, SourceWhy};
use crate::source_word::is_label;
use indexmap::IndexSet;
use siman_scripts::PlacedWord;
use std::alloc::{AllocError, Global};
use std::marker::Model;

/// Labels, in the order of their lines. Contracts see their list.
#[derive(Drop)]
pub(crate) struct Labels<'t> {
    names: IndexSet<&'t [u8]>,
}

impl<'t> Model for Labels<'t> {
    ghost use Rattle.std.specs.Prelude.{ℕ, List, map};

    ghost Value = { List (List ℕ) };

    ghost view = { λ l. map (λ w. w.now) l.names.keys };
}

impl<'t> Labels<'t> {
    /// No labels. Takes no memory.
    pub fn none(alloc: Global) -> Labels<'t>
        ensures { result ≡ [] }
    {
        Labels {
            names: IndexSet::new(alloc),
        }
    }

    /// The index of a label, if a line before gives it.
    pub fn place_of(&self, word: &[u8]) -> Option<usize>
        ensures { result ≡ label_at self.now word.now }
    {
        self.names.get_index_of(word)
    }

    /// Adds a label, if no line before gives it; returns whether it was added.
    pub fn add(&mut self, word: &'t [u8]) -> Result<bool, AllocError>
        ensures added { IfOk result (λ added. added ≡ not (is_given self.old word.now)) }
        ensures labels { OnOk result (self.new ≡ given self.old word.now) }
    {
        Ok(self.names.insert(word)?)
    }

    /// Adds the label of a line, which has to be new, or refuses the line.
    pub fn take(&mut self, label: Option<PlacedWord<'t>>) -> Result<(), LineFault>
        ensures { Leaves result self.new (labels_with self.old (option_map seen label.entry)) }
    {
        let Some(placed) = label else {
            return Ok(());
        };
        if !is_label(placed.word) {
            return Err(LineFault::Refused(placed.column, SourceWhy::NotLabel));
        }
        if !self.add(placed.word)? {
            return Err(LineFault::Refused(placed.column, SourceWhy::LabelTwice));
        }
        Ok(())
    }

    /// The labels as a list.
    pub fn listed(&self, alloc: Global) -> Result<Vec<&'t [u8]>, AllocError>
        ensures { IfOk result (λ labels. map (λ w. w.now) labels.items ≡ self.now) }
    {
        self.names.as_slice().to_vec(alloc)
    }
}
