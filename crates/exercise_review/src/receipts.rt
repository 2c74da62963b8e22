//! Counts of receipts of each sent datagram.

ghost use Rattle.std.specs.Prelude.{◌≡◌, ◌<◌, ℕ, length, slice_index_or, IfOk};
ghost use Rattle.exercise_findings.specs.Source.{source_of};
ghost use Rattle.exercise_review.specs.Receipts.{receipts_of};

use crate::counting::{Placing, counts_of};
use crate::register::Register;
use exercise_model::ExerciseLog;
use std::alloc::{AllocError, Global};

/// The source of each receipt.
#[derive(Drop)]
struct Sources<'a, L: ExerciseLog> {
    findings: &'a Register<'a, L>,
}

impl<L: ExerciseLog> Placing for Sources<'_, L> {
    ghost places = { λ q. source_of q.findings.now };

    fn place(&self, number: usize) -> Option<usize> {
        match self.findings.source(number) {
            Some(source) => Some(source as usize),
            None => None,
        }
    }
}

/// For each entry, the number of entries that have it as their source: how often its datagram was
/// received. Allocates memory for the counts.
#[tactic(auto, unfolding(crate::specs::Receipts::receipts_of))]
pub fn receipt_counts<L: ExerciseLog>(
    alloc: Global,
    findings: &Register<'_, L>,
) -> Result<Vec<usize>, AllocError>
    ensures count { IfOk result (λ counts. length counts.items ≡ length findings.now.entries) }
    ensures each { IfOk result (λ counts. (j : ℕ) → j < length findings.now.entries → slice_index_or counts.items j 0 ≡ receipts_of findings.now j) }
{
    let entries = findings.log().entry_count();
    counts_of(alloc, &Sources { findings }, entries, entries)
}
