//! The keys by which a register indexes entries: those of the orders that the entries belong to.

ghost use Rattle.exercise_review.specs.Register.{key_at};

use crate::entry_chains::EntryKeys;
use crate::register::Register;
use exercise_model::ExerciseLog;

/// The key of each entry by the order that the entry belongs to.
#[derive(Drop)]
pub(crate) struct OrderKeys<'b, 'a, L: ExerciseLog> {
    pub register: &'b Register<'a, L>,
}

impl<L: ExerciseLog> EntryKeys for OrderKeys<'_, '_, L> {
    ghost keys = { λ q. key_at q.register.now };

    #[tactic(auto, using(crate::proofs::KnownKeys::key_beyond))]
    fn key(&self, entry: usize) -> Option<u64> {
        if entry < self.register.log().entry_count() {
            self.register.key(entry)
        } else {
            None
        }
    }
}
