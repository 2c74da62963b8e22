//! Which requests were taken up so far.
//!
//! The first answer that takes up a request is a new datagram: an earlier send of equal bytes
//! either took up that request too, or preceded it and took up none. For an answer with a key, the
//! table of keys already shows whether it is new, so only answers without a key are marked here.

ghost use Rattle.std.specs.Prelude.{◌≡◌, ◌<◌, ◌≤◌, ◌+◌, ℕ, true, None, Some, length, set, slice_get, OnOk, IfOk};
ghost use Rattle.exercise_model.specs.Account.{pair_of};
ghost use Rattle.exercise_findings.specs.Answered.{unasked_at, AreAnswered};
ghost use Rattle.exercise_findings.specs.Firsts.{key_at};
ghost use Rattle.exercise_findings.specs.FirstSends.{IsNewSend};

use crate::key::Key;
use exercise_model::ExerciseLog;
use std::alloc::{AllocError, Global};

/// Marks for the answers sent so far.
#[derive(Drop)]
pub(crate) struct Answered {
    /// For each entry, whether an answer without a key took up the request received there. Empty
    /// before the first such answer.
    pub taken: Vec<bool>,
    /// Whether an answer was sent that takes up no request.
    pub unasked: bool,
}

/// The marks before the first entry: none. It takes no memory.
pub(crate) fn no_answer_marks<L: ExerciseLog>(alloc: Global, log: &L) -> Answered
    ensures { AreAnswered (L.recording log.now) 0 result }
{
    let _log = log;
    Answered {
        taken: Vec::new(alloc),
        unasked: false,
    }
}

/// Extends the marks to this number of entries; existing marks are preserved.
fn make_room(taken: &mut Vec<bool>, entries: usize) -> Result<(), AllocError>
    requires { length taken.old.items ≤ entries }
    ensures room { OnOk result (length taken.new.items ≡ entries) }
    ensures kept { OnOk result ((e : ℕ) → slice_get taken.old.items e ≡ Some true → slice_get taken.new.items e ≡ Some true) }
{
    taken.resize(entries, false)
}

/// Marks a request as taken up; returns whether it already was.
fn mark(taken: &mut Vec<bool>, request: usize) -> bool
    requires { request < length taken.old.items }
    ensures before { slice_get taken.old.items request ≡ Some result }
    ensures now { taken.new.items ≡ set taken.old.items request true }
{
    let was_taken = taken[request];
    taken[request] = true;
    was_taken
}

/// Records which request the next entry, which has no key, takes up. Returns whether it is known to
/// be the first to take up that request.
fn note_pair<L: ExerciseLog>(
    answered: &mut Answered,
    log: &L,
    entry: usize,
    pair: Option<u32>,
) -> Result<bool, AllocError>
    requires within { entry < length (L.recording log.now).entries }
    requires key { key_at (L.recording log.now) entry ≡ None }
    requires pair { pair ≡ pair_of (L.recording log.now) entry }
    requires unasked { unasked_at (L.recording log.now) entry ≡ true → answered.old.unasked ≡ true }
    requires tied { AreAnswered (L.recording log.now) entry answered.old }
    ensures tied { OnOk result (AreAnswered (L.recording log.now) (entry + 1) answered.new) }
    ensures new { IfOk result (λ new. new ≡ true → IsNewSend (L.recording log.now) entry) }
{
    let _entry = entry;
    match pair {
        Some(request) => {
            make_room(&mut answered.taken, log.entry_count())?;
            let was_taken = mark(&mut answered.taken, request as usize);
            Ok(!(was_taken | answered.unasked))
        }
        None => Ok(false),
    }
}

/// Records which request the next entry takes up, or that it is an answer without a request.
/// Returns whether it is known to send a new datagram, as the first answer without a key to take up
/// its request.
pub(crate) fn note_answer<L: ExerciseLog>(
    answered: &mut Answered,
    log: &L,
    entry: usize,
    pair: Option<u32>,
    is_unasked: bool,
    key: Option<Key>,
) -> Result<bool, AllocError>
    requires within { entry < length (L.recording log.now).entries }
    requires pair { pair ≡ pair_of (L.recording log.now) entry }
    requires unasked { is_unasked ≡ unasked_at (L.recording log.now) entry }
    requires key { key ≡ key_at (L.recording log.now) entry }
    requires tied { AreAnswered (L.recording log.now) entry answered.old }
    ensures tied { OnOk result (AreAnswered (L.recording log.now) (entry + 1) answered.new) }
    ensures new { IfOk result (λ new. new ≡ true → IsNewSend (L.recording log.now) entry) }
{
    answered.unasked |= is_unasked;
    match key {
        Some(_) => Ok(false),
        None => note_pair(answered, log, entry, pair),
    }
}
