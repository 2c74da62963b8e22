//! Search over the entries under a key for those that pass a question; complete if all that pass
//! have the key.

ghost use Rattle.std.specs.Prelude.{◌≡◌, ◌<◌, ◌≤◌, length, IfSome};
ghost use Rattle.exercise_model.specs.Place.{first_below};
ghost use Rattle.exercise_review.specs.Counted.{last_below, count_below};
ghost use Rattle.exercise_review.specs.Register.{IsUnder};

use crate::question::{self, Question};
use crate::register::Register;
use exercise_model::ExerciseLog;

/// First entry under a key that passes.
fn first_under<L: ExerciseLog, Q: Question>(
    register: &Register<'_, L>,
    key: u64,
    question: &Q,
) -> Option<usize>
    requires { IsUnder register.now (Q.test question.now) key }
    ensures first { result ≡ first_below (Q.test question.now) (length register.now.entries) }
    ensures within { IfSome result (λ entry. entry < length register.now.entries) }
{
    let mut first = None;
    let mut next = register.last_under(key);
    while let Some(entry) = next {
        if question.passes(entry) {
            first = Some(entry);
        }
        next = register.before(key, entry);
    }
    first
}

/// Last entry under a key that passes.
fn last_under<L: ExerciseLog, Q: Question>(
    register: &Register<'_, L>,
    key: u64,
    question: &Q,
) -> Option<usize>
    requires { IsUnder register.now (Q.test question.now) key }
    ensures last { result ≡ last_below (Q.test question.now) (length register.now.entries) }
    ensures within { IfSome result (λ entry. entry < length register.now.entries) }
{
    let mut next = register.last_under(key);
    while let Some(entry) = next {
        if question.passes(entry) {
            return Some(entry);
        }
        next = register.before(key, entry);
    }
    None
}

/// Number of entries that pass, and the first of them.
#[derive(Clone, Copy)]
pub(crate) struct Counted {
    pub count: usize,
    pub first: Option<usize>,
}

/// Number of entries under a key that pass, and the first of them.
fn counted_under<L: ExerciseLog, Q: Question>(
    register: &Register<'_, L>,
    key: u64,
    question: &Q,
) -> Counted
    requires { IsUnder register.now (Q.test question.now) key }
    ensures count { result.count ≡ count_below (Q.test question.now) (length register.now.entries) }
    ensures first { result.first ≡ first_below (Q.test question.now) (length register.now.entries) }
{
    let _end = register.log().entry_count();
    let mut count = 0;
    let mut found = None;
    let mut next = register.last_under(key);
    while let Some(entry) = next {
        if question.passes(entry) {
            count += 1;
            found = Some(entry);
        }
        next = register.before(key, entry);
    }
    Counted {
        count,
        first: found,
    }
}

/// Number of entries that pass, and the first of them, where all that pass have this key. Without a
/// key, all entries are tested.
pub(crate) fn counted_entries<L: ExerciseLog, Q: Question>(
    register: &Register<'_, L>,
    key: Option<u64>,
    question: &Q,
) -> Counted
    requires { IfSome key (IsUnder register.now (Q.test question.now)) }
    ensures count { result.count ≡ count_below (Q.test question.now) (length register.now.entries) }
    ensures first { result.first ≡ first_below (Q.test question.now) (length register.now.entries) }
{
    match key {
        Some(key) => counted_under(register, key, question),
        None => {
            let end = register.log().entry_count();
            Counted {
                count: question::count_below(question, end),
                first: question::first_below(question, end),
            }
        }
    }
}

/// First entry that passes, where all that pass have this key. Without a key, all entries are
/// tested.
pub(crate) fn first_entry<L: ExerciseLog, Q: Question>(
    register: &Register<'_, L>,
    key: Option<u64>,
    question: &Q,
) -> Option<usize>
    requires { IfSome key (IsUnder register.now (Q.test question.now)) }
    ensures first { result ≡ first_below (Q.test question.now) (length register.now.entries) }
    ensures within { IfSome result (λ entry. entry < length register.now.entries) }
{
    match key {
        Some(key) => first_under(register, key, question),
        None => question::first_below(question, register.log().entry_count()),
    }
}

/// Last entry that passes, where all that pass have this key. Without a key, all entries are
/// tested.
pub(crate) fn last_entry<L: ExerciseLog, Q: Question>(
    register: &Register<'_, L>,
    key: Option<u64>,
    question: &Q,
) -> Option<usize>
    requires { IfSome key (IsUnder register.now (Q.test question.now)) }
    ensures last { result ≡ last_below (Q.test question.now) (length register.now.entries) }
    ensures within { IfSome result (λ entry. entry < length register.now.entries) }
{
    match key {
        Some(key) => last_under(register, key, question),
        None => question::last_below(question, register.log().entry_count()),
    }
}
