//! The name of a form that is nearest to a word.

ghost use Rattle.std.specs.Prelude.{◌≡◌, ◌≤◌, length, drop, IfOk};
ghost use Rattle.siman_scripts.specs.Nearest.{common_length, is_swapped, is_one_edit, is_two_edits, is_far, near_form, far_form, nearest_of, nearest};

use crate::form::{FORMS, LineForm, form_name, form_named};
use std::alloc::{AllocError, Global};

/// Length of the longest common prefix of two words.
fn common_length(a: &[u8], b: &[u8]) -> usize
    ensures value { result ≡ common_length a.now b.now }
    ensures within { result ≤ length a.now }
{
    let mut count = 0;
    while count < a.len() && count < b.len() && a[count] == b[count] {
        count += 1;
    }
    count
}

/// A word without its first `count` bytes.
fn rest(word: &[u8], count: usize) -> &[u8]
    ensures { result.now ≡ drop count word.now }
{
    if count < word.len() {
        &word[count..]
    } else {
        &[]
    }
}

/// Whether the first two bytes of one word are those of the other, swapped.
fn is_swapped(a: &[u8], b: &[u8]) -> bool
    ensures { result ≡ is_swapped a.now b.now }
{
    match (a, b) {
        ([first, second, ..], [other, next, ..]) => *first == *next && *second == *other,
        _ => false,
    }
}

/// Whether at most one edit makes one word of another.
fn is_one_edit(a: &[u8], b: &[u8]) -> bool
    ensures { result ≡ is_one_edit a.now b.now }
{
    let count = common_length(a, b);
    let (a, b) = (rest(a, count), rest(b, count));
    rest(a, 1) == rest(b, 1)
        || rest(a, 1) == b
        || a == rest(b, 1)
        || is_swapped(a, b) && rest(a, 2) == rest(b, 2)
}

/// Whether at most two edits make one word of another.
fn is_two_edits(a: &[u8], b: &[u8]) -> bool
    ensures { result ≡ is_two_edits a.now b.now }
{
    let count = common_length(a, b);
    let (a, b) = (rest(a, count), rest(b, count));
    is_one_edit(rest(a, 1), rest(b, 1))
        || is_one_edit(rest(a, 1), b)
        || is_one_edit(a, rest(b, 1))
        || is_swapped(a, b) && is_one_edit(rest(a, 2), rest(b, 2))
}

/// Whether a name of five letters or more is two edits away.
fn is_far(word: &[u8], form: LineForm) -> bool
    ensures { result ≡ is_far word.now form }
{
    let name = form_name(form);
    name.len() > 4 && is_two_edits(word, name.as_bytes())
}

/// The first form whose name is one edit away.
fn near_form(word: &[u8]) -> Option<LineForm>
    ensures { result ≡ near_form word.now }
{
    FORMS
        .iter()
        .copied()
        .find(|form| is_one_edit(word, form_name(*form).as_bytes()))
}

/// The first form of a longer name that is two edits away.
fn far_form(word: &[u8]) -> Option<LineForm>
    ensures { result ≡ far_form word.now }
{
    FORMS.iter().copied().find(|form| is_far(word, *form))
}

/// The form with the name nearest to a word of lower case.
fn nearest_of(word: &[u8]) -> Option<LineForm>
    ensures { result ≡ nearest_of word.now }
{
    form_named(word).or(near_form(word)).or(far_form(word))
}

/// The form with the name nearest to a word, whatever the case of the word's letters.
pub(crate) fn nearest(alloc: Global, word: &[u8]) -> Result<Option<LineForm>, AllocError>
    ensures { IfOk result (λ form. form ≡ nearest word.now) }
{
    let lowered = word.to_ascii_lowercase(alloc)?;
    Ok(nearest_of(lowered.as_slice()))
}
