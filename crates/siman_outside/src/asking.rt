//! Reads words by the table of commands: the task that they ask for.

ghost use Rattle.std.specs.Prelude.{◌≡◌, ◌≤◌, length, map, option_map};
ghost use Rattle.siman_outside.specs.Words.{asked_by, is_option, takes_of, takes_named, bare_asked, one_asked, two_asked, taken, last_apart, has_option, is_join_word, form_named, form_apart, parts_apart, join_choices_apart, are_names, fewest_pieces, pieces_asked, join_asked, import_asked, station_asked, view_asked, prose_asked, why_asked, plan_asked, chart_asked};

use crate::commands::{
    ImportWords, JoinChoices, JoinForm, NoWord, OneWord, Reading, Takes, Task, TwoWords, ViewWord,
};
use crate::import_words::choices_of;
use crate::rows::CommandRow;
use crate::station_words::station_words;
use crate::table::{further_rows, rows};
use siman_print::Spelling;
use std::convert::AsStr;

/// Whether a word is an option: it begins with a hyphen and is longer than one byte.
pub(crate) fn is_option(word: &str) -> bool
    ensures { result ≡ is_option word.now }
{
    let word = word.as_bytes();
    word.len() > 1 && word[0] == b'-'
}

/// What the named command takes, by the rows of a table.
fn takes_of(mut table: &[CommandRow], name: &str) -> Option<Takes>
    ensures { result ≡ takes_of (map (λ row. (row.name.now, row.takes)) table.entry.now) name.now }
{
    while let [row, rest @ ..] = table {
        if row.name == name {
            return Some(row.takes);
        }
        table = rest;
    }
    None
}

/// What the named command takes.
#[tactic(auto, unfolding(crate::specs::Words::takes_named))]
pub(crate) fn takes_named(name: &str) -> Option<Takes>
    ensures { result ≡ takes_named name.now }
{
    match takes_of(rows(), name) {
        Some(takes) => Some(takes),
        None => takes_of(further_rows(), name),
    }
}

fn no_word<S: AsStr>(command: NoWord, words: &[S]) -> Option<Task<'_, S>>
    ensures { option_map (asked_by S.text) result ≡ bare_asked command (map S.text words.now) }
{
    match words {
        [] => Some(Task::Bare(command)),
        _ => None,
    }
}

fn one_word<S: AsStr>(command: OneWord, reading: Reading, words: &[S]) -> Option<Task<'_, S>>
    ensures { option_map (asked_by S.text) result ≡ one_asked command reading (map S.text words.now) }
{
    match words {
        [word] if !is_option(word.as_str()) => { Some(Task::One(command, word.as_str(), reading)) }
        _ => None,
    }
}

fn two_words<S: AsStr>(
    command: TwoWords,
    force: bool,
    reading: Reading,
    words: &[S],
) -> Option<Task<'_, S>>
    ensures { option_map (asked_by S.text) result ≡ two_asked command force reading (map S.text words.now) }
{
    match words {
        [first, second] if !is_option(first.as_str()) && !is_option(second.as_str()) => {
            Some(Task::Two(command, first.as_str(), second.as_str(), force, reading))
        }
        _ => None,
    }
}

/// The words before the last one, and the last one.
#[tactic(auto, using(crate::proofs::Lasts::last_behind))]
pub(crate) fn last_apart<S: AsStr>(words: &[S]) -> Option<(&[S], &str)>
    ensures { option_map (λ p. (map S.text p.0.now, p.1.now)) result ≡ last_apart (map S.text words.now) }
{
    match words.split_last() {
        Some((last, before)) => Some((before, last.as_str())),
        None => None,
    }
}

/// Whether any of the words is an option.
pub(crate) fn has_option<S: AsStr>(words: &[S]) -> bool
    ensures { result ≡ has_option (map S.text words.now) }
{
    let mut others = words;
    while let [word, rest @ ..] = others {
        if is_option(word.as_str()) {
            return true;
        }
        others = rest;
    }
    false
}

/// Whether a word begins with `form=` or `parts=`.
fn is_join_word(word: &str) -> bool
    ensures { result ≡ is_join_word word.now }
{
    word.as_bytes().starts_with(b"form=") || word.as_bytes().starts_with(b"parts=")
}

/// The form that a word names, if it names one.
fn form_named(word: &str) -> Option<JoinForm>
    ensures { result ≡ form_named word.now }
{
    if word == "form=open" {
        return Some(JoinForm::Open);
    }
    if word == "form=closed" {
        return Some(JoinForm::Closed);
    }
    None
}

/// The words without a form at the end, and that form, if the last word is one.
fn form_apart<S: AsStr>(words: &[S]) -> (&[S], Option<JoinForm>)
    ensures { (map S.text result.0.now, result.1) ≡ form_apart (map S.text words.now) }
{
    match last_apart(words) {
        Some((before, last)) => match form_named(last) {
            Some(form) => (before, Some(form)),
            None => (words, None),
        },
        None => (words, None),
    }
}

/// The words without `parts=yes` at the end, and whether it was there.
fn parts_apart<S: AsStr>(words: &[S]) -> (&[S], bool)
    ensures { (map S.text result.0.now, result.1) ≡ parts_apart (map S.text words.now) }
{
    match last_apart(words) {
        Some((before, last)) if last == "parts=yes" => (before, true),
        _ => (words, false),
    }
}

/// The words without a form and `parts=yes` at the end, in either order, and what these say.
fn join_choices_apart<S: AsStr>(words: &[S]) -> (&[S], JoinChoices)
    ensures { (map S.text result.0.now, result.1) ≡ join_choices_apart (map S.text words.now) }
{
    let (before, behind_form) = parts_apart(words);
    let (names, form) = form_apart(before);
    if behind_form {
        return (names, JoinChoices { form, parts: true });
    }
    let (names, parts) = parts_apart(names);
    (names, JoinChoices { form, parts })
}

/// Whether all words may be file names of `join`: no option, and nothing that begins with `form=` or
/// `parts=`.
fn are_names<S: AsStr>(words: &[S]) -> bool
    ensures { result ≡ are_names (map S.text words.now) }
{
    let mut others = words;
    while let [word, rest @ ..] = others {
        let word = word.as_str();
        if is_option(word) || is_join_word(word) {
            return false;
        }
        others = rest;
    }
    true
}

/// Smallest number of pieces: 1 if a form is given, else 2.
fn fewest_pieces(form: Option<JoinForm>) -> usize
    ensures { result ≡ fewest_pieces form }
{
    match form {
        None => 2,
        Some(_) => 1,
    }
}

/// The task of `join`, if there are enough pieces before the file to be made.
fn pieces<S: AsStr>(choices: JoinChoices, force: bool, words: &[S]) -> Option<Task<'_, S>>
    ensures { option_map (asked_by S.text) result ≡ pieces_asked choices force (last_apart (map S.text words.now)) }
{
    match last_apart(words) {
        Some((pieces, made)) if pieces.len() >= fewest_pieces(choices.form) => {
            Some(Task::Join(pieces, made, choices, force))
        }
        _ => None,
    }
}

fn join_words<S: AsStr>(force: bool, words: &[S]) -> Option<Task<'_, S>>
    ensures { option_map (asked_by S.text) result ≡ join_asked force (map S.text words.now) }
{
    let (names, choices) = join_choices_apart(words);
    if are_names(names) {
        return pieces(choices, force, names);
    }
    None
}

/// The task of `import`: script, address, host, capture, recording, and words that say how the capture
/// is read.
fn import_words<S: AsStr>(force: bool, words: &[S]) -> Option<Task<'_, S>>
    ensures { option_map (asked_by S.text) result ≡ import_asked force (map S.text words.now) }
{
    match words {
        [setup, address, host, capture, recording, choices @ ..] if !has_option(words) => {
            let words = ImportWords {
                setup: setup.as_str(),
                address: address.as_str(),
                host: host.as_str(),
                capture: capture.as_str(),
                recording: recording.as_str(),
                choices: choices_of(choices)?,
            };
            Some(Task::Import(words, force))
        }
        _ => None,
    }
}

fn view_words<S: AsStr>(
    view: ViewWord,
    spelling: Spelling,
    reading: Reading,
    words: &[S],
) -> Option<Task<'_, S>>
    ensures { option_map (asked_by S.text) result ≡ view_asked view spelling reading (map S.text words.now) }
{
    match words {
        [recording, filters @ ..] if !is_option(recording.as_str()) && !has_option(filters) => {
            Some(Task::View(view, recording.as_str(), filters, spelling, reading))
        }
        _ => None,
    }
}

/// The task of the sentences of a review.
pub(crate) fn prose_words<S: AsStr>(reading: Reading, words: &[S]) -> Option<Task<'_, S>>
    ensures { option_map (asked_by S.text) result ≡ prose_asked reading (map S.text words.now) }
{
    match words {
        [recording, filters @ ..] if !is_option(recording.as_str()) && !has_option(filters) => {
            Some(Task::Prose(recording.as_str(), filters, reading))
        }
        _ => None,
    }
}

/// The task of `why`, for a recording, or for a recording and a certificate.
fn why_words<S: AsStr>(spelling: Spelling, reading: Reading, names: &[S]) -> Option<Task<'_, S>>
    ensures { option_map (asked_by S.text) result ≡ why_asked spelling reading (map S.text names.now) }
{
    match names {
        [recording] if !is_option(recording.as_str()) => {
            Some(Task::Why(recording.as_str(), None, spelling, reading))
        }
        [recording, certificate]
            if !is_option(recording.as_str()) && !is_option(certificate.as_str()) => {
            let certificate = Some(certificate.as_str());
            Some(Task::Why(recording.as_str(), certificate, spelling, reading))
        }
        _ => None,
    }
}

/// The task of `plan`, for a source, or for a source and the plain script to make.
fn plan_words<S: AsStr>(spelling: Spelling, force: bool, names: &[S]) -> Option<Task<'_, S>>
    ensures { option_map (asked_by S.text) result ≡ plan_asked spelling force (map S.text names.now) }
{
    match names {
        [source] if !force && !is_option(source.as_str()) => {
            Some(Task::Plan(source.as_str(), None, spelling, false))
        }
        [source, script] if !is_option(source.as_str()) && !is_option(script.as_str()) => {
            let script = Some(script.as_str());
            Some(Task::Plan(source.as_str(), script, spelling, force))
        }
        _ => None,
    }
}

/// The task of `chart`: recording, certificate and picture, and the words that choose the shown
/// steps.
fn chart_words<S: AsStr>(force: bool, reading: Reading, words: &[S]) -> Option<Task<'_, S>>
    ensures { option_map (asked_by S.text) result ≡ chart_asked force reading (map S.text words.now) }
{
    match words {
        [recording, certificate, picture, steps @ ..] if !has_option(words) => {
            Some(Task::Chart(
                recording.as_str(),
                certificate.as_str(),
                picture.as_str(),
                steps,
                force,
                reading,
            ))
        }
        _ => None,
    }
}

/// The task of a command with these names, if it takes exactly such names.
pub(crate) fn taken<S: AsStr>(
    takes: Takes,
    spelling: Spelling,
    force: bool,
    reading: Reading,
    names: &[S],
) -> Option<Task<'_, S>>
    ensures { option_map (asked_by S.text) result ≡ taken takes spelling force reading (map S.text names.now) }
{
    match takes {
        Takes::Nothing(command) => no_word(command, names),
        Takes::One(command) => one_word(command, reading, names),
        Takes::Two(command) => two_words(command, force, reading, names),
        Takes::Pieces => join_words(force, names),
        Takes::Capture => import_words(force, names),
        Takes::Station => station_words(names),
        Takes::View(view) => view_words(view, spelling, reading, names),
        Takes::PerhapsTwo => why_words(spelling, reading, names),
        Takes::Source => plan_words(spelling, force, names),
        Takes::Picture => chart_words(force, reading, names),
    }
}
