//! Decides whether words that ask for no task ask for help, by the table of commands.

ghost use Rattle.std.specs.Prelude.{◌≡◌, length, map};
ghost use Rattle.siman_outside.specs.Helping.{is_short, is_help, is_version, left_of, is_refused, helps_behind, most_names, is_topic, helps, asks_help};

use crate::asking::{is_option, takes_named};
use crate::command_line::{is_choice, most};
use crate::commands::Takes;
use std::convert::AsStr;

/// Whether a word begins with a hyphen and this letter.
fn is_short(letter: u8, word: &str) -> bool
    ensures { result ≡ is_short letter word.now }
{
    let word = word.as_bytes();
    word.len() > 1 && word[0] == b'-' && word[1] == letter
}

fn is_help(word: &str) -> bool
    ensures { result ≡ is_help word.now }
{
    word == "--help" || is_short(b'h', word)
}

fn is_version(word: &str) -> bool
    ensures { result ≡ is_version word.now }
{
    word == "--version" || is_short(b'V', word)
}

/// How many times an option is still allowed after a word, which may be that option.
fn left_of(option: &str, word: &str, left: usize) -> usize
    ensures { result ≡ left_of option.now word.now left }
{
    if word == option {
        left.saturating_sub(1)
    } else {
        left
    }
}

/// Whether a word is refused: an option that is not allowed any more, or a name too many.
fn is_refused(
    names: usize,
    json: usize,
    prose: usize,
    force: usize,
    torn: usize,
    word: &str,
) -> bool
    ensures { result ≡ is_refused names json prose force torn word.now }
{
    match word {
        "--json" => json == 0,
        "--prose" => prose == 0,
        "--force" => force == 0,
        "--torn" => torn == 0,
        _ => names == 0 || is_option(word),
    }
}

/// Whether words after a command ask for its help before any word that it refuses. The command
/// takes at most `names` names, and its options `json`, `prose`, `force` and `torn` times.
fn helps_behind<S: AsStr>(
    names: usize,
    json: usize,
    prose: usize,
    force: usize,
    torn: usize,
    words: &[S],
) -> bool
    ensures { result ≡ helps_behind names json prose force torn (map S.text words.now) }
{
    let (mut names_left, mut json_left) = (names, json);
    let (mut prose_left, mut force_left, mut torn_left) = (prose, force, torn);
    let mut others = words;
    while let [word, rest @ ..] = others {
        let word = word.as_str();
        if is_help(word) {
            return true;
        }
        if is_refused(
            names_left, json_left, prose_left, force_left, torn_left, word,
        ) {
            return false;
        }
        if !is_choice(word) {
            names_left = names_left.saturating_sub(1);
        }
        json_left = left_of("--json", word, json_left);
        prose_left = left_of("--prose", word, prose_left);
        force_left = left_of("--force", word, force_left);
        torn_left = left_of("--torn", word, torn_left);
        others = rest;
    }
    false
}

/// Largest number of names that a command takes, of `words` words.
fn most_names(takes: Takes, words: usize) -> usize
    ensures { result ≡ most_names takes words }
{
    match takes {
        Takes::Nothing(_) => 0,
        Takes::One(_) => 1,
        Takes::Two(_) | Takes::PerhapsTwo | Takes::Source => 2,
        Takes::Pieces | Takes::Capture | Takes::Station | Takes::View(_) | Takes::Picture => words,
    }
}

fn helps<S: AsStr>(takes: Option<Takes>, words: &[S]) -> bool
    ensures { result ≡ helps takes (map S.text words.now) }
{
    match takes {
        None => false,
        Some(takes) => {
            let names = most_names(takes, words.len());
            let (json, prose) = (most(takes.json()), most(takes.prose()));
            let (force, torn) = (most(takes.force()), most(takes.torn()));
            helps_behind(names, json, prose, force, torn, words)
        }
    }
}

/// Whether `help` may be followed by these words: none, the name of a command, or `help` itself.
fn is_topic<S: AsStr>(words: &[S]) -> bool
    ensures { result ≡ is_topic (map S.text words.now) }
{
    match words {
        [] => true,
        [name] => name.as_str() == "help" || takes_named(name.as_str()).is_some(),
        _ => false,
    }
}

/// Whether words that ask for no task ask for help; if not, they are a fault of usage. The first
/// word is the program's name.
pub fn asks_help<S: AsStr>(words: &[S]) -> bool
    ensures { result ≡ asks_help (map S.text words.now) }
{
    match words {
        [] | [_] => false,
        [_, first, rest @ ..] => {
            let first = first.as_str();
            is_help(first)
                || is_version(first)
                || (first == "help" && is_topic(rest))
                || helps(takes_named(first), rest)
        }
    }
}
