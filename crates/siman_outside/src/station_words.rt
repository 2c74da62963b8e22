//! The words of `station`: names, peers, and what it hears, keeps and goes by.

ghost use Rattle.std.specs.Prelude.{◌≡◌, map, option_map};
ghost use Rattle.siman_outside.specs.Words.{asked_by, with_choice, choice_apart, choices_apart, station_named, station_asked};

use crate::asking::{has_option, last_apart};
use crate::commands::{Listening, StationChoices, StationWords, Task};
use std::convert::AsStr;

/// What no word behind the peers of a station says: it hears its peers alone, keeps Simulation
/// Management alone, and lines set its clock.
const NO_CHOICE: StationChoices = StationChoices {
    listening: Listening {
        anyone: false,
        all: false,
    },
    by_system: false,
};

/// The choices with that of a word, if it is the word of one that they do not have.
fn with_choice(mut choices: StationChoices, word: &str) -> Option<StationChoices>
    ensures { result ≡ with_choice choices word.now }
{
    if word == "from=any" && !choices.listening.anyone {
        choices.listening.anyone = true;
    } else if word == "keep=all" && !choices.listening.all {
        choices.listening.all = true;
    } else if word == "clock=system" && !choices.by_system {
        choices.by_system = true;
    } else {
        return None;
    }
    Some(choices)
}

/// The words without the last one, and the choices with that of this word, if it is the word of one
/// that they do not have; else both as they are.
#[tactic(auto, unfolding(crate::specs::Words::choice_apart))]
fn choice_apart<S: AsStr>(words: &[S], choices: StationChoices) -> (&[S], StationChoices)
    ensures { (map S.text result.0.now, result.1) ≡ choice_apart (map S.text words.now, choices) }
{
    match last_apart(words) {
        Some((before, last)) => match with_choice(choices, last) {
            Some(more) => (before, more),
            None => (words, choices),
        },
        None => (words, choices),
    }
}

/// The words without `from=any`, `keep=all` and `clock=system` at the end, in any order, and what
/// these say.
fn choices_apart<S: AsStr>(words: &[S]) -> (&[S], StationChoices)
    ensures { (map S.text result.0.now, result.1) ≡ choices_apart (map S.text words.now) }
{
    let (names, choices) = choice_apart(words, NO_CHOICE);
    let (names, choices) = choice_apart(names, choices);
    choice_apart(names, choices)
}

/// The task of `station`, if the names include at least one peer.
fn named_station<S: AsStr>(choices: StationChoices, names: &[S]) -> Option<Task<'_, S>>
    ensures { option_map (asked_by S.text) result ≡ station_named choices (map S.text names.now) }
{
    match names {
        [setup, address, recording, bind, peers @ ..] if !peers.is_empty() => {
            Some(Task::Station(StationWords {
                setup: setup.as_str(),
                address: address.as_str(),
                recording: recording.as_str(),
                bind: bind.as_str(),
                peers,
                listening: choices.listening,
                by_system: choices.by_system,
            }))
        }
        _ => None,
    }
}

/// The task of `station`: setup, address, recording, socket and peers, and words that say whom it
/// hears, what it keeps and what sets its clock.
pub(crate) fn station_words<S: AsStr>(words: &[S]) -> Option<Task<'_, S>>
    ensures { option_map (asked_by S.text) result ≡ station_asked (map S.text words.now) }
{
    let (names, choices) = choices_apart(words);
    if has_option(names) {
        return None;
    }
    named_station(choices, names)
}
