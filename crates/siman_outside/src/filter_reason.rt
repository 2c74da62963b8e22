//! Reasons for words that are no filter of a view, or select nothing of a picture.

use crate::commands::ViewWord;
use byte_files::{TextPieces, number_16, split_once, words_alone};

/// The values of a key that all views have, if the word begins with one.
fn shared_words(word: &str) -> Option<&'static str> {
    let bytes = word.as_bytes();
    if bytes.starts_with(b"station=") {
        return Some("station=S:A is expected, each from 0 to 65535");
    }
    if bytes.starts_with(b"entity=") {
        return Some("entity=S:A:E is expected, each from 0 to 65535");
    }
    if bytes.starts_with(b"request=") {
        return Some("request=S:A/N is expected, S and A from 0 to 65535, N from 0 to 4294967295");
    }
    None
}

/// The filters of `review`, or the values of the key of this word.
fn review_words(word: &str) -> &'static str {
    if word.as_bytes().starts_with(b"fate=") {
        return "fate= is done, answered, refused, pending, unheard, unanswered, lost, unknown or nobody";
    }
    "the filters of review are station=S:A, entity=S:A:E, request=S:A/N and fate=WORD"
}

/// The filters of a view of entries, or the values of the key of this word.
fn entry_words(word: &str, filters: &'static str) -> &'static str {
    if word.as_bytes().starts_with(b"kind=") {
        return "kind= is create-entity, remove-entity, start-resume, stop-freeze, acknowledge, \
            action-request, action-response, data-query, set-data, data, event-report, comment, told \
            or other";
    }
    filters
}

/// Whether a word is `S:A`, a site and an application.
fn is_address(word: &[u8]) -> bool {
    match split_once(word, b':') {
        Some((site, application)) => number_16(site).is_some() && number_16(application).is_some(),
        None => false,
    }
}

/// The words of a picture; or why this one, which names a station, does not do.
fn picture_words(word: &str) -> &'static str {
    match split_once(word.as_bytes(), b'=') {
        Some((key, value)) if key == b"station".as_slice() && is_address(value) => {
            "no station of the recording has this address"
        }
        _ => {
            "the words of chart are from=STEP, to=STEP and clock=us|ms|s, each at most once, the \
            first step not above the last, and entity=S:A:E and station=S:A"
        }
    }
}

/// The reason for a word that is no filter of a view, or selects nothing of a picture.
pub(crate) fn filter_pieces(word: &str, view: Option<ViewWord>) -> TextPieces<'static> {
    let own = match view {
        Some(ViewWord::Review) => review_words(word),
        Some(ViewWord::Log) => entry_words(
            word,
            "the filters of log are station=S:A, entity=S:A:E, request=S:A/N and kind=NAME",
        ),
        Some(ViewWord::Count) => entry_words(
            word,
            "the filters of count are station=S:A, entity=S:A:E, request=S:A/N and kind=NAME",
        ),
        None => return words_alone(picture_words(word)),
    };
    words_alone(shared_words(word).unwrap_or(own))
}
