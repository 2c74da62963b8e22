//! Actions of a case outside the program, for contracts alone: they take no memory.

ghost use Rattle.std.specs.Prelude.{◌≡◌};
ghost use Rattle.siman_cases.specs.Done.{letters_of, endpoints_of, found_of, found_as};
ghost use Rattle.siman_outside.specs.Outside.{count_result, call_result};

use http_server::Log;
use siman_console::{Endpoint, Listening};
use std::io;
use std::io::ErrorKind;

/// The letters of a name, one by one.
pub(crate) type Letters = Log<u8, ()>;

/// Endpoints of peers, one by one.
pub(crate) type Endpoints = Log<Endpoint, ()>;

/// An action outside the program, with the names that it was given, and the error if it failed.
#[derive(Drop)]
pub(crate) enum Done {
    Opened(Letters, Option<ErrorKind>),
    Compared(Letters, bool),
    Read,
    LookedInto(Letters, bool),
    /// A file was made. The bool is whether it may replace another file.
    Made(Letters, bool, Option<ErrorKind>),
    Saved,
    /// A file was not saved, with this error.
    Unsaved(ErrorKind),
    Discarded,
    LookedFor(Letters, bool),
    Created(Letters, Option<ErrorKind>),
    /// Links for this many stations were requested; the number of links, or the error.
    Lined(usize, Result<usize, ErrorKind>),
    /// A link was requested with its socket here and these peers, and is to hear whom and what this
    /// says. The result is success or the error.
    Bound(Endpoint, Endpoints, Listening, Result<(), ErrorKind>),
    Left,
    /// A created file was left, and not settled on the disk, with this error.
    Unsettled(ErrorKind),
}

/// The letters of a name.
pub(crate) fn letters(name: &str) -> Letters
    ensures { letters_of result ≡ name.now }
{
    let mut letters = Log::new();
    for letter in name.as_bytes() {
        letters = letters.and(letter, &());
    }
    letters
}

/// The endpoints of peers.
pub(crate) fn endpoints(peers: &[Endpoint]) -> Endpoints
    ensures { endpoints_of result ≡ peers.now }
{
    let mut endpoints = Log::new();
    for peer in peers {
        endpoints = endpoints.and(peer, &());
    }
    endpoints
}

/// The error of an answer, if it is one.
pub(crate) fn failure<T>(answer: &io::Result<T>) -> Option<ErrorKind>
    ensures { found_of result ≡ found_as answer.now }
{
    match answer {
        Ok(_) => None,
        Err(error) => Some(error.kind()),
    }
}

/// The number of items of an answer, or its error.
pub(crate) fn number<T>(answer: &io::Result<Vec<T>>) -> Result<usize, ErrorKind>
    ensures { result ≡ count_result answer.now }
{
    match answer {
        Ok(items) => Ok(items.len()),
        Err(error) => Err(error.kind()),
    }
}

/// Success or the error of an answer.
pub(crate) fn had<T>(answer: &io::Result<T>) -> Result<(), ErrorKind>
    ensures { result ≡ call_result answer.now }
{
    match answer {
        Ok(_) => Ok(()),
        Err(error) => Err(error.kind()),
    }
}
