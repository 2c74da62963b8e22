//! Kinds of words behind the name of a line.

ghost use Rattle.std.specs.Prelude.{◌≡◌, is_some};
ghost use Rattle.siman_scripts.specs.Forms.{entity_of, tries_of, wait_of, fits};

use crate::forms::{address_of, number_named, state_of, value_of};
use crate::moves::target_of;
use byte_files::{number_16, number_to};
use exercise_model::LARGEST_ENTITY;

/// Kind of a word behind the name of a line.
#[derive(Clone, Copy)]
pub enum WordKind {
    /// A number, at most this one.
    Number(u64),
    /// The address `S:A` of a station, each number in 1..=65534.
    Address,
    /// A receiver `S:A:E`, each number in 0..=65535.
    Receiver,
    /// The number of an entity that a station opens with, in 1..=0xFFFD.
    Entity,
    /// The state that an entity opens in, `stopped` or `running`.
    State,
    /// `first=N`, the identifier of the first order, of 32 bits.
    FirstId,
    /// `tries=N`, the most sendings of an order, from 1, of 32 bits.
    Tries,
    /// `wait=N`, the time from the sending of an order until it is due, of 64 bits.
    Wait,
}

/// Number of an entity that a station may open with, if a word spells one.
fn entity_of(word: &[u8]) -> Option<u16>
    ensures { result ≡ entity_of word.now }
{
    let entity = number_16(word)?;
    if entity < 1 || entity > LARGEST_ENTITY {
        None
    } else {
        Some(entity)
    }
}

/// Most sendings of an order.
fn tries_of(word: &[u8]) -> Option<u32>
    ensures { result ≡ tries_of word.now }
{
    let tries = number_named(b"tries", word)?;
    if tries < 1 { None } else { Some(tries) }
}

/// Time from the sending of an order until it is due.
fn wait_of(word: &[u8]) -> Option<u64>
    ensures { result ≡ wait_of word.now }
{
    number_to(value_of(b"wait", word)?, u64::MAX)
}

/// Whether a word is of a kind.
pub(crate) fn fits(kind: WordKind, word: &[u8]) -> bool
    ensures { result ≡ fits kind word.now }
{
    match kind {
        WordKind::Number(largest) => number_to(word, largest).is_some(),
        WordKind::Address => address_of(word).is_some(),
        WordKind::Receiver => target_of(word).is_some(),
        WordKind::Entity => entity_of(word).is_some(),
        WordKind::State => state_of(word).is_some(),
        WordKind::FirstId => number_named(b"first", word).is_some(),
        WordKind::Tries => tries_of(word).is_some(),
        WordKind::Wait => wait_of(word).is_some(),
    }
}
