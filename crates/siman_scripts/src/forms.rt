//! Forms of the lines of the exercise, its stations and the clock.

ghost use Rattle.std.specs.Prelude.{◌≡◌, Some, None, [], map, IfOk};
ghost use Rattle.std.specs.Option.{option_map};
ghost use Rattle.byte_files.specs.Text.{number_to};
ghost use Rattle.siman_scripts.specs.Statement.{address_of, value_of, state_of, datum_of, number_named, rules_of, exercise_form, station_form, opening_form, fixed_form, action_form, at_form, station_line, is_passed_over, form_of, statement_of};

use crate::moves::{acting, deliver};
use crate::statement::{ManagerRules, Statement};
use byte_files::{is_ascii, number_16, number_32, number_to, split_once, words};
use dis_records::{Address, EntityState, FixedDatum};
use exercise_model::LARGEST_ENTITY;
use std::alloc::{AllocError, Global};

/// The address that a word `S:A` spells.
pub fn address_of(word: &[u8]) -> Option<Address>
    ensures { result ≡ address_of word.now }
{
    let (site, application) = split_once(word, b':')?;
    Address::new(number_16(site)?, number_16(application)?)
}

/// The value of a word `NAME=VALUE`.
pub fn value_of<'a>(name: &[u8], word: &'a [u8]) -> Option<&'a [u8]>
    ensures { option_map (λ v. v.now) result ≡ value_of name.now word.now }
{
    let (before, value) = split_once(word, b'=')?;
    if before == name { Some(value) } else { None }
}

pub(crate) fn state_of(word: &[u8]) -> Option<EntityState>
    ensures { result ≡ state_of word.now }
{
    if word == EntityState::Stopped.name().as_bytes() {
        return Some(EntityState::Stopped);
    }
    if word == EntityState::Running.name().as_bytes() {
        return Some(EntityState::Running);
    }
    None
}

fn exercise(words: &[&[u8]]) -> Option<Statement>
    ensures { result ≡ exercise_form (map (λ w. w.now) words.now) }
{
    match words {
        [exercise] => Some(Statement::Exercise(number_to(exercise, 0xFF)? as u8)),
        _ => None,
    }
}

/// The number of 32 bits in a word `NAME=NUMBER`.
pub fn number_named(name: &[u8], word: &[u8]) -> Option<u32>
    ensures { result ≡ number_named name.now word.now }
{
    number_32(value_of(name, word)?)
}

/// Rules by which a manager orders, from the words after the station's address.
fn rules_of(words: &[&[u8]]) -> Option<ManagerRules>
    ensures { result ≡ rules_of (map (λ w. w.now) words.now) }
{
    match words {
        [] => Some(ManagerRules {
            first_id: 1,
            tries: 3,
            wait: 10,
        }),
        [first, tries, wait] => {
            let first_id = number_named(b"first", first)?;
            let tries = number_named(b"tries", tries)?;
            let wait = number_to(value_of(b"wait", wait)?, u64::MAX)?;
            if tries < 1 {
                return None;
            }
            Some(ManagerRules {
                first_id,
                tries,
                wait,
            })
        }
        _ => None,
    }
}

fn station(words: &[&[u8]]) -> Option<Statement>
    ensures { result ≡ station_form (map (λ w. w.now) words.now) }
{
    match words {
        [] => None,
        [station, rest @ ..] => Some(Statement::Station {
            address: address_of(station)?,
            rules: rules_of(rest)?,
        }),
    }
}

fn opening(words: &[&[u8]]) -> Option<Statement>
    ensures { result ≡ opening_form (map (λ w. w.now) words.now) }
{
    match words {
        [station, entity, state] => {
            let address = address_of(station)?;
            let entity = number_16(entity)?;
            let state = state_of(state)?;
            if entity < 1 || entity > LARGEST_ENTITY {
                return None;
            }
            Some(Statement::Opening {
                address,
                entity,
                state,
            })
        }
        _ => None,
    }
}

/// The fixed datum that two words spell.
pub(crate) fn datum_of(words: &[&[u8]]) -> Option<FixedDatum>
    ensures { result ≡ datum_of (map (λ w. w.now) words.now) }
{
    match words {
        [id, value] => Some(FixedDatum {
            id: number_32(id)?,
            value: number_32(value)?,
        }),
        _ => None,
    }
}

fn fixed(words: &[&[u8]]) -> Option<Statement>
    ensures { result ≡ fixed_form (map (λ w. w.now) words.now) }
{
    match words {
        [] => None,
        [station, rest @ ..] => Some(Statement::Fixed {
            address: address_of(station)?,
            datum: datum_of(rest)?,
        }),
    }
}

fn action(words: &[&[u8]]) -> Option<Statement>
    ensures { result ≡ action_form (map (λ w. w.now) words.now) }
{
    match words {
        [station, id] => Some(Statement::Action {
            address: address_of(station)?,
            id: number_32(id)?,
        }),
        _ => None,
    }
}

fn at(words: &[&[u8]]) -> Option<Statement>
    ensures { result ≡ at_form (map (λ w. w.now) words.now) }
{
    match words {
        [now] => Some(Statement::At(number_to(now, u64::MAX)?)),
        _ => None,
    }
}

/// Statement of a line about a station, by its name: an entity that it opens with, a datum that it
/// holds, an action that it knows, or a move.
fn station_line(
    alloc: Global,
    name: &[u8],
    words: &[&[u8]],
) -> Result<Option<Statement>, AllocError>
    ensures { IfOk result (λ s. s ≡ station_line name.now (map (λ w. w.now) words.now)) }
{
    if name == b"opening".as_slice() {
        return Ok(opening(words));
    }
    if name == b"fixed".as_slice() {
        return Ok(fixed(words));
    }
    if name == b"action".as_slice() {
        return Ok(action(words));
    }
    if name == b"deliver".as_slice() {
        return Ok(deliver(words));
    }
    acting(alloc, name, words)
}

/// Statement of the words of a line, if they have a form.
pub fn form_of(alloc: Global, words: &[&[u8]]) -> Result<Option<Statement>, AllocError>
    ensures { IfOk result (λ s. s ≡ form_of (map (λ w. w.now) words.now)) }
{
    let (name, rest) = match words {
        [] => return Ok(None),
        [name, rest @ ..] => (*name, rest),
    };
    if name == b"exercise".as_slice() {
        return Ok(exercise(rest));
    }
    if name == b"station".as_slice() {
        return Ok(station(rest));
    }
    if name == b"at".as_slice() {
        return Ok(at(rest));
    }
    station_line(alloc, name, rest)
}

/// Whether a line is ignored: it is empty, or its first byte is `#`.
pub(crate) fn is_passed_over(line: &[u8]) -> bool
    ensures { result ≡ is_passed_over line.now }
{
    match line {
        [] => true,
        [first, ..] => *first == b'#',
    }
}

/// Statement of a line, without its line feed, if it is ASCII text and has a form.
pub fn statement_of(alloc: Global, line: &[u8]) -> Result<Option<Statement>, AllocError>
    ensures { IfOk result (λ s. s ≡ statement_of line.now) }
{
    if !is_ascii(line) {
        return Ok(None);
    }
    if is_passed_over(line) {
        return Ok(Some(Statement::Nothing));
    }
    let words = words(alloc, line)?;
    form_of(alloc, words.as_slice())
}
