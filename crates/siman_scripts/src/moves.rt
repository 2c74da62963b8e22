//! Forms of the lines of moves.

ghost use Rattle.std.specs.Prelude.{◌≡◌, Some, None, [], map, IfOk};
ghost use Rattle.std.specs.Option.{option_map};
ghost use Rattle.siman_scripts.specs.Statement.{target_of, numbers_of, alone, action_body, query_body, set_body, plain_body, body_of, command_act, tell_act, act_of, acting_form, deliver_form};

use crate::act::Act;
use crate::forms::{address_of, datum_of};
use crate::statement::Statement;
use byte_files::{number_16, number_32, split_once};
use dis_records::{ClockTime, EntityId};
use siman_manager::Order;
use siman_pdus::{Body, DatumIds, Datums};
use std::alloc::{AllocError, Global};

/// The receiving identifier that a word `S:A:E` spells.
pub fn target_of(word: &[u8]) -> Option<EntityId>
    ensures { result ≡ target_of word.now }
{
    let (site, rest) = split_once(word, b':')?;
    let (application, entity) = split_once(rest, b':')?;
    Some(EntityId {
        site: number_16(site)?,
        application: number_16(application)?,
        entity: number_16(entity)?,
    })
}

/// The numbers of 32 bits that some words spell.
fn numbers_of(alloc: Global, words: &[&[u8]]) -> Result<Option<Vec<u32>>, AllocError>
    ensures { IfOk result (λ numbers. option_map (λ v. v.items) numbers ≡ numbers_of (map (λ w. w.now) words.now)) }
{
    let mut numbers = Vec::new(alloc);
    for word in words {
        match number_32(word) {
            Some(number) => numbers.push(number)?,
            None => return Ok(None),
        }
    }
    Ok(Some(numbers))
}

fn action_body(alloc: Global, words: &[&[u8]]) -> Option<Body>
    ensures { result ≡ action_body (map (λ w. w.now) words.now) }
{
    match words {
        [action] => Some(Body::ActionRequest {
            request: 0,
            action: number_32(action)?,
            datums: Datums {
                fixed: Vec::new(alloc),
                variable: Vec::new(alloc),
            },
        }),
        _ => None,
    }
}

fn query_body(alloc: Global, words: &[&[u8]]) -> Result<Option<Body>, AllocError>
    ensures { IfOk result (λ body. body ≡ query_body (map (λ w. w.now) words.now)) }
{
    if words.is_empty() {
        return Ok(None);
    }
    match numbers_of(alloc, words)? {
        Some(fixed) => Ok(Some(Body::DataQuery {
            request: 0,
            interval: 0,
            ids: DatumIds {
                fixed,
                variable: Vec::new(alloc),
            },
        })),
        None => Ok(None),
    }
}

fn set_body(alloc: Global, words: &[&[u8]]) -> Result<Option<Body>, AllocError>
    ensures { IfOk result (λ body. body ≡ set_body (map (λ w. w.now) words.now)) }
{
    match datum_of(words) {
        Some(datum) => {
            let mut fixed = Vec::new(alloc);
            fixed.push(datum)?;
            Ok(Some(Body::SetData {
                request: 0,
                datums: Datums {
                    fixed,
                    variable: Vec::new(alloc),
                },
            }))
        }
        None => Ok(None),
    }
}

/// A value, if no words follow.
fn alone<A: Drop>(words: &[&[u8]], what: A) -> Option<A>
    ensures { result ≡ alone (map (λ w. w.now) words.now) what }
{
    if words.is_empty() { Some(what) } else { None }
}

const NEVER: ClockTime = ClockTime { hour: 0, past: 0 };

/// The body of a request with no further words, by its name.
fn plain_body(name: &[u8]) -> Option<Body>
    ensures { result ≡ plain_body name.now }
{
    let request = 0;
    if name == b"create".as_slice() {
        return Some(Body::CreateEntity { request });
    }
    if name == b"remove".as_slice() {
        return Some(Body::RemoveEntity { request });
    }
    if name == b"start".as_slice() {
        return Some(Body::StartResume {
            real: NEVER,
            sim: NEVER,
            request,
        });
    }
    if name == b"stop".as_slice() {
        return Some(Body::StopFreeze {
            real: NEVER,
            reason: 0,
            behaviour: 0,
            request,
        });
    }
    None
}

/// The body of a request, by its name and the words after the receiver.
fn body_of(alloc: Global, name: &[u8], words: &[&[u8]]) -> Result<Option<Body>, AllocError>
    ensures { IfOk result (λ body. body ≡ body_of name.now (map (λ w. w.now) words.now)) }
{
    if name == b"do".as_slice() {
        return Ok(action_body(alloc, words));
    }
    if name == b"query".as_slice() {
        return query_body(alloc, words);
    }
    if name == b"set".as_slice() {
        return set_body(alloc, words);
    }
    match plain_body(name) {
        Some(body) => Ok(alone(words, body)),
        None => Ok(None),
    }
}

fn command(alloc: Global, name: &[u8], words: &[&[u8]]) -> Result<Option<Act>, AllocError>
    ensures { IfOk result (λ act. act ≡ command_act name.now (map (λ w. w.now) words.now)) }
{
    match words {
        [] => Ok(None),
        [to, rest @ ..] => match target_of(to) {
            Some(target) => Ok(body_of(alloc, name, rest)?.map(|body| Act::Command(Order {
                target,
                body,
            }))),
            None => Ok(None),
        },
    }
}

fn tell(words: &[&[u8]]) -> Option<Act>
    ensures { result ≡ tell_act (map (λ w. w.now) words.now) }
{
    match words {
        [entity] => Some(Act::Tell(number_16(entity)?)),
        _ => None,
    }
}

/// Act of a station, by the name of the line and the words after the station's address.
fn act_of(alloc: Global, name: &[u8], words: &[&[u8]]) -> Result<Option<Act>, AllocError>
    ensures { IfOk result (λ act. act ≡ act_of name.now (map (λ w. w.now) words.now)) }
{
    match name {
        b"tick" => Ok(alone(words, Act::Tick)),
        b"tell" => Ok(tell(words)),
        _ => command(alloc, name, words),
    }
}

/// A move of the station that the first word names.
pub(crate) fn acting(
    alloc: Global,
    name: &[u8],
    words: &[&[u8]],
) -> Result<Option<Statement>, AllocError>
    ensures { IfOk result (λ s. s ≡ acting_form name.now (map (λ w. w.now) words.now)) }
{
    match words {
        [] => Ok(None),
        [station, rest @ ..] => match address_of(station) {
            Some(address) => Ok(act_of(alloc, name, rest)?.map(|act| Statement::Does {
                address,
                act,
            })),
            None => Ok(None),
        },
    }
}

/// A delivery, by the words after its name.
pub(crate) fn deliver(words: &[&[u8]]) -> Option<Statement>
    ensures { result ≡ deliver_form (map (λ w. w.now) words.now) }
{
    match words {
        [place, station] => {
            let place = number_32(place)?;
            Some(Statement::Does {
                address: address_of(station)?,
                act: Act::Deliver(place),
            })
        }
        _ => None,
    }
}
