//! Tries `siman` under hostile use: random inputs, spoilt; calls with allocations refused; and full
//! or long data. It prints how the runs ended, and each wrong answer. It never opens a file or a
//! socket itself, since every run gets its files and links from memory. Nothing is built on it: it
//! has no contract to use.
//!
//! | Word | What it tries |
//! |---|---|
//! | `inputs:COUNT` | `COUNT` random datagrams, recordings, scripts and command lines |
//! | `inputs:COUNT:FIRST` | as many inputs, numbered from `FIRST` on instead of 0 |
//! | `calls` | the calls that take memory, with the outcome of each |
//! | `full` | a recording with as many entries as there can be |
//! | `load` | a long exercise, and many calls of a manager, application and station |
#![tactic(auto)]

mod full;
mod inputs;
mod load;
mod ran;
mod refusals;

use crate::full::put_full;
use crate::inputs::try_inputs;
use crate::load::put_load;
use crate::refusals::put_calls;
use std::alloc::Global;
use std::io::{ErrorKind, Write};
use std::process::ExitCode;
use std::{env, io};

/// Tries random inputs, spoilt, and prints how they ended. Whether all answers were right.
fn try_spoilt(rt: &HostRuntime, alloc: Global, count: u64, first: u64) -> io::Result<bool> {
    let mut out = rt.stdout();
    let ends = try_inputs(alloc, count, first, &mut out)?;
    writeln!(
        out,
        "{count} inputs made up and spoilt, from number {first} on"
    )?;
    ends.print(&mut out)?;
    Ok(ends.otherwise == 0)
}

/// Number of inputs and number of the first, from a word `inputs:COUNT` or `inputs:COUNT:FIRST`.
fn read_inputs(word: &str) -> Option<(u64, u64)> {
    let numbers = word.strip_prefix("inputs:")?;
    match numbers.split_once(':') {
        Some((count, first)) => Some((count.parse::<u64>().ok()?, first.parse::<u64>().ok()?)),
        None => Some((numbers.parse::<u64>().ok()?, 0)),
    }
}

/// Tries what a word of the command line names. Returns false if an input had a wrong answer.
fn try_word(rt: &HostRuntime, alloc: Global, word: &str) -> io::Result<bool> {
    if let Some((count, first)) = read_inputs(word) {
        return try_spoilt(rt, alloc, count, first);
    }
    match word {
        "calls" => put_calls(alloc, &mut rt.stdout())?,
        "full" => put_full(alloc, &mut rt.stdout())?,
        "load" => put_load(alloc, &mut rt.stdout())?,
        _ => return Err(io::Error::from(ErrorKind::InvalidInput)),
    }
    Ok(true)
}

/// Tries what each word of the command line names. Returns false if an input had a wrong answer.
fn try_words(rt: &HostRuntime, alloc: Global) -> io::Result<bool> {
    let mut good = true;
    for word in env::args(rt)?.skip(1) {
        good = try_word(rt, alloc, &word)? && good;
    }
    Ok(good)
}

fn main(rt: HostRuntime) -> ExitCode {
    match try_words(&rt, rt.alloc()) {
        Ok(true) => ExitCode::from(0),
        Ok(false) => ExitCode::from(1),
        Err(_) => ExitCode::from(2),
    }
}
