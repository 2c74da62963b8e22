//! The words of a command line: the command, the names after it, and the options, which may be
//! anywhere among the names.

ghost use Rattle.std.specs.Prelude.{◌≡◌, ◌≤◌, IfOk, length, map, option_map};
ghost use Rattle.siman_outside.specs.Options.{most};
ghost use Rattle.siman_outside.specs.Words.{times, is_choice, names_in, behind_of, line_of, asked_by, spelling_by, reading_by, is_spelled_once, reads_lines, are_taken, asked_behind, asked_by_name};

use crate::asking::{prose_words, taken, takes_named};
use crate::commands::{Reading, Takes, Task};
use siman_print::Spelling;
use std::alloc::{AllocError, Global};
use std::convert::AsStr;
use std::marker::Model;

/// The words after a command: its names, and how many times each option occurs. Contracts see the
/// names as texts.
#[derive(Drop)]
pub(crate) struct Behind<'a> {
    names: Vec<&'a str>,
    json: usize,
    prose: usize,
    force: usize,
    torn: usize,
}

impl<'a> Model for Behind<'a> {
    ghost use Rattle.std.specs.Prelude.{map};
    ghost use Rattle.siman_outside.specs.Words.{Behind};

    ghost Value = { Behind };

    ghost view = { λ b. record { names = map (λ name. name.now) b.names.items; json = b.json; prose = b.prose; force = b.force; torn = b.torn } };
}

/// How many times `wanted` occurs among words.
fn times<S: AsStr>(wanted: &str, words: &[S]) -> usize
    ensures count { result ≡ times wanted.now (map S.text words.now) }
    ensures within { result ≤ length words.now }
{
    let mut count = 0;
    let mut others = words;
    while let [word, rest @ ..] = others {
        if word.as_str() == wanted {
            count += 1;
        }
        others = rest;
    }
    count
}

/// Whether a word is an option that is allowed anywhere after a command: `--json`, `--prose`,
/// `--force` or `--torn`.
pub(crate) fn is_choice(word: &str) -> bool
    ensures { result ≡ is_choice word.now }
{
    word == "--json" || word == "--prose" || word == "--force" || word == "--torn"
}

/// The words after a command without these options.
fn names_of<'a, S: AsStr>(alloc: Global, words: &'a [S]) -> Result<Vec<&'a str>, AllocError>
    ensures { IfOk result (λ names. map (λ name. name.now) names.items ≡ names_in (map S.text words.now)) }
{
    let mut names = Vec::new(alloc);
    let mut others = words;
    while let [word, rest @ ..] = others {
        let word = word.as_str();
        if !is_choice(word) {
            names.push(word)?;
        }
        others = rest;
    }
    Ok(names)
}

/// Splits the words after a command into names and options.
pub(crate) fn behind_of<'a, S: AsStr>(
    alloc: Global,
    words: &'a [S],
) -> Result<Behind<'a>, AllocError>
    ensures { IfOk result (λ behind. behind ≡ behind_of (map S.text words.now)) }
{
    let names = names_of(alloc, words)?;
    Ok(Behind {
        names,
        json: times("--json", words),
        prose: times("--prose", words),
        force: times("--force", words),
        torn: times("--torn", words),
    })
}

/// The spelling of rows, given how many times `--json` occurs: JSON unless it is 0.
fn spelling_by(json: usize) -> Spelling
    ensures { result ≡ spelling_by json }
{
    if json == 0 {
        Spelling::Text
    } else {
        Spelling::Json
    }
}

/// How a recording is read, given how many times `--torn` occurs: whole unless it occurs.
fn reading_by(torn: usize) -> Reading
    ensures { result ≡ reading_by torn }
{
    if torn == 0 {
        Reading::Whole
    } else {
        Reading::Torn
    }
}

/// Largest number of times that something may occur: 1 if it is allowed, else 0.
pub(crate) fn most(taken: bool) -> usize
    ensures { result ≡ most taken }
{
    if taken { 1 } else { 0 }
}

/// Whether a command reads lines from standard input.
fn reads_lines(takes: Takes) -> bool
    ensures { result ≡ reads_lines takes }
{
    matches!(takes, Takes::Station)
}

impl<'a> Behind<'a> {
    /// Whether a command takes `--json` and `--prose` as often as they occur: at most one of them,
    /// once.
    fn is_spelled_once(&self, takes: Takes) -> bool
        ensures { result ≡ is_spelled_once takes self.now }
    {
        self.json <= most(takes.json())
            && self.prose <= most(takes.prose())
            && (self.json == 0 || self.prose == 0)
    }

    /// Whether a command takes the given options, as often as they occur, and at most one word is
    /// `-`, or none for a command that reads lines from standard input.
    fn are_taken(&self, takes: Takes) -> bool
        ensures { result ≡ are_taken takes self.now }
    {
        self.is_spelled_once(takes)
            && self.force <= most(takes.force())
            && self.torn <= most(takes.torn())
            && times("-", &self.names) <= most(!reads_lines(takes))
    }

    /// The task that the words ask for, after a command that takes `takes`; `None` if they ask for
    /// none.
    pub(crate) fn task(&self, takes: Option<Takes>) -> Option<Task<'_, &'a str>>
        ensures { option_map (asked_by (λ word. word.now)) result ≡ asked_behind takes self.now }
    {
        match takes {
            Some(takes) if self.are_taken(takes) => {
                let reading = reading_by(self.torn);
                if self.prose != 0 {
                    return prose_words(reading, &self.names);
                }
                let spelling = spelling_by(self.json);
                taken(takes, spelling, self.force != 0, reading, &self.names)
            }
            _ => None,
        }
    }
}

/// A command line: its command, if it names one, and the words after it. Contracts see texts.
#[derive(Drop)]
pub struct CommandLine<'a> {
    command: Option<&'a str>,
    behind: Behind<'a>,
}

impl<'a> Model for CommandLine<'a> {
    ghost use Rattle.std.specs.Option.{option_map};
    ghost use Rattle.siman_outside.specs.Words.{CommandLine};

    ghost Value = { CommandLine };

    ghost view = { λ line. record { command = option_map (λ name. name.now) line.command; behind = line.behind } };
}

/// Reads the words of a command line; the first is the program's name.
pub fn read_words<'a, S: AsStr>(
    alloc: Global,
    words: &'a [S],
) -> Result<CommandLine<'a>, AllocError>
    ensures { IfOk result (λ line. line ≡ line_of (map S.text words.now)) }
{
    match words {
        [_, name, rest @ ..] => Ok(CommandLine {
            command: Some(name.as_str()),
            behind: behind_of(alloc, rest)?,
        }),
        _ => Ok(CommandLine {
            command: None,
            behind: behind_of::<&str>(alloc, &[])?,
        }),
    }
}

impl<'a> CommandLine<'a> {
    /// The task of the command line; `None` if it asks for help or is a fault of usage.
    pub fn task(&self) -> Option<Task<'_, &'a str>>
        ensures { option_map (asked_by (λ word. word.now)) result ≡ asked_by_name self.now.command self.now.behind }
    {
        match self.command {
            None => Some(Task::Trial),
            Some(name) => self.behind.task(takes_named(name)),
        }
    }
}
