//! The usage of the program and its help, as `clap` formats them.

use crate::rows::{CommandRow, CommandWord, Often};
use crate::table::{further_rows, rows};
use clap::error::ErrorKind;
use clap::{Arg, ArgAction, Command, Error};
use std::alloc::{AllocError, Global};
use std::convert::AsStr;

/// The version of the program.
const VERSION: &str = "0.1.0";

/// What the program does, for its help.
const ABOUT: &str =
    "Shows Simulation Management PDUs of DIS (IEEE 1278.1-2012), and runs, shows, searches and checks recorded exercises. With no command, a script is read from standard input, run, searched for a sequence and checked";

/// What `--json` does, for the help.
const JSON: &str = "Prints the rows in JSON, one object a line";

/// What `--prose` does, for the help.
const PROSE: &str = "Prints sentences in place of rows";

/// What `--torn` does, for the help.
const TORN: &str =
    "Reads what stands whole of a recording that is torn, as one that is still written, and warns";

const FORCE: &str = "Replaces a file that has the name of the one that is made";

/// The exit statuses, for the end of the help, and the example of a call without words.
const STATUSES: &str = "Exit status:
  0  the answer is on standard output; of `check` or `why` it is yes, of `audit` or `why` explained
  1  a datagram is refused, or the answer of `check`, `why` or `chart` is no, of `audit`, `why` or `chart` blocked
  2  a fault of usage, hex text, files, scripts, worlds, lines or writing, told on standard error
  3  memory ran out

Examples:
  siman < exercise.script";

/// A positional argument of a command.
fn argument<'a>(alloc: Global, word: &'static CommandWord) -> Arg<'a> {
    let required = matches!(word.often, Often::Once | Often::OnceOrMore);
    let argument = Arg::new(alloc, word.name)
        .help(word.about)
        .required(required);
    match word.often {
        Often::Once | Often::AtMostOnce => argument.action(ArgAction::Set),
        Often::OnceOrMore => argument.action(ArgAction::Append).num_args(1..),
        Often::AnyTimes => argument.action(ArgAction::Append).num_args(0..),
    }
}

/// An option that may be given once.
fn option<'a>(alloc: Global, name: &'static str, about: &'static str) -> Arg<'a> {
    Arg::new(alloc, name)
        .long(name)
        .action(ArgAction::SetTrue)
        .help(about)
}

fn arguments<'a>(alloc: Global, row: &'static CommandRow) -> Result<Vec<Arg<'a>>, AllocError> {
    let mut arguments = Vec::new(alloc);
    for word in row.words {
        arguments.push(argument(alloc, word))?;
    }
    if row.takes.json() {
        arguments.push(option(alloc, "json", JSON))?;
    }
    if row.takes.prose() {
        arguments.push(option(alloc, "prose", PROSE))?;
    }
    if row.takes.torn() {
        arguments.push(option(alloc, "torn", TORN))?;
    }
    if row.takes.force() {
        arguments.push(option(alloc, "force", FORCE))?;
    }
    Ok(arguments)
}

/// A command of the table. Its arguments are made first, so that nothing half built is alive where
/// memory may run out.
fn command<'a>(alloc: Global, row: &'static CommandRow) -> Result<Command<'a>, AllocError> {
    let arguments = arguments(alloc, row)?;
    Command::new(alloc, row.name)
        .about(row.about)
        .override_usage(row.usage)
        .after_help(row.example)
        .args(arguments)
}

fn commands<'a>(alloc: Global) -> Result<Vec<Command<'a>>, AllocError> {
    let mut commands = Vec::new(alloc);
    for row in rows().iter().chain(further_rows()) {
        commands.push(command(alloc, row)?)?;
    }
    Ok(commands)
}

/// The end of the help: the exit statuses, and an example of each command.
fn ending(alloc: Global) -> Result<String, AllocError> {
    let mut text = String::new(alloc);
    text.push_str(STATUSES)?;
    for row in rows().iter().chain(further_rows()) {
        if let Some(example) = row.example.strip_prefix("Example:") {
            text.push_str(example)?;
        }
    }
    Ok(text)
}

fn siman<'a>(alloc: Global, ending: &'a str) -> Result<Command<'a>, AllocError> {
    let commands = commands(alloc)?;
    Command::new(alloc, "siman")
        .version(VERSION)
        .after_help(ending)
        .about(ABOUT)
        .subcommands(commands)
}

/// The fault of a call without words at a terminal.
const AT_TERMINAL: &str =
    "no command is named, and standard input is a terminal: a script is read from a file or a pipe";

/// The fault of words of `join` that `clap` accepts: a wrong word behind the names, or one piece
/// without a form.
fn join_complaint<S: AsStr>(words: &[S]) -> &'static str {
    if words.iter().any(|word| word.as_str().starts_with("parts=")) {
        "behind <NEW> stand, each at most once, 'form=open' or 'form=closed', and 'parts=yes'; one piece alone needs a form"
    } else if words.iter().any(|word| word.as_str().starts_with("form=")) {
        "the form is 'form=open' or 'form=closed', and stands behind <NEW>"
    } else {
        "one piece alone is no exercise to join: name another one, or 'form=open' or 'form=closed' behind <NEW>"
    }
}

/// The fault of words of `import` that `clap` accepts.
const IMPORT_COMPLAINT: &str =
    "behind <NEW> stand, each at most once, 'port=N' (1 to 65535), 'on=INTERFACE', 'cut=keep', 'shared', 'echo', 'opening=none' or 'opening=assumed'";

/// The fault of words that ask for no task although `clap` accepts them.
fn complaint<S: AsStr>(words: &[S]) -> &'static str {
    if words.iter().any(|word| word.as_str() == "--") {
        // `--` ends the options elsewhere; here no word needs it.
        return "unexpected argument '--' found";
    }
    let twice = words.iter().filter(|word| word.as_str() == "-").count() > 1;
    match words {
        _ if twice => "standard input, '-', can be read once",
        [_, name, ..] if name.as_str() == "review" => {
            "'--json' and '--prose' are two spellings: only one of them may stand"
        }
        [_, name, ..] if name.as_str() == "join" => join_complaint(words),
        [_, name, ..] if name.as_str() == "import" => IMPORT_COMPLAINT,
        [_, name, rest @ ..] if name.as_str() == "station" => {
            if rest.iter().any(|word| word.as_str() == "-") {
                "standard input has the lines of the station: '-' names no file here"
            } else {
                "a peer stands before 'from=any', 'keep=all' and 'clock=system'"
            }
        }
        _ => "these words ask for nothing",
    }
}

/// The error of `clap` for words: a fault of usage, or the help that they ask for. Without words,
/// the fault that standard input is a terminal.
fn told<'a, S: AsStr>(
    siman: &mut Command<'a>,
    words: Option<&'a [S]>,
) -> Result<Error, AllocError> {
    let Some(words) = words else {
        return siman.error(ErrorKind::MissingSubcommand, AT_TERMINAL);
    };
    match siman.try_get_matches_from_mut(words) {
        Err(error) => Ok(error),
        Ok(_) => siman.error(ErrorKind::UnknownArgument, complaint(words)),
    }
}

/// Beginning of a tip of `clap` that is wrong here: it says to pass an unknown option as a value
/// after `--`, which no command takes.
const WRONG_TIP: &str = "\n  tip: to pass '";

/// A text without that tip, and without the empty line before it if it is the only tip.
fn without_tip(alloc: Global, text: &str) -> Result<String, AllocError> {
    let Some((before, tip)) = text.split_once(WRONG_TIP) else {
        return String::from_str(alloc, text);
    };
    let behind = match tip.split_once('\n') {
        Some((_, behind)) => behind,
        None => "",
    };
    let before = before.strip_suffix('\n').unwrap_or(before);
    format!(in alloc; "{before}\n{behind}")
}

/// The help or the fault of usage for words, or for none at a terminal.
fn text_of<S: AsStr>(alloc: Global, words: Option<&[S]>) -> Result<String, AllocError> {
    let ending = ending(alloc)?;
    let mut siman = siman(alloc, &ending)?;
    let error = told(&mut siman, words)?;
    if error.kind() == ErrorKind::OutOfMemory {
        return Err(AllocError);
    }
    let text = format!(in alloc; "{error}")?;
    without_tip(alloc, &text)
}

/// The help that words ask for, or the fault of their usage. The words ask for no task; the first
/// is the program's name.
pub fn usage_text<S: AsStr>(alloc: Global, words: &[S]) -> Result<String, AllocError> {
    text_of(alloc, Some(words))
}

/// The fault of a call without words if standard input is a terminal, where nobody means to type a
/// script. The caller finds out whether it is one; for [`read_words`](crate::read_words) no words
/// are a task.
pub fn terminal_text(alloc: Global) -> Result<String, AllocError> {
    text_of::<&str>(alloc, None)
}
