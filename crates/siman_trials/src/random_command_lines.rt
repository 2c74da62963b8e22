//! Random command lines of every command, some of them wrong. Their words name files, which need not
//! be there.

use crate::input::RandomInput;

/// Words that may replace others.
const WORDS: [&str; WORD_COUNT] = [
    "--prose",
    "--torn",
    "--torn",
    "pdu",
    "pdus",
    "show",
    "check",
    "audit",
    "world",
    "plan",
    "live",
    "station",
    "convert",
    "mend",
    "join",
    "import",
    "export",
    "review",
    "log",
    "count",
    "why",
    "chart",
    "help",
    "--help",
    "-h",
    "--version",
    "-V",
    "--json",
    "--force",
    "--json",
    "--force",
    "rec",
    "cert",
    "script",
    "done",
    "order",
    "torn",
    "hex",
    "capture",
    "picture",
    "empty",
    "new",
    "none",
    "rec",
    "cert",
    "script",
    "done",
    "order",
    "empty",
    "new",
    "new",
    "",
    "-",
    "-",
    "--",
    "--x",
    "-x",
    "--forc",
    "--json=1",
    "--help=1",
    "00",
    "0701",
    "0",
    "GG",
    "é",
    "a b",
    "pdu=1",
    "form=open",
    "form=closed",
    "form=none",
    "fate=done",
    "fate=none",
    "kind=told",
    "station=2:3",
    "request=1:1/1",
    "entity=2:3:7",
    "station=9:9",
    "clock=us",
    "clock=x",
    "from=0",
    "from=2",
    "to=2",
    "to=4",
    "to=x",
    "from=any",
    "keep=all",
    "clock=system",
    "2:3",
    "1:1",
    "0:1",
    "127.0.0.1:3000",
    "127.0.0.1:0",
    "127.0.0.1",
    "::1",
    "opening=none",
    "opening=assumed",
    "port=3001",
    "on=eth0",
    "cut=keep",
    "shared",
    "echo",
    "parts=yes",
];

/// Largest number of words in a command line.
const MOST: usize = 11;

/// Number of words.
const WORD_COUNT: usize = 102;

/// Number of command lines.
const LINE_COUNT: usize = 36;

/// Correct command lines, of every command.
const LINES: [&[&str]; LINE_COUNT] = [
    &["review", "rec", "station=2:3", "--prose"],
    &[],
    &[
        "pdu",
        "07010B0500000000001C000000010001000000020003000700000001",
    ],
    &["pdus"],
    &["show", "done"],
    &["show", "-"],
    &["show", "torn", "--torn"],
    &["review", "torn", "--torn", "fate=done"],
    &["check", "done", "order"],
    &["audit", "done", "new"],
    &["audit", "done", "order", "--force"],
    &["world", "script", "new"],
    &["world", "-", "done", "--force"],
    &["plan", "script", "--json"],
    &["plan", "script", "new"],
    &["plan", "-", "done", "--force", "--json"],
    &["live", "script", "new"],
    &["convert", "done", "new"],
    &["convert", "rec", "empty"],
    &["mend", "torn", "new"],
    &["mend", "--force", "torn", "done"],
    &["join", "done", "new", "form=open"],
    &["join", "rec", "done", "new"],
    &["import", "script", "2:3", "127.0.0.1", "capture", "new"],
    &[
        "import",
        "script",
        "1:1",
        "::1",
        "capture",
        "new",
        "opening=assumed",
        "cut=keep",
    ],
    &["export", "done", "new"],
    &["review", "done", "fate=done", "--json"],
    &["log", "--json", "done", "request=1:1/1", "entity=2:3:7"],
    &["count", "done", "station=2:3", "--json"],
    &["why", "done", "order", "--json"],
    &["chart", "done", "order", "new", "from=1", "to=2"],
    &["chart", "done", "order", "picture", "--force"],
    &["chart", "done", "-", "new", "clock=ms"],
    &["chart", "rec", "-", "picture", "--force", "station=2:3"],
    &[
        "station",
        "script",
        "2:3",
        "new",
        "127.0.0.1:3000",
        "127.0.0.1:3001",
    ],
    &[
        "station",
        "script",
        "1:1",
        "new",
        "0.0.0.0:3000",
        "127.0.0.255:3001",
        "127.0.0.1:3002",
        "from=any",
        "keep=all",
        "clock=system",
    ],
];

/// A command line, without the name of the program.
#[derive(Drop)]
pub struct RandomCommandLine {
    words: [&'static str; MOST],
    count: usize,
}

impl RandomCommandLine {
    /// The words.
    pub fn words(&self) -> &[&'static str] {
        &self.words[..self.count.min(MOST)]
    }
}

/// A random word.
fn word(input: &mut RandomInput) -> &'static str {
    WORDS[input.random.below(WORD_COUNT) % WORD_COUNT]
}

/// Inserts a word at a place among the first `count` words, and moves those behind it up.
fn insert(words: &mut [&'static str; MOST], count: usize, place: usize, word: &'static str) {
    for back in 0..count.saturating_sub(place) {
        let at = count.saturating_sub(back);
        words[at % MOST] = words[at.saturating_sub(1) % MOST];
    }
    words[place % MOST] = word;
}

/// A random command line: a correct one, in which one time in two a word is replaced, one time in
/// three a word is inserted, and one time in six the words are cut off, or padded with empty ones,
/// at a random number.
pub fn random_command_line(input: &mut RandomInput) -> RandomCommandLine {
    let mut words = [""; MOST];
    let line = LINES[input.random.below(LINE_COUNT) % LINE_COUNT];
    let mut count = line.len().min(MOST);
    words[..count].copy_from_slice(&line[..count]);
    if input.random.one_in(2) {
        words[input.random.below(MOST) % MOST] = word(input);
    }
    if input.random.one_in(3) && count < MOST {
        let place = input.random.below(count);
        insert(&mut words, count, place, word(input));
        count += 1;
    }
    if input.random.one_in(6) {
        count = input.random.below(MOST).min(MOST);
    }
    RandomCommandLine { words, count }
}
