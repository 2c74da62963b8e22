//! Runs of the program with words, files in memory and standard input, in which every call of the
//! system succeeds.

use siman_console::{Endpoint, Known, Links, Listening, Outside, run};
use siman_trials::{Given, WELL, WireLine, Written, lines_of, read_from, write_to};
use std::alloc::Global;
use std::io;
use std::io::ErrorKind;

/// Names of files, with their contents.
pub(crate) type Files<'a> = &'a [(&'a str, &'a [u8])];

/// Files in memory, and the contents of the file that was made.
#[derive(Drop)]
struct MemoryFiles<'a> {
    alloc: Global,
    files: Files<'a>,
    left: Option<Vec<u8>>,
    /// Whether the file that is being made replaces one with bytes in it.
    replaces: bool,
    /// Whether a saved file replaced one with bytes in it, or a created file replaced any.
    replaced: bool,
}

impl<'a> MemoryFiles<'a> {
    /// The contents of a file.
    fn held(&self, name: &str) -> Option<&'a [u8]> {
        for (known, bytes) in self.files {
            if *known == name {
                return Some(*bytes);
            }
        }
        None
    }

    /// Whether there is a file with this name and with bytes in it.
    fn fills(&self, name: &str) -> bool {
        match self.held(name) {
            Some(bytes) => !bytes.is_empty(),
            None => false,
        }
    }
}

impl<'a> Outside for MemoryFiles<'a> {
    type Opened = &'a [u8];

    type File = Given<'a>;

    type Made = Written;

    fn open(&mut self, name: &str) -> io::Result<&'a [u8]> {
        match self.held(name) {
            Some(bytes) => Ok(bytes),
            None => Err(io::Error::from(ErrorKind::NotFound)),
        }
    }

    fn is_opened(&mut self, _file: &&'a [u8], _name: &str) -> bool {
        false
    }

    fn read(&mut self, file: &'a [u8]) -> Given<'a> {
        read_from(file, WELL)
    }

    fn is_filled(&mut self, name: &str) -> bool {
        self.fills(name)
    }

    fn make(&mut self, name: &str, _force: bool) -> io::Result<Written> {
        self.replaces = self.fills(name);
        Ok(write_to(self.alloc, WELL))
    }

    fn save(&mut self, file: Written) -> io::Result<()> {
        self.left = Some(file.bytes);
        self.replaced = self.replaces;
        Ok(())
    }

    fn discard(&mut self, _file: Written) {}

    fn is_taken(&mut self, name: &str) -> bool {
        self.held(name).is_some()
    }

    fn create(&mut self, name: &str) -> io::Result<Written> {
        self.replaced = self.held(name).is_some();
        Ok(write_to(self.alloc, WELL))
    }

    fn close(&mut self, file: Written) -> io::Result<()> {
        self.left = Some(file.bytes);
        Ok(())
    }

    fn known(&self) -> Known {
        Known::nothing()
    }
}

impl<'a> Links for MemoryFiles<'a> {
    type Line = WireLine;

    fn lines(&mut self, alloc: Global, stations: usize) -> io::Result<Vec<WireLine>> {
        Ok(lines_of(alloc, stations, None)?)
    }

    fn line_at(
        &mut self,
        alloc: Global,
        _bind: Endpoint,
        _peers: &[Endpoint],
        _listening: Listening,
    ) -> io::Result<WireLine> {
        let mut lines = lines_of(alloc, 1, None)?;
        match lines.pop() {
            Some(line) => Ok(line),
            None => Err(io::Error::from(ErrorKind::Other)),
        }
    }
}

/// Results of a run.
#[derive(Drop)]
pub(crate) struct Ran {
    pub(crate) status: u8,
    pub(crate) out: Vec<u8>,
    pub(crate) errors: Vec<u8>,
    /// The text on standard error behind the first line of a fault.
    pub(crate) reasons: Vec<u8>,
    /// Contents of the file that the run made, if it made one.
    pub(crate) left: Option<Vec<u8>>,
    /// Whether a saved file replaced one with bytes in it, or a created file replaced any.
    pub(crate) replaced: bool,
}

/// The words of a command line, the program's name first.
fn command_line(alloc: Global, words: &[&str]) -> io::Result<Vec<String>> {
    let mut line = Vec::new(alloc);
    line.push(String::from_str(alloc, "siman")?)?;
    for word in words {
        line.push(String::from_str(alloc, *word)?)?;
    }
    Ok(line)
}

/// Runs the program on words, with these files and this standard input.
pub(crate) fn run_words(alloc: Global, words: &[&str], files: Files<'_>, input: &[u8]) -> Ran {
    let mut table = MemoryFiles {
        alloc,
        files,
        left: None,
        replaces: false,
        replaced: false,
    };
    let mut out = write_to(alloc, WELL);
    let mut errors = write_to(alloc, WELL);
    let line = command_line(alloc, words);
    let input = read_from(input, WELL);
    let mut reasons = write_to(alloc, WELL);
    let ended = run(
        alloc,
        line,
        &mut table,
        input,
        &mut out,
        &mut errors,
        &mut reasons,
    );
    let MemoryFiles { left, replaced, .. } = table;
    let Written { bytes: out, .. } = out;
    let Written { bytes: errors, .. } = errors;
    let Written { bytes: reasons, .. } = reasons;
    Ran {
        status: ended.status,
        out,
        errors,
        reasons,
        left,
        replaced,
    }
}

/// Runs `audit` on a recording; the file that it makes is the certificate.
pub(crate) fn searched(alloc: Global, recording: &[u8]) -> Ran {
    run_words(alloc, &["audit", "rec", "cert"], &[("rec", recording)], &[])
}

/// Runs `check` on a recording and a certificate.
pub(crate) fn checked(alloc: Global, recording: &[u8], certificate: &[u8]) -> Ran {
    let files = [("rec", recording), ("cert", certificate)];
    run_words(alloc, &["check", "rec", "cert"], &files, &[])
}

impl Ran {
    /// Whether the run ended with status 0 or 1 and without a fault, but perhaps with a warning.
    pub(crate) fn is_answer(&self) -> bool {
        let warns = self.reasons.is_empty() || self.reasons.starts_with(b"warning: ");
        self.status <= 1 && self.errors.is_empty() && warns
    }

    /// Whether exactly one line follows the first line of a fault, and begins with two blanks.
    pub(crate) fn is_explained(&self) -> bool {
        let end = self.reasons.iter().position(|byte| *byte == b'\n');
        self.reasons.starts_with(b"  ") && end == self.reasons.len().checked_sub(1)
    }

    /// Whether the run ended with a fault, with no output and no file.
    pub(crate) fn is_fault(&self) -> bool {
        let told = !self.errors.is_empty() && (self.is_explained() || self.reasons.is_empty());
        self.status == 2 && self.out.is_empty() && told && self.left.is_none()
    }

    /// Whether the run played a station to the end of its recording, and reported the lines that
    /// failed.
    pub(crate) fn is_played(&self) -> bool {
        let told = match self.status {
            0 => self.errors.is_empty(),
            2 => self.errors.starts_with(b"line "),
            _ => false,
        };
        told && self.left.is_some()
            && self
                .out
                .ends_with(b" strangers=0 other=0 lost=- buffer=-\n")
    }

    /// Whether the run made moves up to one that can't be made, reported that one, and left the
    /// recording of those before.
    pub(crate) fn is_lived(&self) -> bool {
        self.status == 2 && self.errors.starts_with(b"world: ") && self.left.is_some()
    }

    /// Whether the run ended with this status, as an answer or with a fault.
    pub(crate) fn ends(&self, status: u8) -> bool {
        self.status == status && (self.is_answer() || self.is_fault())
    }
}
