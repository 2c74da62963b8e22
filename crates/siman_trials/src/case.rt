//! A case, built line by line from its text.

use crate::calls::{Calls, WELL};
use crate::file::{File, Stream, empty};
use crate::lines::{Asked, CaseLine, CasePart, Says, read_line};
use std::alloc::{AllocError, Global};
use std::io::{ErrorKind, Write};
use std::{io, mem};

/// A call of a station, or a question to it.
#[derive(Clone, Copy)]
pub struct Call {
    pub asked: Asked,
    /// The time, or the number that the question is about.
    pub number: u64,
    /// Number of turns that `serve` runs.
    pub turns: u64,
}

/// One case: the input of the program, and the results expected of it.
pub struct Case {
    alloc: Global,
    pub name: String,
    /// The words behind the program's name, as UTF-8 bytes.
    pub words: Vec<Stream>,
    pub unread: Option<ErrorKind>,
    pub files: Vec<File>,
    pub input: Stream,
    /// Numbers of bytes of `input` behind which datagrams come before the next byte.
    pub input_pauses: Vec<usize>,
    /// Numbers of bytes of `input` behind which the clock shows another time, each with that time,
    /// in microseconds since 1970.
    pub input_times: Vec<(usize, u64)>,
    pub out: Stream,
    pub errors: Stream,
    /// Expected second line of the fault, if `is_reason` is set.
    pub reason: Stream,
    pub is_reason: bool,
    /// Expected text behind the second line, in a case that does not give that line itself.
    pub behind: Stream,
    pub left: Stream,
    /// Whether the program must make a file, with the bytes of `left`.
    pub is_left: bool,
    /// Whether the program must make a file and discard it; `left` holds the bytes it must have
    /// had.
    pub is_discarded: bool,
    /// Name under which later cases find the file that this case makes, whatever it holds.
    pub keep: Option<String>,
    /// Names of the files that must be opened or made, in order, one a line, if `is_asked` is set.
    pub asked: Vec<u8>,
    pub is_asked: bool,
    pub status: u64,
    pub half_told: bool,
    /// Index in the script of the station that runs over a link in memory. `None`: the case runs
    /// the program.
    pub station: Option<u64>,
    /// Datagrams that arrive on the link.
    pub coming: Vec<Stream>,
    /// Numbers of datagrams in `coming`, from 0: each occurrence of a number makes one receive
    /// before that datagram find nothing.
    pub pauses: Vec<usize>,
    /// Number of the call of the link that fails, from 1.
    pub fails_at: Option<u64>,
    pub calls: Vec<Call>,
    /// Expected datagrams on the link: each in hex digits, with a line end.
    pub sent: Stream,
    /// The case runs again once for each of the first `each_call` calls of the link, with that call
    /// failing.
    pub each_call: u64,
    /// Whether the case runs again once for each byte of `left`, with the write of that byte
    /// failing.
    pub each_byte: bool,
    part: CasePart,
}

// Not derived: who drops it makes one call, and does not take it apart by himself.
impl Drop for Case {
    fn drop(self) {
        let Case {
            alloc: _alloc,
            name: _name,
            words: _words,
            unread: _unread,
            files: _files,
            input: _input,
            input_pauses: _input_pauses,
            input_times: _input_times,
            out: _out,
            errors: _errors,
            reason: _reason,
            is_reason: _is_reason,
            behind: _behind,
            left: _left,
            is_left: _is_left,
            is_discarded: _is_discarded,
            keep: _keep,
            asked: _asked,
            is_asked: _is_asked,
            status: _status,
            half_told: _half_told,
            station: _station,
            coming: _coming,
            pauses: _pauses,
            fails_at: _fails_at,
            calls: _calls,
            sent: _sent,
            each_call: _each_call,
            each_byte: _each_byte,
            part: _part,
        } = self;
    }
}

/// An empty case with this name and these files. The case before the first has the empty name.
pub fn begin_case(alloc: Global, name: String, files: Vec<File>) -> Case {
    Case {
        alloc,
        name,
        words: Vec::new(alloc),
        unread: None,
        files,
        input: empty(alloc),
        input_pauses: Vec::new(alloc),
        input_times: Vec::new(alloc),
        out: empty(alloc),
        errors: empty(alloc),
        reason: empty(alloc),
        is_reason: false,
        behind: empty(alloc),
        left: empty(alloc),
        is_left: false,
        is_discarded: false,
        keep: None,
        asked: Vec::new(alloc),
        is_asked: false,
        status: 0,
        half_told: false,
        station: None,
        coming: Vec::new(alloc),
        pauses: Vec::new(alloc),
        fails_at: None,
        calls: Vec::new(alloc),
        sent: empty(alloc),
        each_call: 0,
        each_byte: false,
        part: CasePart::Out,
    }
}

/// Appends `text` and `end`, `times` times.
fn put_times(out: &mut Vec<u8>, times: u64, text: &str, end: &str) -> Result<(), AllocError> {
    for _ in 0..times {
        out.extend_from_slice(text.as_bytes())?;
        out.extend_from_slice(end.as_bytes())?;
    }
    Ok(())
}

/// Appends the text of `line` and a line end for each number from its first to its last, with the
/// number in place of each `%`.
fn put_each(out: &mut Vec<u8>, line: CaseLine<'_>) -> io::Result<()> {
    for number in line.first..=line.last {
        for byte in line.text.as_bytes() {
            if *byte == b'%' {
                write!(out, "{number}")?;
            } else {
                out.push(*byte)?;
            }
        }
        out.push(b'\n')?;
    }
    Ok(())
}

/// Appends the bytes that `text` spells: pairs of hex digits, optionally with spaces between pairs.
/// Returns false if it spells no such bytes.
fn put_hex(out: &mut Vec<u8>, text: &str) -> io::Result<bool> {
    let (mut high, mut is_half) = (0u32, false);
    for letter in text.chars() {
        match letter.to_digit(16) {
            Some(digit) if is_half => out.push((high.saturating_add(digit) % 256) as u8)?,
            Some(digit) => high = digit.saturating_mul(16),
            None if letter == ' ' && !is_half => continue,
            None => return Ok(false),
        }
        is_half = !is_half;
    }
    Ok(!is_half)
}

/// The limits and the failure that a `calls` line sets; `None` if it names no kind of failure.
fn calls_of(line: CaseLine<'_>) -> Option<Calls> {
    let kind = match line.text {
        "other" => Some(ErrorKind::Other),
        "interrupted" => Some(ErrorKind::Interrupted),
        "nothing" => None,
        _ => return None,
    };
    Some(Calls {
        most: line.first as usize,
        fails_at: line.last,
        kind,
    })
}

impl Case {
    /// Begins the next case, which inherits the files of this one.
    fn next(&mut self, name: &str) -> Result<(), AllocError> {
        let name = String::from_str(self.alloc, name)?;
        let files = mem::replace(&mut self.files, Vec::new(self.alloc));
        *self = begin_case(self.alloc, name, files);
        Ok(())
    }

    /// The bytes that the following lines fill.
    fn filled(&mut self) -> Option<&mut Stream> {
        match self.part {
            CasePart::Word => self.words.last_mut(),
            CasePart::File => match self.files.last_mut() {
                Some(file) => Some(&mut file.stream),
                None => None,
            },
            CasePart::Input => Some(&mut self.input),
            CasePart::Out => Some(&mut self.out),
            CasePart::Errors => Some(&mut self.errors),
            CasePart::Reason => Some(&mut self.reason),
            CasePart::Behind => Some(&mut self.behind),
            CasePart::Left | CasePart::Discarded => Some(&mut self.left),
            CasePart::Coming => self.coming.last_mut(),
            CasePart::Sent => Some(&mut self.sent),
        }
    }

    /// Takes a line that fills bytes. Returns false if the line is invalid here.
    fn fill(&mut self, line: CaseLine<'_>) -> io::Result<bool> {
        // Words and datagrams are no streams that calls read or write: `calls` is invalid for them.
        if matches!(line.says, Says::Calls)
            && matches!(
                self.part,
                CasePart::Word | CasePart::Coming | CasePart::Sent
            )
        {
            return Ok(false);
        }
        let Some(filled) = self.filled() else {
            return Ok(false);
        };
        let bytes = &mut filled.bytes;
        match line.says {
            Says::Text => put_times(bytes, 1, line.text, "\n")?,
            Says::Piece => put_times(bytes, 1, line.text, "")?,
            Says::Times => put_times(bytes, line.last, line.text, "")?,
            Says::Each => put_each(bytes, line)?,
            Says::Hex => return put_hex(bytes, line.text),
            _ => match calls_of(line) {
                Some(calls) => filled.calls = calls,
                None => return Ok(false),
            },
        }
        Ok(true)
    }

    fn add_words(&mut self, text: &str) -> Result<(), AllocError> {
        for word in text.split(' ') {
            self.words.push(Stream {
                bytes: Vec::from_slice(self.alloc, word.as_bytes())?,
                calls: WELL,
            })?;
        }
        Ok(())
    }

    fn add_file(&mut self, name: &str, shut: Option<ErrorKind>) -> Result<(), AllocError> {
        self.part = CasePart::File;
        self.files.push(File {
            name: String::from_str(self.alloc, name)?,
            stream: empty(self.alloc),
            shut,
        })?;
        Ok(())
    }

    fn keep_as(&mut self, name: &str) -> Result<(), AllocError> {
        self.keep = Some(String::from_str(self.alloc, name)?);
        Ok(())
    }

    fn call(&mut self, call: Call) -> Result<(), AllocError> {
        Ok(self.calls.push(call)?)
    }

    /// Adds the file that the program made to the files of later cases, if the case names it.
    pub fn keep_left(&mut self, left: Option<Vec<u8>>) -> Result<(), AllocError> {
        if let (Some(name), Some(bytes)) = (self.keep.take(), left) {
            let stream = Stream { bytes, calls: WELL };
            self.files.push(File {
                name,
                stream,
                shut: None,
            })?;
        }
        Ok(())
    }

    fn begin(&mut self, part: CasePart) -> Result<(), AllocError> {
        self.part = part;
        match part {
            CasePart::Word => self.words.push(empty(self.alloc))?,
            CasePart::Coming => self.coming.push(empty(self.alloc))?,
            CasePart::Left => self.is_left = true,
            CasePart::Discarded => self.is_discarded = true,
            CasePart::Reason => self.is_reason = true,
            _ => {}
        }
        Ok(())
    }

    /// Takes a line that sets one value.
    fn set(&mut self, line: CaseLine<'_>) {
        match line.says {
            Says::Unread(kind) => self.unread = Some(kind),
            Says::Status => self.status = line.last,
            Says::Asked | Says::AskedNothing => self.is_asked = true,
            Says::HalfTold => self.half_told = true,
            Says::Station => self.station = Some(line.last),
            Says::LineFails => self.fails_at = Some(line.last),
            Says::EachCallFails => self.each_call = line.last,
            Says::EachByteFails => self.each_byte = true,
            _ => {}
        }
    }

    /// Adds a pause: in the input, or else before the next datagram.
    fn pause(&mut self) -> Result<(), AllocError> {
        match self.part {
            CasePart::Input => Ok(self.input_pauses.push(self.input.bytes.len())?),
            _ => Ok(self.pauses.push(self.coming.len())?),
        }
    }

    /// Adds a time that the clock shows behind the bytes of the input so far. Returns false if the
    /// input is not what lines fill.
    fn show_time(&mut self, time: u64) -> io::Result<bool> {
        if !matches!(self.part, CasePart::Input) {
            return Ok(false);
        }
        self.input_times.push((self.input.bytes.len(), time))?;
        Ok(true)
    }

    /// Takes a line that adds an item to the case, or begins the next case.
    fn enter(&mut self, line: CaseLine<'_>) -> Result<(), AllocError> {
        match line.says {
            Says::Case => self.next(line.text),
            Says::Words => self.add_words(line.text),
            Says::File(shut) => self.add_file(line.text, shut),
            Says::Begin(part) => self.begin(part),
            Says::Asked => put_times(&mut self.asked, 1, line.text, "\n"),
            Says::Keep => self.keep_as(line.text),
            Says::Pause => self.pause(),
            Says::Call(asked) => self.call(Call {
                asked,
                number: line.first,
                turns: line.last,
            }),
            _ => Ok(()),
        }
    }

    /// Takes a line. Returns false if it can't be read, or is invalid here.
    pub fn take(&mut self, line: &str) -> io::Result<bool> {
        if line.is_empty() || line.starts_with('#') {
            return Ok(true);
        }
        let Some(line) = read_line(line) else {
            return Ok(false);
        };
        match line.says {
            Says::Text | Says::Piece | Says::Times | Says::Each | Says::Hex | Says::Calls => {
                self.fill(line)
            }
            Says::Time => self.show_time(line.last),
            _ => {
                self.set(line);
                self.enter(line)?;
                Ok(true)
            }
        }
    }
}
