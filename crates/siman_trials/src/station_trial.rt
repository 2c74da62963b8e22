//! Runs the calls of a station at its link, and compares the results with the case.

use crate::station_call::{CalledStation, make_call};
use crate::{Calls, Case, Stream, TextEntries, WELL, Written, entries_of, found, write_to};
use exercise_recording::RecordingWriter;
use siman_lines::MemoryLine;
use siman_scripts::{Move, Script, read_script};
use siman_stations::{InitialWorld, Node, begin_world};
use std::alloc::{AllocError, Global};
use std::io;
use std::io::{ErrorKind, Write};
use std::vec::IntoIter;

/// Results of the calls of a station.
#[derive(Drop)]
pub struct Left {
    pub line: MemoryLine,
    pub file: Written,
    /// The answers, one line for each call.
    pub told: String,
}

/// The script in the file `script` of the case.
fn script_of(alloc: Global, case: &Case) -> io::Result<Script> {
    let Some(file) = found(&case.files, b"script") else {
        return Err(io::Error::from(ErrorKind::NotFound));
    };
    match read_script(alloc, &file.stream.bytes) {
        Ok(script) => Ok(script),
        Err(_) => Err(io::Error::from(ErrorKind::InvalidData)),
    }
}

/// A link in memory on which these datagrams arrive.
fn line_with(alloc: Global, datagrams: &[Stream], fails_at: Option<u64>) -> io::Result<MemoryLine> {
    let mut coming = Vec::new(alloc);
    for datagram in datagrams {
        coming.push(Vec::from_slice(alloc, &datagram.bytes)?)?;
    }
    Ok(MemoryLine::new(alloc, coming, fails_at))
}

/// Makes the calls of a case.
fn make_calls<W: Write>(
    alloc: Global,
    case: &Case,
    called: &mut CalledStation<'_>,
    recorder: &mut RecordingWriter<'_, W>,
    told: &mut String,
) -> io::Result<()> {
    for call in &case.calls {
        make_call(alloc, *call, called, recorder, told)?;
    }
    Ok(())
}

/// Starts a recording, and makes the calls of a case at its station of this world.
fn record_calls(
    alloc: Global,
    case: &Case,
    station: u16,
    begun: &mut InitialWorld,
    moves: &mut IntoIter<Move, Global>,
    left: &mut Left,
) -> io::Result<()> {
    let setting = begun.recording.setting();
    let Some(node) = begun.nodes.get_mut(usize::from(station)) else {
        return Err(io::Error::from(ErrorKind::NotFound));
    };
    let Left { line, file, told } = left;
    match RecordingWriter::start(file, setting.exercise(), setting.stations()) {
        Ok(mut recorder) => {
            let mut called = CalledStation {
                station,
                line,
                node,
                moves,
            };
            make_calls(alloc, case, &mut called, &mut recorder, told)
        }
        Err(fault) => Ok(writeln!(told, "start: {fault}")?),
    }
}

/// Begins the world of the case's script, and records the calls of the case at its station.
fn record(alloc: Global, case: &Case, station: u16, left: &mut Left) -> io::Result<()> {
    let Script {
        exercise,
        stations,
        moves,
    } = script_of(alloc, case)?;
    match begin_world(alloc, exercise, stations) {
        Ok(mut begun) => {
            let moves = &mut moves.into_iter();
            record_calls(alloc, case, station, &mut begun, moves, left)
        }
        Err(_) => Err(io::Error::from(ErrorKind::InvalidData)),
    }
}

/// Results of the calls of a case, where the call `fails_at` of the link fails, and the calls that
/// write the recording have these limits.
fn run_at_line(
    alloc: Global,
    case: &Case,
    station: u16,
    fails_at: Option<u64>,
    calls: Calls,
) -> io::Result<Left> {
    let mut left = Left {
        line: line_with(alloc, &case.coming, fails_at)?,
        file: write_to(alloc, calls),
        told: String::new(alloc),
    };
    record(alloc, case, station, &mut left)?;
    Ok(left)
}

/// Text of the datagrams on a link: each in hex digits, with a line end.
pub fn sent_text(alloc: Global, sent: &[Vec<u8>]) -> Result<String, AllocError> {
    let mut text = String::new(alloc);
    for datagram in sent {
        let digits = hex::encode_upper(alloc, datagram.as_slice())?;
        text.push_str(&digits)?;
        text.push('\n')?;
    }
    Ok(text)
}

/// Writes the answers, then the number of datagrams on the link, whether each of them is in a sent
/// entry of its own, and the number of whole entries.
fn put_left(
    told: &mut String,
    answers: &str,
    station: u16,
    sent: &[Vec<u8>],
    written: TextEntries<'_>,
) -> Result<(), AllocError> {
    told.push_str(answers)?;
    let (count, whole) = (sent.len(), written.count());
    let are_all = if written.have_all(station, sent) {
        "all"
    } else {
        "not all"
    };
    writeln!(told, "sent {count}, {are_all} recorded, entries {whole}")
}

/// Runs the case again with each of the first `each_call` calls of the link failing in turn, and
/// writes the results.
fn fail_each_call(alloc: Global, case: &Case, station: u16, told: &mut String) -> io::Result<()> {
    for number in 1..=case.each_call {
        writeln!(told, "call {number} fails")?;
        let left = run_at_line(alloc, case, station, Some(number), WELL)?;
        let written = entries_of(&left.file.bytes);
        put_left(told, &left.told, station, left.line.sent(), written)?;
    }
    Ok(())
}

/// Whether the results are right if this byte, from 0, is the first that can't be written: the
/// bytes before it are in the file, and the datagrams on the link are those of its whole entries.
fn is_right_before(alloc: Global, case: &Case, station: u16, byte: usize) -> io::Result<bool> {
    let calls = Calls {
        most: 1,
        fails_at: (byte as u64).saturating_add(1),
        kind: Some(ErrorKind::Other),
    };
    let left = run_at_line(alloc, case, station, None, calls)?;
    let written = &left.file.bytes;
    let sent = left.line.sent();
    Ok(
        case.left.bytes.get(..byte) == Some(written.as_slice())
            && entries_of(written).are_all(station, sent),
    )
}

/// Runs the case again with the write of each byte failing in turn, and writes how often the
/// results are right.
fn fail_each_byte(alloc: Global, case: &Case, station: u16, told: &mut String) -> io::Result<()> {
    if !case.each_byte {
        return Ok(());
    }
    let (mut stands, bytes) = (0usize, case.left.bytes.len());
    for byte in 0..bytes {
        if is_right_before(alloc, case, station, byte)? {
            stands = stands.saturating_add(1);
        }
    }
    writeln!(told, "stands at {stands} of {bytes} bytes")?;
    Ok(())
}

/// Whether `left` equals `wanted`; prints `left` if not.
pub fn compare<W: Write>(
    name: &str,
    part: &str,
    left: &[u8],
    wanted: &[u8],
    out: &mut W,
) -> io::Result<bool> {
    if left == wanted {
        return Ok(true);
    }
    writeln!(out, "{name}: {part} is otherwise:")?;
    out.write_all(left)?;
    Ok(false)
}

/// Writes the results, and those with calls of the link or writes failing.
fn put_all(alloc: Global, case: &Case, station: u16, left: &mut Left) -> io::Result<()> {
    let Left { line, file, told } = left;
    put_left(told, "", station, line.sent(), entries_of(&file.bytes))?;
    fail_each_call(alloc, case, station, told)?;
    fail_each_byte(alloc, case, station, told)
}

/// Whether the results are those that the case expects; prints those that are not.
fn compare_left<W: Write>(
    alloc: Global,
    case: &Case,
    left: &Left,
    out: &mut W,
) -> io::Result<bool> {
    let name = &case.name;
    let is_told = compare(name, "out", left.told.as_bytes(), &case.out.bytes, out)?;
    let sent = sent_text(alloc, left.line.sent())?;
    let is_sent = compare(name, "sent", sent.as_bytes(), &case.sent.bytes, out)?;
    let is_left = if case.is_left {
        compare(name, "left", &left.file.bytes, &case.left.bytes, out)?
    } else {
        true
    };
    Ok(is_told && is_sent && is_left)
}

/// Whether a case of a station at its link ends as expected; prints the results that differ.
pub fn try_at_line<W: Write>(
    alloc: Global,
    case: &Case,
    station: u16,
    out: &mut W,
) -> io::Result<bool> {
    let mut left = run_at_line(alloc, case, station, case.fails_at, case.left.calls)?;
    put_all(alloc, case, station, &mut left)?;
    compare_left(alloc, case, &left, out)
}
