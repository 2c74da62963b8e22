//! A recording with as many entries as there can be.

use crate::recordings::{station, unmade};
use dis_records::EntityState;
use exercise_model::{ExerciseLog, LogEntry, LogFault, MOST_ENTRIES, Recording, Station};
use exercise_recording::{
    RecordingFault, RecordingView, RecordingWriter, WriterFault, read_recording,
};
use std::alloc::{AllocError, Global};
use std::io;
use std::io::Write;

/// An entry that tells that entity 7 is absent.
fn told_entry() -> LogEntry {
    LogEntry::Told {
        station: 0,
        entity: 7,
        state: EntityState::Absent,
    }
}

/// The station 2:3, alone.
fn stations(alloc: Global) -> io::Result<Vec<Station>> {
    let mut stations = Vec::new(alloc);
    stations.push(station(alloc, 2, 3)?)?;
    Ok(stations)
}

/// The fault of a full recording when one more entry is pushed; `None` unless that leaves exactly
/// [`MOST_ENTRIES`] entries.
fn pushed(log: &mut Recording) -> Option<LogFault> {
    for _ in 0..=MOST_ENTRIES {
        if let Err(fault) = log.push(told_entry()) {
            return (log.entry_count() == MOST_ENTRIES).then_some(fault);
        }
    }
    None
}

/// The fault of a full writer when one more state is told; `None` unless that is the first fault
/// and the writer can then finish.
fn told(stations: &[Station], out: &mut Vec<u8>) -> Option<WriterFault> {
    let Ok(mut writer) = RecordingWriter::start(out, 1, stations) else {
        return None;
    };
    let mut more = None;
    for number in 0..=MOST_ENTRIES {
        match writer.told(0, 7, EntityState::Absent) {
            Ok(()) => {}
            Err(fault) if number == MOST_ENTRIES => more = Some(fault),
            Err(_) => return None,
        }
    }
    match writer.finish() {
        Ok(_) => more,
        Err(_) => None,
    }
}

/// Number of entries that [`read_recording`] reads from a file, or its fault.
fn read(alloc: Global, file: &[u8]) -> Result<usize, RecordingFault> {
    let log = read_recording(alloc, file, u64::MAX)?;
    Ok(log.entry_count())
}

/// Number of entries in a [`RecordingView`] of a file, or its fault.
fn see(alloc: Global, file: &[u8]) -> Result<usize, RecordingFault> {
    let log = RecordingView::over(alloc, file)?;
    Ok(log.entry_count())
}

/// Prints a number of entries, or a fault.
fn put_count<W: Write>(
    how: &str,
    count: Result<usize, RecordingFault>,
    out: &mut W,
) -> io::Result<()> {
    match count {
        Ok(count) => writeln!(out, "{how}: {count} entries"),
        Err(fault) => writeln!(out, "{how}: {fault}"),
    }
}

/// Prints the number of entries of a file, as it is read and as it is viewed in place.
fn put_counts<W: Write>(alloc: Global, file: &[u8], out: &mut W) -> io::Result<()> {
    put_count("read", read(alloc, file), out)?;
    put_count("seen", see(alloc, file), out)
}

/// Adds an entry to a complete file: replaces its end by the entry and a new end.
fn add_entry(file: &mut Vec<u8>) -> Result<(), AllocError> {
    let end = file.len().saturating_sub(5);
    file.truncate(end);
    file.extend_from_slice(&[3, 0, 0, 0, 7, 0, 0, 0, 16, 0, 1])
}

/// Fills a file by a writer, and prints the fault of one more entry, and the number of entries that
/// are read from the file, as it is and with one more entry.
fn put_file<W: Write>(
    alloc: Global,
    stations: &[Station],
    file: &mut Vec<u8>,
    out: &mut W,
) -> io::Result<()> {
    if let Some(fault) = told(stations, file) {
        writeln!(
            out,
            "told of one entry more: {fault}\nfinish: {} bytes",
            file.len()
        )?;
    }
    put_counts(alloc, file, out)?;
    add_entry(file)?;
    put_counts(alloc, file, out)
}

/// Prints the fault of pushing one more entry to a full recording.
fn put_pushed<W: Write>(alloc: Global, out: &mut W) -> io::Result<()> {
    let Ok(mut log) = Recording::start(alloc, 1, stations(alloc)?) else {
        return Err(unmade());
    };
    match pushed(&mut log) {
        Some(fault) => writeln!(out, "push of one entry more: {fault}"),
        None => Err(unmade()),
    }
}

/// Prints how a full recording and a full file answer to one more entry.
pub fn put_full_recording<W: Write>(alloc: Global, out: &mut W) -> io::Result<()> {
    put_pushed(alloc, out)?;
    put_file(alloc, &stations(alloc)?, &mut Vec::new(alloc), out)
}
