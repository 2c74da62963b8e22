//! The program `siman`: passes the words of its command line, the files and sockets of the
//! operating system and the standard streams to `siman_console`, and exits with the status that it
//! returns.
//!
//! It knows no command and no format, and writes to the standard streams only through
//! `siman_console`. No layer is above it and it has no contracts: its `Disk` is the `Outside` that
//! the contracts of `siman_console` are over.
#![tactic(auto)]

mod disk;
mod host_line;
mod part;
mod sockets;
mod terminal;

use crate::disk::disk_of;
use crate::terminal::terminal_of;
use siman_console::{end_at_terminal, run};
use std::alloc::Global;
use std::fs::File;
use std::io::IsTerminal;
use std::process::ExitCode;
use std::{env, io};

fn words(rt: &HostRuntime, alloc: Global) -> io::Result<Vec<String>> {
    Ok(env::args(rt)?.collect(alloc)?)
}

/// Opens a descriptor that can be neither read nor written. So a standard stream that is closed
/// stays one that fails, and no file that the program opens or makes takes its number.
fn held(rt: &HostRuntime) -> io::Result<File> {
    File::open(rt, "/")
}

/// Whether the command line names no command, and a script would be read from a terminal.
fn is_at_terminal(rt: &HostRuntime, words: &io::Result<Vec<String>>) -> bool {
    match words {
        Ok(words) => words.len() < 2 && rt.stdin().is_terminal(),
        Err(_) => false,
    }
}

fn main(rt: HostRuntime) -> ExitCode {
    let _held = (held(&rt), held(&rt), held(&rt));
    let alloc = rt.alloc();
    let words = words(&rt, alloc);
    let (mut out, mut errors, mut reasons) = (rt.stdout(), rt.stderr(), rt.stderr());
    if is_at_terminal(&rt, &words) {
        let ended = end_at_terminal(alloc, &mut out, &mut errors);
        return ExitCode::from(ended.status);
    }
    let ended = run(
        alloc,
        words,
        &mut disk_of(&rt),
        terminal_of(rt.stdin()),
        &mut out,
        &mut errors,
        &mut reasons,
    );
    ExitCode::from(ended.status)
}
