//! The command `mend`: the whole entries of a torn recording, with an end.

ghost use Rattle.std.specs.Prelude.{◌≡◌, ℕ, List, IfOk, string_bytes};
ghost use Rattle.exercise_recording.specs.Mending.{mended_at};
ghost use Rattle.siman_outside.specs.declared.limits.TheConstants.{LARGEST_TORN_RECORDING};
ghost use Rattle.siman_outside.specs.Outside.{Has};
ghost use Rattle.siman_file_commands.specs.Mend.{torn_line, mended_text, Mends};
ghost use Rattle.siman_print.specs.Spelled.{line_text};

use exercise_recording::{FormatFault, Mended, Mending};
use siman_outside::{
    Fault, LARGEST_TORN_RECORDING, Making, Notes, OfFile, Product, Settling, put_settled,
};
use siman_print::{Field, Value, counted, named_line};
use std::alloc::{AllocError, Global};
use std::io::{Read, Write};

/// The whole part of a recording, to be written with an end, and the line of the answer.
#[derive(Drop)]
pub struct MendedFile {
    pub mending: Mending,
    pub line: String,
}

/// The line about a torn recording: its entries, the bytes that were taken over, and its fault.
fn torn_line(alloc: Global, told: Mended, fault: FormatFault) -> Result<String, AllocError>
    ensures { IfOk result (λ line. string_bytes line ≡ line_text (torn_line told fault)) }
{
    let words = format!(in alloc; "{fault}")?;
    let fields = [
        Field::Keyed("records", Value::Number(u64::from(told.entries))),
        Field::Keyed("kept", Value::Number(told.kept as u64)),
        Field::Bare("fault", Value::Phrase(&words)),
    ];
    named_line(alloc, "mended", &fields)
}

/// The line of the answer, for a torn or a whole recording.
fn mended_line(alloc: Global, told: Mended) -> Result<String, AllocError>
    ensures { IfOk result (λ line. string_bytes line ≡ mended_text told) }
{
    match told.fault {
        Some(fault) => torn_line(alloc, told, fault),
        None => counted(alloc, "whole", "records", told.entries as usize),
    }
}

/// Reads a recording whose whole part is to be written.
fn read_torn<R: Read + Drop>(alloc: Global, old: R) -> Result<MendedFile, Fault<'static>>
    ensures { (bytes : List ℕ) × Has (R.remaining old) bytes × Mends (mended_at LARGEST_TORN_RECORDING bytes) result }
{
    let mending = Mending::read(alloc, old, LARGEST_TORN_RECORDING)?;
    let line = mended_line(alloc, mending.told())?;
    Ok(MendedFile { mending, line })
}

/// The file of the whole part of a recording.
impl Making for MendedFile {
    ghost use Rattle.siman_file_commands.specs.Mend.{PutsMended};

    ghost puts = { PutsMended };

    fn put<S: Settling<F>, F: Write, W: Write>(
        &self,
        _alloc: Global,
        settling: &S,
        file: &mut F,
        out: &mut W,
    ) -> Result<u8, Fault<'static>> {
        match self.mending.write(file) {
            Ok(()) => put_settled(settling, file, &self.line, out),
            Err(_) => Err(Fault::Output),
        }
    }
}

/// The command `mend`, which makes a recording of the whole entries of a torn one.
#[derive(Drop)]
pub struct MendCommand;

impl OfFile for MendCommand {
    ghost use Rattle.siman_file_commands.specs.Mend.{MendsFile};

    type Made = MendedFile;

    ghost reads = { λ _. MendsFile };

    fn read<R: Read + Drop>(
        self,
        alloc: Global,
        file: R,
        _notes: &mut Notes,
    ) -> Result<Product<MendedFile>, Fault<'static>> {
        match read_torn(alloc, file) {
            Ok(mended) => Ok(Product::File(mended)),
            Err(fault) => Err(fault),
        }
    }
}
