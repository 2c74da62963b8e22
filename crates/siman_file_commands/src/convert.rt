//! The command `convert`: converts a recording of the first format to the second.

ghost use Rattle.std.specs.Prelude.{ℕ, List};
ghost use Rattle.exercise_recording.specs.Reading.{recording_at};
ghost use Rattle.siman_file_commands.specs.declared.convert.TheConstants.{LARGEST_OLD_RECORDING};
ghost use Rattle.siman_outside.specs.Outside.{Has};
ghost use Rattle.siman_file_commands.specs.Convert.{Carries};

use exercise_recording::Conversion;
use siman_outside::{Fault, Making, Notes, OfFile, Product, Settling, put_settled};
use siman_print::counted;
use std::alloc::Global;
use std::io::{Read, Write};

/// Size in bytes of the largest recording that is converted. The result is one byte longer, so each
/// converted recording can be read.
pub const LARGEST_OLD_RECORDING: u64 = 268_435_455;

/// A recording to be written in the second format, and the line of the answer.
#[derive(Drop)]
pub struct Carried {
    pub conversion: Conversion,
    pub line: String,
}

/// Reads a recording, to be written in the second format.
fn carry<R: Read + Drop>(alloc: Global, old: R) -> Result<Carried, Fault<'static>>
    ensures { (bytes : List ℕ) × Has (R.remaining old) bytes × Carries (recording_at LARGEST_OLD_RECORDING bytes) result }
{
    let conversion = Conversion::read(alloc, old, LARGEST_OLD_RECORDING)?;
    let entries = conversion.entry_count() as usize;
    let line = counted(alloc, "converted", "records", entries)?;
    Ok(Carried { conversion, line })
}

/// The file of a recording in the second format.
impl Making for Carried {
    ghost use Rattle.siman_file_commands.specs.Convert.{PutsConverted};

    ghost puts = { PutsConverted };

    fn put<S: Settling<F>, F: Write, W: Write>(
        &self,
        _alloc: Global,
        settling: &S,
        file: &mut F,
        out: &mut W,
    ) -> Result<u8, Fault<'static>> {
        match self.conversion.write(file) {
            Ok(()) => put_settled(settling, file, &self.line, out),
            Err(_) => Err(Fault::Output),
        }
    }
}

/// The command `convert`, which makes a recording of the second format of one of the first.
#[derive(Drop)]
pub struct ConvertCommand;

impl OfFile for ConvertCommand {
    ghost use Rattle.siman_file_commands.specs.Convert.{CarriesFile};

    type Made = Carried;

    ghost reads = { λ _. CarriesFile };

    fn read<R: Read + Drop>(
        self,
        alloc: Global,
        file: R,
        _notes: &mut Notes,
    ) -> Result<Product<Carried>, Fault<'static>> {
        match carry(alloc, file) {
            Ok(carried) => Ok(Product::File(carried)),
            Err(fault) => Err(fault),
        }
    }
}
