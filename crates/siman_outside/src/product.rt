//! What commands make of their input: a file, or an answer where there is nothing to make.

ghost use Rattle.siman_outside.specs.Opening.{MakesOfFile};
ghost use Rattle.siman_outside.specs.Making.{PutsOfFile, MakesProduct};
ghost use Rattle.siman_outside.specs.Outside.{Did, stream};

use crate::fault::Fault;
use crate::making::{Making, make_file, put_blocked_answer};
use crate::notes::Notes;
use crate::opening::{if_free, open_input};
use crate::outside::Outside;
use crate::settle::{ByFlush, Settling};
use std::alloc::Global;
use std::io::{Read, Write};

/// What a command makes of its input.
#[derive(Drop)]
pub enum Product<M> {
    /// A file, and the answer that is printed once it is written.
    File(M),
    /// No file: the text of the answer, which says why.
    Nothing(String),
}

impl<M: Making> Product<M> {
    ghost use Rattle.siman_outside.specs.Making.{PutsProduct, MakesProduct};
    ghost use Rattle.siman_outside.specs.Outside.{DidMake, stream};

    /// Writes the file to a writer, settles it, and then writes the answer; without a file writes the
    /// answer alone. Returns the status.
    pub fn put<S: Settling<F>, F: Write, W: Write>(
        &self,
        alloc: Global,
        settling: &S,
        file: &mut F,
        out: &mut W,
    ) -> Result<u8, Fault<'static>>
        ensures { PutsProduct M.puts self.now result (stream (F.contents file.old) (F.contents file.new)) (stream (W.contents out.old) (W.contents out.new)) }
    {
        match self {
            Product::File(made) => made.put(alloc, settling, file, out),
            Product::Nothing(answer) => put_blocked_answer(answer, out),
        }
    }

    /// Makes the file under a name, where it replaces an existing one (`force`) or not, and then
    /// writes the answer; without a file writes the answer alone. Returns the status.
    pub fn make<O: Outside, W: Write>(
        &self,
        alloc: Global,
        name: &str,
        force: bool,
        outside: &mut O,
        out: &mut W,
    ) -> Result<u8, Fault<'static>>
        ensures { DidMake O.deeds outside.old outside.new (λ deeds. MakesProduct M.puts self.now force name.now deeds result (stream (W.contents out.old) (W.contents out.new))) }
    {
        match self {
            Product::File(made) => make_file(alloc, made, name, force, outside, out),
            Product::Nothing(text) => put_blocked_answer(text, out),
        }
    }
}

/// A command that makes one file of another.
pub trait OfFile: Sized {
    ghost use Rattle.std.specs.Prelude.{ℕ, List, Option, Result};
    ghost use Rattle.siman_outside.specs.declared.fault.Fault.{Fault};
    ghost use Rattle.siman_outside.specs.declared.product.Product.{Product};

    /// The file that it makes.
    type Made: Making + Drop;

    /// The relation of the command and the bytes of its input, if they are known, to the product or
    /// the fault.
    ghost reads: { Self → (known : Option (List ℕ)) → Result (Product Self.Made) Fault → Type 0 };

    /// Reads the product from an input.
    fn read<R: Read + Drop>(
        self,
        alloc: Global,
        file: R,
        notes: &mut Notes,
    ) -> Result<Product<Self::Made>, Fault<'static>>
        ensures { reads self (R.remaining file) result };
}

/// Reads a product from an input, writes its file to a writer, and then the answer; without a file
/// writes the answer alone. Returns the status.
pub fn put_of_file<C: OfFile + Drop, R: Read + Drop, F: Write, W: Write>(
    alloc: Global,
    command: C,
    input: R,
    file: &mut F,
    out: &mut W,
) -> Result<u8, Fault<'static>>
    ensures { PutsOfFile (C.reads command) C.Made.puts (R.remaining input) result (stream (F.contents file.old) (F.contents file.new)) (stream (W.contents out.old) (W.contents out.new)) }
{
    match command.read(alloc, input, &mut Notes::nothing()) {
        Ok(product) => product.put(alloc, &ByFlush, file, out),
        Err(fault) => Err(fault),
    }
}

/// Opens the file of the first name, and makes the file of the second of it, where it replaces an
/// existing one (`force`) or not.
pub fn make_of_file<'a, C: OfFile + Drop, O: Outside, W: Write>(
    alloc: Global,
    command: C,
    names: (&'a str, &'a str),
    force: bool,
    outside: &mut O,
    out: &mut W,
    notes: &mut Notes,
) -> Result<u8, Fault<'a>>
    ensures { Did O.deeds O.holds outside.old outside.new (λ deeds. MakesOfFile (C.reads command) (MakesProduct C.Made.puts) force names.entry.0.now names.entry.1.now deeds result (stream (W.contents out.old) (W.contents out.new))) }
{
    let opened = open_input(names, outside);
    match if_free(opened, names.1, force, outside) {
        Ok(opened) => match command.read(alloc, outside.read(opened), notes) {
            Ok(product) => product.make(alloc, names.1, force, outside, out),
            Err(fault) => Err(fault),
        },
        Err(fault) => Err(fault),
    }
}
