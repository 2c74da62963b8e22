//! Making a file: writing it, printing the answer, and saving it.

ghost use Rattle.std.specs.Prelude.{◌≡◌, ◌∷◌, [], List, IfOk};
ghost use Rattle.std.specs.IoError.{error_kind};
ghost use Rattle.siman_outside.specs.Outside.{Deed, Adds, DidMake, stream};
ghost use Rattle.siman_outside.specs.Making.{PutsSettled, IsSettledFirst, PutsBlocked, saving_fault, IsSaved, MakesFile};

use crate::fault::{Fault, of_error};
use crate::outside::Outside;
use crate::settle::{OnDisk, Settling};
use byte_files::put;
use std::alloc::Global;
use std::io;
use std::io::{ErrorKind, Write};

/// A value from which a command makes a file.
pub trait Making {
    ghost use Rattle.std.specs.Prelude.{ℕ, Result};
    ghost use Rattle.siman_outside.specs.declared.fault.Fault.{Fault};
    ghost use Rattle.siman_outside.specs.Making.{SettlesFirst};
    ghost use Rattle.siman_outside.specs.Outside.{Stream, stream};

    /// The relation of the value to the status or fault, the made file and the output.
    ghost puts: { Self → Result ℕ Fault → (file out : Stream) → Type 0 };

    /// Writes the whole file, settles it so that it outlasts a power loss, and then writes the
    /// answer. Returns the status.
    fn put<S: Settling<F>, F: Write, W: Write>(
        &self,
        alloc: Global,
        settling: &S,
        file: &mut F,
        out: &mut W,
    ) -> Result<u8, Fault<'static>>
        ensures puts { puts self.now result (stream (F.contents file.old) (F.contents file.new)) (stream (W.contents out.old) (W.contents out.new)) }
        ensures settled { SettlesFirst result (S.settled file.new) (stream (F.contents file.old) (F.contents file.new)) (stream (W.contents out.old) (W.contents out.new)) };
}

/// Settles a written file, so that it outlasts a power loss, writes the line of the answer, and
/// returns status 0.
pub fn put_settled<S: Settling<F>, F: Write, W: Write>(
    settling: &S,
    file: &mut F,
    line: &str,
    out: &mut W,
) -> Result<u8, Fault<'static>>
    ensures puts { PutsSettled line.now result (stream (F.contents file.old) (F.contents file.new)) (stream (W.contents out.old) (W.contents out.new)) }
    ensures settled { IsSettledFirst result (S.settled file.new) (F.contents file.new) (stream (W.contents out.old) (W.contents out.new)) }
{
    if settling.settle(file).is_err() {
        return Err(Fault::Output);
    }
    match put(out, line.as_bytes()) {
        Ok(()) => Ok(0),
        Err(_) => Err(Fault::Output),
    }
}

/// Writes the answer where there is nothing to make, and returns status 1.
pub(crate) fn put_blocked_answer<W: Write>(text: &str, out: &mut W) -> Result<u8, Fault<'static>>
    ensures { PutsBlocked text.now result (stream (W.contents out.old) (W.contents out.new)) }
{
    match put(out, text.as_bytes()) {
        Ok(()) => Ok(1),
        Err(_) => Err(Fault::Output),
    }
}

/// The fault of a file that was not saved: `Exists` if its name was taken meanwhile, else `Output`.
fn saving_fault(error: &io::Error) -> Fault<'static>
    ensures { result ≡ saving_fault (error_kind error.now) }
{
    match error.kind() {
        ErrorKind::AlreadyExists => Fault::Exists,
        _ => Fault::Output,
    }
}

/// Saves a written file, or discards it after a fault.
fn save_or_discard<O: Outside>(
    put: Result<u8, Fault<'static>>,
    file: O::Made,
    outside: &mut O,
) -> Result<u8, Fault<'static>>
    requires settled { IfOk put (λ _. O.Made.settled file ≡ O.Made.contents file) }
    ensures { (deed : Deed) × Adds (O.deeds outside.old) (O.deeds outside.new) (deed ∷ []) × IsSaved (O.Made.contents file) put.entry deed result }
{
    let status = match put {
        Ok(status) => status,
        Err(fault) => {
            outside.discard(file);
            return Err(fault);
        }
    };
    match outside.save(file) {
        Ok(()) => Ok(status),
        Err(error) => Err(of_error(&error, saving_fault(&error))),
    }
}

/// Makes the file of a name, which replaces an existing one (`force`) or not, writes it whole, and
/// then writes the answer. After that the file is saved, or discarded after a fault.
pub fn make_file<M: Making, O: Outside, W: Write>(
    alloc: Global,
    made: &M,
    name: &str,
    force: bool,
    outside: &mut O,
    out: &mut W,
) -> Result<u8, Fault<'static>>
    ensures { DidMake O.deeds outside.old outside.new (λ deeds. MakesFile (M.puts made.now) force name.now deeds result (stream (W.contents out.old) (W.contents out.new))) }
{
    match outside.make(name, force) {
        Ok(file) => {
            let mut file = file;
            let put = made.put(alloc, &OnDisk, &mut file, out);
            save_or_discard(put, file, outside)
        }
        Err(error) => Err(of_error(&error, Fault::Output)),
    }
}
