//! Opening files to read them, while another file is to be made.

ghost use Rattle.std.specs.Prelude.{◌≡◌};
ghost use Rattle.std.specs.IoError.{error_kind};
ghost use Rattle.siman_outside.specs.Outside.{Did, DidMake};
ghost use Rattle.siman_outside.specs.Opening.{IsOpenFault, OpensInput, OpensInputs, Spares, IfFree, seen_as, both};

use crate::fault::Fault;
use crate::outside::Outside;
use crate::unopened::reason_of;
use std::io;
use std::io::ErrorKind;

/// The fault of a file that could not be opened: `Memory` for lack of memory, else `File` with its
/// name and the reason.
pub fn open_fault<'a>(name: &'a str, error: &io::Error) -> Fault<'a>
    ensures { IsOpenFault name.now (error_kind error.now) result }
{
    if error.kind() == ErrorKind::OutOfMemory {
        return Fault::Memory;
    }
    Fault::File(name, reason_of(error.kind()))
}

/// Opens the file of the first name. `SameAs` if it is the file to be made under the second name.
pub fn open_input<'a, O: Outside>(
    names: (&'a str, &'a str),
    outside: &mut O,
) -> Result<O::Opened, Fault<'a>>
    ensures did { Did O.deeds O.holds outside.old outside.new (λ deeds. OpensInput names.entry.0.now names.entry.1.now deeds (seen_as O.bytes result)) }
    ensures stays { O.holds outside.new ≡ O.holds outside.old }
{
    let (name, made) = names;
    match outside.open(name) {
        Ok(file) => {
            if outside.is_opened(&file, made) {
                return Err(Fault::SameAs(name));
            }
            Ok(file)
        }
        Err(error) => Err(open_fault(name, &error)),
    }
}

/// Opens two files in the order of their names. `SameAs` if either is the file to be made.
pub fn open_inputs<'a, O: Outside>(
    names: (&'a str, &'a str),
    made: &'a str,
    outside: &mut O,
) -> Result<(O::Opened, O::Opened), Fault<'a>>
    ensures { Did O.deeds O.holds outside.old outside.new (λ deeds. OpensInputs names.entry.0.now names.entry.1.now made.now deeds (seen_as (both O.bytes) result)) }
{
    let (name, other) = names;
    let first = open_input((name, made), outside)?;
    let second = open_input((other, made), outside)?;
    Ok((first, second))
}

/// Reports `Exists` if the name of the file to be made has a file to replace, unless `force` is
/// set.
fn spare<O: Outside>(name: &str, force: bool, outside: &mut O) -> Result<(), Fault<'static>>
    ensures { DidMake O.deeds outside.old outside.new (λ deeds. Spares force name.now deeds result) }
{
    if force {
        return Ok(());
    }
    if outside.is_filled(name) {
        return Err(Fault::Exists);
    }
    Ok(())
}

/// What was opened; `Exists` if the name of the file to be made has a file to replace, unless
/// `force` is set.
pub fn if_free<'a, B: Drop, O: Outside>(
    opened: Result<B, Fault<'a>>,
    made: &str,
    force: bool,
    outside: &mut O,
) -> Result<B, Fault<'a>>
    ensures { DidMake O.deeds outside.old outside.new (λ deeds. IfFree force made.now opened.entry deeds result) }
{
    match opened {
        Ok(opened) => match spare(made, force, outside) {
            Ok(()) => Ok(opened),
            Err(fault) => Err(fault),
        },
        Err(fault) => Err(fault),
    }
}
