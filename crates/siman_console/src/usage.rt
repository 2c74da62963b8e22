//! The ending of command lines without a task, and of one without words at a terminal.

ghost use Rattle.std.specs.Prelude.{ℕ, List, false, Option};
ghost use Rattle.siman_outside.specs.declared.fault.Fault.{Fault};
ghost use Rattle.siman_outside.specs.Outside.{Outcome, outcome_of, stream};
ghost use Rattle.siman_console.specs.Program.{EndsUsage};

use byte_files::put;
use siman_outside::{Ended, Ending, Fault, conclude, terminal_text};
use std::alloc::{AllocError, Global};
use std::io::Write;

/// Writes the text for words that give no task, and ends. Status 0: the help that they ask for, on
/// `out`; 2: a fault of usage on `errors`, or a failed write of the help (`output: write`); 3: lack
/// of memory (`memory`).
pub(crate) fn end_usage<W: Write, E: Write>(
    asks_help: bool,
    text: Result<String, AllocError>,
    out: &mut W,
    errors: &mut E,
) -> Ending<'static>
    ensures { EndsUsage asks_help (outcome_of result (stream (W.contents out.old) (W.contents out.new)) (stream (E.contents errors.old) (E.contents errors.new))) }
{
    let text = match text {
        Ok(text) => text,
        Err(AllocError) => return conclude(Err(Fault::Memory), errors),
    };
    if !asks_help {
        let ended = Ended {
            status: 2,
            written: put(errors, text.as_bytes()),
        };
        return Ending {
            ended,
            fault: None,
            begun: None,
            trouble: None,
            warning: None,
            further: None,
        };
    }
    match put(out, text.as_bytes()) {
        Ok(()) => conclude(Ok(0), errors),
        Err(_) => conclude(Err(Fault::Output), errors),
    }
}

/// Ends a program without words whose standard input is a terminal, on which nobody means to write
/// a script: as a fault of usage on `errors` with status 2, or for lack of memory (`memory`) with
/// status 3.
pub fn end_at_terminal<W: Write, E: Write>(alloc: Global, out: &mut W, errors: &mut E) -> Ended
    ensures { (fault : Option Fault) × (begun : Option (List ℕ)) × (let o : Outcome = record { ended = result; fault = fault; begun = begun; out = record { old = W.contents out.old; new = W.contents out.new }; errors = record { old = E.contents errors.old; new = E.contents errors.new } } in
        EndsUsage false o) }
{
    end_usage(false, terminal_text(alloc), out, errors).ended
}
