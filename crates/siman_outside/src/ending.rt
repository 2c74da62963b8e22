//! The ending of a command, and what its explanation needs.

ghost use Rattle.std.specs.Prelude.{◌≡◌, None};
ghost use Rattle.siman_outside.specs.Ending.{Ends, fault_in};
ghost use Rattle.siman_outside.specs.Outside.{begun_by};

use crate::fault::{Ended, Fault, end};
use crate::notes::{Notes, Warning};
use crate::short_texts::ShortText;
use std::io::Write;

/// The ending of a command, and what its explanation needs.
#[derive(Clone, Copy)]
pub struct Ending<'a> {
    pub ended: Ended,
    /// The fault of the command, if it is one that is explained.
    pub fault: Option<Fault<'a>>,
    /// The name of the recording that the command began before its fault, which can be mended.
    pub begun: Option<&'a str>,
    /// The last failed call of a station's link, in words.
    pub trouble: Option<ShortText>,
    /// The warning to print, if any.
    pub warning: Option<Warning>,
    /// A warning to print behind it, if any.
    pub further: Option<Warning>,
}

/// Ends a command: writes the line of its fault, if it has one. The ending has no begun recording,
/// no trouble and no warning.
pub fn conclude<'a, E: Write>(answered: Result<u8, Fault<'a>>, errors: &mut E) -> Ending<'a>
    ensures ends { Ends answered.entry result.ended (E.contents errors.old) (E.contents errors.new) }
    ensures fault { result.fault ≡ fault_in answered.entry }
    ensures begun { begun_by result ≡ None }
{
    Ending {
        ended: end(answered, errors),
        fault: answered.err(),
        begun: None,
        trouble: None,
        warning: None,
        further: None,
    }
}

impl Ending<'_> {
    /// The ending with the warnings of `notes`; it keeps a first one of its own.
    pub fn and_notes(self, notes: Notes) -> Self
        ensures ended { result.ended ≡ self.entry.ended }
        ensures fault { result.fault ≡ self.entry.fault }
        ensures begun { begun_by result ≡ begun_by self.entry }
    {
        Ending {
            warning: self.warning.or(notes.warning),
            further: notes.further,
            ..self
        }
    }
}
