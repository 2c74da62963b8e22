//! Why a text is no source: its first line that cannot be read, the column, and the reason.

ghost use Rattle.std.specs.Prelude.{◌≡◌};
ghost use Rattle.siman_plans.specs.declared.source_fault.SourceFault.TheVariants.{Memory};
ghost use Rattle.siman_plans.specs.declared.source_fault.LineFault.TheVariants as lines;
ghost use Rattle.siman_plans.specs.declared.source_fault.TextFault.TheVariants as texts;
ghost use Rattle.siman_plans.specs.SourceFault.{fault_at};

use siman_scripts::Why;
use std::alloc::{AllocError, AllocFailed};
use thiserror::Error;

/// Why a text is no source.
#[derive(Clone, Copy, Debug, PartialEq, Eq, Error)]
pub enum SourceFault {
    /// The first line, from 1, that cannot be read; the line after the last if the exercise or a
    /// station is missing; 0 if the text has more than 1,048,576 bytes.
    #[error("bad-line at line {0}")]
    BadLine(usize),
    /// Memory ran out.
    #[error("memory")]
    Memory,
}

impl From<AllocError> for SourceFault {
    ghost from_gives = { λ _ e. e ≡ Memory };

    fn from(_e: AllocError) -> SourceFault {
        SourceFault::Memory
    }
}

/// Why a line of a source cannot be read, or cannot be done by a plan.
#[derive(Clone, Copy)]
pub enum SourceWhy {
    /// The line is refused as a line of a script is, or the whole text.
    Script(Why),
    /// Its bytes are no UTF-8.
    NotUtf8,
    /// Outside of a comment there is a byte that is no printable ASCII.
    NotPrintable,
    /// A number, a label or `answer(LABEL)` is expected.
    WhatExpected,
    /// A station or `again` is expected.
    PlaceExpected,
    /// There is a word too many.
    ExtraWord,
    /// `first=F`, `tries=T` or `wait=W` is expected.
    RuleExpected,
    /// The rule is given twice.
    RuleTwice,
    /// The word behind `as` is no label.
    NotLabel,
    /// A line before gives the same label.
    LabelTwice,
    /// No line before gives this label.
    UnknownLabel,
    /// The line with this label sent no datagram.
    LabelSendsNothing,
    /// No delivery of the datagram was answered so far.
    NoAnswer,
    /// The datagram was never delivered so far.
    NeverBrought,
    /// The datagram was not sent so far.
    NotSent,
}

/// The line of a source that cannot be read or done, the column, and the reason.
#[derive(Clone, Copy)]
pub struct SourceReason {
    /// The line, from 1; the line after the last if the text ends too early, 0 if it is too long.
    pub line: usize,
    /// The column, in bytes from 1; 0 if the text ends too early or is too long.
    pub column: usize,
    pub why: SourceWhy,
}

/// Why a line of a source is not taken.
#[derive(Clone, Copy)]
pub(crate) enum LineFault {
    /// It cannot be read: the column, and the reason.
    Refused(usize, SourceWhy),
    /// Memory ran out.
    Memory,
}

impl From<AllocError> for LineFault {
    ghost from_gives = { λ _ e. e ≡ lines.Memory };

    fn from(_e: AllocError) -> LineFault {
        LineFault::Memory
    }
}

impl<T: Drop> From<AllocFailed<T>> for LineFault {
    ghost from_gives = { λ _ e. e ≡ lines.Memory };

    fn from(_e: AllocFailed<T>) -> LineFault {
        LineFault::Memory
    }
}

/// Why a text is no source, with the reason.
#[derive(Clone, Copy)]
pub(crate) enum TextFault {
    /// Its first line that cannot be read.
    Refused(SourceReason),
    /// Memory ran out.
    Memory,
}

impl From<AllocError> for TextFault {
    ghost from_gives = { λ _ e. e ≡ texts.Memory };

    fn from(_e: AllocError) -> TextFault {
        TextFault::Memory
    }
}

/// The fault of a line of this number.
pub(crate) fn fault_at(line: usize, fault: LineFault) -> TextFault
    ensures { result ≡ fault_at line fault }
{
    match fault {
        LineFault::Refused(column, why) => TextFault::Refused(SourceReason { line, column, why }),
        LineFault::Memory => TextFault::Memory,
    }
}
