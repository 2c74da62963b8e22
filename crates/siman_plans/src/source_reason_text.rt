//! The text of a reason of a source, in pieces.

ghost use Rattle.std.specs.Prelude.{◌≡◌, Some};
ghost use Rattle.byte_files.specs.Pieces.{pieces_text, placed_text};
ghost use Rattle.siman_plans.specs.SourceReasonText.{plain_why_text, source_why_text, source_reason_text};

use crate::source_fault::{SourceReason, SourceWhy};
use byte_files::{PlacedText, TextPieces, words_alone};
use siman_scripts::{place_pieces, why_pieces};
use std::fmt;

/// Fixed words for a reason that scripts do not have; empty for one that they have.
fn plain_why_text(why: SourceWhy) -> &'static str
    ensures { result.now ≡ plain_why_text why }
{
    match why {
        SourceWhy::NotUtf8 => "bytes that are not UTF-8: save the file as UTF-8",
        SourceWhy::NotPrintable => {
            "a character that is not printable ASCII: only a comment, which begins with # behind a blank, may have any"
        }
        SourceWhy::WhatExpected => {
            "a datagram is expected: its number, a label of a line before, or answer(LABEL)"
        }
        SourceWhy::PlaceExpected => {
            "a station address S:A, each from 1 to 65534, or again is expected"
        }
        SourceWhy::ExtraWord => {
            "a word too many: the line is deliver WHAT S:A, deliver WHAT again or lose WHAT"
        }
        SourceWhy::RuleExpected => "first=F, tries=T or wait=W is expected",
        SourceWhy::RuleTwice => "a rule that the line gives twice: give it once",
        SourceWhy::NotLabel => {
            "a label is expected: a letter, then letters, digits, - or _, at most 64 in all, and not answer, again, as or all"
        }
        SourceWhy::LabelTwice => "a line before has this label: choose another",
        SourceWhy::UnknownLabel => "no line before has this label",
        SourceWhy::LabelSendsNothing => "the line with this label sent no datagram",
        SourceWhy::NoAnswer => "no delivery of this datagram was answered so far",
        SourceWhy::NeverBrought => {
            "this datagram was delivered to no station so far: say to which"
        }
        SourceWhy::NotSent => "no datagram of this number was sent so far",
        SourceWhy::Script(_) => "",
    }
}

/// Text of a reason.
fn why_text(why: SourceWhy) -> TextPieces<'static>
    ensures { pieces_text result ≡ source_why_text why }
{
    match why {
        SourceWhy::Script(why) => why_pieces(why),
        _ => words_alone(plain_why_text(why)),
    }
}

/// Place and text of a reason.
pub fn placed_source_reason(reason: SourceReason) -> PlacedText<'static>
    ensures { placed_text result ≡ source_reason_text reason }
{
    PlacedText {
        place: place_pieces(reason.line, reason.column),
        text: why_text(reason.why),
    }
}

/// Writes the line, the column and the reason, without a line end; only the reason if it is about
/// the whole text.
impl fmt::Display for SourceReason {
    ghost output = { λ reason. Some (source_reason_text reason) };

    fn fmt<W: fmt::Write>(&self, f: &mut fmt::Formatter<W>) -> fmt::Result {
        let place = place_pieces(self.line, self.column);
        let why = why_text(self.why);
        write!(f, "{place}{why}")
    }
}
