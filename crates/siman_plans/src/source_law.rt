//! Laws of sources.

ghost use Rattle.siman_plans.specs.SourceLaws.{Explains, IsSourceToo};

/// A law of texts: each has a first reason or is a source, and the reason is of its bad line. The
/// call does nothing at run time.
pub fn a_text_has_a_reason_or_is_a_source(text: &[u8])
    ensures { Explains text.now }
{}

/// A law of scripts: each is a source with the same exercise, stations and moves, and no labels. The
/// call does nothing at run time.
pub fn a_script_is_a_source(text: &[u8])
    ensures { IsSourceToo text.now }
{}
