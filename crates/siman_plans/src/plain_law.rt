//! The law of plain scripts.

ghost use Rattle.siman_print.specs.declared.spelling.Spelling.{Spelling};
ghost use Rattle.siman_plans.specs.PlainLaws.{IsScriptOfMoves};

/// A law of plans: the plain script of each that no refusal stops is a script of the exercise, the
/// stations and the moves of its lines, however its rows are spelled. The call does nothing at run time.
pub fn plain_scripts_are_scripts(text: &[u8])
    ensures { (spelling : Spelling) → IsScriptOfMoves spelling text.now }
{}
