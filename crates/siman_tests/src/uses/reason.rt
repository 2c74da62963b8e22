//! Reasons why a datagram is other, and why a line of a script is refused.

ghost use Rattle.std.specs.Prelude.{[], IfSome, List, None, Option, Some, codes, decimal, ℕ, is_none, is_some, false, ◌++◌, ◌≡◌};
ghost use Rattle.std.specs.List.{All};
ghost use Rattle.std.specs.Result.{result_err};
ghost use Rattle.dis_records.specs.declared.header.HeaderFault.{HeaderFault};
ghost use Rattle.dis_records.specs.Texts.{header_fault_text};
ghost use Rattle.exercise_model.specs.Account.{others_of};
ghost use Rattle.exercise_model.specs.Meaning.{meaning};
ghost use Rattle.exercise_model.specs.Recording.{PlainRecording};
ghost use Rattle.siman_pdus.specs.declared.fault.PduFault.TheVariants.{BodyShort};
ghost use Rattle.siman_pdus.specs.declared.fault.ViewFault.TheVariants as views;
ghost use Rattle.siman_pdus.specs.Texts.{pdu_fault_text};
ghost use Rattle.siman_scripts.specs.Command.{command_of};
ghost use Rattle.siman_scripts.specs.Draft.{DraftData, wants_exercise};
ghost use Rattle.siman_scripts.specs.HoldsAfter.{IsUnknown};
ghost use Rattle.siman_scripts.specs.LineReason.{line_reason};
ghost use Rattle.siman_scripts.specs.Reason.{command_reason, draft_reason, reason_at};
ghost use Rattle.siman_scripts.specs.Script.{script_at};
ghost use Rattle.siman_scripts.specs.declared.why.Why.TheVariants as whys;
ghost use Rattle.siman_scripts.specs.Statement.{statement_of};
ghost use Rattle.siman_scripts.specs.Words.{IsPlacedAt, placed_words_of};
ghost use Rattle.siman_print.specs.Reason.{number_behind, reason_text, why_other};
ghost use Rattle.siman_print.specs.declared.reason.OtherReason.TheVariants.{Refused};
ghost use Rattle.exercise_log.specs.ReviewRows.Others.{other_counts};

use exercise_log::others_are_counted;
use siman_print::{others_have_reasons, reasons_are_refusals};
use siman_scripts::{
    a_line_has_a_reason_or_is_an_order, a_line_is_refused_for_a_reason,
    a_text_has_a_reason_or_is_a_script, reasons_hold_of_the_lines_before, words_have_their_columns,
};

/// A datagram that means nothing always has a reason.
pub fn is_always_given()
    ensures { (exercise : ℕ) (datagram : List ℕ) → is_some (meaning exercise datagram) ≡ false → is_none (why_other exercise datagram) ≡ false }
{
    others_have_reasons();
}

/// A refused datagram is named in a row as the decoder names it: one name and one number stand in
/// the decoder's fault, as `version 5` or `body-short at 20`, and in the row, as `version:5` or
/// `body-short:20`.
pub fn says_what_the_decoder_says()
    ensures header { (fault : HeaderFault) → (name : List ℕ) × (number : Option ℕ)
        × (header_fault_text fault ≡ name ++ number_behind (codes " ") number) × (reason_text (Refused (views.Header fault)) ≡ name ++ number_behind (codes ":") number) }
    ensures short { (offset : ℕ) → (name : List ℕ)
        × (pdu_fault_text (BodyShort offset) ≡ name ++ (codes " at " ++ decimal offset)) × (reason_text (Refused (views.BodyShort offset)) ≡ name ++ (codes ":" ++ decimal offset)) }
{
    reasons_are_refusals();
}

/// If a review has no row with such a reason, every datagram of the recording means something.
pub fn every_other_is_counted()
    ensures { (r : PlainRecording) → other_counts r ≡ [] → others_of r ≡ 0 }
{
    others_are_counted();
}

/// A text for which no reason is given is a script.
pub fn is_none_of_a_script(text: &[u8])
    requires { reason_at text.now ≡ None }
    ensures { result_err (script_at text.now) ≡ None }
{
    a_text_has_a_reason_or_is_a_script(text);
}

/// Each line that has no valid form has a reason, whatever lines are before it.
pub fn is_given_for_each_line(line: &[u8])
    requires { statement_of line.now ≡ None }
    ensures { is_none (line_reason line.now) ≡ false }
{
    a_line_is_refused_for_a_reason(line);
}

/// Each line that is typed for a station and is no command has a reason.
pub fn is_given_for_each_typed_line(line: &[u8])
    requires { command_of line.now ≡ None }
    ensures { is_none (command_reason line.now) ≡ false }
{
    a_line_has_a_reason_or_is_an_order(line);
}

/// The word that a reason points at is in its column.
pub fn points_at_its_word(line: &[u8])
    ensures { All (IsPlacedAt line.now) (placed_words_of line.now) }
{
    words_have_their_columns(line);
}

/// What a reason says of the lines before is so: none of them has the station that it calls unknown
/// (`unknown`), and one of them is an `exercise` line if it says that this is a second one
/// (`second`).
pub fn is_true_of_the_lines_before()
    ensures unknown { (d : DraftData) (line : List ℕ) (place site application : ℕ)
        → IfSome (statement_of line) (λ s. draft_reason d s ≡ Some (place, whys.UnknownStation site application) → IsUnknown d s site application) }
    ensures second { (d : DraftData) (line : List ℕ) (place : ℕ)
        → IfSome (statement_of line) (λ s. draft_reason d s ≡ Some (place, whys.SecondExercise) → wants_exercise d.part ≡ false) }
{
    reasons_hold_of_the_lines_before();
}
