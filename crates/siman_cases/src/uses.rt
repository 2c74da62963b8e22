//! What a reader can conclude from the laws of commands, as `uses` of `siman_tests` has it of the
//! other laws.

ghost use Rattle.std.specs.Prelude.{List, length, ℕ, ◌≡◌, ◌≤◌};
ghost use Rattle.exercise_check.specs.declared.certificate.Step.{Step};
ghost use Rattle.exercise_model.specs.Conversion.{converted};
ghost use Rattle.exercise_model.specs.declared.form.Form.TheVariants.{First};
ghost use Rattle.hex.specs.Hex.{IsBytes, encode_lower};
ghost use Rattle.siman_file_commands.specs.Answer.{said_of_hex, said_of_pdu};
ghost use Rattle.siman_file_commands.specs.Check.{IsDue};
ghost use Rattle.siman_pdus.specs.Spelling.{Spells};
ghost use Rattle.siman_pdus.specs.declared.pdu.Pdu.{Pdu};
ghost use Rattle.exercise_check.specs.Report.{report_text};

use exercise_model::Recording;
use siman_console::conversion_keeps_answers;
use siman_file_commands::answers_follow_the_grammar;

/// Commands answer alike for a recording and its conversion: the report is equal (`report`), and so
/// is the required output of `check` with any certificate (`checked`).
pub fn say_the_same_of_the_archive(recording: &Recording)
    ensures report { report_text (converted recording.now) ≡ report_text recording.now }
    ensures checked { recording.now.setting.form ≡ First → (steps : List Step) (text : List ℕ) → IsDue recording.now steps text
        → IsDue (converted recording.now) steps text }
{
    conversion_keeps_answers();
}

/// A datagram may be given in hex digits: if it spells a PDU, the answer is the one for that PDU.
pub fn take_hex_digits()
    ensures { (pdu : Pdu) (b : List ℕ) → Spells pdu b → IsBytes b → length b ≤ 32768 → said_of_hex (encode_lower b) ≡ said_of_pdu pdu }
{
    answers_follow_the_grammar();
}
