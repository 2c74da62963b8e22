//! The answer of `pdu` for a datagram.

ghost use Rattle.std.specs.Prelude.{◌≡◌, ℕ, ◌<◌, ◌≤◌, List, length, IfOk, string_bytes};
ghost use Rattle.hex.specs.Hex.{IsBytes, encode_lower};
ghost use Rattle.siman_pdus.specs.declared.pdu.Pdu.{Pdu};
ghost use Rattle.siman_pdus.specs.Spelling.{Spells};
ghost use Rattle.siman_print.specs.Spelled.{line_text};
ghost use Rattle.siman_file_commands.specs.Answer.{refusal_line, answer_to, said_of_hex, said_of_pdu};
ghost use Rattle.siman_file_commands.specs.Pdus.{result_of_said, result_of_line};

use siman_pdus::{PduFault, spellings_are_apart, view};
use siman_print::{Field, Spelling, Value, named_line, pdu_lines};
use std::alloc::{AllocError, Global};
use std::marker::Model;

/// The status of an answer that shows a PDU.
const SHOWN: u8 = 0;

/// The status of an answer that reports a refusal.
const REFUSED: u8 = 1;

/// The answer of a command: its exit status, and the text that is printed.
#[derive(Drop)]
pub struct Answer {
    status: u8,
    text: String,
}

impl Model for Answer {
    ghost use Rattle.std.specs.Prelude.{string_bytes};
    ghost use Rattle.siman_file_commands.specs.Answer.{Said};

    ghost Value = { Said };

    ghost view = { λ a. record { status = a.status; text = string_bytes a.text } };
}

/// The line of a refusal: its number, and its text with what was found or where.
fn refusal_line(alloc: Global, fault: PduFault) -> Result<String, AllocError>
    ensures { IfOk result (λ line. string_bytes line ≡ line_text (refusal_line fault)) }
{
    let words = format!(in alloc; "{fault}")?;
    let fields = [
        Field::Bare("number", Value::Number(fault.number() as u64)),
        Field::Bare("fault", Value::Phrase(&words)),
    ];
    named_line(alloc, "refused", &fields)
}

impl Answer {
    /// The answer for a datagram: the lines of the PDU that it spells, with status 0, or else the
    /// line of its refusal, with status 1.
    pub fn to(alloc: Global, datagram: &[u8]) -> Result<Answer, AllocError>
        ensures { IfOk result (λ answer. answer ≡ answer_to datagram.now) }
    {
        match view(datagram) {
            Ok(pdu) => Ok(Answer {
                status: SHOWN,
                text: pdu_lines(alloc, Spelling::Text, &pdu)?,
            }),
            Err(fault) => Ok(Answer {
                status: REFUSED,
                text: refusal_line(alloc, PduFault::from(fault))?,
            }),
        }
    }

    /// The exit status, 0 or 1.
    pub fn status(&self) -> u8
        ensures { result ≡ self.now.status }
    {
        self.status
    }

    pub fn text(&self) -> &str
        ensures { result.now ≡ self.now.text }
    {
        &self.text
    }
}

/// Laws of the answers: a datagram that spells a PDU is shown as that PDU, and any other is
/// refused; the answer for the hex text of a datagram is that for the datagram, both as a word and
/// as a line among others.
pub fn answers_follow_the_grammar()
    ensures spelled { (pdu : Pdu) (b : List ℕ) → Spells pdu b → answer_to b ≡ said_of_pdu pdu }
    ensures not_spelled { (b : List ℕ) → ((pdu : Pdu) → ¬ Spells pdu b) → (answer_to b).status ≡ 1 }
    ensures hex { (b : List ℕ) → IsBytes b → length b ≤ 32768 → said_of_hex (encode_lower b) ≡ answer_to b }
    ensures line { (number : ℕ) (b : List ℕ) → IsBytes b → 0 < length b → length b ≤ 32768 → result_of_line number (encode_lower b) ≡ result_of_said number (answer_to b) }
{
    spellings_are_apart();
}
