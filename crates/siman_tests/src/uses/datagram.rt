//! The datagram of a PDU.

ghost use Rattle.std.specs.Prelude.{IfSome, List, Some, [], length, ℕ, ◌++◌, ◌≡◌};
ghost use Rattle.siman_pdus.specs.Reading.{reading};
ghost use Rattle.siman_pdus.specs.Spelling.{Spells, carried, pdu_text};
ghost use Rattle.siman_pdus.specs.declared.pdu.Pdu.{Pdu};

use siman_pdus::{
    Pdu, encoded_size, numbers_are_in_range, ranges_and_texts_agree, spellings_are_apart,
};

/// Length of the datagram of a PDU in bytes; `None` if it is too long. That many bytes are written
/// (`length`), and they are read as the PDU, with the status only if its version carries one
/// (`read`). Nothing else is lost.
pub fn length_that_is_read(pdu: &Pdu) -> Option<u16>
    ensures length { IfSome result (λ size. length (pdu_text pdu.now) ≡ size) }
    ensures read { IfSome result (λ size. reading (pdu_text pdu.now) ≡ Some (carried pdu.now)) }
{
    numbers_are_in_range(pdu);
    ranges_and_texts_agree();
    encoded_size(pdu)
}

/// A datagram says where its PDU ends: if a longer datagram begins with the bytes of a PDU, it adds
/// no byte and spells that PDU.
pub fn end_of_one_pdu(bytes: &[u8])
    ensures { (pdu other : Pdu) (more : List ℕ) → Spells pdu bytes.now → Spells other (bytes.now ++ more) → (more ≡ []) × (pdu ≡ other) }
{
    spellings_are_apart();
}
