//! Ranges of the numbers of a PDU.

ghost use Rattle.std.specs.Prelude.{◌≡◌, ◌<◌, ◌≤◌, ◌↔◌, ℕ, List, Some, length, slice_index};
ghost use Rattle.dis_records.specs.declared.header.TheConstants.{LARGEST_DATAGRAM};
ghost use Rattle.siman_pdus.specs.declared.pdu.Pdu.{Pdu};
ghost use Rattle.siman_pdus.specs.Ranges.{AreDatumsInRange, IsInRange};
ghost use Rattle.siman_pdus.specs.Reading.{reading};
ghost use Rattle.siman_pdus.specs.Spelling.{HasCarriedStatus, Spells, carried, pdu_size, pdu_text};

use crate::datums::Datums;
use crate::pdu::Pdu;

/// Every number of a PDU is in the range of its field: the types ensure it, and the contract states
/// it. The call does nothing at run time.
pub fn numbers_are_in_range(pdu: &Pdu)
    ensures { IsInRange pdu.now }
{}

/// Every number of the datums is in the range of its field. The call does nothing at run time.
pub fn datums_are_in_range(datums: &Datums)
    ensures { AreDatumsInRange datums.now }
{}

/// Laws of ranges: a PDU that is read from bytes is in its ranges. The canonical text of a PDU that
/// is in its ranges and has at most 8192 bytes consists of bytes; it spells that PDU, and reads as
/// it, exactly if its status is 0 or its version has one, and otherwise as that PDU with status 0.
pub fn ranges_and_texts_agree()
    ensures in_range { (pdu : Pdu) (b : List ℕ) → ((i : ℕ) → slice_index b i < 256) → reading b ≡ Some pdu → IsInRange pdu }
    ensures spelled { (pdu : Pdu) → IsInRange pdu → pdu_size pdu ≤ LARGEST_DATAGRAM → HasCarriedStatus pdu ↔ Spells pdu (pdu_text pdu) }
    ensures read { (pdu : Pdu) → IsInRange pdu → HasCarriedStatus pdu → pdu_size pdu ≤ LARGEST_DATAGRAM → reading (pdu_text pdu) ≡ Some pdu }
    ensures carried { (pdu : Pdu) → IsInRange pdu → pdu_size pdu ≤ LARGEST_DATAGRAM → reading (pdu_text pdu) ≡ Some (carried pdu) }
    ensures size { (pdu : Pdu) → IsInRange pdu → pdu_size pdu ≤ LARGEST_DATAGRAM → length (pdu_text pdu) ≡ pdu_size pdu }
    ensures bytes { (pdu : Pdu) → IsInRange pdu → pdu_size pdu ≤ LARGEST_DATAGRAM → (i : ℕ) → slice_index (pdu_text pdu) i < 256 }
{}
