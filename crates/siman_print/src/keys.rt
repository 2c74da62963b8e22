//! Laws of the rows in JSON.

ghost use Rattle.std.specs.Prelude.{◌≡◌, ℕ, true};
ghost use Rattle.siman_pdus.specs.declared.pdu.Pdu.{Pdu};
ghost use Rattle.exercise_model.specs.Entry.{Entry};
ghost use Rattle.siman_print.specs.Keys.{has_no_key_twice};
ghost use Rattle.siman_print.specs.Head.{head_line};
ghost use Rattle.siman_print.specs.EntryLines.{entry_line};

/// Law of the rows in JSON: neither the head of a PDU nor the row of an entry has a key twice.
pub fn keys_come_once()
    ensures heads { (pdu : Pdu) → has_no_key_twice (head_line pdu) ≡ true }
    ensures entries { (exercise index : ℕ) (entry : Entry) → has_no_key_twice (entry_line exercise index entry) ≡ true }
{}
