//! Rows that are printed for a recording.

ghost use Rattle.std.specs.List.{flat_map};
ghost use Rattle.std.specs.Prelude.{Bool, IfOk, List, string_bytes, true, ℕ, ◌≡◌};
ghost use Rattle.exercise_conflict.specs.declared.clash.Clash.{Clash};
ghost use Rattle.exercise_model.specs.Conversion.{converted};
ghost use Rattle.exercise_model.specs.Entry.{Entry};
ghost use Rattle.exercise_model.specs.Recording.{PlainRecording};
ghost use Rattle.exercise_model.specs.declared.form.Form.TheVariants.{First};
ghost use Rattle.exercise_review.specs.Review.{GivesReview};
ghost use Rattle.exercise_review.specs.declared.filter.Filter.{Filter};
ghost use Rattle.exercise_review.specs.declared.told.OrderAt.{OrderAt};
ghost use Rattle.exercise_conflict.specs.Lines.{clash_line};
ghost use Rattle.siman_pdus.specs.declared.pdu.Pdu.{Pdu};
ghost use Rattle.siman_print.specs.EntryLines.{entry_line};
ghost use Rattle.siman_print.specs.Head.{head_line};
ghost use Rattle.exercise_log.specs.ReviewRows.Review.{filtered_lines, order_line, review_line, review_lines};
ghost use Rattle.siman_print.specs.Keys.{has_no_key_twice};
ghost use Rattle.siman_print.specs.Spelled.{line_json};

use exercise_conflict::conflict_keys_come_once;
use exercise_log::{
    conversion_keeps_lines, review_json_says_the_same, review_keys_come_once, review_text,
};
use exercise_model::{ExerciseLog, Recording};
use exercise_review::{Filter, Review};
use siman_print::{Spelling, keys_come_once};
use std::alloc::{AllocError, Global};

/// A review in JSON. It has a row for each row of the text, with equal fields, so that a program
/// that reads it misses nothing.
pub fn says_in_json_what_the_text_says<L: ExerciseLog>(
    alloc: Global,
    log: &L,
    explained: bool,
    filters: &[Filter],
    review: &Review,
) -> Result<String, AllocError>
    requires { GivesReview (L.recording log.now) review.now }
    ensures { IfOk result (λ text. string_bytes text ≡ flat_map line_json (review_lines (L.recording log.now) explained filters.now)) }
{
    review_json_says_the_same();
    review_text(alloc, Spelling::Json, log, explained, filters, review)
}

/// No row of a PDU, of an entry, of a review or of a clash has a key twice, so that a table made of
/// the JSON rows loses no field.
pub fn names_each_field_once()
    ensures pdus { (pdu : Pdu) → has_no_key_twice (head_line pdu) ≡ true }
    ensures entries { (exercise index : ℕ) (entry : Entry) → has_no_key_twice (entry_line exercise index entry) ≡ true }
    ensures reviews { (r : PlainRecording) (explained : Bool) (x : OrderAt) → (has_no_key_twice (review_line r explained) ≡ true) × (has_no_key_twice (order_line x) ≡ true) }
    ensures clashes { (r : PlainRecording) (entry : ℕ) (clash : Clash) → has_no_key_twice (clash_line r entry clash) ≡ true }
{
    keys_come_once();
    review_keys_come_once();
    conflict_keys_come_once();
}

/// With any filter the rows of a recording are those of its conversion.
pub fn says_the_same_of_the_archive(recording: &Recording)
    ensures { recording.now.setting.form ≡ First → (filters : List Filter) → filtered_lines (converted recording.now) filters ≡ filtered_lines recording.now filters }
{
    conversion_keeps_lines();
}
