//! Rows of a log.

ghost use Rattle.std.specs.List.{flat_map};
ghost use Rattle.std.specs.Prelude.{[], List, length, slice_get, Some, true, ℕ, ◌≡◌, ◌≤◌};
ghost use Rattle.dis_records.specs.Datum.{Datum};
ghost use Rattle.dis_records.specs.declared.datum.FixedDatum.{FixedDatum};
ghost use Rattle.dis_records.specs.declared.address.SiteApplication.{SiteApplication};
ghost use Rattle.exercise_model.specs.Entry.{Entry};
ghost use Rattle.exercise_model.specs.Recording.{PlainRecording};
ghost use Rattle.exercise_review.specs.declared.filter.Filter.{Filter};
ghost use Rattle.exercise_log.specs.Growing.{goes_on};
ghost use Rattle.exercise_log.specs.Log.{entry_changes, log_lines, log_text};
ghost use Rattle.exercise_log.specs.Records.{fixed_row, id_row, variable_row};
ghost use Rattle.siman_print.specs.Keys.{has_no_key_twice};
ghost use Rattle.siman_print.specs.Line.{Line};
ghost use Rattle.siman_print.specs.Spelled.{line_json, line_text};
ghost use Rattle.siman_print.specs.declared.spelling.Spelling.TheVariants.{Json, Text};

use exercise_log::{filters_take_away, json_says_the_same, log_keys_come_once, rows_stay};

/// A filter adds no row to a log.
pub fn grows_by_no_filter()
    ensures { (r : PlainRecording) (filters : List Filter) → length (log_lines r filters) ≤ length (log_lines r []) }
{
    filters_take_away();
}

/// A log in JSON has exactly the rows of the log as text.
pub fn is_read_by_programs()
    ensures { (r : PlainRecording) (filters : List Filter) → (lines : List Line)
        × (log_text Text r filters ≡ flat_map line_text lines) × (log_text Json r filters ≡ flat_map line_json lines) }
{
    json_says_the_same();
}

/// No row of a datum, or of an identifier in a Data Query, has a key twice, so that a table made of
/// the JSON rows loses no field.
pub fn names_each_datum_once()
    ensures fixed { (entry : ℕ) (datum : FixedDatum) → has_no_key_twice (fixed_row entry datum) ≡ true }
    ensures variable { (entry : ℕ) (datum : Datum) → has_no_key_twice (variable_row entry datum) ≡ true }
    ensures asked { (name : List ℕ) (entry id : ℕ) → has_no_key_twice (id_row name entry id) ≡ true }
{
    log_keys_come_once();
}

/// What an entry changed is said when it comes, and no later entry takes it back.
pub fn says_each_change_at_once()
    ensures { (r : PlainRecording) (more : List Entry) (i : ℕ) (address : SiteApplication) (e : Entry) → slice_get r.entries i ≡ Some e
        → entry_changes (goes_on r more) i address e ≡ entry_changes r i address e }
{
    rows_stay();
}
