//! The first row of a recording: its counts and its form.

ghost use Rattle.std.specs.Prelude.{◌≡◌, IfOk, string_bytes};
ghost use Rattle.siman_print.specs.declared.spelling.Spelling.TheVariants.{Text};
ghost use Rattle.siman_print.specs.Spelled.{line_spelled};
ghost use Rattle.siman_print.specs.EntryLines.{form_fields, counts_line};

use crate::{RowFields, Spelling, TextLine, Word, keyed, put_opened_row};
use exercise_model::{ExerciseLog, Form};
use std::alloc::{AllocError, Global};

/// The form of a recording: nothing for the first format, `form=closed` or `form=open` for the
/// second.
#[derive(Clone, Copy)]
pub struct FormField(pub Form);

impl RowFields for FormField {
    ghost fields = { λ f. form_fields f.0 };

    ghost most = { 40 };

    fn add_fields(&self, line: &mut TextLine, spelling: Spelling) {
        match self.0 {
            Form::First => (),
            Form::Closed => keyed!("form", Word::of("closed")).add_fields(line, spelling),
            Form::Open => keyed!("form", Word::of("open")).add_fields(line, spelling),
        }
    }
}

/// The first row: the exercise, the number of stations and entries, and the form.
pub fn counts_line<L: ExerciseLog>(alloc: Global, log: &L) -> Result<String, AllocError>
    ensures { IfOk result (λ line. string_bytes line ≡ line_spelled Text (counts_line (L.recording log.now))) }
{
    let exercise = keyed!("exercise", log.exercise());
    let fields = (
        keyed!("stations", log.station_count()),
        keyed!("records", log.entry_count()),
        FormField(log.form()),
    );
    let mut text = String::new(alloc);
    let mut line = TextLine::new();
    put_opened_row(
        &mut text,
        &mut line,
        Spelling::Text,
        "recording",
        &exercise,
        &fields,
    )?;
    Ok(text)
}
