//! Rows of the contradiction of a certificate's step.

ghost use Rattle.std.specs.Prelude.{◌≡◌, ◌++◌, OnOk, string_bytes};
ghost use Rattle.siman_print.specs.Spelled.{fields_spelled, line_spelled};
ghost use Rattle.exercise_conflict.specs.Lines.{number_fields, gap_fields, count_fields, place_fields, out_of_order_fields, step_fields, step_line, link_line, event_line, step_clash_line, IsOfStations, IsOfStepStations};

use crate::clash_line::put_clash_fields;
use crate::lines::entry_value;
use crate::{Clash, StepClash};
use exercise_model::ExerciseLog;
use siman_print::{Field, Spelling, Value, put_end, put_fields, put_named, put_opening};
use std::alloc::{AllocError, Global};

/// `steps=N records=N`.
fn put_numbers(
    text: &mut String,
    spelling: Spelling,
    steps: usize,
    records: usize,
) -> Result<(), AllocError>
    ensures { OnOk result (string_bytes text.new ≡ string_bytes text.old ++ fields_spelled spelling (number_fields steps records)) }
{
    let fields = [
        Field::Keyed("steps", Value::Number(steps as u64)),
        Field::Keyed("records", Value::Number(records as u64)),
    ];
    put_fields(text, spelling, &fields)
}

/// `missing=ENTRY twice=ENTRY`.
fn put_gaps(
    text: &mut String,
    spelling: Spelling,
    missing: Option<usize>,
    twice: Option<usize>,
) -> Result<(), AllocError>
    ensures { OnOk result (string_bytes text.new ≡ string_bytes text.old ++ fields_spelled spelling (gap_fields missing twice)) }
{
    let fields = [
        Field::Keyed("missing", entry_value(missing)),
        Field::Keyed("twice", entry_value(twice)),
    ];
    put_fields(text, spelling, &fields)
}

/// `clash - steps=N records=N missing=ENTRY twice=ENTRY`.
fn put_counts(
    text: &mut String,
    spelling: Spelling,
    steps: usize,
    records: usize,
    missing: Option<usize>,
    twice: Option<usize>,
) -> Result<(), AllocError>
    ensures { OnOk result (string_bytes text.new ≡ string_bytes text.old ++ line_spelled spelling (step_line (count_fields steps records missing twice))) }
{
    put_opening(text, spelling, "clash", &None)?;
    put_fields(text, spelling, &[Field::Bare("entry", Value::Missing)])?;
    put_numbers(text, spelling, steps, records)?;
    put_gaps(text, spelling, missing, twice)?;
    put_end(text, spelling)
}

/// `clash - place=N records=N`.
fn put_place(
    text: &mut String,
    spelling: Spelling,
    place: usize,
    records: usize,
) -> Result<(), AllocError>
    ensures { OnOk result (string_bytes text.new ≡ string_bytes text.old ++ line_spelled spelling (step_line (place_fields place records))) }
{
    let fields = [
        Field::Bare("entry", Value::Missing),
        Field::Keyed("place", Value::Number(place as u64)),
        Field::Keyed("records", Value::Number(records as u64)),
    ];
    put_named(text, spelling, "clash", &fields)
}

/// `clash - place=ENTRY taken=STEP next=ENTRY`.
fn put_out_of_order(
    text: &mut String,
    spelling: Spelling,
    place: usize,
    taken: Option<usize>,
    next: Option<usize>,
) -> Result<(), AllocError>
    ensures { OnOk result (string_bytes text.new ≡ string_bytes text.old ++ line_spelled spelling (step_line (out_of_order_fields place taken next))) }
{
    let fields = [
        Field::Bare("entry", Value::Missing),
        Field::Keyed("place", Value::Number(place as u64)),
        Field::Keyed("taken", entry_value(taken)),
        Field::Keyed("next", entry_value(next)),
    ];
    put_named(text, spelling, "clash", &fields)
}

/// `clash ENTRY link=N right=ENTRY`.
fn put_link(
    text: &mut String,
    spelling: Spelling,
    place: usize,
    link: Option<usize>,
    right: Option<usize>,
) -> Result<(), AllocError>
    ensures { OnOk result (string_bytes text.new ≡ string_bytes text.old ++ line_spelled spelling (link_line place link right)) }
{
    let fields = [
        Field::Bare("entry", Value::Number(place as u64)),
        Field::Keyed("link", entry_value(link)),
        Field::Keyed("right", entry_value(right)),
    ];
    put_named(text, spelling, "clash", &fields)
}

/// `step=STEP`, for a datagram that was sent too late or never.
fn put_step(
    text: &mut String,
    spelling: Spelling,
    clash: Clash,
    step: Option<usize>,
) -> Result<(), AllocError>
    ensures { OnOk result (string_bytes text.new ≡ string_bytes text.old ++ fields_spelled spelling (step_fields clash step)) }
{
    match clash {
        Clash::NeverSent { .. } => put_fields(
            text,
            spelling,
            &[Field::Keyed("step", entry_value(step))],
        ),
        _ => Ok(()),
    }
}

/// `clash ENTRY ..` for the event of a step.
fn put_event<L: ExerciseLog>(
    alloc: Global,
    text: &mut String,
    spelling: Spelling,
    log: &L,
    entry: usize,
    clash: Clash,
    step: Option<usize>,
) -> Result<(), AllocError>
    requires { IsOfStations (L.recording log.now) clash }
    ensures { OnOk result (string_bytes text.new ≡ string_bytes text.old ++ line_spelled spelling (event_line (L.recording log.now) entry clash step)) }
{
    put_opening(text, spelling, "clash", &None)?;
    put_fields(
        text,
        spelling,
        &[Field::Bare("entry", Value::Number(entry as u64))],
    )?;
    put_clash_fields(alloc, text, spelling, log, clash)?;
    put_step(text, spelling, clash, step)?;
    put_end(text, spelling)
}

/// The contradiction of a certificate's step: `clash ENTRY ..` with the judged entry, or `clash -
/// ..` if there is none.
pub fn put_step_clash<L: ExerciseLog>(
    alloc: Global,
    text: &mut String,
    spelling: Spelling,
    log: &L,
    clash: StepClash,
) -> Result<(), AllocError>
    requires { IsOfStepStations (L.recording log.now) clash }
    ensures { OnOk result (string_bytes text.new ≡ string_bytes text.old ++ line_spelled spelling (step_clash_line (L.recording log.now) clash)) }
{
    match clash {
        StepClash::CountDiffers {
            steps,
            records,
            missing,
            twice,
        } => put_counts(text, spelling, steps, records, missing, twice),
        StepClash::NoSuchRecord { place, records } => put_place(text, spelling, place, records),
        StepClash::OutOfOrder { place, taken, next } => {
            put_out_of_order(text, spelling, place, taken, next)
        }
        StepClash::BadLink { place, link, right } => {
            put_link(text, spelling, place, link, right)
        }
        StepClash::Event { entry, clash, step } => {
            put_event(alloc, text, spelling, log, entry, clash, step)
        }
    }
}
