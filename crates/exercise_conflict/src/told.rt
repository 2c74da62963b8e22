//! All rows of a recording that no run explains, and of a refused certificate.

ghost use Rattle.std.specs.Prelude.{◌≡◌, ◌<◌, ◌++◌, length, map, OnOk, All, string_bytes};
ghost use Rattle.std.specs.List.{flat_map};
ghost use Rattle.std.specs.Option.{option_to_list};
ghost use Rattle.siman_print.specs.Spelled.{line_spelled, lines_spelled};
ghost use Rattle.exercise_check.specs.Report.{no_line, yes_line};
ghost use Rattle.exercise_conflict.specs.declared.way.Also.{Also as AlsoData};
ghost use Rattle.exercise_conflict.specs.declared.lacks.MissingSend.{MissingSend as LackData};
ghost use Rattle.exercise_conflict.specs.Lines.{final_lines, way_lines, cycle_line, missing_line, step_clash_line, IsOfStepStations, IsOfWayStations};
ghost use Rattle.exercise_conflict.specs.Told.{further_line, conflict_lines, refusal_lines, AreOfStations};

use crate::blocked::{CAUSES, put_blocked, put_rules};
use crate::clash_line::put_clash;
use crate::lines::{put_also, put_cycle, put_fault, put_final, put_missing, put_repair, put_wait};
use crate::rule::put_rule;
use crate::step_clash_line::put_step_clash;
use crate::{Also, Conflict, MissingSend, Refusal, StepClash, Way};
use exercise_model::{Cause, ExerciseLog};
use siman_print::{Field, Spelling, Value, put_named};
use std::alloc::{AllocError, Global};

/// `final ENTRY`, if no further entry can resolve the contradiction of an entry.
fn put_if_final(
    text: &mut String,
    spelling: Spelling,
    entry: usize,
    is_final: bool,
) -> Result<(), AllocError>
    ensures { OnOk result (string_bytes text.new ≡ string_bytes text.old ++ lines_spelled spelling (final_lines entry is_final)) }
{
    if is_final {
        put_final(text, spelling, entry)
    } else {
        Ok(())
    }
}

/// The wait of a blocked station, or the contradiction of its entry.
fn put_way<L: ExerciseLog>(
    alloc: Global,
    text: &mut String,
    spelling: Spelling,
    log: &L,
    way: Way,
) -> Result<(), AllocError>
    requires { IsOfWayStations (L.recording log.now) way }
    ensures { OnOk result (string_bytes text.new ≡ string_bytes text.old ++ lines_spelled spelling (way_lines (L.recording log.now) way)) }
{
    match way {
        Way::Waits(wait) => put_wait(text, spelling, log, wait),
        Way::Clash {
            entry,
            clash,
            is_final,
        } => {
            put_clash(alloc, text, spelling, log, entry, clash)?;
            put_if_final(text, spelling, entry, is_final)
        }
    }
}

fn put_ways<L: ExerciseLog>(
    alloc: Global,
    text: &mut String,
    spelling: Spelling,
    log: &L,
    ways: &[Way],
) -> Result<(), AllocError>
    requires { All (IsOfWayStations (L.recording log.now)) ways.now }
    ensures { OnOk result (string_bytes text.new ≡ string_bytes text.old ++ lines_spelled spelling (flat_map (way_lines (L.recording log.now)) ways.now)) }
{
    for way in ways {
        put_way(alloc, text, spelling, log, *way)?;
    }
    Ok(())
}

fn put_cycles<L: ExerciseLog>(
    alloc: Global,
    text: &mut String,
    spelling: Spelling,
    log: &L,
    cycles: &[Vec<usize>],
) -> Result<(), AllocError>
    requires { All (λ v. All (λ s. s < length (L.recording log.now).setting.stations) v.items) cycles.now }
    ensures { OnOk result (string_bytes text.new ≡ string_bytes text.old ++ lines_spelled spelling (map (λ v. cycle_line (L.recording log.now) v.items) cycles.now)) }
{
    for cycle in cycles {
        put_cycle(alloc, text, spelling, log, cycle)?;
    }
    Ok(())
}

/// The further cause against an entry within its station's log.
fn put_further<L: ExerciseLog>(
    alloc: Global,
    text: &mut String,
    spelling: Spelling,
    log: &L,
    also: Also,
) -> Result<(), AllocError>
    requires { also.entry < length (L.recording log.now).entries }
    ensures { OnOk result (string_bytes text.new ≡ string_bytes text.old ++ line_spelled spelling (further_line (L.recording log.now) also)) }
{
    let station = log.entry(also.entry).station();
    put_also(alloc, text, spelling, log, also.entry, station, also.cause)
}

fn put_further_causes<L: ExerciseLog>(
    alloc: Global,
    text: &mut String,
    spelling: Spelling,
    log: &L,
    all: &[Also],
) -> Result<(), AllocError>
    requires { All (λ (a : AlsoData). a.entry < length (L.recording log.now).entries) all.now }
    ensures { OnOk result (string_bytes text.new ≡ string_bytes text.old ++ lines_spelled spelling (map (further_line (L.recording log.now)) all.now)) }
{
    for also in all {
        put_further(alloc, text, spelling, log, *also)?;
    }
    Ok(())
}

fn put_missing_sends<L: ExerciseLog>(
    text: &mut String,
    spelling: Spelling,
    log: &L,
    lacks: &[MissingSend],
) -> Result<(), AllocError>
    requires { All (λ (l : LackData). l.missing.sender < length (L.recording log.now).setting.stations) lacks.now }
    ensures { OnOk result (string_bytes text.new ≡ string_bytes text.old ++ lines_spelled spelling (map (missing_line (L.recording log.now)) lacks.now)) }
{
    for lack in lacks {
        put_missing(text, spelling, log, *lack)?;
    }
    Ok(())
}

/// All rows of a recording that no run explains: the blocked list, the rules that it breaks, the
/// wait or contradiction of each blocked station, the cycles, the further causes, the missing
/// sends, and whether adding these is enough.
pub fn put_conflict<L: ExerciseLog>(
    alloc: Global,
    text: &mut String,
    spelling: Spelling,
    log: &L,
    conflict: &Conflict,
) -> Result<(), AllocError>
    requires { AreOfStations (L.recording log.now) conflict.now }
    ensures { OnOk result (string_bytes text.new ≡ string_bytes text.old ++ lines_spelled spelling (conflict_lines (L.recording log.now) conflict.now)) }
{
    put_blocked(alloc, text, spelling, log, &conflict.blocks)?;
    put_rules(text, spelling, &conflict.blocks, &CAUSES)?;
    put_ways(alloc, text, spelling, log, &conflict.ways)?;
    put_cycles(alloc, text, spelling, log, &conflict.cycles)?;
    put_further_causes(alloc, text, spelling, log, &conflict.also)?;
    put_missing_sends(text, spelling, log, &conflict.lacks)?;
    put_repair(text, spelling, conflict.repair)?;
    Ok(())
}

/// `yes records=N others=N`.
pub fn put_yes(
    text: &mut String,
    spelling: Spelling,
    records: usize,
    others: u32,
) -> Result<(), AllocError>
    ensures { OnOk result (string_bytes text.new ≡ string_bytes text.old ++ line_spelled spelling (yes_line records others)) }
{
    let fields = [
        Field::Keyed("records", Value::Number(records as u64)),
        Field::Keyed("others", Value::Number(u64::from(others))),
    ];
    put_named(text, spelling, "yes", &fields)
}

/// `no step=N cause=N NAME`.
fn put_no(
    alloc: Global,
    text: &mut String,
    spelling: Spelling,
    step: usize,
    cause: Cause,
) -> Result<(), AllocError>
    ensures { OnOk result (string_bytes text.new ≡ string_bytes text.old ++ line_spelled spelling (no_line step cause)) }
{
    let name = format!(in alloc; "{cause}")?;
    let fields = [
        Field::Keyed("step", Value::Number(step as u64)),
        Field::Keyed("cause", Value::Number(u64::from(cause.number()))),
        Field::Bare("name", Value::Word(&name)),
    ];
    put_named(text, spelling, "no", &fields)
}

/// The contradiction of the first bad step, if there is one.
fn put_step_clash_if<L: ExerciseLog>(
    alloc: Global,
    text: &mut String,
    spelling: Spelling,
    log: &L,
    clash: Option<StepClash>,
) -> Result<(), AllocError>
    requires { All (IsOfStepStations (L.recording log.now)) (option_to_list clash) }
    ensures { OnOk result (string_bytes text.new ≡ string_bytes text.old ++ lines_spelled spelling (map (step_clash_line (L.recording log.now)) (option_to_list clash))) }
{
    match clash {
        Some(clash) => put_step_clash(alloc, text, spelling, log, clash),
        None => Ok(()),
    }
}

/// All rows of a refused certificate: its first bad step, the rule that this breaks, its
/// contradiction, and what is at fault.
#[tactic(auto, unfolding(crate::specs::Told::refusal_lines))]
pub fn put_refusal<L: ExerciseLog>(
    alloc: Global,
    text: &mut String,
    spelling: Spelling,
    log: &L,
    refusal: Refusal,
) -> Result<(), AllocError>
    requires { All (IsOfStepStations (L.recording log.now)) (option_to_list refusal.clash) }
    ensures { OnOk result (string_bytes text.new ≡ string_bytes text.old ++ lines_spelled spelling (refusal_lines (L.recording log.now) refusal)) }
{
    put_no(alloc, text, spelling, refusal.step, refusal.cause)?;
    put_rule(text, spelling, refusal.cause)?;
    put_step_clash_if(alloc, text, spelling, log, refusal.clash)?;
    put_fault(text, spelling, refusal.fault)
}
