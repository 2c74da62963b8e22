//! Why a script is refused, and the place of a move that cannot be made.

ghost use Rattle.std.specs.Prelude.{◌≡◌, ◌++◌, Ok, Some, IfOk, IfSome};
ghost use Rattle.siman_plans.specs.Source.{source_reason_at};
ghost use Rattle.siman_scripts.specs.ReasonText.{reason_text};
ghost use Rattle.siman_outside.specs.ShortTexts.{short_bytes};
ghost use Rattle.siman_scripts.specs.MoveLine.{line_of_move};
ghost use Rattle.siman_scripts.specs.Script.{ScriptData, script_at};
ghost use Rattle.siman_exercise_commands.specs.Explained.{text_read, hint_by, told_by, sends_before, IsPlacedAt, RefusesWith, Refuses, Stopped};

use crate::refusal::move_refusal;
use crate::world::sent_count;
use byte_files::put_placed;
use siman_outside::{Fault, MovePlace, ShortText, short_of};
use siman_plans::reason_of_source;
use siman_scripts::{
    LineReason, Script, ScriptFault, line_of_move, placed_reason, read_script, reason_of_script,
};
use siman_stations::{WorldFault, run_world};
use std::alloc::{AllocError, Global};

/// What is told behind a reason where a plan reads the text as a source.
fn hint_of(alloc: Global, text: &[u8]) -> Result<&'static str, AllocError>
    ensures { IfOk result (λ hint. hint.now ≡ hint_by (source_reason_at text.now)) }
{
    match reason_of_source(alloc, text)? {
        None => Ok("; siman plan reads it"),
        Some(_) => Ok(""),
    }
}

/// The words of a reason, and what is told behind it. `None` if they have more than 255 bytes, or if
/// memory runs out.
fn words_of(alloc: Global, reason: LineReason, hint: &str) -> Option<ShortText>
    ensures { IfSome result (λ short. short_bytes short ≡ reason_text reason ++ hint.now) }
{
    let mut words = Vec::new(alloc);
    put_placed(&mut words, placed_reason(reason)).ok()?;
    words.extend_from_slice(hint.as_bytes()).ok()?;
    short_of(&words)
}

/// Fault of a text that is no script, with this reason and hint; `Memory` if memory runs out, or if
/// their words have more than 255 bytes, which none have.
fn refused_for(
    alloc: Global,
    fault: ScriptFault,
    reason: Option<LineReason>,
    hint: &str,
) -> Fault<'static>
    ensures { RefusesWith fault (told_by hint.now reason) result }
{
    let why = match reason {
        Some(reason) => match words_of(alloc, reason, hint) {
            Some(why) => Some(why),
            None => return Fault::Memory,
        },
        None => None,
    };
    match fault {
        ScriptFault::BadLine(line) => Fault::BadLine(line, why),
        ScriptFault::UnknownStation(line) => Fault::UnknownStation(line, why),
        ScriptFault::Memory => Fault::Memory,
    }
}

/// Fault of a text that is no script, with its first reason, and a hint where a plan reads it.
pub(crate) fn refused(alloc: Global, text: &[u8], fault: ScriptFault) -> Fault<'static>
    ensures { Refuses (text_read text.now) fault result }
{
    match reason_of_script(alloc, text) {
        Ok(reason) => match hint_of(alloc, text) {
            Ok(hint) => refused_for(alloc, fault, reason, hint),
            Err(_) => Fault::Memory,
        },
        Err(_) => Fault::Memory,
    }
}

/// Number of datagrams that the moves before this one send.
fn sends_before(alloc: Global, text: &[u8], number: usize) -> Option<usize>
    ensures { IfSome result (λ n. (s : ScriptData) × (script_at text.now ≡ Ok s) × (n ≡ sends_before s number)) }
{
    let Script {
        exercise,
        stations,
        moves,
    } = read_script(alloc, text).ok()?;
    let mut moves = moves;
    moves.truncate(number);
    let recording = run_world(alloc, exercise, stations, moves).ok()?;
    Some(sent_count(recording.entries()))
}

/// Place of a move in its script, given its number, from 0. `None` if memory runs out.
fn place_of(alloc: Global, text: &[u8], number: usize) -> Option<MovePlace>
    ensures { IfSome result (IsPlacedAt (text_read text.now) number) }
{
    let line = line_of_move(alloc, text, number).ok()??;
    let sends = sends_before(alloc, text, number)?;
    Some(MovePlace {
        line,
        sends: Some(sends),
    })
}

/// Fault of a world that does not run, with the place of the move that cannot be made.
pub(crate) fn stopped(alloc: Global, text: &[u8], fault: WorldFault) -> Fault<'static>
    ensures { Stopped (text_read text.now) fault result }
{
    match fault {
        WorldFault::Stations => Fault::WorldStations,
        WorldFault::Move(number, fault) => match place_of(alloc, text, number) {
            Some(place) => Fault::Move(number, move_refusal(fault), Some(place)),
            None => Fault::Memory,
        },
        WorldFault::Memory => Fault::Memory,
    }
}
