//! Scripts: a whole exercise from one page of text.

ghost use Rattle.std.specs.Prelude.{◌≡◌, ◌≤◌, length, IfOk, MatchResult, Ok};
ghost use Rattle.siman_scripts.specs.declared.script.TheConstants.{LARGEST_SCRIPT};
ghost use Rattle.byte_files.specs.Text.{lines_of};
ghost use Rattle.siman_scripts.specs.Draft.{blank, Leaves};
ghost use Rattle.siman_scripts.specs.Script.{line_after, lines_after, script_at, Refuses, Gives};

use crate::act::Move;
use crate::draft::Draft;
use crate::forms::statement_of;
use crate::line_fault::ScriptLineFault;
use crate::script_fault::{ScriptFault, fault_at};
use crate::world_station::WorldStation;
use byte_files::first_line;
use std::alloc::Global;
use std::marker::Model;

/// Most bytes of a script (profile).
pub const LARGEST_SCRIPT: usize = 1_048_576;

/// A script: the exercise of a world, its stations by rising addresses, and its moves. Contracts
/// see its lists.
#[derive(Drop)]
pub struct Script {
    /// The identifier of the exercise.
    pub exercise: u8,
    pub stations: Vec<WorldStation>,
    pub moves: Vec<Move>,
}

impl Model for Script {
    ghost use Rattle.siman_scripts.specs.Script.{ScriptData};

    ghost Value = { ScriptData };

    ghost view = { λ s. record { exercise = s.exercise; stations = s.stations.items; moves = s.moves.items } };
}

/// Takes one more line.
pub(crate) fn take_line(
    alloc: Global,
    draft: &mut Draft,
    line: &[u8],
) -> Result<(), ScriptLineFault>
    ensures { Leaves result draft.new (line_after draft.old line.now) }
{
    match statement_of(alloc, line)? {
        Some(statement) => draft.take(alloc, statement),
        None => Err(ScriptLineFault::Bad),
    }
}

/// The draft of the lines of a text, and the number of lines.
fn take_lines(alloc: Global, text: &[u8]) -> Result<(Draft, usize), ScriptFault>
    requires { length text.now ≤ LARGEST_SCRIPT }
    ensures lines { MatchResult result (λ r. lines_after blank 0 (lines_of text.now) ≡ Ok r.0) (λ fault. Refuses fault (lines_after blank 0 (lines_of text.now))) }
    ensures count { IfOk result (λ r. r.1 ≡ length (lines_of text.now)) }
    ensures few { IfOk result (λ r. r.1 ≤ LARGEST_SCRIPT) }
{
    let mut draft = Draft::begin(alloc);
    let mut count = 0;
    let mut rest = text;
    while !rest.is_empty() {
        let (line, others) = first_line(rest);
        count += 1;
        if let Err(fault) = take_line(alloc, &mut draft, line) {
            return Err(fault_at(count, fault));
        }
        rest = others;
    }
    Ok((draft, count))
}

/// The script that a text spells, or its first refusal by the order of lines. The last line may
/// lack its line feed.
pub fn read_script(alloc: Global, text: &[u8]) -> Result<Script, ScriptFault>
    ensures { Gives result (script_at text.now) }
{
    if text.len() > LARGEST_SCRIPT {
        return Err(ScriptFault::BadLine(0));
    }
    let (draft, count) = take_lines(alloc, text)?;
    if !draft.is_whole() {
        return Err(ScriptFault::BadLine(count + 1));
    }
    Ok(draft.finish(alloc)?)
}
