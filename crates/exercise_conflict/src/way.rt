//! The outcome for each blocked station, and further causes beside a blocked list.

ghost use Rattle.std.specs.Prelude.{◌≡◌, ◌++◌, map, option_map, IfOk, OnOk};
ghost use Rattle.std.specs.Option.{option_to_list};
ghost use Rattle.exercise_conflict.specs.Final.{is_final};
ghost use Rattle.exercise_conflict.specs.Cycles.{cycle_at};
ghost use Rattle.exercise_conflict.specs.Ways.{stations_in, way_of, ways_of, cycles_of, further_cause, further_causes};

use crate::also::further_cause_at;
use crate::clash::Clash;
use crate::clashing::clash_in;
use crate::cycles::cycle_at;
use crate::logs::Logs;
use crate::waits::{Wait, wait_of, waits_of};
use exercise_audit::Block;
use exercise_findings::Findings;
use exercise_model::{Cause, ExerciseLog};
use std::alloc::{AllocError, Global};

/// Why a blocked station cannot go on: it waits for another, or its next entry contradicts
/// something.
#[derive(Clone, Copy)]
pub enum Way {
    /// It waits for a station that is blocked too.
    Waits(Wait),
    /// It waits for nobody.
    Clash {
        /// Its next entry.
        entry: usize,
        /// The contradiction of that entry.
        clash: Clash,
        /// Whether no further entry of any log can resolve it.
        is_final: bool,
    },
}

/// An entry that is not the next one of a blocked station, but has a cause against it in its own
/// station's log.
#[derive(Clone, Copy)]
pub struct Also {
    /// The entry.
    pub entry: usize,
    /// The first cause, never `NeverSent`.
    pub cause: Cause,
}

/// Whether a cause holds no matter which further entries there are.
fn is_final(cause: Cause) -> bool
    ensures { result ≡ is_final cause }
{
    matches!(
        cause,
        Cause::WrongSender | Cause::ReusedIdentifier | Cause::ChangedAnswer | Cause::Stranger
    )
}

/// As [`way_of`], with the tables of `logs`.
#[tactic(auto, unfolding(crate::specs::Ways::way_of))]
fn way_in<L: ExerciseLog>(logs: &Logs<'_, '_, L>, blocks: &[Block], block: Block) -> Option<Way>
    ensures { result ≡ way_of logs.now blocks.now block }
{
    if let Some(wait) = wait_of(logs.findings(), blocks, block) {
        return Some(Way::Waits(wait));
    }
    let clash = clash_in(logs, block.entry)?;
    Some(Way::Clash {
        entry: block.entry,
        clash,
        is_final: is_final(block.cause),
    })
}

/// Why the station of a block cannot go on: its wait, else the contradiction of its next entry. It
/// takes no memory.
pub fn way_of<L: ExerciseLog>(
    findings: &Findings<'_, L>,
    blocks: &[Block],
    block: Block,
) -> Option<Way>
    ensures { result ≡ way_of findings.now blocks.now block }
{
    way_in(&Logs::unwritten(findings), blocks, block)
}

/// More than this many stations with a cause of `NeverSent` are many.
const MANY: usize = 8;

/// Whether many stations are blocked by `NeverSent`.
fn lack_many(blocks: &[Block]) -> bool {
    let lacking = blocks
        .iter()
        .filter(|block| block.cause == Cause::NeverSent)
        .count();
    lacking > MANY
}

/// Why each station of a blocked list cannot go on, in its order. The entries of each station are
/// chained first, so that all walks together visit each entry once; first sends are indexed too if
/// many stations are blocked by `NeverSent`.
pub fn ways_of<L: ExerciseLog>(
    alloc: Global,
    findings: &Findings<'_, L>,
    blocks: &[Block],
) -> Result<Vec<Way>, AllocError>
    ensures { IfOk result (λ ways. ways.items ≡ ways_of findings.now blocks.now) }
{
    let logs = Logs::written(alloc, findings, lack_many(blocks))?;
    let mut ways = Vec::new(alloc);
    for block in blocks {
        if let Some(way) = way_in(&logs, blocks, *block) {
            ways.push(way)?;
        }
    }
    Ok(ways)
}

/// Appends the cycle at a station, if there is one.
fn push_cycle(
    alloc: Global,
    cycles: &mut Vec<Vec<usize>>,
    waits: &[Wait],
    station: usize,
) -> Result<(), AllocError>
    ensures { OnOk result (map stations_in cycles.new.items ≡ map stations_in cycles.old.items ++ option_to_list (cycle_at waits.now station)) }
{
    if let Some(cycle) = cycle_at(alloc, waits, station)? {
        cycles.push(cycle)?;
    }
    Ok(())
}

/// The cycles of a blocked list, by their lowest station.
pub fn cycles_of<L: ExerciseLog>(
    alloc: Global,
    findings: &Findings<'_, L>,
    blocks: &[Block],
) -> Result<Vec<Vec<usize>>, AllocError>
    ensures { IfOk result (λ cycles. map stations_in cycles.items ≡ cycles_of findings.now blocks.now) }
{
    let waits = waits_of(alloc, findings, blocks)?;
    let mut cycles = Vec::new(alloc);
    for station in 0..findings.log().station_count() {
        push_cycle(alloc, &mut cycles, &waits, station)?;
    }
    Ok(cycles)
}

/// Appends the further cause against an entry, if any.
fn push_further_cause(
    also: &mut Vec<Also>,
    entry: usize,
    cause: Option<Cause>,
) -> Result<(), AllocError>
    ensures { OnOk result (also.new.items ≡ also.old.items ++ option_to_list (option_map (further_cause entry) cause)) }
{
    if let Some(cause) = cause {
        also.push(Also { entry, cause })?;
    }
    Ok(())
}

/// The further causes beside a blocked list, by rising entries.
pub fn further_causes<L: ExerciseLog>(
    alloc: Global,
    findings: &Findings<'_, L>,
    blocks: &[Block],
) -> Result<Vec<Also>, AllocError>
    ensures { IfOk result (λ also. also.items ≡ further_causes findings.now blocks.now) }
{
    let mut also = Vec::new(alloc);
    for entry in 0..findings.log().entry_count() {
        push_further_cause(&mut also, entry, further_cause_at(findings, blocks, entry))?;
    }
    Ok(also)
}
