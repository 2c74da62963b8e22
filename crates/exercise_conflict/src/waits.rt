//! Waits between blocked stations.

ghost use Rattle.std.specs.Prelude.{◌≡◌, IfOk};
ghost use Rattle.exercise_conflict.specs.Waits.{block_of, wait_of, waits_of};

use exercise_audit::Block;
use exercise_findings::Findings;
use exercise_model::{Cause, ExerciseLog};
use std::alloc::{AllocError, Global};

/// A blocked station's wait for another. Stations are indices in the recording, entries are
/// numbers, both from 0.
#[derive(Clone, Copy)]
pub struct Wait {
    /// Its next entry, which receives a datagram.
    pub entry: usize,
    /// The station.
    pub station: usize,
    /// The entry that sends that datagram.
    pub sent: usize,
    /// The station of that entry, for which this one waits.
    pub on: usize,
    /// The next entry of that station, which is blocked too.
    pub next: usize,
}

/// The block of a station, if it has one.
#[tactic(auto, unfolding(crate::specs::Waits::block_of))]
fn block_of(blocks: &[Block], station: usize) -> Option<Block>
    ensures { result ≡ block_of blocks.now station }
{
    for block in blocks {
        if block.station == station {
            return Some(*block);
        }
    }
    None
}

/// The wait of a blocked station: for the source of the datagram that its next entry receives, if
/// the block's cause is `NeverSent` and the station of the source is blocked too. `None` otherwise.
/// It takes no memory.
#[tactic(auto, unfolding(crate::specs::Waits::wait_of))]
pub fn wait_of<L: ExerciseLog>(
    findings: &Findings<'_, L>,
    blocks: &[Block],
    block: Block,
) -> Option<Wait>
    ensures { result ≡ wait_of findings.now blocks.now block }
{
    if block.cause != Cause::NeverSent {
        return None;
    }
    let sent = findings.source(block.entry)? as usize;
    let on = usize::from(findings.log().entry(sent).station());
    let other = block_of(blocks, on)?;
    Some(Wait {
        entry: block.entry,
        station: block.station,
        sent,
        on,
        next: other.entry,
    })
}

/// The waits of the stations of a blocked list, in its order.
pub fn waits_of<L: ExerciseLog>(
    alloc: Global,
    findings: &Findings<'_, L>,
    blocks: &[Block],
) -> Result<Vec<Wait>, AllocError>
    ensures { IfOk result (λ waits. waits.items ≡ waits_of findings.now blocks.now) }
{
    let mut waits = Vec::new(alloc);
    for block in blocks {
        if let Some(wait) = wait_of(findings, blocks, *block) {
            waits.push(wait)?;
        }
    }
    Ok(waits)
}
