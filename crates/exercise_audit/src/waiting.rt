//! Stations that wait for entries to be taken.

ghost use Rattle.std.specs.Prelude.{◌≡◌, OnOk, OnErr};
ghost use Rattle.exercise_audit.specs.Waiting.{waiting_for, NoneWaits, Joins, Leaves, WaitsOn};

use indexmap::IndexMap;
use std::alloc::{AllocError, Global};

/// For each entry, the stations that wait for it. A station waits for one entry at a time, so there
/// are at most as many entries here as stations.
pub(crate) type Waiting = IndexMap<usize, Vec<usize>>;

/// Empty table of waiting stations. Takes no memory.
#[tactic(auto, unfolding(crate::specs::Waiting::waiting_for))]
pub(crate) fn no_waiting(alloc: Global) -> Waiting
    ensures { NoneWaits result }
{
    Waiting::new(alloc)
}

/// Adds a station that waits for an entry. Without memory for that, the table is unchanged.
pub(crate) fn wait(
    alloc: Global,
    waiting: &mut Waiting,
    entry: usize,
    station: usize,
) -> Result<(), AllocError>
    ensures joins { OnOk result (Joins waiting.old waiting.new entry station) }
    ensures failed { OnErr result (WaitsOn waiting.old waiting.new) }
{
    waiting
        .entry(entry)?
        .or_insert(Vec::new(alloc))
        .push(station)?;
    Ok(())
}

/// Removes and returns the stations that wait for an entry. Takes no memory.
#[tactic(auto, unfolding(crate::specs::Waiting::waiting_for))]
pub(crate) fn wake(alloc: Global, waiting: &mut Waiting, entry: usize) -> Vec<usize>
    ensures woken { result.items ≡ waiting_for waiting.old entry }
    ensures leaves { Leaves waiting.old waiting.new entry }
{
    // While no station waits, which is often, nothing is looked up.
    if waiting.is_empty() {
        return Vec::new(alloc);
    }
    match waiting.swap_remove(&entry) {
        Some(stations) => stations,
        None => Vec::new(alloc),
    }
}
