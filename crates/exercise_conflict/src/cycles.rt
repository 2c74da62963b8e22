//! Rings of stations that wait for one another.

ghost use Rattle.std.specs.Prelude.{◌≡◌, option_map, length, IfOk};
ghost use Rattle.exercise_conflict.specs.Cycles.{wait_at, cycle_at, IsWaitingPath};

use crate::waits::Wait;
use exercise_model::MOST_STATIONS;
use std::alloc::{AllocError, Global};

/// The wait of a station, if it has one.
#[tactic(auto, unfolding(crate::specs::Cycles::wait_at))]
fn wait_at(waits: &[Wait], station: usize) -> Option<Wait>
    ensures { result ≡ wait_at waits.now station }
{
    for wait in waits {
        if wait.station == station {
            return Some(*wait);
        }
    }
    None
}

/// Appends the stations from `from` on, each waiting for the next, up to the one that waits for
/// `station`. Returns whether there is such a path, with all its stations above `station`.
fn push_waiting_path(
    way: &mut Vec<usize>,
    waits: &[Wait],
    station: usize,
    from: usize,
) -> Result<bool, AllocError>
    ensures { IfOk result (λ back. IsWaitingPath waits.now station from way.old.items way.new.items back) }
{
    let mut at = from;
    for _step in 0..MOST_STATIONS {
        if at == station {
            return Ok(true);
        }
        if at < station {
            return Ok(false);
        }
        match wait_at(waits, at) {
            Some(wait) => {
                way.push(at)?;
                at = wait.on;
            }
            None => return Ok(false),
        }
    }
    Ok(false)
}

/// The cycle at a station: the stations from it on, each waiting for the next and the last for the
/// first, where `station` is the lowest of them. `None` if there is no such cycle.
#[tactic(auto, unfolding(crate::specs::Cycles::cycle_at))]
pub fn cycle_at(
    alloc: Global,
    waits: &[Wait],
    station: usize,
) -> Result<Option<Vec<usize>>, AllocError>
    ensures { IfOk result (λ cycle. option_map (λ stations. stations.items) cycle ≡ cycle_at waits.now station) }
{
    let Some(wait) = wait_at(waits, station) else {
        return Ok(None);
    };
    let mut cycle = Vec::new(alloc);
    cycle.push(station)?;
    if push_waiting_path(&mut cycle, waits, station, wait.on)? {
        Ok(Some(cycle))
    } else {
        Ok(None)
    }
}
