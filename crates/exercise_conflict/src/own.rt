//! Chains of the entries of each station.

ghost use Rattle.std.specs.Prelude.{◌<◌, ◌≤◌, ◌+◌, ℕ, length, IfOk, IfSome};
ghost use Rattle.exercise_conflict.specs.Own.{LeavesOutNone, AreOwnFrom};

use exercise_findings::replace;
use exercise_model::ExerciseLog;
use std::alloc::{AllocError, Global};

/// End of a chain; every entry number is smaller.
const NO_ENTRY: u32 = u32::MAX;

/// For each station a chain of its entries, in their order.
#[derive(Drop)]
pub(crate) struct StationChains {
    /// For each entry the next one of its station.
    pub followers: Vec<u32>,
    /// For each station its first entry.
    pub first: Vec<u32>,
}

/// Puts an entry at the front of its station's chain; all later entries are chained already.
fn go_back<L: ExerciseLog>(own: &mut StationChains, log: &L, entry: usize)
    requires within { entry < length (L.recording log.now).entries }
    requires tied { AreOwnFrom (L.recording log.now) (entry + 1) own.old }
    ensures { AreOwnFrom (L.recording log.now) entry own.new }
{
    let station = usize::from(log.entry(entry).station());
    let follower = own.first[station];
    replace(&mut own.followers, entry, follower);
    replace(&mut own.first, station, entry as u32);
}

/// Empty chains.
fn no_own<L: ExerciseLog>(alloc: Global, log: &L) -> Result<StationChains, AllocError>
    ensures { let r = L.recording log.now in IfOk result (AreOwnFrom r (length r.entries)) }
{
    let followers = vec![in alloc; NO_ENTRY; log.entry_count()]?;
    let first = vec![in alloc; NO_ENTRY; log.station_count()]?;
    Ok(StationChains { followers, first })
}

/// The chains of all stations of a log, built in one pass from the end.
pub(crate) fn own_of<L: ExerciseLog>(alloc: Global, log: &L) -> Result<StationChains, AllocError>
    ensures { IfOk result (AreOwnFrom (L.recording log.now) 0) }
{
    let mut own = no_own(alloc, log)?;
    for entry in (0..log.entry_count()).rev() {
        go_back(&mut own, log, entry);
    }
    Ok(own)
}

/// The smaller of two numbers.
fn no_later(next: usize, end: usize) -> usize
    ensures next { result ≤ next }
    ensures end { result ≤ end }
    ensures from { (n : ℕ) → n ≤ next → n ≤ end → n ≤ result }
{
    if next < end { next } else { end }
}

/// First entry, up to `end`, of a walk over a station's entries: the station's first, or 0 without
/// chains.
#[tactic(auto, using(crate::proofs::Owning::none_between))]
pub(crate) fn first_in<L: ExerciseLog>(
    own: &Option<StationChains>,
    log: &L,
    station: u16,
    end: usize,
) -> usize
    requires tied { IfSome own.now (AreOwnFrom (L.recording log.now) 0) }
    ensures within { result ≤ end }
    ensures first { LeavesOutNone (L.recording log.now) station 0 result }
{
    match own {
        Some(own) if usize::from(station) < log.station_count() => {
            no_later(own.first[usize::from(station)] as usize, end)
        }
        _ => 0,
    }
}

/// Next entry, up to `end`, of such a walk: the station's next, or `entry + 1` without chains.
#[tactic(auto, using(crate::proofs::Owning::none_between))]
pub(crate) fn follower_in<L: ExerciseLog>(
    own: &Option<StationChains>,
    log: &L,
    station: u16,
    entry: usize,
    end: usize,
) -> usize
    requires entry { entry < end }
    requires within { end ≤ length (L.recording log.now).entries }
    requires tied { IfSome own.now (AreOwnFrom (L.recording log.now) 0) }
    ensures within { result ≤ end }
    ensures follows { LeavesOutNone (L.recording log.now) station (entry + 1) result }
{
    match own {
        Some(own) if log.entry(entry).station() == station => {
            no_later(own.followers[entry] as usize, end)
        }
        _ => entry + 1,
    }
}
