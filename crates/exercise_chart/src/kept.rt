//! The columns of a picture: those of the stations that are kept, by rising index, from the left.

ghost use Rattle.std.specs.Prelude.{◌≡◌, ◌<◌, length, Some, None, IfOk, if◌then◌else◌};
ghost use Rattle.exercise_chart.specs.Kept.{has_address, keeps, is_kept, kept_of, AreKept};

use dis_records::{Address, SiteApplication};
use exercise_model::ExerciseLog;
use std::alloc::{AllocError, Global};

/// The columns of the stations that are kept.
#[derive(Drop)]
pub(crate) struct KeptColumns {
    /// For each station its column, if it is kept.
    pub columns: Vec<Option<u16>>,
    /// The number of columns.
    pub kept: u16,
}

/// Whether an address is among these.
fn has_address(addresses: &[SiteApplication], address: SiteApplication) -> bool
    ensures { result ≡ has_address addresses.now address }
{
    let mut others = addresses;
    while let [other, rest @ ..] = others {
        if *other == address {
            return true;
        }
        others = rest;
    }
    false
}

/// Whether a station with this address is kept: the address is among these, or these are none.
fn keeps(stations: &[SiteApplication], address: Address) -> bool
    ensures { result ≡ keeps stations.now address }
{
    stations.is_empty() || has_address(stations, address.site_application())
}

/// The column of a station, if it is kept: the number of kept stations before it.
fn column_of<L: ExerciseLog>(
    log: &L,
    stations: &[SiteApplication],
    station: usize,
    before: u16,
) -> Option<u16>
    requires { station < length (L.recording log.now).setting.stations }
    ensures { result ≡ (if is_kept (L.recording log.now) stations.now station then Some before else None) }
{
    if keeps(stations, log.station(station).address()) {
        Some(before)
    } else {
        None
    }
}

/// The columns of the stations with these addresses, or of all stations where none is given. The
/// table takes memory.
pub(crate) fn kept_columns<L: ExerciseLog>(
    alloc: Global,
    log: &L,
    stations: &[SiteApplication],
) -> Result<KeptColumns, AllocError>
    ensures { IfOk result (AreKept (L.recording log.now) stations.now) }
{
    let mut columns = Vec::new(alloc);
    let mut kept: u16 = 0;
    for station in 0..log.station_count() {
        let column = column_of(log, stations, station, kept);
        columns.push(column)?;
        if column.is_some() {
            kept += 1;
        }
    }
    Ok(KeptColumns { columns, kept })
}

/// How many columns there are: one for each station with one of these addresses, or for each
/// station where none is given.
pub fn column_count<L: ExerciseLog>(log: &L, stations: &[SiteApplication]) -> usize
    ensures { result ≡ kept_of (L.recording log.now) stations.now }
{
    let mut kept: u16 = 0;
    for station in 0..log.station_count() {
        let column = column_of(log, stations, station, kept);
        if column.is_some() {
            kept += 1;
        }
    }
    usize::from(kept)
}
