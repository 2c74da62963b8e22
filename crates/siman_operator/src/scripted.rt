//! The station of a script that a session plays.

ghost use Rattle.std.specs.Prelude.{◌≡◌, ◌<◌, length, IfSome, IfOk};
ghost use Rattle.siman_scripts.specs.Draft.{is_at, index_of};
ghost use Rattle.siman_operator.specs.declared.scripted.SetUpFault.TheVariants.{Memory};
ghost use Rattle.siman_operator.specs.Scripted.{station_at, addresses_of, waiting_by, SetsUpOne, SetsUp};

use crate::clock::WaitUnit;
use dis_records::Address;
use exercise_model::Recording;
use siman_scripts::{Script, WorldStation};
use siman_stations::{InitialWorld, Node, WorldFault, begin_world};
use std::alloc::{AllocError, AllocFailed, Global};

/// A configured station of a script, in its initial state.
#[derive(Drop)]
pub struct SetUp {
    /// Recording of this station alone, without entries.
    pub head: Recording,
    /// Manager and application of the station.
    pub node: Node,
    /// Addresses of all stations of the script.
    pub stations: Vec<Address>,
    /// Time from the sending of an order until it is due.
    pub wait: u64,
}

/// Why a station of a script could not be set up.
#[derive(Clone, Copy, Debug, PartialEq, Eq)]
pub enum SetUpFault {
    /// The script has no station at this address.
    NotInSetup,
    /// An order of it would be sent 0 times, or it opens with more than 4,096 entities.
    Stations,
    /// Memory ran out.
    Memory,
}

impl From<AllocError> for SetUpFault {
    ghost from_gives = { λ _ fault. fault ≡ Memory };

    fn from(_e: AllocError) -> SetUpFault {
        SetUpFault::Memory
    }
}

impl<T: Drop> From<AllocFailed<T>> for SetUpFault {
    ghost from_gives = { λ _ fault. fault ≡ Memory };

    fn from(_e: AllocFailed<T>) -> SetUpFault {
        SetUpFault::Memory
    }
}

/// Whether a station has this address.
fn is_at(station: &WorldStation, address: Address) -> bool
    ensures { result ≡ is_at address station.now }
{
    station.station.address() == address
}

/// Index of the station with this address, if any.
fn index_of(stations: &[WorldStation], address: Address) -> Option<usize>
    ensures index { result ≡ index_of address stations.now }
    ensures within { IfSome result (λ i. i < length stations.now) }
{
    stations.iter().position(|station| is_at(station, address))
}

/// The station with this address, if any.
pub fn station_at(mut stations: Vec<WorldStation>, address: Address) -> Option<WorldStation>
    ensures { result ≡ station_at address stations.items }
{
    let index = index_of(&stations, address)?;
    Some(stations.swap_remove(index))
}

/// Set-up fault of a fault of [`begin_world`].
fn of_world(fault: WorldFault) -> SetUpFault
    ensures memory { fault ≡ WorldFault.Memory → result ≡ SetUpFault.Memory }
    ensures stations { fault ≡ WorldFault.Stations → result ≡ SetUpFault.Stations }
{
    match fault {
        WorldFault::Memory => SetUpFault::Memory,
        WorldFault::Stations | WorldFault::Move(..) => SetUpFault::Stations,
    }
}

/// Addresses of these stations.
fn addresses_of(alloc: Global, stations: &[WorldStation]) -> Result<Vec<Address>, AllocError>
    ensures { IfOk result (λ addresses. addresses.items ≡ addresses_of stations.now) }
{
    let mut addresses = Vec::new(alloc);
    for station in stations {
        addresses.push(station.station.address())?;
    }
    Ok(addresses)
}

/// Sets up one station, given the addresses of all stations of its script.
fn set_up_one(
    alloc: Global,
    exercise: u8,
    addresses: Vec<Address>,
    station: WorldStation,
) -> Result<SetUp, SetUpFault>
    ensures { SetsUpOne exercise addresses.items station result }
{
    let wait = station.wait;
    let mut stations = Vec::new(alloc);
    stations.push(station)?;
    let InitialWorld {
        recording,
        mut nodes,
    } = match begin_world(alloc, exercise, stations) {
        Ok(beginning) => beginning,
        Err(fault) => return Err(of_world(fault)),
    };
    match nodes.pop() {
        Some(node) => Ok(SetUp {
            head: recording,
            node,
            stations: addresses,
            wait,
        }),
        None => unreachable!(),
    }
}

/// A station whose wait counts this.
fn waiting_by(unit: WaitUnit, station: WorldStation) -> WorldStation
    ensures { result ≡ waiting_by unit station }
{
    let mut station = station;
    station.wait = unit.wait(station.wait);
    station
}

/// Sets up the station of a script with this address, as the lines of the script configure it; its
/// wait counts `unit`. Ignores the moves and consumes the script.
pub fn set_up(
    alloc: Global,
    script: Script,
    address: Address,
    unit: WaitUnit,
) -> Result<SetUp, SetUpFault>
    ensures { SetsUp script address unit result }
{
    let Script {
        exercise,
        stations,
        ..
    } = script;
    let addresses = addresses_of(alloc, &stations);
    match station_at(stations, address) {
        Some(station) => set_up_one(alloc, exercise, addresses?, waiting_by(unit, station)),
        None => Err(SetUpFault::NotInSetup),
    }
}
