//! Warning of a script that has an order for a station that it lacks.

ghost use Rattle.std.specs.Prelude.{◌≡◌, IfSome};
ghost use Rattle.siman_exercise_commands.specs.Warned.{is_got, absent_receiver, is_lost, WarnsOf};

use dis_records::SiteApplication;
use siman_operator::gets;
use siman_outside::Warning;
use siman_scripts::{Act, Move, Script, WorldStation, line_of_move};
use std::alloc::Global;

/// The site number that means every site.
const EVERY: u16 = 0xFFFF;

/// Whether one of these stations receives what is sent to this site and application.
fn is_got(stations: &[WorldStation], to: SiteApplication) -> bool
    ensures { result ≡ is_got stations.now to }
{
    stations
        .iter()
        .any(|station| gets(station.station.address(), to))
}

/// Site and application of an order, if none of these stations receives it.
fn absent_receiver(stations: &[WorldStation], act: &Act) -> Option<SiteApplication>
    ensures { result ≡ absent_receiver stations.now act.now }
{
    match act {
        Act::Command(order) => {
            let to = order.target.site_application();
            if to.site == EVERY || is_got(stations, to) {
                return None;
            }
            Some(to)
        }
        Act::Deliver(_) | Act::Tick | Act::Tell(_) => None,
    }
}

/// Whether a move is an order that no station receives.
fn is_lost(stations: &[WorldStation], step: &Move) -> bool
    ensures { result ≡ is_lost stations.now step.entry.now }
{
    absent_receiver(stations, &step.act).is_some()
}

/// Warning of the first order of a script for a station that the script lacks, given its text.
/// `None` also if there is no memory to find its line.
pub(crate) fn no_such_station(alloc: Global, text: &[u8], script: &Script) -> Option<Warning>
    ensures { IfSome result (WarnsOf text.now script.now) }
{
    let stations = script.stations.as_slice();
    let number = script
        .moves
        .iter()
        .position(|step| is_lost(stations, step))?;
    let Some(step) = script.moves.as_slice().get(number) else {
        return None;
    };
    let to = absent_receiver(stations, &step.act)?;
    let line = line_of_move(alloc, text, number).ok()??;
    Some(Warning::NoSuchStation {
        line,
        site: to.site,
        application: to.application,
    })
}
