//! Receiver of an order for which the script may have no station.

ghost use Rattle.std.specs.Prelude.{◌≡◌};
ghost use Rattle.byte_files.specs.Writing.{Writes};
ghost use Rattle.siman_operator.specs.Reading.{said_by};
ghost use Rattle.siman_operator.specs.Receiver.{gets, is_got, missing, absent_receiver, WarnsOf, nobody_text};

use crate::Rejection;
use crate::reading::line_or_placeholder;
use byte_files::{TextPiece, WriteFailed, put_pieces, three_pieces};
use dis_records::{Address, SiteApplication};
use siman_scripts::{Command, StationTask, read_command};
use std::alloc::Global;
use std::io::Write;

/// The site number that means every site, and the application number that means every application.
const EVERY: u16 = 0xFFFF;

/// Whether the station with this address receives what is sent to this site and application.
pub fn gets(station: Address, to: SiteApplication) -> bool
    ensures { result ≡ gets to station }
{
    station.site() == to.site
        && (to.application == EVERY || station.application() == to.application)
}

/// Whether one of these stations receives what is sent to this site and application.
fn is_got(stations: &[Address], to: SiteApplication) -> bool
    ensures { result ≡ is_got stations.now to }
{
    stations.iter().any(|station| gets(*station, to))
}

/// Site and application of an order, if none of these stations receives it.
fn missing(stations: &[Address], to: SiteApplication) -> Option<SiteApplication>
    ensures { result ≡ missing stations.now to }
{
    if to.site == EVERY || is_got(stations, to) {
        return None;
    }
    Some(to)
}

/// Receiver of a line's order, if none of these stations receives it.
fn absent_receiver(stations: &[Address], said: &Option<Command>) -> Option<SiteApplication>
    ensures { result ≡ absent_receiver stations.now said.now }
{
    match said {
        Some(
            Command::Asks {
                task: StationTask::Order(order),
                ..
            },
        ) => missing(stations, order.target.site_application()),
        _ => None,
    }
}

/// Receiver of a line's order, if the line was done and none of these stations receives it. `None`
/// if memory ran out.
pub(crate) fn warned_receiver(
    alloc: Global,
    stations: &[Address],
    held: &[u8],
    done: Result<(), Rejection>,
) -> Option<SiteApplication>
    ensures { WarnsOf stations.now (said_by held.now) done result }
{
    if done.is_err() {
        return None;
    }
    match read_command(alloc, line_or_placeholder(held)) {
        Ok(said) => absent_receiver(stations, &said),
        Err(_) => None,
    }
}

/// Writes the address of a station that the script lacks, and what to do.
pub(crate) fn put_nobody<E: Write>(
    errors: &mut E,
    site: u16,
    application: u16,
) -> Result<(), WriteFailed>
    ensures { Writes result (E.contents errors.old) (E.contents errors.new) (nobody_text site application) }
{
    let text = three_pieces(
        TextPiece::Words(": the script has no station "),
        TextPiece::Address(site, application),
        TextPiece::Words(": add it there, or see whether the address is right\n"),
    );
    put_pieces(errors, text)
}
