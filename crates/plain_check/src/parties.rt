//! The parties of an order: the stations that it is for, and the unrecorded ones that answered it.

use crate::entries::{address_of, received_by};
use crate::orders::{copies_of, is_first_under_id, is_meant, is_outside};
use dis_records::{Address, SiteApplication};
use exercise_model::{ExerciseLog, Form};
use exercise_review::{Party, RecordedOrder};
use siman_pdus::answers;
use std::alloc::{AllocError, Global};

/// Site and application of a recorded station; 0 and 0 past the last.
pub(crate) fn station_address<L: ExerciseLog>(log: &L, station: u16) -> SiteApplication {
    match address_of(log, usize::from(station)) {
        Some(address) => address.site_application(),
        None => SiteApplication {
            site: 0,
            application: 0,
        },
    }
}

/// Site and application of a party.
pub(crate) fn party_address<L: ExerciseLog>(log: &L, party: Party) -> SiteApplication {
    match party {
        Party::Station(station) => station_address(log, station),
        Party::Outside(address) => address,
    }
}

/// Whether a recorded station is a party of an order: it is addressed, and if it made the order it
/// also received it.
fn is_party<L: ExerciseLog>(log: &L, order: &RecordedOrder<'_>, station: u16) -> bool {
    if !is_meant(log, &order.request, usize::from(station)) {
        return false;
    }
    let (copies, _) = copies_of(log, station, &order.request);
    order.maker != Some(station) || copies > 0
}

/// The address outside from which the maker of an order receives an answer to it at an entry after
/// its head. `None` unless the order is the first of its maker under its identifier.
fn told_at<L: ExerciseLog>(
    log: &L,
    order: &RecordedOrder<'_>,
    entry: usize,
) -> Option<SiteApplication> {
    let maker = order.maker?;
    let pdu = received_by(log, usize::from(maker), entry)?;
    let is_told = answers(&pdu, &order.request)
        && is_outside(log, &pdu)
        && order.head < entry
        && is_first_under_id(log, maker, order);
    if is_told {
        Some(pdu.origin.site_application())
    } else {
        None
    }
}

/// The entries at which the maker of an order receives an answer to it from an address outside.
pub(crate) fn told_from<L: ExerciseLog>(
    alloc: Global,
    log: &L,
    order: &RecordedOrder<'_>,
    address: SiteApplication,
) -> Result<Vec<usize>, AllocError> {
    let mut told = Vec::new(alloc);
    for entry in 0..log.entry_count() {
        if told_at(log, order, entry) == Some(address) {
            told.push(entry)?;
        }
    }
    Ok(told)
}

/// Whether a recorded station has an address.
fn is_recorded_at<L: ExerciseLog>(log: &L, address: Address) -> bool {
    for station in 0..log.station_count() {
        if address_of(log, station) == Some(address) {
            return true;
        }
    }
    false
}

/// Adds a party before the first with a higher address, unless its address is in the list.
fn push_party<L: ExerciseLog>(
    log: &L,
    parties: &mut Vec<Party>,
    party: Party,
) -> Result<(), AllocError> {
    let at = party_address(log, party);
    let mut place = 0usize;
    for other in parties.iter() {
        let other = party_address(log, *other);
        if other == at {
            return Ok(());
        }
        if other.site < at.site || other.site == at.site && other.application < at.application {
            place = place.saturating_add(1);
        }
    }
    if place <= parties.len() {
        parties.insert(place, party)?;
    }
    Ok(())
}

/// Adds the address outside that an order names, and those from which its maker received an answer.
fn push_outsiders<L: ExerciseLog>(
    log: &L,
    order: &RecordedOrder<'_>,
    parties: &mut Vec<Party>,
) -> Result<(), AllocError> {
    let named = order.request.target.site_application();
    match Address::new(named.site, named.application) {
        Some(address) if !is_recorded_at(log, address) => {
            push_party(log, parties, Party::Outside(named))?;
        }
        _ => {}
    }
    for entry in 0..log.entry_count() {
        if let Some(address) = told_at(log, order, entry) {
            push_party(log, parties, Party::Outside(address))?;
        }
    }
    Ok(())
}

/// The parties of an order, by rising address.
pub(crate) fn parties_of<L: ExerciseLog>(
    alloc: Global,
    log: &L,
    order: &RecordedOrder<'_>,
) -> Result<Vec<Party>, AllocError> {
    let mut parties = Vec::new(alloc);
    for station in 0..log.station_count() {
        if let Ok(station) = u16::try_from(station) {
            if is_party(log, order, station) {
                push_party(log, &mut parties, Party::Station(station))?;
            }
        }
    }
    if log.form() == Form::Open && order.maker.is_some() {
        push_outsiders(log, order, &mut parties)?;
    }
    Ok(parties)
}
