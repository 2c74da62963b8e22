//! Orders, each identified by its head: its first entry.

use crate::entries::{address_of, entry_at, pdu_at, pdu_sent, received_by};
use crate::judge::sender_of;
use dis_records::addressed;
use exercise_model::{EntryView, ExerciseLog, Form};
use exercise_review::RecordedOrder;
use siman_pdus::{PduView, is_request, is_under_identifier, same_order};

/// Whether the origin of a PDU is outside: the recording is open, and no recorded station is the
/// origin.
pub(crate) fn is_outside<L: ExerciseLog>(log: &L, pdu: &PduView<'_>) -> bool {
    log.form() == Form::Open && sender_of(log, pdu).is_none()
}

/// Whether a PDU addresses a recorded station.
pub(crate) fn is_meant<L: ExerciseLog>(log: &L, pdu: &PduView<'_>, station: usize) -> bool {
    match address_of(log, station) {
        Some(address) => addressed(pdu.target, address),
        None => false,
    }
}

/// Whether a PDU addresses some recorded station.
fn is_for_station<L: ExerciseLog>(log: &L, pdu: &PduView<'_>) -> bool {
    for station in 0..log.station_count() {
        if is_meant(log, pdu, station) {
            return true;
        }
    }
    false
}

/// Whether an entry sends an order from a station.
pub(crate) fn is_send<L: ExerciseLog>(
    log: &L,
    station: usize,
    request: &PduView<'_>,
    entry: usize,
) -> bool {
    match pdu_sent(log, station, entry) {
        Some(pdu) => same_order(request, &pdu),
        None => false,
    }
}

/// Whether an entry receives an order at a station.
pub(crate) fn is_copy<L: ExerciseLog>(
    log: &L,
    station: usize,
    request: &PduView<'_>,
    entry: usize,
) -> bool {
    match received_by(log, station, entry) {
        Some(pdu) => same_order(request, &pdu),
        None => false,
    }
}

/// The first entry at which a station sends an order.
fn first_send<L: ExerciseLog>(log: &L, station: usize, request: &PduView<'_>) -> Option<usize> {
    for entry in 0..log.entry_count() {
        if is_send(log, station, request, entry) {
            return Some(entry);
        }
    }
    None
}

/// The first entry at which any station receives an order.
fn first_copy<L: ExerciseLog>(log: &L, request: &PduView<'_>) -> Option<usize> {
    for entry in 0..log.entry_count() {
        match log.entry(entry) {
            EntryView::Received { station, .. }
                if is_copy(log, usize::from(station), request, entry) => {
                return Some(entry);
            }
            _ => {}
        }
    }
    None
}

/// How often a station sends an order.
pub(crate) fn send_count<L: ExerciseLog>(log: &L, station: u16, request: &PduView<'_>) -> usize {
    let mut count = 0usize;
    for entry in 0..log.entry_count() {
        if is_send(log, usize::from(station), request, entry) {
            count = count.saturating_add(1);
        }
    }
    count
}

/// How often a station receives an order, and the first entry at which it does.
pub(crate) fn copies_of<L: ExerciseLog>(
    log: &L,
    station: u16,
    request: &PduView<'_>,
) -> (usize, Option<usize>) {
    let (mut count, mut first) = (0usize, None);
    for entry in 0..log.entry_count() {
        if is_copy(log, usize::from(station), request, entry) {
            count = count.saturating_add(1);
            if first.is_none() {
                first = Some(entry);
            }
        }
    }
    (count, first)
}

/// The order that an entry sends from its station, or receives from outside for a recorded station.
/// Its head is the first entry that sends it there, or the first that receives it.
fn order_with<L: ExerciseLog>(log: &L, entry: usize) -> Option<RecordedOrder<'_>> {
    let request = pdu_at(log, entry)?;
    if !is_request(&request) {
        return None;
    }
    let (maker, head) = match entry_at(log, entry)? {
        EntryView::Sent { station, .. } => {
            (
                Some(station),
                first_send(log, usize::from(station), &request),
            )
        }
        _ if is_outside(log, &request) && is_for_station(log, &request) => {
            (None, first_copy(log, &request))
        }
        _ => return None,
    };
    Some(RecordedOrder {
        head: head?,
        maker,
        request,
    })
}

/// Head of the order of an entry, if it has one.
pub fn plain_head<L: ExerciseLog>(log: &L, entry: usize) -> Option<usize> {
    match order_with(log, entry) {
        Some(order) => Some(order.head),
        None => None,
    }
}

/// The order whose head is this entry, if any.
pub(crate) fn order_at<L: ExerciseLog>(log: &L, entry: usize) -> Option<RecordedOrder<'_>> {
    match order_with(log, entry) {
        Some(order) if order.head == entry => Some(order),
        _ => None,
    }
}

/// Whether an order is the first of its station under its request identifier.
pub(crate) fn is_first_under_id<L: ExerciseLog>(
    log: &L,
    station: u16,
    order: &RecordedOrder<'_>,
) -> bool {
    for entry in 0..log.entry_count() {
        match pdu_sent(log, usize::from(station), entry) {
            Some(pdu) if is_request(&pdu) && is_under_identifier(&order.request, &pdu) => {
                return entry == order.head;
            }
            _ => {}
        }
    }
    false
}
