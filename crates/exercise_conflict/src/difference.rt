//! The first field in which one PDU differs from another.

ghost use Rattle.std.specs.Prelude.{◌≡◌, ◌==◌};
ghost use Rattle.std.specs.Cmp.Lexicographic.{pointwise};
ghost use Rattle.dis_records.specs.Kind.{kind_code};
ghost use Rattle.siman_pdus.specs.DatumLists.{same_fixed};
ghost use Rattle.siman_pdus.specs.Reading.{body_of, pdu_of};
ghost use Rattle.siman_pdus.specs.Role.{request_id_of};
ghost use Rattle.siman_pdus.specs.Spelling.{body_kind};
ghost use Rattle.exercise_conflict.specs.Difference.{unless_same, or_else, same_request, time_difference, number_difference, fixed_datums_of, fixed_ids_of, same_datums_if, same_ids_if, body_difference, inner_difference, order_difference, pdu_difference};

use crate::field::PduField;
use dis_records::records::{DatumIdRecords, FixedRecords};
use siman_pdus::{BodyView, Message, PduView, request_id, same_order};

/// The field if it differs, else the rest.
fn unless_same(same: bool, field: PduField, rest: Option<PduField>) -> Option<PduField>
    ensures { result ≡ unless_same same field rest }
{
    if same { rest } else { Some(field) }
}

/// The first difference, else the rest.
fn or_else(found: Option<PduField>, rest: Option<PduField>) -> Option<PduField>
    ensures { result ≡ or_else found rest }
{
    match found {
        Some(field) => Some(field),
        None => rest,
    }
}

/// The first difference in times and in the fields that accompany them.
fn time_difference(body: &BodyView<'_>, other: &BodyView<'_>) -> Option<PduField>
    ensures { result ≡ time_difference (body_of body.now) (body_of other.now) }
{
    match (body, other) {
        (
            BodyView::StartResume { real, sim, .. },
            BodyView::StartResume {
                real: start,
                sim: begin,
                ..
            },
        ) => {
            let sim = unless_same(sim == begin, PduField::Sim, None);
            unless_same(real == start, PduField::Real, sim)
        }
        (
            BodyView::StopFreeze {
                real,
                reason,
                behaviour,
                ..
            },
            BodyView::StopFreeze {
                real: stop,
                reason: why,
                behaviour: frozen,
                ..
            },
        ) => {
            let behaviour = unless_same(behaviour == frozen, PduField::Behaviour, None);
            let reason = unless_same(reason == why, PduField::Reason, behaviour);
            unless_same(real == stop, PduField::Real, reason)
        }
        _ => None,
    }
}

/// The first difference in numbers that only one kind has.
fn number_difference(body: &BodyView<'_>, other: &BodyView<'_>) -> Option<PduField>
    ensures { result ≡ number_difference (body_of body.now) (body_of other.now) }
{
    match (body, other) {
        (
            BodyView::Acknowledge { flag, response, .. },
            BodyView::Acknowledge {
                flag: what,
                response: how,
                ..
            },
        ) => {
            let response = unless_same(response == how, PduField::Response, None);
            unless_same(flag == what, PduField::Flag, response)
        }
        (BodyView::ActionRequest { action, .. }, BodyView::ActionRequest { action: asked, .. }) =>
            unless_same(action == asked, PduField::Action, None),
        (BodyView::ActionResponse { result, .. }, BodyView::ActionResponse { result: told, .. }) =>
            unless_same(result == told, PduField::Outcome, None),
        (
            BodyView::DataQuery { interval, .. },
            BodyView::DataQuery {
                interval: asked,
                ..
            },
        ) => { unless_same(interval == asked, PduField::Interval, None) }
        (BodyView::EventReport { event, .. }, BodyView::EventReport { event: told, .. }) => {
            unless_same(event == told, PduField::Event, None)
        }
        _ => None,
    }
}

/// The fixed datum records of a body, if its kind has them.
fn fixed_datums<'a>(body: &BodyView<'a>) -> Option<FixedRecords<'a>>
    ensures { result ≡ fixed_datums_of (body_of body.now) }
{
    match body {
        BodyView::ActionRequest { datums, .. }
        | BodyView::ActionResponse { datums, .. }
        | BodyView::SetData { datums, .. }
        | BodyView::DataPdu { datums, .. }
        | BodyView::EventReport { datums, .. }
        | BodyView::Comment { datums } => Some(datums.fixed()),
        _ => None,
    }
}

/// The fixed datum identifiers that a body queries, if its kind does.
fn fixed_ids<'a>(body: &BodyView<'a>) -> Option<DatumIdRecords<'a>>
    ensures { result ≡ fixed_ids_of (body_of body.now) }
{
    match body {
        BodyView::DataQuery { ids, .. } => Some(ids.fixed()),
        _ => None,
    }
}

/// Whether two lists of fixed datum records are equal.
fn same_fixed_datums(left: FixedRecords<'_>, mut right: FixedRecords<'_>) -> bool
    ensures { result ≡ pointwise same_fixed left.entry right.entry }
{
    for datum in left {
        match right.next() {
            Some(other) if datum == other => {}
            _ => return false,
        }
    }
    right.next().is_none()
}

/// Whether two lists of identifiers are equal.
fn same_fixed_ids(left: DatumIdRecords<'_>, mut right: DatumIdRecords<'_>) -> bool
    ensures { result ≡ pointwise ◌==◌ left.entry right.entry }
{
    for id in left {
        match right.next() {
            Some(other) if id == other => {}
            _ => return false,
        }
    }
    right.next().is_none()
}

/// Whether the fixed datum records of two bodies are equal, or one has none.
fn same_datums(body: &BodyView<'_>, other: &BodyView<'_>) -> bool
    ensures { result ≡ same_datums_if (fixed_datums_of (body_of body.now)) (fixed_datums_of (body_of other.now)) }
{
    match (fixed_datums(body), fixed_datums(other)) {
        (Some(left), Some(right)) => same_fixed_datums(left, right),
        _ => true,
    }
}

/// Whether the queried fixed datums of two bodies are equal, or one has none.
fn same_ids(body: &BodyView<'_>, other: &BodyView<'_>) -> bool
    ensures { result ≡ same_ids_if (fixed_ids_of (body_of body.now)) (fixed_ids_of (body_of other.now)) }
{
    match (fixed_ids(body), fixed_ids(other)) {
        (Some(left), Some(right)) => same_fixed_ids(left, right),
        _ => true,
    }
}

/// Whether the request identifiers of two PDUs are equal, or both have none.
fn same_request(pdu: &PduView<'_>, other: &PduView<'_>) -> bool
    ensures { result ≡ same_request (request_id_of (pdu_of pdu.now).body) (request_id_of (pdu_of other.now).body) }
{
    match (request_id(pdu), request_id(other)) {
        (Some(id), Some(other)) => id == other,
        (None, None) => true,
        (Some(_), None) | (None, Some(_)) => false,
    }
}

/// Whether two PDUs are of one kind.
fn same_kind(pdu: &PduView<'_>, other: &PduView<'_>) -> bool
    ensures { result ≡ (kind_code (body_kind (pdu_of pdu.now).body) == kind_code (body_kind (pdu_of other.now).body)) }
{
    pdu.kind().code() == other.kind().code()
}

/// The first difference of the bodies of two PDUs of one kind. `same`: whether the two are equal
/// orders.
fn body_difference(pdu: &PduView<'_>, other: &PduView<'_>, same: bool) -> Option<PduField>
    ensures { result ≡ body_difference (pdu_of pdu.now).body (pdu_of other.now).body same }
{
    let (left, right) = (&pdu.body, &other.body);
    let variable = unless_same(same, PduField::Variable, None);
    let ids = unless_same(same_ids(left, right), PduField::Fixed, variable);
    let fixed = unless_same(same_datums(left, right), PduField::Fixed, ids);
    let number = or_else(number_difference(left, right), fixed);
    let time = or_else(time_difference(left, right), number);
    unless_same(same_request(pdu, other), PduField::Request, time)
}

/// The first difference of the bodies of two orders of one kind.
#[tactic(auto, unfolding(crate::specs::Difference::inner_difference))]
fn inner_difference(pdu: &PduView<'_>, other: &PduView<'_>) -> Option<PduField>
    ensures { result ≡ inner_difference (pdu_of pdu.now) (pdu_of other.now) }
{
    body_difference(pdu, other, same_order(pdu, other))
}

/// The first difference of two orders, in the order of a printed row of a PDU; `None` if they are
/// equal. Timestamps and status are ignored. It takes no memory.
#[tactic(auto, unfolding(crate::specs::Difference::order_difference))]
pub fn order_difference(pdu: &PduView<'_>, other: &PduView<'_>) -> Option<PduField>
    ensures { result ≡ order_difference (pdu_of pdu.now) (pdu_of other.now) }
{
    let body = inner_difference(pdu, other);
    let to = unless_same(pdu.target == other.target, PduField::To, body);
    let from = unless_same(pdu.origin == other.origin, PduField::From, to);
    let kind = unless_same(same_kind(pdu, other), PduField::Kind, from);
    unless_same(pdu.version == other.version, PduField::Version, kind)
}

/// The first difference of two PDUs, including timestamps and status. It takes no memory.
#[tactic(auto, unfolding(crate::specs::Difference::pdu_difference))]
pub fn pdu_difference(pdu: &PduView<'_>, other: &PduView<'_>) -> Option<PduField>
    ensures { result ≡ pdu_difference (pdu_of pdu.now) (pdu_of other.now) }
{
    let order = order_difference(pdu, other);
    let status = unless_same(pdu.status == other.status, PduField::Status, order);
    let time = unless_same(pdu.stamp == other.stamp, PduField::Time, status);
    unless_same(pdu.version == other.version, PduField::Version, time)
}
