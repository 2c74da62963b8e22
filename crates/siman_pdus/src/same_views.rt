//! Compares views for equality. Records are compared in place, and none is copied.

ghost use Rattle.std.specs.Prelude.{◌≡◌, ◌-◌, ◌==◌, map, take, length};
ghost use Rattle.std.specs.Cmp.Lexicographic.{pointwise};
ghost use Rattle.dis_records.specs.Datum.{canonical, same_datum};
ghost use Rattle.dis_records.specs.Layout.{cleared};
ghost use Rattle.dis_records.specs.Records.{shown};
ghost use Rattle.siman_pdus.specs.DatumLists.{same_datums, same_fixed, same_ids};
ghost use Rattle.siman_pdus.specs.Reading.{body_of, datums_of, ids_of, pdu_of};
ghost use Rattle.siman_pdus.specs.Same.{is_same_order, same_body};

use crate::views::{BodyView, PduView};
use dis_records::records::{DatumIdRecords, FixedRecords, VariableRecords};
use dis_records::{DatumsView, IdsView, VariableView};

fn same_fixed_records(left: FixedRecords<'_>, mut right: FixedRecords<'_>) -> bool
    ensures { result ≡ pointwise same_fixed left.entry right.entry }
{
    for datum in left {
        match right.next() {
            Some(other) if datum == other => {}
            _ => return false,
        }
    }
    right.next().is_none()
}

fn same_id_records(left: DatumIdRecords<'_>, mut right: DatumIdRecords<'_>) -> bool
    ensures { result ≡ pointwise ◌==◌ left.entry right.entry }
{
    for id in left {
        match right.next() {
            Some(other) if id == other => {}
            _ => return false,
        }
    }
    right.next().is_none()
}

/// All bytes but the last.
fn front(bytes: &[u8]) -> &[u8]
    ensures { result.now ≡ take (length bytes.now - 1) bytes.now }
{
    &bytes[..bytes.len().saturating_sub(1)]
}

/// Whether the values of two records with an equal number of bits are equal, apart from unused
/// bits.
fn same_value(left: VariableView<'_>, right: VariableView<'_>) -> bool
    requires { left.bits ≡ right.bits }
    ensures { result ≡ pointwise ◌==◌ (cleared left.entry.bits left.entry.bytes.now) (cleared right.entry.bits right.entry.bytes.now) }
{
    left.last() == right.last() && front(left.bytes) == front(right.bytes)
}

/// Whether two records have equal datums, apart from unused bits and padding.
fn same_record(left: VariableView<'_>, right: VariableView<'_>) -> bool
    ensures { result ≡ same_datum (canonical (shown left.entry)) (canonical (shown right.entry)) }
{
    left.id == right.id && (left.bits == right.bits && same_value(left, right))
}

fn same_variable_records(left: VariableRecords<'_>, mut right: VariableRecords<'_>) -> bool
    ensures { result ≡ pointwise same_datum (map canonical left.entry) (map canonical right.entry) }
{
    for record in left {
        match right.next() {
            Some(other) if same_record(record, other) => {}
            _ => return false,
        }
    }
    right.next().is_none()
}

fn same_shown_datums(left: &DatumsView<'_>, right: &DatumsView<'_>) -> bool
    ensures { result ≡ same_datums (datums_of left.now) (datums_of right.now) }
{
    same_fixed_records(left.fixed(), right.fixed())
        && same_variable_records(left.variable(), right.variable())
}

fn same_shown_ids(left: &IdsView<'_>, right: &IdsView<'_>) -> bool
    ensures { result ≡ same_ids (ids_of left.now) (ids_of right.now) }
{
    same_id_records(left.fixed(), right.fixed())
        && same_id_records(left.variable(), right.variable())
}

/// Whether two bodies are equal, compared in place.
fn same_shown_body(left: &BodyView<'_>, right: &BodyView<'_>) -> bool
    ensures { result ≡ same_body (body_of left.now) (body_of right.now) }
{
    match (left, right) {
        (BodyView::CreateEntity { request }, BodyView::CreateEntity { request: other }) => request
            == other,
        (BodyView::RemoveEntity { request }, BodyView::RemoveEntity { request: other }) => request
            == other,
        (
            BodyView::StartResume { real, sim, request },
            BodyView::StartResume {
                real: other_real,
                sim: other_sim,
                request: other_request,
            },
        ) => real == other_real && (sim == other_sim && request == other_request),
        (
            BodyView::StopFreeze {
                real,
                reason,
                behaviour,
                request,
            },
            BodyView::StopFreeze {
                real: other_real,
                reason: other_reason,
                behaviour: other_behaviour,
                request: other_request,
            },
        ) => real == other_real
            && (reason == other_reason
                && (behaviour == other_behaviour && request == other_request)),
        (
            BodyView::Acknowledge {
                flag,
                response,
                request,
            },
            BodyView::Acknowledge {
                flag: other_flag,
                response: other_response,
                request: other_request,
            },
        ) => flag == other_flag && (response == other_response && request == other_request),
        (
            BodyView::ActionRequest {
                request,
                action,
                datums,
            },
            BodyView::ActionRequest {
                request: other_request,
                action: other_action,
                datums: other_datums,
            },
        ) => request == other_request
            && (action == other_action && same_shown_datums(datums, other_datums)),
        (
            BodyView::ActionResponse {
                request,
                result,
                datums,
            },
            BodyView::ActionResponse {
                request: other_request,
                result: other_result,
                datums: other_datums,
            },
        ) => request == other_request
            && (result == other_result && same_shown_datums(datums, other_datums)),
        (
            BodyView::DataQuery {
                request,
                interval,
                ids,
            },
            BodyView::DataQuery {
                request: other_request,
                interval: other_interval,
                ids: other_ids,
            },
        ) => request == other_request
            && (interval == other_interval && same_shown_ids(ids, other_ids)),
        (
            BodyView::SetData { request, datums },
            BodyView::SetData {
                request: other_request,
                datums: other_datums,
            },
        ) => request == other_request && same_shown_datums(datums, other_datums),
        (
            BodyView::DataPdu { request, datums },
            BodyView::DataPdu {
                request: other_request,
                datums: other_datums,
            },
        ) => request == other_request && same_shown_datums(datums, other_datums),
        (
            BodyView::EventReport { event, datums },
            BodyView::EventReport {
                event: other_event,
                datums: other_datums,
            },
        ) => event == other_event && same_shown_datums(datums, other_datums),
        (
            BodyView::Comment { datums },
            BodyView::Comment {
                datums: other_datums,
            },
        ) => same_shown_datums(datums, other_datums),
        _ => false,
    }
}

/// Whether two PDUs are equal in all but timestamp and status.
pub(crate) fn same_shown(left: &PduView<'_>, right: &PduView<'_>) -> bool
    ensures { result ≡ is_same_order (pdu_of left.now) (pdu_of right.now) }
{
    left.version == right.version
        && (left.exercise == right.exercise
            && (left.origin == right.origin
                && (left.target == right.target && same_shown_body(&left.body, &right.body))))
}
