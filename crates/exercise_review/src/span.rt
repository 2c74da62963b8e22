//! The spans of the lives of a recording's entities.

ghost use Rattle.std.specs.Prelude.{◌≡◌, ◌<◌, length, map, option_map, option_and_then, IfOk};
ghost use Rattle.dis_records.specs.Entity.{site_application_of};
ghost use Rattle.siman_pdus.specs.Role.{request_id_of};
ghost use Rattle.siman_pdus.specs.declared.pdu.Pdu.{Pdu};
ghost use Rattle.exercise_review.specs.Outcome.{stamp_at};
ghost use Rattle.exercise_review.specs.Room.{MakesWithin};
ghost use Rattle.exercise_review.specs.Span.{request_behind, spans_of};
ghost use Rattle.exercise_review.specs.Stay.{span_at};

use crate::entries::pdu_in_log;
use crate::entry_number::entry_of;
use crate::fault::ReviewFault;
use crate::outcome::stamp_in;
use crate::parties::parts_at;
use crate::register::Register;
use crate::stay::Stay;
use crate::stays::stays_of;
use dis_records::{EntityId, EntityState, SiteApplication};
use exercise_findings::Findings;
use exercise_model::ExerciseLog;
use siman_pdus::request_id;
use std::alloc::{AllocError, Global};

/// A span of an entity's life, in which it had one state other than Absent. Entries are numbers
/// from 0; stamps are those of the clock of the entity's station.
#[derive(Clone, Copy, PartialEq, Eq)]
pub struct Span {
    /// The entity, with the address of its station.
    pub entity: EntityId,
    /// The state, Stopped or Running.
    pub state: EntityState,
    /// The entry of the change that began it; `None` if it lasts from the start.
    pub from: Option<usize>,
    /// The entry of the change that ended it; `None` if it lasts to the end.
    pub to: Option<usize>,
    /// The stamp of the entry that began it.
    pub since: Option<u64>,
    /// The stamp of the entry that ended it.
    pub until: Option<u64>,
    /// The sender of the request for the change that began it.
    pub by: Option<SiteApplication>,
    /// The identifier of that request.
    pub request: Option<u32>,
}

/// The sender and the identifier of the request that an optional entry takes up. The answer has
/// that sender as its target and that identifier, so the request is not read.
fn asked_behind<L: ExerciseLog>(
    findings: &Findings<'_, L>,
    entry: Option<usize>,
) -> (Option<SiteApplication>, Option<u32>)
    ensures by { result.0 ≡ option_map (λ (q : Pdu). site_application_of q.origin) (option_and_then (request_behind findings.now) entry) }
    ensures request { result.1 ≡ option_and_then (λ (q : Pdu). request_id_of q.body) (option_and_then (request_behind findings.now) entry) }
{
    let Some(entry) = entry else {
        return (None, None);
    };
    match findings.pair(entry) {
        Some(_) => match pdu_in_log(findings.log(), entry) {
            Some(answer) => (Some(answer.target.site_application()), request_id(&answer)),
            None => (None, None),
        },
        None => (None, None),
    }
}

/// Stamp of an optional entry.
fn stamp_if<L: ExerciseLog>(log: &L, entry: Option<usize>) -> Option<u64>
    ensures { result ≡ option_and_then (stamp_at (L.recording log.now)) entry }
{
    match entry {
        Some(entry) => stamp_in(log, entry),
        None => None,
    }
}

/// A span of an entity's life, read from its compact form. Allocates no memory.
pub(crate) fn span_at<L: ExerciseLog>(findings: &Findings<'_, L>, stay: Stay) -> Span
    ensures { result ≡ span_at findings.now stay }
{
    let log = findings.log();
    let (from, to) = (entry_of(stay.from), entry_of(stay.until));
    let (by, request) = asked_behind(findings, from);
    Span {
        entity: parts_at(log, stay.station).entity(stay.entity),
        state: stay.state,
        from,
        to,
        since: stamp_if(log, from),
        until: stamp_if(log, to),
        by,
        request,
    }
}

/// The spans with these compact forms.
fn told<L: ExerciseLog>(
    alloc: Global,
    findings: &Findings<'_, L>,
    stays: &[Stay],
) -> Result<Vec<Span>, AllocError>
    ensures { IfOk result (λ spans. spans.items ≡ map (span_at findings.now) stays.now) }
{
    let mut spans = Vec::with_capacity(alloc, stays.len())?;
    for stay in stays {
        spans.push(span_at(findings, *stay))?;
    }
    Ok(spans)
}

/// The spans of the lives of a station's entities, by entity and time; `OverLimit` if there are
/// more than `most`.
pub fn spans_of<L: ExerciseLog>(
    alloc: Global,
    findings: &Register<'_, L>,
    station: u16,
    most: usize,
) -> Result<Vec<Span>, ReviewFault>
    requires { station < length findings.now.setting.stations }
    ensures { MakesWithin most (spans_of findings.now station) result }
{
    let findings = findings.findings();
    let stays = stays_of(alloc, findings, station, most)?;
    let spans = told(alloc, findings, &stays)?;
    Ok(spans)
}
