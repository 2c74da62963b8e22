//! Index of the first send of each kind of PDU, by station, receiver and request identifier.

ghost use Rattle.std.specs.Prelude.{◌≡◌, ◌+◌, length, None, IfOk, OnOk};
ghost use Rattle.indexmap.specs.IndexMap.{get};
ghost use Rattle.siman_pdus.specs.Reading.{pdu_of};
ghost use Rattle.exercise_conflict.specs.declared.nears.Near.{Near};
ghost use Rattle.exercise_conflict.specs.Near.{same_near, near_key, near_at, AreNears};

use crate::receipts::{ConflictTable, keep_first};
use exercise_findings::Findings;
use exercise_model::{EntryView, ExerciseLog, meaning_view};
use siman_pdus::{Message, PduView, request_id};
use std::alloc::{AllocError, Global};
use std::hash::BuildHasherDefault;

/// Look-up key of a PDU with a request identifier that a station sends.
#[derive(Clone, Copy, PartialEq, Eq, Hash)]
pub(crate) struct Near {
    /// The station, from 0.
    pub station: u16,
    /// The number of its kind.
    pub kind: u8,
    /// The site of its receiver.
    pub site: u16,
    /// The application of its receiver.
    pub application: u16,
    /// The entity number of its receiver.
    pub entity: u16,
    /// The request identifier.
    pub request: u32,
}

/// The first entry under each key.
pub(crate) type Nears = ConflictTable<Near, usize>;

/// An empty index. It takes no memory.
fn no_nears(alloc: Global) -> Nears
    ensures { (k : Near) → get same_near result k ≡ None }
{
    Nears::with_hasher(alloc, BuildHasherDefault::default())
}

/// Look-up key of a PDU that a station sends, if it has a request identifier.
pub(crate) fn near_key(station: u16, pdu: &PduView<'_>) -> Option<Near>
    ensures { result ≡ near_key station (pdu_of pdu.now) }
{
    match request_id(pdu) {
        Some(request) => Some(Near {
            station,
            kind: pdu.kind().code(),
            site: pdu.target.site,
            application: pdu.target.application,
            entity: pdu.target.entity,
            request,
        }),
        None => None,
    }
}

/// Look-up key of an entry, if it sends a PDU with a request identifier.
#[tactic(auto, unfolding(crate::specs::Near::near_at))]
fn near_at<L: ExerciseLog>(findings: &Findings<'_, L>, entry: usize) -> Option<Near>
    ensures { result ≡ near_at findings.now entry }
{
    let log = findings.log();
    if entry >= log.entry_count() {
        return None;
    }
    match log.entry(entry) {
        EntryView::Sent { station, bytes, .. } => match meaning_view(log.exercise(), bytes) {
            Some(pdu) => near_key(station, &pdu),
            None => None,
        },
        EntryView::Received { .. } | EntryView::Told { .. } => None,
    }
}

/// Adds the next entry.
fn note_near<L: ExerciseLog>(
    nears: &mut Nears,
    findings: &Findings<'_, L>,
    entry: usize,
) -> Result<(), AllocError>
    requires { AreNears findings.now entry nears.old }
    ensures { OnOk result (AreNears findings.now (entry + 1) nears.new) }
{
    if let Some(near) = near_at(findings, entry) {
        keep_first(nears, near, entry)?;
    }
    Ok(())
}

/// The index of all entries of a recording.
pub(crate) fn nears_of<L: ExerciseLog>(
    alloc: Global,
    findings: &Findings<'_, L>,
) -> Result<Nears, AllocError>
    ensures { IfOk result (λ nears. AreNears findings.now (length findings.now.entries) nears) }
{
    let mut nears = no_nears(alloc);
    for entry in 0..findings.log().entry_count() {
        note_near(&mut nears, findings, entry)?;
    }
    Ok(nears)
}

/// The first entry under a key.
pub(crate) fn first_near(nears: &Nears, near: Near) -> Option<usize>
    ensures { result ≡ get same_near nears.now near }
{
    match nears.get(&near) {
        Some(entry) => Some(*entry),
        None => None,
    }
}
