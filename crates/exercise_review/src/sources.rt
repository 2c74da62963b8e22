//! Index of receipts by source: for each entry that sends no request, the first and the last
//! receipt, in columns by the number of the sending entry, which findings usually have at hand for
//! a receipt.

ghost use Rattle.std.specs.Prelude.{◌≡◌, ◌<◌, ◌+◌, ℕ, List, None, Some, true, length, slice_get, is_some, is_none, option_map, OnOk};
ghost use Rattle.exercise_model.specs.Account.{pair_of};
ghost use Rattle.exercise_model.specs.Held.{shown};
ghost use Rattle.exercise_model.specs.Place.{first_below};
ghost use Rattle.exercise_findings.specs.Source.{source_of};
ghost use Rattle.exercise_review.specs.declared.receipt.Receipts.{Receipts};
ghost use Rattle.exercise_review.specs.Counted.{last_below};
ghost use Rattle.exercise_review.specs.Entries.{bytes_received};
ghost use Rattle.exercise_review.specs.Heard.{gets_in};
ghost use Rattle.exercise_review.specs.Records.{entry_places};
ghost use Rattle.exercise_review.specs.Register.{key_at, AreRegistered};
ghost use Rattle.exercise_review.specs.Sourced.{AreColumns, AreSources, AreWhole, IsAnswerIn, is_unreceived};

use crate::entry_chains::{EntryChains, indexed_end};
use crate::entry_number::{NO_ENTRY, entry_of};
use crate::receipt::Receipts;
use exercise_findings::{Findings, number_at, put_number};
use exercise_model::{EntryView, ExerciseLog, Form, meaning_view};
use std::alloc::{AllocError, Global};

/// For each sending entry, the first and the last receipt of its datagram, unless that is a
/// request. A column takes no memory before its first value. `whole` is false if receipts may be
/// missing.
pub(crate) struct SourceColumns {
    first: Vec<u32>,
    last: Vec<u32>,
    whole: bool,
}

// Written by hand, so that a drop is one call and the caller does not drop each column by itself.
impl Drop for SourceColumns {
    fn drop(self) {
        let SourceColumns {
            first: _first,
            last: _last,
            whole: _whole,
        } = self;
    }
}

/// Empty columns; never complete in an open recording. Allocates no memory.
pub(crate) fn no_sources<L: ExerciseLog>(alloc: Global, log: &L) -> SourceColumns
    ensures { AreSources (L.recording log.now) 0 result }
{
    SourceColumns {
        first: Vec::new(alloc),
        last: Vec::new(alloc),
        whole: log.form() != Form::Open,
    }
}

/// Stores that a station received, at the next entry, the datagram of the entry `source`. The
/// columns become incomplete if two stations received it.
fn note_receipt_of<L: ExerciseLog>(
    sources: &mut SourceColumns,
    log: &L,
    station: u16,
    source: usize,
    entry: usize,
) -> Result<(), AllocError>
    requires within { entry < length (L.recording log.now).entries }
    requires source { source < length (L.recording log.now).entries }
    requires key { key_at (L.recording log.now) entry ≡ None }
    requires from { source_of (L.recording log.now) entry ≡ Some source }
    requires place { entry_places (L.recording log.now) entry ≡ Some station }
    requires tied { AreColumns (L.recording log.now) entry sources.old }
    ensures { OnOk result (AreSources (L.recording log.now) (entry + 1) sources.new) }
{
    let count = log.entry_count();
    match entry_of(number_at(&sources.first, NO_ENTRY, source)) {
        None => {
            put_number(&mut sources.first, NO_ENTRY, count, source, entry as u32)?;
            put_number(&mut sources.last, NO_ENTRY, count, source, entry as u32)
        }
        Some(first) if log.entry(first).station() == station => {
            put_number(&mut sources.last, NO_ENTRY, count, source, entry as u32)
        }
        Some(_) => {
            sources.whole = false;
            Ok(())
        }
    }
}

/// Stores the receipt of a datagram, which is no request, at the next entry. The columns become
/// incomplete if its source is not at hand and it has a meaning.
fn note_received<L: ExerciseLog>(
    sources: &mut SourceColumns,
    findings: &Findings<'_, L>,
    station: u16,
    bytes: &[u8],
    entry: usize,
) -> Result<(), AllocError>
    requires within { entry < length findings.now.entries }
    requires key { key_at findings.now entry ≡ None }
    requires got { bytes_received findings.now station entry ≡ Some bytes.now }
    requires tied { AreColumns findings.now entry sources.old }
    ensures { OnOk result (AreSources findings.now (entry + 1) sources.new) }
{
    let log = findings.log();
    if let Some(source) = findings.source_at_hand(entry) {
        return note_receipt_of(sources, log, station, source as usize, entry);
    }
    if meaning_view(log.exercise(), bytes).is_some() {
        sources.whole = false;
    }
    Ok(())
}

/// Stores the next entry, whose contents are `view`, if it receives a datagram that is no request.
pub(crate) fn note_source<L: ExerciseLog>(
    sources: &mut SourceColumns,
    findings: &Findings<'_, L>,
    view: EntryView<'_>,
    has_key: bool,
    entry: usize,
) -> Result<(), AllocError>
    requires within { entry < length findings.now.entries }
    requires key { has_key ≡ is_some (key_at findings.now entry) }
    requires at { slice_get findings.now.entries entry ≡ Some (shown view) }
    requires tied { AreSources findings.now entry sources.old }
    ensures { OnOk result (AreSources findings.now (entry + 1) sources.new) }
{
    if !sources.whole {
        return Ok(());
    }
    if has_key {
        return Ok(());
    }
    match view {
        EntryView::Received { station, bytes, .. } => {
            note_received(sources, findings, station, bytes, entry)
        }
        EntryView::Sent { .. } => Ok(()),
        EntryView::Told { .. } => Ok(()),
    }
}

/// Whether each entry that takes up a request was received, given the index of the entries. Only
/// entries with a key can take up a request.
fn are_all_received<L: ExerciseLog>(
    findings: &Findings<'_, L>,
    orders: &EntryChains,
    sources: &SourceColumns,
) -> bool
    requires { AreRegistered (key_at findings.now) (length findings.now.entries) orders.now }
    ensures { result ≡ is_none (first_below (is_unreceived findings.now sources.now) (length findings.now.entries)) }
{
    for entry in 0..indexed_end(orders, findings.log().entry_count()) {
        let first = entry_of(number_at(&sources.first, NO_ENTRY, entry));
        if findings.pair(entry).is_some() && first.is_none() {
            return false;
        }
    }
    true
}

/// Whether the columns are known to be complete, given the index of the entries: they have the
/// first and the last receipt of each entry that takes up a request.
pub(crate) fn are_whole<L: ExerciseLog>(
    findings: &Findings<'_, L>,
    orders: &EntryChains,
    sources: &SourceColumns,
) -> bool
    requires orders { AreRegistered (key_at findings.now) (length findings.now.entries) orders.now }
    requires sources { AreSources findings.now (length findings.now.entries) sources.now }
    ensures { result ≡ true → AreWhole findings.now sources.now }
{
    sources.whole && are_all_received(findings, orders, sources)
}

/// First and last entry at which a station received the datagram of an entry that takes up a
/// request, if it did.
pub(crate) fn receipts_from<L: ExerciseLog>(
    sources: &SourceColumns,
    log: &L,
    entry: usize,
    station: u16,
) -> Option<Receipts>
    requires { AreWhole (L.recording log.now) sources.now }
    ensures first { let r = L.recording log.now in (b : List ℕ) → IsAnswerIn r entry b → option_map (λ (x : Receipts). x.first) result ≡ first_below (gets_in r station b) (length r.entries) }
    ensures last { let r = L.recording log.now in (b : List ℕ) → IsAnswerIn r entry b → option_map (λ (x : Receipts). x.last) result ≡ last_below (gets_in r station b) (length r.entries) }
{
    let first = number_at(&sources.first, NO_ENTRY, entry);
    let last = number_at(&sources.last, NO_ENTRY, entry);
    let Some(at) = entry_of(first) else {
        return None;
    };
    if log.entry(at).station() != station {
        return None;
    }
    Some(Receipts { first, last })
}
