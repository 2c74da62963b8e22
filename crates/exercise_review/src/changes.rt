//! The changes of stations, in the order of their logs.

ghost use Rattle.std.specs.Prelude.{◌≡◌, ℕ, ◌+◌, ◌<◌, [], length, slice_get, option_map, option_and_then, true, IfOk, IfSome, OnOk};
ghost use Rattle.exercise_review.specs.Span.{own_change, changes_made};
ghost use Rattle.exercise_review.specs.Course.{AreChanges};

use crate::entries::entry_in;
use exercise_findings::Findings;
use exercise_model::{Change, EntryView, ExerciseLog};
use std::alloc::{AllocError, Global};

/// A change and the entry that makes it.
#[derive(Clone, Copy)]
pub(crate) struct Made {
    /// The entry, a number from 0.
    pub entry: u32,
    pub change: Change,
}

/// The change that an entry makes, if it is a send of this station.
#[tactic(auto, unfolding(exercise_model::specs::Place::own_event, exercise_model::specs::Account::change_at))]
fn own_change<L: ExerciseLog>(
    findings: &Findings<'_, L>,
    station: u16,
    entry: usize,
) -> Option<Change>
    requires { station < length findings.now.setting.stations }
    ensures { result ≡ own_change findings.now station entry }
{
    match entry_in(findings.log(), entry) {
        Some(EntryView::Sent { station: at, .. }) if at == station => findings.change(entry),
        _ => None,
    }
}

/// The changes of a station, in order.
#[tactic(auto, using(crate::proofs::Lists::list_steps), unfolding(crate::specs::Span::changes_made))]
pub(crate) fn changes_made<L: ExerciseLog>(
    alloc: Global,
    findings: &Findings<'_, L>,
    station: u16,
) -> Result<Vec<Made>, AllocError>
    requires { station < length findings.now.setting.stations }
    ensures { IfOk result (λ changes. changes.items ≡ changes_made findings.now station) }
{
    let mut changes = Vec::new(alloc);
    for entry in 0..findings.log().entry_count() {
        if let Some(change) = own_change(findings, station, entry) {
            let entry = entry as u32;
            changes.push(Made { entry, change })?;
        }
    }
    Ok(changes)
}

/// An empty list of changes for each station.
fn no_changes(alloc: Global, stations: usize) -> Result<Vec<Vec<Made>>, AllocError>
    ensures count { IfOk result (λ all. length all.items ≡ stations) }
    ensures each { IfOk result (λ all. (s : ℕ) → IfSome (slice_get all.items s) (λ changes. changes.items ≡ [])) }
{
    let mut all = Vec::with_capacity(alloc, stations)?;
    for _done in 0..stations {
        all.push(Vec::new(alloc))?;
    }
    Ok(all)
}

/// Adds the change of the next entry, if any, to the list of its station.
fn note_change<L: ExerciseLog>(
    all: &mut Vec<Vec<Made>>,
    findings: &Findings<'_, L>,
    entry: usize,
) -> Result<(), AllocError>
    requires within { entry < length findings.now.entries }
    requires few { entry < 4294967295 }
    requires before { AreChanges findings.now entry all.old.items }
    ensures { OnOk result (AreChanges findings.now (entry + 1) all.new.items) }
{
    let Some(change) = findings.change(entry) else {
        return Ok(());
    };
    let station = usize::from(findings.log().entry(entry).station());
    let entry = entry as u32;
    all[station].push(Made { entry, change })?;
    Ok(())
}

/// The changes of each station, in order, from one pass over the entries.
pub(crate) fn changes_by_station<L: ExerciseLog>(
    alloc: Global,
    findings: &Findings<'_, L>,
) -> Result<Vec<Vec<Made>>, AllocError>
    ensures { IfOk result (λ all. AreChanges findings.now (length findings.now.entries) all.items) }
{
    let mut all = no_changes(alloc, findings.log().station_count())?;
    for entry in 0..findings.log().entry_count() {
        note_change(&mut all, findings, entry)?;
    }
    Ok(all)
}
