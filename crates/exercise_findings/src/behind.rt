//! The changes behind received Able Acknowledges. The pass over the log only collects the numbers
//! of the entries that may have one. When all entries are known, the key of each change is read
//! from the log again and looked up.

ghost use Rattle.std.specs.Prelude.{◌≡◌, ◌<◌, ◌+◌, length, OnOk, IfOk};
ghost use Rattle.siman_pdus.specs.Reading.{pdu_of};
ghost use Rattle.exercise_model.specs.Account.{change_behind};
ghost use Rattle.exercise_findings.specs.Column.{IsShortColumn};
ghost use Rattle.exercise_findings.specs.Number.{IsNumberOf};
ghost use Rattle.exercise_findings.specs.Firsts.{AreFirsts};
ghost use Rattle.exercise_findings.specs.Behind.{change_key, change_key_at, AreChangeKeys};

use crate::column::put_number;
use crate::firsts::{Firsts, first_near};
use crate::hint::StridePredictor;
use crate::key::{Key, acknowledged_key};
use crate::number::{NO_ENTRY, entry_number};
use crate::sender::{StationCache, sender_of};
use exercise_model::{EntryView, ExerciseLog, key_of, meaning_view, responds};
use siman_pdus::{ABLE, PduView};
use std::alloc::{AllocError, Global};

/// The look-up key of the change behind a PDU, if that is an Able Acknowledge of this sender.
pub(crate) fn change_key(sender: Option<u16>, pdu: &PduView<'_>) -> Option<Key>
    ensures { result ≡ change_key sender (pdu_of pdu.now) }
{
    if !responds(ABLE, pdu) {
        return None;
    }
    match (key_of(pdu), sender) {
        (Some(key), Some(station)) => Some(acknowledged_key(station, ABLE, &key)),
        _ => None,
    }
}

/// The look-up key of the change behind an entry, if it has one.
#[tactic(auto, unfolding(crate::specs::Behind::change_key_at))]
fn entry_change_key<L: ExerciseLog>(log: &L, places: &StationCache, entry: usize) -> Option<Key>
    requires { entry < length (L.recording log.now).entries }
    ensures { result ≡ change_key_at (L.recording log.now) entry }
{
    match log.entry(entry) {
        EntryView::Received { bytes, .. } => match meaning_view(log.exercise(), bytes) {
            Some(pdu) => change_key(sender_of(log, places, &pdu), &pdu),
            None => None,
        },
        EntryView::Sent { .. } | EntryView::Told { .. } => None,
    }
}

/// Adds the next entry to `ables` if it has a key for the change behind it.
pub(crate) fn note_change_key<L: ExerciseLog>(
    ables: &mut Vec<u32>,
    log: &L,
    entry: usize,
    behind: Option<Key>,
) -> Result<(), AllocError>
    requires few { entry < 4294967295 }
    requires within { entry < length (L.recording log.now).entries }
    requires behind { behind ≡ change_key_at (L.recording log.now) entry }
    requires tied { AreChangeKeys (L.recording log.now) entry ables.old.items }
    ensures { OnOk result (AreChangeKeys (L.recording log.now) (entry + 1) ables.new.items) }
{
    match behind {
        Some(_) => {
            ables.push(entry as u32)?;
            Ok(())
        }
        None => Ok(()),
    }
}

/// For each entry, the number of the change behind it.
pub(crate) fn changes_behind<L: ExerciseLog>(
    alloc: Global,
    log: &L,
    firsts: &Firsts,
    places: &StationCache,
    ables: &[u32],
) -> Result<Vec<u32>, AllocError>
    requires firsts { let r = L.recording log.now in AreFirsts r (length r.entries) firsts.now }
    requires ables { let r = L.recording log.now in AreChangeKeys r (length r.entries) ables.now }
    ensures { let r = L.recording log.now in IfOk result (λ changes. IsShortColumn 0xFFFFFFFF (IsNumberOf (change_behind r)) (length r.entries) changes.items) }
{
    let end = log.entry_count();
    let mut changes = Vec::new(alloc);
    let mut hint = StridePredictor::new();
    for able in ables {
        let entry = *able as usize;
        if let Some(key) = entry_change_key(log, places, entry) {
            let change = entry_number(first_near(firsts, log, &key, end, &mut hint));
            put_number(&mut changes, NO_ENTRY, end, entry, change)?;
        }
    }
    Ok(changes)
}
