//! The first send of each datagram by its originating station, collected during the pass. Most
//! look-ups are for the latest send, and most sends are known to be new from their request or
//! answer. So first sends are listed in order, and hashed only when an entry has to be looked up
//! among all.

ghost use Rattle.std.specs.Prelude.{◌≡◌, ◌<◌, ◌≤◌, ◌+◌, ℕ, List, true, Some, None, length, IfOk, OnOk, IfSome};
ghost use Rattle.exercise_model.specs.Recording.{PlainRecording};
ghost use Rattle.exercise_findings.specs.FirstSends.{AreFirstSends};
ghost use Rattle.exercise_findings.specs.Hashed.{datagram_hash};
ghost use Rattle.exercise_findings.specs.Senders.{AreSenders};
ghost use Rattle.exercise_findings.specs.Sent.{Sends};
ghost use Rattle.exercise_findings.specs.Slots.{IsPut};
ghost use Rattle.exercise_findings.specs.Source.{is_source, source_at, first_source};

use crate::kept::{Kept, append_entry, empty_table, kept_at};
use crate::senders::{Sending, datagram_hash, first_hashed, first_source};
use crate::slots::{Slots, keep};
use exercise_model::{EntryView, ExerciseLog};
use std::alloc::{AllocError, Global};

/// The first send of each datagram so far.
#[derive(Drop)]
pub(crate) struct FirstSends {
    /// The entries in order; the first `hashed` of them are also in the hash slots.
    pub kept: Kept,
    /// How many of the entries are in the hash slots.
    pub hashed: usize,
}

/// No first sends, for a log of this many entries. It takes no memory.
pub(crate) fn no_sends(alloc: Global, entries: usize) -> FirstSends
    ensures { (r : PlainRecording) → AreFirstSends r 0 result }
{
    FirstSends {
        kept: empty_table(alloc, entries),
        hashed: 0,
    }
}

/// Adds a first send to the hash slots, under the hash of its bytes.
fn hash_source<L: ExerciseLog>(slots: &mut Slots, log: &L, entry: u32) -> Result<(), AllocError>
    requires few { entry < 4294967295 }
    requires source { source_at (L.recording log.now) entry ≡ true }
    ensures { let r = L.recording log.now in OnOk result ((b : List ℕ) → is_source r b entry ≡ true → IsPut (datagram_hash b) entry slots.old.slots slots.new.slots) }
{
    match log.entry(entry as usize) {
        EntryView::Sent { bytes, .. } => keep(slots, datagram_hash(bytes), entry),
        EntryView::Received { .. } | EntryView::Told { .. } => Ok(()),
    }
}

/// Adds the next unhashed send before an entry to the hash slots.
fn hash_next<L: ExerciseLog>(
    sends: &mut FirstSends,
    log: &L,
    before: usize,
) -> Result<(), AllocError>
    requires few { before ≤ 4294967295 }
    requires next { sends.old.hashed < length sends.old.kept.order.items }
    requires tied { AreFirstSends (L.recording log.now) before sends.old }
    ensures tied { OnOk result (AreFirstSends (L.recording log.now) before sends.new) }
    ensures order { OnOk result (sends.new.kept.order ≡ sends.old.kept.order) }
    ensures one { OnOk result (sends.new.hashed ≡ sends.old.hashed + 1) }
{
    let _before = before;
    let entry = sends.kept.order[sends.hashed];
    hash_source(&mut sends.kept.slots, log, entry)?;
    sends.hashed += 1;
    Ok(())
}

/// Adds all sends before an entry to the hash slots.
pub(crate) fn hash_all<L: ExerciseLog>(
    sends: &mut FirstSends,
    log: &L,
    before: usize,
) -> Result<(), AllocError>
    requires few { before ≤ 4294967295 }
    requires tied { AreFirstSends (L.recording log.now) before sends.old }
    ensures tied { OnOk result (AreFirstSends (L.recording log.now) before sends.new) }
    ensures senders { OnOk result (AreSenders (L.recording log.now) before sends.new.kept) }
    ensures all { OnOk result (sends.new.hashed ≡ length sends.new.kept.order.items) }
{
    for _place in sends.hashed..sends.kept.order.len() {
        hash_next(sends, log, before)?;
    }
    Ok(())
}

/// The first entry before `before` that sends these bytes from their originating station, looked up
/// among all.
fn source_among<L: ExerciseLog>(
    sends: &mut FirstSends,
    log: &L,
    datagram: &[u8],
    before: usize,
) -> Result<Option<u32>, AllocError>
    requires few { before ≤ 4294967295 }
    requires tied { AreFirstSends (L.recording log.now) before sends.old }
    ensures source { IfOk result (λ source. source ≡ first_source (L.recording log.now) datagram.now before) }
    ensures tied { OnOk result (AreFirstSends (L.recording log.now) before sends.new) }
{
    hash_all(sends, log, before)?;
    Ok(first_source(&sends.kept, log, datagram))
}

/// The entry at a place of the order, if it sends these bytes.
fn source_at_place<L: ExerciseLog>(
    sends: &FirstSends,
    log: &L,
    place: usize,
    datagram: &[u8],
    before: usize,
) -> Option<u32>
    requires { AreFirstSends (L.recording log.now) before sends.now }
    ensures { IfSome result (λ source. first_source (L.recording log.now) datagram.now before ≡ Some source) }
{
    let _before = before;
    kept_at(&sends.kept, place, &Sending { log, datagram })
}

/// As [`source_among`], but tries the latest send first: if that matches, nothing is hashed.
pub(crate) fn latest_source<L: ExerciseLog>(
    sends: &mut FirstSends,
    log: &L,
    datagram: &[u8],
    before: usize,
) -> Result<Option<u32>, AllocError>
    requires few { before ≤ 4294967295 }
    requires tied { AreFirstSends (L.recording log.now) before sends.old }
    ensures source { IfOk result (λ source. source ≡ first_source (L.recording log.now) datagram.now before) }
    ensures tied { OnOk result (AreFirstSends (L.recording log.now) before sends.new) }
{
    let last = sends.kept.order.len().saturating_sub(1);
    match source_at_place(sends, log, last, datagram, before) {
        Some(source) => Ok(Some(source)),
        None => source_among(sends, log, datagram, before),
    }
}

/// Appends the next entry, which is known to be the first send of its bytes.
fn append_new_send<L: ExerciseLog>(
    sends: &mut FirstSends,
    log: &L,
    entry: usize,
    datagram: &[u8],
) -> Result<(), AllocError>
    requires few { entry < 4294967295 }
    requires sends { (s : ℕ) × Sends (L.recording log.now) entry s datagram.now }
    requires source { source_at (L.recording log.now) entry ≡ true }
    requires new { first_source (L.recording log.now) datagram.now entry ≡ None }
    requires tied { AreFirstSends (L.recording log.now) entry sends.old }
    ensures { OnOk result (AreFirstSends (L.recording log.now) (entry + 1) sends.new) }
{
    let (_log, _datagram) = (log, datagram);
    sends.kept.order.push(entry as u32)?;
    Ok(())
}

/// Appends the next entry if it is the first send of its bytes, which is looked up among all.
fn append_if_new<L: ExerciseLog>(
    sends: &mut FirstSends,
    log: &L,
    entry: usize,
    datagram: &[u8],
) -> Result<(), AllocError>
    requires few { entry < 4294967295 }
    requires sends { (s : ℕ) × Sends (L.recording log.now) entry s datagram.now }
    requires source { source_at (L.recording log.now) entry ≡ true }
    requires tied { AreFirstSends (L.recording log.now) entry sends.old }
    ensures { OnOk result (AreFirstSends (L.recording log.now) (entry + 1) sends.new) }
{
    hash_all(sends, log, entry)?;
    let hash = datagram_hash(datagram);
    match first_hashed(&sends.kept, log, hash, datagram) {
        Some(_) => Ok(()),
        None => {
            append_entry(&mut sends.kept, hash, entry as u32)?;
            sends.hashed += 1;
            Ok(())
        }
    }
}

/// Records what a station sends by the next entry, if the datagram originates from that station
/// (`is_source`). `is_new`: whether it is known to be the first send of its bytes.
pub(crate) fn note_send<L: ExerciseLog>(
    sends: &mut FirstSends,
    log: &L,
    entry: usize,
    bytes: &[u8],
    is_source: bool,
    is_new: bool,
) -> Result<(), AllocError>
    requires few { entry < 4294967295 }
    requires sends { (s : ℕ) × Sends (L.recording log.now) entry s bytes.now }
    requires source { is_source ≡ source_at (L.recording log.now) entry }
    requires new { is_new ≡ true → source_at (L.recording log.now) entry ≡ true → first_source (L.recording log.now) bytes.now entry ≡ None }
    requires tied { AreFirstSends (L.recording log.now) entry sends.old }
    ensures { OnOk result (AreFirstSends (L.recording log.now) (entry + 1) sends.new) }
{
    if !is_source {
        Ok(())
    } else if is_new {
        append_new_send(sends, log, entry, bytes)
    } else {
        append_if_new(sends, log, entry, bytes)
    }
}
