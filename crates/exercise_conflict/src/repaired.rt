//! A recording with the sends that its logs lack, as a log that borrows its entries.

ghost use Rattle.std.specs.Prelude.{◌≡◌, ◌∷◌, ◌++◌, [], ◌==◌, ℕ, map, filter, length, true, false, IfOk, IfSome, IfNone, OnOk, if◌then◌else◌};
ghost use Rattle.exercise_model.specs.Held.{shown};
ghost use Rattle.exercise_model.specs.Recording.{IsRecording};
ghost use Rattle.exercise_conflict.specs.Lacks.{missing_sends};
ghost use Rattle.exercise_conflict.specs.Repair.{bytes_of, entry_or_send, slot_entry, kept, made, is_first, is_after, slots_below, slots_after, slots_recording, repaired, is_too_long, AreSlots};

use crate::lacks::{MissingSend, missing_sends};
use exercise_findings::Findings;
use exercise_model::{EntryView, ExerciseLog, Form, MOST_ENTRIES, Station};
use indexmap::IndexMap;
use std::alloc::{AllocError, Global};
use std::marker::Model;

/// One entry of a repaired log.
#[derive(Clone, Copy)]
pub(crate) struct RepairedEntry {
    /// The original entry, or the one whose datagram is sent.
    pub entry: usize,
    /// The station that sends the datagram; `None` for an original entry.
    pub sender: Option<u16>,
}

/// The sends that belong right after each entry.
type MissingSends = IndexMap<usize, Vec<RepairedEntry>>;

/// The datagram of an entry; empty for a told state.
fn bytes_of<'a>(entry: EntryView<'a>) -> &'a [u8]
    ensures { result.now ≡ bytes_of (shown entry.entry) }
{
    match entry {
        EntryView::Sent { bytes, .. } | EntryView::Received { bytes, .. } => bytes,
        EntryView::Told { .. } => &[],
    }
}

/// An entry unchanged, or the send of its datagram by a station.
fn entry_or_send<'a>(entry: EntryView<'a>, sender: Option<u16>) -> EntryView<'a>
    ensures { shown result ≡ entry_or_send (shown entry.entry) sender }
{
    match sender {
        Some(station) => EntryView::Sent {
            station,
            stamp: 0,
            bytes: bytes_of(entry),
        },
        None => entry,
    }
}

/// The slot of a missing send.
fn made(lack: MissingSend) -> RepairedEntry
    ensures { result ≡ made lack }
{
    RepairedEntry {
        entry: lack.entry,
        sender: Some(lack.missing.sender),
    }
}

/// Appends a missing send if it belongs at the start of its log.
fn push_first(slots: &mut Vec<RepairedEntry>, lack: MissingSend) -> Result<(), AllocError>
    ensures { OnOk result (slots.new.items ≡ slots.old.items ++ map made (filter is_first (lack ∷ []))) }
{
    if lack.missing.after.is_none() {
        slots.push(made(lack))?;
    }
    Ok(())
}

/// The missing sends that belong at the starts of their logs.
fn slots_first(alloc: Global, lacks: &[MissingSend]) -> Result<Vec<RepairedEntry>, AllocError>
    ensures { IfOk result (λ slots. slots.items ≡ map made (filter is_first lacks.now)) }
{
    let mut slots = Vec::new(alloc);
    for lack in lacks {
        push_first(&mut slots, *lack)?;
    }
    Ok(slots)
}

/// No sends. It takes no memory.
#[tactic(auto, unfolding(crate::specs::Repair::slots_after))]
fn no_places(alloc: Global) -> MissingSends
    ensures { (p : ℕ) → slots_after result p ≡ [] }
{
    MissingSends::new(alloc)
}

/// Appends a send to those right after an entry.
fn put(
    alloc: Global,
    places: &mut MissingSends,
    entry: usize,
    slot: RepairedEntry,
) -> Result<(), AllocError>
    ensures { OnOk result ((p : ℕ) → slots_after places.new p ≡ slots_after places.old p ++ (if entry == p then slot ∷ [] else [])) }
{
    places.entry(entry)?.or_insert(Vec::new(alloc)).push(slot)?;
    Ok(())
}

/// Adds a missing send if it belongs right after an entry.
fn put_after(alloc: Global, places: &mut MissingSends, lack: MissingSend) -> Result<(), AllocError>
    ensures { OnOk result ((p : ℕ) → slots_after places.new p ≡ slots_after places.old p ++ map made (filter (is_after p) (lack ∷ []))) }
{
    if let Some(after) = lack.missing.after {
        put(alloc, places, after, made(lack))?;
    }
    Ok(())
}

/// The missing sends that belong right after each entry.
fn places_of(alloc: Global, lacks: &[MissingSend]) -> Result<MissingSends, AllocError>
    ensures { IfOk result (λ places. (p : ℕ) → slots_after places p ≡ map made (filter (is_after p) lacks.now)) }
{
    let mut places = no_places(alloc);
    for lack in lacks {
        put_after(alloc, &mut places, *lack)?;
    }
    Ok(places)
}

/// Appends an entry and the sends that belong right after it.
#[tactic(auto, unfolding(crate::specs::Repair::slots_after))]
fn add_entry(
    slots: &mut Vec<RepairedEntry>,
    places: &MissingSends,
    entry: usize,
) -> Result<(), AllocError>
    ensures { OnOk result (slots.new.items ≡ slots.old.items ++ kept entry ∷ slots_after places.now entry) }
{
    slots.push(RepairedEntry {
        entry,
        sender: None,
    })?;
    if let Some(more) = places.get(&entry) {
        slots.extend_from_slice(more.as_slice())?;
    }
    Ok(())
}

/// The slots of a repaired log: this number of entries, and the missing sends.
fn slots_of(
    alloc: Global,
    lacks: &[MissingSend],
    entries: usize,
) -> Result<Vec<RepairedEntry>, AllocError>
    ensures { IfOk result (λ slots. slots.items ≡ slots_below lacks.now entries) }
{
    let places = places_of(alloc, lacks)?;
    let mut slots = slots_first(alloc, lacks)?;
    for entry in 0..entries {
        add_entry(&mut slots, &places, entry)?;
    }
    Ok(slots)
}

/// A log with the sends that it lacks, each at its place: right after the request that it takes up,
/// else at the start of its station's log. It borrows its entries from the original log.
#[derive(Drop)]
pub struct RepairedLog<'a, L: ExerciseLog> {
    log: &'a L,
    slots: Vec<RepairedEntry>,
}

impl<'a, L: ExerciseLog> Model for RepairedLog<'a, L> {
    ghost use Rattle.exercise_model.specs.Recording.{PlainRecording};
    ghost use Rattle.exercise_conflict.specs.Repair.{slots_recording, AreSlots};

    ghost Value = { PlainRecording };

    ghost view = { λ x. slots_recording (L.recording x.log.now) x.slots.items };

    ghost invariant = { λ x. AreSlots (L.recording x.log.now) x.slots.items };
}

impl<'a, L: ExerciseLog> RepairedLog<'a, L> {
    /// The repaired log, or `None` if it would have more than 1,048,576 entries.
    pub fn of(
        alloc: Global,
        findings: &Findings<'a, L>,
    ) -> Result<Option<RepairedLog<'a, L>>, AllocError>
        ensures repaired { IfOk result (λ found. IfSome found (λ log. log ≡ repaired findings.now)) }
        ensures limits { IfOk result (λ found. IfSome found IsRecording) }
        ensures fits { IfOk result (λ found. IfSome found (λ log. is_too_long findings.now ≡ false)) }
        ensures long { IfOk result (λ found. IfNone found (is_too_long findings.now ≡ true)) }
    {
        let lacks = missing_sends(alloc, findings)?;
        RepairedLog::with(alloc, findings, &lacks)
    }

    /// The repaired log, given all missing sends.
    #[tactic(auto, unfolding(crate::specs::Repair::repaired, crate::specs::Repair::is_too_long))]
    pub(crate) fn with(
        alloc: Global,
        findings: &Findings<'a, L>,
        lacks: &[MissingSend],
    ) -> Result<Option<RepairedLog<'a, L>>, AllocError>
        requires { lacks.now ≡ missing_sends findings.now }
        ensures repaired { IfOk result (λ found. IfSome found (λ log. log ≡ repaired findings.now)) }
        ensures limits { IfOk result (λ found. IfSome found IsRecording) }
        ensures fits { IfOk result (λ found. IfSome found (λ log. is_too_long findings.now ≡ false)) }
        ensures long { IfOk result (λ found. IfNone found (is_too_long findings.now ≡ true)) }
    {
        let log = findings.log();
        let slots = slots_of(alloc, lacks, log.entry_count())?;
        if slots.len() > MOST_ENTRIES {
            return Ok(None);
        }
        Ok(Some(RepairedLog { log, slots }))
    }
}

impl<L: ExerciseLog> ExerciseLog for RepairedLog<'_, L> {
    ghost recording = { λ r. r };

    fn form(&self) -> Form {
        self.log.form()
    }

    fn exercise(&self) -> u8 {
        self.log.exercise()
    }

    fn station_count(&self) -> usize {
        self.log.station_count()
    }

    fn station(&self, index: usize) -> &Station {
        self.log.station(index)
    }

    fn entry_count(&self) -> usize {
        self.slots.len()
    }

    fn entry(&self, index: usize) -> EntryView<'_> {
        let slot = self.slots[index];
        entry_or_send(self.log.entry(slot.entry), slot.sender)
    }
}
