//! Index of the first send and the first receipt of each datagram at each station, by bytes.

ghost use Rattle.std.specs.Prelude.{◌≡◌, ◌<◌, ◌+◌, ◌==◌, ◌&&◌, length, None, IfOk, OnOk, bytes_eq, Some, if◌then◌else◌};
ghost use Rattle.std.specs.Cmp.Rules.{comparing, hashing};
ghost use Rattle.indexmap.specs.IndexMap.{get};
ghost use Rattle.exercise_review.specs.Entries.{bytes_sent, bytes_received};
ghost use Rattle.exercise_chart.specs.declared.deeds.StationDatagram.{StationDatagram};
ghost use Rattle.exercise_chart.specs.Deeds.{same_deed, deed_fed, deeds_alike, first_kept, AreFirsts};
ghost use borrow.Author.Rules.{rules};

use exercise_model::{EntryView, ExerciseLog};
use indexmap::IndexMap;
use std::alloc::{AllocError, Global};
use std::hash::{BuildHasherDefault, DefaultHasher, Hash, Hasher};

/// Key of the index: a station and the borrowed bytes of a datagram.
#[derive(Clone, Copy)]
pub(crate) struct StationDatagram<'a> {
    pub station: u16,
    pub bytes: &'a [u8],
}

impl<'a> PartialEq for StationDatagram<'a> {
    ghost eq = { λ x y. (x.station == y.station) && bytes_eq x.bytes.now y.bytes.now };

    ghost laws = { Prim.search (comparing, rules) };

    fn eq(&self, other: &StationDatagram<'a>) -> bool {
        self.station == other.station && self.bytes == other.bytes
    }
}

impl<'a> Eq for StationDatagram<'a> {
    ghost laws = { Prim.search (comparing, rules) };
}

impl<'a> Hash for StationDatagram<'a> {
    ghost hash_input = { deed_fed };

    ghost respects_eq = { deeds_alike };

    fn hash<H: Hasher>(&self, state: &mut H) {
        state.write(self.bytes);
        state.write_u16(self.station);
    }
}

/// The first entry of each datagram at each station. Strangers choose the bytes, so the hasher is
/// one for which nobody can prepare colliding keys.
pub(crate) type DatagramFirsts<'a> = IndexMap<
    StationDatagram<'a>,
    usize,
    BuildHasherDefault<DefaultHasher>,
>;

/// The empty index. It takes no memory.
fn no_deeds<'a>(alloc: Global) -> DatagramFirsts<'a>
    ensures { (k : StationDatagram) → get same_deed result k ≡ None }
{
    DatagramFirsts::with_hasher(alloc, BuildHasherDefault::default())
}

/// Adds an entry under its key, unless an earlier one is there.
fn keep_first<'a>(
    firsts: &mut DatagramFirsts<'a>,
    deed: StationDatagram<'a>,
    entry: usize,
) -> Result<(), AllocError>
    ensures { OnOk result ((k : StationDatagram) → get same_deed firsts.new k ≡ (if same_deed deed.entry k then Some (first_kept entry (get same_deed firsts.old deed.entry)) else get same_deed firsts.old k)) }
{
    let first = match firsts.get(&deed) {
        Some(kept) => *kept,
        None => entry,
    };
    firsts.insert(deed, first)?;
    Ok(())
}

/// Adds the next entry, if it is a send.
fn note_sent<'a, L: ExerciseLog>(
    firsts: &mut DatagramFirsts<'a>,
    log: &'a L,
    entry: usize,
) -> Result<(), AllocError>
    requires within { entry < length (L.recording log.now).entries }
    requires tied { AreFirsts (bytes_sent (L.recording log.now)) entry firsts.old }
    ensures { OnOk result (AreFirsts (bytes_sent (L.recording log.now)) (entry + 1) firsts.new) }
{
    match log.entry(entry) {
        EntryView::Sent { station, bytes, .. } => {
            keep_first(firsts, StationDatagram { station, bytes }, entry)?;
            Ok(())
        }
        EntryView::Received { .. } => Ok(()),
        EntryView::Told { .. } => Ok(()),
    }
}

/// Adds the next entry, if it is a receipt.
fn note_got<'a, L: ExerciseLog>(
    firsts: &mut DatagramFirsts<'a>,
    log: &'a L,
    entry: usize,
) -> Result<(), AllocError>
    requires within { entry < length (L.recording log.now).entries }
    requires tied { AreFirsts (bytes_received (L.recording log.now)) entry firsts.old }
    ensures { OnOk result (AreFirsts (bytes_received (L.recording log.now)) (entry + 1) firsts.new) }
{
    match log.entry(entry) {
        EntryView::Received { station, bytes, .. } => {
            keep_first(firsts, StationDatagram { station, bytes }, entry)?;
            Ok(())
        }
        EntryView::Sent { .. } => Ok(()),
        EntryView::Told { .. } => Ok(()),
    }
}

/// Index of the first send of each datagram at each station of a log. It takes memory.
pub(crate) fn first_send_index<'a, L: ExerciseLog>(
    alloc: Global,
    log: &'a L,
) -> Result<DatagramFirsts<'a>, AllocError>
    ensures { IfOk result (AreFirsts (bytes_sent (L.recording log.now)) (length (L.recording log.now).entries)) }
{
    let mut firsts = no_deeds(alloc);
    for entry in 0..log.entry_count() {
        note_sent(&mut firsts, log, entry)?;
    }
    Ok(firsts)
}

/// Index of the first receipt of each datagram at each station of a log. It takes memory.
pub(crate) fn first_receipt_index<'a, L: ExerciseLog>(
    alloc: Global,
    log: &'a L,
) -> Result<DatagramFirsts<'a>, AllocError>
    ensures { IfOk result (AreFirsts (bytes_received (L.recording log.now)) (length (L.recording log.now).entries)) }
{
    let mut firsts = no_deeds(alloc);
    for entry in 0..log.entry_count() {
        note_got(&mut firsts, log, entry)?;
    }
    Ok(firsts)
}
