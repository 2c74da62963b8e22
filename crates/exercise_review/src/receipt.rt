//! Index of receipts by station and bytes: the first and the last receipt of each datagram at each
//! station.

ghost use Rattle.std.specs.Prelude.{◌≡◌, ◌<◌, ◌+◌, ◌==◌, ◌&&◌, length, None, OnOk, IfSome, is_some, slice_get, bytes_eq, Some, if◌then◌else◌};
ghost use Rattle.std.specs.Cmp.Rules.{comparing, hashing};
ghost use Rattle.indexmap.specs.IndexMap.{get};
ghost use Rattle.exercise_review.specs.declared.receipt.Receipt.{Receipt};
ghost use Rattle.exercise_review.specs.Heard.{same_receipt, receipt_fed, receipts_alike, first_kept, IsReceiptIndex};
ghost use Rattle.exercise_model.specs.Held.{shown};
ghost use Rattle.exercise_review.specs.Register.{key_at};
ghost use borrow.Author.Rules.{rules};

use exercise_findings::StridePredictor;
use exercise_model::{EntryView, ExerciseLog, Form};
use indexmap::IndexMap;
use std::alloc::{AllocError, Global};
use std::hash::{BuildHasherDefault, DefaultHasher, Hash, Hasher};

/// A station and the bytes of a datagram, borrowed, as a key.
#[derive(Clone, Copy)]
pub(crate) struct Receipt<'a> {
    pub station: u16,
    pub bytes: &'a [u8],
}

impl<'a> PartialEq for Receipt<'a> {
    ghost eq = { λ x y. (x.station == y.station) && bytes_eq x.bytes.now y.bytes.now };

    ghost laws = { Prim.search (comparing, rules) };

    fn eq(&self, other: &Receipt<'a>) -> bool {
        self.station == other.station && self.bytes == other.bytes
    }
}

impl<'a> Eq for Receipt<'a> {
    ghost laws = { Prim.search (comparing, rules) };
}

impl<'a> Hash for Receipt<'a> {
    ghost hash_input = { receipt_fed };

    ghost respects_eq = { receipts_alike };

    fn hash<H: Hasher>(&self, state: &mut H) {
        state.write(self.bytes);
        state.write_u16(self.station);
    }
}

/// First and last entry at which a station received a datagram, as numbers of 32 bits.
#[derive(Clone, Copy)]
pub(crate) struct Receipts {
    pub first: u32,
    pub last: u32,
}

/// Index of the receipts of each datagram at each station. Strangers choose the bytes, so the
/// hasher is one for which nobody can construct many collisions.
pub(crate) type Heard<'a> = IndexMap<Receipt<'a>, Receipts, BuildHasherDefault<DefaultHasher>>;

/// Empty index. Allocates no memory.
pub(crate) fn no_receipts<'a>(alloc: Global) -> Heard<'a>
    ensures { (k : Receipt) → get same_receipt result k ≡ None }
{
    Heard::with_hasher(alloc, BuildHasherDefault::default())
}

/// Adds one receipt.
fn keep_receipt<'a>(
    heard: &mut Heard<'a>,
    receipt: Receipt<'a>,
    entry: u32,
) -> Result<(), AllocError>
    ensures { OnOk result ((k : Receipt) → get same_receipt heard.new k ≡ (if same_receipt receipt.entry k then Some (record { first = first_kept entry (get same_receipt heard.old receipt.entry); last = entry }) else get same_receipt heard.old k)) }
{
    let only = Receipts {
        first: entry,
        last: entry,
    };
    let kept = heard.entry(receipt)?.or_insert(only);
    kept.last = entry;
    Ok(())
}

/// Adds the next entry, whose contents are `view`, if it receives a datagram. In a recording that
/// is not open, a received datagram with a key is a request; it is left out, since nothing looks it
/// up.
pub(crate) fn note_receipt<'a, L: ExerciseLog>(
    heard: &mut Heard<'a>,
    log: &'a L,
    view: EntryView<'a>,
    has_key: bool,
    entry: usize,
) -> Result<(), AllocError>
    requires within { entry < length (L.recording log.now).entries }
    requires key { has_key ≡ is_some (key_at (L.recording log.now) entry) }
    requires at { slice_get (L.recording log.now).entries entry ≡ Some (shown view) }
    requires tied { IsReceiptIndex (L.recording log.now) entry heard.old }
    ensures { OnOk result (IsReceiptIndex (L.recording log.now) (entry + 1) heard.new) }
{
    let _end = log.entry_count();
    if log.form() != Form::Open && has_key {
        return Ok(());
    }
    match view {
        EntryView::Received { station, bytes, .. } => {
            keep_receipt(heard, Receipt { station, bytes }, entry as u32)?;
            Ok(())
        }
        EntryView::Sent { .. } => Ok(()),
        EntryView::Told { .. } => Ok(()),
    }
}

/// The receipts of a datagram, if they are at this place of the table.
fn receipts_at(heard: &Heard<'_>, place: usize, receipt: Receipt<'_>) -> Option<Receipts>
    ensures { IfSome result (λ x. get same_receipt heard.now receipt.entry ≡ Some x) }
{
    match heard.get_index(place) {
        Some((kept, receipts)) if *kept == receipt => Some(*receipts),
        _ => None,
    }
}

/// The receipts of a datagram at a station, if it was received there. Tries the place of a hint
/// first, since most look-ups follow the order of the receipts.
pub(crate) fn receipts_near(
    heard: &Heard<'_>,
    receipt: Receipt<'_>,
    hint: &mut StridePredictor,
) -> Option<Receipts>
    ensures { result ≡ get same_receipt heard.now receipt.entry }
{
    let place = hint.next();
    if let Some(receipts) = receipts_at(heard, place, receipt) {
        hint.found(place);
        return Some(receipts);
    }
    match heard.get_full(&receipt) {
        Some((place, _, receipts)) => {
            hint.found(place);
            Some(*receipts)
        }
        None => None,
    }
}
