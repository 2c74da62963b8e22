//! Back-references, one for each entry, in one column: a sent answer refers to the request that it
//! takes up, a receipt to its send (its source).

ghost use Rattle.std.specs.Prelude.{◌≡◌, ◌≢◌, ◌<◌, ◌≤◌, ◌+◌, ℕ, length, slice_index_or, IfSome, IfNone, IfOk, OnOk, Some, None, is_some, true, unwrap_or, option_map};
ghost use Rattle.exercise_model.specs.Recording.{IsRecording};
ghost use Rattle.exercise_findings.specs.Column.{IsShortColumn};
ghost use Rattle.exercise_findings.specs.Earlier.{request_in, source_in, IsBackReference, IsBackReferenceSoFar};
ghost use Rattle.exercise_findings.specs.FirstSends.{AreFirstSends};
ghost use Rattle.exercise_findings.specs.Senders.{AreSenders};
ghost use Rattle.exercise_findings.specs.Sent.{Receives};
ghost use Rattle.exercise_findings.specs.Source.{first_source, source_of};

use crate::column::{number_at, replace};
use crate::first_sends::{FirstSends, latest_source};
use crate::number::NO_ENTRY;
use crate::senders::{SenderHints, Senders, first_source, next_source};
use exercise_model::{EntryView, ExerciseLog};
use std::alloc::AllocError;

/// Number of entry 0 as a source; every entry number is smaller.
const FIRST_SOURCE: u32 = 0x8000_0000;

/// Marks a source that has not been looked up yet.
const LATER: u32 = 0xFFFF_FFFE;

/// After this many receipts in a row without a found source, only a few are looked up during the
/// pass.
const MISSES: u32 = 16;

/// After that, one entry in this many is still looked up.
const RARE: usize = 64;

/// Statistics of the source look-ups during the pass.
#[derive(Clone, Copy)]
pub(crate) struct Looks {
    /// Receipts in a row, up to now, whose source was not found.
    pub misses: u32,
    /// Number of sources that are not found yet.
    pub later: u32,
    /// The most open sources that are all looked up right after the pass.
    pub most: u32,
}

/// The request that a number encodes, or `None`.
pub(crate) fn request_in(number: u32) -> Option<u32>
    ensures { result ≡ request_in number }
{
    if number < FIRST_SOURCE {
        Some(number)
    } else {
        None
    }
}

/// The source that a number encodes, or `None`.
pub(crate) fn source_in(number: u32) -> Option<u32>
    ensures { result ≡ source_in number }
{
    if number < FIRST_SOURCE {
        None
    } else if number < LATER {
        Some(number - FIRST_SOURCE)
    } else {
        None
    }
}

/// Number of a source, or `none`.
fn source_number(source: Option<u32>, none: u32) -> u32
    requires { IfSome source (λ s. s < 1048576) }
    ensures { result ≡ unwrap_or (option_map (λ s. s + 2147483648) source) none }
{
    match source {
        Some(source) => source + FIRST_SOURCE,
        None => none,
    }
}

/// Whether to look up the source of the next entry during the pass. A recent send is found faster
/// now than at the end; but after many misses only a few are tried, and once more than `most` are
/// open, none is, since each is then looked up on demand. The choice affects speed alone, not the
/// final result.
fn is_looked_for(looks: &Looks, entry: usize) -> bool {
    looks.later <= looks.most && (looks.misses < MISSES || entry % RARE == 0)
}

/// Counts one more source that is not found yet.
fn leave_one(looks: &mut Looks)
    ensures { looks.new.later ≢ 0 }
{
    looks.misses = looks.misses.saturating_add(1);
    looks.later = looks.later.saturating_add(1);
}

/// The entry that first sent a datagram from its originating station, if it is looked for and found
/// so far.
fn source_so_far<L: ExerciseLog>(
    sends: &mut FirstSends,
    looks: &mut Looks,
    log: &L,
    datagram: &[u8],
    entry: usize,
) -> Result<Option<u32>, AllocError>
    requires few { entry ≤ 4294967295 }
    requires tied { AreFirstSends (L.recording log.now) entry sends.old }
    ensures source { let r = L.recording log.now in IfOk result (λ found. IfSome found (λ source. first_source r datagram.now entry ≡ Some source)) }
    ensures later { IfOk result (λ found. looks.new.later ≡ 0 → (looks.old.later ≡ 0) × (is_some found ≡ true)) }
    ensures tied { OnOk result (AreFirstSends (L.recording log.now) entry sends.new) }
{
    if is_looked_for(looks, entry) {
        let source = latest_source(sends, log, datagram, entry)?;
        if source.is_some() {
            looks.misses = 0;
            return Ok(source);
        }
    }
    leave_one(looks);
    Ok(None)
}

/// Number of the source of the next entry, a receipt, or [`LATER`] if it is not found yet.
pub(crate) fn back_reference_so_far<L: ExerciseLog>(
    sends: &mut FirstSends,
    looks: &mut Looks,
    log: &L,
    entry: usize,
    datagram: &[u8],
) -> Result<u32, AllocError>
    requires limits { IsRecording (L.recording log.now) }
    requires within { entry < length (L.recording log.now).entries }
    requires receives { (s : ℕ) × Receives (L.recording log.now) entry s datagram.now }
    requires tied { AreFirstSends (L.recording log.now) entry sends.old }
    ensures so_far { IfOk result (IsBackReferenceSoFar (L.recording log.now) entry) }
    ensures later { IfOk result (λ earlier. looks.new.later ≡ 0 → (looks.old.later ≡ 0) × IsBackReference (L.recording log.now) entry earlier) }
    ensures tied { OnOk result (AreFirstSends (L.recording log.now) entry sends.new) }
{
    let source = source_so_far(sends, looks, log, datagram, entry)?;
    Ok(source_number(source, LATER))
}

/// The bytes that an entry receives, or `None` if it is no receipt.
fn received_at<L: ExerciseLog>(log: &L, entry: usize) -> Option<&[u8]>
    requires within { entry < length (L.recording log.now).entries }
    ensures some { let r = L.recording log.now in IfSome result (λ bytes. source_of r entry ≡ first_source r bytes.now (length r.entries)) }
    ensures none { let r = L.recording log.now in IfNone result (source_of r entry ≡ None) }
{
    match log.entry(entry) {
        EntryView::Received { bytes, .. } => Some(bytes),
        EntryView::Sent { .. } | EntryView::Told { .. } => None,
    }
}

/// The source of an entry, looked up when all entries are indexed.
fn source_at<L: ExerciseLog>(senders: &Senders, log: &L, entry: usize) -> Option<u32>
    requires within { entry < length (L.recording log.now).entries }
    requires senders { let r = L.recording log.now in AreSenders r (length r.entries) senders.now }
    ensures { result ≡ source_of (L.recording log.now) entry }
{
    match received_at(log, entry) {
        Some(bytes) => first_source(senders, log, bytes),
        None => None,
    }
}

/// As [`source_at`], trying the place that the hint predicts first.
fn source_by_hint<L: ExerciseLog>(
    senders: &Senders,
    hints: &mut SenderHints,
    log: &L,
    entry: usize,
) -> Option<u32>
    requires within { entry < length (L.recording log.now).entries }
    requires senders { let r = L.recording log.now in AreSenders r (length r.entries) senders.now }
    ensures { result ≡ source_of (L.recording log.now) entry }
{
    match received_at(log, entry) {
        Some(bytes) => next_source(senders, hints, log, bytes),
        None => None,
    }
}

/// The source of an entry whose number in the column is `earlier`. `senders` is the index of first
/// sends, present while sources are open.
pub(crate) fn column_source<L: ExerciseLog>(
    senders: &Option<Senders>,
    log: &L,
    entry: usize,
    earlier: u32,
) -> Option<u32>
    requires within { entry < length (L.recording log.now).entries }
    requires senders { let r = L.recording log.now in IfSome senders.now (AreSenders r (length r.entries)) }
    requires so_far { IsBackReferenceSoFar (L.recording log.now) entry earlier }
    requires found { IfNone senders.now (IsBackReference (L.recording log.now) entry earlier) }
    ensures { result ≡ source_of (L.recording log.now) entry }
{
    match senders {
        Some(senders) if earlier == LATER => source_at(senders, log, entry),
        Some(_) | None => source_in(earlier),
    }
}

/// Looks up the source of an entry if it is still open, and stores it in the column.
fn find_source<L: ExerciseLog>(
    column: &mut Vec<u32>,
    senders: &Senders,
    hints: &mut SenderHints,
    log: &L,
    entry: usize,
)
    requires limits { IsRecording (L.recording log.now) }
    requires within { entry < length (L.recording log.now).entries }
    requires senders { let r = L.recording log.now in AreSenders r (length r.entries) senders.now }
    requires so_far { let r = L.recording log.now in IsShortColumn 0xFFFFFFFF (IsBackReferenceSoFar r) (length r.entries) column.old.items }
    ensures so_far { let r = L.recording log.now in IsShortColumn 0xFFFFFFFF (IsBackReferenceSoFar r) (length r.entries) column.new.items }
    ensures here { IsBackReference (L.recording log.now) entry (slice_index_or column.new.items entry 0xFFFFFFFF) }
    ensures others { (j : ℕ) → j ≢ entry → slice_index_or column.new.items j 0xFFFFFFFF ≡ slice_index_or column.old.items j 0xFFFFFFFF }
{
    if number_at(column, NO_ENTRY, entry) == LATER {
        let source = source_number(source_by_hint(senders, hints, log, entry), NO_ENTRY);
        replace(column, entry, source);
    }
}

/// As [`find_source`], if there is an index of first sends; otherwise nothing is open.
pub(crate) fn settle_source<L: ExerciseLog>(
    senders: &Option<Senders>,
    hints: &mut SenderHints,
    column: &mut Vec<u32>,
    log: &L,
    entry: usize,
)
    requires limits { IsRecording (L.recording log.now) }
    requires within { entry < length (L.recording log.now).entries }
    requires senders { let r = L.recording log.now in IfSome senders.now (AreSenders r (length r.entries)) }
    requires so_far { let r = L.recording log.now in IsShortColumn 0xFFFFFFFF (IsBackReferenceSoFar r) (length r.entries) column.old.items }
    ensures none { IfNone senders.now (column.new ≡ column.old) }
    ensures so_far { let r = L.recording log.now in IsShortColumn 0xFFFFFFFF (IsBackReferenceSoFar r) (length r.entries) column.new.items }
{
    if let Some(senders) = senders {
        find_source(column, senders, hints, log, entry);
    }
}

/// For each entry its back-reference: an answer's request, a receipt's send. Completes the column
/// of the pass.
pub(crate) fn back_references<L: ExerciseLog>(
    senders: &Senders,
    hints: &mut SenderHints,
    log: &L,
    so_far: Vec<u32>,
) -> Vec<u32>
    requires limits { IsRecording (L.recording log.now) }
    requires senders { let r = L.recording log.now in AreSenders r (length r.entries) senders.now }
    requires so_far { let r = L.recording log.now in IsShortColumn 0xFFFFFFFF (IsBackReferenceSoFar r) (length r.entries) so_far.items }
    ensures { let r = L.recording log.now in IsShortColumn 0xFFFFFFFF (IsBackReference r) (length r.entries) result.items }
{
    let mut column = so_far;
    for entry in 0..log.entry_count() {
        find_source(&mut column, senders, hints, log, entry);
    }
    column
}
