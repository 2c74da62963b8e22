//! One pass over a recording that finds all [`crate::Findings`].

ghost use Rattle.std.specs.Prelude.{◌≡◌, ◌<◌, ◌+◌, ◌||◌, length, slice_get, Some, OnOk, IfOk, if◌then◌else◌};
ghost use Rattle.exercise_model.specs.Entry.{Told};
ghost use Rattle.exercise_model.specs.Recording.{IsRecording};
ghost use Rattle.exercise_findings.specs.Requests.{AreRequests};
ghost use Rattle.exercise_findings.specs.HighWaterMarks.{AreHighWaterMarks};
ghost use Rattle.exercise_findings.specs.Senders.{AreSenders};
ghost use Rattle.exercise_findings.specs.Sent.{Sends, Receives};
ghost use Rattle.exercise_findings.specs.Tables.{IsPass, AreFound, AreFindings};

use crate::answered::{Answered, no_answer_marks, note_answer};
use crate::behind::note_change_key;
use crate::cause::judge_told;
use crate::change_number::{NO_CHANGE, change_number};
use crate::column::put_number;
use crate::earlier::{Looks, back_reference_so_far, back_references, settle_source};
use crate::first_sends::{FirstSends, hash_all, no_sends, note_send};
use crate::firsts::{BaseCache, empty_base_cache};
use crate::found::{SendCaches, StationEntry, no_send_caches, receipt_findings, send_findings};
use crate::number::{NO_ENTRY, entry_number};
use crate::requests::{Requests, no_requests};
use crate::rising::{HighWaterMarks, no_high_water_marks};
use crate::sender::{StationCache, places_of};
use crate::senders::{SenderHints, Senders, no_hints};
use crate::tables::{Tables, no_tables, note_entry_key, note_entry_tables};
use dis_records::EntityState;
use exercise_model::{Cause, EntryView, ExerciseLog};
use std::alloc::{AllocError, Global};

/// More than one open source in this many entries are many.
const MANY: usize = 16;

/// State of the pass.
#[derive(Drop)]
pub(crate) struct Pass {
    /// Cache of station indices by address.
    pub places: StationCache,
    /// Look-up tables of the entries so far.
    pub tables: Tables,
    /// Caches for the next send.
    pub sent: SendCaches,
    /// The last key of a receipt, with its hash base.
    pub received: BaseCache,
    /// The first cause that its station's log shows against each entry.
    pub causes: Vec<Option<Cause>>,
    /// For each entry, the number of the change that it makes at its station.
    pub changes: Vec<u32>,
    /// For each entry its back-reference: a sent answer's request, a receipt's source if it is
    /// found.
    pub earlier: Vec<u32>,
    /// Statistics of the source look-ups.
    pub looks: Looks,
    /// The entries that received an Able with a key for the change behind it.
    pub ables: Vec<u32>,
    /// Marks of the requests taken up so far.
    pub answered: Answered,
    /// The first send of each datagram by its originating station.
    pub sends: FirstSends,
    /// Number of "other" datagrams so far.
    pub others: u32,
}

/// Result of the pass.
pub(crate) struct PassResult {
    /// Cache of station indices by address.
    pub places: StationCache,
    /// Look-up tables of all entries.
    pub tables: Tables,
    /// The first cause that its station's log shows against each entry.
    pub causes: Vec<Option<Cause>>,
    /// For each entry, the number of the change that it makes at its station.
    pub changes: Vec<u32>,
    /// For each entry its back-reference. Sources may be open if `senders` is present.
    pub earlier: Vec<u32>,
    /// The first send of each datagram by its originating station, while sources are open.
    pub senders: Option<Senders>,
    /// Predicted places of sources.
    pub hints: SenderHints,
    /// The entries that received an Able with a key for the change behind it.
    pub ables: Vec<u32>,
    /// Number of "other" datagrams.
    pub others: u32,
}

// Not derived, so that a caller that drops it makes one call instead of dropping each field inline.
impl Drop for PassResult {
    fn drop(self) {
        let PassResult {
            places: _places,
            tables: _tables,
            causes: _causes,
            changes: _changes,
            earlier: _earlier,
            senders: _senders,
            hints: _hints,
            ables: _ables,
            others: _others,
        } = self;
    }
}

impl PassResult {
    /// The back-references and the number of "other" datagrams. All other memory is freed.
    pub(crate) fn into_back_references(self) -> (Vec<u32>, u32)
        ensures earlier { result.0 ≡ self.earlier }
        ensures others { result.1 ≡ self.others }
    {
        let PassResult {
            places: _places,
            tables: _tables,
            causes: _causes,
            changes: _changes,
            earlier,
            senders: _senders,
            hints: _hints,
            ables: _ables,
            others,
        } = self;
        (earlier, others)
    }
}

/// State before the first entry, with room for the causes of all entries.
fn empty_pass<L: ExerciseLog>(alloc: Global, log: &L) -> Result<Pass, AllocError>
    ensures { IfOk result (λ found. IsPass (L.recording log.now) 0 found) }
{
    let entries = log.entry_count();
    let causes = Vec::with_capacity(alloc, entries)?;
    let tables = no_tables(alloc, log)?;
    let places = places_of(alloc, log)?;
    let answered = no_answer_marks(alloc, log);
    Ok(Pass {
        places,
        tables,
        sent: no_send_caches(),
        received: empty_base_cache(),
        causes,
        changes: Vec::new(alloc),
        earlier: Vec::new(alloc),
        looks: Looks {
            misses: 0,
            later: 0,
            most: (entries / MANY) as u32,
        },
        ables: Vec::new(alloc),
        answered,
        sends: no_sends(alloc, entries),
        others: 0,
    })
}

/// 1 if `so`, else 0.
fn one_if(so: bool) -> u32
    ensures { result ≡ (if so then 1 else 0) }
{
    if so { 1 } else { 0 }
}

/// Whether a send is known to be new by its request identifier, its key, or the request that it
/// takes up.
fn is_new_send(identifier: bool, key: bool, request: bool) -> bool
    ensures { result ≡ (identifier || (key || request)) }
{
    identifier || key || request
}

/// Finds and stores the findings of the next entry, by which a station sends a datagram.
fn keep_sent<L: ExerciseLog>(
    found: &mut Pass,
    requests: &mut Requests,
    rising: &mut HighWaterMarks,
    log: &L,
    entry: usize,
    station: u16,
    bytes: &[u8],
) -> Result<(), AllocError>
    requires limits { IsRecording (L.recording log.now) }
    requires at { station < length (L.recording log.now).setting.stations }
    requires few { entry < 4294967295 }
    requires within { entry < length (L.recording log.now).entries }
    requires sends { Sends (L.recording log.now) entry station bytes.now }
    requires found { IsPass (L.recording log.now) entry found.old }
    requires requests { AreRequests (L.recording log.now) entry requests.old }
    requires rising { AreHighWaterMarks (L.recording log.now) entry rising.old }
    ensures found { OnOk result (IsPass (L.recording log.now) (entry + 1) found.new) }
    ensures requests { OnOk result (AreRequests (L.recording log.now) (entry + 1) requests.new) }
    ensures rising { OnOk result (AreHighWaterMarks (L.recording log.now) (entry + 1) rising.new) }
{
    let place = StationEntry { station, entry };
    let Pass { tables, sent, .. } = found;
    let here = send_findings(log, tables, requests, rising, sent, place, bytes)?;
    found.causes.push(here.cause)?;
    let (change, pair) = (change_number(here.change), entry_number(here.pair));
    put_number(
        &mut found.changes,
        NO_CHANGE,
        log.entry_count(),
        entry,
        change,
    )?;
    put_number(&mut found.earlier, NO_ENTRY, log.entry_count(), entry, pair)?;
    found.others += one_if(here.other);
    let (key, is_unasked) = (here.key, here.is_unasked);
    let first = note_entry_tables(&mut found.tables, log, entry, here.change, key, here.base)?;
    let fresh = note_answer(&mut found.answered, log, entry, here.pair, is_unasked, key)?;
    let is_new = is_new_send(here.is_new, first, fresh);
    note_send(&mut found.sends, log, entry, bytes, here.is_source, is_new)
}

/// Finds and stores the findings of the next entry, by which a station receives a datagram.
fn keep_received<L: ExerciseLog>(
    found: &mut Pass,
    log: &L,
    entry: usize,
    station: u16,
    bytes: &[u8],
) -> Result<(), AllocError>
    requires limits { IsRecording (L.recording log.now) }
    requires at { station < length (L.recording log.now).setting.stations }
    requires few { entry < 4294967295 }
    requires within { entry < length (L.recording log.now).entries }
    requires receives { Receives (L.recording log.now) entry station bytes.now }
    requires found { IsPass (L.recording log.now) entry found.old }
    ensures { OnOk result (IsPass (L.recording log.now) (entry + 1) found.new) }
{
    let Pass {
        places,
        received,
        ..
    } = found;
    let here = receipt_findings(log, places, received, entry, station, bytes);
    found.causes.push(here.cause)?;
    let earlier = back_reference_so_far(&mut found.sends, &mut found.looks, log, entry, bytes)?;
    put_number(
        &mut found.earlier,
        NO_ENTRY,
        log.entry_count(),
        entry,
        earlier,
    )?;
    found.others += one_if(here.other);
    note_change_key(&mut found.ables, log, entry, here.behind)?;
    note_entry_key(&mut found.tables, log, entry, here.key, here.base)
}

/// Finds and stores the first cause against the next entry, by which a station tells a state.
fn keep_told<L: ExerciseLog>(
    found: &mut Pass,
    log: &L,
    entry: usize,
    station: u16,
    entity: u16,
    state: EntityState,
) -> Result<(), AllocError>
    requires limits { IsRecording (L.recording log.now) }
    requires at { station < length (L.recording log.now).setting.stations }
    requires within { entry < length (L.recording log.now).entries }
    requires told { slice_get (L.recording log.now).entries entry ≡ Some (Told station entity state) }
    requires found { IsPass (L.recording log.now) entry found.old }
    ensures { OnOk result (IsPass (L.recording log.now) (entry + 1) found.new) }
{
    let cause = judge_told(log, &found.tables, station, entry, entity, state);
    found.causes.push(cause)?;
    Ok(())
}

/// Finds and stores the findings of the next entry.
fn find_entry<L: ExerciseLog>(
    found: &mut Pass,
    requests: &mut Requests,
    rising: &mut HighWaterMarks,
    log: &L,
    entry: usize,
) -> Result<(), AllocError>
    requires few { entry < 4294967295 }
    requires within { entry < length (L.recording log.now).entries }
    requires found { IsPass (L.recording log.now) entry found.old }
    requires requests { AreRequests (L.recording log.now) entry requests.old }
    requires rising { AreHighWaterMarks (L.recording log.now) entry rising.old }
    ensures found { OnOk result (IsPass (L.recording log.now) (entry + 1) found.new) }
    ensures requests { OnOk result (AreRequests (L.recording log.now) (entry + 1) requests.new) }
    ensures rising { OnOk result (AreHighWaterMarks (L.recording log.now) (entry + 1) rising.new) }
{
    match log.entry(entry) {
        EntryView::Sent { station, bytes, .. } => {
            keep_sent(found, requests, rising, log, entry, station, bytes)
        }
        EntryView::Received { station, bytes, .. } => {
            keep_received(found, log, entry, station, bytes)
        }
        EntryView::Told {
            station,
            entity,
            state,
        } => keep_told(found, log, entry, station, entity, state),
    }
}

/// Passes over all entries. The tables of requests and of highest marks are freed afterwards.
fn pass_over<L: ExerciseLog>(alloc: Global, log: &L) -> Result<Pass, AllocError>
    ensures found { let r = L.recording log.now in IfOk result (IsPass r (length r.entries)) }
    ensures limits { OnOk result (IsRecording (L.recording log.now)) }
{
    let mut found = empty_pass(alloc, log)?;
    let mut requests = no_requests(alloc, log);
    let mut rising = no_high_water_marks(alloc, log)?;
    for entry in 0..log.entry_count() {
        find_entry(&mut found, &mut requests, &mut rising, log, entry)?;
    }
    Ok(found)
}

/// Result of a pass that found all sources; the index of first sends is freed.
fn complete_result<L: ExerciseLog>(log: &L, pass: Pass, hints: SenderHints) -> PassResult
    requires pass { let r = L.recording log.now in IsPass r (length r.entries) pass }
    requires found { pass.looks.later ≡ 0 }
    ensures { AreFound (L.recording log.now) result }
{
    let Pass {
        places,
        tables,
        causes,
        changes,
        earlier,
        ables,
        others,
        ..
    } = pass;
    PassResult {
        places,
        tables,
        causes,
        changes,
        earlier,
        senders: None,
        hints,
        ables,
        others,
    }
}

/// Result of a pass with few open sources: they are looked up now, and the index of first sends is
/// freed.
fn resolved_result<L: ExerciseLog>(log: &L, pass: Pass, hints: SenderHints) -> PassResult
    requires limits { IsRecording (L.recording log.now) }
    requires pass { let r = L.recording log.now in IsPass r (length r.entries) pass }
    requires senders { let r = L.recording log.now in AreSenders r (length r.entries) pass.sends.kept }
    ensures { AreFound (L.recording log.now) result }
{
    let Pass {
        places,
        tables,
        causes,
        changes,
        earlier,
        ables,
        sends,
        others,
        ..
    } = pass;
    let mut hints = hints;
    PassResult {
        places,
        tables,
        causes,
        changes,
        earlier: back_references(&sends.kept, &mut hints, log, earlier),
        senders: None,
        hints,
        ables,
        others,
    }
}

/// Result of a pass with many open sources: the index of first sends is retained for look-ups on
/// demand.
fn open_result<L: ExerciseLog>(log: &L, pass: Pass, hints: SenderHints) -> PassResult
    requires pass { let r = L.recording log.now in IsPass r (length r.entries) pass }
    requires senders { let r = L.recording log.now in AreSenders r (length r.entries) pass.sends.kept }
    ensures { AreFound (L.recording log.now) result }
{
    let Pass {
        places,
        tables,
        causes,
        changes,
        earlier,
        ables,
        sends,
        others,
        ..
    } = pass;
    PassResult {
        places,
        tables,
        causes,
        changes,
        earlier,
        senders: Some(sends.kept),
        hints,
        ables,
        others,
    }
}

/// Hashes all first sends by their bytes, so that any source can be looked up.
fn hash_sends<L: ExerciseLog>(pass: &mut Pass, log: &L) -> Result<(), AllocError>
    requires { let r = L.recording log.now in IsPass r (length r.entries) pass.old }
    ensures pass { let r = L.recording log.now in OnOk result (IsPass r (length r.entries) pass.new) }
    ensures senders { let r = L.recording log.now in OnOk result (AreSenders r (length r.entries) pass.new.sends.kept) }
{
    hash_all(&mut pass.sends, log, log.entry_count())
}

/// Passes over all entries and returns the result. If all sources were found, or only few are open,
/// which are then looked up at once, the memory of the index of first sends is freed. If many are
/// open, each is found faster on demand, since callers mostly ask for it right after its send.
pub(crate) fn find<L: ExerciseLog>(alloc: Global, log: &L) -> Result<PassResult, AllocError>
    ensures { IfOk result (AreFindings (L.recording log.now)) }
{
    let mut pass = pass_over(alloc, log)?;
    let hints = no_hints(alloc)?;
    if pass.looks.later == 0 {
        return Ok(complete_result(log, pass, hints));
    }
    hash_sends(&mut pass, log)?;
    if pass.looks.later > pass.looks.most {
        Ok(open_result(log, pass, hints))
    } else {
        Ok(resolved_result(log, pass, hints))
    }
}

/// Looks up the source of an entry if it is still open.
pub(crate) fn settle<L: ExerciseLog>(found: &mut PassResult, log: &L, entry: usize)
    requires limits { IsRecording (L.recording log.now) }
    requires within { entry < length (L.recording log.now).entries }
    requires found { AreFound (L.recording log.now) found.old }
    ensures { AreFound (L.recording log.now) found.new }
{
    settle_source(
        &found.senders,
        &mut found.hints,
        &mut found.earlier,
        log,
        entry,
    );
}
