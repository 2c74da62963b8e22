//! Index of the receipts of answers: by the entries that sent them if that is complete, else by
//! bytes.

ghost use Rattle.std.specs.Prelude.{◌≡◌, length, false, option_map, IfOk};
ghost use Rattle.exercise_model.specs.Place.{first_below};
ghost use Rattle.exercise_review.specs.declared.receipt.Receipts.{Receipts};
ghost use Rattle.exercise_review.specs.Counted.{last_below};
ghost use Rattle.exercise_review.specs.Heard.{gets_in, asks_in, IsReceiptIndex};
ghost use Rattle.exercise_review.specs.Noted.{AreAnswerReceipts};
ghost use Rattle.exercise_review.specs.Register.{key_at, AreRegistered};
ghost use Rattle.exercise_review.specs.Sourced.{AreSources, IsAnswerIn};

use crate::entry_chains::{EntryChains, is_indexed};
use crate::receipt::{Heard, Receipt, Receipts, no_receipts, note_receipt, receipts_near};
use crate::sources::{SourceColumns, are_whole, receipts_from};
use exercise_findings::{Findings, StridePredictor};
use exercise_model::ExerciseLog;
use std::alloc::{AllocError, Global};

/// Index of the receipts of answers of a recording.
pub(crate) enum AnswerReceipts<'a> {
    /// By the entries that sent them: complete for each entry that takes up a request.
    BySource(SourceColumns),
    /// By the receiving stations and the bytes.
    ByBytes(Heard<'a>),
}

// Written by hand, so that a drop is one call and the caller does not drop each table by itself.
impl<'a> Drop for AnswerReceipts<'a> {
    fn drop(self) {
        match self {
            AnswerReceipts::BySource(_sources) => {}
            AnswerReceipts::ByBytes(_heard) => {}
        }
    }
}

/// Index of the receipts of a log by station and bytes, given the index of its entries.
fn heard_in<'a, L: ExerciseLog>(
    alloc: Global,
    log: &'a L,
    orders: &EntryChains,
) -> Result<Heard<'a>, AllocError>
    requires { AreRegistered (key_at (L.recording log.now)) (length (L.recording log.now).entries) orders.now }
    ensures { IfOk result (IsReceiptIndex (L.recording log.now) (length (L.recording log.now).entries)) }
{
    let mut heard = no_receipts(alloc);
    for entry in 0..log.entry_count() {
        let has_key = is_indexed(orders, entry);
        note_receipt(&mut heard, log, log.entry(entry), has_key, entry)?;
    }
    Ok(heard)
}

/// Index of the receipts of answers of a recording, given the index of its entries. Uses the
/// columns by source if they are complete.
pub(crate) fn answer_receipts<'a, L: ExerciseLog>(
    alloc: Global,
    findings: &Findings<'a, L>,
    orders: &EntryChains,
    sources: SourceColumns,
) -> Result<AnswerReceipts<'a>, AllocError>
    requires orders { AreRegistered (key_at findings.now) (length findings.now.entries) orders.now }
    requires sources { AreSources findings.now (length findings.now.entries) sources }
    ensures { IfOk result (AreAnswerReceipts findings.now) }
{
    if are_whole(findings, orders, &sources) {
        return Ok(AnswerReceipts::BySource(sources));
    }
    let heard = heard_in(alloc, findings.log(), orders)?;
    Ok(AnswerReceipts::ByBytes(heard))
}

/// First and last entry at which a station received these bytes, if it did. The bytes mean no
/// request, and `entry` sends them as an answer that takes up one.
pub(crate) fn receipts_in<L: ExerciseLog>(
    hearing: &AnswerReceipts<'_>,
    log: &L,
    entry: usize,
    receipt: Receipt<'_>,
    hint: &mut StridePredictor,
) -> Option<Receipts>
    requires kept { AreAnswerReceipts (L.recording log.now) hearing.now }
    requires asks { asks_in (L.recording log.now) receipt.bytes.now ≡ false }
    requires answer { IsAnswerIn (L.recording log.now) entry receipt.bytes.now }
    ensures first { let r = L.recording log.now in option_map (λ (x : Receipts). x.first) result ≡ first_below (gets_in r receipt.entry.station receipt.entry.bytes.now) (length r.entries) }
    ensures last { let r = L.recording log.now in option_map (λ (x : Receipts). x.last) result ≡ last_below (gets_in r receipt.entry.station receipt.entry.bytes.now) (length r.entries) }
{
    match hearing {
        AnswerReceipts::BySource(sources) => receipts_from(sources, log, entry, receipt.station),
        AnswerReceipts::ByBytes(heard) => receipts_near(heard, receipt, hint),
    }
}
