//! All sends that the logs lack, found in one pass.

ghost use Rattle.std.specs.Prelude.{◌≡◌, ◌<◌, ◌+◌, ◌++◌, length, option_map, option_and_then, IfOk, IfSome, OnOk};
ghost use Rattle.std.specs.Option.{option_to_list};
ghost use Rattle.siman_pdus.specs.Reading.{pdu_of};
ghost use Rattle.exercise_model.specs.Meaning.{meaning};
ghost use Rattle.exercise_model.specs.Recording.{IsRecording};
ghost use Rattle.exercise_findings.specs.Missing.{place_of, missing_pdu, missing_at};
ghost use Rattle.exercise_conflict.specs.Lacks.{AreRequestKeys, AreReceipts, missing_send_by, missing_sends};

use crate::asks::{Asks, place_of, request_keys};
use crate::near::sender_of;
use crate::receipts::{FirstReceipts, no_receipts, note_receipt};
use exercise_findings::{Findings, Missing};
use exercise_model::{EntryView, ExerciseLog, is_answer, meaning_view};
use siman_pdus::PduView;
use std::alloc::{AllocError, Global};

/// A send that a log lacks.
#[derive(Clone, Copy, PartialEq, Eq)]
pub struct MissingSend {
    /// The first entry that receives the datagram.
    pub entry: usize,
    /// The station whose log lacks the send, and its place there.
    pub missing: Missing,
}

/// The place of a PDU's send in the log of a station. The index of received requests is made at the
/// first answer and then reused.
#[tactic(auto, unfolding(exercise_findings::specs::Missing::place_of))]
fn place_in<L: ExerciseLog>(
    alloc: Global,
    findings: &Findings<'_, L>,
    asks: &mut Option<Asks>,
    station: u16,
    pdu: &PduView<'_>,
) -> Result<Option<usize>, AllocError>
    requires { IfSome asks.old (AreRequestKeys findings.now (length findings.now.entries)) }
    ensures asks { OnOk result (IfSome asks.new (AreRequestKeys findings.now (length findings.now.entries))) }
    ensures place { IfOk result (λ place. place ≡ place_of findings.now station (pdu_of pdu.now)) }
{
    if !is_answer(pdu) {
        return Ok(None);
    }
    if let Some(asks) = &*asks {
        return Ok(place_of(findings, asks, station, pdu));
    }
    let made = request_keys(alloc, findings)?;
    let place = place_of(findings, &made, station, pdu);
    *asks = Some(made);
    Ok(place)
}

/// The send of a PDU that the log of its sender lacks, if the sender is a recorded station.
fn missing_pdu<L: ExerciseLog>(
    alloc: Global,
    findings: &Findings<'_, L>,
    asks: &mut Option<Asks>,
    pdu: &PduView<'_>,
) -> Result<Option<Missing>, AllocError>
    requires { IfSome asks.old (AreRequestKeys findings.now (length findings.now.entries)) }
    ensures asks { OnOk result (IfSome asks.new (AreRequestKeys findings.now (length findings.now.entries))) }
    ensures missing { IfOk result (λ missing. missing ≡ missing_pdu findings.now (pdu_of pdu.now)) }
{
    match sender_of(findings, pdu) {
        Some(sender) => Ok(Some(Missing {
            sender,
            after: place_in(alloc, findings, asks, sender, pdu)?,
        })),
        None => Ok(None),
    }
}

/// The send of a datagram that the log of its sender lacks.
fn missing_bytes<L: ExerciseLog>(
    alloc: Global,
    findings: &Findings<'_, L>,
    asks: &mut Option<Asks>,
    bytes: &[u8],
) -> Result<Option<Missing>, AllocError>
    requires { IfSome asks.old (AreRequestKeys findings.now (length findings.now.entries)) }
    ensures asks { OnOk result (IfSome asks.new (AreRequestKeys findings.now (length findings.now.entries))) }
    ensures missing { IfOk result (λ missing. missing ≡ option_and_then (missing_pdu findings.now) (meaning findings.now.setting.exercise bytes.now)) }
{
    match meaning_view(findings.log().exercise(), bytes) {
        Some(pdu) => missing_pdu(alloc, findings, asks, &pdu),
        None => Ok(None),
    }
}

/// The missing send that the next entry reveals. If the entry receives a datagram that no log
/// sends, it is added to the index of such receipts.
#[tactic(auto, unfolding(exercise_findings::specs::Missing::missing_at))]
fn missing_next<'a, L: ExerciseLog>(
    alloc: Global,
    findings: &Findings<'a, L>,
    asks: &mut Option<Asks>,
    receipts: &mut FirstReceipts<'a>,
    entry: usize,
) -> Result<Option<Missing>, AllocError>
    requires within { entry < length findings.now.entries }
    requires asks { IfSome asks.old (AreRequestKeys findings.now (length findings.now.entries)) }
    requires tied { AreReceipts findings.now entry receipts.old }
    ensures missing { IfOk result (λ missing. missing ≡ missing_at findings.now entry) }
    ensures asks { OnOk result (IfSome asks.new (AreRequestKeys findings.now (length findings.now.entries))) }
    ensures tied { OnOk result (AreReceipts findings.now (entry + 1) receipts.new) }
{
    if findings.source(entry).is_some() {
        return Ok(None);
    }
    match findings.log().entry(entry) {
        EntryView::Received { bytes, .. } => {
            if note_receipt(findings, receipts, entry, bytes)? {
                missing_bytes(alloc, findings, asks, bytes)
            } else {
                Ok(None)
            }
        }
        EntryView::Sent { .. } => Ok(None),
        EntryView::Told { .. } => Ok(None),
    }
}

/// Appends the missing send that an entry reveals, if any.
fn push_missing_send(
    lacks: &mut Vec<MissingSend>,
    entry: usize,
    missing: Option<Missing>,
) -> Result<(), AllocError>
    ensures { OnOk result (lacks.new.items ≡ lacks.old.items ++ option_to_list (option_map (missing_send_by entry) missing)) }
{
    if let Some(missing) = missing {
        lacks.push(MissingSend { entry, missing })?;
    }
    Ok(())
}

/// All sends that the logs lack, one for each datagram that was received from a recorded station
/// but is sent by no entry of that station, by rising entries of the first receipt. It takes one
/// pass, with two look-ups for each entry without a source, and a second pass if an answer is among
/// them.
pub fn missing_sends<L: ExerciseLog>(
    alloc: Global,
    findings: &Findings<'_, L>,
) -> Result<Vec<MissingSend>, AllocError>
    ensures lacks { IfOk result (λ lacks. lacks.items ≡ missing_sends findings.now) }
    ensures limits { OnOk result (IsRecording findings.now) }
{
    let mut asks = None;
    let mut receipts = no_receipts(alloc);
    let mut lacks = Vec::new(alloc);
    for entry in 0..findings.log().entry_count() {
        let missing = missing_next(alloc, findings, &mut asks, &mut receipts, entry)?;
        push_missing_send(&mut lacks, entry, missing)?;
    }
    Ok(lacks)
}
