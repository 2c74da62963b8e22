//! The highest mark (request identifier, then timestamp) that each station sent so far. Identifiers
//! mostly rise, and timestamps under one identifier: a datagram with a higher mark is new and needs
//! no look-up.

ghost use Rattle.std.specs.Prelude.{◌≡◌, ◌<◌, ◌+◌, ◌*◌, ◌^◌, true, length, set, nat_lt, slice_index_or, if◌then◌else◌, IfOk};
ghost use Rattle.siman_pdus.specs.Reading.{pdu_of};
ghost use Rattle.exercise_findings.specs.FirstSends.{IsNewSend};
ghost use Rattle.exercise_findings.specs.Requests.{IsSendOf};
ghost use Rattle.exercise_findings.specs.HighWaterMarks.{mark_of, AreHighWaterMarks};

use exercise_model::ExerciseLog;
use siman_pdus::{PduView, request_id};
use std::alloc::{AllocError, Global};

/// The highest mark that each station sent so far.
#[derive(Drop)]
pub(crate) struct HighWaterMarks {
    /// For each station; 0 if it sent nothing.
    pub tops: Vec<u64>,
}

/// The highest marks before the first entry: all 0.
#[tactic(auto, using(crate::proofs::HigherMarks::none_rising))]
pub(crate) fn no_high_water_marks<L: ExerciseLog>(
    alloc: Global,
    log: &L,
) -> Result<HighWaterMarks, AllocError>
    ensures { IfOk result (AreHighWaterMarks (L.recording log.now) 0) }
{
    Ok(HighWaterMarks {
        tops: vec![in alloc; 0; log.station_count()]?,
    })
}

/// Two 32-bit numbers as one 64-bit word.
fn word_of(high: u32, low: u32) -> u64
    ensures { result ≡ high * 2 ^ 32 + low }
{
    u64::from(high) * 0x1_0000_0000 + u64::from(low)
}

/// The mark of a PDU: its request identifier, or 0, in the upper 32 bits, its timestamp in the
/// lower.
fn mark_of(pdu: &PduView<'_>) -> u64
    ensures { result ≡ mark_of (pdu_of pdu.now) }
{
    let request = match request_id(pdu) {
        Some(request) => request,
        None => 0,
    };
    word_of(request, pdu.stamp)
}

/// Raises a station's highest mark to `mark` if that is higher; returns whether it is.
fn rise(tops: &mut Vec<u64>, station: usize, mark: u64) -> bool
    requires { station < length tops.old.items }
    ensures higher { result ≡ nat_lt (slice_index_or tops.old.items station 0) mark }
    ensures tops { tops.new.items ≡ (if result then set tops.old.items station mark else tops.old.items) }
{
    let is_higher = tops[station] < mark;
    if is_higher {
        tops[station] = mark;
    }
    is_higher
}

/// Updates a station's highest mark with its next send. Returns whether the mark is above all
/// earlier ones; the datagram is new then.
pub(crate) fn raise_mark<L: ExerciseLog>(
    rising: &mut HighWaterMarks,
    log: &L,
    station: u16,
    entry: usize,
    pdu: &PduView<'_>,
) -> bool
    requires at { station < length (L.recording log.now).setting.stations }
    requires sends { IsSendOf (L.recording log.now) entry station (pdu_of pdu.now) }
    requires tied { AreHighWaterMarks (L.recording log.now) entry rising.old }
    ensures tied { AreHighWaterMarks (L.recording log.now) (entry + 1) rising.new }
    ensures new { result ≡ true → IsNewSend (L.recording log.now) entry }
{
    let (_log, _entry) = (log, entry);
    rise(&mut rising.tops, usize::from(station), mark_of(pdu))
}
