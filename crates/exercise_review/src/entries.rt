//! Reads the entries of a recording and the PDUs that they send and receive.

ghost use Rattle.std.specs.Prelude.{◌≡◌, ◌<◌, length, true, Some, is_some, option_map, slice_get, IfSome};
ghost use Rattle.siman_pdus.specs.Reading.{pdu_of};
ghost use Rattle.exercise_model.specs.Entry.{is_entry};
ghost use Rattle.exercise_model.specs.Held.{shown};
ghost use Rattle.exercise_model.specs.Meaning.{meaning};
ghost use Rattle.exercise_review.specs.Entries.{bytes_sent, bytes_received, pdu_sent, pdu_received, pdu_at};

use crate::register::Register;
use exercise_model::{EntryView, ExerciseLog, meaning_again, meaning_view};
use siman_pdus::PduView;

/// The entry of a log with this number; `None` past the last.
pub(crate) fn entry_in<L: ExerciseLog>(log: &L, entry: usize) -> Option<EntryView<'_>>
    ensures entry { option_map shown result ≡ slice_get (L.recording log.now).entries entry }
    ensures within { IfSome result (λ _. entry < length (L.recording log.now).entries) }
    ensures fits { let stations = length (L.recording log.now).setting.stations in IfSome result (λ view. is_entry stations (shown view) ≡ true) }
{
    if entry < log.entry_count() {
        Some(log.entry(entry))
    } else {
        None
    }
}

/// The entry of a recording with this number; `None` past the last.
pub(crate) fn entry_at<'a, L: ExerciseLog>(
    findings: &Register<'a, L>,
    entry: usize,
) -> Option<EntryView<'a>>
    ensures entry { option_map shown result ≡ slice_get findings.now.entries entry }
    ensures within { IfSome result (λ _. entry < length findings.now.entries) }
    ensures fits { let stations = length findings.now.setting.stations in IfSome result (λ view. is_entry stations (shown view) ≡ true) }
{
    entry_in(findings.log(), entry)
}

/// Number of entries.
pub(crate) fn entry_count<L: ExerciseLog>(findings: &Register<'_, L>) -> usize
    ensures { result ≡ length findings.now.entries }
{
    findings.log().entry_count()
}

/// The meaning of a datagram in the exercise of a recording.
pub(crate) fn meant<'b, L: ExerciseLog>(
    findings: &Register<'_, L>,
    bytes: &'b [u8],
) -> Option<PduView<'b>>
    ensures { option_map pdu_of result ≡ meaning findings.now.setting.exercise bytes.now }
{
    meaning_view(findings.log().exercise(), bytes)
}

/// The meaning of a datagram that is known to have one in the exercise of a recording.
pub(crate) fn meant_again<'b, L: ExerciseLog>(
    findings: &Register<'_, L>,
    bytes: &'b [u8],
) -> PduView<'b>
    requires { is_some (meaning findings.now.setting.exercise bytes.now) ≡ true }
    ensures { Some (pdu_of result) ≡ meaning findings.now.setting.exercise bytes.now }
{
    meaning_again(findings.log().exercise(), bytes)
}

/// The bytes that a station sends at an entry of a log.
#[tactic(auto, unfolding(crate::specs::Entries::bytes_sent))]
pub(crate) fn bytes_sent_in<L: ExerciseLog>(log: &L, station: u16, entry: usize) -> Option<&[u8]>
    ensures { option_map (λ bytes. bytes.now) result ≡ bytes_sent (L.recording log.now) station entry }
{
    match entry_in(log, entry) {
        Some(
            EntryView::Sent {
                station: at,
                bytes,
                ..
            },
        ) if at == station => Some(bytes),
        _ => None,
    }
}

/// The bytes that a station sends at an entry of a recording.
pub(crate) fn bytes_sent<'a, L: ExerciseLog>(
    findings: &Register<'a, L>,
    station: u16,
    entry: usize,
) -> Option<&'a [u8]>
    ensures { option_map (λ bytes. bytes.now) result ≡ bytes_sent findings.now station entry }
{
    bytes_sent_in(findings.log(), station, entry)
}

/// The bytes that a station receives at an entry of a log.
#[tactic(auto, unfolding(crate::specs::Entries::bytes_received))]
pub(crate) fn bytes_received_in<L: ExerciseLog>(
    log: &L,
    station: u16,
    entry: usize,
) -> Option<&[u8]>
    ensures { option_map (λ bytes. bytes.now) result ≡ bytes_received (L.recording log.now) station entry }
{
    match entry_in(log, entry) {
        Some(
            EntryView::Received {
                station: at,
                bytes,
                ..
            },
        ) if at == station => Some(bytes),
        _ => None,
    }
}

/// The bytes that a station receives at an entry of a recording.
pub(crate) fn bytes_received<'a, L: ExerciseLog>(
    findings: &Register<'a, L>,
    station: u16,
    entry: usize,
) -> Option<&'a [u8]>
    ensures { option_map (λ bytes. bytes.now) result ≡ bytes_received findings.now station entry }
{
    bytes_received_in(findings.log(), station, entry)
}

/// The PDU that a station sends at an entry, unless the datagram is "other".
#[tactic(auto, unfolding(crate::specs::Entries::pdu_sent))]
pub(crate) fn pdu_sent<'a, L: ExerciseLog>(
    findings: &Register<'a, L>,
    station: u16,
    entry: usize,
) -> Option<PduView<'a>>
    ensures { option_map pdu_of result ≡ pdu_sent findings.now station entry }
{
    match bytes_sent(findings, station, entry) {
        Some(bytes) => meant(findings, bytes),
        None => None,
    }
}

/// The PDU that a station receives at an entry, unless the datagram is "other".
#[tactic(auto, unfolding(crate::specs::Entries::pdu_received))]
pub(crate) fn pdu_received<'a, L: ExerciseLog>(
    findings: &Register<'a, L>,
    station: u16,
    entry: usize,
) -> Option<PduView<'a>>
    ensures { option_map pdu_of result ≡ pdu_received findings.now station entry }
{
    match bytes_received(findings, station, entry) {
        Some(bytes) => meant(findings, bytes),
        None => None,
    }
}

/// The PDU that an entry of a log sends or receives, at any station.
#[tactic(auto, unfolding(crate::specs::Entries::pdu_at))]
pub(crate) fn pdu_in_log<L: ExerciseLog>(log: &L, entry: usize) -> Option<PduView<'_>>
    ensures { option_map pdu_of result ≡ pdu_at (L.recording log.now) entry }
{
    match entry_in(log, entry) {
        Some(EntryView::Sent { bytes, .. } | EntryView::Received { bytes, .. }) => {
            meaning_view(log.exercise(), bytes)
        }
        Some(EntryView::Told { .. }) | None => None,
    }
}

/// The PDU that an entry of a recording sends or receives, at any station.
pub(crate) fn pdu_at<'a, L: ExerciseLog>(
    findings: &Register<'a, L>,
    entry: usize,
) -> Option<PduView<'a>>
    ensures { option_map pdu_of result ≡ pdu_at findings.now entry }
{
    pdu_in_log(findings.log(), entry)
}
