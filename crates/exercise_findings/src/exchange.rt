//! Look-up of the request that an answer takes up.

ghost use Rattle.std.specs.Prelude.{◌≡◌, ◌<◌, ◌≤◌, true, length, option_map, option_and_then, IfSome, Some, None, if◌then◌else◌};
ghost use Rattle.siman_pdus.specs.Reading.{pdu_of};
ghost use Rattle.exercise_model.specs.History.{station_at};
ghost use Rattle.exercise_model.specs.Account.{pair_of_sent};
ghost use Rattle.exercise_model.specs.Exchange.{request_brought, request_taken_up};
ghost use Rattle.exercise_model.specs.Place.{log_before, own_event, entry_taken_up};
ghost use Rattle.exercise_findings.specs.TakenUp.{request_of_sent};
ghost use Rattle.exercise_findings.specs.Firsts.{AreFirsts};
ghost use Rattle.exercise_findings.specs.Sent.{is_meant};

use crate::firsts::{Firsts, first_noted};
use crate::hint::StridePredictor;
use crate::kept::entry_at_place;
use crate::key::answered_key;
use dis_records::Address;
use exercise_model::{EntryView, ExerciseLog, is_answer, is_asked, meaning_again};
use siman_pdus::PduView;

/// The request that an entry delivers to a station, if the answer could take it up. The entry's
/// datagram must mean something.
#[tactic(auto, unfolding(exercise_model::specs::Place::own_event, crate::specs::Sent::is_meant), using(crate::proofs::Meant::meant_within))]
fn request_brought<'a, L: ExerciseLog>(
    log: &'a L,
    station: u16,
    address: Address,
    answer: &PduView<'_>,
    entry: usize,
) -> Option<PduView<'a>>
    requires { is_meant (L.recording log.now) entry ≡ true }
    ensures { let r = L.recording log.now in option_map pdu_of result ≡ option_and_then (request_brought r.setting.exercise address (pdu_of answer.now)) (own_event r station entry) }
{
    match log.entry(entry) {
        EntryView::Received {
            station: at,
            bytes,
            ..
        } if at == station => {
            let request = meaning_again(log.exercise(), bytes);
            if is_asked(address, answer, &request) {
                Some(request)
            } else {
                None
            }
        }
        _ => None,
    }
}

/// The request that an answer takes up, with its entry, if it is at this place of the table's
/// order.
fn request_at_place<'a, L: ExerciseLog>(
    log: &'a L,
    firsts: &Firsts,
    place: usize,
    station: u16,
    before: usize,
    answer: &PduView<'_>,
) -> Option<(u32, PduView<'a>)>
    requires at { station < length (L.recording log.now).setting.stations }
    requires within { before ≤ length (L.recording log.now).entries }
    requires tied { AreFirsts (L.recording log.now) before firsts.now }
    ensures request { let r = L.recording log.now in IfSome result (λ t. Some (pdu_of t.1) ≡ request_taken_up r.setting.exercise (station_at r station).address (pdu_of answer.now) (log_before r station before)) }
    ensures entry { let r = L.recording log.now in IfSome result (λ t. Some t.0 ≡ entry_taken_up r station (pdu_of answer.now) before) }
    ensures earlier { IfSome result (λ t. t.0 < before) }
{
    let Some(entry) = entry_at_place(firsts, place) else {
        return None;
    };
    if entry as usize >= before {
        return None;
    }
    let address = log.station(usize::from(station)).address();
    match request_brought(log, station, address, answer, entry as usize) {
        Some(request) => Some((entry, request)),
        None => None,
    }
}

/// The entry of the request that an answer takes up: the first under the answer's key.
#[tactic(auto, using(crate::proofs::Keyed::key_steps))]
fn entry_taken_up<L: ExerciseLog>(
    log: &L,
    firsts: &Firsts,
    hint: &mut StridePredictor,
    station: u16,
    before: usize,
    answer: &PduView<'_>,
) -> Option<u32>
    requires at { station < length (L.recording log.now).setting.stations }
    requires tied { AreFirsts (L.recording log.now) before firsts.now }
    ensures entry { result ≡ entry_taken_up (L.recording log.now) station (pdu_of answer.now) before }
    ensures earlier { IfSome result (λ e. e < before) }
{
    match answered_key(station, answer) {
        Some(key) => first_noted(firsts, log, &key, before, hint),
        None => None,
    }
}

/// The request that an answer takes up, with its entry, looked up by its key.
fn request_among<'a, L: ExerciseLog>(
    log: &'a L,
    firsts: &Firsts,
    hint: &mut StridePredictor,
    station: u16,
    before: usize,
    answer: &PduView<'_>,
) -> Option<(u32, PduView<'a>)>
    requires at { station < length (L.recording log.now).setting.stations }
    requires within { before ≤ length (L.recording log.now).entries }
    requires tied { AreFirsts (L.recording log.now) before firsts.now }
    ensures request { let r = L.recording log.now in option_map (λ t. pdu_of t.1) result ≡ request_taken_up r.setting.exercise (station_at r station).address (pdu_of answer.now) (log_before r station before) }
    ensures entry { let r = L.recording log.now in option_map (λ t. t.0) result ≡ entry_taken_up r station (pdu_of answer.now) before }
    ensures earlier { IfSome result (λ t. t.0 < before) }
{
    let Some(entry) = entry_taken_up(log, firsts, hint, station, before, answer) else {
        return None;
    };
    let address = log.station(usize::from(station)).address();
    match request_brought(log, station, address, answer, entry as usize) {
        Some(request) => Some((entry, request)),
        None => None,
    }
}

/// The request that an answer takes up, with its entry: the first one before `before`. The place
/// that the hint predicts is tried first, since requests are mostly answered in order.
fn request_taken_up<'a, L: ExerciseLog>(
    log: &'a L,
    firsts: &Firsts,
    hint: &mut StridePredictor,
    station: u16,
    before: usize,
    answer: &PduView<'_>,
) -> Option<(u32, PduView<'a>)>
    requires at { station < length (L.recording log.now).setting.stations }
    requires within { before ≤ length (L.recording log.now).entries }
    requires tied { AreFirsts (L.recording log.now) before firsts.now }
    ensures request { let r = L.recording log.now in option_map (λ t. pdu_of t.1) result ≡ request_taken_up r.setting.exercise (station_at r station).address (pdu_of answer.now) (log_before r station before) }
    ensures entry { let r = L.recording log.now in option_map (λ t. t.0) result ≡ entry_taken_up r station (pdu_of answer.now) before }
    ensures earlier { IfSome result (λ t. t.0 < before) }
{
    let place = hint.next();
    if let Some(taken) = request_at_place(log, firsts, place, station, before, answer) {
        hint.found(place);
        return Some(taken);
    }
    request_among(log, firsts, hint, station, before, answer)
}

/// For an answer that a station sends at an entry, the request that it takes up, with its entry;
/// `None` for a PDU that is no answer. The request is returned so that callers need not look it up
/// again.
pub(crate) fn taken_up<'a, L: ExerciseLog>(
    log: &'a L,
    firsts: &Firsts,
    hint: &mut StridePredictor,
    station: u16,
    before: usize,
    pdu: &PduView<'_>,
) -> Option<(u32, PduView<'a>)>
    requires at { station < length (L.recording log.now).setting.stations }
    requires within { before ≤ length (L.recording log.now).entries }
    requires tied { AreFirsts (L.recording log.now) before firsts.now }
    ensures request { option_map (λ t. pdu_of t.1) result ≡ request_of_sent (L.recording log.now) station before (pdu_of pdu.now) }
    ensures entry { option_map (λ t. t.0) result ≡ pair_of_sent (L.recording log.now) station before (pdu_of pdu.now) }
{
    if is_answer(pdu) {
        request_taken_up(log, firsts, hint, station, before, pdu)
    } else {
        None
    }
}
