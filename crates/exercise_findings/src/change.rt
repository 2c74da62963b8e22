//! Look-ups of earlier Acknowledges of a station by key.

ghost use Rattle.std.specs.Prelude.{◌≡◌, ◌<◌, true, length, option_map, option_and_then};
ghost use Rattle.siman_pdus.specs.Reading.{pdu_of};
ghost use Rattle.exercise_model.specs.Change.{able, unable, was_acknowledged, is_change};
ghost use Rattle.exercise_model.specs.Place.{log_before, own_event};
ghost use Rattle.exercise_findings.specs.Sent.{is_meant, meant_by_send};
ghost use Rattle.exercise_findings.specs.Firsts.{acknowledged_key, answer_base, AreFirsts};
ghost use Rattle.exercise_findings.specs.Hashed.{key_base};

use crate::firsts::{Firsts, first_under};
use crate::key::acknowledged_key;
use exercise_model::{AcknowledgeKey, EntryView, ExerciseLog, key_of, meaning_again, responds};
use siman_pdus::{ABLE, PduView, UNABLE};

/// The PDU that a station sends at an entry, whose datagram must mean something; `None` if the
/// entry is not a send of that station.
#[tactic(auto, unfolding(exercise_model::specs::Place::own_event, crate::specs::Sent::is_meant), using(crate::proofs::Meant::meant_within))]
pub(crate) fn pdu_sent<L: ExerciseLog>(log: &L, station: u16, entry: usize) -> Option<PduView<'_>>
    requires { is_meant (L.recording log.now) entry ≡ true }
    ensures { let r = L.recording log.now in option_map pdu_of result ≡ option_and_then (meant_by_send r.setting.exercise) (own_event r station entry) }
{
    match log.entry(entry) {
        EntryView::Sent {
            station: at,
            bytes,
            ..
        } if at == station => Some(meaning_again(log.exercise(), bytes)),
        _ => None,
    }
}

/// Whether a station sent an Able under this key before an entry. `base` is the key's hash base.
#[tactic(auto, using(crate::proofs::Keyed::key_steps))]
pub(crate) fn was_able<L: ExerciseLog>(
    log: &L,
    firsts: &Firsts,
    station: u16,
    before: usize,
    key: &AcknowledgeKey,
    base: u32,
) -> bool
    requires at { station < length (L.recording log.now).setting.stations }
    requires base { base ≡ key_base (acknowledged_key station able key.now) }
    requires tied { AreFirsts (L.recording log.now) before firsts.now }
    ensures { let r = L.recording log.now in result ≡ was_acknowledged r.setting.exercise able key.now (log_before r station before) }
{
    let key = acknowledged_key(station, ABLE, key);
    first_under(firsts, log, &key, base, before).is_some()
}

/// Whether a station sent an Unable under this key before an entry. `base` is the key's hash base.
#[tactic(auto, using(crate::proofs::Keyed::key_steps))]
pub(crate) fn was_unable<L: ExerciseLog>(
    log: &L,
    firsts: &Firsts,
    station: u16,
    before: usize,
    key: &AcknowledgeKey,
    base: u32,
) -> bool
    requires at { station < length (L.recording log.now).setting.stations }
    requires base { base ≡ key_base (acknowledged_key station able key.now) }
    requires tied { AreFirsts (L.recording log.now) before firsts.now }
    ensures { let r = L.recording log.now in result ≡ was_acknowledged r.setting.exercise unable key.now (log_before r station before) }
{
    let key = acknowledged_key(station, UNABLE, key);
    first_under(firsts, log, &key, base, before).is_some()
}

/// Whether a PDU that a station sends at an entry is the first Able under its key. `base` is the
/// key's hash base.
#[tactic(auto, unfolding(exercise_model::specs::Change::is_change))]
pub(crate) fn is_change<L: ExerciseLog>(
    log: &L,
    firsts: &Firsts,
    station: u16,
    before: usize,
    pdu: &PduView<'_>,
    base: u32,
) -> bool
    requires at { station < length (L.recording log.now).setting.stations }
    requires base { base ≡ answer_base station (pdu_of pdu.now) }
    requires tied { AreFirsts (L.recording log.now) before firsts.now }
    ensures { let r = L.recording log.now in result ≡ is_change r.setting.exercise (pdu_of pdu.now) (log_before r station before) }
{
    match key_of(pdu) {
        Some(key) if responds(ABLE, pdu) => { !was_able(log, firsts, station, before, &key, base) }
        _ => false,
    }
}
