//! Digests of requests: equal for repeats of one order, and different at each station. Strangers
//! choose the contents of requests, so the hasher is one for which nobody can construct many
//! collisions.

ghost use Rattle.std.specs.Prelude.{◌≡◌, ◌-◌, ◌%◌, ◌^◌, ℕ, fold, length, take, map};
ghost use Rattle.std.specs.Hash.DefaultHasher.{write, initial};
ghost use Rattle.dis_records.specs.Datum.{canonical};
ghost use Rattle.dis_records.specs.Records.{shown};
ghost use Rattle.siman_pdus.specs.Reading.{pdu_of, body_of, datums_of, ids_of};
ghost use Rattle.exercise_review.specs.Digest.{fed, both, time_fed, fixed_fed, variable_fed, datums_fed, id_fed, ids_fed, body_fed, head_fed, digest, at_station, identifier_at};

use dis_records::records::{DatumIdRecords, FixedRecords, VariableRecords};
use dis_records::{ClockTime, DatumsView, EntityId, IdsView, VariableView};
use siman_pdus::{BodyView, PduView, request_id};
use std::hash::{DefaultHasher, Hasher};

/// Difference between the digests of an order at consecutive stations: an odd number, so that the
/// digests at different stations differ.
const STEP: u64 = 0x9E37_79B9_7F4A_7C15;

/// Two numbers of 16 bits as one of 32.
fn both(high: u16, low: u16) -> u32
    ensures { result ≡ both high low }
{
    u32::from(high) * 0x1_0000 + u32::from(low)
}

/// Feeds two numbers of 32 bits as one word of 64.
#[tactic(auto, unfolding(crate::specs::Digest::fed))]
fn feed(hasher: &mut DefaultHasher, high: u32, low: u32)
    ensures { hasher.new ≡ fed hasher.old high low }
{
    hasher.write_u64(u64::from(high) * 0x1_0000_0000 + u64::from(low));
}

/// Feeds a clock time.
fn feed_time(hasher: &mut DefaultHasher, time: ClockTime)
    ensures { hasher.new ≡ time_fed hasher.old time }
{
    feed(hasher, time.hour, time.past);
}

/// Feeds fixed datums.
fn feed_fixed(hasher: &mut DefaultHasher, datums: FixedRecords<'_>)
    ensures { hasher.new ≡ fold fixed_fed hasher.old datums.entry }
{
    for datum in datums {
        feed(hasher, datum.id, datum.value);
    }
}

/// Feeds datum identifiers.
fn feed_ids(hasher: &mut DefaultHasher, ids: DatumIdRecords<'_>)
    ensures { hasher.new ≡ fold id_fed hasher.old ids.entry }
{
    for id in ids {
        feed(hasher, 0, id);
    }
}

/// Feeds a value with its unused bits cleared: whole if it has none, else the last byte separately.
#[tactic(auto, using(crate::proofs::Digests::whole_stands, crate::proofs::Digests::last_follows, crate::proofs::Digests::none_follows))]
fn feed_value(hasher: &mut DefaultHasher, datum: VariableView<'_>)
    ensures { hasher.new ≡ write hasher.old (canonical (shown datum.entry)).bytes }
{
    if datum.bits % 8 == 0 {
        hasher.write(datum.bytes);
        return;
    }
    hasher.write(&datum.bytes[..datum.bytes.len().saturating_sub(1)]);
    if let Some(last) = datum.last() {
        hasher.write(&[last]);
    }
}

/// Feeds a variable datum, without its unused bits and its padding.
fn feed_record(hasher: &mut DefaultHasher, datum: VariableView<'_>)
    ensures { hasher.new ≡ variable_fed hasher.old (canonical (shown datum.entry)) }
{
    feed(hasher, datum.id, datum.bits);
    feed_value(hasher, datum);
}

/// Feeds variable datums.
fn feed_variable(hasher: &mut DefaultHasher, datums: VariableRecords<'_>)
    ensures { hasher.new ≡ fold variable_fed hasher.old (map canonical datums.entry) }
{
    for datum in datums {
        feed_record(hasher, datum);
    }
}

/// Feeds the datums of a body.
fn feed_datums(hasher: &mut DefaultHasher, datums: &DatumsView<'_>)
    ensures { hasher.new ≡ datums_fed hasher.old (datums_of datums.now) }
{
    feed(hasher, datums.fixed_count(), datums.variable_count());
    feed_fixed(hasher, datums.fixed());
    feed_variable(hasher, datums.variable());
}

/// Feeds the identifiers of a query.
fn feed_query(hasher: &mut DefaultHasher, ids: &IdsView<'_>)
    ensures { hasher.new ≡ ids_fed hasher.old (ids_of ids.now) }
{
    feed(hasher, ids.fixed_count(), ids.variable_count());
    feed_ids(hasher, ids.fixed());
    feed_ids(hasher, ids.variable());
}

/// Feeds the contents of a request, without its identifier.
fn feed_body(hasher: &mut DefaultHasher, body: &BodyView<'_>)
    ensures { hasher.new ≡ body_fed hasher.old (body_of body.now) }
{
    match body {
        BodyView::StartResume { real, sim, .. } => {
            feed_time(hasher, *real);
            feed_time(hasher, *sim);
        }
        BodyView::StopFreeze {
            real,
            reason,
            behaviour,
            ..
        } => {
            feed_time(hasher, *real);
            feed(hasher, u32::from(*reason), u32::from(*behaviour));
        }
        BodyView::ActionRequest { action, datums, .. } => {
            feed(hasher, 0, *action);
            feed_datums(hasher, datums);
        }
        BodyView::DataQuery { interval, ids, .. } => {
            feed(hasher, 0, *interval);
            feed_query(hasher, ids);
        }
        BodyView::SetData { datums, .. } => feed_datums(hasher, datums),
        _ => {}
    }
}

/// Hasher fed with the origin, the target and the request identifier.
fn head_fed(origin: EntityId, target: EntityId, request: u32) -> DefaultHasher
    ensures { result ≡ head_fed origin target request }
{
    let mut hasher = DefaultHasher::new();
    feed(&mut hasher, request, both(origin.entity, target.entity));
    feed(
        &mut hasher,
        both(origin.site, origin.application),
        both(target.site, target.application),
    );
    hasher
}

/// Digest of a PDU: of all fields by which orders are compared, except the version and the
/// exercise.
#[tactic(auto, unfolding(crate::specs::Digest::digest))]
pub(crate) fn digest(pdu: &PduView<'_>) -> u64
    ensures { result ≡ digest (pdu_of pdu.now) }
{
    let request = match request_id(pdu) {
        Some(request) => request,
        None => 0,
    };
    let mut hasher = head_fed(pdu.origin, pdu.target, request);
    feed_body(&mut hasher, &pdu.body);
    hasher.finish()
}

/// Digest of a request identifier at a station.
#[tactic(auto, unfolding(crate::specs::Digest::identifier_at))]
pub(crate) fn identifier_at(station: u16, request: u32) -> u64
    ensures { result ≡ identifier_at station request }
{
    let mut hasher = DefaultHasher::new();
    feed(&mut hasher, u32::from(station), request);
    hasher.finish()
}

/// Digest at a station, from the digest without a station.
pub(crate) fn at_station(station: u16, digest: u64) -> u64
    ensures { result ≡ at_station station digest }
{
    digest.wrapping_add(u64::from(station).wrapping_mul(STEP))
}

/// Digest without a station, from the digest at a station.
#[tactic(auto, using(crate::proofs::Moved::digest_back))]
pub(crate) fn digest_under(station: u16, digest: u64) -> u64
    ensures { (d : ℕ) → digest ≡ at_station station d → result ≡ d % 2 ^ 64 }
{
    digest.wrapping_sub(u64::from(station).wrapping_mul(STEP))
}

/// Digest at station `to`, from the digest at station `from`.
#[tactic(auto, using(crate::proofs::Moved::digest_moved))]
pub(crate) fn moved(from: u16, to: u16, digest: u64) -> u64
    ensures { (d : ℕ) → digest ≡ at_station from d → result ≡ at_station to d }
{
    at_station(to, digest_under(from, digest))
}
