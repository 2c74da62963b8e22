//! The parties of an order: the stations that it is for, and the unrecorded ones that answered it.

ghost use Rattle.std.specs.Prelude.{◌≡◌, Some, is_some};
ghost use Rattle.siman_pdus.specs.Answers.{same_id};
ghost use Rattle.siman_pdus.specs.Reading.{pdu_of};
ghost use Rattle.exercise_review.specs.StationTrace.{IsOwn};
ghost use Rattle.exercise_review.specs.Order.{order_of};
ghost use Rattle.exercise_review.specs.Party.{first_copy, is_party, is_answer_from, is_heard_from, names, is_at, is_recorded_at, is_party_outside};

use crate::entries::pdu_received;
use crate::keys::order_key;
use crate::order::{Gets, RecordedOrder};
use crate::question::{Question, first_below};
use crate::register::Register;
use crate::station_trace::StationTrace;
use crate::stations::{Meant, is_outside};
use crate::walk::first_entry;
use dis_records::{EntityId, SiteApplication, is_address_part};
use exercise_model::{ExerciseLog, Form};
use siman_pdus::{PduView, answers};

/// A station that an order is for, or one that answered it.
#[derive(Clone, Copy, PartialEq, Eq)]
pub enum Party {
    /// A recorded station, by its index.
    Station(u16),
    /// An address of no recorded station.
    Outside(SiteApplication),
}

/// First entry at which a station received an order.
#[tactic(auto, unfolding(crate::specs::Party::first_copy), using(crate::proofs::Under::under_steps))]
pub(crate) fn first_copy<L: ExerciseLog>(
    findings: &Register<'_, L>,
    order: &RecordedOrder<'_>,
    station: u16,
) -> Option<usize>
    ensures { result ≡ first_copy findings.now (order_of order.now) station }
{
    let gets = Gets {
        findings,
        station,
        request: &order.request,
    };
    first_entry(findings, order_key(station, &order.request), &gets)
}

/// Whether a recorded station received an order. `own` may give the data collected at the maker.
#[tactic(auto, unfolding(crate::specs::Party::first_copy))]
fn has_copy<L: ExerciseLog>(
    findings: &Register<'_, L>,
    order: &RecordedOrder<'_>,
    own: Option<StationTrace>,
    station: u16,
) -> bool
    requires { IsOwn findings.now (order_of order.now) own }
    ensures { result ≡ is_some (first_copy findings.now (order_of order.now) station) }
{
    match own {
        Some(gathered) if is_maker(order, station) => gathered.copies.first.is_some(),
        _ => first_copy(findings, order, station).is_some(),
    }
}

/// Whether a recorded station is a party of an order. `own` may give the data collected at the
/// maker.
#[tactic(auto, unfolding(crate::specs::Party::is_party))]
pub(crate) fn is_party_by<L: ExerciseLog>(
    findings: &Register<'_, L>,
    order: &RecordedOrder<'_>,
    own: Option<StationTrace>,
    station: u16,
) -> bool
    requires { IsOwn findings.now (order_of order.now) own }
    ensures { result ≡ is_party findings.now (order_of order.now) station }
{
    let meant = Meant {
        findings,
        pdu: &order.request,
    };
    meant.passes(usize::from(station))
        && (!is_maker(order, station) || has_copy(findings, order, own, station))
}

/// Whether a recorded station is a party of an order: the order addresses it; the maker itself only
/// if it received the order. Allocates no memory.
pub fn is_party<L: ExerciseLog>(
    findings: &Register<'_, L>,
    order: &RecordedOrder<'_>,
    station: u16,
) -> bool
    ensures { result ≡ is_party findings.now (order_of order.now) station }
{
    is_party_by(findings, order, None, station)
}

/// Whether a recorded station made an order.
pub(crate) fn is_maker(order: &RecordedOrder<'_>, station: u16) -> bool
    ensures { result ≡ same_id order.now.maker (Some station) }
{
    match order.maker {
        Some(maker) => maker == station,
        None => false,
    }
}

/// Whether a PDU answers an order and has this address outside as its origin.
fn is_answer_from<L: ExerciseLog>(
    findings: &Register<'_, L>,
    order: &RecordedOrder<'_>,
    from: SiteApplication,
    pdu: &PduView<'_>,
) -> bool
    ensures { result ≡ is_answer_from findings.now (order_of order.now) from (pdu_of pdu.now) }
{
    answers(pdu, &order.request)
        && is_outside(findings, pdu)
        && pdu.origin.site == from.site
        && pdu.origin.application == from.application
}

/// The test whether the maker of an order receives, at an entry after its head, an answer to it
/// from an address outside. Only the maker's first order under an identifier passes.
#[derive(Drop)]
pub(crate) struct HeardFrom<'a, L: ExerciseLog> {
    pub findings: &'a Register<'a, L>,
    pub order: &'a RecordedOrder<'a>,
    pub from: SiteApplication,
}

impl<L: ExerciseLog> Question for HeardFrom<'_, L> {
    ghost test = { λ q. is_heard_from q.findings.now (order_of q.order.now) q.from };

    #[tactic(auto, unfolding(crate::specs::Party::is_heard_from))]
    fn passes(&self, entry: usize) -> bool {
        if !self.order.is_first_under_id(self.findings) || self.order.head >= entry {
            return false;
        }
        let Some(maker) = self.order.maker else {
            return false;
        };
        match pdu_received(self.findings, maker, entry) {
            Some(pdu) => is_answer_from(self.findings, self.order, self.from, &pdu),
            None => false,
        }
    }
}

/// Whether an identifier names exactly this site and this application.
fn names(id: EntityId, address: SiteApplication) -> bool
    ensures { result ≡ names id address }
{
    is_address_part(address.site)
        && is_address_part(address.application)
        && id.site == address.site
        && id.application == address.application
}

/// The test whether a recorded station has an address.
#[derive(Drop)]
pub(crate) struct At<'a, L: ExerciseLog> {
    pub findings: &'a Register<'a, L>,
    pub address: SiteApplication,
}

impl<L: ExerciseLog> Question for At<'_, L> {
    ghost test = { λ q. is_at q.findings.now q.address };

    #[tactic(auto, unfolding(crate::specs::Party::is_at))]
    fn passes(&self, station: usize) -> bool {
        let log = self.findings.log();
        if station >= log.station_count() {
            return false;
        }
        let at = log.station(station).address();
        at.site() == self.address.site && at.application() == self.address.application
    }
}

/// Whether a recorded station has this address.
#[tactic(auto, unfolding(crate::specs::Party::is_recorded_at))]
fn is_recorded_at<L: ExerciseLog>(findings: &Register<'_, L>, address: SiteApplication) -> bool
    ensures { result ≡ is_recorded_at findings.now address }
{
    let stations = findings.log().station_count();
    first_below(&At { findings, address }, stations).is_some()
}

/// Whether an address of no recorded station is a party of an order that a recorded station made:
/// the recording is open, and the order names the address, or the maker received an answer from it.
/// Allocates no memory.
#[tactic(auto, unfolding(crate::specs::Party::is_party_outside), using(crate::proofs::Under::under_steps))]
pub fn is_party_outside<L: ExerciseLog>(
    findings: &Register<'_, L>,
    order: &RecordedOrder<'_>,
    address: SiteApplication,
) -> bool
    ensures { result ≡ is_party_outside findings.now (order_of order.now) address }
{
    if findings.log().form() != Form::Open
        || order.maker.is_none()
        || is_recorded_at(findings, address)
    {
        return false;
    }
    let told = HeardFrom {
        findings,
        order,
        from: address,
    };
    names(order.request.target, address)
        || first_entry(findings, order.maker_key(), &told).is_some()
}
