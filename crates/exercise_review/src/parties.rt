//! The parties of an order, by rising address.

ghost use Rattle.std.specs.Prelude.{◌≡◌, ◌≢◌, ◌<◌, ◌≤◌, ◌+◌, ℕ, nat_lt, IsTrue, true, false, [], length, option_map, IfOk, OnOk, IfSome};
ghost use Rattle.dis_records.specs.Entity.{site_application_of, is_addressed};
ghost use Rattle.exercise_model.specs.History.{station_at};
ghost use Rattle.exercise_model.specs.Recording.{IsRecording};
ghost use Rattle.exercise_review.specs.StationTrace.{IsOwn};
ghost use Rattle.exercise_review.specs.Order.{order_of};
ghost use Rattle.exercise_review.specs.Parties.{number_of, addresses, maker_address, party_address, party_at, parties_of, has_outsiders, number_heard, candidate_at, lower_party, IsNextParty};

use crate::entries::{entry_count, pdu_received};
use crate::order::RecordedOrder;
use crate::party::{At, Party, is_party, is_party_by, is_party_outside};
use crate::question::first_below;
use crate::register::Register;
use crate::station_trace::StationTrace;
use dis_records::{EntityId, SiteApplication};
use exercise_model::{ExerciseLog, Form};
use std::alloc::{AllocError, Global};

/// All sites or all applications, in its place (IEEE 1278.1-2012, 6.2.28).
const ALL: u16 = 0xFFFF;

/// Site and application of a recorded station; 0 and 0 past the last.
pub(crate) fn station_parts<L: ExerciseLog>(
    findings: &Register<'_, L>,
    station: u16,
) -> SiteApplication
    ensures { result ≡ (station_at findings.now station).address }
{
    parts_at(findings.log(), station)
}

/// Site and application of a station of a log; 0 and 0 past the last.
pub(crate) fn parts_at<L: ExerciseLog>(log: &L, station: u16) -> SiteApplication
    ensures { result ≡ (station_at (L.recording log.now) station).address }
{
    let station = usize::from(station);
    if station < log.station_count() {
        log.station(station).address().site_application()
    } else {
        SiteApplication {
            site: 0,
            application: 0,
        }
    }
}

/// Site and application of the maker of an order, given a log.
pub(crate) fn maker_in<L: ExerciseLog>(log: &L, order: &RecordedOrder<'_>) -> SiteApplication
    ensures { result ≡ maker_address (L.recording log.now) (order_of order.now) }
{
    match order.maker {
        Some(station) => parts_at(log, station),
        None => order.request.origin.site_application(),
    }
}

/// Site and application of a party, given a log; 0 and 0 for a station past the last.
pub(crate) fn address_in<L: ExerciseLog>(log: &L, party: Party) -> SiteApplication
    ensures { result ≡ party_address (L.recording log.now) party }
{
    match party {
        Party::Station(station) => parts_at(log, station),
        Party::Outside(address) => address,
    }
}

impl RecordedOrder<'_> {
    /// Site and application of its maker: those of the recorded station, or of the origin of the
    /// request.
    pub fn from<L: ExerciseLog>(&self, findings: &Register<'_, L>) -> SiteApplication
        ensures { result ≡ maker_address findings.now (order_of self.now) }
    {
        maker_in(findings.log(), self)
    }
}

impl Party {
    /// Site and application of the party; 0 and 0 for a station past the last.
    pub fn address<L: ExerciseLog>(self, findings: &Register<'_, L>) -> SiteApplication
        ensures { result ≡ party_address findings.now self }
    {
        address_in(findings.log(), self)
    }
}

/// Rank of an address: site times 65,536 plus application.
fn number_of(address: SiteApplication) -> u64
    ensures number { result ≡ number_of address }
    ensures within { result < addresses }
{
    u64::from(address.site) * 65_536 + u64::from(address.application)
}

/// The party at an address, if any.
#[tactic(auto, unfolding(crate::specs::Parties::party_at))]
fn party_at<L: ExerciseLog>(
    findings: &Register<'_, L>,
    order: &RecordedOrder<'_>,
    address: SiteApplication,
) -> Option<Party>
    ensures { result ≡ party_at findings.now (order_of order.now) address }
{
    let at = At { findings, address };
    match first_below(&at, findings.log().station_count()) {
        Some(station) if is_party(findings, order, station as u16) => {
            Some(Party::Station(station as u16))
        }
        None if is_party_outside(findings, order, address) => Some(Party::Outside(address)),
        _ => None,
    }
}

/// Origin of the PDU that the maker of an order received at an entry, if any.
fn heard_from<L: ExerciseLog>(
    findings: &Register<'_, L>,
    order: &RecordedOrder<'_>,
    entry: usize,
) -> Option<SiteApplication>
    ensures { option_map number_of result ≡ number_heard findings.now (order_of order.now) entry }
{
    match pdu_received(findings, order.maker?, entry) {
        Some(pdu) => Some(pdu.origin.site_application()),
        None => None,
    }
}

/// Candidate address of a party at a place of the search: first the recorded stations, then the
/// target, then for each entry the origin of the PDU that the maker received there.
fn candidate<L: ExerciseLog>(
    findings: &Register<'_, L>,
    order: &RecordedOrder<'_>,
    place: usize,
) -> Option<SiteApplication>
    ensures { option_map number_of result ≡ candidate_at findings.now (order_of order.now) place }
{
    let stations = findings.log().station_count();
    if place < stations {
        Some(station_parts(findings, place as u16))
    } else if place == stations {
        Some(order.request.target.site_application())
    } else {
        heard_from(findings, order, place - stations - 1)
    }
}

/// The lower of two parties: the best so far, or the party at `address`, if any, whose rank is
/// `first` or higher.
fn lower_party<L: ExerciseLog>(
    findings: &Register<'_, L>,
    order: &RecordedOrder<'_>,
    first: u64,
    next: Option<(u64, Party)>,
    address: SiteApplication,
) -> Option<(u64, Party)>
    ensures next { result ≡ lower_party findings.now (order_of order.now) first next (number_of address) }
    ensures within { number_of address < addresses }
{
    let number = number_of(address);
    if number < first {
        return next;
    }
    match next {
        Some((best, _)) if best <= number => return next,
        _ => {}
    }
    match party_at(findings, order, address) {
        Some(party) => Some((number, party)),
        None => next,
    }
}

/// The party of an order with the lowest rank from `first` on, with its rank.
fn next_party<L: ExerciseLog>(
    findings: &Register<'_, L>,
    order: &RecordedOrder<'_>,
    first: u64,
) -> Option<(u64, Party)>
    ensures { IsNextParty findings.now (order_of order.now) first result }
{
    let mut next = None;
    let places = findings.log().station_count() + 1 + entry_count(findings);
    for place in 0..places {
        if let Some(address) = candidate(findings, order, place) {
            next = lower_party(findings, order, first, next, address);
        }
    }
    next
}

/// Whether an unrecorded station may be a party of an order: the recording is open, and a recorded
/// station made the order.
fn has_outsiders<L: ExerciseLog>(findings: &Register<'_, L>, order: &RecordedOrder<'_>) -> bool
    ensures { result ≡ has_outsiders findings.now (order_of order.now) }
{
    findings.log().form() == Form::Open && order.maker.is_some()
}

/// All parties of an order, found by a search over the whole log for each.
#[tactic(auto, unfolding(crate::specs::Parties::parties_of))]
fn parties_by_search<L: ExerciseLog>(
    parties: &mut Vec<Party>,
    findings: &Register<'_, L>,
    order: &RecordedOrder<'_>,
) -> Result<(), AllocError>
    requires { parties.old.items ≡ [] }
    ensures { OnOk result (parties.new.items ≡ parties_of findings.now (order_of order.now)) }
{
    let mut first = 0;
    while let Some((number, party)) = next_party(findings, order, first) {
        parties.push(party)?;
        first = number + 1;
    }
    Ok(())
}

/// Whether a recorded station has an address of a lower rank than `number`.
fn is_below<L: ExerciseLog>(log: &L, station: usize, number: u64) -> bool
    requires { station < length (L.recording log.now).setting.stations }
    ensures { result ≡ nat_lt (number_of (station_at (L.recording log.now) station).address) number }
{
    number_of(log.station(station).address().site_application()) < number
}

/// Number of recorded stations whose address has a lower rank than `number`.
fn stations_below<L: ExerciseLog>(log: &L, number: u64) -> usize
    ensures within { result ≤ length (L.recording log.now).setting.stations }
    ensures below { (s : ℕ) → s < result → number_of (station_at (L.recording log.now) s).address < number }
    ensures from { (s : ℕ) → result ≤ s → s < length (L.recording log.now).setting.stations → number ≤ number_of (station_at (L.recording log.now) s).address }
{
    let mut low = 0;
    let mut high = log.station_count();
    while low < high {
        let middle = low + (high - low) / 2;
        if is_below(log, middle, number) {
            low = middle + 1;
        } else {
            high = middle;
        }
    }
    low
}

/// Whether an identifier names one site and one application.
fn names_one(target: EntityId) -> bool
    ensures { IsTrue result → (target.site ≢ 65535) × (target.application ≢ 65535) }
{
    target.site != ALL && target.application != ALL
}

/// A range of recorded stations, its start and its exclusive end, with all that an identifier
/// addresses: all stations if it names all sites or all applications, else at most the one at its
/// address.
fn addressed_among<L: ExerciseLog>(findings: &Register<'_, L>, target: EntityId) -> (usize, usize)
    ensures limits { IsRecording findings.now }
    ensures within { (result.0 ≤ result.1) × (result.1 ≤ length findings.now.setting.stations) }
    ensures all { (s : ℕ) → s < length findings.now.setting.stations → is_addressed target (station_at findings.now s).address ≡ true → (result.0 ≤ s) × (s < result.1) }
{
    let log = findings.log();
    let count = log.station_count();
    if !names_one(target) {
        return (0, count);
    }
    let at = stations_below(log, number_of(target.site_application()));
    if at < count { (at, at + 1) } else { (at, at) }
}

/// The parties of an order that can have only recorded stations as parties.
fn station_parties<L: ExerciseLog>(
    parties: &mut Vec<Party>,
    findings: &Register<'_, L>,
    order: &RecordedOrder<'_>,
    own: Option<StationTrace>,
) -> Result<(), AllocError>
    requires none { parties.old.items ≡ [] }
    requires recorded { has_outsiders findings.now (order_of order.now) ≡ false }
    requires own { IsOwn findings.now (order_of order.now) own }
    ensures { OnOk result (parties.new.items ≡ parties_of findings.now (order_of order.now)) }
{
    let (from, to) = addressed_among(findings, order.request.target);
    for station in from..to {
        if is_party_by(findings, order, own, station as u16) {
            parties.push(Party::Station(station as u16))?;
        }
    }
    Ok(())
}

/// The parties of an order, written over the contents of `parties`. `own` may give the data
/// collected at the maker.
pub(crate) fn parties_by<L: ExerciseLog>(
    parties: &mut Vec<Party>,
    findings: &Register<'_, L>,
    order: &RecordedOrder<'_>,
    own: Option<StationTrace>,
) -> Result<(), AllocError>
    requires { IsOwn findings.now (order_of order.now) own }
    ensures { OnOk result (parties.new.items ≡ parties_of findings.now (order_of order.now)) }
{
    parties.clear();
    if has_outsiders(findings, order) {
        parties_by_search(parties, findings, order)
    } else {
        station_parties(parties, findings, order, own)
    }
}

/// The parties of an order, by rising address: the recorded stations that it is for, and the
/// unrecorded ones that took part. Searches the whole log for each party only if there may be
/// unrecorded ones.
pub fn parties_of<L: ExerciseLog>(
    alloc: Global,
    findings: &Register<'_, L>,
    order: &RecordedOrder<'_>,
) -> Result<Vec<Party>, AllocError>
    ensures { IfOk result (λ parties. parties.items ≡ parties_of findings.now (order_of order.now)) }
{
    let mut parties = Vec::new(alloc);
    parties_by(&mut parties, findings, order, None)?;
    Ok(parties)
}
