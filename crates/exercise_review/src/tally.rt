//! Counts of the fates of orders, and counts of each station.

ghost use Rattle.std.specs.Prelude.{◌≡◌, ◌<◌, ◌≤◌, ◌+◌, ◌*◌, List, length, map, IfOk, slice_index_or, [], ℕ};
ghost use Rattle.exercise_model.specs.Account.{values_below};
ghost use Rattle.exercise_model.specs.Recording.{PlainRecording};
ghost use Rattle.exercise_review.specs.Order.{OrderData};
ghost use Rattle.exercise_review.specs.Row.{AreRows};
ghost use Rattle.exercise_review.specs.Tally.{fate_number, is_fate_at, passes_at, many, fate_counts, fates_of, is_made_by, is_running, row_place, row_places, row_numbers, makers_of, maker_places, ArePresent, IsReviewBelow, AreCounted, station_counts};
ghost use Rattle.exercise_review.specs.declared.fate.Fate.{Fate};
ghost use Rattle.exercise_review.specs.declared.told.OrderAt.{OrderAt};

use crate::counting::{Placing, counts_of};
use crate::fate::Fate;
use crate::party::Party;
use crate::question::{Question, count_below};
use crate::row::OrderRow;
use crate::told::OrderReview;
use dis_records::{EntityState, SiteApplication};
use exercise_model::ExerciseLog;
use std::alloc::{AllocError, Global};

/// The number of fates.
const FATES: usize = 9;

/// Number of orders at their parties with each fate.
#[derive(Clone, Copy, PartialEq, Eq)]
pub struct FateCounts {
    pub done: usize,
    pub answered: usize,
    pub refused: usize,
    pub pending: usize,
    pub unheard: usize,
    pub unanswered: usize,
    pub lost: usize,
    pub unknown: usize,
    /// Orders without any party.
    pub nobody: usize,
}

/// Counts of a recorded station.
#[derive(Clone, Copy, PartialEq, Eq)]
pub struct StationCounts {
    /// Its address.
    pub at: SiteApplication,
    /// Number of entries in its log.
    pub records: usize,
    /// Number of orders that it made.
    pub made: usize,
    /// Fates of the orders that it was party to.
    pub fates: FateCounts,
    /// Number of its entities that are not Absent at the end.
    pub entities: usize,
    /// Number of its entities that are Running at the end.
    pub running: usize,
}

impl Fate {
    /// Its number, from 0, by which it is counted.
    pub(crate) fn number(self) -> u8
        ensures { result ≡ fate_number self }
    {
        match self {
            Fate::Done => 0,
            Fate::Answered => 1,
            Fate::Refused => 2,
            Fate::Pending => 3,
            Fate::Unheard => 4,
            Fate::Unanswered => 5,
            Fate::Lost => 6,
            Fate::Unknown => 7,
            Fate::Nobody => 8,
        }
    }
}

/// The fate of each order at a party, by its number.
#[derive(Drop)]
struct FateNumbers<'a> {
    rows: &'a [OrderRow],
}

impl Placing for FateNumbers<'_> {
    ghost places = { λ q. row_numbers q.rows.now };

    #[tactic(auto, unfolding(crate::specs::Tally::row_numbers))]
    fn place(&self, number: usize) -> Option<usize> {
        match self.rows.get(number) {
            Some(row) => Some(usize::from(row.fate.number())),
            None => None,
        }
    }
}

/// Number of these orders at their parties with each fate.
#[tactic(auto, using(crate::proofs::Places::all_fates))]
pub(crate) fn fates_of(alloc: Global, rows: &[OrderRow]) -> Result<FateCounts, AllocError>
    ensures { (r : PlainRecording) (told : List OrderAt) → AreRows r rows.now told → IfOk result (λ counts. counts ≡ fates_of told) }
{
    let counts = counts_of(alloc, &FateNumbers { rows }, rows.len(), FATES)?;
    Ok(fates_from(&counts, 0))
}

/// Counter of an order at a recorded party: each station has one for each fate.
fn row_place(row: &OrderRow) -> Option<usize>
    ensures { result ≡ row_place row.now }
{
    match row.party {
        Some(Party::Station(station)) => {
            Some(usize::from(station) * FATES + usize::from(row.fate.number()))
        }
        Some(Party::Outside(_)) | None => None,
    }
}

/// The counter of each order at a party.
#[derive(Drop)]
struct FatePlaces<'a> {
    rows: &'a [OrderRow],
}

impl Placing for FatePlaces<'_> {
    ghost places = { λ q. row_places q.rows.now };

    #[tactic(auto, unfolding(crate::specs::Tally::row_places))]
    fn place(&self, number: usize) -> Option<usize> {
        row_place(self.rows.get(number)?)
    }
}

/// The station that made each order.
#[derive(Drop)]
struct MakerPlaces<'a> {
    makers: &'a [Option<u16>],
}

impl Placing for MakerPlaces<'_> {
    ghost places = { λ q. maker_places q.makers.now };

    #[tactic(auto, unfolding(crate::specs::Tally::maker_places))]
    fn place(&self, number: usize) -> Option<usize> {
        match *self.makers.get(number)? {
            Some(maker) => Some(usize::from(maker)),
            None => None,
        }
    }
}

/// Number of these orders that each station made.
#[tactic(auto, using(crate::proofs::Places::orders_counted))]
fn orders_by_station(
    alloc: Global,
    makers: &[Option<u16>],
    stations: usize,
) -> Result<Vec<usize>, AllocError>
    ensures each { (orders : List OrderData) → makers.now ≡ makers_of orders → IfOk result (λ counts. (s : ℕ) → s < stations → slice_index_or counts.items s 0 ≡ many (is_made_by s) orders) }
    ensures count { IfOk result (λ counts. length counts.items ≡ stations) }
{
    counts_of(alloc, &MakerPlaces { makers }, makers.len(), stations)
}

/// Number of these orders at their parties with each fate at each station, nine counters for a
/// station.
#[tactic(auto, using(crate::proofs::Places::fates_counted, crate::proofs::Places::place_within))]
fn fates_by_station(
    alloc: Global,
    rows: &[OrderRow],
    stations: usize,
) -> Result<Vec<usize>, AllocError>
    requires { stations ≤ 65536 }
    ensures each { (r : PlainRecording) (told : List OrderAt) → AreRows r rows.now told → IfOk result (λ counts. (s : ℕ) → s < stations → (f : Fate) → slice_index_or counts.items (s * 9 + fate_number f) 0 ≡ many (is_fate_at s f) told) }
    ensures count { IfOk result (λ counts. length counts.items ≡ stations * 9) }
{
    counts_of(alloc, &FatePlaces { rows }, rows.len(), stations * FATES)
}

/// The nine counts of all fates, from an index on.
fn fates_from(counts: &[usize], first: usize) -> FateCounts
    requires { first + 9 ≤ length counts.now }
    ensures { result ≡ fate_counts (λ f. slice_index_or counts.now (first + fate_number f) 0) }
{
    FateCounts {
        done: counts[first],
        answered: counts[first + 1],
        refused: counts[first + 2],
        pending: counts[first + 3],
        unheard: counts[first + 4],
        unanswered: counts[first + 5],
        lost: counts[first + 6],
        unknown: counts[first + 7],
        nobody: counts[first + 8],
    }
}

/// The test whether an entity is Running.
#[derive(Drop)]
struct AreRunning<'a> {
    present: &'a [(u16, EntityState)],
}

impl Question for AreRunning<'_> {
    ghost test = { λ q. passes_at is_running q.present.now };

    #[tactic(auto, unfolding(crate::specs::Tally::passes_at))]
    fn passes(&self, place: usize) -> bool {
        match self.present.get(place) {
            Some(present) => present.1 == EntityState::Running,
            None => false,
        }
    }
}

/// Number of these entities that are Running.
#[tactic(auto, unfolding(crate::specs::Tally::many))]
fn running_of(present: &[(u16, EntityState)]) -> usize
    ensures { result ≡ many is_running present.now }
{
    count_below(&AreRunning { present }, present.len())
}

/// Counts of the orders by maker, and of the orders at their parties by station and fate.
#[derive(Drop)]
struct Counts {
    made: Vec<usize>,
    fates: Vec<usize>,
}

/// Counts the orders that each station made, and the fates of those that it was party to.
#[tactic(auto, using(crate::proofs::Places::orders_of_makers, crate::proofs::Places::orders_are_told))]
fn counts_by_station<L: ExerciseLog>(
    alloc: Global,
    log: &L,
    told: &OrderReview,
) -> Result<Counts, AllocError>
    requires { let r = L.recording log.now in IsReviewBelow r (length r.entries) told.now }
    ensures { IfOk result (AreCounted (L.recording log.now)) }
{
    let stations = log.station_count();
    let made = orders_by_station(alloc, &told.makers, stations)?;
    let fates = fates_by_station(alloc, &told.rows, stations)?;
    Ok(Counts { made, fates })
}

/// The entities of a station that exist at the end, from those of all stations.
fn present_at(states: &[Vec<(u16, EntityState)>], station: usize) -> &[(u16, EntityState)]
    ensures { result.now ≡ slice_index_or (map (λ v. v.items) states.now) station [] }
{
    match states.get(station) {
        Some(present) => present.as_slice(),
        None => &[],
    }
}

/// Counts of a station, given the review of the entries and the counts of the orders.
#[tactic(auto, using(crate::proofs::Places::fates_are, crate::proofs::Places::records_told), unfolding(crate::specs::Tally::station_counts))]
fn station_counts<L: ExerciseLog>(
    log: &L,
    states: &[Vec<(u16, EntityState)>],
    told: &OrderReview,
    counts: &Counts,
    station: u16,
) -> StationCounts
    requires states { ArePresent (L.recording log.now) (map (λ v. v.items) states.now) }
    requires told { let r = L.recording log.now in IsReviewBelow r (length r.entries) told.now }
    requires counts { AreCounted (L.recording log.now) counts.now }
    requires within { station < length (L.recording log.now).setting.stations }
    ensures { result ≡ station_counts (L.recording log.now) station }
{
    let station = usize::from(station);
    let present = present_at(states, station);
    StationCounts {
        at: log.station(station).address().site_application(),
        records: told.records[station],
        made: counts.made[station],
        fates: fates_from(&counts.fates, station * FATES),
        entities: present.len(),
        running: running_of(present),
    }
}

/// Counts of each station, by rising address.
#[tactic(auto, using(exercise_model::proofs::Offered::account_steps))]
pub(crate) fn counts_of_stations<L: ExerciseLog>(
    alloc: Global,
    log: &L,
    states: &[Vec<(u16, EntityState)>],
    told: &OrderReview,
) -> Result<Vec<StationCounts>, AllocError>
    requires states { ArePresent (L.recording log.now) (map (λ v. v.items) states.now) }
    requires told { let r = L.recording log.now in IsReviewBelow r (length r.entries) told.now }
    ensures { let r = L.recording log.now in IfOk result (λ counts. counts.items ≡ values_below (station_counts r) (length r.setting.stations)) }
{
    let counted = counts_by_station(alloc, log, told)?;
    let mut counts = Vec::new(alloc);
    for station in 0..log.station_count() {
        counts.push(station_counts(log, states, told, &counted, station as u16))?;
    }
    Ok(counts)
}
