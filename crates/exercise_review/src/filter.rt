//! Filters for the rows of a review.

ghost use Rattle.std.specs.Prelude.{◌≡◌, Some};
ghost use Rattle.siman_pdus.specs.Answers.{same_id};
ghost use Rattle.exercise_review.specs.Filter.{same_address, is_there, is_there_or_none, same_entity, covers_entity, passes_station, passes_order, passes_span, key_of, is_under, passes_under, holds_under, keeps};

use crate::fate::Fate;
use crate::span::Span;
use crate::tally::StationCounts;
use crate::told::OrderAt;
use dis_records::{EntityId, Kind, SiteApplication, addresses, is_open};

/// A filter: selects the rows with this value under one key.
#[derive(Clone, Copy)]
pub enum Filter {
    /// Rows of a station.
    Station(SiteApplication),
    /// Rows of an entity.
    Entity(EntityId),
    /// Rows of a request, by the address of its maker and its identifier.
    Request(SiteApplication, u32),
    /// Orders with a fate.
    Fate(Fate),
    /// Entries of this name.
    Kind(EntryName),
}

/// Name of an entry of a log.
#[derive(Clone, Copy, PartialEq, Eq)]
pub enum EntryName {
    /// Of an entry that sends or receives a PDU of this kind.
    Kind(Kind),
    /// Of a state report.
    Told,
    /// Of an entry that sends or receives a datagram that means nothing in the exercise.
    Other,
}

/// A row that filters may select. No call allocates memory.
pub trait Filtered {
    ghost use Rattle.std.specs.Prelude.{◌≡◌, Bool};
    ghost use Rattle.exercise_review.specs.declared.filter.Filter.{Filter};

    /// The filters that it passes.
    ghost test: { Self → Filter → Bool };

    /// Whether it passes a filter.
    fn passes(&self, filter: Filter) -> bool
        ensures { result ≡ test self.now filter };
}

fn same_address(one: SiteApplication, other: SiteApplication) -> bool
    ensures { result ≡ same_address one other }
{
    one.site == other.site && one.application == other.application
}

/// Whether an address is this one.
fn is_there(address: SiteApplication, at: Option<SiteApplication>) -> bool
    ensures { result ≡ is_there address at }
{
    match at {
        Some(at) => same_address(address, at),
        None => false,
    }
}

/// Whether an order covers an entity: it addresses the entity's station, and its entity number is
/// that of the entity or names no single entity.
fn covers_entity(entity: EntityId, order: &OrderAt) -> bool
    ensures { result ≡ covers_entity entity order.now }
{
    addresses(order.to, entity.site, entity.application)
        && (order.to.entity == entity.entity || is_open(order.kind, order.to.entity))
}

/// Whether an optional request identifier is this number.
fn is_request(request: Option<u32>, number: u32) -> bool
    ensures { result ≡ same_id request (Some number) }
{
    match request {
        Some(request) => request == number,
        None => false,
    }
}

impl Filtered for StationCounts {
    ghost test = { passes_station };

    fn passes(&self, filter: Filter) -> bool {
        match filter {
            Filter::Station(address) => same_address(address, self.at),
            _ => false,
        }
    }
}

impl Filtered for OrderAt {
    ghost test = { passes_order };

    fn passes(&self, filter: Filter) -> bool {
        match filter {
            Filter::Station(address) => same_address(address, self.from)
                || is_there(address, self.at),
            Filter::Entity(entity) => {
                (self.at.is_none() || is_there(entity.site_application(), self.at))
                    && covers_entity(entity, self)
            }
            Filter::Request(address, number) => {
                same_address(address, self.from) && is_request(self.request, number)
            }
            Filter::Fate(fate) => fate.number() == self.outcome.fate.number(),
            Filter::Kind(_) => false,
        }
    }
}

impl Filtered for Span {
    ghost test = { passes_span };

    fn passes(&self, filter: Filter) -> bool {
        match filter {
            Filter::Station(address) => same_address(address, self.entity.site_application()),
            Filter::Entity(entity) => {
                same_address(entity.site_application(), self.entity.site_application())
                    && entity.entity == self.entity.entity
            }
            Filter::Request(address, number) => {
                is_there(address, self.by) && is_request(self.request, number)
            }
            Filter::Fate(_) | Filter::Kind(_) => false,
        }
    }
}

impl Filter {
    /// Number of its key, from 0.
    fn key(self) -> u8
        ensures { result ≡ key_of self }
    {
        match self {
            Filter::Station(_) => 0,
            Filter::Entity(_) => 1,
            Filter::Request(_, _) => 2,
            Filter::Fate(_) => 3,
            Filter::Kind(_) => 4,
        }
    }
}

/// Whether a row passes one of the filters under a key, or there are none under it.
#[tactic(auto, unfolding(crate::specs::Filter::holds_under))]
fn holds_under<T: Filtered>(filters: &[Filter], item: &T, key: u8) -> bool
    ensures { result ≡ holds_under (T.test item.now) filters.now key }
{
    let mut any = false;
    let mut passed = false;
    for filter in filters {
        if filter.key() == key {
            any = true;
            passed = passed || item.passes(*filter);
        }
    }
    !any || passed
}

/// As [`keeps`], key by key.
#[tactic(auto, unfolding(crate::specs::Filter::keeps))]
fn keeps_some<T: Filtered>(filters: &[Filter], item: &T) -> bool
    ensures { result ≡ keeps filters.now (T.test item.now) }
{
    holds_under(filters, item, 0)
        && holds_under(filters, item, 1)
        && holds_under(filters, item, 2)
        && holds_under(filters, item, 3)
        && holds_under(filters, item, 4)
}

/// Whether filters select a row: under each key that has filters, it passes one of them. Without
/// filters, which is the usual case, true at once.
#[tactic(auto, using(crate::proofs::Unfiltered::none_keep))]
pub fn keeps<T: Filtered>(filters: &[Filter], item: &T) -> bool
    ensures { result ≡ keeps filters.now (T.test item.now) }
{
    filters.is_empty() || keeps_some(filters, item)
}
