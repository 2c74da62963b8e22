//! What the lines of a plan did.

ghost use Rattle.std.specs.Prelude.{◌≡◌, ◌<◌, ◌≤◌, ◌++◌, length, take, drop, OnOk, IfSome, slice_get};
ghost use Rattle.siman_plans.specs.Sent.{new_sent, one_more, received_at, answer_after, brought_to, meant, is_order};

use dis_records::EntityState;
use std::alloc::{AllocError, Global};
use std::marker::Model;

/// What a line of a plan did. Stations are meant by their index in the world, datagrams by their
/// number, both from 0.
#[derive(Clone, Copy)]
pub(crate) enum Deed {
    /// It set the clocks; `is_back`: to a time below the one before.
    Set {
        is_back: bool,
    },
    /// A station sent an order as this datagram. The label is meant by its index.
    Ordered {
        station: u16,
        sends: u32,
        label: Option<usize>,
    },
    /// A station looked for a repeat that is due, and sent it as this datagram, if there was one.
    Ticked {
        station: u16,
        sends: Option<u32>,
        label: Option<usize>,
    },
    /// A station told the state of the entity of this number.
    Told {
        station: u16,
        entity: u16,
        state: EntityState,
    },
    /// A datagram was brought to a station, which sent this answer, if any.
    Brought {
        station: u16,
        brings: u32,
        answers: Option<u32>,
    },
    /// It is meant that this datagram reaches nobody.
    Lost {
        datagram: u32,
    },
}

/// What the line of this number, from 1, did.
#[derive(Clone, Copy)]
pub(crate) struct PlannedLine {
    pub line: usize,
    pub did: Deed,
}

/// How often a datagram was brought to a station.
#[derive(Clone, Copy)]
pub(crate) struct Receipt {
    pub station: u16,
    pub times: u32,
}

/// What became of a sent datagram. Contracts see its lists.
#[derive(Drop)]
pub(crate) struct SentDatagram {
    /// The line whose move sent it, from 1.
    pub line: usize,
    /// It is an order, as its manager sent it first.
    pub is_order: bool,
    /// It is meant that it reaches nobody.
    pub is_meant: bool,
    /// The answer to its last delivery that was answered.
    pub answer: Option<u32>,
    /// The station to which it was brought last.
    pub last: Option<u16>,
    /// The stations to which it was brought, in rising order, and how often.
    pub receipts: Vec<Receipt>,
}

impl Deed {
    /// Whether it is an order.
    pub(crate) fn is_order(self) -> bool
        ensures { result ≡ is_order self }
    {
        matches!(self, Deed::Ordered { .. })
    }
}

impl Model for SentDatagram {
    ghost use Rattle.siman_plans.specs.Sent.{SentData};

    ghost Value = { SentData };

    ghost view = { λ d. record { line = d.line; is_order = d.is_order; is_meant = d.is_meant; answer = d.answer; last = d.last; receipts = d.receipts.items } };
}

/// One more, up to the largest number.
fn one_more(times: u32) -> u32
    ensures { result ≡ one_more times }
{
    if times < u32::MAX { times + 1 } else { times }
}

/// The index of the first receipt at this station or behind it.
fn place_of(receipts: &[Receipt], station: u16) -> usize
    ensures within { result ≤ length receipts.now }
    ensures before { received_at station receipts.now ≡ take result receipts.now ++ received_at station (drop result receipts.now) }
    ensures there { IfSome (slice_get receipts.now result) (λ r. station ≤ r.station) }
{
    let mut place = 0;
    while place < receipts.len() && receipts[place].station < station {
        place += 1;
    }
    place
}

/// Counts one more receipt at a station.
fn count_receipt(receipts: &mut Vec<Receipt>, station: u16) -> Result<(), AllocError>
    ensures { OnOk result (receipts.new.items ≡ received_at station receipts.old.items) }
{
    let place = place_of(receipts, station);
    if place < receipts.len() && receipts[place].station == station {
        receipts[place].times = one_more(receipts[place].times);
        return Ok(());
    }
    receipts.insert(place, Receipt { station, times: 1 })?;
    Ok(())
}

impl SentDatagram {
    /// A datagram that was just sent.
    pub(crate) fn new(alloc: Global, line: usize, is_order: bool) -> SentDatagram
        ensures { result ≡ new_sent line is_order }
    {
        SentDatagram {
            line,
            is_order,
            is_meant: false,
            answer: None,
            last: None,
            receipts: Vec::new(alloc),
        }
    }

    /// Counts one more delivery to a station, which sent this answer, if any.
    pub(crate) fn bring(&mut self, station: u16, answer: Option<u32>) -> Result<(), AllocError>
        ensures { OnOk result (self.new ≡ brought_to station answer self.old) }
    {
        count_receipt(&mut self.receipts, station)?;
        self.last = Some(station);
        if answer.is_some() {
            self.answer = answer;
        }
        Ok(())
    }

    /// It is meant that it reaches nobody.
    pub(crate) fn mean(&mut self)
        ensures { self.new ≡ meant self.old }
    {
        self.is_meant = true;
    }
}
