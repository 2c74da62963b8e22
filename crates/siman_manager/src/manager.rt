//! The manager of a station.

ghost use Rattle.std.specs.Prelude.{◌≡◌, ◌≤◌, ◌<◌, [], length, IfOk, IfErr, IfSome, None, Some, Err, false, IsTrue, MatchOption, slice_get, count_by};
ghost use Rattle.std.specs.Option.{option_map, option_map_or, option_copied};
ghost use Rattle.std.specs.Borrow.{sem};
ghost use Rattle.siman_pdus.specs.Role.{is_request_body};
ghost use Rattle.siman_manager.specs.Book.{Book, next_id, order_pdu, order_of, taken_as, repeated, status_of, is_given_up, is_due};
ghost use Rattle.siman_manager.specs.Viewed.{viewed, view_of};
ghost use Rattle.siman_manager.specs.Answers.{reported_by, refusal_of, book_after, ticked, taken};
ghost use Rattle.siman_manager.specs.Lending.{EndsRequested, EndsTicked};

use crate::fault::OrderFault;
use crate::kept::{OrderTable, count_given_up};
use crate::making::make;
use crate::order::{Order, OrderStatus, OrderView, Taken};
use crate::settings::Settings;
use crate::settling::{place_of, take};
use crate::walk::walk;
use dis_records::Address;
use siman_pdus::Pdu;
use std::alloc::Global;
use std::marker::Model;

/// The manager of a station: the orders that it made, each of which it repeats until it is answered
/// or given up. Contracts see it as its configuration and its orders, in order of making.
///
/// Only [`request`](Manager::request) takes memory. [`take`](Manager::take) and
/// [`status`](Manager::status) look one order up by its identifier. [`tick`](Manager::tick) looks
/// at orders in blocks of 64, and skips a block in one step until one of its orders is due.
/// [`given_up`](Manager::given_up) goes through all orders.
pub struct Manager {
    settings: Settings,
    orders: OrderTable,
    /// For each block of orders, a time before which none of them is due.
    times: Vec<u64>,
}

// Not derived: a caller that drops it makes one call, and does not drop each table.
impl Drop for Manager {
    fn drop(self) {
        let Manager {
            settings: _settings,
            orders: _orders,
            times: _times,
        } = self;
    }
}

impl Model for Manager {
    ghost use Rattle.siman_manager.specs.Book.{Book};

    ghost Value = { Book };

    ghost use Rattle.indexmap.specs.IndexMap.{values};
    ghost use Rattle.siman_manager.specs.Blocks.{IsRight};

    ghost view = { λ m. record { settings = m.settings; orders = values m.orders } };

    ghost invariant = { λ m. IsRight m.settings m.times.items m.orders };
}

impl Manager {
    /// A manager without orders, for an exercise and at an address. Its orders get the request
    /// identifiers from `first_id` on; each is sent at most `tries` times, a repeat no sooner than
    /// `wait` after the previous sending, in the units of `now`.
    pub fn begin(
        alloc: Global,
        exercise: u8,
        address: Address,
        first_id: u32,
        tries: u32,
        wait: u64,
    ) -> Manager
        requires { 1 ≤ tries }
        ensures settings { result.settings ≡ record { exercise = exercise; address = address; first_id = first_id; tries = tries; wait = wait } }
        ensures orders { result.orders ≡ [] }
    {
        Manager {
            settings: Settings {
                exercise,
                address,
                first_id,
                tries,
                wait,
            },
            orders: OrderTable::new(alloc),
            times: Vec::new(alloc),
        }
    }

    /// Makes an order at a time, and with a timestamp. Returns its request identifier and its PDU,
    /// which is to be sent: version 7, the exercise, status 0, from the manager's address with
    /// entity number 0. After a fault the manager is unchanged, and the order is dropped.
    pub fn request(&mut self, order: Order, now: u64, stamp: u32) -> Result<(u32, &Pdu), OrderFault>
        requires { IsTrue (is_request_body order.body) }
        ensures* ends { sem 𝓛 (EndsRequested self.entry order now stamp result) }
        // A refusal is returned,
        ensures refused { IfSome (refusal_of self.old order stamp) (λ fault. result ≡ Err fault) }
        // and no fault but that or lack of memory.
        ensures only { IfErr result (λ fault. refusal_of self.old order stamp ≡ reported_by fault) }
        ensures id { IfOk result (λ made. made.0 ≡ next_id self.old.settings (length self.old.orders)) }
        ensures pdu { IfOk result (λ made.
            made.1.now ≡ order_pdu self.old.settings (next_id self.old.settings (length self.old.orders)) order stamp) }
    {
        let place = self.orders.len();
        let id = self.make(order, now, stamp)?;
        Ok((id, &self.orders[place].pdu))
    }

    fn make(&mut self, order: Order, now: u64, stamp: u32) -> Result<u32, OrderFault>
        ensures after { self.new ≡ book_after self.old order now stamp result }
        ensures refused { IfSome (refusal_of self.old order stamp) (λ fault. result ≡ Err fault) }
        ensures only { IfErr result (λ fault. refusal_of self.old order stamp ≡ reported_by fault) }
        ensures id { IfOk result (λ id. id ≡ next_id self.old.settings (length self.old.orders)) }
    {
        make(
            &mut self.orders,
            &mut self.times,
            &self.settings,
            order,
            now,
            stamp,
        )
    }

    /// Looks for an order that is to be sent again, at a time and with a timestamp: the first, in
    /// order of making, that waits, was last sent at least `wait` ago and was sent fewer than
    /// `tries` times. Returns its PDU, which is to be sent. Gives up those before it that are due
    /// and were sent `tries` times.
    pub fn tick(&mut self, now: u64, stamp: u32) -> Option<&Pdu>
        ensures* ends { sem 𝓛 (EndsTicked self.entry now stamp) }
        ensures pdu { option_copied result ≡ repeated self.old.settings now stamp self.old.orders }
    {
        let place = self.walk(now, stamp)?;
        Some(&self.orders[place].pdu)
    }

    fn walk(&mut self, now: u64, stamp: u32) -> Option<usize>
        ensures after { self.new ≡ ticked self.old now stamp }
        ensures sent { MatchOption result (repeated self.old.settings now stamp self.old.orders ≡ None)
            (λ place. option_map (λ k. k.pdu) (slice_get self.new.orders place) ≡ repeated self.old.settings now stamp self.old.orders) }
        ensures within { IfSome result (λ place. place < length self.new.orders) }
    {
        walk(
            &mut self.orders,
            &mut self.times,
            &self.settings,
            now,
            stamp,
        )
    }

    /// Takes a received PDU. Only a PDU that is [`Taken::Answered`] changes anything: its order is
    /// answered then, also one that was given up. The first answer that settles an order to several
    /// stations settles it.
    pub fn take(&mut self, pdu: &Pdu) -> Taken
        ensures answer { result ≡ taken_as self.old.settings pdu.now self.old.orders }
        ensures after { self.new ≡ taken self.old pdu.now }
    {
        take(&mut self.orders, &self.settings, pdu)
    }

    /// State of the order with this request identifier, or `None` if none was made.
    pub fn status(&self, id: u32) -> Option<OrderStatus>
        ensures { result ≡ option_map status_of (order_of self.now.settings self.now.orders id) }
    {
        let place = place_of(&self.orders, self.settings.first_id, id)?;
        Some(self.orders[place].status())
    }

    /// Number of orders that are given up now.
    pub fn given_up(&self) -> usize
        ensures { result ≡ count_by is_given_up self.now.orders }
    {
        count_given_up(&self.orders)
    }

    /// Number of orders that were made.
    pub fn order_count(&self) -> usize
        ensures { result ≡ length self.now.orders }
    {
        self.orders.len()
    }

    /// The order that was made after `place` others, or `None` if none was.
    pub fn order(&self, place: usize) -> Option<OrderView<'_>>
        ensures { option_map viewed result ≡ option_map view_of (slice_get self.now.orders place) }
    {
        if place < self.orders.len() {
            Some(self.orders[place].view())
        } else {
            None
        }
    }

    /// Whether the order that was made after `place` others waits, and was last sent at least `wait`
    /// ago.
    pub fn is_due(&self, place: usize, now: u64) -> bool
        ensures { result ≡ option_map_or (is_due self.now.settings now) (slice_get self.now.orders place) false }
    {
        if place < self.orders.len() {
            self.orders[place].is_due(&self.settings, now)
        } else {
            false
        }
    }

    /// Most sendings of an order.
    pub fn tries(&self) -> u32
        ensures { result ≡ self.now.settings.tries }
    {
        self.settings.tries
    }
}
