//! Table of the orders of a manager.

ghost use Rattle.std.specs.Prelude.{◌≡◌, count_by};
ghost use Rattle.indexmap.specs.IndexMap.{values};
ghost use Rattle.siman_manager.specs.Book.{status_of, is_given_up, is_due};
ghost use Rattle.siman_manager.specs.Viewed.{viewed, view_of};

use crate::order::{OrderStatus, OrderView};
use crate::settings::Settings;
use indexmap::IndexMap;
use siman_pdus::Pdu;

/// Whether an order is still to be sent.
#[derive(Clone, Copy)]
pub(crate) enum OrderStanding {
    Waiting,
    Answered,
    GivenUp,
}

/// An order that was made.
#[derive(Drop)]
pub(crate) struct MadeOrder {
    /// Its PDU, as it was last sent.
    pub pdu: Pdu,
    /// How often it was sent.
    pub sends: u32,
    /// Time of its last sending.
    pub last: u64,
    pub standing: OrderStanding,
}

impl MadeOrder {
    pub(crate) fn status(&self) -> OrderStatus
        ensures { result ≡ status_of self.now }
    {
        match self.standing {
            OrderStanding::Waiting => OrderStatus::Waiting(self.sends),
            OrderStanding::Answered => OrderStatus::Answered,
            OrderStanding::GivenUp => OrderStatus::GivenUp,
        }
    }

    /// The order, as it stands.
    pub(crate) fn view(&self) -> OrderView<'_>
        ensures { viewed result ≡ view_of self.now }
    {
        OrderView {
            pdu: &self.pdu,
            sends: self.sends,
            last: self.last,
            status: self.status(),
        }
    }

    /// Whether it waits, and was last sent at least `wait` ago.
    pub(crate) fn is_due(&self, settings: &Settings, now: u64) -> bool
        ensures { result ≡ is_due settings.now now self.now }
    {
        match self.standing {
            OrderStanding::Waiting => now.saturating_sub(self.last) >= settings.wait,
            OrderStanding::Answered | OrderStanding::GivenUp => false,
        }
    }

    fn is_given_up(&self) -> bool
        ensures { result ≡ is_given_up self.now }
    {
        match self.standing {
            OrderStanding::GivenUp => true,
            OrderStanding::Waiting | OrderStanding::Answered => false,
        }
    }
}

/// Orders by identifier, in order of making.
pub(crate) type OrderTable = IndexMap<u32, MadeOrder>;

pub(crate) fn count_given_up(orders: &OrderTable) -> usize
    ensures { result ≡ count_by is_given_up (values orders.now) }
{
    let mut count = 0;
    for place in 0..orders.len() {
        if orders[place].is_given_up() {
            count += 1;
        }
    }
    count
}
