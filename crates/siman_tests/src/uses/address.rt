//! How addresses are sorted.

ghost use Rattle.std.specs.Prelude.{IsTrue, ◌↔◌};
ghost use Rattle.dis_records.specs.Address.{IsBefore};

use dis_records::{Address, addresses_are_ordered};
use std::cmp::Ordering;

/// Whether an address is before another in a recording, where stations are sorted by site, and
/// within a site by application.
pub fn comes_before(a: Address, b: Address) -> bool
    ensures { IsTrue result ↔ IsBefore a b }
{
    addresses_are_ordered(a, b);
    a.cmp(&b) == Ordering::Less
}
