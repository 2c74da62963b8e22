//! Turns of the stations: when the next entry of each may happen, and whose is first.

ghost use Rattle.std.specs.Prelude.{◌≡◌, ◌<◌, ◌≤◌, ◌+◌, ◌/◌, ℕ, length, None, slice_set, IfOk, option_map};
ghost use Rattle.exercise_model.specs.declared.station.TheConstants.{MOST_STATIONS};
ghost use Rattle.exercise_audit.specs.Turns.{turn_of, is_before, earlier_of, node_at, AreInner, AreInnerBut, IsFirstTurn};

use std::alloc::{AllocError, Global};
use std::marker::Model;

/// When an entry may happen: at its stamp, and among entries with the same stamp by its number.
#[derive(Clone, Copy)]
pub(crate) struct Moment {
    /// Stamp of the entry.
    pub stamp: u64,
    /// Number of the entry in the recording, from 0.
    pub entry: usize,
}

/// A station and the moment of its next entry.
#[derive(Clone, Copy)]
pub(crate) struct Turn {
    /// Index of the station in the recording, from 0.
    pub station: usize,
    /// Moment of its next entry.
    pub moment: Moment,
}

/// Whether a moment is before another.
fn is_before(moment: Moment, other: Moment) -> bool
    ensures { result ≡ is_before moment other }
{
    moment.stamp < other.stamp || (moment.stamp == other.stamp && moment.entry < other.entry)
}

/// The earlier of two turns, the first one if neither is before the other.
fn earlier_of(first: Option<Turn>, other: Option<Turn>) -> Option<Turn>
    ensures { result ≡ earlier_of first other }
{
    let Some(next) = other else {
        return first;
    };
    match first {
        None => other,
        Some(best) => {
            if is_before(next.moment, best.moment) {
                other
            } else {
                first
            }
        }
    }
}

/// Leaf of a station with this turn.
fn leaf(station: usize, turn: Option<Moment>) -> Option<Turn>
    ensures { result ≡ option_map (λ m. record { station = station; moment = m }) turn }
{
    match turn {
        Some(moment) => Some(Turn { station, moment }),
        None => None,
    }
}

/// Renews the nodes above a leaf, up to the root.
fn renew(nodes: &mut Vec<Option<Turn>>, leaf: usize, stations: usize)
    requires count { length nodes.old.items ≡ stations + stations }
    requires within { leaf < stations + stations }
    requires inner { AreInnerBut nodes.old.items stations (leaf / 2) }
    ensures count { length nodes.new.items ≡ stations + stations }
    ensures inner { AreInner nodes.new.items stations }
    ensures leaves { (k : ℕ) → stations ≤ k → node_at nodes.new.items k ≡ node_at nodes.old.items k }
{
    let mut node = leaf / 2;
    while node > 0 {
        nodes[node] = earlier_of(nodes[2 * node], nodes[2 * node + 1]);
        node /= 2;
    }
}

/// The turns of all stations, with the first of them at hand. In contracts they are a list, by the
/// indices of the stations.
#[derive(Drop)]
pub(crate) struct Turns {
    /// Turn of each station.
    moments: Vec<Option<Moment>>,
    /// A tree: node 1 is the root, and below node k stand the nodes 2k and 2k + 1. The leaf of each
    /// station is the node with its index and the number of stations added. Each node has the first
    /// turn of the leaves below it.
    nodes: Vec<Option<Turn>>,
}

impl Model for Turns {
    ghost use Rattle.std.specs.Prelude.{List, Option};
    ghost use Rattle.exercise_audit.specs.declared.turns.Moment.{Moment};
    ghost use Rattle.exercise_audit.specs.Turns.{IsTree};

    ghost Value = { List (Option Moment) };

    ghost view = { λ t. t.moments.items };

    ghost invariant = { λ t. IsTree t.moments.items t.nodes.items };
}

impl Turns {
    /// No turns, of so many stations.
    pub(crate) fn none(alloc: Global, stations: usize) -> Result<Turns, AllocError>
        requires { stations ≤ MOST_STATIONS }
        ensures count { IfOk result (λ turns. length turns ≡ stations) }
        ensures none { IfOk result (λ turns. (s : ℕ) → turn_of turns s ≡ None) }
    {
        let moments = vec![in alloc; None; stations]?;
        let nodes = vec![in alloc; None; 2 * stations]?;
        Ok(Turns { moments, nodes })
    }

    /// Gives a station its turn, or takes it away. Does nothing for a station that there is not.
    pub(crate) fn set(&mut self, station: usize, turn: Option<Moment>)
        ensures { self.new ≡ slice_set self.old station turn }
    {
        let stations = self.moments.len();
        if station < stations {
            self.moments[station] = turn;
            self.nodes[stations + station] = leaf(station, turn);
            renew(&mut self.nodes, stations + station, stations);
        }
    }

    /// The first turn of all, if any station has one.
    pub(crate) fn first(&self) -> Option<Turn>
        ensures { IsFirstTurn self.now 0 (length self.now) result }
    {
        match self.nodes.get(1) {
            Some(first) => *first,
            None => None,
        }
    }
}
