//! The slots of entities: where the bars of an entity stand, and what was told of it.

ghost use Rattle.std.specs.Prelude.{◌≡◌};
ghost use Rattle.exercise_chart.specs.Slot.{is_bar_of, slot_of, has_bars, barless_x, told_x};

use crate::frame::{column_x, slot_x};
use crate::{Bar, MOST_ENTITIES};

/// Whether a bar is of an entity of a station.
fn is_bar_of(bar: &Bar, station: u16, entity: u16) -> bool
    ensures { result ≡ is_bar_of station entity bar.now }
{
    bar.station == station && bar.entity.entity == entity
}

/// The slot of the bars of an entity of a station, if it has bars.
fn slot_of(bars: &[Bar], station: u16, entity: u16) -> Option<usize>
    ensures { result ≡ slot_of station entity bars.now }
{
    let mut others = bars;
    while let [bar, rest @ ..] = others {
        if is_bar_of(bar, station, entity) {
            return Some(bar.slot);
        }
        others = rest;
    }
    None
}

/// Whether a station has bars.
fn has_bars(bars: &[Bar], station: u16) -> bool
    ensures { result ≡ has_bars station bars.now }
{
    let mut others = bars;
    while let [bar, rest @ ..] = others {
        if bar.station == station {
            return true;
        }
        others = rest;
    }
    false
}

/// The middle of what was told of an entity without bars: to the right of the bars of its station, if
/// it has bars, else on the column.
fn barless_x(column: u16, bars: &[Bar], station: u16) -> u64
    ensures { result ≡ barless_x column bars.now station }
{
    if has_bars(bars, station) {
        slot_x(column, MOST_ENTITIES)
    } else {
        column_x(column)
    }
}

/// The middle of a told state in the column of its station: that of the bars of its entity, if it has bars.
#[tactic(auto, unfolding(crate::specs::Slot::told_x))]
pub(crate) fn told_x(column: u16, bars: &[Bar], station: u16, entity: u16) -> u64
    ensures { result ≡ told_x column bars.now station entity }
{
    match slot_of(bars, station, entity) {
        Some(slot) => slot_x(column, slot),
        None => barless_x(column, bars, station),
    }
}
