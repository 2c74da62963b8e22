//! Orders, entities and parties of the recording with losses, by calls that no command makes. The
//! rows of `review` for them are in the cases of `siman_cases`.

use crate::losses::losses;
use dis_records::EntityState::{Running, Stopped};
use dis_records::{EntityState, SiteApplication};
use exercise_findings::Findings;
use exercise_model::ExerciseLog;
use exercise_review::*;
use std::alloc::Global;

/// An order at a station: its first entry, the station's index, the number of its sends, the entry
/// of its change there, and its fate.
type FateRow = (usize, u16, usize, Option<usize>, Fate);

/// All orders at all of their parties, by rising entries.
static ROWS: [FateRow; 8] = [
    (0, 1, 1, Some(2), Fate::Done),
    (4, 2, 2, Some(7), Fate::Done),
    (9, 1, 1, Some(12), Fate::Done),
    (9, 2, 1, Some(13), Fate::Unheard),
    (16, 1, 1, None, Fate::Refused),
    (20, 2, 1, None, Fate::Unanswered),
    (24, 1, 1, Some(26), Fate::Done),
    (29, 2, 1, None, Fate::Lost),
];

/// Whether an order at a station matches its row; without a row, whether the order is not for that
/// station.
fn is_as_in<L: ExerciseLog>(
    findings: &Register<'_, L>,
    order: &RecordedOrder<'_>,
    station: u16,
    row: Option<&FateRow>,
) -> bool {
    match row {
        Some(&(_, _, sends, change, fate)) => {
            is_party(findings, order, station)
                && order.maker == Some(0)
                && order.sends(findings) == sends
                && change_of_order(findings, order, station) == change
                && fate_of(findings, order, Party::Station(station)) == fate
        }
        None => !is_party(findings, order, station),
    }
}

/// Each of 40 entries, ten of them past the last, at each of the three stations matches its row.
#[test]
fn each_order_has_its_fate_at_each_of_its_parties(rt: HostRuntime) {
    let log = losses(rt.alloc()).expect(&rt, "there is memory");
    let findings = Findings::of(rt.alloc(), &log).expect(&rt, "there is memory");
    let register = Register::of(rt.alloc(), findings).expect(&rt, "there is memory");
    for place in 0..120u16 {
        let (entry, station) = (usize::from(place / 3), place % 3);
        let row = ROWS.iter().find(|row| row.0 == entry && row.1 == station);
        match order_at(&register, entry) {
            Some(order) => assert!(rt; is_as_in(&register, &order, station, row)),
            None => assert!(rt; row.is_none()),
        }
    }
}

/// Whether parties have exactly these addresses, each a site and an application.
fn are_at<L: ExerciseLog>(
    register: &Register<'_, L>,
    parties: &[Party],
    wanted: &[(u16, u16)],
) -> bool {
    parties.len() == wanted.len()
        && parties.iter().zip(wanted.iter()).all(|(party, &(site, application))| party.address(
            register,
        ) == SiteApplication { site, application })
}

/// Whether outcomes are those at exactly these parties, in order.
fn are_of(outcomes: &[Outcome], parties: &[Party]) -> bool {
    outcomes.len() == parties.len()
        && outcomes
            .iter()
            .zip(parties.iter())
            .all(|(outcome, party)| outcome.party == Some(*party))
}

/// Whether an order is at an entry, has parties with exactly these addresses, and has an outcome at
/// each of them.
fn has_parties<L: ExerciseLog>(
    alloc: Global,
    register: &Register<'_, L>,
    entry: usize,
    wanted: &[(u16, u16)],
) -> bool {
    let Some(order) = order_at(register, entry) else {
        return false;
    };
    let (parties, outcomes) = (
        parties_of(alloc, register, &order),
        outcomes_of(alloc, register, &order),
    );
    match (parties, outcomes) {
        (Ok(parties), Ok(outcomes)) => {
            are_at(register, &parties, wanted) && are_of(&outcomes, &parties)
        }
        _ => false,
    }
}

/// Each row has the entry of an order, and the site and application of each of its parties.
#[test]
fn parties_stand_by_rising_addresses(rt: HostRuntime) {
    let log = losses(rt.alloc()).expect(&rt, "there is memory");
    let findings = Findings::of(rt.alloc(), &log).expect(&rt, "there is memory");
    let register = Register::of(rt.alloc(), findings).expect(&rt, "there is memory");
    let rows: [(usize, &[(u16, u16)]); 4] = [
        (0, &[(2, 3)]),
        (4, &[(2, 4)]),
        (9, &[(2, 3), (2, 4)]),
        (29, &[(2, 4)]),
    ];
    for (entry, wanted) in rows {
        assert!(rt; has_parties(rt.alloc(), &register, entry, wanted));
    }
}

/// Whether an entity of a station has exactly these spans.
fn has_lived<L: ExerciseLog>(
    alloc: Global,
    findings: &Register<'_, L>,
    station: u16,
    entity: u16,
    wanted: &[Stretch],
) -> bool {
    if usize::from(station) >= findings.log().station_count() {
        return false;
    }
    match lives_of(alloc, findings, station, entity) {
        Ok(lives) => lives.as_slice() == wanted,
        Err(_) => false,
    }
}

/// A span: its state, and the entries of the changes that began and ended it.
fn stretch(state: EntityState, from: Option<usize>, until: Option<usize>) -> Stretch {
    Stretch { state, from, until }
}

#[test]
fn each_entity_lived_as_long_as_the_changes_let_it(rt: HostRuntime) {
    let log = losses(rt.alloc()).expect(&rt, "there is memory");
    let findings = Findings::of(rt.alloc(), &log).expect(&rt, "there is memory");
    let register = Register::of(rt.alloc(), findings).expect(&rt, "there is memory");
    let seven = [
        stretch(Stopped, Some(2), Some(12)),
        stretch(Running, Some(12), Some(26)),
        stretch(Stopped, Some(26), None),
    ];
    let eight = [stretch(Running, None, None)];
    let nine = [
        stretch(Stopped, Some(7), Some(13)),
        stretch(Running, Some(13), None),
    ];
    let rows: [(u16, u16, &[Stretch]); 4] = [
        (1, 7, &seven),
        (2, 8, &eight),
        (2, 9, &nine),
        (0, 7, &[]),
    ];
    for (station, entity, wanted) in rows {
        assert!(rt; has_lived(rt.alloc(), &register, station, entity, wanted));
    }
}
