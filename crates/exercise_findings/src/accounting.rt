//! Builds the account of a recording from the findings of a pass.

ghost use Rattle.std.specs.Prelude.{◌≡◌, length, map, IfOk};
ghost use Rattle.exercise_model.specs.Account.{change_behind, entities_of, values_below};
ghost use Rattle.exercise_findings.specs.Account.{IsAccount};
ghost use Rattle.exercise_findings.specs.Column.{IsShortColumn};
ghost use Rattle.exercise_findings.specs.Number.{IsNumberOf};
ghost use Rattle.exercise_findings.specs.Tables.{AreTablesBelow, AreFound};

use crate::account::Account;
use crate::behind::changes_behind;
use crate::pass::PassResult;
use crate::state::entities;
use crate::tables::Tables;
use dis_records::EntityState;
use exercise_model::ExerciseLog;
use std::alloc::{AllocError, Global};

/// For each station, its entities that are not Absent after its log.
#[tactic(auto, using(exercise_model::proofs::Offered::account_steps))]
pub(crate) fn states<L: ExerciseLog>(
    alloc: Global,
    log: &L,
    tables: &Tables,
) -> Result<Vec<Vec<(u16, EntityState)>>, AllocError>
    requires { let r = L.recording log.now in AreTablesBelow r (length r.entries) tables.now }
    ensures { let r = L.recording log.now in IfOk result (λ states. map (λ v. v.items) states.items ≡ values_below (entities_of r) (length r.setting.stations)) }
{
    let mut states = Vec::new(alloc);
    for station in 0..log.station_count() {
        states.push(entities(alloc, log, tables, station)?)?;
    }
    Ok(states)
}

/// The final states of each station's entities, and for each entry the number of the change behind
/// it.
fn states_and_changes<L: ExerciseLog>(
    alloc: Global,
    log: &L,
    found: &PassResult,
) -> Result<(Vec<Vec<(u16, EntityState)>>, Vec<u32>), AllocError>
    requires { AreFound (L.recording log.now) found.now }
    ensures states { let r = L.recording log.now in IfOk result (λ told. map (λ v. v.items) told.0.items ≡ values_below (entities_of r) (length r.setting.stations)) }
    ensures changes { let r = L.recording log.now in IfOk result (λ told. IsShortColumn 0xFFFFFFFF (IsNumberOf (change_behind r)) (length r.entries) told.1.items) }
{
    let changes = changes_behind(
        alloc,
        log,
        &found.tables.firsts,
        &found.places,
        &found.ables,
    )?;
    let states = states(alloc, log, &found.tables)?;
    Ok((states, changes))
}

/// The account of a recording, given the result of the pass over it.
pub(crate) fn account<L: ExerciseLog>(
    alloc: Global,
    log: &L,
    found: PassResult,
) -> Result<Account, AllocError>
    requires { AreFound (L.recording log.now) found }
    ensures { IfOk result (λ checked. IsAccount (L.recording log.now) checked) }
{
    let told = states_and_changes(alloc, log, &found)?;
    let (earlier, others) = found.into_back_references();
    Ok(Account::of(told.0, earlier, told.1, others))
}
