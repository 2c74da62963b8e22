//! The entities that a log assumes: those of which it shows that they were there before it began.

ghost use Rattle.std.specs.Prelude.{◌≡◌, ◌<◌, ◌+◌, true, length, IfOk, OnOk, IsTrue};
ghost use Rattle.exercise_model.specs.declared.station.TheConstants.{LARGEST_ENTITY};
ghost use Rattle.exercise_model.specs.Account.{change_at};
ghost use Rattle.exercise_model.specs.Station.{is_opening};
ghost use Rattle.siman_exercise_commands.specs.Assumed.{needs_entity, removes_all, own_decision, then_decided, decision_below, is_decided, is_assumed, assumed_in, numbers_below, with_stopped, with_all_stopped, AreDecisions, Decides};

use dis_records::{EntityState, Kind, Scope};
use exercise_findings::Findings;
use exercise_model::{Change, ExerciseLog, LARGEST_ENTITY, is_entity, listed_state};
use siman_application::insert_entity;
use std::alloc::{AllocError, Global};

/// What the entries so far say of an entity.
#[derive(Clone, Copy, PartialEq, Eq)]
pub(crate) enum Decision {
    /// Nothing.
    Open,
    /// It was there before the log began.
    Assumed,
    /// Something else.
    Settled,
}

/// Whether only an entity that is there can be changed so.
fn needs_entity(kind: Kind) -> bool
    ensures { result ≡ needs_entity kind }
{
    matches!(
        kind,
        Kind::RemoveEntity | Kind::StartResume | Kind::StopFreeze
    )
}

/// Whether all entities are removed.
fn removes_all(change: Change) -> bool
    ensures { result ≡ removes_all change }
{
    match change.scope {
        Scope::One(_) => false,
        Scope::All => matches!(change.kind, Kind::RemoveEntity),
    }
}

/// What is said of an entity, and then something else.
fn then_decided(first: Decision, next: Decision) -> Decision
    ensures { result ≡ then_decided first next }
{
    match first {
        Decision::Open => next,
        Decision::Assumed | Decision::Settled => first,
    }
}

/// What a change of an entity's own says of it.
fn own_decision(kind: Kind) -> Decision
    ensures { result ≡ own_decision kind }
{
    if needs_entity(kind) {
        Decision::Assumed
    } else {
        Decision::Settled
    }
}

/// The decisions of all entities, by their numbers. A change that removes all settles those that are
/// open, without a look at each.
#[derive(Drop)]
pub(crate) struct Decisions {
    table: Vec<Decision>,
    all_removed: bool,
}

impl Decisions {
    ghost use Rattle.std.specs.Prelude.{◌≡◌, IfOk};
    ghost use Rattle.exercise_model.specs.Recording.{PlainRecording};

    /// Before the first entry.
    fn none(alloc: Global) -> Result<Decisions, AllocError>
        ensures { IfOk result (λ d. (r : PlainRecording) → AreDecisions r 0 d) }
    {
        Ok(Decisions {
            table: vec![in alloc; Decision::Open; usize::from(LARGEST_ENTITY) + 1]?,
            all_removed: false,
        })
    }

    /// Takes one more change into account.
    fn decide(&mut self, change: Change)
        ensures { Decides change self.old self.new }
    {
        if let Scope::One(entity) = change.scope {
            let place = usize::from(entity);
            if !self.all_removed && place < self.table.len() {
                self.table[place] = then_decided(self.table[place], own_decision(change.kind));
            }
        } else if removes_all(change) {
            self.all_removed = true;
        }
    }

    /// Whether the entity was there before the log began, by all entries.
    fn assumes<L: ExerciseLog>(&self, findings: &Findings<'_, L>, entity: u16) -> bool
        requires decisions { AreDecisions findings.now (length findings.now.entries) self.now }
        requires within { entity < LARGEST_ENTITY + 1 }
        ensures { result ≡ is_decided (decision_below findings.now entity (length findings.now.entries)) }
    {
        self.table[usize::from(entity)] == Decision::Assumed
    }
}

/// The decisions by all entries of a log.
fn decisions_of<L: ExerciseLog>(
    alloc: Global,
    findings: &Findings<'_, L>,
) -> Result<Decisions, AllocError>
    ensures { IfOk result (AreDecisions findings.now (length findings.now.entries)) }
{
    let mut decisions = Decisions::none(alloc)?;
    for entry in 0..findings.log().entry_count() {
        if let Some(change) = findings.change(entry) {
            decisions.decide(change);
        }
    }
    Ok(decisions)
}

/// Whether a log assumes an entity, by the decisions of all its entries.
fn is_assumed<L: ExerciseLog>(
    findings: &Findings<'_, L>,
    decisions: &Decisions,
    opening: &[(u16, EntityState)],
    entity: u16,
) -> bool
    requires decisions { AreDecisions findings.now (length findings.now.entries) decisions.now }
    ensures { result ≡ is_assumed findings.now opening.now entity }
{
    is_entity(entity)
        && decisions.assumes(findings, entity)
        && listed_state(opening, entity) == EntityState::Absent
}

/// The entities that a log assumes beside those with which its station opens, by rising numbers.
pub(crate) fn assumed_in<L: ExerciseLog>(
    alloc: Global,
    findings: &Findings<'_, L>,
    opening: &[(u16, EntityState)],
) -> Result<Vec<u16>, AllocError>
    ensures { IfOk result (λ entities. entities.items ≡ assumed_in findings.now opening.now) }
{
    let decisions = decisions_of(alloc, findings)?;
    let mut entities = Vec::new(alloc);
    for entity in 0..LARGEST_ENTITY + 1 {
        if is_assumed(findings, &decisions, opening, entity) {
            entities.push(entity)?;
        }
    }
    Ok(entities)
}

/// Adds an entity in its place, stopped, if it is none of these.
#[tactic(auto, using(crate::proofs::Decided::stopped_opens))]
fn add_stopped(opening: &mut Vec<(u16, EntityState)>, entity: u16) -> Result<(), AllocError>
    requires { is_opening opening.old.items ≡ true }
    ensures added { OnOk result (opening.new.items ≡ with_stopped entity opening.old.items) }
    ensures opening { OnOk result (is_opening opening.new.items ≡ true) }
{
    if is_entity(entity) && listed_state(opening, entity) == EntityState::Absent {
        insert_entity(opening, entity, EntityState::Stopped)?;
    }
    Ok(())
}

/// The entities with which a station opens, and these, stopped.
pub(crate) fn with_all_stopped(
    alloc: Global,
    opening: &[(u16, EntityState)],
    entities: &[u16],
) -> Result<Vec<(u16, EntityState)>, AllocError>
    requires { is_opening opening.now ≡ true }
    ensures all { IfOk result (λ opened. opened.items ≡ with_all_stopped entities.now opening.now) }
    ensures opening { IfOk result (λ opened. is_opening opened.items ≡ true) }
{
    let mut opened = Vec::new(alloc);
    opened.extend_from_slice(opening)?;
    for entity in entities {
        add_stopped(&mut opened, *entity)?;
    }
    Ok(opened)
}
