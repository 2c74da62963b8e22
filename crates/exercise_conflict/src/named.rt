//! The entries that the rows of a conflict or a refusal name.

ghost use Rattle.std.specs.Prelude.{◌≡◌, ◌++◌, map, IfOk, OnOk};
ghost use Rattle.std.specs.List.{flat_map};
ghost use Rattle.std.specs.Option.{option_to_list};
ghost use Rattle.exercise_audit.specs.declared.blocks.Block.{Block as BlockData};
ghost use Rattle.exercise_conflict.specs.declared.way.Also.{Also as AlsoData};
ghost use Rattle.exercise_conflict.specs.Told.{clash_entries, step_clash_entries, way_entries, missing_send_entries, conflict_entries, refusal_entries};

use crate::{Also, Clash, Conflict, MissingSend, Refusal, StepClash, Way};
use exercise_audit::Block;
use std::alloc::{AllocError, Global};

/// Appends an entry, if there is one.
fn name_entry(entries: &mut Vec<usize>, entry: Option<usize>) -> Result<(), AllocError>
    ensures { OnOk result (entries.new.items ≡ entries.old.items ++ option_to_list entry) }
{
    if let Some(entry) = entry {
        entries.push(entry)?;
    }
    Ok(())
}

/// Appends the entries that a contradiction names.
fn name_clash(entries: &mut Vec<usize>, clash: Clash) -> Result<(), AllocError>
    ensures { OnOk result (entries.new.items ≡ entries.old.items ++ clash_entries clash) }
{
    match clash {
        Clash::WrongSender { .. } | Clash::Stranger { .. } => Ok(()),
        Clash::ReusedIdentifier { earlier, .. }
        | Clash::WrongAnswer { earlier, .. }
        | Clash::ChangedAnswer { earlier } => name_entry(entries, Some(earlier)),
        Clash::NoRequest {
            later,
            overheard,
            sent,
        } => {
            name_entry(entries, later)?;
            name_entry(entries, overheard)?;
            name_entry(entries, sent)
        }
        Clash::Impossible {
            earlier,
            change,
            ..
        } => {
            name_entry(entries, Some(earlier))?;
            name_entry(entries, change)
        }
        Clash::NeverSent { sent, near, .. } => {
            name_entry(entries, sent)?;
            name_entry(entries, near)
        }
        Clash::WrongState { change, .. } => name_entry(entries, change),
    }
}

/// Appends the entries that the contradiction of a step names.
fn name_step_clash(entries: &mut Vec<usize>, clash: StepClash) -> Result<(), AllocError>
    ensures { OnOk result (entries.new.items ≡ entries.old.items ++ step_clash_entries clash) }
{
    match clash {
        StepClash::CountDiffers { missing, twice, .. } => {
            name_entry(entries, missing)?;
            name_entry(entries, twice)
        }
        StepClash::NoSuchRecord { .. } => Ok(()),
        StepClash::OutOfOrder { place, next, .. } => {
            name_entry(entries, Some(place))?;
            name_entry(entries, next)
        }
        StepClash::BadLink { place, right, .. } => {
            name_entry(entries, Some(place))?;
            name_entry(entries, right)
        }
        StepClash::Event { entry, clash, .. } => {
            name_entry(entries, Some(entry))?;
            name_clash(entries, clash)
        }
    }
}

/// Appends the entries that a wait or a contradiction names.
fn name_way(entries: &mut Vec<usize>, way: Way) -> Result<(), AllocError>
    ensures { OnOk result (entries.new.items ≡ entries.old.items ++ way_entries way) }
{
    match way {
        Way::Waits(wait) => {
            entries.push(wait.entry)?;
            entries.push(wait.sent)?;
            entries.push(wait.next)?;
            Ok(())
        }
        Way::Clash { entry, clash, .. } => {
            entries.push(entry)?;
            name_clash(entries, clash)
        }
    }
}

fn name_blocks(entries: &mut Vec<usize>, blocks: &[Block]) -> Result<(), AllocError>
    ensures { OnOk result (entries.new.items ≡ entries.old.items ++ map (λ (b : BlockData). b.entry) blocks.now) }
{
    for block in blocks {
        entries.push(block.entry)?;
    }
    Ok(())
}

fn name_ways(entries: &mut Vec<usize>, ways: &[Way]) -> Result<(), AllocError>
    ensures { OnOk result (entries.new.items ≡ entries.old.items ++ flat_map way_entries ways.now) }
{
    for way in ways {
        name_way(entries, *way)?;
    }
    Ok(())
}

fn name_further_causes(entries: &mut Vec<usize>, all: &[Also]) -> Result<(), AllocError>
    ensures { OnOk result (entries.new.items ≡ entries.old.items ++ map (λ (a : AlsoData). a.entry) all.now) }
{
    for also in all {
        entries.push(also.entry)?;
    }
    Ok(())
}

fn name_missing_sends(entries: &mut Vec<usize>, lacks: &[MissingSend]) -> Result<(), AllocError>
    ensures { OnOk result (entries.new.items ≡ entries.old.items ++ flat_map missing_send_entries lacks.now) }
{
    for lack in lacks {
        entries.push(lack.entry)?;
        name_entry(entries, lack.missing.after)?;
    }
    Ok(())
}

/// Appends the entries that the rows of a conflict name.
fn name_conflict(entries: &mut Vec<usize>, conflict: &Conflict) -> Result<(), AllocError>
    ensures { OnOk result (entries.new.items ≡ entries.old.items ++ conflict_entries conflict.now) }
{
    name_blocks(entries, &conflict.blocks)?;
    name_ways(entries, &conflict.ways)?;
    name_further_causes(entries, &conflict.also)?;
    name_missing_sends(entries, &conflict.lacks)?;
    Ok(())
}

/// The entries that the rows of a conflict name, in no particular order, with repetitions.
pub fn conflict_entries(alloc: Global, conflict: &Conflict) -> Result<Vec<usize>, AllocError>
    ensures { IfOk result (λ entries. entries.items ≡ conflict_entries conflict.now) }
{
    let mut entries = Vec::new(alloc);
    name_conflict(&mut entries, conflict)?;
    Ok(entries)
}

/// The entries that the rows of a refused certificate name, except those given as a link.
#[tactic(auto, unfolding(crate::specs::Told::refusal_entries))]
pub fn refusal_entries(alloc: Global, refusal: Refusal) -> Result<Vec<usize>, AllocError>
    ensures { IfOk result (λ entries. entries.items ≡ refusal_entries refusal) }
{
    let mut entries = Vec::new(alloc);
    if let Some(clash) = refusal.clash {
        name_step_clash(&mut entries, clash)?;
    }
    Ok(entries)
}
