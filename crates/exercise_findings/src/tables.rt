//! Look-up tables that a pass fills with the entries behind it and consults for the entries ahead.

ghost use Rattle.std.specs.Prelude.{◌≡◌, ◌<◌, ◌+◌, length, None, true, OnOk, IfOk};
ghost use Rattle.exercise_model.specs.Account.{change_at};
ghost use Rattle.exercise_findings.specs.Firsts.{key_at, IsBased};
ghost use Rattle.exercise_findings.specs.FirstSends.{IsNewSend};
ghost use Rattle.exercise_findings.specs.Tables.{AreTablesBelow};

use crate::firsts::{Firsts, note_entry};
use crate::kept::empty_table;
use crate::key::Key;
use crate::states::{States, no_changes, note_change};
use exercise_model::{Change, ExerciseLog};
use std::alloc::{AllocError, Global};

/// Look-up tables of the entries so far.
pub(crate) struct Tables {
    /// The first entry under each key.
    pub firsts: Firsts,
    /// The states of the entities of each station.
    pub states: Vec<States>,
}

// Not derived, so that a caller that drops it makes one call instead of dropping the table inline.
impl Drop for Tables {
    fn drop(self) {
        let Tables {
            firsts: _firsts,
            states: _states,
        } = self;
    }
}

/// The tables before the first entry.
pub(crate) fn no_tables<L: ExerciseLog>(alloc: Global, log: &L) -> Result<Tables, AllocError>
    ensures { IfOk result (λ tables. AreTablesBelow (L.recording log.now) 0 tables) }
{
    let states = no_changes(alloc, log)?;
    Ok(Tables {
        firsts: empty_table(alloc, log.entry_count()),
        states,
    })
}

/// Adds the next entry of a log, with its change, its key and the key's hash base. Returns whether
/// it is the first under its key; a send is a new datagram then.
#[tactic(auto, using(crate::proofs::FirstSends::new_key))]
pub(crate) fn note_entry_tables<L: ExerciseLog>(
    tables: &mut Tables,
    log: &L,
    entry: usize,
    change: Option<Change>,
    key: Option<Key>,
    base: u32,
) -> Result<bool, AllocError>
    requires few { entry < 4294967295 }
    requires within { entry < length (L.recording log.now).entries }
    requires tied { AreTablesBelow (L.recording log.now) entry tables.old }
    requires change { change ≡ change_at (L.recording log.now) entry }
    requires key { key ≡ key_at (L.recording log.now) entry }
    requires base { IsBased (L.recording log.now) entry base }
    ensures tied { OnOk result (AreTablesBelow (L.recording log.now) (entry + 1) tables.new) }
    ensures new { IfOk result (λ new. new ≡ true → IsNewSend (L.recording log.now) entry) }
{
    note_change(&mut tables.states, log, change, entry)?;
    note_entry(&mut tables.firsts, log, entry, key, base)
}

/// Adds the next entry of a log, which makes no change, with its key and the key's hash base.
pub(crate) fn note_entry_key<L: ExerciseLog>(
    tables: &mut Tables,
    log: &L,
    entry: usize,
    key: Option<Key>,
    base: u32,
) -> Result<(), AllocError>
    requires few { entry < 4294967295 }
    requires within { entry < length (L.recording log.now).entries }
    requires tied { AreTablesBelow (L.recording log.now) entry tables.old }
    requires change { change_at (L.recording log.now) entry ≡ None }
    requires key { key ≡ key_at (L.recording log.now) entry }
    requires base { IsBased (L.recording log.now) entry base }
    ensures { OnOk result (AreTablesBelow (L.recording log.now) (entry + 1) tables.new) }
{
    note_entry(&mut tables.firsts, log, entry, key, base)?;
    Ok(())
}
