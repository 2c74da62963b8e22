//! Hash tables that hold the first value of each key.

ghost use Rattle.std.specs.Prelude.{◌≡◌, Some, if◌then◌else◌, unwrap_or, IfOk, OnErr};
ghost use Rattle.indexmap.specs.IndexMap.{get, IsUnchanged};

use indexmap::IndexMap;
use std::alloc::AllocError;
use std::hash::{BuildHasherDefault, DefaultHasher, Hash};

/// A hash table whose keys are from a recording. Its writer may be hostile, so the hasher is one
/// for which no colliding keys can be prepared.
pub(crate) type Table<K, V> = IndexMap<K, V, BuildHasherDefault<DefaultHasher>>;

/// Grows a full table to four times its size, since each growth visits all entries.
fn make_room<K: Eq + Hash, V>(table: &mut Table<K, V>) -> Result<(), AllocError>
    ensures { IsUnchanged table.old table.new }
{
    if table.len() < table.capacity() {
        return Ok(());
    }
    table.reserve(table.len().saturating_mul(3))
}

/// Stores a value under a key that has none yet; returns the value that the key then has.
pub(crate) fn keep_first<K: Copy + Eq + Hash, V: Copy>(
    table: &mut Table<K, V>,
    key: K,
    value: V,
) -> Result<V, AllocError>
    ensures kept { IfOk result (λ kept. kept ≡ unwrap_or (get K.eq table.old key) value) }
    ensures noted { IfOk result (λ kept. (k : K) → get K.eq table.new k ≡ (if K.eq key k then Some kept else get K.eq table.old k)) }
    ensures failed { OnErr result (IsUnchanged table.old table.new) }
{
    make_room(table)?;
    Ok(*table.entry(key)?.or_insert(value))
}
