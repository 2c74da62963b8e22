//! Index of the first receipt of each datagram that no log sends, by its bytes.

ghost use Rattle.std.specs.Prelude.{◌≡◌, ◌<◌, ◌+◌, ◌∷◌, [], ℕ, Some, None, IfOk, OnOk, OnErr, unwrap_or, if◌then◌else◌, bytes_eq};
ghost use Rattle.std.specs.Cmp.Rules.{comparing, hashing};
ghost use Rattle.std.specs.Cmp.Lexicographic.{bytes_decides};
ghost use Rattle.std.proofs.Common.{ap};
ghost use Rattle.indexmap.specs.IndexMap.{get, IsUnchanged};
ghost use Rattle.exercise_findings.specs.Sent.{Receives};
ghost use Rattle.exercise_findings.specs.Source.{source_of_bytes};
ghost use Rattle.exercise_findings.specs.Missing.{is_first_receipt};
ghost use Rattle.exercise_conflict.specs.declared.receipts.Datagram.{Datagram};
ghost use Rattle.exercise_conflict.specs.Lacks.{same_datagram, AreReceipts};
ghost use borrow.Author.Rules.{rules};

use exercise_findings::Findings;
use exercise_model::ExerciseLog;
use indexmap::IndexMap;
use std::alloc::{AllocError, Global};
use std::hash::{BuildHasherDefault, DefaultHasher, Hash, Hasher};

/// A hash table whose keys are from a recording. Its writer may be hostile, so the hasher is one
/// for which no colliding keys can be prepared.
pub(crate) type ConflictTable<K, V> = IndexMap<K, V, BuildHasherDefault<DefaultHasher>>;

/// Stores a value under a key that has none yet; returns the value that the key then has.
pub(crate) fn keep_first<K: Copy + Eq + Hash, V: Copy>(
    table: &mut ConflictTable<K, V>,
    key: K,
    value: V,
) -> Result<V, AllocError>
    ensures kept { IfOk result (λ kept. kept ≡ unwrap_or (get K.eq table.old key) value) }
    ensures noted { IfOk result (λ kept. (k : K) → get K.eq table.new k ≡ (if K.eq key k then Some kept else get K.eq table.old k)) }
    ensures failed { OnErr result (IsUnchanged table.old table.new) }
{
    Ok(*table.entry(key)?.or_insert(value))
}

/// The borrowed bytes of a datagram as a key, compared by content and hashed in one write.
#[derive(Clone, Copy)]
pub(crate) struct Datagram<'a> {
    /// The bytes.
    pub bytes: &'a [u8],
}

impl<'a> PartialEq for Datagram<'a> {
    ghost eq = { λ x y. bytes_eq x.bytes.now y.bytes.now };

    ghost laws = { Prim.search (comparing, rules) };

    fn eq(&self, other: &Datagram<'a>) -> bool {
        self.bytes == other.bytes
    }
}

impl<'a> Eq for Datagram<'a> {
    ghost laws = { Prim.search (comparing, rules) };
}

impl<'a> Hash for Datagram<'a> {
    ghost hash_input = { λ d. d.bytes.now ∷ [] };

    ghost respects_eq = { λ x y h. ap (λ b. b ∷ []) ((bytes_decides x.bytes.now y.bytes.now).0 h) };

    fn hash<H: Hasher>(&self, state: &mut H) {
        state.write(self.bytes);
    }
}

/// The first receipt of each datagram that no log sends.
pub(crate) type FirstReceipts<'a> = ConflictTable<Datagram<'a>, usize>;

/// An empty index. It takes no memory.
pub(crate) fn no_receipts<'a>(alloc: Global) -> FirstReceipts<'a>
    ensures { (d : Datagram) → get same_datagram result d ≡ None }
{
    FirstReceipts::with_hasher(alloc, BuildHasherDefault::default())
}

/// Adds the datagram of the next entry, which receives a datagram that no log sends; returns
/// whether it is the first to do so.
pub(crate) fn note_receipt<'a, L: ExerciseLog>(
    findings: &Findings<'a, L>,
    receipts: &mut FirstReceipts<'a>,
    entry: usize,
    bytes: &'a [u8],
) -> Result<bool, AllocError>
    requires gets { (s : ℕ) × Receives findings.now entry s bytes.now }
    requires unsent { source_of_bytes findings.now bytes.now ≡ None }
    requires tied { AreReceipts findings.now entry receipts.old }
    ensures tied { OnOk result (AreReceipts findings.now (entry + 1) receipts.new) }
    ensures first { IfOk result (λ first. first ≡ is_first_receipt findings.now entry bytes.now) }
{
    let first = keep_first(receipts, Datagram { bytes }, entry)?;
    Ok(first == entry)
}
