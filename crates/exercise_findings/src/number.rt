//! Entries as 32-bit numbers with one reserved for none, as columns store them.

ghost use Rattle.std.specs.Prelude.{◌≡◌};
ghost use Rattle.exercise_findings.specs.Number.{entry_number, entry_of};

/// Number of no entry; every entry number is smaller.
pub(crate) const NO_ENTRY: u32 = u32::MAX;

/// Number of an entry, or [`NO_ENTRY`].
pub(crate) fn entry_number(entry: Option<u32>) -> u32
    ensures { result ≡ entry_number entry }
{
    match entry {
        Some(entry) => entry,
        None => NO_ENTRY,
    }
}

/// The entry with a number, or `None` for [`NO_ENTRY`].
pub(crate) fn entry_of(number: u32) -> Option<u32>
    ensures { result ≡ entry_of number }
{
    if number == NO_ENTRY {
        None
    } else {
        Some(number)
    }
}
