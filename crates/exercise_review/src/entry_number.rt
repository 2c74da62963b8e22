//! Entry numbers of 32 bits for the tables of the index, with one value for no entry.

ghost use Rattle.std.specs.Prelude.{◌≡◌};
ghost use Rattle.exercise_findings.specs.Number.{entry_number, entry_of};

/// The value for no entry; no entry has this number.
pub(crate) const NO_ENTRY: u32 = u32::MAX;

/// Number of an optional entry; `NO_ENTRY` if there is none.
pub(crate) fn entry_number(entry: Option<u32>) -> u32
    ensures { result ≡ entry_number entry }
{
    match entry {
        Some(entry) => entry,
        None => NO_ENTRY,
    }
}

/// The entry with a number; `None` for `NO_ENTRY`.
pub(crate) fn entry_of(number: u32) -> Option<usize>
    ensures { result ≡ entry_of number }
{
    if number == NO_ENTRY {
        None
    } else {
        Some(number as usize)
    }
}
