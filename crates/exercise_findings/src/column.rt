//! Columns of numbers, one for each entry or place. A column takes no memory until the first number
//! is put into it; places past its end hold a default number.

ghost use Rattle.std.specs.Prelude.{◌≡◌, ◌<◌, ◌==◌, ℕ, length, slice_index_or, OnOk, if◌then◌else◌};

use std::alloc::AllocError;

/// The number at a place of a column, or `nothing` past its end.
pub fn number_at(column: &[u32], nothing: u32, place: usize) -> u32
    ensures { result ≡ slice_index_or column.now place nothing }
{
    match column.get(place) {
        Some(number) => *number,
        None => nothing,
    }
}

/// Replaces the number at a place within a column.
pub fn replace(column: &mut Vec<u32>, place: usize, number: u32)
    requires { place < length column.old.items }
    ensures count { length column.new.items ≡ length column.old.items }
    ensures each { (nothing j : ℕ) → slice_index_or column.new.items j nothing ≡ (if j == place then number else slice_index_or column.old.items j nothing) }
{
    column[place] = number;
}

/// Grows a column that ends before `place` to `count` numbers, filled with `nothing`.
fn reach(column: &mut Vec<u32>, nothing: u32, count: usize, place: usize) -> Result<(), AllocError>
    requires { place < count }
    ensures reached { OnOk result (place < length column.new.items) }
    ensures same { OnOk result ((j : ℕ) → slice_index_or column.new.items j nothing ≡ slice_index_or column.old.items j nothing) }
{
    if column.len() <= place {
        column.resize(count, nothing)?;
    }
    Ok(())
}

/// Sets the number at a place of a column of `count` places, growing the column if needed.
pub fn put_number(
    column: &mut Vec<u32>,
    nothing: u32,
    count: usize,
    place: usize,
    number: u32,
) -> Result<(), AllocError>
    requires { place < count }
    ensures { OnOk result ((j : ℕ) → slice_index_or column.new.items j nothing ≡ (if j == place then number else slice_index_or column.old.items j nothing)) }
{
    reach(column, nothing, count, place)?;
    replace(column, place, number);
    Ok(())
}
