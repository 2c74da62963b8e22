//! The clock of a row: the time of day, in UTC, of the stamp of its entry.

ghost use Rattle.std.specs.Prelude.{◌≡◌, ◌++◌, OnOk, string_bytes};
ghost use Rattle.exercise_chart.specs.Clock.{two_digits, three_digits, six_digits, day_text, clock_text};

use std::alloc::AllocError;

/// What the stamps of a recording count since 1970-01-01, in UTC.
#[derive(Clone, Copy)]
pub enum ClockUnit {
    Microsecond,
    Millisecond,
    Second,
}

/// Writes two digits.
fn put_two(text: &mut String, number: u64) -> Result<(), AllocError>
    ensures { OnOk result (string_bytes text.new ≡ string_bytes text.old ++ two_digits number) }
{
    write!(text, "{}{}", number / 10, number % 10)
}

/// Writes three digits.
fn put_three(text: &mut String, number: u64) -> Result<(), AllocError>
    ensures { OnOk result (string_bytes text.new ≡ string_bytes text.old ++ three_digits number) }
{
    write!(text, "{}", number / 100)?;
    put_two(text, number % 100)
}

/// Writes six digits.
fn put_six(text: &mut String, number: u64) -> Result<(), AllocError>
    ensures { OnOk result (string_bytes text.new ≡ string_bytes text.old ++ six_digits number) }
{
    put_three(text, number / 1000)?;
    put_three(text, number % 1000)
}

/// Writes the time of day of seconds since 1970-01-01, as `HH:MM:SS`.
#[tactic(auto, unfolding(crate::specs::Clock::day_text))]
fn put_day(text: &mut String, seconds: u64) -> Result<(), AllocError>
    ensures { OnOk result (string_bytes text.new ≡ string_bytes text.old ++ day_text seconds) }
{
    put_two(text, seconds / 3600 % 24)?;
    text.push_str(":")?;
    put_two(text, seconds / 60 % 60)?;
    text.push_str(":")?;
    put_two(text, seconds % 60)
}

/// Writes the time of day of a stamp.
#[tactic(auto, unfolding(crate::specs::Clock::clock_text))]
pub(crate) fn put_clock(text: &mut String, unit: ClockUnit, stamp: u64) -> Result<(), AllocError>
    ensures { OnOk result (string_bytes text.new ≡ string_bytes text.old ++ clock_text unit stamp) }
{
    match unit {
        ClockUnit::Microsecond => {
            put_day(text, stamp / 1_000_000)?;
            text.push_str(".")?;
            put_six(text, stamp % 1_000_000)
        }
        ClockUnit::Millisecond => {
            put_day(text, stamp / 1000)?;
            text.push_str(".")?;
            put_three(text, stamp % 1000)
        }
        ClockUnit::Second => put_day(text, stamp),
    }
}
