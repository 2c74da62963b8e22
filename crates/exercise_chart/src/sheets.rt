//! The sheets of a printed picture: each has the heading, and below it a block of rows with the names
//! above them; of a picture that is wider than a sheet each has up to 4 columns, and the words to the
//! right of them.

ghost use Rattle.std.specs.Prelude.{◌≡◌, ◌<◌, ◌≤◌, ◌^◌, ◌++◌, OnOk, string_bytes};
ghost use Rattle.siman_print.specs.Below.{texts_below};
ghost use Rattle.exercise_chart.specs.Sheets.{sheets_down, is_narrow, sheets_across, sheets_of, sheet_x, sheet_width, sheet_begin, part_text, wide_parts, parts_text, sheet_text, sheets_text};

use crate::frame::{BLOCK, Frame};
use std::alloc::AllocError;

/// Width of a sheet, in units of the picture.
pub(crate) const SHEET: u64 = 1195;
/// Width of 4 columns.
pub(crate) const ACROSS: u64 = 432;

/// How many sheets are needed for the rows, one below the other.
fn sheets_down(frame: &Frame<'_>) -> u64
    ensures down { result ≡ sheets_down frame.now }
    ensures few { result < 2 ^ 16 }
{
    frame.rows_drawn().saturating_sub(1) / BLOCK + 1
}

/// Whether the picture is no wider than a sheet.
fn is_narrow(frame: &Frame<'_>) -> bool
    ensures { result ≡ is_narrow frame.now }
{
    frame.width() <= SHEET
}

/// How many sheets stand side by side: one for each 4 columns, or one for all.
#[tactic(auto, unfolding(crate::specs::Sheets::sheets_across))]
fn sheets_across(frame: &Frame<'_>) -> u64
    ensures across { result ≡ sheets_across frame.now }
    ensures some { 0 < result }
    ensures few { result < 2 ^ 16 }
{
    if is_narrow(frame) {
        1
    } else {
        u64::from(frame.kept).saturating_sub(1) / 4 + 1
    }
}

/// How many sheets there are.
pub(crate) fn sheets_of(frame: &Frame<'_>) -> u64
    ensures sheets { result ≡ sheets_of frame.now }
    ensures few { result < 2 ^ 32 }
{
    sheets_down(frame) * sheets_across(frame)
}

/// Left edge of the columns that one of the sheets that stand side by side shows.
#[tactic(auto, unfolding(crate::specs::Sheets::sheet_x))]
fn sheet_x(number: u64) -> u64
    requires { number < 2 ^ 16 }
    ensures x { result ≡ sheet_x number }
    ensures small { result < 2 ^ 32 }
{
    4 + ACROSS * number
}

/// Width of the columns that one of the sheets that stand side by side shows.
#[tactic(auto, unfolding(crate::specs::Sheets::sheet_width))]
fn sheet_width(frame: &Frame<'_>, number: u64) -> u64
    requires { number < 2 ^ 16 }
    ensures { result ≡ sheet_width frame.now number }
{
    ACROSS.min((frame.rows_x() - 8).saturating_sub(sheet_x(number)))
}

/// Begins a sheet with the heading.
fn begin_sheet(text: &mut String, number: u64) -> Result<(), AllocError>
    requires { number < 2 ^ 32 }
    ensures { OnOk result (string_bytes text.new ≡ string_bytes text.old ++ sheet_begin number) }
{
    write!(
        text,
        "<svg y=\"{}vh\" width=\"980\" height=\"716\" viewBox=\"0 0 1195 873\">\n<use href=\"#heading\"/>\n",
        100 * number
    )
}

/// Writes a part of a sheet, at `at`: the rows of a block, all lines, of which it shows those that it
/// has, and its names, in the part of the picture from `x` on that is this wide.
fn put_part(text: &mut String, at: u64, x: u64, width: u64, block: u64) -> Result<(), AllocError>
    requires { block < 2 ^ 32 }
    ensures { OnOk result (string_bytes text.new ≡ string_bytes text.old ++ part_text at x width block) }
{
    let y = 116 + 740 * block;
    write!(
        text,
        "<svg x=\"{at}\" y=\"116\" width=\"{width}\" height=\"740\" viewBox=\"{x} {y} {width} 740\">\n<use href=\"#rows{block}\"/>\n<path d=\"M0 0h1\" marker-start=\"url(#drawn)\"/>\n<use href=\"#names{block}\"/>\n</svg>\n"
    )?;
    Ok(())
}

/// Writes the parts of a sheet of a picture that is wider than it: some columns, and right of them
/// the words.
fn put_wide_parts(
    text: &mut String,
    frame: &Frame<'_>,
    number: u64,
    block: u64,
) -> Result<(), AllocError>
    requires number { number < 2 ^ 16 }
    requires block { block < 2 ^ 32 }
    ensures { OnOk result (string_bytes text.new ≡ string_bytes text.old ++ wide_parts frame.now number block) }
{
    let width = sheet_width(frame, number);
    put_part(text, 0, sheet_x(number), width, block)?;
    put_part(text, ACROSS, frame.rows_x() - 8, SHEET - ACROSS, block)?;
    Ok(())
}

/// Writes the parts of one of the sheets that stand side by side.
#[tactic(auto, unfolding(crate::specs::Sheets::parts_text))]
fn put_parts(
    text: &mut String,
    frame: &Frame<'_>,
    number: u64,
    block: u64,
) -> Result<(), AllocError>
    requires number { number < 2 ^ 16 }
    requires block { block < 2 ^ 32 }
    ensures { OnOk result (string_bytes text.new ≡ string_bytes text.old ++ parts_text frame.now number block) }
{
    if is_narrow(frame) {
        put_part(text, 0, 0, SHEET, block)
    } else {
        put_wide_parts(text, frame, number, block)
    }
}

/// Writes a sheet.
#[tactic(auto, unfolding(crate::specs::Sheets::sheet_text))]
fn put_sheet(text: &mut String, frame: &Frame<'_>, number: u64) -> Result<(), AllocError>
    requires { number < 2 ^ 32 }
    ensures { OnOk result (string_bytes text.new ≡ string_bytes text.old ++ sheet_text frame.now number) }
{
    let across = sheets_across(frame);
    begin_sheet(text, number)?;
    put_parts(text, frame, number % across, number / across)?;
    text.push_str("</svg>\n")?;
    Ok(())
}

/// Writes the sheets, which are shown in print alone.
#[tactic(auto, unfolding(crate::specs::Sheets::sheets_text))]
pub(crate) fn put_sheets(text: &mut String, frame: &Frame<'_>) -> Result<(), AllocError>
    ensures { OnOk result (string_bytes text.new ≡ string_bytes text.old ++ sheets_text frame.now) }
{
    text.push_str("<g id=\"sheets\">\n")?;
    for number in 0..sheets_of(frame) {
        put_sheet(text, frame, number)?;
    }
    text.push_str("</g>\n")?;
    Ok(())
}
