//! Which datagram the words of a line name, and which station.

ghost use Rattle.std.specs.Prelude.{◌≡◌, map};
ghost use Rattle.siman_plans.specs.Source.{labelled_in, named_in, which_of, which_in, known_at, place_of, place_in, no_more, may_move};
ghost use Rattle.siman_plans.specs.SourceFault.{Gives};
ghost use Rattle.siman_plans.specs.SourceForms.{seen};

use crate::source::Which;
use crate::source_fault::{LineFault, SourceWhy};
use crate::source_form::column_at;
use crate::source_label::Labels;
use crate::source_word::{answer_name, is_label};
use byte_files::number_32;
use dis_records::Address;
use siman_scripts::{Draft, PlacedWord, Statement, Why, address_of};

/// Index of the label of a line before, in a word in this column.
fn labelled_in(labels: &Labels<'_>, column: usize, name: &[u8]) -> Result<usize, LineFault>
    ensures { Gives (λ i. i) result (labelled_in labels.now column name.now) }
{
    if let Some(index) = labels.place_of(name) {
        return Ok(index);
    }
    if is_label(name) {
        Err(LineFault::Refused(column, SourceWhy::UnknownLabel))
    } else {
        Err(LineFault::Refused(column, SourceWhy::WhatExpected))
    }
}

/// The datagram that a word names: a number, the label of a line before, or `answer(LABEL)`.
fn which_of(labels: &Labels<'_>, placed: PlacedWord<'_>) -> Result<Which, LineFault>
    ensures { Gives (λ w. w) result (which_of labels.now (seen placed.entry)) }
{
    if let Some(number) = number_32(placed.word) {
        return Ok(Which::Number(number));
    }
    if let Some(name) = answer_name(placed.word) {
        let label = labelled_in(labels, placed.column, name)?;
        return Ok(Which::Answer(label));
    }
    let label = labelled_in(labels, placed.column, placed.word)?;
    Ok(Which::Labelled(label))
}

/// The datagram that the first of the words names; the line ends before this column.
pub(crate) fn which_in(
    labels: &Labels<'_>,
    end: usize,
    words: &[PlacedWord<'_>],
) -> Result<Which, LineFault>
    ensures { Gives (λ w. w) result (which_in labels.now end (map seen words.now)) }
{
    match words {
        [] => Err(LineFault::Refused(end, SourceWhy::WhatExpected)),
        [placed, ..] => which_of(labels, *placed),
    }
}

/// Index of the station that a word in this column names, if it has a line.
pub(crate) fn known_at(draft: &Draft, column: usize, address: Address) -> Result<u16, LineFault>
    ensures { Gives (λ i. i) result (known_at draft.now column address) }
{
    match draft.index_at(address) {
        Some(index) => Ok(index as u16),
        None => Err(LineFault::Refused(
            column,
            SourceWhy::Script(Why::UnknownStation(address.site(), address.application())),
        )),
    }
}

/// Index of the station that a word names; none where it is `again`.
fn place_of(draft: &Draft, placed: PlacedWord<'_>) -> Result<Option<u16>, LineFault>
    ensures { Gives (λ i. i) result (place_of draft.now (seen placed.entry)) }
{
    if placed.word == b"again".as_slice() {
        return Ok(None);
    }
    match address_of(placed.word) {
        Some(address) => {
            let index = known_at(draft, placed.column, address)?;
            Ok(Some(index))
        }
        None => Err(LineFault::Refused(placed.column, SourceWhy::PlaceExpected)),
    }
}

/// Where the second of the words says; the line ends before this column.
pub(crate) fn place_in(
    draft: &Draft,
    end: usize,
    words: &[PlacedWord<'_>],
) -> Result<Option<u16>, LineFault>
    ensures { Gives (λ i. i) result (place_in draft.now end (map seen words.now)) }
{
    match words {
        [_, placed, ..] => place_of(draft, *placed),
        _ => Err(LineFault::Refused(end, SourceWhy::PlaceExpected)),
    }
}

/// Refuses a line with more than this many words.
pub(crate) fn no_more(most: usize, words: &[PlacedWord<'_>]) -> Result<(), LineFault>
    ensures { Gives (λ u. u) result (no_more most (map seen words.now)) }
{
    if most < words.len() {
        return Err(LineFault::Refused(column_at(words, most), SourceWhy::ExtraWord));
    }
    Ok(())
}

/// Refuses a line, by its name in this column, before which there was no `exercise` line.
pub(crate) fn may_move(draft: &Draft, column: usize) -> Result<(), LineFault>
    ensures { Gives (λ u. u) result (may_move draft.now column) }
{
    match draft.reason(&Statement::At(0)) {
        None => Ok(()),
        Some(_) => Err(LineFault::Refused(column, SourceWhy::Script(Why::BeforeExercise))),
    }
}
