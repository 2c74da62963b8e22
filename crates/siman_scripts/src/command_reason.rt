//! Why a typed line is no order for a station.

ghost use Rattle.std.specs.Prelude.{◌≡◌, IfOk, is_some, is_none};
ghost use Rattle.siman_scripts.specs.Command.{command_of};
ghost use Rattle.siman_scripts.specs.Reason.{is_setup, first_word, setup_reason, delivery_form, setup_form, not_for_station, by_line, command_reason};

use crate::act::Act;
use crate::form::{LineForm, form_named};
use crate::forms::statement_of;
use crate::line_reason::line_reason;
use crate::statement::Statement;
use crate::why::{CommandReason, CommandWhy, LineWhy};
use byte_files::split_once;
use std::alloc::{AllocError, Global};

/// Whether lines of a form are no orders for a station.
fn is_setup(form: LineForm) -> bool
    ensures { result ≡ is_setup form }
{
    matches!(
        form,
        LineForm::Exercise
            | LineForm::Station
            | LineForm::Opening
            | LineForm::Fixed
            | LineForm::Action
            | LineForm::Deliver
    )
}

/// The first word of a line.
fn first_word(line: &[u8]) -> &[u8]
    ensures { result.now ≡ first_word line.now }
{
    match split_once(line, b' ') {
        Some((word, _)) => word,
        None => line,
    }
}

fn not_for_station(form: LineForm) -> CommandReason
    ensures { result ≡ not_for_station form }
{
    CommandReason {
        column: 1,
        why: CommandWhy::NotForStation(form),
    }
}

/// Reason of a line whose first word names a form that is no order.
fn setup_reason(line: &[u8]) -> Option<CommandReason>
    ensures { result ≡ setup_reason line.now }
{
    match form_named(first_word(line)) {
        Some(form) if is_setup(form) => Some(not_for_station(form)),
        _ => None,
    }
}

/// Form of an act that is no order for a station.
fn delivery_form(act: &Act) -> Option<LineForm>
    ensures { result ≡ delivery_form act.now }
{
    match act {
        Act::Deliver(_) => Some(LineForm::Deliver),
        Act::Command(_) | Act::Tick | Act::Tell(_) => None,
    }
}

/// Form of a statement that is no order for a station.
fn setup_form(statement: &Statement) -> Option<LineForm>
    ensures { result ≡ setup_form statement.now }
{
    match statement {
        Statement::Exercise(_) => Some(LineForm::Exercise),
        Statement::Station { .. } => Some(LineForm::Station),
        Statement::Opening { .. } => Some(LineForm::Opening),
        Statement::Fixed { .. } => Some(LineForm::Fixed),
        Statement::Action { .. } => Some(LineForm::Action),
        Statement::Does { act, .. } => delivery_form(act),
        Statement::Nothing | Statement::At(_) => None,
    }
}

/// Reason of a line that is refused by itself.
fn by_line(told: Option<(usize, LineWhy)>) -> Option<CommandReason>
    ensures { result ≡ by_line told }
{
    match told {
        Some((column, why)) => Some(CommandReason {
            column,
            why: CommandWhy::Line(why),
        }),
        None => None,
    }
}

/// Why a typed line, without its line feed, is no order for a station; `None` if it is one or is
/// ignored ([`a_line_has_a_reason_or_is_an_order`]).
pub fn reason_of_command(alloc: Global, line: &[u8]) -> Result<Option<CommandReason>, AllocError>
    ensures { IfOk result (λ reason. reason ≡ command_reason line.now) }
{
    if let Some(statement) = statement_of(alloc, line)? {
        return match setup_form(&statement) {
            Some(form) => Ok(Some(not_for_station(form))),
            None => Ok(None),
        };
    }
    match setup_reason(line) {
        Some(reason) => Ok(Some(reason)),
        None => Ok(by_line(line_reason(alloc, line)?)),
    }
}

/// A law of typed lines: each has a reason to be refused, or it is an order or ignored. The call
/// does nothing at run time.
pub fn a_line_has_a_reason_or_is_an_order(line: &[u8])
    ensures { is_none (command_reason line.now) ≡ is_some (command_of line.now) }
{}
