//! Commands that lines of text give to a station, in the forms of the moves of a script.

ghost use Rattle.std.specs.Prelude.{◌≡◌, IfOk};
ghost use Rattle.siman_scripts.specs.Command.{task_of, asked, command_said, command_of};

use crate::act::Act;
use crate::forms::statement_of;
use crate::statement::Statement;
use dis_records::Address;
use siman_manager::Order;
use std::alloc::{AllocError, Global};

/// Task of a station.
#[derive(Drop)]
pub enum StationTask {
    /// Issue an order.
    Order(Order),
    /// Send the repeat that is due, if any.
    Repeat,
    /// Tell the state of an entity.
    Tell(u16),
}

/// Command of a line to a station.
#[derive(Drop)]
pub enum Command {
    /// None: the line is ignored.
    Nothing,
    /// Set the clock to this time.
    At(u64),
    /// Give a task to the station with this address.
    Asks { address: Address, task: StationTask },
}

/// Task of a move; none of a delivery.
fn task_of(act: Act) -> Option<StationTask>
    ensures { result ≡ task_of act }
{
    match act {
        Act::Command(order) => Some(StationTask::Order(order)),
        Act::Deliver(_) => None,
        Act::Tick => Some(StationTask::Repeat),
        Act::Tell(entity) => Some(StationTask::Tell(entity)),
    }
}

fn asked(address: Address, task: Option<StationTask>) -> Option<Command>
    ensures { result ≡ asked address task }
{
    match task {
        Some(task) => Some(Command::Asks { address, task }),
        None => None,
    }
}

/// Command of a statement; none of a statement that sets a station up.
fn command_said(statement: Statement) -> Option<Command>
    ensures { result ≡ command_said statement }
{
    match statement {
        Statement::Nothing => Some(Command::Nothing),
        Statement::At(now) => Some(Command::At(now)),
        Statement::Does { address, act } => asked(address, task_of(act)),
        Statement::Exercise(_)
        | Statement::Station { .. }
        | Statement::Opening { .. }
        | Statement::Fixed { .. }
        | Statement::Action { .. } => None,
    }
}

/// Command of a line, without its line feed: the line is ignored, or has the form of an `at` or of
/// a move of a script that is no `deliver`. `None` if it has none of these forms.
pub fn read_command(alloc: Global, line: &[u8]) -> Result<Option<Command>, AllocError>
    ensures { IfOk result (λ command. command ≡ command_of line.now) }
{
    match statement_of(alloc, line)? {
        Some(statement) => Ok(command_said(statement)),
        None => Ok(None),
    }
}
