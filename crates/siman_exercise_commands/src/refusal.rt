//! Why a move is refused, as the fault of a command has it.

ghost use Rattle.std.specs.Prelude.{◌≡◌};
ghost use Rattle.siman_exercise_commands.specs.Refusals.{move_refusal};

use siman_manager::OrderFault;
use siman_outside::MoveRefusal;
use siman_stations::MoveFault;

/// The refusal of a move, for the fault of a station or a world.
pub(crate) fn move_refusal(fault: MoveFault) -> MoveRefusal
    ensures { result ≡ move_refusal fault }
{
    match fault {
        MoveFault::Records => MoveRefusal::Records,
        MoveFault::NoSuchStation => MoveRefusal::NoSuchStation,
        MoveFault::NoSuchSend => MoveRefusal::NoSuchSend,
        MoveFault::NoSuchEntity => MoveRefusal::NoSuchEntity,
        MoveFault::NotARequest => MoveRefusal::NotARequest,
        MoveFault::Order(OrderFault::IdsSpent) => MoveRefusal::IdsSpent,
        MoveFault::Order(OrderFault::TooLong) => MoveRefusal::TooLong,
        MoveFault::Order(OrderFault::Memory) => MoveRefusal::Memory,
    }
}
