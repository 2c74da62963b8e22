//! Why a line of text is bad.

ghost use Rattle.siman_operator.specs.Reason.{IsReason, Reasons};

use crate::Rejection;
use crate::reading::LONGEST_LINE;
use siman_scripts::{CommandReason, reason_of_command};
use std::alloc::Global;

/// Why a line of text is bad.
#[derive(Clone, Copy)]
pub enum BadReason {
    /// It is longer than [`LONGEST_LINE`].
    TooLong,
    /// It is no order for a station.
    NoOrder(CommandReason),
}

/// Why a line is bad. `None` if it is not, or if memory ran out.
fn bad_reason(alloc: Global, held: &[u8]) -> Option<BadReason>
    ensures { IsReason held.now result }
{
    if held.len() > LONGEST_LINE {
        return Some(BadReason::TooLong);
    }
    match reason_of_command(alloc, held) {
        Ok(Some(reason)) => Some(BadReason::NoOrder(reason)),
        Ok(None) | Err(_) => None,
    }
}

/// Why a line was refused as bad. `None` if it was not, or if memory ran out.
pub(crate) fn reason_of(
    alloc: Global,
    held: &[u8],
    done: Result<(), Rejection>,
) -> Option<BadReason>
    ensures { Reasons held.now done result }
{
    match done {
        Err(Rejection::BadLine) => bad_reason(alloc, held),
        _ => None,
    }
}
