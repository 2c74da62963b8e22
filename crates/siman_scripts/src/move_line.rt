//! The line of a move in a script.

ghost use Rattle.std.specs.Prelude.{◌≡◌, IfOk};
ghost use Rattle.siman_scripts.specs.Statement.{statement_of};
ghost use Rattle.siman_scripts.specs.MoveLine.{is_move, line_of_move};

use crate::forms::statement_of;
use crate::statement::Statement;
use byte_files::first_line;
use std::alloc::{AllocError, Global};

/// Whether a line is a move.
fn is_move(alloc: Global, line: &[u8]) -> Result<bool, AllocError>
    ensures { IfOk result (λ found. found ≡ is_move (statement_of line.now)) }
{
    match statement_of(alloc, line)? {
        Some(Statement::Does { .. }) => Ok(true),
        _ => Ok(false),
    }
}

/// Number, from 1, of the line of a script with the move of this number, from 0, if any.
pub fn line_of_move(alloc: Global, text: &[u8], number: usize) -> Result<Option<usize>, AllocError>
    ensures { IfOk result (λ line. line ≡ line_of_move text.now number) }
{
    let (mut count, mut others, mut rest) = (0, number, text);
    while !rest.is_empty() {
        let (line, behind) = first_line(rest);
        count += 1;
        if is_move(alloc, line)? {
            if others == 0 {
                return Ok(Some(count));
            }
            others -= 1;
        }
        rest = behind;
    }
    Ok(None)
}
