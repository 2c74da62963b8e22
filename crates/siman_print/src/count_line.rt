//! The row of a count.

ghost use Rattle.std.specs.Prelude.{◌≡◌, IfOk, string_bytes};
ghost use Rattle.siman_print.specs.Spelled.{line_text};
ghost use Rattle.siman_print.specs.CountLine.{counted};

use crate::{Field, Spelling, Value, put_named};
use std::alloc::{AllocError, Global};

/// The row of a word and a count, such as `explained steps=16`.
pub fn counted(alloc: Global, word: &str, key: &str, count: usize) -> Result<String, AllocError>
    ensures { IfOk result (λ line. string_bytes line ≡ line_text (counted word.now key.now count)) }
{
    let fields = [Field::Keyed(key, Value::Number(count as u64))];
    let mut line = String::new(alloc);
    put_named(&mut line, Spelling::Text, word, &fields)?;
    Ok(line)
}
