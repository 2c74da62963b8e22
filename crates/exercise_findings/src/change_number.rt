//! Changes encoded as 32-bit numbers, four bytes each in a column: the PDU type of the kind times
//! 2^17, plus the number of the scope.

ghost use Rattle.std.specs.Prelude.{◌≡◌, ◌<◌};
ghost use Rattle.exercise_findings.specs.ChangeNumber.{scope_in, change_in};

use dis_records::{Kind, Scope};
use exercise_model::Change;

/// Number of no change: no kind has the code 0.
pub(crate) const NO_CHANGE: u32 = 0;

/// Number of the scope of all entities; each single entity has a lower number.
const ALL: u32 = 0x1_0000;

/// How many numbers are reserved for scopes.
const SCOPES: u32 = 0x2_0000;

/// Number of a scope.
fn scope_number(scope: Scope) -> u32
    ensures scope { scope_in result ≡ scope }
    ensures few { result < 0x20000 }
{
    match scope {
        Scope::One(entity) => u32::from(entity),
        Scope::All => ALL,
    }
}

/// The scope with a number.
fn scope_in(number: u32) -> Scope
    requires { number < 0x20000 }
    ensures { result ≡ scope_in number }
{
    if number < ALL {
        Scope::One(number as u16)
    } else {
        Scope::All
    }
}

/// Number of a change, or [`NO_CHANGE`].
pub(crate) fn change_number(change: Option<Change>) -> u32
    ensures { change_in result ≡ change }
{
    match change {
        Some(change) => u32::from(change.kind.code()) * SCOPES + scope_number(change.scope),
        None => NO_CHANGE,
    }
}

/// The change that a number encodes, or `None` if it encodes none.
pub(crate) fn change_in(number: u32) -> Option<Change>
    ensures { result ≡ change_in number }
{
    let Ok(code) = u8::try_from(number / SCOPES) else {
        return None;
    };
    let kind = Kind::from_code(code)?;
    Some(Change {
        kind,
        scope: scope_in(number % SCOPES),
    })
}
