//! Entity numbers of a request and its answer: whether they fit, and which entities they name.

ghost use Rattle.std.specs.Prelude.{◌≡◌, IsTrue};
ghost use Rattle.dis_records.specs.Entity.{is_open, are_fitting, scope_of};

use crate::entity::Scope;
use crate::kind::Kind;

/// Entity number that means none.
const NO_ENTITY: u16 = 0;

/// Entity number that means all entities of the application (IEEE 1278.1-2012, 6.2.28).
const ALL_ENTITIES: u16 = 0xFFFF;

/// Entity number of a Create Entity that lets the receiver choose one (profile).
pub const ANY_NUMBER: u16 = 0xFFFE;

/// Whether a number names no single entity in a request of this kind or in its answer: 0, 0xFFFF,
/// and in a Create Entity 0xFFFE (profile).
pub fn is_open(kind: Kind, number: u16) -> bool
    ensures { result ≡ is_open kind number }
{
    number == NO_ENTITY || number == ALL_ENTITIES || number == ANY_NUMBER && kind.is_create()
}

/// Whether the receiving number of a request of this kind and the originating number of its
/// answer fit: they are equal, or one of them is open (profile).
pub fn fits(kind: Kind, receiving: u16, originating: u16) -> bool
    ensures { result ≡ are_fitting kind receiving originating }
{
    receiving == originating || is_open(kind, receiving) || is_open(kind, originating)
}

/// Entities that the receiving number of a request of this kind and the originating number of its
/// answer name together: that of the number that is not open, or all (profile).
pub fn scope(kind: Kind, receiving: u16, originating: u16) -> Scope
    requires { IsTrue (are_fitting kind receiving originating) }
    ensures { result ≡ scope_of kind receiving originating }
{
    if !is_open(kind, receiving) {
        Scope::One(receiving)
    } else if !is_open(kind, originating) {
        Scope::One(originating)
    } else {
        Scope::All
    }
}
