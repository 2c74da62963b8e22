//! A call that takes memory, and the text of its outcome.

use std::alloc::Global;
use std::io;

/// Outcome of a call.
#[derive(Clone, Copy)]
pub enum Said {
    /// The expected result, with enough memory.
    Usual,
    /// Memory ran out, and the inputs are as before.
    Memory,
    /// A send failed, and its entry is recorded.
    Send,
    /// Anything else.
    Otherwise,
}

/// [`Said::Usual`] if `holds`, else [`Said::Otherwise`].
pub fn usual(holds: bool) -> Said {
    if holds { Said::Usual } else { Said::Otherwise }
}

/// [`Said::Memory`] if `holds`, else [`Said::Otherwise`].
pub fn refused(holds: bool) -> Said {
    if holds { Said::Memory } else { Said::Otherwise }
}

/// A call on inputs that it borrows.
pub trait LibraryCall<L> {
    /// Makes the call.
    fn make(alloc: Global, lent: &mut L) -> Said;
}

/// Text of the outcome of a call. If memory ran out or a send failed, the call is made again, and
/// the text says that outcome too.
fn told<L, C: LibraryCall<L>>(alloc: Global, lent: &mut L) -> &'static str {
    let said = C::make(alloc, lent);
    match said {
        Said::Usual => return "usual",
        Said::Otherwise => return "otherwise",
        Said::Memory | Said::Send => {}
    }
    let is_usual = matches!(C::make(alloc, lent), Said::Usual);
    match said {
        Said::Send if is_usual => "send, then usual",
        Said::Send => "send, then otherwise",
        _ if is_usual => "memory, then usual",
        _ => "memory, then otherwise",
    }
}

/// Text of the outcome of a call; `not begun` if its inputs could not be made.
pub fn result_of<C: LibraryCall<L>, L: Drop>(alloc: Global, lent: io::Result<L>) -> &'static str {
    match lent {
        Ok(mut lent) => told::<L, C>(alloc, &mut lent),
        Err(_) => "not begun",
    }
}
