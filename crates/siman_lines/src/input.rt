//! The text by which a station is commanded while its link is served.

ghost use Rattle.std.specs.Prelude.{◌≡◌};

use std::io::Read;

/// What a wait found.
#[derive(Clone, Copy, Debug, PartialEq, Eq)]
pub struct Ready {
    /// A read of the text finds bytes, its end or a fault, and so does not wait.
    pub text: bool,
    /// Datagrams may have come to the link.
    pub datagrams: bool,
    /// Microseconds since 1970 by the system's clock.
    pub time: u64,
}

/// A text that comes piece by piece while a link is served.
pub trait Input<L>: Read {
    /// Waits until there is something to read of the text or to receive from the link, or, where
    /// `until` is given, until the system's clock shows that many microseconds since 1970. Returns
    /// what is ready, and the time. It may return earlier, with neither.
    fn wait(&mut self, line: &L, until: Option<u64>) -> Ready
        ensures { Self.remaining self.new ≡ Self.remaining self.old };
}
