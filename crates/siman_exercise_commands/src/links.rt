//! The links that a program may open, beside its files.

use siman_lines::Line;
use siman_outside::{Endpoint, Listening, Outside};
use std::alloc::Global;
use std::io;

/// The surroundings of a program that opens links as well. Their calls stand among those of its
/// files, in their order.
pub trait Links: Outside {
    ghost use Rattle.std.specs.Prelude.{◌≡◌, ◌∷◌, [], ℕ, Some, IfOk, slice_get};
    ghost use Rattle.siman_lines.specs.Calls.{IsUnused};
    ghost use Rattle.siman_outside.specs.Outside.{Lines, Binds, count_result, call_result, Adds};

    /// The end of a network at one station.
    type Line: Line + Drop;

    /// The links of `stations` stations, each of which sends to all others, and none of which was
    /// used. No file is opened or made.
    fn lines(&mut self, alloc: Global, stations: usize) -> io::Result<Vec<Self::Line>>
        ensures done { Adds (Self.deeds self.old) (Self.deeds self.new) (Lines stations (count_result result) ∷ []) }
        ensures unused { IfOk result (λ lines. (number : ℕ) (l : Self.Line) → slice_get lines.items number ≡ Some l → IsUnused (Self.Line.sent l)) };

    /// The link of one station: a socket bound to `bind` that may broadcast. It sends to each of
    /// `peers`, and hears whom and what `listening` says. No file is opened or made.
    fn line_at(
        &mut self,
        alloc: Global,
        bind: Endpoint,
        peers: &[Endpoint],
        listening: Listening,
    ) -> io::Result<Self::Line>
        ensures done { Adds (Self.deeds self.old) (Self.deeds self.new) (Binds bind peers.now listening (call_result result) ∷ []) };
}
