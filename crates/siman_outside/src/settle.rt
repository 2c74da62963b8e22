//! Settling of files: what was written to them outlasts a loss of power.

use std::io;
use std::io::Write;

/// A file that can be settled. For contracts an implementation may say which bytes are settled; that
/// of the operating system says none.
pub trait Settle: Write {
    ghost use Rattle.std.specs.Prelude.{◌≡◌, ℕ, List, Option, None, IfOk};
    ghost use Rattle.std.specs.Io.KnownBytes.{Keeps};

    /// The bytes that outlast a loss of power, if they are known.
    ghost settled: { Self → Option (List ℕ) } = { λ _. None };

    /// Settles all that was written. A device, a pipe or a socket has nothing to settle.
    fn settle(&mut self) -> io::Result<()>
        ensures keeps { Keeps (Self.contents self.old) (Self.contents self.new) }
        ensures settled { IfOk result (λ _. settled self.new ≡ Self.contents self.new) };
}

/// How the files of a type are settled.
pub trait Settling<F: Write> {
    ghost use Rattle.std.specs.Prelude.{◌≡◌, ℕ, List, Option, IfOk};
    ghost use Rattle.std.specs.Io.KnownBytes.{Keeps};

    /// The bytes of a file that are settled, if they are known.
    ghost settled: { F → Option (List ℕ) };

    /// Settles all that was written to a file.
    fn settle(&self, file: &mut F) -> io::Result<()>
        ensures keeps { Keeps (F.contents file.old) (F.contents file.new) }
        ensures settled { IfOk result (λ _. settled file.new ≡ F.contents file.new) };
}

/// Files are settled by their own call.
#[derive(Drop)]
pub struct OnDisk;

impl<F: Settle> Settling<F> for OnDisk {
    ghost settled = { F.settled };

    fn settle(&self, file: &mut F) -> io::Result<()> {
        file.settle()
    }
}

/// Files are flushed, and count as settled then: for writers that are no files.
#[derive(Drop)]
pub struct ByFlush;

impl<F: Write> Settling<F> for ByFlush {
    ghost settled = { F.contents };

    fn settle(&self, file: &mut F) -> io::Result<()> {
        file.flush()
    }
}
