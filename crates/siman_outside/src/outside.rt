//! The surroundings of a program: its files.

use crate::known::Known;
use crate::settle::Settle;
use std::io;
use std::io::Read;

/// The files that a program may open and make. For contracts an implementation may say what its
/// files hold and which calls were made; that of the operating system says neither.
pub trait Outside {
    ghost use Rattle.std.specs.Prelude.{◌≡◌, ◌∷◌, [], ℕ, List, Option, None};
    ghost use Rattle.siman_outside.specs.Outside.{Found, Deed, Opens, Compares, Reads, LooksInto, Makes, Saves, Discards, LooksFor, Creates, Leaves, found_by, save_result, Adds, IsHeld, IsFresh};

    /// A file opened for reading, of which nothing was read yet.
    type Opened: Drop;

    /// The reader of an opened file.
    type File: Read + Drop;

    /// A file made for writing. A regular file that is settled outlasts a power loss; what is written
    /// in place, as a device or a pipe, has nothing to settle.
    type Made: Settle + Drop;

    /// The calls so far, oldest first, if they are known.
    ghost deeds: { Self → Option (List Deed) } = { λ _. None };

    /// The result of opening the file of a name, if it is known.
    ghost holds: { Self → List ℕ → Option Found } = { λ _ _. None };

    /// The bytes of an opened file, if they are known.
    ghost bytes: { Self.Opened → Option (List ℕ) } = { λ _. None };

    /// Opens the file of a name to read it from its start.
    fn open(&mut self, name: &str) -> io::Result<Self::Opened>
        ensures done { Adds (deeds self.old) (deeds self.new) (Opens name.now (found_by bytes result) ∷ []) }
        ensures held { IsHeld (holds self.old name.now) (found_by bytes result) }
        ensures stays { holds self.new ≡ holds self.old };

    /// Whether the file of a name is regular and is the opened one, be it by that name, by another
    /// name or by a link.
    fn is_opened(&mut self, file: &Self::Opened, name: &str) -> bool
        ensures done { Adds (deeds self.old) (deeds self.new) (Compares name.now result ∷ []) }
        ensures stays { holds self.new ≡ holds self.old };

    /// Begins to read an opened file.
    fn read(&mut self, file: Self::Opened) -> Self::File
        ensures done { Adds (deeds self.old) (deeds self.new) (Reads (bytes file) ∷ []) }
        ensures same { Self.File.remaining result ≡ bytes file };

    /// Whether a name has a file that a new one would have to replace: a regular one that is not
    /// empty, or a link that leads nowhere. A device, a pipe or a socket is no such file.
    fn is_filled(&mut self, name: &str) -> bool
        ensures done { Adds (deeds self.old) (deeds self.new) (LooksInto name.now result ∷ []) };

    /// Makes the file that is to take a name, to write it from its start. On saving it replaces any
    /// file under that name (`force`), or else only an empty one. Until then a regular file there
    /// is unchanged; a device, a pipe or a socket is written in place.
    fn make(&mut self, name: &str, force: bool) -> io::Result<Self::Made>
        ensures done { Adds (deeds self.old) (deeds self.new) (Makes name.now force (found_by Self.Made.contents result) ∷ []) }
        ensures fresh { IsFresh (found_by Self.Made.contents result) };

    /// Saves a made file: it takes its name, in one step, or the file there is unchanged.
    /// `AlreadyExists` if the file there must not be replaced.
    fn save(&mut self, file: Self::Made) -> io::Result<()>
        ensures done { Adds (deeds self.old) (deeds self.new) (Saves (Self.Made.contents file) (Self.Made.settled file) (save_result result) ∷ []) };

    /// Discards a made file: the file under its name is unchanged.
    fn discard(&mut self, file: Self::Made)
        ensures done { Adds (deeds self.old) (deeds self.new) (Discards (Self.Made.contents file) ∷ []) };

    /// Whether a name is taken, so that no file can be created under it. A device, a pipe or a
    /// socket does not take it.
    fn is_taken(&mut self, name: &str) -> bool
        ensures done { Adds (deeds self.old) (deeds self.new) (LooksFor name.now result ∷ []) };

    /// Creates a file under a free name, to write it in place.
    fn create(&mut self, name: &str) -> io::Result<Self::Made>
        ensures done { Adds (deeds self.old) (deeds self.new) (Creates name.now (found_by Self.Made.contents result) ∷ []) }
        ensures fresh { IsFresh (found_by Self.Made.contents result) };

    /// Closes a created file, and leaves it as it is. Fails if a regular file may not outlast a power
    /// loss.
    fn close(&mut self, file: Self::Made) -> io::Result<()>
        ensures done { Adds (deeds self.old) (deeds self.new) (Leaves (Self.Made.contents file) (save_result result) ∷ []) };

    /// Details of the calls so far that explain a fault. No contract speaks of them: they are the
    /// system's own reports.
    fn known(&self) -> Known;
}
