//! Files that are written beside their final name, which they take in one step.

use crate::disk::{Identity, identity, is_among};
use std::fs::{File, Metadata, OpenOptions, Permissions, TryLockError};
use std::io::ErrorKind;
use std::os::unix::fs::{MetadataExt, OpenOptionsExt, chown};
use std::{fs, io};

/// The most symbolic links that are followed from a name.
const MOST_LINKS: usize = 40;

/// The mode of a file that replaces none; the user's mask takes bits from it.
const USUAL_MODE: u32 = 0o666;

/// Mode bits that the user has on a file while it is written to replace another: read and write.
const OWN_MODE: u32 = 0o600;

/// A file that is being written: its temporary path, its final name, and the file that it replaces.
#[derive(Drop)]
pub(crate) struct PartFile {
    /// The temporary path: `name` and `.part`.
    path: String,
    /// The final name.
    name: String,
    /// The permissions of the file that it replaces, if there was a file.
    mode: Option<Permissions>,
    /// The identity of the file that it replaces, if there was a file.
    stood: Option<Identity>,
    /// Whether any file under the final name is replaced, or only the empty file that was found
    /// there.
    force: bool,
}

/// The path that a symbolic link leads to: an absolute target as it is, a relative one from the
/// folder of the link.
fn path_from(rt: &HostRuntime, link: &str, leads: &str) -> io::Result<String> {
    match link.rsplit_once('/') {
        Some((folder, _)) if !leads.starts_with('/') => {
            Ok(format!(in rt.alloc(); "{folder}/{leads}")?)
        }
        _ => Ok(String::from_str(rt.alloc(), leads)?),
    }
}

/// The path at the end of the symbolic links that start at a name. Nothing needs to exist there.
/// `NotFound` after 40 links.
fn end_of_links(rt: &HostRuntime, name: &str) -> io::Result<String> {
    let mut path = String::from_str(rt.alloc(), name)?;
    for _ in 0..MOST_LINKS {
        match fs::symlink_metadata(rt, path.as_str()) {
            Ok(known) if known.is_symlink() => {
                let leads = fs::read_link(rt, path.as_str())?.into_string();
                path = path_from(rt, &path, &leads)?;
            }
            Ok(_) => return Ok(path),
            Err(error) if error.kind() == ErrorKind::NotFound => return Ok(path),
            Err(error) => return Err(error),
        }
    }
    Err(io::Error::from(ErrorKind::NotFound))
}

/// Whether the open file is the one at a path; links are not followed.
fn stands_at(rt: &HostRuntime, file: &File, path: &str) -> io::Result<bool> {
    let known = fs::symlink_metadata(rt, path)?;
    Ok(identity(&known) == identity(&file.metadata()?))
}

/// Removes the file that an interrupted call left at a temporary path. `AlreadyExists` if it is no
/// regular file or one of the inputs; an error too if another call has it locked and so still
/// writes it.
fn remove_left(rt: &HostRuntime, path: &str, opened: &[Identity]) -> io::Result<()> {
    let known = match fs::symlink_metadata(rt, path) {
        Ok(known) => known,
        Err(error) if error.kind() == ErrorKind::NotFound => return Ok(()),
        Err(error) => return Err(error),
    };
    if !known.is_file() || is_among(opened, &known) {
        return Err(io::Error::from(ErrorKind::AlreadyExists));
    }
    let file = OpenOptions::new().write(true).open(rt, path)?;
    file.try_lock()?;
    if !stands_at(rt, &file, path)? {
        return Err(io::Error::from(ErrorKind::AlreadyExists));
    }
    fs::remove_file(rt, path)
}

/// Locks the new file of a part. While it is locked, no other call removes it as left behind.
fn lock(rt: &HostRuntime, file: &File, path: &str) -> io::Result<()> {
    match file.try_lock() {
        Ok(()) if stands_at(rt, file, path)? => Ok(()),
        Ok(()) | Err(TryLockError::WouldBlock) => Err(io::Error::from(ErrorKind::AlreadyExists)),
        Err(TryLockError::Error(error)) => {
            let _ = fs::remove_file(rt, path);
            Err(error)
        }
    }
}

/// Creates and locks the file of a part; fails if its path exists.
fn create_locked(rt: &HostRuntime, path: &str, mode: u32) -> io::Result<File> {
    let mut options = OpenOptions::new();
    options.write(true);
    options.create_new(true);
    options.mode(mode);
    let file = options.open(rt, path)?;
    lock(rt, &file, path)?;
    Ok(file)
}

/// Whether a file is at a path itself, not behind a link.
fn is_at(rt: &HostRuntime, known: &Metadata, path: &str) -> io::Result<bool> {
    Ok(identity(&fs::symlink_metadata(rt, path)?) == identity(known))
}

/// The path at the end of a name's links. `NotFound` if the name is empty or the path does not lead
/// to the existing file.
fn path_of(rt: &HostRuntime, name: &str, stands: Option<&Metadata>) -> io::Result<String> {
    if name.is_empty() {
        return Err(io::Error::from(ErrorKind::NotFound));
    }
    let path = end_of_links(rt, name)?;
    match stands {
        Some(known) if !is_at(rt, known, &path)? => Err(io::Error::from(ErrorKind::NotFound)),
        _ => Ok(path),
    }
}

/// Mode bits of a part's file: those of the file that it replaces, and the user may read and write
/// it.
fn mode_of(stands: Option<&Metadata>) -> u32 {
    match stands {
        Some(known) => known.mode() & 0o777 | OWN_MODE,
        None => USUAL_MODE,
    }
}

/// Permissions of the existing file, if there is one.
fn permissions_of(stands: Option<&Metadata>) -> Option<Permissions> {
    match stands {
        Some(known) => Some(known.permissions()),
        None => None,
    }
}

/// Identity of the existing file, if there is one.
fn identity_of(stands: Option<&Metadata>) -> Option<Identity> {
    match stands {
        Some(known) => Some(identity(known)),
        None => None,
    }
}

/// Creates the file of a part, after it removed one left behind. It takes the owner of the file
/// that it replaces, if the user may set it.
fn make_part(
    rt: &HostRuntime,
    path: &str,
    stands: Option<&Metadata>,
    opened: &[Identity],
) -> io::Result<File> {
    remove_left(rt, path, opened)?;
    let file = create_locked(rt, path, mode_of(stands))?;
    if let Some(known) = stands {
        let _ = chown(rt, path, Some(known.uid()), Some(known.gid()));
    }
    Ok(file)
}

/// Begins the file that is to take a name, from any existing file (`force`) or from an empty one
/// alone.
pub(crate) fn begin_part(
    rt: &HostRuntime,
    name: &str,
    stands: Option<&Metadata>,
    force: bool,
    opened: &[Identity],
) -> io::Result<(File, PartFile)> {
    let name = path_of(rt, name, stands)?;
    let path = format!(in rt.alloc(); "{name}.part")?;
    let file = make_part(rt, &path, stands, opened)?;
    let part = PartFile {
        path,
        name,
        mode: permissions_of(stands),
        stood: identity_of(stands),
        force,
    };
    Ok((file, part))
}

/// Syncs the folder of a path, so that a change of names there survives a power loss, if the user
/// may read the folder.
fn sync_folder(rt: &HostRuntime, path: &str) {
    let folder = match path.rsplit_once('/') {
        Some(("", _)) => "/",
        Some((folder, _)) => folder,
        None => ".",
    };
    if let Ok(folder) = File::open(rt, folder) {
        let _ = folder.sync_all();
    }
}

impl PartFile {
    /// Sets the permissions of the replaced file, if there was one, and syncs the file.
    fn take_mode(&self, file: &File) -> io::Result<()> {
        if let Some(mode) = &self.mode {
            file.set_permissions(mode.clone()?)?;
            file.sync_all()?;
        }
        Ok(())
    }

    /// Renames the file to its final name, which replaces any file there.
    fn replace(&self, rt: &HostRuntime) -> io::Result<()> {
        fs::rename(rt, self.path.as_str(), self.name.as_str())
    }

    /// Renames the file to its final name if the empty file that was found there is still there and
    /// still empty; else `AlreadyExists`.
    fn replace_empty(&self, rt: &HostRuntime, stood: Identity) -> io::Result<()> {
        let known = fs::symlink_metadata(rt, self.name.as_str())?;
        if identity(&known) != stood || known.len() > 0 {
            return Err(io::Error::from(ErrorKind::AlreadyExists));
        }
        self.replace(rt)
    }

    /// Gives the file a free name by way of an empty placeholder that is created there first and
    /// then replaced. For file systems without hard links.
    fn replace_placeholder(&self, rt: &HostRuntime) -> io::Result<()> {
        let placeholder = File::create_new(rt, self.name.as_str())?;
        let replaced = self.replace(rt);
        if replaced.is_err() && stands_at(rt, &placeholder, &self.name)? {
            fs::remove_file(rt, self.name.as_str())?;
        }
        replaced
    }

    /// Gives the file a free name by a hard link, which replaces nothing; by a placeholder if no
    /// link can be made. `AlreadyExists` if the name is no longer free.
    fn link(&self, rt: &HostRuntime) -> io::Result<()> {
        match fs::hard_link(rt, self.path.as_str(), self.name.as_str()) {
            Ok(()) => {
                self.remove(rt);
                Ok(())
            }
            Err(error) if error.kind() == ErrorKind::AlreadyExists => Err(error),
            Err(_) => self.replace_placeholder(rt),
        }
    }

    /// Gives the file its final name, in the way for which it was begun.
    fn give_name(&self, rt: &HostRuntime, file: &File) -> io::Result<()> {
        self.take_mode(file)?;
        match self.stood {
            _ if self.force => self.replace(rt),
            Some(stood) => self.replace_empty(rt, stood),
            None => self.link(rt),
        }
    }

    /// Lets the file take its final name and syncs the folder; removes the file if it cannot take
    /// the name.
    pub(crate) fn take_name(&self, rt: &HostRuntime, file: &File) -> io::Result<()> {
        let named = self.give_name(rt, file);
        match &named {
            Ok(()) => sync_folder(rt, &self.name),
            Err(_) => self.remove(rt),
        }
        named
    }

    /// Removes the file; a failure is ignored.
    pub(crate) fn remove(&self, rt: &HostRuntime) {
        let _ = fs::remove_file(rt, self.path.as_str());
    }
}
