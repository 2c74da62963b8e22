//! The operating system's files and sockets, as the `Outside` and the `Links` of the commands.

use crate::host_line::HostLine;
use crate::part::{PartFile, begin_part};
use crate::sockets::{line_at, lines_of};
use siman_console::{
    Endpoint, FileKind, Known, Links, Listening, Outside, Settle, SystemCall, SystemFault,
    file_kind_of,
};
use std::alloc::Global;
use std::fs::{File, Metadata, OpenOptions};
use std::io::{ErrorKind, Read, Seek, SeekFrom, Stdin, Write};
use std::os::unix::fs::MetadataExt;
use std::{fs, io};

/// Device and inode number of a file: one value for all of its names.
pub(crate) type Identity = (u64, u64);

pub(crate) fn identity(known: &Metadata) -> Identity {
    (known.dev(), known.ino())
}

/// Whether `opened` contains the identity of a file.
pub(crate) fn is_among(opened: &[Identity], known: &Metadata) -> bool {
    opened.contains(&identity(known))
}

/// A file that is made and written.
#[derive(Drop)]
pub(crate) struct MadeFile {
    file: File,
    /// The temporary path and final name; `None` for a file that is written in place.
    part: Option<PartFile>,
    /// The error of the write that failed last.
    failed: Option<ErrorKind>,
}

/// A file that is written in place: a device, a pipe, a socket, or a file created for it.
fn in_place(file: File) -> MadeFile {
    MadeFile {
        file,
        part: None,
        failed: None,
    }
}

impl MadeFile {
    /// Records the error of a failed write.
    fn keep<T>(&mut self, written: &io::Result<T>) {
        if let Err(error) = written {
            self.failed = Some(error.kind());
        }
    }

    /// Syncs a regular file. What is no regular file has no disk to settle on.
    fn sync(&mut self) -> io::Result<()> {
        if self.file.metadata()?.is_file() {
            self.file.sync_all()?;
        }
        Ok(())
    }
}

impl Write for MadeFile {
    fn write(&mut self, buf: &[u8]) -> io::Result<usize> {
        let written = self.file.write(buf);
        self.keep(&written);
        written
    }

    fn flush(&mut self) -> io::Result<()> {
        self.file.flush()
    }
}

impl Settle for MadeFile {
    fn settle(&mut self) -> io::Result<()> {
        let settled = self.sync();
        if self.failed.is_none() {
            self.keep(&settled);
        }
        settled
    }
}

/// The word for standard input, and the path at which its metadata is read.
const INPUT: &str = "-";

const INPUT_PATH: &str = "/dev/stdin";

/// An open input: a file opened by its name, or standard input.
#[derive(Drop)]
pub(crate) enum OpenInput {
    Named(File),
    Input(Stdin),
}

impl Read for OpenInput {
    fn read(&mut self, buf: &mut [u8]) -> io::Result<usize> {
        match self {
            OpenInput::Named(file) => file.read(buf),
            OpenInput::Input(input) => input.read(buf),
        }
    }
}

/// The disk, the files opened so far, and the knowledge by which faults are explained.
#[derive(Drop)]
pub(crate) struct Disk<'a> {
    rt: &'a HostRuntime,
    opened: Vec<Identity>,
    known: Known,
}

/// The disk, with no file opened yet.
pub(crate) fn disk_of(rt: &HostRuntime) -> Disk<'_> {
    Disk {
        rt,
        opened: Vec::new(rt.alloc()),
        known: Known::nothing(),
    }
}

/// Number of bytes of a file that are read to recognize its kind.
const FIRST_BYTES: usize = 16;

/// Recognizes the kind of an open file by its first bytes, and rewinds it to its start. A failed
/// read gives `FileKind::Unknown`, a failed seek an error.
fn kind_of(file: &mut File) -> io::Result<FileKind> {
    let mut first = [0u8; FIRST_BYTES];
    let kind = match file.read(&mut first) {
        Ok(count) => file_kind_of(first.get(..count).unwrap_or(&first)),
        Err(_) => FileKind::Unknown,
    };
    file.seek(SeekFrom::Start(0))?;
    Ok(kind)
}

impl Disk<'_> {
    /// Opens an existing file for writing, without changing it.
    fn standing(&self, name: &str) -> io::Result<File> {
        OpenOptions::new().write(true).open(self.rt, name)
    }

    /// Metadata of an input.
    fn metadata(&self, source: &OpenInput) -> io::Result<Metadata> {
        match source {
            OpenInput::Named(file) => file.metadata(),
            OpenInput::Input(_) => fs::metadata(self.rt, INPUT_PATH),
        }
    }

    /// Opens a file for reading by its name, or takes standard input for `-`.
    fn source(&self, name: &str) -> io::Result<OpenInput> {
        if name == INPUT {
            return Ok(OpenInput::Input(self.rt.stdin()));
        }
        Ok(OpenInput::Named(File::open(self.rt, name)?))
    }

    /// Begins a file beside the name that it is to take on saving, from any existing file (`force`)
    /// or from an empty one alone. `AlreadyExists` if the existing file is an input.
    fn beside(&self, name: &str, stands: Option<&Metadata>, force: bool) -> io::Result<MadeFile> {
        if let Some(known) = stands
            && is_among(&self.opened, known)
        {
            return Err(io::Error::from(ErrorKind::AlreadyExists));
        }
        let (file, part) = begin_part(self.rt, name, stands, force, &self.opened)?;
        Ok(MadeFile {
            file,
            part: Some(part),
            failed: None,
        })
    }

    /// Records the error of a failed call, and passes the result on.
    fn keep<T>(&mut self, call: SystemCall, done: io::Result<T>) -> io::Result<T> {
        if let Err(error) = &done {
            self.fail(call, error.kind());
        }
        done
    }

    /// Records that a call failed.
    fn fail(&mut self, call: SystemCall, kind: ErrorKind) {
        self.known.failed = Some(SystemFault { call, kind });
    }

    /// Records the last write error of a made file, if a write failed.
    fn keep_writes(&mut self, file: &MadeFile) {
        if let Some(kind) = file.failed {
            self.fail(SystemCall::Write, kind);
        }
    }

    /// Opens a file by its name, or standard input, to be read from its start. `IsADirectory` for a
    /// directory; the identity of the input is added to `opened`.
    fn open_named(&mut self, name: &str) -> io::Result<OpenInput> {
        let mut source = self.source(name)?;
        let known = self.metadata(&source)?;
        if known.is_dir() {
            return Err(io::Error::from(ErrorKind::IsADirectory));
        }
        self.look_at(&mut source, &known)?;
        self.opened.push(identity(&known))?;
        Ok(source)
    }

    /// Records the kind of the first and of the second input. Only a regular file that was opened
    /// by its name has a kind; others are `FileKind::Unknown`.
    fn look_at(&mut self, source: &mut OpenInput, known: &Metadata) -> io::Result<()> {
        let kind = match source {
            OpenInput::Named(file) if known.is_file() => kind_of(file)?,
            _ => FileKind::Unknown,
        };
        match self.opened.len() {
            0 => self.known.first = kind,
            1 => self.known.second = kind,
            _ => {}
        }
        Ok(())
    }

    /// Makes the file for a name: beside it for a regular file or a missing one, in place for a
    /// device, a pipe or a socket.
    fn make_named(&mut self, name: &str, force: bool) -> io::Result<MadeFile> {
        match self.standing(name) {
            Ok(file) => {
                let known = file.metadata()?;
                if known.is_file() {
                    self.beside(name, Some(&known), force)
                } else {
                    Ok(in_place(file))
                }
            }
            Err(error) if error.kind() == ErrorKind::NotFound => self.beside(name, None, force),
            Err(error) => Err(error),
        }
    }

    /// Creates a file under a free name; a device, a pipe or a socket there is written in place.
    /// `AlreadyExists` if the name is that of a regular file.
    fn create_named(&mut self, name: &str) -> io::Result<MadeFile> {
        match self.standing(name) {
            Ok(file) => {
                if file.metadata()?.is_file() {
                    return Err(io::Error::from(ErrorKind::AlreadyExists));
                }
                Ok(in_place(file))
            }
            Err(error) if error.kind() == ErrorKind::NotFound => {
                Ok(in_place(File::create_new(self.rt, name)?))
            }
            Err(error) => Err(error),
        }
    }

    /// Lets a made file take its name, in one step; does nothing for a file written in place.
    fn save_made(&self, file: MadeFile) -> io::Result<()> {
        let MadeFile { file, part, .. } = file;
        match part {
            Some(part) => part.take_name(self.rt, &file),
            None => Ok(()),
        }
    }
}

impl Outside for Disk<'_> {
    type Opened = OpenInput;

    type File = OpenInput;

    type Made = MadeFile;

    fn open(&mut self, name: &str) -> io::Result<OpenInput> {
        let opened = self.open_named(name);
        self.keep(SystemCall::Open, opened)
    }

    fn is_opened(&mut self, source: &OpenInput, name: &str) -> bool {
        match (self.metadata(source), fs::metadata(self.rt, name)) {
            (Ok(opened), Ok(known)) => known.is_file() && identity(&known) == identity(&opened),
            _ => false,
        }
    }

    fn read(&mut self, source: OpenInput) -> OpenInput {
        source
    }

    fn is_filled(&mut self, name: &str) -> bool {
        match fs::metadata(self.rt, name) {
            Ok(known) => known.is_file() && known.len() > 0,
            Err(_) => fs::symlink_metadata(self.rt, name).is_ok(),
        }
    }

    fn make(&mut self, name: &str, force: bool) -> io::Result<MadeFile> {
        let made = self.make_named(name, force);
        self.keep(SystemCall::Make, made)
    }

    fn save(&mut self, file: MadeFile) -> io::Result<()> {
        let saved = self.save_made(file);
        self.keep(SystemCall::Save, saved)
    }

    fn discard(&mut self, file: MadeFile) {
        self.keep_writes(&file);
        if let Some(part) = &file.part {
            part.remove(self.rt);
        }
    }

    fn is_taken(&mut self, name: &str) -> bool {
        match fs::metadata(self.rt, name) {
            Ok(known) => known.is_file(),
            Err(_) => fs::symlink_metadata(self.rt, name).is_ok(),
        }
    }

    fn create(&mut self, name: &str) -> io::Result<MadeFile> {
        let created = self.create_named(name);
        self.keep(SystemCall::Make, created)
    }

    fn close(&mut self, file: MadeFile) -> io::Result<()> {
        let mut file = file;
        let settled = file.settle();
        self.keep_writes(&file);
        settled
    }

    fn known(&self) -> Known {
        self.known
    }
}

impl<'a> Links for Disk<'a> {
    type Line = HostLine<'a>;

    fn lines(&mut self, alloc: Global, stations: usize) -> io::Result<Vec<Self::Line>> {
        let lines = lines_of(self.rt, alloc, stations);
        self.keep(SystemCall::BindLoopback, lines)
    }

    fn line_at(
        &mut self,
        alloc: Global,
        bind: Endpoint,
        peers: &[Endpoint],
        listening: Listening,
    ) -> io::Result<Self::Line> {
        let line = line_at(self.rt, alloc, bind, peers, listening);
        self.keep(SystemCall::Bind(bind), line)
    }
}
