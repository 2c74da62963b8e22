//! Files in memory, and the names that were requested.

ghost use Rattle.std.specs.Prelude.{◌≡◌, ◌∷◌, [], ◌++◌};
ghost use Rattle.siman_cases.specs.Done.{deed_of, deeds_of};

use crate::done::{Done, endpoints, failure, had, letters, number};
use http_server::Log;
use siman_console::{
    Endpoint, FileKind, Known, Links, Listening, Outside, Settle, SystemCall, SystemFault,
    file_kind_of,
};
use siman_trials::{
    Calls, Case, File, Given, WireLine, Written, found, line_with, lines_of, read_from, write_to,
    write_unsettled,
};
use std::alloc::Global;
use std::io;
use std::io::ErrorKind;

/// The files and the link of a case, the requests for files (one a line: the name of a file to
/// open, or `make` and the name of a file to make), and the contents of the file that was made.
#[derive(Drop)]
pub(crate) struct Shelf<'a> {
    alloc: Global,
    /// The case that supplies the files, and the datagrams that arrive on a station's link.
    case: &'a Case,
    /// Limits of the calls that write a file.
    makes: Calls,
    /// Number of the call of links that fails, from 1; 0 if no link can be made.
    line_fails: Option<u64>,
    /// The link of a station's peer.
    peer: Option<WireLine>,
    /// The file that was opened last.
    opened: Option<&'a File>,
    /// Whether a file appears under the name of the one that is being made, so that saving fails.
    appears: bool,
    /// What a fault is explained by.
    known: Known,
    /// Number of files that were opened.
    count: usize,
    pub(crate) asked: String,
    /// The actions so far, for contracts alone.
    pub(crate) done: Log<Done, ()>,
    pub(crate) left: Option<Vec<u8>>,
    /// Contents of the file that was discarded.
    pub(crate) discarded: Option<Vec<u8>>,
}

/// Suffix that a case adds to the name of a file that appears only while one is made there.
const LATER: &str = ".later";

/// Suffix that a case adds to the name of a file that is made or created and then cannot be settled.
const UNSETTLED: &str = ".unsettled";

/// A shelf with the files of a case, before any request.
pub(crate) fn filled(alloc: Global, case: &Case, makes: Calls, line_fails: Option<u64>) -> Shelf<'_>
    ensures { deeds_of result.done ≡ [] }
{
    Shelf {
        alloc,
        case,
        makes,
        line_fails,
        peer: None,
        opened: None,
        appears: false,
        known: Known::nothing(),
        count: 0,
        asked: String::new(alloc),
        done: Log::new(),
        left: None,
        discarded: None,
    }
}

impl<'a> Shelf<'a> {
    /// Appends an action.
    fn note(&mut self, done: Done)
        ensures { deeds_of self.new.done ≡ deeds_of self.old.done ++ deed_of done ∷ [] }
    {
        self.done = self.done.and(&done, &());
    }

    /// Opens the file with this name, and notes the request.
    fn look_up(&mut self, name: &str) -> io::Result<&'a File>
        ensures { deeds_of self.new.done ≡ deeds_of self.old.done }
    {
        self.asked.push_str(name)?;
        self.asked.push('\n')?;
        let Some(file) = found(&self.case.files, name.as_bytes()) else {
            return Err(io::Error::from(ErrorKind::NotFound));
        };
        match file.shut {
            None => {
                self.opened = Some(file);
                self.look_at(file_kind_of(&file.stream.bytes));
                Ok(file)
            }
            Some(kind) => Err(io::Error::from(kind)),
        }
    }

    /// Notes the kind of a file that was opened, if it is the first or the second one.
    fn look_at(&mut self, kind: FileKind)
        ensures { deeds_of self.new.done ≡ deeds_of self.old.done }
    {
        match self.count {
            0 => self.known.first = kind,
            1 => self.known.second = kind,
            _ => {}
        }
        self.count = self.count.saturating_add(1);
    }

    /// Notes the call and its error, if it failed.
    fn keep<T>(&mut self, call: SystemCall, done: &io::Result<T>)
        ensures { deeds_of self.new.done ≡ deeds_of self.old.done }
    {
        if let Err(error) = done {
            let kind = error.kind();
            self.known.failed = Some(SystemFault { call, kind });
        }
    }

    /// Begins to make or create a file, and notes the request.
    fn begin(&mut self, name: &str) -> io::Result<Written>
        ensures { deeds_of self.new.done ≡ deeds_of self.old.done }
    {
        self.asked.push_str("make ")?;
        self.asked.push_str(name)?;
        self.asked.push('\n')?;
        match found(&self.case.files, name.as_bytes()) {
            Some(
                File {
                    shut: Some(kind),
                    ..
                },
            ) => Err(io::Error::from(*kind)),
            _ => self.empty(name),
        }
    }

    /// An empty file for this name, which cannot be settled where the case says so.
    fn empty(&self, name: &str) -> io::Result<Written> {
        let unsettled = format!(in self.alloc; "{name}{UNSETTLED}")?;
        match self.stands(&unsettled) {
            Some(_) => Ok(write_unsettled(self.alloc, self.makes)),
            None => Ok(write_to(self.alloc, self.makes)),
        }
    }

    /// The file with this name.
    fn stands(&self, name: &str) -> Option<&'a File> {
        found(&self.case.files, name.as_bytes())
    }

    /// Whether the case has a file that appears under this name.
    fn appears_at(&self, name: &str) -> io::Result<bool> {
        let later = format!(in self.alloc; "{name}{LATER}")?;
        Ok(self.stands(&later).is_some())
    }

    /// Begins to make a file that takes this name in the end. With `force` it may replace another
    /// file.
    fn begin_made(&mut self, name: &str, force: bool) -> io::Result<Written>
        ensures { deeds_of self.new.done ≡ deeds_of self.old.done }
    {
        self.appears = !force && self.appears_at(name)?;
        self.begin(name)
    }

    /// Datagrams that the station sent on its link.
    pub(crate) fn sent(&self, alloc: Global) -> io::Result<Vec<Vec<u8>>> {
        match &self.peer {
            Some(peer) => Ok(peer.heard(alloc)?),
            None => Ok(Vec::new(alloc)),
        }
    }

    /// Links of this many stations, on one network.
    fn have_lines(&self, alloc: Global, stations: usize) -> io::Result<Vec<WireLine>> {
        if self.line_fails == Some(0) {
            return Err(io::Error::from(ErrorKind::Other));
        }
        Ok(lines_of(alloc, stations, self.line_fails)?)
    }

    /// The link of a station; the shelf stores that of its peer.
    fn have_line(&mut self, alloc: Global) -> io::Result<WireLine>
        ensures { deeds_of self.new.done ≡ deeds_of self.old.done }
    {
        if self.line_fails == Some(0) {
            return Err(io::Error::from(ErrorKind::Other));
        }
        let Case { coming, pauses, .. } = self.case;
        match line_with(alloc, coming, pauses, self.line_fails)? {
            Some((own, peer)) => {
                self.peer = Some(peer);
                Ok(own)
            }
            None => Err(io::Error::from(ErrorKind::Other)),
        }
    }
}

impl<'a> Outside for Shelf<'a> {
    ghost use Rattle.std.specs.Prelude.{Some};
    ghost use Rattle.siman_cases.specs.Done.{deeds_of};

    type Opened = &'a File;

    type File = Given<'a>;

    type Made = Written;

    ghost deeds = { λ shelf. Some (deeds_of shelf.done) };

    fn open(&mut self, name: &str) -> io::Result<&'a File> {
        let answer = self.look_up(name);
        self.keep(SystemCall::Open, &answer);
        self.note(Done::Opened(letters(name), failure(&answer)));
        answer
    }

    fn is_opened(&mut self, _file: &&'a File, name: &str) -> bool {
        let same = match self.opened {
            Some(opened) => opened.name.as_str() == name,
            None => false,
        };
        self.note(Done::Compared(letters(name), same));
        same
    }

    fn read(&mut self, file: &'a File) -> Given<'a> {
        self.note(Done::Read);
        read_from(&file.stream.bytes, file.stream.calls)
    }

    fn is_filled(&mut self, name: &str) -> bool {
        let filled = match self.stands(name) {
            Some(file) => file.shut.is_none() && !file.stream.bytes.is_empty(),
            None => false,
        };
        self.note(Done::LookedInto(letters(name), filled));
        filled
    }

    fn make(&mut self, name: &str, force: bool) -> io::Result<Written> {
        let answer = self.begin_made(name, force);
        self.keep(SystemCall::Make, &answer);
        self.note(Done::Made(letters(name), force, failure(&answer)));
        answer
    }

    fn save(&mut self, file: Written) -> io::Result<()> {
        if self.appears {
            self.note(Done::Unsaved(ErrorKind::AlreadyExists));
            return Err(io::Error::from(ErrorKind::AlreadyExists));
        }
        self.left = Some(file.bytes);
        self.note(Done::Saved);
        Ok(())
    }

    fn discard(&mut self, file: Written) {
        self.discarded = Some(file.bytes);
        self.note(Done::Discarded);
    }

    fn is_taken(&mut self, name: &str) -> bool {
        let taken = match found(&self.case.files, name.as_bytes()) {
            Some(file) => file.shut.is_none(),
            None => false,
        };
        self.note(Done::LookedFor(letters(name), taken));
        taken
    }

    fn create(&mut self, name: &str) -> io::Result<Written> {
        let answer = self.begin(name);
        self.keep(SystemCall::Make, &answer);
        self.note(Done::Created(letters(name), failure(&answer)));
        answer
    }

    fn close(&mut self, file: Written) -> io::Result<()> {
        let mut file = file;
        let answer = file.settle();
        self.left = Some(file.bytes);
        self.keep(SystemCall::Write, &answer);
        match &answer {
            Ok(()) => self.note(Done::Left),
            Err(error) => self.note(Done::Unsettled(error.kind())),
        }
        answer
    }

    fn known(&self) -> Known {
        self.known
    }
}

impl<'a> Links for Shelf<'a> {
    type Line = WireLine;

    fn lines(&mut self, alloc: Global, stations: usize) -> io::Result<Vec<WireLine>> {
        let answer = self.have_lines(alloc, stations);
        self.keep(SystemCall::BindLoopback, &answer);
        self.note(Done::Lined(stations, number(&answer)));
        answer
    }

    fn line_at(
        &mut self,
        alloc: Global,
        bind: Endpoint,
        peers: &[Endpoint],
        listening: Listening,
    ) -> io::Result<WireLine> {
        let answer = self.have_line(alloc);
        self.keep(SystemCall::Bind(bind), &answer);
        self.note(Done::Bound(bind, endpoints(peers), listening, had(&answer)));
        answer
    }
}
