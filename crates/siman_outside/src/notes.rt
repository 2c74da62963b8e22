//! Warnings that a command notes besides its answer.

ghost use Rattle.std.specs.Prelude.{◌≡◌};
ghost use Rattle.exercise_model.specs.Held.{shown};
ghost use Rattle.siman_outside.specs.Notes.{datagram_count, entry_count, meaningless_count, meaningless_warning};

use crate::short_texts::ShortText;
use exercise_model::{EntryView, ExerciseLog, meaning_view};
use exercise_recording::FormatFault;

/// A warning, which changes neither the answer nor the status.
#[derive(Clone, Copy)]
pub enum Warning {
    /// A recording has datagrams, this many, and none of them means anything in its exercise, whose
    /// number this is.
    NothingMeant {
        datagrams: u64,
        exercise: u8,
    },
    /// The order in this line of a script, from 1, is for a station of this site and application
    /// that the script does not have.
    NoSuchStation {
        line: usize,
        site: u16,
        application: u16,
    },
    /// A recording is torn: it has this fault, and is read as these entries, which stand whole before
    /// it.
    Torn {
        fault: FormatFault,
        entries: u32,
    },
    /// The log that was made of a capture may not be whole, for each of these that holds.
    NotWhole {
        /// The capturing system lost packets.
        dropped: bool,
        /// Fragments complete no datagram.
        fragments: bool,
        /// Datagrams are of several PDUs, of which none is read.
        bundled: bool,
    },
    /// The log that was made of a capture assumes entities with which its station does not open: the
    /// whole text, which names some of them.
    Unopened(ShortText),
}

/// Notes of a command besides its answer.
#[derive(Clone, Copy)]
pub struct Notes {
    /// The first warning that was noted.
    pub warning: Option<Warning>,
    /// A warning to print behind it.
    pub further: Option<Warning>,
}

impl Notes {
    ghost use Rattle.std.specs.Prelude.{◌≡◌, None};
    ghost use Rattle.std.specs.Option.{option_or};
    ghost use Rattle.siman_outside.specs.Notes.{meaningless_warning};

    /// No notes.
    pub fn nothing() -> Notes
        ensures warning { result.warning ≡ None }
        ensures further { result.further ≡ None }
    {
        Notes {
            warning: None,
            further: None,
        }
    }

    /// Notes a warning, unless one was noted before.
    pub fn note(&mut self, warning: Option<Warning>)
        ensures warning { self.new.warning ≡ option_or self.old.warning warning }
        ensures further { self.new.further ≡ self.old.further }
    {
        if self.warning.is_none() {
            self.warning = warning;
        }
    }

    /// Notes a warning that is printed behind the first one, or alone.
    pub fn note_further(&mut self, warning: Option<Warning>)
        ensures first { self.new.warning ≡ self.old.warning }
        ensures further { self.new.further ≡ warning }
    {
        self.further = warning;
    }

    /// Notes the warning that a recording has datagrams and none means anything in its exercise, if
    /// that is so.
    pub fn note_recording<L: ExerciseLog>(&mut self, log: &L)
        ensures warning { self.new.warning ≡ option_or self.old.warning (meaningless_warning (L.recording log.now)) }
        ensures further { self.new.further ≡ self.old.further }
    {
        self.note(meaningless_warning(log));
    }
}

/// `Some(1)` for a datagram that means nothing in an exercise, `None` for one that means something.
fn datagram_count(exercise: u8, datagram: &[u8]) -> Option<usize>
    ensures { result ≡ datagram_count exercise datagram.now }
{
    if meaning_view(exercise, datagram).is_some() {
        return None;
    }
    Some(1)
}

/// Number of datagrams of an entry that mean nothing in an exercise, 0 or 1; `None` if its datagram
/// means something.
fn entry_count(exercise: u8, entry: EntryView<'_>) -> Option<usize>
    ensures { result ≡ entry_count exercise (shown entry.entry) }
{
    match entry {
        EntryView::Sent { bytes, .. } | EntryView::Received { bytes, .. } => {
            datagram_count(exercise, bytes)
        }
        EntryView::Told { .. } => Some(0),
    }
}

/// Number of datagrams of a recording, if none of them means anything in its exercise; else `None`.
fn meaningless_count<L: ExerciseLog>(log: &L) -> Option<usize>
    ensures { let r = L.recording log.now in result ≡ meaningless_count r.setting.exercise r.entries }
{
    let exercise = log.exercise();
    let mut datagrams = 0;
    for index in 0..log.entry_count() {
        match entry_count(exercise, log.entry(index)) {
            Some(count) => datagrams += count,
            None => return None,
        }
    }
    Some(datagrams)
}

/// The warning of a recording that has datagrams, none of which means anything in its exercise.
fn meaningless_warning<L: ExerciseLog>(log: &L) -> Option<Warning>
    ensures { result ≡ meaningless_warning (L.recording log.now) }
{
    match meaningless_count(log) {
        None | Some(0) => None,
        Some(datagrams) => Some(Warning::NothingMeant {
            datagrams: datagrams as u64,
            exercise: log.exercise(),
        }),
    }
}
