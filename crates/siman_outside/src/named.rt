//! The names in a command line, which explain a fault.

use crate::commands::{OneWord, Reading, Task, TwoWords, ViewWord};

/// What a command does with a recording that is torn.
#[derive(Clone, Copy)]
pub(crate) enum TornUse {
    /// Keeps what stands whole of it.
    Kept,
    /// Refuses it, but takes `--torn`.
    MayBeKept,
    /// Refuses it.
    Refused,
}

/// The names in a command line; a missing name is empty.
#[derive(Clone, Copy)]
pub struct Named<'a> {
    /// The file that is read, or read first.
    pub(crate) first: &'a str,
    /// The file that is read second; the address for `station` and `import`.
    pub(crate) second: &'a str,
    /// The file that is made.
    pub(crate) made: &'a str,
    /// What else a fault may be about: the endpoint of the socket for `station`, the capture for `import`.
    pub(crate) other: &'a str,
    /// Whether the command takes `--force`.
    pub(crate) may_force: bool,
    /// What the command does with a recording that is torn.
    pub(crate) torn: TornUse,
    /// The view, for a command that is one.
    pub(crate) view: Option<ViewWord>,
}

/// No names.
pub fn nothing_named() -> Named<'static> {
    Named {
        first: "",
        second: "",
        made: "",
        other: "",
        may_force: false,
        torn: TornUse::Refused,
        view: None,
    }
}

/// What a command that takes `--torn` does with a recording that is torn.
fn torn_use(reading: Reading) -> TornUse {
    match reading {
        Reading::Whole => TornUse::MayBeKept,
        Reading::Torn => TornUse::Kept,
    }
}

/// What a command with one word does with a recording that is torn.
fn torn_use_of_one(command: OneWord, reading: Reading) -> TornUse {
    match command {
        OneWord::Pdu => TornUse::Refused,
        OneWord::Show => torn_use(reading),
    }
}

/// What a command with two words does with a recording that is torn.
fn torn_use_of_two(command: TwoWords, reading: Reading) -> TornUse {
    match command {
        TwoWords::Check | TwoWords::Audit | TwoWords::Export => torn_use(reading),
        TwoWords::Mend => TornUse::Kept,
        TwoWords::World | TwoWords::Live | TwoWords::Convert => TornUse::Refused,
    }
}

/// The names of a command with two words.
fn two_named<'a>(
    command: TwoWords,
    first: &'a str,
    second: &'a str,
    reading: Reading,
) -> Named<'a> {
    let (mut read, mut made) = ("", second);
    if let TwoWords::Check = command {
        (read, made) = (second, "");
    }
    Named {
        first,
        second: read,
        made,
        other: "",
        may_force: !matches!(command, TwoWords::Check | TwoWords::Live),
        torn: torn_use_of_two(command, reading),
        view: None,
    }
}

/// The names of a task.
pub fn named_by<'a>(task: &Task<'a, &'a str>) -> Named<'a> {
    let nothing = nothing_named();
    match task {
        Task::Trial => Named {
            first: "standard input",
            ..nothing
        },
        Task::Bare(_) => nothing,
        Task::One(command, first, reading) => Named {
            first,
            torn: torn_use_of_one(*command, *reading),
            ..nothing
        },
        Task::Two(command, first, second, _, reading) => {
            two_named(*command, first, second, *reading)
        }
        Task::Join(pieces, made, _, _) => Named {
            first: pieces.first().copied().unwrap_or(""),
            made,
            may_force: true,
            ..nothing
        },
        Task::Import(words, _) => Named {
            first: words.setup,
            second: words.address,
            made: words.recording,
            other: words.capture,
            may_force: true,
            ..nothing
        },
        Task::Station(words) => Named {
            first: words.setup,
            second: words.address,
            made: words.recording,
            other: words.bind,
            ..nothing
        },
        Task::View(view, first, _, _, reading) => Named {
            first,
            torn: torn_use(*reading),
            view: Some(*view),
            ..nothing
        },
        Task::Prose(first, _, reading) => Named {
            first,
            torn: torn_use(*reading),
            view: Some(ViewWord::Review),
            ..nothing
        },
        Task::Why(first, second, _, reading) => Named {
            first,
            second: second.unwrap_or(""),
            torn: torn_use(*reading),
            ..nothing
        },
        Task::Plan(first, made, _, _) => Named {
            first,
            made: made.unwrap_or(""),
            may_force: true,
            ..nothing
        },
        Task::Chart(first, second, made, _, _, reading) => Named {
            first,
            second,
            made,
            may_force: true,
            torn: torn_use(*reading),
            ..nothing
        },
    }
}
