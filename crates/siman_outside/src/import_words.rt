//! The words of `import` behind the recording that it makes.

ghost use Rattle.std.specs.Prelude.{◌≡◌, map, option_map};
ghost use Rattle.siman_outside.specs.ImportWords.{choice_by, opening_of, interface_of, choice_keyed, choice_with_key, choice_of, choices_by, with_choice, with_word, choices_behind, choices_of};

use crate::endpoint::port_of;
use byte_files::split_once;
use std::convert::AsStr;

/// How the station of an import opens, if not as the setup says.
#[derive(Clone, Copy, PartialEq, Eq)]
pub enum ImportOpening {
    /// With no entity.
    Nothing,
    /// As the setup says, and with the entities that its log assumes.
    Assumed,
}

/// What one word says of a capture.
#[derive(Clone, Copy)]
pub(crate) enum ImportWord<'a> {
    Port(u16),
    Interface(&'a [u8]),
    Cut,
    Shared,
    Echo,
    Opening(ImportOpening),
}

/// What words say of a capture, and of how the station opens.
#[derive(Clone, Copy)]
pub struct ImportChoices<'a> {
    /// UDP port to which datagrams of the exercise go, if a word names it.
    pub port: Option<u16>,
    /// Name of the interface whose packets alone are looked at, if a word names it.
    pub interface: Option<&'a [u8]>,
    /// Whether packets that the capture cut, and the torn end of its file, are left out.
    pub keeps_cut: bool,
    /// Whether other stations send from the host, too.
    pub is_shared: bool,
    /// Whether the station hears what its own host sends for all.
    pub hears_itself: bool,
    /// How the station opens, if not as the setup says.
    pub opening: Option<ImportOpening>,
}

fn opening_of(word: &[u8]) -> Option<ImportOpening>
    ensures { result ≡ opening_of word.now }
{
    if word == b"none".as_slice() {
        return Some(ImportOpening::Nothing);
    }
    if word == b"assumed".as_slice() {
        return Some(ImportOpening::Assumed);
    }
    None
}

/// The choice of an interface of this name, which has at least one byte.
fn interface_of(name: &[u8]) -> Option<ImportWord<'_>>
    ensures { option_map choice_by result ≡ interface_of name.now }
{
    if name.is_empty() {
        return None;
    }
    Some(ImportWord::Interface(name))
}

/// What a word `KEY=VALUE` says.
fn choice_keyed<'a>(key: &'a [u8], value: &'a [u8]) -> Option<ImportWord<'a>>
    ensures { option_map choice_by result ≡ choice_keyed key.now value.now }
{
    if key == b"port".as_slice() {
        return Some(ImportWord::Port(port_of(value)?));
    }
    if key == b"on".as_slice() {
        return interface_of(value);
    }
    if key == b"cut".as_slice() {
        return if value == b"keep".as_slice() {
            Some(ImportWord::Cut)
        } else {
            None
        };
    }
    if key == b"opening".as_slice() {
        return Some(ImportWord::Opening(opening_of(value)?));
    }
    None
}

fn choice_with_key(word: &[u8]) -> Option<ImportWord<'_>>
    ensures { option_map choice_by result ≡ choice_with_key word.now }
{
    let (key, value) = split_once(word, b'=')?;
    choice_keyed(key, value)
}

/// What a word says.
fn choice_of(word: &[u8]) -> Option<ImportWord<'_>>
    ensures { option_map choice_by result ≡ choice_of word.now }
{
    if word == b"shared".as_slice() {
        return Some(ImportWord::Shared);
    }
    if word == b"echo".as_slice() {
        return Some(ImportWord::Echo);
    }
    choice_with_key(word)
}

impl<'a> ImportChoices<'a> {
    ghost use Rattle.std.specs.Prelude.{◌≡◌, option_map};
    ghost use Rattle.siman_outside.specs.ImportWords.{choice_by, choices_by, no_choices, with_choice, with_word};

    /// No word yet.
    fn nothing() -> ImportChoices<'a>
        ensures { choices_by result ≡ no_choices }
    {
        ImportChoices {
            port: None,
            interface: None,
            keeps_cut: false,
            is_shared: false,
            hears_itself: false,
            opening: None,
        }
    }

    /// With one more word; `None` where one of its key came before.
    fn with_choice(self, choice: ImportWord<'a>) -> Option<ImportChoices<'a>>
        ensures { option_map choices_by result ≡ with_choice (choices_by self.entry) (choice_by choice.entry) }
    {
        let mut choices = self;
        match choice {
            ImportWord::Port(port) if self.port.is_none() => choices.port = Some(port),
            ImportWord::Interface(name) if self.interface.is_none() => {
                choices.interface = Some(name);
            }
            ImportWord::Cut if !self.keeps_cut => choices.keeps_cut = true,
            ImportWord::Shared if !self.is_shared => choices.is_shared = true,
            ImportWord::Echo if !self.hears_itself => choices.hears_itself = true,
            ImportWord::Opening(opening) if self.opening.is_none() => {
                choices.opening = Some(opening);
            }
            _ => return None,
        }
        Some(choices)
    }

    fn with_word(self, word: &'a [u8]) -> Option<ImportChoices<'a>>
        ensures { option_map choices_by result ≡ with_word (choices_by self.entry) word.now }
    {
        self.with_choice(choice_of(word)?)
    }
}

/// What words say together with those before them; `None` where one says nothing, or where two have
/// one key.
fn choices_behind<'a, S: AsStr>(
    choices: ImportChoices<'a>,
    words: &'a [S],
) -> Option<ImportChoices<'a>>
    ensures { option_map choices_by result ≡ choices_behind (choices_by choices.entry) (map S.text words.now) }
{
    match words {
        [] => Some(choices),
        [word, rest @ ..] => choices_behind(choices.with_word(word.as_str().as_bytes())?, rest),
    }
}

/// What words say together; `None` where one says nothing, or where two have one key.
pub(crate) fn choices_of<S: AsStr>(words: &[S]) -> Option<ImportChoices<'_>>
    ensures { option_map choices_by result ≡ choices_of (map S.text words.now) }
{
    choices_behind(ImportChoices::nothing(), words)
}
