//! The longest line that a session takes, and what a line asks of the session itself.

ghost use Rattle.std.specs.Prelude.{◌≡◌};
ghost use Rattle.siman_scripts.specs.Command.{command_of};
ghost use Rattle.siman_operator.specs.Reading.{question_of, said_by};

/// Longest line in bytes, without its line feed.
pub const LONGEST_LINE: usize = 65_536;

/// What a line asks of the session itself.
#[derive(Clone, Copy, Debug, PartialEq, Eq)]
pub enum Question {
    /// Nothing: it is a line for the station.
    Nothing,
    /// Which lines there are.
    Help,
    /// The orders that are not answered, the entities and the counts.
    Status,
}

/// What a line asks of the session itself.
pub(crate) fn question_of(held: &[u8]) -> Question
    ensures { result ≡ question_of held.now }
{
    if held == b"help".as_slice() {
        Question::Help
    } else if held == b"status".as_slice() {
        Question::Status
    } else {
        Question::Nothing
    }
}

/// The line for the station: an empty one, if the line asks something of the session; or an invalid
/// placeholder if it is longer than [`LONGEST_LINE`].
pub(crate) fn line_or_placeholder(held: &[u8]) -> &[u8]
    ensures { command_of result.now ≡ said_by held.now }
{
    if held.len() > LONGEST_LINE {
        return b"?";
    }
    match question_of(held) {
        Question::Help | Question::Status => b"",
        Question::Nothing => held,
    }
}
