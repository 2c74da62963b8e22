//! The forms of lines: the name with which each begins, and the words behind it.

ghost use Rattle.std.specs.Prelude.{◌≡◌};
ghost use Rattle.siman_scripts.specs.Forms.{form_name, form_named, row, next_word};

use crate::word_kind::WordKind;

/// A form of line, named by the first word of its lines.
#[derive(Clone, Copy)]
pub enum LineForm {
    Exercise,
    Station,
    At,
    Opening,
    Fixed,
    Action,
    Deliver,
    Tick,
    Tell,
    Do,
    Query,
    Set,
    Create,
    Remove,
    Start,
    Stop,
}

/// All forms.
pub(crate) const FORMS: [LineForm; 16] = [
    LineForm::Exercise,
    LineForm::Station,
    LineForm::At,
    LineForm::Opening,
    LineForm::Fixed,
    LineForm::Action,
    LineForm::Deliver,
    LineForm::Tick,
    LineForm::Tell,
    LineForm::Do,
    LineForm::Query,
    LineForm::Set,
    LineForm::Create,
    LineForm::Remove,
    LineForm::Start,
    LineForm::Stop,
];

/// What may follow at a place behind the name of a line.
#[derive(Clone, Copy)]
pub(crate) enum Next {
    /// A word of this kind, without which the line is too short.
    Needed(WordKind),
    /// A word of this kind, or the end of the line.
    Optional(WordKind),
    /// The end of the line.
    End,
}

/// The name with which the lines of a form begin.
pub fn form_name(form: LineForm) -> &'static str
    ensures { result.now ≡ form_name form }
{
    match form {
        LineForm::Exercise => "exercise",
        LineForm::Station => "station",
        LineForm::At => "at",
        LineForm::Opening => "opening",
        LineForm::Fixed => "fixed",
        LineForm::Action => "action",
        LineForm::Deliver => "deliver",
        LineForm::Tick => "tick",
        LineForm::Tell => "tell",
        LineForm::Do => "do",
        LineForm::Query => "query",
        LineForm::Set => "set",
        LineForm::Create => "create",
        LineForm::Remove => "remove",
        LineForm::Start => "start",
        LineForm::Stop => "stop",
    }
}

/// The form whose lines begin with this name, if any.
pub fn form_named(name: &[u8]) -> Option<LineForm>
    ensures { result ≡ form_named name.now }
{
    FORMS
        .iter()
        .copied()
        .find(|form| name == form_name(*form).as_bytes())
}

const ADDRESS: Next = Next::Needed(WordKind::Address);

const RECEIVER: Next = Next::Needed(WordKind::Receiver);

const BITS_32: Next = Next::Needed(WordKind::Number(0xFFFF_FFFF));

/// What may follow at the first four places behind the name of a line.
fn row(form: LineForm) -> [Next; 4]
    ensures { result ≡ row form }
{
    let end = Next::End;
    match form {
        LineForm::Exercise => [Next::Needed(WordKind::Number(0xFF)), end, end, end],
        LineForm::Station => [
            ADDRESS,
            Next::Optional(WordKind::FirstId),
            Next::Needed(WordKind::Tries),
            Next::Needed(WordKind::Wait),
        ],
        LineForm::At => [Next::Needed(WordKind::Number(u64::MAX)), end, end, end],
        LineForm::Opening => [
            ADDRESS,
            Next::Needed(WordKind::Entity),
            Next::Needed(WordKind::State),
            end,
        ],
        LineForm::Fixed => [ADDRESS, BITS_32, BITS_32, end],
        LineForm::Action => [ADDRESS, BITS_32, end, end],
        LineForm::Deliver => [BITS_32, ADDRESS, end, end],
        LineForm::Tick => [ADDRESS, end, end, end],
        LineForm::Tell => [ADDRESS, Next::Needed(WordKind::Number(0xFFFF)), end, end],
        LineForm::Do => [ADDRESS, RECEIVER, BITS_32, end],
        LineForm::Query => [
            ADDRESS,
            RECEIVER,
            BITS_32,
            Next::Optional(WordKind::Number(0xFFFF_FFFF)),
        ],
        LineForm::Set => [ADDRESS, RECEIVER, BITS_32, BITS_32],
        LineForm::Create | LineForm::Remove | LineForm::Start | LineForm::Stop => [
            ADDRESS, RECEIVER, end, end,
        ],
    }
}

/// What may follow at a place behind the name of a line; places are counted from 0.
pub(crate) fn next_word(form: LineForm, place: usize) -> Next
    ensures { result ≡ next_word form place }
{
    if place < 4 {
        return row(form)[place];
    }
    match form {
        LineForm::Query => Next::Optional(WordKind::Number(0xFFFF_FFFF)),
        _ => Next::End,
    }
}
