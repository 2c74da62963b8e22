//! Values of the rows of a plan.

ghost use Rattle.std.specs.Prelude.{◌≡◌, ◌≤◌, ◌+◌, ◌++◌, length};
ghost use Rattle.siman_pdus.specs.Reading.{body_of};
ghost use Rattle.exercise_review.specs.Word.{word_text};
ghost use Rattle.siman_print.specs.Line.{Word as WordValue};
ghost use Rattle.siman_plans.specs.Plain.{order_name};

use dis_records::Kind;
use exercise_review::Word as AnswerWord;
use siman_pdus::{BodyView, RequestStatus, ResponseFlag};
use siman_print::{Key, PrintedValue, Spelling, TextLine, Word, add_number, add_quote};

/// The name of the line of an order with this body; empty for the body of no order.
fn order_name(body: &BodyView<'_>) -> &'static str
    ensures name { result.now ≡ order_name (body_of body.now) }
    ensures short { length result.now ≤ 20 }
{
    match body {
        BodyView::CreateEntity { .. } => "create",
        BodyView::RemoveEntity { .. } => "remove",
        BodyView::StartResume { .. } => "start",
        BodyView::StopFreeze { .. } => "stop",
        BodyView::ActionRequest { .. } => "do",
        BodyView::DataQuery { .. } => "query",
        BodyView::SetData { .. } => "set",
        _ => "",
    }
}

/// The name of the line of an order with this body, as a value.
pub(crate) fn order_word(body: &BodyView<'_>) -> Word<'static>
    ensures { result.word.now ≡ order_name (body_of body.now) }
{
    Word::of(order_name(body))
}

/// What an answer says, in the word of a review.
#[derive(Clone, Copy)]
pub(crate) struct Response(pub(crate) AnswerWord);

/// Appends what an answer says, in one word.
#[inline(always)]
fn add_word(line: &mut TextLine, said: AnswerWord)
    requires { length line.old.bytes + 20 ≤ 1024 }
    ensures bytes { line.new.bytes ≡ line.old.bytes ++ word_text said }
    ensures grown { length line.new.bytes ≤ length line.old.bytes + 20 }
{
    match said {
        AnswerWord::Other => line.push_str(ResponseFlag::Other.name()),
        AnswerWord::Able => line.push_str(ResponseFlag::Able.name()),
        AnswerWord::Unable => line.push_str(ResponseFlag::Unable.name()),
        AnswerWord::Pending => line.push_str(ResponseFlag::Pending.name()),
        AnswerWord::Executing => line.push_str(RequestStatus::Executing.name()),
        AnswerWord::PartiallyComplete => line.push_str(RequestStatus::PartiallyComplete.name()),
        AnswerWord::Complete => line.push_str(RequestStatus::Complete.name()),
        AnswerWord::Rejected => line.push_str(RequestStatus::Rejected.name()),
        AnswerWord::Data => line.push_str(Kind::DataPdu.name()),
        AnswerWord::Number(number) => add_number(line, u64::from(number)),
    }
}

impl PrintedValue for Response {
    ghost value = { λ r. WordValue (word_text r.0) };

    ghost most = { 22 };

    #[inline(always)]
    fn add_value(&self, line: &mut TextLine, spelling: Spelling, key: Key<'_>) {
        add_quote(line, spelling);
        add_word(line, self.0);
        add_quote(line, spelling)
    }
}
