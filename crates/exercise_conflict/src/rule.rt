//! The rule that each cause breaks.

ghost use Rattle.std.specs.Prelude.{◌≡◌, ◌++◌, OnOk, string_bytes};
ghost use Rattle.siman_print.specs.Spelled.{line_spelled};
ghost use Rattle.exercise_conflict.specs.Rule.{rule_text};
ghost use Rattle.exercise_conflict.specs.Lines.{rule_line};

use exercise_model::Cause;
use siman_print::{Field, Spelling, Value, put_named};
use std::alloc::AllocError;

/// What holds of every run, but not where the cause holds.
fn rule_of(cause: Cause) -> &'static str
    ensures { result.now ≡ rule_text cause }
{
    match cause {
        Cause::CountDiffers => "a certificate has one step for each entry",
        Cause::NoSuchRecord => "a step names an entry of the recording",
        Cause::OutOfOrder => "a step names the next entry of its station",
        Cause::BadLink => "a step's link is the entry that its event takes up or was sent as",
        Cause::WrongSender => "a station sends under its own address",
        Cause::ReusedIdentifier => "a request identifier of a station stands for one order",
        Cause::NoRequest => "an answer takes up a request that its station has received",
        Cause::WrongAnswer => "an answer answers the request that it takes up",
        Cause::ChangedAnswer => "under one key a station does not say both able and unable",
        Cause::Impossible => "a change is made to an entity that can be changed so",
        Cause::Stranger => "a datagram comes from a recorded station",
        Cause::NeverSent => "a datagram that is received was sent before",
        Cause::WrongState => "a station tells the state that its entity has",
    }
}

/// `rule N TEXT`: the number of a cause, and the rule that it breaks.
pub fn put_rule(text: &mut String, spelling: Spelling, cause: Cause) -> Result<(), AllocError>
    ensures { OnOk result (string_bytes text.new ≡ string_bytes text.old ++ line_spelled spelling (rule_line cause)) }
{
    let fields = [
        Field::Bare("cause", Value::Number(u64::from(cause.number()))),
        Field::Bare("text", Value::Phrase(rule_of(cause))),
    ];
    put_named(text, spelling, "rule", &fields)
}
