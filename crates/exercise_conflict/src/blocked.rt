//! The blocked list, and the rules that its causes break.

ghost use Rattle.std.specs.Prelude.{◌≡◌, ◌<◌, ◌++◌, length, map, OnOk, All, string_bytes};
ghost use Rattle.siman_print.specs.Spelled.{line_spelled, lines_spelled};
ghost use Rattle.exercise_audit.specs.declared.blocks.Block.{Block as BlockData};
ghost use Rattle.exercise_conflict.specs.Blocked.{explained_line, blocked_line, block_line, blocked_lines, has_cause, rule_lines};

use crate::rule::put_rule;
use exercise_audit::Block;
use exercise_model::{Cause, ExerciseLog};
use siman_print::{Field, Spelling, Value, put_named};
use std::alloc::{AllocError, Global};

/// All causes, by their numbers.
pub(crate) const CAUSES: [Cause; 13] = [
    Cause::CountDiffers,
    Cause::NoSuchRecord,
    Cause::OutOfOrder,
    Cause::BadLink,
    Cause::WrongSender,
    Cause::ReusedIdentifier,
    Cause::NoRequest,
    Cause::WrongAnswer,
    Cause::ChangedAnswer,
    Cause::Impossible,
    Cause::Stranger,
    Cause::NeverSent,
    Cause::WrongState,
];

/// `explained steps=N`.
pub fn put_explained(text: &mut String, spelling: Spelling, steps: usize) -> Result<(), AllocError>
    ensures { OnOk result (string_bytes text.new ≡ string_bytes text.old ++ line_spelled spelling (explained_line steps)) }
{
    let fields = [Field::Keyed("steps", Value::Number(steps as u64))];
    put_named(text, spelling, "explained", &fields)
}

/// `blocked stations=N`.
fn put_count(text: &mut String, spelling: Spelling, count: usize) -> Result<(), AllocError>
    ensures { OnOk result (string_bytes text.new ≡ string_bytes text.old ++ line_spelled spelling (blocked_line count)) }
{
    let fields = [Field::Keyed("stations", Value::Number(count as u64))];
    put_named(text, spelling, "blocked", &fields)
}

/// `blocked ADDRESS record=N cause=N NAME`.
fn put_block<L: ExerciseLog>(
    alloc: Global,
    text: &mut String,
    spelling: Spelling,
    log: &L,
    block: Block,
) -> Result<(), AllocError>
    requires { block.station < length (L.recording log.now).setting.stations }
    ensures { OnOk result (string_bytes text.new ≡ string_bytes text.old ++ line_spelled spelling (block_line (L.recording log.now) block)) }
{
    let cause = block.cause;
    let name = format!(in alloc; "{cause}")?;
    let fields = [
        Field::Bare(
            "address",
            Value::Address(log.station(block.station).address()),
        ),
        Field::Keyed("record", Value::Number(block.entry as u64)),
        Field::Keyed("cause", Value::Number(u64::from(cause.number()))),
        Field::Bare("name", Value::Word(&name)),
    ];
    put_named(text, spelling, "blocked", &fields)
}

fn put_blocks<L: ExerciseLog>(
    alloc: Global,
    text: &mut String,
    spelling: Spelling,
    log: &L,
    blocks: &[Block],
) -> Result<(), AllocError>
    requires { All (λ (b : BlockData). b.station < length (L.recording log.now).setting.stations) blocks.now }
    ensures { OnOk result (string_bytes text.new ≡ string_bytes text.old ++ lines_spelled spelling (map (block_line (L.recording log.now)) blocks.now)) }
{
    for block in blocks {
        put_block(alloc, text, spelling, log, *block)?;
    }
    Ok(())
}

/// The blocked list: the number of stations that cannot go on, and `blocked ADDRESS record=N
/// cause=N NAME` for each of them.
pub fn put_blocked<L: ExerciseLog>(
    alloc: Global,
    text: &mut String,
    spelling: Spelling,
    log: &L,
    blocks: &[Block],
) -> Result<(), AllocError>
    requires { All (λ (b : BlockData). b.station < length (L.recording log.now).setting.stations) blocks.now }
    ensures { OnOk result (string_bytes text.new ≡ string_bytes text.old ++ lines_spelled spelling (blocked_lines (L.recording log.now) blocks.now)) }
{
    put_count(text, spelling, blocks.len())?;
    put_blocks(alloc, text, spelling, log, blocks)
}

/// Whether some block has a cause.
fn has_cause(blocks: &[Block], cause: Cause) -> bool
    ensures { result ≡ has_cause blocks.now cause }
{
    blocks
        .iter()
        .any(|block| block.cause.number() == cause.number())
}

/// Those rules that the causes of a blocked list break, among the given causes, each once.
pub(crate) fn put_rules(
    text: &mut String,
    spelling: Spelling,
    blocks: &[Block],
    causes: &[Cause],
) -> Result<(), AllocError>
    ensures { OnOk result (string_bytes text.new ≡ string_bytes text.old ++ lines_spelled spelling (rule_lines blocks.now causes.now)) }
{
    for cause in causes {
        if has_cause(blocks, *cause) {
            put_rule(text, spelling, *cause)?;
        }
    }
    Ok(())
}
