//! What a plan says of a text: its rows and its plain script.

ghost use Rattle.std.specs.Prelude.{◌≡◌, length, map, option_map, IfOk, string_bytes};
ghost use Rattle.exercise_model.specs.Held.{kept};
ghost use Rattle.siman_stations.specs.World.{sent_in};
ghost use Rattle.siman_print.specs.Spelled.{lines_spelled};
ghost use Rattle.siman_plans.specs.PlanText.{unnamed_why, sent_by, background_of, rows_of, fault_of, unless_long, said_of, said_at, Says};

use crate::background::Background;
use crate::plan::{Plan, plan_of};
use crate::plan_fault::{PlanFault, Refusal, Unnamed};
use crate::source::Source;
use crate::source_fault::{SourceReason, SourceWhy, TextFault};
use crate::source_read::read;
use dis_records::Address;
use exercise_model::{EntryView, LogEntry, Station};
use siman_print::{Spelling, TextLine};
use siman_scripts::LARGEST_SCRIPT;
use std::alloc::{AllocError, Global};
use std::marker::Model;

/// What a plan says: its rows and its plain script. Contracts see their bytes.
#[derive(Drop)]
pub struct PlanText {
    /// The rows, as far as the moves are made.
    pub rows: String,
    pub script: Vec<u8>,
    /// The move at which the world refuses to go on, if it does.
    pub stop: Option<Refusal>,
    /// The number of datagrams that were sent.
    pub sends: usize,
}

impl Model for PlanText {
    ghost use Rattle.std.specs.Prelude.{string_bytes};
    ghost use Rattle.siman_plans.specs.PlanText.{PlanTextData};

    ghost Value = { PlanTextData };

    ghost view = { λ t. record { rows = string_bytes t.rows; script = t.script.items; stop = t.stop; sends = t.sends } };
}

/// Why a plan says nothing of a text.
#[derive(Clone, Copy)]
pub enum PlanTextFault {
    /// A line cannot be read, or a word of it names nothing.
    Source(SourceReason),
    /// A world cannot have the stations.
    Stations,
    /// The plain script would have more than 1,048,576 bytes.
    TooLong,
    /// Memory ran out.
    Memory,
}

impl From<AllocError> for PlanTextFault {
    ghost use Rattle.std.specs.Prelude.{◌≡◌};
    ghost use Rattle.siman_plans.specs.declared.plan_text.PlanTextFault.TheVariants.{Memory};

    ghost from_gives = { λ _ e. e ≡ Memory };

    fn from(_e: AllocError) -> PlanTextFault {
        PlanTextFault::Memory
    }
}

/// Why a word that names nothing is refused.
fn unnamed_why(why: Unnamed) -> SourceWhy
    ensures { result ≡ unnamed_why why }
{
    match why {
        Unnamed::LabelSendsNothing => SourceWhy::LabelSendsNothing,
        Unnamed::NoAnswer => SourceWhy::NoAnswer,
        Unnamed::NeverBrought => SourceWhy::NeverBrought,
        Unnamed::NotSent => SourceWhy::NotSent,
    }
}

/// The datagram that an entry sends, if any.
fn sent_by(entry: &LogEntry) -> Option<&[u8]>
    ensures { option_map (λ d. d.now) result ≡ sent_by (kept entry.now) }
{
    match entry.view() {
        EntryView::Sent { bytes, .. } => Some(bytes),
        EntryView::Received { .. } | EntryView::Told { .. } => None,
    }
}

/// The sent datagrams of entries, by their numbers.
fn sends_of(alloc: Global, entries: &[LogEntry]) -> Result<Vec<&[u8]>, AllocError>
    ensures { IfOk result (λ sends. map (λ d. d.now) sends.items ≡ sent_in (map kept entries.now)) }
{
    let mut sends = Vec::new(alloc);
    let mut others = entries;
    while let [entry, rest @ ..] = others {
        if let Some(datagram) = sent_by(entry) {
            sends.push(datagram)?;
        }
        others = rest;
    }
    Ok(sends)
}

/// The addresses of stations.
fn addresses_of(alloc: Global, stations: &[Station]) -> Result<Vec<Address>, AllocError>
    ensures { IfOk result (λ addresses. addresses.items ≡ map (λ s. s.address) stations.now) }
{
    let mut addresses = Vec::new(alloc);
    for station in stations {
        addresses.push(station.address())?;
    }
    Ok(addresses)
}

/// The rows of a plan, or those before the move at which the world refuses to go on.
fn rows_of(
    alloc: Global,
    spelling: Spelling,
    exercise: u8,
    background: &Background<'_, '_>,
    plan: &Plan,
) -> Result<String, AllocError>
    ensures { IfOk result (λ text. string_bytes text ≡ lines_spelled spelling (rows_of exercise background.now plan.now.sent.items plan.now.planned.items plan.now.stop)) }
{
    let mut text = String::new(alloc);
    match plan.stop {
        None => background.put_plan(&mut text, spelling, exercise, &plan.sent, &plan.planned)?,
        Some(_) => {
            let row = &mut TextLine::new();
            background.put_moves(&mut text, row, spelling, &plan.planned)?
        }
    }
    Ok(text)
}

/// What is said of a recording of moves and of the notes of a plan: the rows, and the number of
/// datagrams that were sent.
fn said_rows(
    alloc: Global,
    spelling: Spelling,
    exercise: u8,
    labels: Vec<&[u8]>,
    plan: &Plan,
) -> Result<(String, usize), AllocError>
    ensures rows { IfOk result (λ said. string_bytes said.0 ≡ lines_spelled spelling (rows_of exercise (background_of plan.now.recording (map (λ l. l.now) labels.entry.items)) plan.now.sent.items plan.now.planned.items plan.now.stop)) }
    ensures sends { IfOk result (λ said. said.1 ≡ length (sent_in plan.now.recording.entries)) }
{
    let background = Background {
        stations: addresses_of(alloc, plan.recording.setting().stations())?,
        sends: sends_of(alloc, plan.recording.entries())?,
        labels,
    };
    let text = rows_of(alloc, spelling, exercise, &background, plan)?;
    Ok((text, background.sends.len()))
}

/// The fault of a source that has no plan.
fn fault_of(fault: PlanFault) -> PlanTextFault
    ensures { result ≡ fault_of fault }
{
    match fault {
        PlanFault::Stations => PlanTextFault::Stations,
        PlanFault::Unnamed { line, column, why } => PlanTextFault::Source(SourceReason {
            line,
            column,
            why: unnamed_why(why),
        }),
        PlanFault::Memory => PlanTextFault::Memory,
    }
}

/// Refuses a whole plain script that is too long.
fn unless_long(text: PlanText) -> Result<PlanText, PlanTextFault>
    ensures { Says result (unless_long text) }
{
    if text.stop.is_none() && text.script.len() > LARGEST_SCRIPT {
        return Err(PlanTextFault::TooLong);
    }
    Ok(text)
}

/// What a plan says of a source.
fn say_source(
    alloc: Global,
    spelling: Spelling,
    source: Source<'_>,
) -> Result<PlanText, PlanTextFault>
    ensures { Says result (said_of spelling source.entry) }
{
    let Source {
        exercise,
        stations,
        setup,
        lines,
        labels,
    } = source;
    let plan = match plan_of(alloc, exercise, stations, lines) {
        Ok(plan) => plan,
        Err(fault) => return Err(fault_of(fault)),
    };
    let (rows, sends) = said_rows(alloc, spelling, exercise, labels, &plan)?;
    let Plan { script, stop, .. } = plan;
    let mut whole = setup;
    whole.extend_from_slice(&script)?;
    unless_long(PlanText {
        rows,
        script: whole,
        stop,
        sends,
    })
}

/// What a plan says of a text: the rows of its lines, and its plain script; or the first line that
/// cannot be read or done.
pub fn say_plan(alloc: Global, spelling: Spelling, text: &[u8]) -> Result<PlanText, PlanTextFault>
    ensures { Says result (said_at spelling text.now) }
{
    match read(alloc, text) {
        Ok(source) => say_source(alloc, spelling, source),
        Err(TextFault::Refused(reason)) => Err(PlanTextFault::Source(reason)),
        Err(TextFault::Memory) => Err(PlanTextFault::Memory),
    }
}
