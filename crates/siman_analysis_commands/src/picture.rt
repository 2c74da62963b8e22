//! The picture of some steps of a recording, and the rows of the answer.

ghost use Rattle.std.specs.Prelude.{◌≡◌, ◌-◌, ◌≤◌, IfOk, OnOk, length, map, option_map, None, string_bytes};
ghost use Rattle.exercise_model.specs.Recording.{IsRecording};
ghost use Rattle.siman_print.specs.Spelled.{line_text};
ghost use Rattle.siman_analysis_commands.specs.ChartWords.{entities_of, stations_of, past_of, unknown_of, AreShown};
ghost use Rattle.siman_analysis_commands.specs.Chart.{PutsPicture};
ghost use Rattle.siman_analysis_commands.specs.Picture.{chart_line, answer_text, status_of, of_chart, blocked_shown, ArePictureTexts, HasTexts, Pictures};

use crate::chart::ChartCommand;
use crate::chart_words::{entities_of, past_of, rows_in, stations_of, unknown_of};
use byte_files::put;
use dis_records::{EntityId, SiteApplication};
use exercise_chart::{BlockedEntry, ChartFault, MOST_ROWS, Rows, Selection, column_count, draw};
use exercise_check::Step;
use exercise_findings::Findings;
use exercise_model::ExerciseLog;
use exercise_review::Register;
use siman_outside::{Fault, Making, Settling, put_settled};
use siman_print::{Field, Value, named_line};
use std::alloc::{AllocError, Global};
use std::io::Write;

/// The texts of a picture: its file, and the rows of the answer; and the status.
#[derive(Drop)]
pub struct PictureTexts {
    pub picture: String,
    pub answer: String,
    pub status: u8,
}

/// The steps of a run, the entries that cannot happen next, and the rows with which the answer
/// begins where something cannot.
#[derive(Clone, Copy)]
pub(crate) struct Drawn<'s> {
    pub steps: &'s [Step],
    pub blocked: &'s [BlockedEntry],
    pub before: Option<&'s str>,
}

/// The row of the answer: the numbers of steps and stations in the picture, and of entries that
/// cannot happen next, where they are counted.
fn chart_line(
    alloc: Global,
    steps: usize,
    stations: usize,
    blocked: Option<usize>,
) -> Result<String, AllocError>
    ensures { IfOk result (λ line. string_bytes line ≡ line_text (chart_line steps stations blocked)) }
{
    let steps = Field::Keyed("steps", Value::Number(steps as u64));
    let stations = Field::Keyed("stations", Value::Number(stations as u64));
    match blocked {
        Some(blocked) => {
            let blocked = Field::Keyed("blocked", Value::Number(blocked as u64));
            named_line(alloc, "chart", &[steps, stations, blocked])
        }
        None => named_line(alloc, "chart", &[steps, stations]),
    }
}

/// The rows of the answer: those before, and that of the picture.
fn answer_of(
    alloc: Global,
    before: Option<&str>,
    steps: usize,
    stations: usize,
    blocked: usize,
) -> Result<String, AllocError>
    ensures { IfOk result (λ answer. string_bytes answer ≡ answer_text (option_map (λ text. text.now) before.entry) steps stations blocked) }
{
    let Some(before) = before else {
        return chart_line(alloc, steps, stations, None);
    };
    let line = chart_line(alloc, steps, stations, Some(blocked))?;
    let mut answer = String::new(alloc);
    answer.push_str(before)?;
    answer.push_str(&line)?;
    Ok(answer)
}

/// The status of an answer: 1 where rows stand before that of the picture.
fn status_of(before: Option<&str>) -> u8
    ensures { result ≡ status_of (option_map (λ text. text.now) before.entry) }
{
    if before.is_some() { 1 } else { 0 }
}

/// The texts of the picture of what is selected.
fn texts_of<L: ExerciseLog>(
    alloc: Global,
    log: &L,
    drawn: &Drawn<'_>,
    selection: &Selection<'_>,
) -> Result<PictureTexts, ChartFault>
    ensures texts { HasTexts (L.recording log.now) drawn.now.steps.now selection.now.rows selection.now.entities.now selection.now.stations.now selection.now.clock selection.now.blocked.now (option_map (λ text. text.now) drawn.now.before) result }
    ensures few { OnOk result (selection.now.rows.end - selection.now.rows.first ≤ MOST_ROWS) }
    ensures limits { OnOk result (IsRecording (L.recording log.now)) }
{
    let findings = Findings::of(alloc, log)?;
    let register = Register::of(alloc, findings)?;
    let picture = draw(alloc, &register, drawn.steps, selection)?;
    let stations = column_count(log, selection.stations);
    let (steps, blocked) = (selection.rows.count(), selection.blocked.len());
    let answer = answer_of(alloc, drawn.before, steps, stations, blocked)?;
    Ok(PictureTexts {
        picture,
        answer,
        status: status_of(drawn.before),
    })
}

/// The fault for a picture that could not be drawn.
fn of_chart(fault: ChartFault) -> Fault<'static>
    ensures { result ≡ of_chart fault }
{
    match fault {
        ChartFault::OverLimit => Fault::ChartOverLimit,
        ChartFault::Memory => Fault::Memory,
    }
}

/// The entries that cannot happen next, if the last of `steps` steps is shown.
fn blocked_shown(rows: Rows, steps: usize, blocked: &[BlockedEntry]) -> &[BlockedEntry]
    ensures { result.now ≡ blocked_shown rows steps blocked.now }
{
    if rows.end == steps { blocked } else { &[] }
}

/// The picture, given the entities and stations that the words choose.
fn selected<'a, L: ExerciseLog>(
    alloc: Global,
    log: &L,
    drawn: &Drawn<'_>,
    command: &ChartCommand<'a>,
    entities: &[EntityId],
    stations: &[SiteApplication],
) -> Result<PictureTexts, Fault<'a>>
    requires within { past_of (length drawn.now.steps.now) (map (λ word. word.now) command.now.words.now) ≡ None }
    requires recorded { unknown_of (L.recording log.now) (map (λ word. word.now) command.now.words.now) ≡ None }
    requires entities { entities.now ≡ entities_of (map (λ word. word.now) command.now.words.now) }
    requires stations { stations.now ≡ stations_of (map (λ word. word.now) command.now.words.now) }
    ensures picture { Pictures (map (λ word. word.now) command.now.words.now) command.now.window (L.recording log.now) drawn.now.steps.now drawn.now.blocked.now (option_map (λ text. text.now) drawn.now.before) result }
    ensures limits { OnOk result (IsRecording (L.recording log.now)) }
{
    let steps = drawn.steps.len();
    let rows = rows_in(command.window, steps);
    let selection = Selection {
        rows,
        entities,
        stations,
        clock: command.window.clock,
        blocked: blocked_shown(rows, steps, drawn.blocked),
    };
    match texts_of(alloc, log, drawn, &selection) {
        Ok(texts) => Ok(texts),
        Err(fault) => Err(of_chart(fault)),
    }
}

/// The picture of some steps, which are a run, as the words choose, and the rows of the answer.
/// `Step` if a word names a step past the last; `Filter` if one names a station that the recording
/// does not have.
pub(crate) fn picture_of<'a, L: ExerciseLog>(
    alloc: Global,
    log: &L,
    drawn: &Drawn<'_>,
    command: &ChartCommand<'a>,
) -> Result<PictureTexts, Fault<'a>>
    ensures picture { Pictures (map (λ word. word.now) command.now.words.now) command.now.window (L.recording log.now) drawn.now.steps.now drawn.now.blocked.now (option_map (λ text. text.now) drawn.now.before) result }
    ensures limits { OnOk result (IsRecording (L.recording log.now)) }
{
    if let Some(word) = past_of(drawn.steps.len(), command.words) {
        return Err(Fault::Step(word, drawn.steps.len()));
    }
    if let Some(word) = unknown_of(log, command.words) {
        return Err(Fault::Filter(word));
    }
    let entities = entities_of(alloc, command.words)?;
    let stations = stations_of(alloc, command.words)?;
    selected(alloc, log, drawn, command, &entities, &stations)
}

/// The file of a picture.
impl Making for PictureTexts {
    ghost use Rattle.siman_analysis_commands.specs.Chart.{PutsPicture};

    ghost puts = { PutsPicture };

    fn put<S: Settling<F>, F: Write, W: Write>(
        &self,
        _alloc: Global,
        settling: &S,
        file: &mut F,
        out: &mut W,
    ) -> Result<u8, Fault<'static>> {
        if put(file, self.picture.as_bytes()).is_err() {
            return Err(Fault::Output);
        }
        match put_settled(settling, file, &self.answer, out) {
            Ok(_) => Ok(self.status),
            Err(fault) => Err(fault),
        }
    }
}
