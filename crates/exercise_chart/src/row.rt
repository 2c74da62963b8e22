//! The rows of a picture: one for each step that is shown.

ghost use Rattle.std.specs.Prelude.{◌≡◌, length, option_map, IfOk};
ghost use Rattle.siman_pdus.specs.Reading.{pdu_of};
ghost use Rattle.exercise_model.specs.Held.{shown};
ghost use Rattle.exercise_model.specs.Meaning.{meaning};
ghost use Rattle.exercise_chart.specs.Row.{is_repeat, repetition_of, send_activity, receipt_activity, activity_of, row_of, row_taking, row_at, rows_of};

use crate::point::Point;
use crate::saying::{Saying, pdu_summary};
use crate::scene::Scene;
use dis_records::EntityState;
use exercise_model::{EntryView, ExerciseLog};
use exercise_review::head_of;
use std::alloc::{AllocError, Global};

/// Whether a datagram repeats an earlier one.
#[derive(Clone, Copy)]
pub enum Repetition {
    /// It does not.
    No,
    /// It repeats an earlier request, in other bytes.
    Repeated,
    /// The station sent equal bytes before.
    SameBytes,
}

/// What a station did at an entry.
#[derive(Clone, Copy)]
pub enum Activity {
    /// It sent a PDU of the exercise.
    Sent(Saying, Repetition),
    /// It received one.
    Received(Saying),
    /// It sent a datagram, of this many bytes, that means nothing in the exercise.
    SentOther(usize),
    /// It received such a datagram.
    ReceivedOther(usize),
    /// It reported to its log the state of its entity with this number.
    Told(u16, EntityState),
}

/// A row: a step, the entry that it takes, what the station did there, and the stamp.
#[derive(Clone, Copy)]
pub struct Row {
    pub at: Point,
    pub did: Activity,
    /// The stamp of the entry; of a told state the nearest one before it in the recording, or 0.
    pub stamp: u64,
}

/// Whether an entry sends a request that an earlier entry sent first.
fn is_repeat<L: ExerciseLog>(scene: &Scene<'_, L>, entry: usize) -> bool
    ensures { result ≡ is_repeat scene.now entry }
{
    match head_of(scene.register(), entry) {
        Some(head) => head != entry,
        None => false,
    }
}

/// Whether, and how, a datagram sent at an entry repeats an earlier one.
fn repetition_of<L: ExerciseLog>(
    scene: &Scene<'_, L>,
    entry: usize,
    station: u16,
    bytes: &[u8],
) -> Repetition
    ensures { result ≡ repetition_of scene.now entry station bytes.now }
{
    if !scene.is_first_sent(entry, station, bytes) {
        Repetition::SameBytes
    } else if is_repeat(scene, entry) {
        Repetition::Repeated
    } else {
        Repetition::No
    }
}

/// What a station does when it sends a datagram.
fn send_activity<L: ExerciseLog>(
    scene: &Scene<'_, L>,
    entry: usize,
    station: u16,
    bytes: &[u8],
) -> Activity
    ensures { result ≡ send_activity scene.now entry station bytes.now (meaning scene.now.recording.setting.exercise bytes.now) }
{
    match scene.meant(bytes) {
        Some(pdu) => Activity::Sent(
            pdu_summary(&pdu),
            repetition_of(scene, entry, station, bytes),
        ),
        None => Activity::SentOther(bytes.len()),
    }
}

/// What a station does when it receives a datagram.
fn receipt_activity<L: ExerciseLog>(scene: &Scene<'_, L>, bytes: &[u8]) -> Activity
    ensures { result ≡ receipt_activity bytes.now (meaning scene.now.recording.setting.exercise bytes.now) }
{
    match scene.meant(bytes) {
        Some(pdu) => Activity::Received(pdu_summary(&pdu)),
        None => Activity::ReceivedOther(bytes.len()),
    }
}

/// What a station does at an entry.
#[tactic(auto, unfolding(crate::specs::Row::activity_of))]
fn activity_of<L: ExerciseLog>(scene: &Scene<'_, L>, entry: usize, view: EntryView<'_>) -> Activity
    ensures { result ≡ activity_of scene.now entry (shown view.entry) }
{
    match view {
        EntryView::Sent { station, bytes, .. } => send_activity(scene, entry, station, bytes),
        EntryView::Received { bytes, .. } => receipt_activity(scene, bytes),
        EntryView::Told { entity, state, .. } => Activity::Told(entity, state),
    }
}

/// The row of a step with its entry, if the recording has that entry.
pub(crate) fn row_taking<L: ExerciseLog>(
    scene: &Scene<'_, L>,
    step: usize,
    entry: usize,
) -> Option<Row>
    ensures { result ≡ row_taking scene.now step entry }
{
    match scene.entry_at(entry) {
        Some(view) => Some(Row {
            at: Point {
                entry,
                step,
                station: view.station(),
            },
            did: activity_of(scene, entry, view),
            stamp: scene.stamp_of(entry),
        }),
        None => None,
    }
}

/// The row of a step, if there is such a step and the recording has its entry.
#[tactic(auto, unfolding(crate::specs::Row::row_at))]
pub(crate) fn row_at<L: ExerciseLog>(scene: &Scene<'_, L>, step: usize) -> Option<Row>
    ensures { result ≡ row_at scene.now step }
{
    match scene.place_at(step) {
        Some(entry) => row_taking(scene, step, entry),
        None => None,
    }
}

/// All rows, in the order of the steps. The list takes memory.
#[tactic(auto, unfolding(crate::specs::Row::rows_of), using(crate::proofs::Lists::list_steps))]
pub(crate) fn rows_of<L: ExerciseLog>(
    alloc: Global,
    scene: &Scene<'_, L>,
) -> Result<Vec<Row>, AllocError>
    ensures { IfOk result (λ rows. rows.items ≡ rows_of scene.now) }
{
    let shown = scene.rows();
    let mut rows = Vec::new(alloc);
    for number in 0..shown.count() {
        if let Some(row) = row_at(scene, shown.first + number) {
            rows.push(row)?;
        }
    }
    Ok(rows)
}
