//! The arrows of a picture: receipts, each with its source.

ghost use Rattle.std.specs.Prelude.{◌≡◌, option_map, IfOk};
ghost use Rattle.exercise_review.specs.Entries.{pdu_at};
ghost use Rattle.exercise_chart.specs.Arrow.{arrow_from, arrow_to, arrows_of};
ghost use Rattle.exercise_chart.specs.Saying.{pdu_summary};

use crate::point::Point;
use crate::saying::{Saying, pdu_summary};
use crate::scene::Scene;
use exercise_model::{EntryView, ExerciseLog};
use std::alloc::{AllocError, Global};

/// An arrow: a receipt and its source, the first entry of the sender with equal bytes. At least one
/// end is in a row; the other may lie beyond the edge.
#[derive(Clone, Copy)]
pub struct Arrow {
    pub from: Point,
    pub to: Point,
    /// What the received PDU says; `None` if the bytes mean nothing in the exercise.
    pub said: Option<Saying>,
}

/// What the datagram of an entry says, if it means something in the exercise.
#[tactic(auto, unfolding(exercise_review::specs::Entries::pdu_at))]
fn said_at<L: ExerciseLog>(scene: &Scene<'_, L>, entry: usize) -> Option<Saying>
    ensures { result ≡ option_map pdu_summary (pdu_at scene.now.recording entry) }
{
    let bytes = match scene.entry_at(entry) {
        Some(EntryView::Sent { bytes, .. } | EntryView::Received { bytes, .. }) => bytes,
        Some(EntryView::Told { .. }) | None => return None,
    };
    match scene.meant(bytes) {
        Some(pdu) => Some(pdu_summary(&pdu)),
        None => None,
    }
}

/// The arrow from `source` to `entry`, if at least one of the two is in a row.
fn arrow_from<L: ExerciseLog>(scene: &Scene<'_, L>, entry: usize, source: usize) -> Option<Arrow>
    ensures { result ≡ arrow_from scene.now entry source }
{
    let from = scene.point(source);
    let to = scene.point(entry);
    if scene.rows().has(from.step) || scene.rows().has(to.step) {
        Some(Arrow {
            from,
            to,
            said: said_at(scene, entry),
        })
    } else {
        None
    }
}

/// The arrow to an entry, if the entry has a source and at least one of the two is in a row.
#[tactic(auto, unfolding(crate::specs::Arrow::arrow_to))]
fn arrow_to<L: ExerciseLog>(scene: &Scene<'_, L>, entry: usize) -> Option<Arrow>
    ensures { result ≡ arrow_to scene.now entry }
{
    match scene.register().source(entry) {
        Some(source) => arrow_from(scene, entry, source as usize),
        None => None,
    }
}

/// All arrows, in the order of the receipts in the recording. The list takes memory.
#[tactic(auto, unfolding(crate::specs::Arrow::arrows_of), using(crate::proofs::Lists::list_steps))]
pub(crate) fn arrows_of<L: ExerciseLog>(
    alloc: Global,
    scene: &Scene<'_, L>,
) -> Result<Vec<Arrow>, AllocError>
    ensures { IfOk result (λ arrows. arrows.items ≡ arrows_of scene.now) }
{
    let mut arrows = Vec::new(alloc);
    for entry in 0..scene.log().entry_count() {
        if let Some(arrow) = arrow_to(scene, entry) {
            arrows.push(arrow)?;
        }
    }
    Ok(arrows)
}
