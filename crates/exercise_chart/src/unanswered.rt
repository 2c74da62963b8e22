//! Requests in a picture that were received and never answered.

ghost use Rattle.std.specs.Prelude.{◌≡◌, ◌++◌, IfOk, OnOk};
ghost use Rattle.std.specs.List.{flat_map};
ghost use Rattle.exercise_review.specs.Order.{order_of};
ghost use Rattle.exercise_chart.specs.Unanswered.{shown_point, unanswered_in, unanswered_order, unanswered_at, unanswered_of};

use crate::point::Point;
use crate::scene::Scene;
use exercise_model::ExerciseLog;
use exercise_review::{Fate, Outcome, order_at, outcomes_of};
use std::alloc::{AllocError, Global};

/// Adds the point of an entry, if it is in a row.
fn push_shown<L: ExerciseLog>(
    points: &mut Vec<Point>,
    scene: &Scene<'_, L>,
    entry: usize,
) -> Result<(), AllocError>
    ensures { OnOk result (points.new.items ≡ points.old.items ++ shown_point scene.now entry) }
{
    let point = scene.point(entry);
    if scene.rows().has(point.step) {
        points.push(point)?;
    }
    Ok(())
}

/// Adds the first receipt of a request at a receiver, if it is in a row and that receiver never
/// answered.
fn push_outcome<L: ExerciseLog>(
    points: &mut Vec<Point>,
    scene: &Scene<'_, L>,
    outcome: &Outcome,
) -> Result<(), AllocError>
    ensures { OnOk result (points.new.items ≡ points.old.items ++ unanswered_in scene.now outcome.now) }
{
    match (outcome.fate, outcome.got) {
        (Fate::Unanswered, Some(entry)) => push_shown(points, scene, entry),
        _ => Ok(()),
    }
}

/// Adds the unanswered receipts of a request at all its receivers.
fn push_outcomes<L: ExerciseLog>(
    points: &mut Vec<Point>,
    scene: &Scene<'_, L>,
    outcomes: &[Outcome],
) -> Result<(), AllocError>
    ensures { OnOk result (points.new.items ≡ points.old.items ++ flat_map (unanswered_in scene.now) outcomes.now) }
{
    for outcome in outcomes {
        push_outcome(points, scene, outcome)?;
    }
    Ok(())
}

/// Adds the unanswered receipts of the request that begins at an entry, if one does.
#[tactic(auto, unfolding(crate::specs::Unanswered::unanswered_at))]
fn push_order<L: ExerciseLog>(
    alloc: Global,
    points: &mut Vec<Point>,
    scene: &Scene<'_, L>,
    entry: usize,
) -> Result<(), AllocError>
    ensures { OnOk result (points.new.items ≡ points.old.items ++ unanswered_at scene.now entry) }
{
    match order_at(scene.register(), entry) {
        Some(order) => {
            let outcomes = outcomes_of(alloc, scene.register(), &order)?;
            push_outcomes(points, scene, &outcomes)
        }
        None => Ok(()),
    }
}

/// The first receipts, in a row, of requests that their receiver never answered, in the order of
/// the first entries of the requests. The list takes memory.
#[tactic(auto, unfolding(crate::specs::Unanswered::unanswered_of), using(crate::proofs::Lists::list_steps))]
pub(crate) fn unanswered_of<L: ExerciseLog>(
    alloc: Global,
    scene: &Scene<'_, L>,
) -> Result<Vec<Point>, AllocError>
    ensures { IfOk result (λ points. points.items ≡ unanswered_of scene.now) }
{
    let mut points = Vec::new(alloc);
    for entry in 0..scene.log().entry_count() {
        push_order(alloc, &mut points, scene, entry)?;
    }
    Ok(points)
}
