//! The losses of a picture.

ghost use Rattle.std.specs.Prelude.{◌≡◌, ◌<◌, ◌++◌, length, IfOk, OnOk};
ghost use Rattle.siman_pdus.specs.Reading.{pdu_of};
ghost use Rattle.exercise_model.specs.Held.{shown};
ghost use Rattle.exercise_chart.specs.Loss.{is_lost_at, loss_of, loss_of_first, loss_entry, loss_taken, loss_at, losses_at, losses_of};

use crate::point::Point;
use crate::saying::{Saying, pdu_summary};
use crate::scene::Scene;
use dis_records::addressed;
use exercise_model::{EntryView, ExerciseLog};
use siman_pdus::PduView;
use std::alloc::{AllocError, Global};

/// A loss: a datagram sent to a recorded station that never received it.
#[derive(Clone, Copy)]
pub struct Loss {
    /// The first entry that sent the bytes; it is in a row.
    pub from: Point,
    /// The index of the station that did not receive them.
    pub at: u16,
    /// What the PDU says.
    pub said: Saying,
}

/// Whether a PDU, sent by `station` in these bytes, is addressed to another station, `other`, that
/// never received the bytes.
fn is_lost_at<L: ExerciseLog>(
    scene: &Scene<'_, L>,
    station: u16,
    bytes: &[u8],
    pdu: &PduView<'_>,
    other: u16,
) -> bool
    requires { other < length scene.now.recording.setting.stations }
    ensures { result ≡ is_lost_at scene.now station bytes.now (pdu_of pdu.now) other }
{
    let address = scene.log().station(usize::from(other)).address();
    addressed(pdu.target, address) && (other != station && !scene.has_receipt(other, bytes))
}

/// The loss at `other` of a PDU sent at `entry`, if it is lost there.
fn loss_of<L: ExerciseLog>(
    scene: &Scene<'_, L>,
    entry: usize,
    station: u16,
    bytes: &[u8],
    other: u16,
    pdu: &PduView<'_>,
) -> Option<Loss>
    requires { other < length scene.now.recording.setting.stations }
    ensures { result ≡ loss_of scene.now entry station bytes.now other (pdu_of pdu.now) }
{
    if is_lost_at(scene, station, bytes, pdu, other) {
        Some(Loss {
            from: scene.point(entry),
            at: other,
            said: pdu_summary(pdu),
        })
    } else {
        None
    }
}

/// The loss at `other` of a datagram, if `entry` is the first to send it.
fn loss_of_first<L: ExerciseLog>(
    scene: &Scene<'_, L>,
    entry: usize,
    station: u16,
    bytes: &[u8],
    other: u16,
) -> Option<Loss>
    requires { other < length scene.now.recording.setting.stations }
    ensures { result ≡ loss_of_first scene.now entry station bytes.now other }
{
    if !scene.is_first_sent(entry, station, bytes) {
        return None;
    }
    match scene.meant(bytes) {
        Some(pdu) => loss_of(scene, entry, station, bytes, other, &pdu),
        None => None,
    }
}

/// The loss at `other` of the given entry, if it has one.
#[tactic(auto, unfolding(crate::specs::Loss::loss_entry))]
fn loss_entry<L: ExerciseLog>(
    scene: &Scene<'_, L>,
    entry: usize,
    other: u16,
    view: EntryView<'_>,
) -> Option<Loss>
    requires { other < length scene.now.recording.setting.stations }
    ensures { result ≡ loss_entry scene.now entry other (shown view.entry) }
{
    match view {
        EntryView::Sent { station, bytes, .. } => {
            loss_of_first(scene, entry, station, bytes, other)
        }
        EntryView::Received { .. } | EntryView::Told { .. } => None,
    }
}

/// The loss at `other` of an entry, by its number.
fn loss_taken<L: ExerciseLog>(scene: &Scene<'_, L>, other: u16, entry: usize) -> Option<Loss>
    requires { other < length scene.now.recording.setting.stations }
    ensures { result ≡ loss_taken scene.now other entry }
{
    match scene.entry_at(entry) {
        Some(view) => loss_entry(scene, entry, other, view),
        None => None,
    }
}

/// The loss at `other` of the entry in the row of a step.
#[tactic(auto, unfolding(crate::specs::Loss::loss_at))]
fn loss_at<L: ExerciseLog>(scene: &Scene<'_, L>, step: usize, other: u16) -> Option<Loss>
    requires { other < length scene.now.recording.setting.stations }
    ensures { result ≡ loss_at scene.now step other }
{
    match scene.place_at(step) {
        Some(entry) => loss_taken(scene, other, entry),
        None => None,
    }
}

/// Adds the losses in the row of a step, by station.
#[tactic(auto, unfolding(crate::specs::Loss::losses_at), using(crate::proofs::Lists::list_steps))]
fn push_losses<L: ExerciseLog>(
    losses: &mut Vec<Loss>,
    scene: &Scene<'_, L>,
    step: usize,
) -> Result<(), AllocError>
    ensures { OnOk result (losses.new.items ≡ losses.old.items ++ losses_at scene.now step) }
{
    for other in 0..scene.log().station_count() {
        if let Some(loss) = loss_at(scene, step, other as u16) {
            losses.push(loss)?;
        }
    }
    Ok(())
}

/// All losses, by row and station. The list takes memory.
#[tactic(auto, unfolding(crate::specs::Loss::losses_of), using(crate::proofs::Lists::list_steps))]
pub(crate) fn losses_of<L: ExerciseLog>(
    alloc: Global,
    scene: &Scene<'_, L>,
) -> Result<Vec<Loss>, AllocError>
    ensures { IfOk result (λ losses. losses.items ≡ losses_of scene.now) }
{
    let shown = scene.rows();
    let mut losses = Vec::new(alloc);
    for number in 0..shown.count() {
        push_losses(&mut losses, scene, shown.first + number)?;
    }
    Ok(losses)
}
