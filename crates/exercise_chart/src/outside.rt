//! The receipts from outside in a picture.

ghost use Rattle.std.specs.Prelude.{◌≡◌, not, IfOk, is_some};
ghost use Rattle.siman_pdus.specs.Reading.{pdu_of};
ghost use Rattle.exercise_model.specs.Account.{sender_of};
ghost use Rattle.exercise_model.specs.Held.{shown};
ghost use Rattle.exercise_model.specs.Setting.{is_recorded};
ghost use Rattle.exercise_review.specs.Order.{is_outside};
ghost use Rattle.exercise_chart.specs.Outside.{outside_receipt, outside_receipt_in, outside_receipt_by, outside_receipt_at, outside_receipts};

use crate::point::Point;
use crate::saying::{Saying, pdu_summary};
use crate::scene::Scene;
use dis_records::SiteApplication;
use exercise_model::{EntryView, ExerciseLog, Form, is_from};
use siman_pdus::PduView;
use std::alloc::{AllocError, Global};

/// A receipt, in a row, from an address that nobody recorded.
#[derive(Clone, Copy)]
pub struct OutsideReceipt {
    pub by: SiteApplication,
    pub to: Point,
    /// What the received PDU says.
    pub said: Saying,
}

/// Whether the sender of a PDU is a recorded station.
fn is_recorded<L: ExerciseLog>(scene: &Scene<'_, L>, pdu: &PduView<'_>) -> bool
    ensures { result ≡ is_recorded scene.now.recording.setting (pdu_of pdu.now) }
{
    let log = scene.log();
    for station in 0..log.station_count() {
        if is_from(log.station(station).address(), pdu) {
            return true;
        }
    }
    false
}

/// Whether a PDU is from a station that took part and was not recorded. In a closed recording there
/// is no such station.
#[tactic(auto, unfolding(exercise_review::specs::Order::is_outside))]
fn is_outside<L: ExerciseLog>(scene: &Scene<'_, L>, pdu: &PduView<'_>) -> bool
    ensures { result ≡ is_outside scene.now.recording (pdu_of pdu.now) }
{
    scene.log().form() == Form::Open && !is_recorded(scene, pdu)
}

/// The receipt of a PDU at an entry, if the PDU is from outside.
fn outside_receipt<L: ExerciseLog>(
    scene: &Scene<'_, L>,
    entry: usize,
    pdu: &PduView<'_>,
) -> Option<OutsideReceipt>
    ensures { result ≡ outside_receipt scene.now entry (pdu_of pdu.now) }
{
    if is_outside(scene, pdu) {
        Some(OutsideReceipt {
            by: pdu.origin.site_application(),
            to: scene.point(entry),
            said: pdu_summary(pdu),
        })
    } else {
        None
    }
}

/// The receipt at the given entry, if it is one from outside.
#[tactic(auto, unfolding(crate::specs::Outside::outside_receipt_in))]
fn outside_receipt_in<L: ExerciseLog>(
    scene: &Scene<'_, L>,
    entry: usize,
    view: EntryView<'_>,
) -> Option<OutsideReceipt>
    ensures { result ≡ outside_receipt_in scene.now entry (shown view.entry) }
{
    let EntryView::Received { bytes, .. } = view else {
        return None;
    };
    match scene.meant(bytes) {
        Some(pdu) => outside_receipt(scene, entry, &pdu),
        None => None,
    }
}

/// The receipt at an entry, by its number, if it is one from outside.
fn outside_receipt_by<L: ExerciseLog>(scene: &Scene<'_, L>, entry: usize) -> Option<OutsideReceipt>
    ensures { result ≡ outside_receipt_by scene.now entry }
{
    match scene.entry_at(entry) {
        Some(view) => outside_receipt_in(scene, entry, view),
        None => None,
    }
}

/// The receipt in the row of a step, if it is one from outside.
#[tactic(auto, unfolding(crate::specs::Outside::outside_receipt_at))]
fn outside_receipt_at<L: ExerciseLog>(scene: &Scene<'_, L>, step: usize) -> Option<OutsideReceipt>
    ensures { result ≡ outside_receipt_at scene.now step }
{
    match scene.place_at(step) {
        Some(entry) => outside_receipt_by(scene, entry),
        None => None,
    }
}

/// All receipts from outside, by row. The list takes memory.
#[tactic(auto, unfolding(crate::specs::Outside::outside_receipts), using(crate::proofs::Lists::list_steps))]
pub(crate) fn outside_receipts<L: ExerciseLog>(
    alloc: Global,
    scene: &Scene<'_, L>,
) -> Result<Vec<OutsideReceipt>, AllocError>
    ensures { IfOk result (λ found. found.items ≡ outside_receipts scene.now) }
{
    let shown = scene.rows();
    let mut found = Vec::new(alloc);
    for number in 0..shown.count() {
        if let Some(receipt) = outside_receipt_at(scene, shown.first + number) {
            found.push(receipt)?;
        }
    }
    Ok(found)
}
