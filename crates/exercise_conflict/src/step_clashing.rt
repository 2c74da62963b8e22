//! Computes the contradiction of a certificate's step from the steps and the logs.

ghost use Rattle.std.specs.Prelude.{◌≡◌, ◌<◌, ◌≤◌, length, slice_index_or, option_and_then, IfOk};
ghost use Rattle.siman_pdus.specs.Reading.{pdu_of};
ghost use Rattle.exercise_model.specs.Meaning.{meaning};
ghost use Rattle.exercise_model.specs.Setting.{must_have_sent};
ghost use Rattle.exercise_check.specs.Sequence.{sender_link};
ghost use Rattle.exercise_check.specs.Goodness.{no_step};
ghost use Rattle.exercise_conflict.specs.StepClash.{out_of_order_clash, step_link, right_link, bad_link_clash, late_step, event_clash, step_clash, step_clash_of};

use crate::clash::Clash;
use crate::clashing::clash_of;
use crate::earlier::pair_of;
use crate::near::sender_of;
use crate::question::first_below;
use crate::step_clash::StepClash;
use crate::taking::{NamesEntry, count_clash, first_sender, next_entry_after};
use exercise_check::{Certificate, NO_LINK, Step};
use exercise_findings::Findings;
use exercise_model::{Cause, EntryView, ExerciseLog, meaning_view};
use siman_pdus::PduView;
use std::alloc::{AllocError, Global};

/// The contradiction of a step whose entry is not the next one of its station.
fn out_of_order_clash<L: ExerciseLog>(
    log: &L,
    steps: &[Step],
    step: usize,
    place: usize,
) -> Option<StepClash>
    requires { step ≤ length steps.now }
    ensures { result ≡ out_of_order_clash (L.recording log.now) steps.now step place }
{
    if place >= log.entry_count() {
        return None;
    }
    let station = log.entry(place).station();
    let takes = NamesEntry {
        steps,
        entry: place,
    };
    Some(StepClash::OutOfOrder {
        place,
        taken: first_below(&takes, step),
        next: next_entry_after(log, &steps[..step], station),
    })
}

/// The link that a step gives, if it gives one.
fn step_link(link: u32) -> Option<usize>
    ensures { result ≡ step_link link }
{
    if link == NO_LINK {
        None
    } else {
        Some(link as usize)
    }
}

/// Whether the sender of a PDU is a recorded station.
fn is_recorded<L: ExerciseLog>(findings: &Findings<'_, L>, pdu: &PduView<'_>) -> bool
    ensures { result ≡ must_have_sent findings.now.setting (pdu_of pdu.now) }
{
    sender_of(findings, pdu).is_some()
}

/// The source of a received PDU among the steps before: the first that sends its bytes, if its
/// sender is recorded.
fn sender_link<L: ExerciseLog>(
    findings: &Findings<'_, L>,
    bytes: &[u8],
    before: &[Step],
    pdu: &PduView<'_>,
) -> Option<usize>
    ensures { result ≡ sender_link findings.now bytes.now before.now (pdu_of pdu.now) }
{
    if is_recorded(findings, pdu) {
        first_sender(findings.log(), bytes, before)
    } else {
        None
    }
}

/// The source of a received datagram among the steps before.
fn received_link<L: ExerciseLog>(
    findings: &Findings<'_, L>,
    bytes: &[u8],
    before: &[Step],
) -> Option<usize>
    ensures { result ≡ option_and_then (sender_link findings.now bytes.now before.now) (meaning findings.now.setting.exercise bytes.now) }
{
    match meaning_view(findings.log().exercise(), bytes) {
        Some(pdu) => sender_link(findings, bytes, before, &pdu),
        None => None,
    }
}

/// The right link of a step that names this entry after the steps before it.
#[tactic(auto, unfolding(crate::specs::StepClash::right_link))]
fn right_link<L: ExerciseLog>(
    findings: &Findings<'_, L>,
    before: &[Step],
    place: usize,
) -> Option<usize>
    ensures { result ≡ right_link findings.now before.now place }
{
    let log = findings.log();
    if place >= log.entry_count() {
        return None;
    }
    match log.entry(place) {
        EntryView::Sent { .. } => pair_of(findings, place),
        EntryView::Received { bytes, .. } => received_link(findings, bytes, before),
        EntryView::Told { .. } => None,
    }
}

/// The contradiction of a step with a wrong link.
fn bad_link_clash<L: ExerciseLog>(
    findings: &Findings<'_, L>,
    steps: &[Step],
    step: usize,
) -> StepClash
    requires { step < length steps.now }
    ensures { result ≡ bad_link_clash findings.now steps.now step (slice_index_or steps.now step no_step) }
{
    let named = steps[step];
    StepClash::BadLink {
        place: named.place as usize,
        link: step_link(named.link),
        right: right_link(findings, &steps[..step], named.place as usize),
    }
}

/// The first step that takes the source of a datagram that was not sent yet.
fn late_step(steps: &[Step], clash: &Clash) -> Option<usize>
    ensures { result ≡ late_step steps.now clash.now }
{
    match clash {
        Clash::NeverSent {
            sent: Some(sent),
            ..
        } => {
            let takes = NamesEntry {
                steps,
                entry: *sent,
            };
            first_below(&takes, steps.len())
        }
        _ => None,
    }
}

/// The contradiction of a step whose event cannot happen.
fn event_clash<L: ExerciseLog>(
    findings: &Findings<'_, L>,
    steps: &[Step],
    place: usize,
) -> Option<StepClash>
    ensures { result ≡ event_clash findings.now steps.now place }
{
    let clash = clash_of(findings, place)?;
    Some(StepClash::Event {
        entry: place,
        clash,
        step: late_step(steps, &clash),
    })
}

/// The contradiction of a step, for the first cause against it.
fn step_clash<L: ExerciseLog>(
    findings: &Findings<'_, L>,
    steps: &[Step],
    step: usize,
    cause: Cause,
) -> Option<StepClash>
    requires { step < length steps.now }
    ensures { result ≡ step_clash findings.now steps.now step cause (slice_index_or steps.now step no_step) }
{
    let place = steps[step].place as usize;
    match cause {
        Cause::NoSuchRecord => Some(StepClash::NoSuchRecord {
            place,
            records: findings.log().entry_count(),
        }),
        Cause::OutOfOrder => out_of_order_clash(findings.log(), steps, step, place),
        Cause::BadLink => Some(bad_link_clash(findings, steps, step)),
        _ => event_clash(findings, steps, place),
    }
}

/// The contradiction of a certificate's step, for the first cause against it that a check found.
/// `None` past the last step, unless the count is wrong. Only a wrong count takes memory.
#[tactic(auto, unfolding(crate::specs::StepClash::step_clash_of))]
pub fn step_clash_of<L: ExerciseLog>(
    alloc: Global,
    findings: &Findings<'_, L>,
    certificate: &Certificate,
    step: usize,
    cause: Cause,
) -> Result<Option<StepClash>, AllocError>
    ensures { IfOk result (λ clash. clash ≡ step_clash_of findings.now certificate.now.steps.items step cause) }
{
    let steps = certificate.steps.as_slice();
    if cause == Cause::CountDiffers {
        return Ok(Some(count_clash(alloc, steps, findings.log().entry_count())?));
    }
    if step >= steps.len() {
        return Ok(None);
    }
    Ok(step_clash(findings, steps, step, cause))
}
