//! The recorded stations that send a PDU, or that it addresses.

ghost use Rattle.std.specs.Prelude.{◌≡◌, ◌<◌, is_some, length, IfSome};
ghost use Rattle.siman_pdus.specs.Reading.{pdu_of};
ghost use Rattle.exercise_model.specs.Account.{sender_of};
ghost use Rattle.exercise_model.specs.Setting.{is_recorded};
ghost use Rattle.exercise_review.specs.Order.{is_meant, is_outside, is_for_station};

use crate::question::{Question, first_below};
use crate::register::Register;
use dis_records::addressed;
use exercise_model::{ExerciseLog, Form, is_from};
use siman_pdus::PduView;

/// The recorded station that is the origin of a PDU.
pub(crate) fn sender_of<L: ExerciseLog>(
    findings: &Register<'_, L>,
    pdu: &PduView<'_>,
) -> Option<u16>
    ensures sender { result ≡ sender_of findings.now (pdu_of pdu.now) }
    ensures recorded { is_some result ≡ is_recorded findings.now.setting (pdu_of pdu.now) }
    ensures within { IfSome result (λ station. station < length findings.now.setting.stations) }
{
    let log = findings.log();
    for station in 0..log.station_count() {
        if is_from(log.station(station).address(), pdu) {
            return Some(station as u16);
        }
    }
    None
}

/// Whether the origin of a PDU is outside: the recording is open, and no recorded station is the
/// origin.
#[tactic(auto, unfolding(crate::specs::Order::is_outside))]
pub(crate) fn is_outside<L: ExerciseLog>(findings: &Register<'_, L>, pdu: &PduView<'_>) -> bool
    ensures { result ≡ is_outside findings.now (pdu_of pdu.now) }
{
    findings.log().form() == Form::Open && sender_of(findings, pdu).is_none()
}

/// The test whether a PDU addresses a recorded station.
#[derive(Drop)]
pub(crate) struct Meant<'a, L: ExerciseLog> {
    pub findings: &'a Register<'a, L>,
    pub pdu: &'a PduView<'a>,
}

impl<L: ExerciseLog> Question for Meant<'_, L> {
    ghost test = { λ q. is_meant q.findings.now (pdu_of q.pdu.now) };

    #[tactic(auto, unfolding(crate::specs::Order::is_meant))]
    fn passes(&self, station: usize) -> bool {
        let log = self.findings.log();
        station < log.station_count() && addressed(self.pdu.target, log.station(station).address())
    }
}

/// Whether a PDU addresses a recorded station.
#[tactic(auto, unfolding(crate::specs::Order::is_for_station))]
pub(crate) fn is_for_station<L: ExerciseLog>(findings: &Register<'_, L>, pdu: &PduView<'_>) -> bool
    ensures { result ≡ is_for_station findings.now (pdu_of pdu.now) }
{
    let stations = findings.log().station_count();
    first_below(&Meant { findings, pdu }, stations).is_some()
}
