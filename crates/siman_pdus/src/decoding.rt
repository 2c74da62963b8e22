//! Decodes datagrams to PDUs.

ghost use Rattle.std.specs.Prelude.{◌≡◌, ◌+◌, ◌≤◌, ◌⊎◌, ℕ, List, [], ◌++◌, length, true, is_some, IfOk, IfErr, Ok, Err, Some, None};
ghost use Rattle.std.specs.Result.{result_ok};
ghost use Rattle.dis_records.specs.ClockTime.{clock_time_at};
ghost use Rattle.dis_records.specs.Entity.{entity_at};
ghost use Rattle.dis_records.specs.Header.{header_at};
ghost use Rattle.siman_pdus.specs.declared.pdu.Pdu.{Pdu};
ghost use Rattle.siman_pdus.specs.Spelling.{Spells};
ghost use Rattle.siman_pdus.specs.Ranges.{IsInRange};
ghost use Rattle.siman_pdus.specs.Shape.{IsWhole};
ghost use Rattle.siman_pdus.specs.Reading.{shown_body, pdu_of, view_from, pdu_from, view_refusal, refusal_of, viewed, reading};

use crate::fault::{PduFault, ViewFault};
use crate::pdu::Pdu;
use crate::shape::check_body;
use crate::views::{BodyView, PduView};
use dis_records::field::{u8_at, u16_at, u32_at};
use dis_records::{
    ClockTime, DatumsView, EntityId, Header, IdsView, Kind, header_again, read_header,
};
use std::alloc::Global;

fn read_entity(bytes: &[u8], at: usize) -> EntityId
    requires { at + 6 ≤ length bytes.now }
    ensures { result ≡ entity_at at bytes.now }
{
    EntityId {
        site: u16_at(bytes, at),
        application: u16_at(bytes, at + 2),
        entity: u16_at(bytes, at + 4),
    }
}

fn read_time(bytes: &[u8], at: usize) -> ClockTime
    requires { at + 8 ≤ length bytes.now }
    ensures { result ≡ clock_time_at at bytes.now }
{
    ClockTime {
        hour: u32_at(bytes, at),
        past: u32_at(bytes, at + 4),
    }
}

/// Decodes the body of a kind, all of whose parts are complete.
#[inline(always)]
#[tactic(auto, unfolding(crate::specs::Reading::shown_body))]
fn body_view(kind: Kind, bytes: &[u8]) -> BodyView<'_>
    requires { IsWhole kind bytes.now }
    ensures { result ≡ shown_body kind bytes.now }
{
    match kind {
        Kind::CreateEntity => BodyView::CreateEntity {
            request: u32_at(bytes, 24),
        },
        Kind::RemoveEntity => BodyView::RemoveEntity {
            request: u32_at(bytes, 24),
        },
        Kind::StartResume => BodyView::StartResume {
            real: read_time(bytes, 24),
            sim: read_time(bytes, 32),
            request: u32_at(bytes, 40),
        },
        Kind::StopFreeze => BodyView::StopFreeze {
            real: read_time(bytes, 24),
            reason: u8_at(bytes, 32),
            behaviour: u8_at(bytes, 33),
            request: u32_at(bytes, 36),
        },
        Kind::Acknowledge => BodyView::Acknowledge {
            flag: u16_at(bytes, 24),
            response: u16_at(bytes, 26),
            request: u32_at(bytes, 28),
        },
        Kind::ActionRequest => BodyView::ActionRequest {
            request: u32_at(bytes, 24),
            action: u32_at(bytes, 28),
            datums: DatumsView::over(bytes, 32),
        },
        Kind::ActionResponse => BodyView::ActionResponse {
            request: u32_at(bytes, 24),
            result: u32_at(bytes, 28),
            datums: DatumsView::over(bytes, 32),
        },
        Kind::DataQuery => BodyView::DataQuery {
            request: u32_at(bytes, 24),
            interval: u32_at(bytes, 28),
            ids: IdsView::over(bytes, 32),
        },
        Kind::SetData => BodyView::SetData {
            request: u32_at(bytes, 24),
            datums: DatumsView::over(bytes, 32),
        },
        Kind::DataPdu => BodyView::DataPdu {
            request: u32_at(bytes, 24),
            datums: DatumsView::over(bytes, 32),
        },
        Kind::EventReport => BodyView::EventReport {
            event: u32_at(bytes, 24),
            datums: DatumsView::over(bytes, 32),
        },
        Kind::Comment => BodyView::Comment {
            datums: DatumsView::over(bytes, 24),
        },
    }
}

/// Header of a datagram, whose header and body are checked.
fn checked_header(bytes: &[u8]) -> Result<Header, ViewFault>
    ensures ok { IfOk result (λ header. (view_refusal bytes.now ≡ None) × (header ≡ header_at bytes.now)) }
    ensures whole { IfOk result (λ header. IsWhole header.kind bytes.now) }
    ensures refused { IfErr result (λ fault. view_refusal bytes.now ≡ Some fault) }
{
    let header = read_header(bytes).map_err(ViewFault::Header)?;
    check_body(header.kind, bytes)?;
    Ok(header)
}

fn show(bytes: &[u8]) -> Result<PduView<'_>, ViewFault>
    ensures ok { IfOk result (λ view. (view_refusal bytes.now ≡ None) × (view ≡ view_from (header_at bytes.now) bytes.now)) }
    ensures refused { IfErr result (λ fault. view_refusal bytes.now ≡ Some fault) }
{
    let header = checked_header(bytes)?;
    Ok(PduView {
        version: header.version,
        exercise: header.exercise,
        stamp: header.stamp,
        status: header.status,
        origin: read_entity(bytes, 12),
        target: read_entity(bytes, 18),
        body: body_view(header.kind, bytes),
    })
}

/// Decodes a datagram in place: the view reads its records from the datagram. Returns the first
/// fault that holds, in the order of [`ViewFault`]. Takes no memory.
pub fn view(bytes: &[u8]) -> Result<PduView<'_>, ViewFault>
    // The fields of the view are those of the datagram.
    ensures stands { IfOk result (λ view. view ≡ view_from (header_at bytes.now) bytes.now) }
    // The datagram spells the PDU of the view.
    ensures spelled { IfOk result (λ view. Spells (pdu_of view) bytes.now) }
    // A datagram that spells a PDU is decoded to it: so a refused datagram spells no PDU.
    ensures only { (pdu : Pdu) → Spells pdu bytes.now → viewed result ≡ Some pdu }
    // The numbers of the view are in their ranges.
    ensures in_range { IfOk result (λ view. IsInRange (pdu_of view)) }
    // A fault is the first that holds.
    ensures refused { IfErr result (λ fault. view_refusal bytes.now ≡ Some fault) }
    // The view is the reading of the datagram.
    ensures reads { viewed result ≡ reading bytes.now }
{
    show(bytes)
}

/// Decodes in place a datagram that is known to spell a PDU: equals [`view`], but checks nothing
/// again and does not walk its records.
#[inline(always)]
pub fn view_again(bytes: &[u8]) -> PduView<'_>
    requires { is_some (reading bytes.now) ≡ true }
    ensures { Some (pdu_of result) ≡ reading bytes.now }
{
    let header = header_again(bytes);
    PduView {
        version: header.version,
        exercise: header.exercise,
        stamp: header.stamp,
        status: header.status,
        origin: read_entity(bytes, 12),
        target: read_entity(bytes, 18),
        body: body_view(header.kind, bytes),
    }
}

fn read(alloc: Global, bytes: &[u8]) -> Result<Pdu, PduFault>
    ensures ok { IfOk result (λ pdu. (refusal_of bytes.now ≡ None) × (pdu ≡ pdu_from (header_at bytes.now) bytes.now)) }
    ensures refused { IfErr result (λ fault. (fault ≡ PduFault.Memory) ⊎ (refusal_of bytes.now ≡ Some fault)) }
{
    let view = show(bytes)?;
    Ok(view.to_pdu(alloc)?)
}

/// Decodes a datagram to an owned PDU, that of its [`view`]. Returns the first fault that holds, in
/// the order of [`PduFault`], or Memory. No count in the datagram reserves memory.
pub fn decode(alloc: Global, bytes: &[u8]) -> Result<Pdu, PduFault>
    // The datagram spells the result.
    ensures spelled { IfOk result (λ pdu. Spells pdu bytes.now) }
    // A PDU that the datagram spells is the result, unless memory runs out: so a refused datagram
    // spells no PDU.
    ensures only { (pdu : Pdu) → Spells pdu bytes.now → (result ≡ Ok pdu) ⊎ (result ≡ Err PduFault.Memory) }
    // The numbers of the result are in their ranges.
    ensures in_range { IfOk result IsInRange }
    // A fault other than Memory is the first that holds.
    ensures refused { IfErr result (λ fault. (fault ≡ PduFault.Memory) ⊎ (refusal_of bytes.now ≡ Some fault)) }
    // Unless memory runs out, the result is the reading of the datagram.
    ensures reads { (result ≡ Err PduFault.Memory) ⊎ (result_ok result ≡ reading bytes.now) }
{
    read(alloc, bytes)
}

/// Laws of the grammar: each datagram spells at most one PDU, its reading, and no spelling is a
/// proper prefix of another.
pub fn spellings_are_apart()
    ensures read { (pdu : Pdu) (b : List ℕ) → Spells pdu b → reading b ≡ Some pdu }
    ensures spelled { (pdu : Pdu) (b : List ℕ) → reading b ≡ Some pdu → Spells pdu b }
    ensures one { (pdu other : Pdu) (b : List ℕ) → Spells pdu b → Spells other b → pdu ≡ other }
    ensures whole { (pdu other : Pdu) (b more : List ℕ) → Spells pdu b → Spells other (b ++ more) → more ≡ [] }
{}
