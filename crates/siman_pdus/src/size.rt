//! Size of the text of a PDU.

ghost use Rattle.std.specs.Prelude.{◌+◌, ◌≤◌};
ghost use Rattle.std.specs.Option.{SomeIff};
ghost use Rattle.dis_records.specs.declared.header.TheConstants.{LARGEST_DATAGRAM};
ghost use Rattle.dis_records.specs.Datum.{variable_layouts};
ghost use Rattle.dis_records.specs.Layout.{size};
ghost use Rattle.siman_pdus.specs.Spelling.{records_layout, id_lists_layout, pdu_size};

use crate::pdu::{Body, Pdu};
use dis_records::{FixedDatum, LARGEST_DATAGRAM, VariableDatum, padded_size};

fn variable_size(records: &[VariableDatum], start: usize) -> Option<usize>
    requires { start ≤ LARGEST_DATAGRAM }
    ensures { let end = start + size (variable_layouts records.now) in SomeIff result (end ≤ LARGEST_DATAGRAM) end }
{
    let mut end = start;
    for datum in records {
        end += padded_size(datum.bits()) as usize;
        if end > LARGEST_DATAGRAM {
            return None;
        }
    }
    Some(end)
}

/// End of the datums whose two counts are at offset `counts`, if it is within a datagram.
#[tactic(auto, using(crate::proofs::Texts::size_join, crate::proofs::Texts::size_fixed))]
fn datums_size(fixed: &[FixedDatum], variable: &[VariableDatum], counts: usize) -> Option<usize>
    requires { counts ≤ 1000 }
    ensures { let end = counts + size (records_layout fixed.now variable.now) in SomeIff result (end ≤ LARGEST_DATAGRAM) end }
{
    if fixed.len() > LARGEST_DATAGRAM / 8 {
        return None;
    }
    let end = counts + 8 + 8 * fixed.len();
    if end > LARGEST_DATAGRAM {
        return None;
    }
    variable_size(variable, end)
}

/// End of the identifiers whose two counts are at offset `counts`, if it is within a datagram.
#[tactic(auto, using(crate::proofs::Texts::size_join, crate::proofs::Texts::size_ids))]
fn ids_size(fixed: &[u32], variable: &[u32], counts: usize) -> Option<usize>
    requires { counts ≤ 1000 }
    ensures { let end = counts + size (id_lists_layout fixed.now variable.now) in SomeIff result (end ≤ LARGEST_DATAGRAM) end }
{
    if fixed.len() > LARGEST_DATAGRAM / 4 || variable.len() > LARGEST_DATAGRAM / 4 {
        return None;
    }
    let end = counts + 8 + 4 * fixed.len() + 4 * variable.len();
    if end > LARGEST_DATAGRAM {
        return None;
    }
    Some(end)
}

/// Number of bytes of the text of a PDU, or `None` if it would have more than 8192.
pub fn encoded_size(pdu: &Pdu) -> Option<u16>
    ensures { SomeIff result (pdu_size pdu.now ≤ LARGEST_DATAGRAM) (pdu_size pdu.now) }
{
    let size = match &pdu.body {
        Body::CreateEntity { .. } | Body::RemoveEntity { .. } => 28,
        Body::StartResume { .. } => 44,
        Body::StopFreeze { .. } => 40,
        Body::Acknowledge { .. } => 32,
        Body::ActionRequest { datums, .. }
        | Body::ActionResponse { datums, .. }
        | Body::SetData { datums, .. }
        | Body::DataPdu { datums, .. }
        | Body::EventReport { datums, .. } => datums_size(&datums.fixed, &datums.variable, 32)?,
        Body::DataQuery { ids, .. } => ids_size(&ids.fixed, &ids.variable, 32)?,
        Body::Comment { datums } => datums_size(&datums.fixed, &datums.variable, 24)?,
    };
    Some(size as u16)
}
