//! Random datagrams of each kind, spoilt, and read in every way.

use crate::inputs::{InputResult, UNTRIED};
use crate::ran::run_words;
use siman_trials::{RandomInput, datagram_readings, put_random_datagram};
use std::alloc::Global;

/// Tries a random datagram: decoding and viewing must agree, and `pdu` must show a PDU with status
/// 0, and refuse any other datagram with status 1.
pub(crate) fn try_datagram(alloc: Global, input: &mut RandomInput) -> InputResult {
    put_random_datagram(input);
    let bytes = input.bytes.as_slice();
    let Ok(hex) = hex::encode(alloc, bytes) else {
        return UNTRIED;
    };
    let shown = run_words(alloc, &["pdu", &hex], &[], &[]);
    let (agrees, is_pdu) = datagram_readings(alloc, bytes);
    let status = if is_pdu { 0 } else { 1 };
    InputResult {
        status: shown.status,
        good: agrees && shown.ends(status) && !shown.out.is_empty(),
    }
}
