//! Calls that decode, encode, view and copy datagrams.

use crate::call::{LibraryCall, Said, refused, usual};
use crate::recordings::unmade;
use siman_pdus::{Body, EncodeFault, Pdu, PduFault, decode, encode, view};
use std::alloc::Global;
use std::io;

/// A Comment of 1:1 for 2:3 with one variable datum, of 5 and 40 bits.
pub(crate) const COMMENT: [u8; 48] = [
    7, 1, 22, 5, 0, 0, 0, 0, 0, 48, 0, 0, 0, 1, 0, 1, 0, 0, 0, 2, 0, 3, 0, 0, 0, 0, 0, 0, 0, 0, 0,
    1, 0, 0, 0, 5, 0, 0, 0, 40, 72, 69, 76, 76, 79, 0, 0, 0,
];

/// A Comment with a variable datum of 12 bits, with unused bits set in the last byte.
const TWELVE_BITS: [u8; 48] = [
    7, 1, 22, 5, 0, 0, 0, 0, 0, 48, 0, 0, 0, 1, 0, 1, 0, 0, 0, 2, 0, 3, 0, 0, 0, 0, 0, 0, 0, 0, 0,
    1, 0, 0, 0, 5, 0, 0, 0, 12, 171, 197, 0, 0, 0, 0, 0, 0,
];

/// The PDU of a datagram, as the input of a call.
pub(crate) fn pdu_of(alloc: Global, datagram: &[u8]) -> io::Result<Pdu> {
    match decode(alloc, datagram) {
        Ok(pdu) => Ok(pdu),
        Err(_) => Err(unmade()),
    }
}

/// Whether a PDU is a Comment with exactly one variable datum, with identifier 5 and these bits.
fn says(pdu: &Pdu, bits: u32, bytes: &[u8]) -> bool {
    let Body::Comment { datums } = &pdu.body else {
        return false;
    };
    match datums.variable.as_slice() {
        [datum] => datum.id() == 5 && datum.bits() == bits && datum.bytes() == bytes,
        _ => false,
    }
}

/// Decodes a datagram.
pub(crate) struct Decoding;

impl LibraryCall<()> for Decoding {
    fn make(alloc: Global, _lent: &mut ()) -> Said {
        match decode(alloc, &COMMENT) {
            Ok(pdu) => usual(says(&pdu, 40, b"HELLO")),
            Err(fault) => refused(fault == PduFault::Memory),
        }
    }
}

/// Encodes a PDU behind a byte.
pub(crate) struct Encoding;

/// The Comment, and a byte.
pub(crate) fn to_encode(alloc: Global) -> io::Result<(Pdu, Vec<u8>)> {
    let out = Vec::from_slice(alloc, &[9])?;
    Ok((pdu_of(alloc, &COMMENT)?, out))
}

impl LibraryCall<(Pdu, Vec<u8>)> for Encoding {
    fn make(_alloc: Global, lent: &mut (Pdu, Vec<u8>)) -> Said {
        let (pdu, out) = lent;
        match encode(pdu, out) {
            Ok(()) => usual(out.as_slice().strip_prefix(&[9]) == Some(COMMENT.as_slice())),
            Err(fault) => {
                refused(fault == EncodeFault::Memory && out.as_slice() == [9].as_slice())
            }
        }
    }
}

/// Views a datagram in place, and makes a PDU of the view.
pub(crate) struct Showing;

impl LibraryCall<()> for Showing {
    fn make(alloc: Global, _lent: &mut ()) -> Said {
        match view(&TWELVE_BITS) {
            Ok(shown) => match shown.to_pdu(alloc) {
                Ok(pdu) => usual(says(&pdu, 12, &[0xAB, 0xC0])),
                Err(_) => Said::Memory,
            },
            Err(_) => Said::Otherwise,
        }
    }
}

/// Copies a PDU.
pub(crate) struct Copying;

impl LibraryCall<Pdu> for Copying {
    fn make(alloc: Global, pdu: &mut Pdu) -> Said {
        match pdu.copy(alloc) {
            Ok(copy) => usual(copy == *pdu && says(&copy, 40, b"HELLO")),
            Err(_) => refused(says(pdu, 40, b"HELLO")),
        }
    }
}
