//! Random datagrams, which spell a PDU of each kind, spoilt.

use crate::input::RandomInput;

/// Appends a variable datum record of fewer than 100 bits.
fn put_variable(input: &mut RandomInput) {
    let bits = input.random.below(100);
    input.put_some(4);
    input.put(&[0, 0, 0, (bits % 256) as u8]);
    input.put_some(bits.div_ceil(64).saturating_mul(8));
}

/// Appends the counts of fixed and variable records and the records, which are bare identifiers if
/// `are_ids` is set.
fn put_records(input: &mut RandomInput, are_ids: bool) {
    // Now and then about as many records as fit into a datagram.
    let most = if input.random.one_in(100) { 1030 } else { 3 };
    let (fixed, variable) = (input.random.below(most), input.random.below(3));
    let [high, low] = ((fixed % 65536) as u16).to_be_bytes();
    input.put(&[0, 0, high, low, 0, 0, 0, (variable % 256) as u8]);
    if are_ids {
        input.put_some(fixed.saturating_add(variable).saturating_mul(4));
        return;
    }
    input.put_some(fixed.saturating_mul(8));
    for _ in 0..variable {
        put_variable(input);
    }
}

/// Number of bytes of a body before its records, or of the whole body, by kind, with Create Entity
/// as kind 0.
const BODIES: [usize; 12] = [4, 4, 20, 16, 8, 8, 8, 8, 8, 8, 8, 0];

/// Appends the body of a kind of PDU.
fn put_body(input: &mut RandomInput, kind: usize) {
    input.put_some(BODIES[kind % 12]);
    if kind > 4 {
        put_records(input, kind == 7);
    }
}

/// Sets the length field to the length of the datagram, if it has that field.
fn set_length(bytes: &mut Vec<u8>) {
    let length = (bytes.len() % 65536) as u16;
    if bytes.len() > 9 {
        bytes[8..10].copy_from_slice(&length.to_be_bytes());
    }
}

/// Appends a datagram that spells a PDU of a random kind, and spoils it.
pub fn put_random_datagram(input: &mut RandomInput) {
    let kind = input.random.below(12);
    let version = if input.random.one_in(4) { 6 } else { 7 };
    let code = (kind % 256) as u8;
    input.put(&[version, 1, code.saturating_add(11), 5]);
    input.put_some(20);
    put_body(input, kind);
    set_length(&mut input.bytes);
    let ways = input.random.below(3);
    input.spoil(ways);
    if input.random.one_in(2) {
        set_length(&mut input.bytes);
    }
}
