//! Texts of random bytes, read as scripts.

use siman_scripts::{ScriptFault, read_script};
use std::alloc::Global;

/// Whether reading a text of up to 63 bytes, made from `seed`, ends without a lack of memory. The
/// bytes are mostly those of scripts.
fn is_answered(alloc: Global, seed: u64) -> bool {
    let pieces = b"exercise 1\nstation 2:3\ntick at 0#\r\xE9 deliver";
    let (mut text, mut number) = ([0; 64], seed);
    let length = seed as usize % 64;
    for place in 0..length {
        number = number
            .wrapping_mul(6_364_136_223_846_793_005)
            .wrapping_add(1_442_695_040_888_963_407);
        text[place] = pieces[(number >> 33) as usize % pieces.len()];
    }
    !matches!(
        read_script(alloc, &text[..length]),
        Err(ScriptFault::Memory)
    )
}

#[test]
fn random_texts_are_answered(rt: HostRuntime) {
    for seed in 0..65_536u64 {
        assert!(rt; is_answered(rt.alloc(), seed));
    }
}
