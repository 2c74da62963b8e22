//! Variable datums, and bytes that are refused as one.

use dis_records::{DatumFault, VariableDatum};

/// `held` if a datum with identifier 5, these bits and bytes is made and has them, else the fault
/// that returns the bytes, and `otherwise` if either differs.
fn said(bits: u32, bytes: Vec<u8>, same: &[u8]) -> &'static str {
    let (said, back) = match VariableDatum::new(5, bits, bytes) {
        Ok(datum) => {
            let is_held = (datum.id(), datum.bits()) == (5, bits) && datum.bytes() == same;
            return if is_held { "held" } else { "otherwise" };
        }
        Err(DatumFault::UnusedBits(back)) => ("unused bits", back),
        Err(DatumFault::WrongSize(back)) => ("wrong size", back),
    };
    if back.as_slice() == same {
        said
    } else {
        "otherwise"
    }
}

#[test]
fn variable_datums_hold_no_unused_bits(rt: HostRuntime) {
    let rows: [(u32, &[u8], &str); 4] = [
        (0, &[], "held"),
        (12, &[0xAB, 0xC0], "held"),
        (12, &[0xAB, 0xC1], "unused bits"),
        (12, &[0xAB], "wrong size"),
    ];
    for (bits, bytes, wanted) in rows {
        let owned = Vec::from_slice(rt.alloc(), bytes).expect(&rt, "there is memory");
        assert!(rt; said(bits, owned, bytes) == wanted);
    }
}
