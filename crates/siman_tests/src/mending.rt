//! Mending a recording within a small limit. Torn recordings are cases of `siman_cases`.

use exercise_recording::*;

/// The recording of station 2:3 with entity 7 stopped, which received a datagram of two bytes, sent
/// one of one byte, and told that entity 7 runs. Its entries begin at 20, 35 and 49, and the end at
/// 55.
const THREE: [u8; 60] = [
    0x44, 0x53, 0x52, 0x43, 0x30, 0x30, 0x30, 0x31, 1, 0, 1, 0, 2, 0, 3, 0, 1, 0, 7, 1, 2, 0, 0, 0,
    0, 0, 0, 0, 0, 0, 5, 0, 2, 0xAB, 0xCD, 1, 0, 0, 0, 0, 0, 0, 0, 0, 1, 0, 0, 1, 0xEF, 3, 0, 0, 0,
    7, 2, 0, 0, 0, 0, 3,
];

#[test]
fn what_passes_the_limit_is_not_mended(rt: HostRuntime) {
    let alloc = rt.alloc();
    let whole = Mended {
        entries: 3,
        kept: 55,
        fault: None,
    };
    let mut out = Vec::new(alloc);
    assert!(rt; mend(alloc, THREE.as_slice(), 60, &mut out).ok() == Some(whole));
    assert!(rt; out.as_slice() == THREE.as_slice());
    for (limit, offset) in [(59, 56), (34, 33)] {
        let fault = RecordingFault::Format(FormatFault::OverLimit(offset));
        let mut out = Vec::new(alloc);
        let refusal = mend(alloc, THREE.as_slice(), limit, &mut out).err();
        assert!(rt; refusal == Some(MendFault::Recording(fault)) && out.is_empty());
    }
}
