//! A review at its limit: a station with as many entities as there can be, all of which are stopped
//! and started again, over and over.

use exercise_findings::Findings;
use exercise_recording::RecordingView;
use exercise_review::{ReviewFault, Reviewed};
use std::alloc::{AllocError, Global};

/// The entry of a Stop/Freeze of 1:1 to all entities of 2:3, up to the last byte of the request
/// identifier: kind and station of the entry, its clock, the length of the datagram, and its bytes.
static STOP: [u8; 52] = [
    2, 0, 1, 0, 0, 0, 0, 0, 0, 0, 0, 0, 0x28, 7, 1, 0x0E, 5, 0, 0, 0, 0, 0, 0x28, 0, 0, 0, 1, 0, 1,
    0, 0, 0, 2, 0, 3, 0xFF, 0xFF, 0, 0, 0, 0, 0, 0, 0, 0, 0, 0, 0, 0, 0, 0, 0,
];

/// The entry of a Start/Resume to all, in the same layout.
static START: [u8; 56] = [
    2, 0, 1, 0, 0, 0, 0, 0, 0, 0, 0, 0, 0x2C, 7, 1, 0x0D, 5, 0, 0, 0, 0, 0, 0x2C, 0, 0, 0, 1, 0, 1,
    0, 0, 0, 2, 0, 3, 0xFF, 0xFF, 0, 0, 0, 0, 0, 0, 0, 0, 0, 0, 0, 0, 0, 0, 0, 0, 0, 0, 0,
];

/// The entry of the answer of 2:3, up to the byte of the flag.
static ABLE: [u8; 38] = [
    1, 0, 1, 0, 0, 0, 0, 0, 0, 0, 0, 0, 0x20, 7, 1, 0x0F, 5, 0, 0, 0, 0, 0, 0x20, 0, 0, 0, 2, 0, 3,
    0, 0, 0, 1, 0, 1, 0, 0, 0,
];

/// Appends the order with this number, a stop if it is odd and a start if not, and its able answer.
fn put_change(file: &mut Vec<u8>, number: u8) -> Result<(), AllocError> {
    let stops = number % 2 == 1;
    if stops {
        file.extend_from_slice(&STOP)?;
    } else {
        file.extend_from_slice(&START)?;
    }
    file.push(number)?;
    file.extend_from_slice(&ABLE)?;
    let flag = if stops { 4 } else { 3 };
    file.extend_from_slice(&[flag, 0, 1, 0, 0, 0, number])
}

/// The recording of 1:1 and 2:3, in which 65,533 entities run at first and change state `changes`
/// times.
fn crowd(alloc: Global, changes: u8) -> Result<Vec<u8>, AllocError> {
    let mut file = Vec::new(alloc);
    file.extend_from_slice(b"DSRC0001")?;
    file.extend_from_slice(&[1, 0, 2, 0, 1, 0, 1, 0, 0, 0, 2, 0, 3, 0xFF, 0xFD])?;
    for entity in 1..=65_533u16 {
        file.extend_from_slice(&entity.to_be_bytes())?;
        file.push(2)?;
    }
    for number in 1..=changes {
        put_change(&mut file, number)?;
    }
    let entries = 2 * u32::from(changes);
    file.push(0)?;
    file.extend_from_slice(&entries.to_be_bytes())?;
    Ok(file)
}

/// Number of spans in the review of a recording, or its fault; `None` if the file is no recording.
fn spans(alloc: Global, file: &[u8]) -> Option<Result<usize, ReviewFault>> {
    let log = RecordingView::over(alloc, file).ok()?;
    let findings = Findings::of(alloc, &log).ok()?;
    Some(Reviewed::of(alloc, findings).map(|reviewed| reviewed.span_count()))
}

/// 65,533 entities that change 63 times have 4,194,112 spans, and the review has 4,194,115 rows.
/// With one change more there would be more than 4,194,304.
#[test]
fn a_review_is_made_up_to_its_limit(rt: HostRuntime) {
    let file = crowd(rt.alloc(), 63).expect(&rt, "there is memory");
    assert!(rt; spans(rt.alloc(), &file) == Some(Ok(65_533 * 64)));
    let file = crowd(rt.alloc(), 64).expect(&rt, "there is memory");
    assert!(rt; spans(rt.alloc(), &file) == Some(Err(ReviewFault::OverLimit)));
}
