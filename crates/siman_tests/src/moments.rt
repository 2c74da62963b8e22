//! Timestamps of moments by the units of the standard: an hour has 2^31 of them, and bit 0 says
//! that one is absolute.

use siman_stations::Moment;

/// Microseconds since 1970, and the absolute timestamp then.
const ABSOLUTE: [(u64, u32); 7] = [
    (0, 1),
    // A second has 596,523.2 units, of which the last part is cut.
    (1_000_000, 2 * 596_523 + 1),
    (1_800_000_000, 0x8000_0001),
    (4_500_000_000, 0x4000_0001),
    (3_599_999_999, 0xFFFF_FFFF),
    (3_600_000_000, 1),
    // 2026-12-01, 12:30:00 UTC.
    (1_796_128_200_000_000, 0x8000_0001),
];

/// The absolute timestamp is the time past the hour of the system's clock.
#[test]
fn a_moment_of_the_system_has_its_time_past_the_hour(rt: HostRuntime) {
    for (microseconds, stamp) in &ABSOLUTE {
        let moment = Moment::absolute(*microseconds);
        assert!(rt; moment.now == *microseconds && moment.stamp == *stamp);
    }
}

/// The relative timestamp has the lower 31 bits of the time.
#[test]
fn a_moment_of_a_world_has_the_lower_bits_of_its_time(rt: HostRuntime) {
    let moment = Moment::relative(0x1_8000_0003);
    assert!(rt; moment.now == 0x1_8000_0003 && moment.stamp == 6);
}
