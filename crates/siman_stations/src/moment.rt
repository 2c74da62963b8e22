//! The moments of a station: its time, and its timestamp.

ghost use Rattle.std.specs.Prelude.{◌≡◌};
ghost use Rattle.siman_stations.specs.Moments.{moment_of, absolute_moment};
ghost use Rattle.siman_stations.specs.StationTurn.{stamp_of};

/// Microseconds of an hour.
const HOUR: u64 = 3_600_000_000;

/// A time of a station's clock, and the timestamp of what is sent at it.
#[derive(Clone, Copy, Debug, PartialEq, Eq)]
pub struct Moment {
    /// Time of the clock.
    pub now: u64,
    /// Timestamp of what is sent.
    pub stamp: u32,
}

impl Moment {
    /// The moment of a world: the time past the hour is the lower 31 bits of the time, relative.
    pub fn relative(now: u64) -> Moment
        ensures { result ≡ moment_of now }
    {
        Moment {
            now,
            stamp: stamp_of(now),
        }
    }

    /// The moment of this many microseconds since 1970: the time past the hour in units of an hour /
    /// 2^31, absolute.
    pub fn absolute(microseconds: u64) -> Moment
        ensures { result ≡ absolute_moment microseconds }
    {
        let past_hour = (microseconds % HOUR) * 0x8000_0000 / HOUR;
        Moment {
            now: microseconds,
            stamp: 2 * past_hour as u32 + 1,
        }
    }
}

/// Timestamp of what is sent at this time of the clock: the time past the hour is its lower 31
/// bits, relative.
pub fn stamp_of(now: u64) -> u32
    ensures { result ≡ stamp_of now }
{
    2 * (now % 0x8000_0000) as u32
}
