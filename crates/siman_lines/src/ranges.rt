//! Ranges of the numbers of a moment.

ghost use Rattle.std.specs.Prelude.{◌<◌, ◌^◌};

use siman_stations::Moment;

/// The numbers of a moment are in the ranges of their types. The call does nothing at run time.
pub fn moment_is_in_range(moment: Moment)
    ensures now { moment.now < 2 ^ 64 }
    ensures stamp { moment.stamp < 2 ^ 32 }
{
    let Moment {
        now: _now,
        stamp: _stamp,
    } = moment;
}
