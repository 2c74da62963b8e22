//! The setting of the recording that a session writes.

ghost use Rattle.std.specs.Prelude.{◌≡◌, IfOk};
ghost use Rattle.siman_operator.specs.Recorded.{open_setting};

use exercise_model::{ExerciseLog, Form, Recording, Setting, Station};
use std::alloc::{AllocError, Global};

/// A copy of a station.
fn station_copy(alloc: Global, station: &Station) -> Result<Station, AllocError>
    ensures { IfOk result (λ copy. copy ≡ station.now) }
{
    let opening = Vec::from_slice(alloc, station.opening())?;
    Ok(Station::new(station.address(), opening).unwrap())
}

/// Copies of stations.
fn station_copies(alloc: Global, stations: &[Station]) -> Result<Vec<Station>, AllocError>
    ensures { IfOk result (λ copies. copies.items ≡ stations.now) }
{
    let mut copies = Vec::new(alloc);
    for station in stations {
        copies.push(station_copy(alloc, station)?)?;
    }
    Ok(copies)
}

/// The setting of a recording with the stations of this one, in the open form.
pub(crate) fn open_setting(alloc: Global, recording: &Recording) -> Result<Setting, AllocError>
    ensures { IfOk result (λ setting. setting ≡ open_setting recording.now) }
{
    let setting = recording.setting();
    let stations = station_copies(alloc, setting.stations())?;
    Ok(Setting::new(Form::Open, setting.exercise(), stations).unwrap())
}
