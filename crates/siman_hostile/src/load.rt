//! A long exercise, and machines with many calls: about 100,000 of each, so that nothing fails
//! under load.

mod exercise;

use crate::load::exercise::put_exercise;
use siman_refusals::{put_halves, put_station};
use std::alloc::Global;
use std::io;
use std::io::Write;

/// Makes the long exercise, calls a manager, an application and a station, and prints the results.
pub(crate) fn put_load<W: Write>(alloc: Global, out: &mut W) -> io::Result<()> {
    put_exercise(alloc, out)?;
    put_halves(alloc, out)?;
    put_station(alloc, out)
}
