//! A recording with as many entries as there can be, and the texts of faults that no command
//! prints.

use exercise_check::CertificateFault;
use exercise_recording::RecordingFault;
use siman_console::FilesFault;
use siman_refusals::put_full_recording;
use std::alloc::Global;
use std::io;
use std::io::Write;

/// Prints how a full recording and a full file answer to one more entry, and the texts of the
/// faults of `check_files`.
pub(crate) fn put_full<W: Write>(alloc: Global, out: &mut W) -> io::Result<()> {
    put_full_recording(alloc, out)?;
    let (recording, certificate) = (RecordingFault::Read, CertificateFault::Read);
    writeln!(
        out,
        "{}\n{}\n{}\n{}",
        FilesFault::Recording(recording),
        FilesFault::Certificate(certificate),
        FilesFault::Write,
        FilesFault::Memory
    )
}
