//! Certificates of recordings: their file format, and the checker that decides whether a
//! certificate's sequence of entries explains a recording. It never trusts anything but the log and
//! the certificate, and never searches for a sequence: `exercise_audit` does, step by step with a
//! [`Course`]. The layer above may rely on the contract of [`check`]: a yes is a run that explains
//! the recording, and a no is the first bad step and the first cause that holds there.
//!
//! [`check_found`] checks with findings that were made before, and returns them.
//! [`read_certificate`] returns the certificate whose text was read or the first field that is bad,
//! missing or past the limit, and [`write_certificate`] writes that text. The laws are
//! [`good_steps_have_no_cause`], [`conversion_keeps_checks`] (of a recording converted to the
//! second format), [`text_and_reading_agree`], [`refusals_hold`] and [`links_are_of_the_logs`]:
//! good certificates of one recording differ only in the sequence. [`report_text`] is the report of
//! a recording that a certificate explains, and [`no_line`] the row of a bad step.
#![tactic(auto)]

mod certificate;
mod certificate_fault;
mod certificate_reading;
mod certificate_text;
mod checker;
mod course;
mod cursors;
mod judgement;
mod laws;
mod link_laws;
mod number;
mod report;

pub use certificate::{Certificate, NO_LINK, Step};
pub use certificate_fault::{CertificateFault, CertificateFormatFault, CertificateWriterFault};
pub use certificate_reading::{fetch_certificate, read_certificate};
pub use certificate_text::write_certificate;
pub use checker::{BadStep, CheckFault, CheckResult, check, check_found};
pub use course::{Course, Progress};
pub use exercise_findings::Account as Checked;
pub use laws::{
    conversion_keeps_checks, good_steps_have_no_cause, past_the_limit_nothing_counts,
    refusals_hold, text_and_reading_agree,
};
pub use link_laws::links_are_of_the_logs;
pub use report::{no_line, report_text};
